//! The allocator that refuses.
use std::test::Fail;
use test_support::Refusing;

#[test]
fn the_request_of_that_number_is_refused(rt: HostRuntime) {
    for number in 0..4u64 {
        let heap = Refusing::new(rt.alloc(), number);
        for request in 1..=3u64 {
            let bytes: Result<Vec<u8, &Refusing<_>>, _> = Vec::with_capacity(&heap, 8);
            assert!(rt;
                bytes.is_err() == (request == number),
                "{request} of {number}"
            );
            assert!(rt; heap.asked(number) == request);
        }
    }
}

#[test]
fn a_refused_growth_is_one_request(rt: HostRuntime) -> Result<(), Fail> {
    let heap = Refusing::new(rt.alloc(), 0);
    let mut bytes = Vec::new(&heap);
    bytes.extend_from_slice(b"ab")?;
    bytes.shrink_to_fit();
    heap.refuse(1);
    assert!(rt; bytes.push(b'c').is_err());
    assert!(rt; bytes.as_slice() == b"ab".as_slice());
    assert!(rt; heap.asked(1) == 1);
    bytes.push(b'c')?;
    assert!(rt; bytes.as_slice() == b"abc".as_slice());
    assert!(rt; heap.asked(1) == 2);
    Ok(())
}

#[test]
fn the_bytes_of_all_requests_are_added_up(rt: HostRuntime) -> Result<(), Fail> {
    let heap = Refusing::new(rt.alloc(), 3);
    let mut bytes: Vec<u8, &Refusing<_>> = Vec::with_capacity(&heap, 100)?;
    assert!(rt; heap.asked_bytes() == 100);
    bytes.reserve_exact(1000)?;
    assert!(rt; heap.asked_bytes() == 1100);
    assert!(rt; bytes.reserve_exact(1_000_000).is_err());
    assert!(rt; heap.asked_bytes() == 1_001_100);
    heap.refuse(0);
    assert!(rt; heap.asked_bytes() == 0);
    Ok(())
}
