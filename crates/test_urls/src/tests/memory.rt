//! Memory: where it is refused the output is as it was; how many bytes are asked for, and how often by
//! many small appends.
use html_urls::{UrlPart, append_component, append_component_to_vec, encode_component, slots_of};
use std::alloc::{AllocError, Global};
use std::process::Abort;
use std::test::Fail;
use test_support::Refusing;
use test_support::amounts::{APPENDS, MOST_REQUESTS, SMALL, TEXTS, text_of};

#[test]
fn an_unreserved_text_takes_no_memory(rt: HostRuntime) -> Result<(), Fail> {
    let heap = Refusing::new(rt.alloc(), 1);
    assert!(rt; encode_component(&heap, "a-b").is_ok());
    assert!(rt; heap.asked(1) == 0);
    assert!(rt; encode_component(&heap, "a b").is_err());
    assert!(rt; heap.asked(1) == 1);
    Ok(())
}

#[test]
fn a_refusal_leaves_the_output_as_it_was(rt: HostRuntime) -> Result<(), Fail> {
    let heap = Refusing::new(rt.alloc(), 2);
    let mut page = String::from_str(&heap, "x")?;
    assert!(rt; append_component(&mut page, "a&b/../c").is_err());
    assert!(rt; page.as_str() == "x");
    assert!(rt; append_component(&mut page, "a&b/../c").is_ok());
    assert!(rt; page.as_str() == "xa%26b%2F..%2Fc");
    Ok(())
}

#[test]
fn a_refusal_leaves_the_bytes_as_they_were(rt: HostRuntime) -> Result<(), Fail> {
    let heap = Refusing::new(rt.alloc(), 1);
    let mut bytes = Vec::new(&heap);
    assert!(rt; append_component_to_vec(&mut bytes, "a&b").is_err());
    assert!(rt; bytes.is_empty());
    assert!(rt; append_component_to_vec(&mut bytes, "a&b").is_ok());
    assert!(rt; bytes.as_slice() == b"a%26b".as_slice());
    Ok(())
}

// What an output holds that has no room left.
static HELD: [&str; 2] = ["", "sixteen letters."];

#[test]
fn a_component_asks_for_its_length(rt: HostRuntime) -> Result<(), Fail> {
    for &(part, length) in &TEXTS {
        let text = text_of(rt.alloc(), part, length)?;
        let heap = Refusing::new(rt.alloc(), 0);
        let made = encode_component(&heap, text.as_str())?;
        let (made, asked) = (made.as_str().len(), heap.asked_bytes());
        assert!(rt;
            asked <= made.saturating_add(SMALL) as u64,
            "{part:?}: {asked}"
        );
        for &held in &HELD {
            let most = held.len().saturating_mul(2).saturating_add(made);
            let asked = asked_by_appends(rt.alloc(), text.as_str(), held)?;
            assert!(rt;
                asked <= most.saturating_add(SMALL) as u64,
                "{part:?}: {asked}"
            );
        }
    }
    Ok(())
}

// The more of what an append asks for after what is held, of a string and of a vector.
fn asked_by_appends(alloc: Global, text: &str, held: &str) -> Result<u64, AllocError> {
    let heap = Refusing::new(alloc, 0);
    let mut string = String::from_str(&heap, held)?;
    let mut bytes = held.as_bytes().to_vec(&heap)?;
    heap.refuse(0);
    append_component(&mut string, text)?;
    let by_string = heap.asked_bytes();
    heap.refuse(0);
    append_component_to_vec(&mut bytes, text)?;
    Ok(by_string.max(heap.asked_bytes()))
}

static SMALL_TEXTS: [&str; 5] = [
    "",
    "abc",
    "a/b",
    "a text of letters & more",
    "../../logout?a=%2F",
];

#[test]
fn small_components_ask_rarely(rt: HostRuntime) -> Result<(), Fail> {
    for &text in &SMALL_TEXTS {
        let heap = Refusing::new(rt.alloc(), 0);
        let mut string = String::new(&heap);
        for _ in 0..APPENDS {
            append_component(&mut string, text)?;
        }
        assert!(rt; heap.asked(0) <= MOST_REQUESTS, "{text}");
        heap.refuse(0);
        let mut bytes = Vec::new(&heap);
        for _ in 0..APPENDS {
            append_component_to_vec(&mut bytes, text)?;
        }
        assert!(rt; heap.asked(0) <= MOST_REQUESTS, "{text}");
    }
    Ok(())
}

// The room of a list is doubled when it is full, so that all requests together are for at most four times of
// what it holds. A slot takes two bytes.
const DOUBLED: usize = 4;

const SLOT: usize = 2;

#[test]
fn slots_ask_for_their_list_and_the_front(rt: HostRuntime) -> Result<(), Fail> {
    for &length in &[3, 1000, 65_536] {
        let front = text_of(rt.alloc(), "/a", length)?;
        for &count in &[1, 1000_usize] {
            let mut parts = Vec::new(rt.alloc());
            parts.push(UrlPart::Markup(front.as_str()))?;
            for _ in 0..count {
                parts.push(UrlPart::Markup("/b"))?;
                parts.push(UrlPart::Markup("/c-"))?;
                parts.push(UrlPart::Slot)?;
            }
            let heap = Refusing::new(rt.alloc(), 0);
            let Ok(slots) = slots_of(&heap, &parts) else {
                panic!(rt; "the parts have slots");
            };
            assert!(rt; slots.len() == count);
            let held = front.len().saturating_add(count.saturating_mul(SLOT));
            let most = held.saturating_mul(DOUBLED).saturating_add(2 * SMALL);
            let asked = heap.asked_bytes();
            assert!(rt; asked <= most as u64, "{asked} for {count} slots");
        }
    }
    Ok(())
}
