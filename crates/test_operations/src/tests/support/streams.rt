//! The weak streams.
use std::alloc::{AllocError, Global};
use std::io::{self, ErrorKind, Read, Write};
use std::process::Abort;
use std::test::Fail;
use test_support::{Flush, Trouble, WeakReader, WeakWriter, Weakness};

type Answer = Result<usize, ErrorKind>;

fn answer(counted: io::Result<usize>) -> Answer {
    match counted {
        Ok(count) => Ok(count),
        Err(error) => Err(error.kind()),
    }
}

// Two bytes a call, and the trouble at the second.
fn weakness(trouble: Trouble) -> Weakness {
    Weakness {
        step: 2,
        at: 2,
        trouble,
    }
}

// What the second call answers, and what the writer has taken after three.
static WRITER_ANSWERS: [(Trouble, Answer, &[u8]); 4] = [
    (Trouble::Calm, Ok(2), b"abcdf"),
    (Trouble::Fails, Err(ErrorKind::StorageFull), b"abf"),
    (Trouble::Interrupted, Err(ErrorKind::Interrupted), b"abf"),
    (Trouble::Idle, Ok(0), b"abf"),
];

#[test]
fn a_writer_has_its_trouble_at_one_call(rt: HostRuntime) {
    for &(trouble, second, taken) in &WRITER_ANSWERS {
        let mut output = WeakWriter::new(rt.alloc(), weakness(trouble));
        assert!(rt; writes_three_times(&mut output, second), "{trouble:?}");
        assert!(rt; output.taken.as_slice() == taken, "{trouble:?}");
        assert!(rt; output.calls == 3, "{trouble:?}");
    }
}

fn writes_three_times(output: &mut WeakWriter, second: Answer) -> bool {
    answer(output.write(b"abc")) == Ok(2)
        && answer(output.write(b"cde")) == second
        && answer(output.write(b"f")) == Ok(1)
}

// What the second call answers, and what the reader has left after two.
static READER_ANSWERS: [(Trouble, Answer, &[u8]); 4] = [
    (Trouble::Calm, Ok(2), b"e"),
    (Trouble::Fails, Err(ErrorKind::Other), b"cde"),
    (Trouble::Interrupted, Err(ErrorKind::Interrupted), b"cde"),
    (Trouble::Idle, Ok(2), b"e"),
];

#[test]
fn a_reader_has_its_trouble_at_one_call(rt: HostRuntime) {
    for &(trouble, second, left) in &READER_ANSWERS {
        let mut input = WeakReader::new(b"abcde", weakness(trouble));
        assert!(rt; reads_twice(&mut input, second), "{trouble:?}");
        assert!(rt; input.left == left, "{trouble:?}");
        assert!(rt; input.calls == 2, "{trouble:?}");
    }
}

fn reads_twice(input: &mut WeakReader<'_>, second: Answer) -> bool {
    let mut buffer = [0u8; 3];
    answer(input.read(&mut buffer)) == Ok(2)
        && buffer == [b'a', b'b', 0]
        && answer(input.read(&mut buffer)) == second
}

#[test]
fn a_byte_a_call_is_enough(rt: HostRuntime) -> Result<(), Fail> {
    let weakness = Weakness::byte_by_byte(0, Trouble::Calm);
    let mut output = WeakWriter::new(rt.alloc(), weakness);
    output.write_all(b"abcde")?;
    assert!(rt; output.taken.as_slice() == b"abcde".as_slice());
    assert!(rt; output.calls == 5);
    let mut input = WeakReader::new(b"abcde", weakness);
    let mut bytes = Vec::new(rt.alloc());
    assert!(rt; input.read_to_end(&mut bytes)? == 5);
    assert!(rt; bytes.as_slice() == b"abcde".as_slice());
    assert!(rt; input.calls == 6);
    Ok(())
}

static KINDS: [ErrorKind; 4] = [
    ErrorKind::BrokenPipe,
    ErrorKind::StorageFull,
    ErrorKind::TimedOut,
    ErrorKind::StorageFull,
];

#[test]
fn each_failing_call_has_an_error_of_its_own(rt: HostRuntime) -> Result<(), Fail> {
    for (&kind, at) in KINDS.iter().zip(1..=4u64) {
        assert!(rt; fails_by(rt.alloc(), at, kind)?, "call {at}");
    }
    Ok(())
}

// Whether the call of that number fails by an error of that kind, with the number as its message.
fn fails_by(alloc: Global, at: u64, kind: ErrorKind) -> Result<bool, AllocError> {
    let mut output = WeakWriter::new(alloc, Weakness::byte_by_byte(at, Trouble::Fails));
    let Err(fault) = output.write_all(b"abcde") else {
        return Ok(false);
    };
    let message = fault.to_string(alloc)?;
    Ok(fault.kind() == kind && message.as_str() == at.to_string(alloc)?.as_str())
}

#[test]
fn flushes_and_empty_writes_are_counted(rt: HostRuntime) -> Result<(), Fail> {
    let weakness = Weakness::byte_by_byte(0, Trouble::Calm);
    let mut output = WeakWriter::new(rt.alloc(), weakness);
    assert!(rt; output.write(b"a")? == 1);
    assert!(rt; output.was_only_written());
    assert!(rt; output.write(b"")? == 0);
    assert!(rt; output.empty_calls == 1 && !output.was_only_written());
    assert!(rt; output.calls == 2 && output.taken.as_slice() == b"a".as_slice());
    let mut output = WeakWriter::new(rt.alloc(), weakness);
    output.flush()?;
    assert!(rt; output.flushes == 1 && !output.was_only_written());
    output.flush = Flush::Fails;
    assert!(rt; output.flush().is_err() && output.flush().is_err());
    assert!(rt; output.flushes == 3);
    assert!(rt; output.calls == 0 && output.taken.is_empty());
    Ok(())
}
