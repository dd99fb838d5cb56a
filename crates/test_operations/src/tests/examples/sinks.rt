//! The examples of the sinks.
ghost use Rattle.std.specs.Prelude.{◌≡◌, codes};

use hesc_core::rules::Escape;
use hesc_core::{Class, Counter, Replacement, Segment, Sink, StringSink, VecSink, WriterSink, run};
use hesc_engine::AsciiTexts;
use hesc_engine::sinks::filled::FilledSink;
use hesc_engine::sinks::log::Log;
use hesc_engine::sinks::stack::StackSink;
use std::process::Abort;
use std::test::Fail;
use test_support::{Trouble, WeakWriter, Weakness};

#[test]
fn outputs_get_what_they_are_said_to(rt: HostRuntime) -> Result<(), Fail> {
    let mut string = String::from_str(rt.alloc(), "x")?;
    let mut sink = StringSink::new(&mut string);
    sink.put("ab")?;
    assert!(rt; sink.into_output().as_str() == "xab");
    let mut vec = b"x".to_vec(rt.alloc())?;
    let mut sink = VecSink::new(&mut vec);
    sink.put("ab")?;
    assert!(rt; sink.into_output().as_slice() == b"xab".as_slice());
    let mut sink = VecSink::new(&mut vec);
    run(&Escape(Class::Text), "a<", &mut sink)?;
    assert!(rt; sink.into_output().as_slice() == b"xaba&lt;".as_slice());
    Ok(())
}

#[test]
fn room_gets_what_it_is_said_to(rt: HostRuntime) -> Result<(), Fail> {
    let mut vec = Vec::with_capacity(rt.alloc(), 8)?;
    vec.push(b'x')?;
    let room = vec.capacity() - vec.len();
    let mut sink = FilledSink::new(&mut vec, room);
    sink.put("ab")?;
    assert!(rt; sink.into_output().as_slice() == b"xab".as_slice());
    let mut sink = StackSink::<16>::new();
    assert!(rt; sink.as_str().is_empty());
    assert!(rt; sink.put("ab").is_ok() && sink.as_str() == "ab");
    assert!(rt; sink.put("more than is left").is_err());
    Ok(())
}

#[test]
fn segments_and_stretches_are_put_as_they_are_said_to(rt: HostRuntime) -> Result<(), Fail> {
    let segment = Segment {
        start: 0,
        rest: b"a<b",
        kept: "a",
        new: Replacement::Borrowed("&lt;"),
    };
    let mut sink = StackSink::<16>::new();
    assert!(rt; sink.put_segment(segment).is_ok() && sink.as_str() == "a&lt;");
    let mut sink = StackSink::<16>::new();
    assert!(rt; sink.put_stretch(segment).is_ok() && sink.as_str() == "a");
    Ok(())
}

const LESS_THAN: [([u8; 8], usize); 128] = [(*b"&lt;\0\0\0\0", 4); 128];

#[test]
fn hits_are_put_as_they_are_said_to_be(rt: HostRuntime) -> Result<(), Fail> {
    let texts = AsciiTexts::new(&LESS_THAN);
    let Some(text) = texts.text_for(b'<') else {
        panic!(rt; "it has a text");
    };
    assert!(rt; text.as_str() == "&lt;");
    assert!(rt; texts.text_for(0x80).is_none());
    let long = "a<b, and then so many bytes that a block of them can be loaded";
    let mut counter = Counter::new();
    assert!(rt; counter.put_hits(long, 0, 0b10, texts) == 0 && counter.count() == 0);
    let mut sink = StackSink::<64>::new();
    assert!(rt; sink.put_hits(long, 0, 0b10, texts) == 2 && sink.as_str() == "a&lt;");
    let mut vec = Vec::with_capacity(rt.alloc(), 64)?;
    let mut sink = FilledSink::new(&mut vec, 64);
    assert!(rt; sink.put_hits(long, 0, 0b10, texts) == 2);
    assert!(rt; sink.into_output().as_slice() == b"a&lt;".as_slice());
    Ok(())
}

#[test]
fn a_writer_gets_what_it_is_said_to(rt: HostRuntime) -> Result<(), Fail> {
    let weakness = Weakness {
        step: 8,
        at: 0,
        trouble: Trouble::Calm,
    };
    let mut writer = WeakWriter::new(rt.alloc(), weakness);
    let mut sink = WriterSink::new(&mut writer);
    sink.put_some("")?;
    let output = sink.into_output();
    assert!(rt; output.calls == 0 && output.taken.is_empty());
    let mut sink = WriterSink::new(output);
    sink.put("ab")?;
    assert!(rt; sink.into_output().taken.as_slice() == b"ab".as_slice());
    Ok(())
}

// What a log says is known to proofs alone, so its examples are the clauses of these two.
fn log_of_two_bytes() -> Log
    ensures taken { result.taken ≡ codes "ab" }
    ensures failures { result.failures ≡ 0 }
{
    Log::new().after_taking(b"ab")
}

fn log_of_a_failure() -> Log
    ensures { result.failures ≡ 1 }
{
    Log::new().after_failing()
}

#[test]
fn counts_begin_as_they_are_said_to(rt: HostRuntime) -> Result<(), Fail> {
    let _taken = log_of_two_bytes();
    let _failed = log_of_a_failure();
    let mut counter = Counter::new();
    assert!(rt; counter.count() == 0);
    counter.put("ab")?;
    counter.put("\u{E9}")?;
    assert!(rt; counter.count() == 4);
    Ok(())
}
