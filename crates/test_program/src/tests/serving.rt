//! The program over streams and memory that fail: what it does with them, and what it has to do.
use hesc_tool::serve;
use std::alloc::{AllocError, Allocator, Global};
use std::env::Args;
use std::io;
use test_support::{Flush, Refusing, Trouble, WeakReader, WeakWriter, Weakness};

/// The program's name and the words after it, what standard input has, and what has to come of
/// them: the status, what is written, and the line on the error stream.
#[derive(Clone, Copy)]
pub struct Serving<'s> {
    pub args: &'s [&'s str],
    pub input: &'s [u8],
    pub status: u8,
    pub written: &'s [u8],
    pub line: &'s str,
}

pub const MEMORY: &str = "hesc: out of memory\n";

const READ: &str = "hesc: input cannot be read\n";

const WRITE: &str = "hesc: output cannot be written\n";

/// How the three streams are weak.
#[derive(Clone, Copy)]
pub struct Streams {
    pub input: Weakness,
    pub output: Weakness,
    pub errors: Weakness,
    pub flush: Flush,
}

const CALM: Weakness = Weakness {
    step: 1,
    at: 0,
    trouble: Trouble::Calm,
};

const CALM_STREAMS: Streams = Streams {
    input: CALM,
    output: CALM,
    errors: CALM,
    flush: Flush::Succeeds,
};

/// What the program answered, how often it read, and what its streams got.
#[derive(Drop)]
pub struct Served {
    pub status: u8,
    pub reads: u64,
    pub output: WeakWriter,
    pub errors: WeakWriter,
}

/// Runs the program.
pub fn serve_over<A: Allocator>(
    alloc: A,
    args: io::Result<Args>,
    input: &[u8],
    streams: Streams,
    heap: Global,
) -> Served {
    let mut input = WeakReader::new(input, streams.input);
    let mut output = WeakWriter::new(heap, streams.output);
    output.flush = streams.flush;
    let mut errors = WeakWriter::new(heap, streams.errors);
    let status = serve(alloc, args, &mut input, &mut output, &mut errors);
    Served {
        status,
        reads: input.calls,
        output,
        errors,
    }
}

/// The words as the system gives them.
pub fn args_of(alloc: Global, words: &[&str]) -> Result<Args, AllocError> {
    let mut args = Vec::new(alloc);
    for word in words {
        args.push(String::from_str(alloc, word)?)?;
    }
    Ok(args.into_iter())
}

/// Whether the program ended so: with this status, output and error stream, and so many flushes of
/// the output. It flushes nothing else, and offers no stream nothing.
pub fn ended(served: &Served, status: u8, written: &[u8], line: &str, flushes: u64) -> bool {
    served.status == status
        && served.output.taken.as_slice() == written
        && served.errors.taken.as_slice() == line.as_bytes()
        && served.output.flushes == flushes
        && served.errors.flushes == 0
        && served.output.empty_calls == 0
        && served.errors.empty_calls == 0
}

// How often the output is flushed.
fn flushes(wanted: Serving<'_>) -> u64 {
    if wanted.status == 0 { 1 } else { 0 }
}

/// Whether the program is right over streams and memory without trouble.
pub fn is_right(alloc: Global, wanted: Serving<'_>) -> Result<bool, AllocError> {
    let args = args_of(alloc, wanted.args)?;
    let served = serve_over(alloc, Ok(args), wanted.input, CALM_STREAMS, alloc);
    let flushes = flushes(wanted);
    Ok(ended(&served, wanted.status, wanted.written, wanted.line, flushes))
}

// More requests than a program makes.
const REQUESTS: u64 = 64;

/// Whether a refused request ends the program by the line of `Memory`, whichever it is, with nothing
/// written, and a program whose requests are all met is right.
pub fn survives_refusals(alloc: Global, wanted: Serving<'_>) -> Result<bool, AllocError> {
    for number in 1..=REQUESTS {
        let heap = Refusing::new(alloc, number);
        let args = args_of(alloc, wanted.args)?;
        let served = serve_over(&heap, Ok(args), wanted.input, CALM_STREAMS, alloc);
        if heap.asked(number) < number {
            let flushes = flushes(wanted);
            return Ok(ended(&served, wanted.status, wanted.written, wanted.line, flushes));
        }
        if !ended(&served, 1, b"", MEMORY, 0) || served.output.calls != 0 {
            return Ok(false);
        }
    }
    Ok(false)
}

/// Whether a failed read ends the program by the line of `Read`, whichever it is, with nothing
/// written. A program that reads all its input reads once for each byte, and once more for its end.
pub fn survives_readers(alloc: Global, wanted: Serving<'_>) -> Result<bool, AllocError> {
    for trouble in [Trouble::Fails, Trouble::Interrupted] {
        for at in 1..=wanted.input.len() as u64 + 1 {
            let mut streams = CALM_STREAMS;
            streams.input = Weakness::byte_by_byte(at, trouble);
            let args = args_of(alloc, wanted.args)?;
            let served = serve_over(alloc, Ok(args), wanted.input, streams, alloc);
            if !ended(&served, 1, b"", READ, 0) || served.reads != at {
                return Ok(false);
            }
        }
    }
    Ok(true)
}

/// Whether a trouble of the output ends the program by the line of `Write`, whichever call it is at:
/// the bytes before it have gone out, and nothing is flushed.
pub fn survives_writers(alloc: Global, wanted: Serving<'_>) -> Result<bool, AllocError> {
    for trouble in [Trouble::Fails, Trouble::Interrupted, Trouble::Idle] {
        for at in 0..wanted.written.len() {
            let mut streams = CALM_STREAMS;
            streams.output = Weakness::byte_by_byte(at as u64 + 1, trouble);
            let args = args_of(alloc, wanted.args)?;
            let served = serve_over(alloc, Ok(args), wanted.input, streams, alloc);
            if !ended(&served, 1, &wanted.written[..at], WRITE, 0)
                || served.output.calls != at as u64 + 1
            {
                return Ok(false);
            }
        }
    }
    Ok(true)
}

/// Whether a flush that fails ends the program by the line of `Write`, after all was written, and
/// is not tried again.
pub fn survives_flush(alloc: Global, wanted: Serving<'_>) -> Result<bool, AllocError> {
    let mut streams = CALM_STREAMS;
    streams.flush = Flush::Fails;
    let args = args_of(alloc, wanted.args)?;
    let served = serve_over(alloc, Ok(args), wanted.input, streams, alloc);
    Ok(ended(&served, 1, wanted.written, WRITE, 1))
}

/// Whether a trouble of the error stream cuts the line off there, whichever call it is at, and
/// changes nothing else.
pub fn survives_errors(alloc: Global, wanted: Serving<'_>) -> Result<bool, AllocError> {
    let line = wanted.line.as_bytes();
    for trouble in [Trouble::Fails, Trouble::Interrupted, Trouble::Idle] {
        for at in 0..line.len() {
            let mut streams = CALM_STREAMS;
            streams.errors = Weakness::byte_by_byte(at as u64 + 1, trouble);
            let args = args_of(alloc, wanted.args)?;
            let served = serve_over(alloc, Ok(args), wanted.input, streams, alloc);
            if served.status != wanted.status
                || served.errors.taken.as_slice() != &line[..at]
                || served.errors.calls != at as u64 + 1
                || served.output.calls != 0
                || served.output.flushes != 0
            {
                return Ok(false);
            }
        }
    }
    Ok(true)
}

/// Whether the program is right where its words could not be had: nothing is read or written.
pub fn is_right_without_words(alloc: Global, why: io::ErrorKind, status: u8, line: &str) -> bool {
    let no_args = Err(io::Error::from(why));
    let served = serve_over(alloc, no_args, b"a<b", CALM_STREAMS, alloc);
    ended(&served, status, b"", line, 0) && served.reads == 0 && served.output.calls == 0
}
