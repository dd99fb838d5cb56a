//! Streams and memory that fail.
use crate::tests::faults::{REFUSALS, refusal};
use crate::tests::rows::{CHECKS, PAGES, success};
use crate::tests::serving::{
    CALM_STREAMS, Row, Served, Streams, args_of, ended, flushes, serve_over,
};
use std::alloc::{AllocError, Global};
use std::io::{self, ErrorKind};
use std::process::Abort;
use std::test::Fail;
use test_support::{Flush, Refusing, Trouble, Weakness};

const MEMORY: &str = "hesc: out of memory\n";

const WRITE: &str = "hesc: output cannot be written\n";

// More requests than a run makes.
const REQUESTS: u64 = 1000;

// Whether a refused request ends the program by the line of `Memory`, whichever it is, with nothing
// written, and a program whose requests are all met is right.
fn survives_refusals(alloc: Global, row: Row) -> Result<bool, AllocError> {
    for number in 1..=REQUESTS {
        let heap = Refusing::new(alloc, number);
        let args = args_of(alloc, row.words)?;
        let served = serve_over(&heap, alloc, Ok(args), row, CALM_STREAMS);
        if heap.asked(number) < number {
            return Ok(ended(&served, row.status, row.written, row.line, flushes(row)));
        }
        let has_status = served.status == 1 || served.status == row.status;
        if !has_status || !ended(&served, served.status, b"", MEMORY, 0) {
            return Ok(false);
        }
    }
    Ok(false)
}

#[test]
fn every_request_is_refused_in_turn(rt: HostRuntime) -> Result<(), Fail> {
    for &row in &PAGES[..5] {
        assert!(rt; survives_refusals(rt.alloc(), success(row))?, "{:?}", row.0);
    }
    for &row in &CHECKS[..2] {
        assert!(rt; survives_refusals(rt.alloc(), success(row))?, "{:?}", row.0);
    }
    for &row in &REFUSALS[..12] {
        assert!(rt; survives_refusals(rt.alloc(), refusal(row))?, "{:?}", row.4);
    }
    Ok(())
}

// The run of a row over these streams.
fn served_over(alloc: Global, row: Row, streams: Streams) -> Result<Served, AllocError> {
    let args = args_of(alloc, row.words)?;
    Ok(serve_over(alloc, alloc, Ok(args), row, streams))
}

// Whether a failed read of the input ends the program, whichever it is. It is read byte by byte, and once
// more for its end.
fn survives_readers(alloc: Global, row: Row) -> Result<bool, AllocError> {
    for at in 1..=row.input.len() as u64 + 1 {
        let mut streams = CALM_STREAMS;
        streams.input = Weakness::byte_by_byte(at, Trouble::Fails);
        let served = served_over(alloc, row, streams)?;
        if !ended(&served, 1, b"", "hesc: input cannot be read\n", 0) || served.reads != at {
            return Ok(false);
        }
    }
    Ok(true)
}

// Whether a failed read of the first file ends the program, whichever it is, with nothing read.
fn survives_files(alloc: Global, row: Row, line: &str) -> Result<bool, AllocError> {
    for at in 1..=3_u64 {
        let mut streams = CALM_STREAMS;
        streams.files = Weakness::byte_by_byte(at, Trouble::Interrupted);
        let served = served_over(alloc, row, streams)?;
        if !ended(&served, 1, b"", line, 0) || served.reads != 0 {
            return Ok(false);
        }
    }
    Ok(true)
}

#[test]
fn a_failed_read_ends_a_program(rt: HostRuntime) -> Result<(), Fail> {
    let list = success(PAGES[0]);
    assert!(rt; survives_readers(rt.alloc(), list)?);
    assert!(rt; survives_files(rt.alloc(), list, "hesc: v: cannot be read\n")?);
    let checked = success(CHECKS[1]);
    assert!(rt; survives_files(rt.alloc(), checked, "hesc: index: cannot be read\n")?);
    let calm = served_over(rt.alloc(), checked, CALM_STREAMS)?;
    assert!(rt; calm.reads == 0);
    Ok(())
}

// Whether a trouble of the output ends the program, whichever call it is at: the bytes before it have gone
// out, and nothing is flushed.
fn survives_writers(alloc: Global, row: Row) -> Result<bool, AllocError> {
    for trouble in [Trouble::Fails, Trouble::Interrupted, Trouble::Idle] {
        for at in 0..row.written.len() {
            let mut streams = CALM_STREAMS;
            streams.output = Weakness::byte_by_byte(at as u64 + 1, trouble);
            let served = served_over(alloc, row, streams)?;
            if !ended(&served, 1, &row.written[..at], WRITE, 0) {
                return Ok(false);
            }
        }
    }
    Ok(true)
}

// Whether a flush that fails ends the program, after all was written, and is not tried again.
fn survives_flush(alloc: Global, row: Row) -> Result<bool, AllocError> {
    let mut streams = CALM_STREAMS;
    streams.flush = Flush::Fails;
    let served = served_over(alloc, row, streams)?;
    Ok(ended(&served, 1, row.written, WRITE, 1))
}

#[test]
fn a_failed_write_or_flush_ends_a_program(rt: HostRuntime) -> Result<(), Fail> {
    for row in [success(PAGES[0]), success(CHECKS[0])] {
        assert!(rt; survives_writers(rt.alloc(), row)?, "{:?}", row.words);
        assert!(rt; survives_flush(rt.alloc(), row)?, "{:?}", row.words);
    }
    Ok(())
}

// Whether a trouble of the error stream cuts the line off there, and leaves the status.
fn survives_errors(alloc: Global, row: Row) -> Result<bool, AllocError> {
    let line = row.line.as_bytes();
    for at in 0..line.len() {
        let mut streams = CALM_STREAMS;
        streams.errors = Weakness::byte_by_byte(at as u64 + 1, Trouble::Fails);
        let served = served_over(alloc, row, streams)?;
        if served.status != row.status || served.errors.taken.as_slice() != &line[..at] {
            return Ok(false);
        }
    }
    Ok(true)
}

// Whether words that could not be had end the program so, with nothing read or written.
fn is_right_without_words(alloc: Global, why: ErrorKind, status: u8, line: &str) -> bool {
    let no_args = Err(io::Error::from(why));
    let served = serve_over(alloc, alloc, no_args, success(PAGES[0]), CALM_STREAMS);
    ended(&served, status, b"", line, 0) && served.reads == 0
}

#[test]
fn a_failed_error_stream_leaves_the_status(rt: HostRuntime) -> Result<(), Fail> {
    for row in [refusal(REFUSALS[0]), refusal(REFUSALS[8])] {
        assert!(rt; survives_errors(rt.alloc(), row)?, "{}", row.line);
    }
    let usage = "usage: hesc COMMAND [ARGUMENT..]\n";
    assert!(rt; is_right_without_words(rt.alloc(), ErrorKind::OutOfMemory, 1, MEMORY));
    assert!(rt; is_right_without_words(rt.alloc(), ErrorKind::InvalidData, 2, usage));
    Ok(())
}
