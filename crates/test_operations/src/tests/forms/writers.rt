//! The writer forms over a writer that takes one byte a call, and has its trouble at one call.
use crate::tests::forms::calls::{Call, fuller_rows, rows_of, to_writer};
use hesc_core::{Sink, WriterSink};
use html_escape::{EntityTable, Operation, encode_text_to_writer, pieces};
use std::alloc::{AllocError, Global};
use std::io::{self, Error, ErrorKind};
use std::process::Abort;
use std::test::Fail;
use test_support::operations::OPERATIONS;
use test_support::rows::Row;
use test_support::{Trouble, WeakWriter, Weakness};

static TROUBLES: [Trouble; 3] = [Trouble::Fails, Trouble::Interrupted, Trouble::Idle];

#[test]
fn a_trouble_at_any_call_is_handed_on(rt: HostRuntime) -> Result<(), Fail> {
    for &operation in &OPERATIONS {
        let wrong = first_wrong(rt.alloc(), Call::Of(operation));
        assert!(rt; wrong.is_none(), "{wrong:?}: {operation:?}");
    }
    let rows = fuller_rows(rt.alloc())?;
    let Ok(table) = EntityTable::new(rows.as_slice()) else {
        panic!(rt; "the fuller rows are a table");
    };
    assert!(rt; first_wrong(rt.alloc(), Call::By(&table)).is_none());
    Ok(())
}

/// The first text of the call that it does not write rightly.
pub fn first_wrong(alloc: Global, of: Call<'_>) -> Option<&'static str> {
    for row in rows_of(of) {
        if !writes_all(alloc, of, *row) {
            return Some(row.0);
        }
        for &trouble in &TROUBLES {
            for at in 1..=row.1.len() as u64 {
                if !hands_on(alloc, of, *row, Weakness::byte_by_byte(at, trouble)) {
                    return Some(row.0);
                }
            }
        }
    }
    None
}

// Each byte is one call, and nothing else is asked of the writer.
fn writes_all(alloc: Global, of: Call<'_>, row: Row) -> bool {
    let (text, made, _) = row;
    let mut output = WeakWriter::new(alloc, Weakness::byte_by_byte(0, Trouble::Calm));
    to_writer(of, text, &mut output).is_ok()
        && output.taken.as_slice() == made.as_bytes()
        && output.calls == made.len() as u64
        && output.was_only_written()
}

// The bytes before the troubled call have gone out, and there is no call after it. The fault is the
// writer's own.
fn hands_on(alloc: Global, of: Call<'_>, row: Row, weakness: Weakness) -> bool {
    let (text, made, _) = row;
    let mut output = WeakWriter::new(alloc, weakness);
    let written = to_writer(of, text, &mut output);
    is_fault_of(alloc, written, weakness) == Ok(true)
        && made.as_bytes().starts_with(output.taken.as_slice())
        && output.taken.len() as u64 + 1 == weakness.at
        && output.calls == weakness.at
        && output.was_only_written()
}

// Whether what was answered is the fault of the troubled call, by kind and message.
fn is_fault_of(
    alloc: Global,
    written: io::Result<()>,
    weakness: Weakness,
) -> Result<bool, AllocError> {
    let Err(fault) = written else {
        return Ok(false);
    };
    if weakness.trouble == Trouble::Idle {
        return Ok(fault.kind() == ErrorKind::WriteZero);
    }
    match weakness.trouble.error_at(alloc, weakness.at) {
        Ok(own) => is_same(alloc, fault, own),
        Err(_) => Err(AllocError),
    }
}

fn is_same(alloc: Global, fault: Error, own: Error) -> Result<bool, AllocError> {
    let message = fault.to_string(alloc)?;
    Ok(fault.kind() == own.kind() && message.as_str() == own.to_string(alloc)?.as_str())
}

#[test]
fn a_writer_that_takes_much_is_called_once_for_a_piece(rt: HostRuntime) {
    let strong = Weakness {
        step: usize::MAX,
        at: 0,
        trouble: Trouble::Calm,
    };
    for &operation in &OPERATIONS {
        for row in rows_of(Call::Of(operation)) {
            let mut output = WeakWriter::new(rt.alloc(), strong);
            let is_ok = to_writer(Call::Of(operation), row.0, &mut output).is_ok();
            assert!(rt;
                is_ok && output.taken.as_slice() == row.1.as_bytes(),
                "{operation:?}"
            );
            let most = count_of_pieces(operation, row.0);
            assert!(rt; output.calls <= most, "{operation:?} of {:?}", row.0);
        }
    }
}

fn count_of_pieces(operation: Operation, text: &str) -> u64 {
    let mut pieces = pieces(&operation, text);
    let mut count = 0u64;
    for _ in 0..=text.len().saturating_mul(2) {
        if pieces.next().is_none() {
            return count;
        }
        count = count.saturating_add(1);
    }
    count
}

#[test]
fn an_empty_piece_is_no_call(rt: HostRuntime) {
    let mut output = WeakWriter::new(rt.alloc(), Weakness::byte_by_byte(1, Trouble::Fails));
    let mut sink = WriterSink::new(&mut output);
    assert!(rt; sink.put("").is_ok());
    let _output = sink.into_output();
    assert!(rt; output.calls == 0 && output.was_only_written());
}

// The call at which the writer fails, and what has then gone out of `a > b`.
static GONE_OUT: [(u64, &str); 9] = [
    (1, ""),
    (2, "a"),
    (3, "a "),
    (4, "a &"),
    (5, "a &g"),
    (6, "a &gt"),
    (7, "a &gt;"),
    (8, "a &gt; "),
    (9, "a &gt; b"),
];

#[test]
fn a_failed_writer_has_a_beginning(rt: HostRuntime) {
    for &(at, gone_out) in &GONE_OUT {
        let mut output = WeakWriter::new(rt.alloc(), Weakness::byte_by_byte(at, Trouble::Fails));
        let is_ok = encode_text_to_writer("a > b", &mut output).is_ok();
        assert!(rt; is_ok == (at == 9), "failing at {at}");
        assert!(rt;
            output.taken.as_slice() == gone_out.as_bytes(),
            "failing at {at}"
        );
        assert!(rt; output.calls == at.min(8), "failing at {at}");
    }
}
