//! The tool's commands of every operation, and of every encoder in every place that suits it, over
//! streams and memory that fail.
use crate::tests::runs::{Run, is_right, survives_readers, survives_refusals, survives_writers};
use crate::tests::words::{encoder_word, operation_word, place_word};
use hesc_places::{Place, suits};
use html_escape::{Encoder, Operation};
use std::alloc::{AllocError, Global};
use std::process::Abort;
use std::test::Fail;
use test_support::operations::OPERATIONS;
use test_support::places::{PLACES, enclosed, stands_in};
use test_support::rows::{Row, rows};

fn survives(alloc: Global, wanted: Run<'_>) -> bool {
    is_right(alloc, wanted)
        && survives_refusals(alloc, wanted)
        && survives_readers(alloc, wanted)
        && survives_writers(alloc, wanted)
}

#[test]
fn every_operation_is_a_command(rt: HostRuntime) {
    for &operation in &OPERATIONS {
        let wrong = first_wrong_text(rt.alloc(), operation);
        assert!(rt; wrong.is_none(), "{wrong:?}: {operation:?}");
    }
}

// The first text of the operation whose run is not right.
fn first_wrong_text(alloc: Global, operation: Operation) -> Option<&'static str> {
    for (text, made, _) in rows(operation) {
        let wanted = Run {
            words: &[operation_word(operation)],
            input: text.as_bytes(),
            answer: Ok(()),
            written: made.as_bytes(),
        };
        if !survives(alloc, wanted) {
            return Some(*text);
        }
    }
    None
}

#[test]
fn every_encoder_encloses_for_every_place_that_suits_it(rt: HostRuntime) -> Result<(), Fail> {
    for &operation in &OPERATIONS {
        let Operation::Encode(encoder) = operation else {
            continue;
        };
        for &place in &PLACES {
            if suits(encoder, place) {
                let wrong = first_wrong_enclosing(rt.alloc(), encoder, place)?;
                assert!(rt; wrong.is_none(), "{wrong:?}: {encoder:?} in {place:?}");
            }
        }
    }
    Ok(())
}

// The first text of the encoder whose enclosing is not right.
fn first_wrong_enclosing(
    alloc: Global,
    encoder: Encoder,
    place: Place,
) -> Result<Option<&'static str>, AllocError> {
    for row in rows(Operation::Encode(encoder)) {
        if stands_in(place, row.0) && !encloses(alloc, encoder, place, *row)? {
            return Ok(Some(row.0));
        }
    }
    Ok(None)
}

fn encloses(alloc: Global, encoder: Encoder, place: Place, row: Row) -> Result<bool, AllocError> {
    let (text, made, _) = row;
    let enclosed = enclosed(alloc, place, made)?;
    Ok(survives(
        alloc,
        Run {
            words: &["enclose", encoder_word(encoder), place_word(place)],
            input: text.as_bytes(),
            answer: Ok(()),
            written: enclosed.as_bytes(),
        },
    ))
}
