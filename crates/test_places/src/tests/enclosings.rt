//! Every encoder in every place that suits it: what stands between the marks, that it is read back,
//! and refused memory.
use crate::tests::memory::builders::{self, Builder};
use crate::tests::readers::survives_reading;
use hesc_places::{Place, suits};
use html_escape::{Encoder, Operation};
use std::alloc::{AllocError, Global};
use std::process::Abort;
use std::test::Fail;
use test_support::operations::OPERATIONS;
use test_support::places::{PLACES, enclosed, opening_mark, stands_in};
use test_support::rows::{Row, rows};

// What is read of a text after the opening mark: the text, with U+FFFD for NUL where the encoder
// writes it so; a body reads as its encoded text.
fn read_back(alloc: Global, encoder: Encoder, row: Row) -> Result<String, AllocError> {
    let (text, made, _) = row;
    match encoder {
        Encoder::Script | Encoder::Style => String::from_str(alloc, made),
        Encoder::UnquotedAttribute
        | Encoder::StyleSingleQuoted
        | Encoder::StyleDoubleQuoted
        | Encoder::StyleQuoted => without_nul(alloc, text),
        _ => String::from_str(alloc, text),
    }
}

fn without_nul(alloc: Global, text: &str) -> Result<String, AllocError> {
    let mut replaced = String::new(alloc);
    for character in text.chars() {
        replaced.push(if character == '\0' {
            '\u{fffd}'
        } else {
            character
        })?;
    }
    Ok(replaced)
}

#[test]
fn every_encoder_is_enclosed_and_read_back(rt: HostRuntime) -> Result<(), Fail> {
    let mut pairs = 0usize;
    for &operation in &OPERATIONS {
        let Operation::Encode(encoder) = operation else {
            continue;
        };
        for &place in &PLACES {
            if suits(encoder, place) {
                pairs = pairs.saturating_add(1);
                let wrong = first_wrong(rt.alloc(), encoder, place)?;
                assert!(rt; wrong.is_none(), "{wrong:?}: {encoder:?} in {place:?}");
            }
        }
    }
    // Twenty-six, the one that suits the unquoted place with each of its five endings.
    assert!(rt; pairs == 30);
    Ok(())
}

// The first text of the encoder that is not right between the marks.
fn first_wrong(
    alloc: Global,
    encoder: Encoder,
    place: Place,
) -> Result<Option<&'static str>, AllocError> {
    for row in rows(Operation::Encode(encoder)) {
        if stands_in(place, row.0) && !survives(alloc, encoder, place, *row)? {
            return Ok(Some(row.0));
        }
    }
    Ok(None)
}

/// Whether the text is enclosed and read back as the row says.
pub fn survives(
    alloc: Global,
    encoder: Encoder,
    place: Place,
    row: Row,
) -> Result<bool, AllocError> {
    let whole = enclosed(alloc, place, row.1)?;
    let value = read_back(alloc, encoder, row)?;
    let Some(after) = whole.strip_prefix(opening_mark(place)) else {
        return Ok(false);
    };
    if !builders::survives(
        alloc,
        Builder::Enclosed(encoder, place, row.0),
        whole.as_str(),
    )? {
        return Ok(false);
    }
    let read = (after.as_bytes(), value.as_bytes(), row.1.len());
    Ok(survives_reading(alloc, place, read))
}
