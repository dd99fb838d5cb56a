//! How many bytes each form of each operation asks for: no more than it reserves for its answer, and
//! what is held before where the output grows.
use crate::tests::forms::calls::{Call, fuller_rows, to_cow, to_string, to_vec};
use html_escape::{Encoder, EntityTable, Operation};
use std::alloc::{AllocError, Global};
use std::process::Abort;
use std::test::Fail;
use test_support::Refusing;
use test_support::amounts::{SMALL, TEXTS, text_of};
use test_support::operations::OPERATIONS;

// How much a form reserves for what it makes of the text: the length of what an encoder of HTML or of
// strings makes, and of strings three bytes more at most for each byte E2 and one for each NUL; a bound
// of a body's, at most twice the length. A decoder reserves the length of the source.
fn reserved(of: Call<'_>, text: &str, made: &str) -> usize {
    match of {
        Call::Of(Operation::Encode(encoder)) => match encoder {
            Encoder::TextMinimal
            | Encoder::Text
            | Encoder::DoubleQuotedAttribute
            | Encoder::SingleQuotedAttribute
            | Encoder::QuotedAttribute
            | Encoder::Safe
            | Encoder::UnquotedAttribute => made.len(),
            Encoder::Script | Encoder::Style => made.len().saturating_mul(2),
            _ => made.len().saturating_add(over_counted(text)),
        },
        Call::Of(Operation::Decode(_)) | Call::By(_) => text.len().max(made.len()),
        Call::Planted(_) => made.len(),
    }
}

fn over_counted(text: &str) -> usize {
    let mut count: usize = 0;
    for &byte in text.as_bytes() {
        if byte == 0xE2 || byte == 0 {
            count = count.saturating_add(3);
        }
    }
    count
}

#[test]
fn a_table_that_is_handed_in_asks_for_its_answer_alone(rt: HostRuntime) -> Result<(), Fail> {
    let rows = fuller_rows(rt.alloc())?;
    let Ok(table) = EntityTable::new(rows.as_slice()) else {
        panic!(rt; "the fuller rows are a table");
    };
    for &(part, length) in &TEXTS {
        let text = text_of(rt.alloc(), part, length)?;
        let is_right = asks_little(rt.alloc(), Call::By(&table), text.as_str())?;
        assert!(rt; is_right, "{length} bytes of {part:?}");
    }
    Ok(())
}

#[test]
fn every_form_asks_for_its_answer_alone(rt: HostRuntime) -> Result<(), Fail> {
    for &(part, length) in &TEXTS {
        let text = text_of(rt.alloc(), part, length)?;
        let greedy = first_greedy(rt.alloc(), text.as_str())?;
        assert!(rt;
            greedy.is_none(),
            "{greedy:?} of {length} bytes of {part:?}"
        );
    }
    Ok(())
}

// The first operation that asks for more.
fn first_greedy(alloc: Global, text: &str) -> Result<Option<Operation>, AllocError> {
    for &operation in &OPERATIONS {
        if !asks_little(alloc, Call::Of(operation), text)? {
            return Ok(Some(operation));
        }
    }
    Ok(None)
}

// What an output holds that has no room left.
static HELD: [&str; 2] = ["", "sixteen letters."];

/// Whether each form that takes memory asks for no more than it reserves, with as much again as is
/// held where the output grows, and for nothing where nothing changes and the text is borrowed.
pub fn asks_little(alloc: Global, of: Call<'_>, text: &str) -> Result<bool, AllocError> {
    let heap = Refusing::new(alloc, 0);
    let made = to_cow(of, &heap, text)?;
    let reserved = reserved(of, text, made.as_str()).saturating_add(SMALL);
    let most = if made.as_str() == text { 0 } else { reserved };
    if heap.asked_bytes() > most as u64 {
        return Ok(false);
    }
    for &held in &HELD {
        let most = reserved.saturating_add(held.len().saturating_mul(2)) as u64;
        if asked_by_string(alloc, of, text, held)? > most
            || asked_by_vec(alloc, of, text, held)? > most
        {
            return Ok(false);
        }
    }
    Ok(true)
}

// What is asked for after what is held.
fn asked_by_string(alloc: Global, of: Call<'_>, text: &str, held: &str) -> Result<u64, AllocError> {
    let heap = Refusing::new(alloc, 0);
    let mut output = String::from_str(&heap, held)?;
    heap.refuse(0);
    to_string(of, text, &mut output)?;
    Ok(heap.asked_bytes())
}

fn asked_by_vec(alloc: Global, of: Call<'_>, text: &str, held: &str) -> Result<u64, AllocError> {
    let heap = Refusing::new(alloc, 0);
    let mut output = held.as_bytes().to_vec(&heap)?;
    heap.refuse(0);
    to_vec(of, text, &mut output)?;
    Ok(heap.asked_bytes())
}
