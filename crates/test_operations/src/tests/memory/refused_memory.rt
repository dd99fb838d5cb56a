//! Refused memory: the answer is Memory and the output is as it was, or the answer is right.
use crate::tests::forms::calls::{Call, fuller_rows, rows_of, to_cow, to_string, to_vec};
use hesc_core::{Sink, StringSink, VecSink, run};
use html_escape::{Decoder, EntityTable, Operation};
use std::alloc::{AllocError, Allocator, Global};
use std::process::Abort;
use std::test::Fail;
use test_support::Refusing;
use test_support::amounts::text_of;
use test_support::operations::OPERATIONS;
use test_support::rows::{Held, Row};

// One request more than a call makes.
const REFUSED_REQUESTS: u64 = 2;

#[test]
fn every_request_is_refused_in_turn(rt: HostRuntime) -> Result<(), Fail> {
    for &operation in &OPERATIONS {
        let wrong = first_wrong(rt.alloc(), Call::Of(operation))?;
        assert!(rt; wrong.is_none(), "{wrong:?}: {operation:?}");
    }
    let rows = fuller_rows(rt.alloc())?;
    let Ok(table) = EntityTable::new(rows.as_slice()) else {
        panic!(rt; "the fuller rows are a table");
    };
    assert!(rt; first_wrong(rt.alloc(), Call::By(&table))?.is_none());
    Ok(())
}

/// The first text of the call that a form does not survive.
pub fn first_wrong(alloc: Global, of: Call<'_>) -> Result<Option<&'static str>, AllocError> {
    for row in rows_of(of) {
        for number in 1..=REFUSED_REQUESTS {
            if !survives_cow(alloc, of, *row, number)
                || !survives_strings(alloc, of, *row, number)?
                || !survives_vecs(alloc, of, *row, number)?
            {
                return Ok(Some(row.0));
            }
        }
    }
    Ok(None)
}

// The `Cow` form asks once where something changes, and else not at all.
fn survives_cow(alloc: Global, of: Call<'_>, row: Row, number: u64) -> bool {
    let (text, made, held) = row;
    let heap = Refusing::new(alloc, number);
    let is_ok = gives_cow(&heap, of, text, made);
    let requests = if held == Held::Borrowed { 0 } else { 1 };
    heap.asked(number) == requests && is_ok == (requests < number)
}

// Whether the call answers, and then rightly.
fn gives_cow<A: Allocator>(alloc: A, of: Call<'_>, text: &str, made: &str) -> bool {
    match to_cow(of, alloc, text) {
        Ok(cow) => cow.as_str() == made,
        Err(AllocError) => false,
    }
}

// How often memory is asked for what is added, where there is so much room.
fn requests(made: &str, room: usize) -> u64 {
    if room < made.len() { 1 } else { 0 }
}

// The string form without room for what it adds, and with enough of it.
fn survives_strings(
    alloc: Global,
    of: Call<'_>,
    row: Row,
    number: u64,
) -> Result<bool, AllocError> {
    let (text, made, _) = row;
    let without = survives_string(alloc, of, (text, made), 0, number)?;
    let within = survives_string(alloc, of, (text, made), made.len(), number)?;
    Ok(without && within)
}

fn survives_string(
    alloc: Global,
    of: Call<'_>,
    (text, made): (&str, &str),
    room: usize,
    number: u64,
) -> Result<bool, AllocError> {
    let heap = Refusing::new(alloc, 0);
    let mut output = String::with_capacity(&heap, room.saturating_add(1))?;
    output.push('x')?;
    heap.refuse(number);
    let is_ok = match to_string(of, text, &mut output) {
        Ok(added) => is_same(added.as_bytes(), made),
        Err(AllocError) => false,
    };
    let added = if is_ok { made } else { "" };
    let requests = requests(made, room);
    Ok(
        is_ok == (requests < number)
            && heap.asked(number) == requests
            && is_x_and(output.as_str().as_bytes(), added),
    )
}

// The vector form likewise.
fn survives_vecs(alloc: Global, of: Call<'_>, row: Row, number: u64) -> Result<bool, AllocError> {
    let (text, made, _) = row;
    let without = survives_vec(alloc, of, (text, made), 0, number)?;
    let within = survives_vec(alloc, of, (text, made), made.len(), number)?;
    Ok(without && within)
}

fn survives_vec(
    alloc: Global,
    of: Call<'_>,
    (text, made): (&str, &str),
    room: usize,
    number: u64,
) -> Result<bool, AllocError> {
    let heap = Refusing::new(alloc, 0);
    let mut output = Vec::with_capacity(&heap, room.saturating_add(1))?;
    output.push(b'x')?;
    heap.refuse(number);
    let is_ok = match to_vec(of, text, &mut output) {
        Ok(added) => is_same(added, made),
        Err(AllocError) => false,
    };
    let added = if is_ok { made } else { "" };
    let requests = requests(made, room);
    Ok(
        is_ok == (requests < number)
            && heap.asked(number) == requests
            && is_x_and(output.as_slice(), added),
    )
}

fn is_same(added: &[u8], made: &str) -> bool {
    added == made.as_bytes()
}

fn is_x_and(output: &[u8], added: &str) -> bool {
    output.strip_prefix(b"x") == Some(added.as_bytes())
}

// For a text of 2,000 bytes that becomes one of 1,400: no room, less than half of the upper bound, half of
// it and more, which are tried in vain, and enough.
static ROOMS: [usize; 5] = [0, 999, 1_000, 1_399, 1_400];

#[test]
fn a_text_may_outgrow_half_of_its_upper_bound(rt: HostRuntime) -> Result<(), Fail> {
    let text = text_of(rt.alloc(), "letter&lt;", 1_990)?;
    let made = text_of(rt.alloc(), "letter<", 1_393)?;
    let texts = (text.as_str(), made.as_str());
    let of = Call::Of(Operation::Decode(Decoder::HtmlEntities));
    for &room in &ROOMS {
        for number in 1..=REFUSED_REQUESTS {
            let is_right = survives_string(rt.alloc(), of, texts, room, number)?
                && survives_vec(rt.alloc(), of, texts, room, number)?;
            assert!(rt; is_right, "room for {room} bytes, request {number}");
        }
    }
    Ok(())
}

#[test]
fn nothing_added_takes_no_memory(rt: HostRuntime) {
    let heap = Refusing::new(rt.alloc(), 1);
    for &operation in &OPERATIONS {
        assert!(rt; adds_nothing(&heap, operation), "{operation:?}");
    }
    assert!(rt; heap.asked(1) == 0);
}

// An empty piece, and the run over an empty text, into sinks without room.
fn adds_nothing<A: Allocator + Copy>(heap: A, operation: Operation) -> bool {
    let mut string = String::new(heap);
    let mut string_sink = StringSink::new(&mut string);
    let mut vec = Vec::new(heap);
    let mut vec_sink = VecSink::new(&mut vec);
    string_sink.put("").is_ok()
        && run(&operation, "", &mut string_sink).is_ok()
        && vec_sink.put("").is_ok()
        && run(&operation, "", &mut vec_sink).is_ok()
}
