//! What has four forms: an operation, the decoding of references by a table that is handed in, and
//! what was planted to be refused.
use crate::tests::forms::values::{make, make_to_string, make_to_vec, make_to_writer};
use html_escape::*;
use std::alloc::{AllocError, Allocator, Global};
use std::borrow::CowStr;
use std::io::{self, Write};
use test_support::flaws::{Flaw, plant, plant_in_string, plant_in_vec, plant_in_writer};
use test_support::rows::{Row, references, rows};

#[derive(Clone, Copy)]
pub enum Call<'t> {
    Of(Operation),
    By(&'t EntityTable<'t>),
    /// `encode_text`, with something wrong.
    Planted(Flaw),
}

/// The texts of a call, and what it makes of them. A table that is handed in is the fuller one.
pub fn rows_of(call: Call<'_>) -> &'static [Row] {
    match call {
        Call::Of(operation) => rows(operation),
        Call::By(_) => &references::DECODED_BY_THE_FULLER_TABLE,
        Call::Planted(_) => rows(Operation::Encode(Encoder::Text)),
    }
}

// Where `copy` stands among the names of the built-in table.
const PLACE_OF_COPY: usize = 73;

/// The rows of the fuller table: the built-in ones, and `copy`.
pub fn fuller_rows(alloc: Global) -> Result<Vec<(&'static [u8], &'static str)>, AllocError> {
    let mut rows = EntityTable::built_in().rows().to_vec(alloc)?;
    rows.insert(PLACE_OF_COPY.min(rows.len()), (b"copy", "\u{A9}"))?;
    Ok(rows)
}

/// The `Cow` form.
pub fn to_cow<'t, A: Allocator>(
    call: Call<'_>,
    alloc: A,
    text: &'t str,
) -> Result<CowStr<'t, A>, AllocError> {
    match call {
        Call::Of(operation) => make(operation, alloc, text),
        Call::By(table) => decode_html_entities_with(alloc, table, text),
        Call::Planted(flaw) => plant(flaw, alloc, text),
    }
}

/// The string form.
pub fn to_string<'o, A: Allocator>(
    call: Call<'_>,
    text: &str,
    output: &'o mut String<A>,
) -> Result<&'o str, AllocError> {
    match call {
        Call::Of(operation) => make_to_string(operation, text, output),
        Call::By(table) => decode_html_entities_with_to_string(table, text, output),
        Call::Planted(flaw) => plant_in_string(flaw, text, output),
    }
}

/// The vector form.
pub fn to_vec<'o, A: Allocator>(
    call: Call<'_>,
    text: &str,
    output: &'o mut Vec<u8, A>,
) -> Result<&'o [u8], AllocError> {
    match call {
        Call::Of(operation) => make_to_vec(operation, text, output),
        Call::By(table) => decode_html_entities_with_to_vec(table, text, output),
        Call::Planted(flaw) => plant_in_vec(flaw, text, output),
    }
}

/// The writer form.
pub fn to_writer<W: Write>(call: Call<'_>, text: &str, output: &mut W) -> io::Result<()> {
    match call {
        Call::Of(operation) => make_to_writer(operation, text, output),
        Call::By(table) => decode_html_entities_with_to_writer(table, text, output),
        Call::Planted(flaw) => plant_in_writer(flaw, text, output),
    }
}
