//! Decoding by a table: each reference that has a value becomes it.
ghost use Rattle.std.specs.Prelude.{◌≡◌, ◌<◌, [], false, true, length, slice_index, IfNone, IfSome};
ghost use Rattle.hesc_specs.specs.Text.Ascii.{ampersand};
ghost use Rattle.hesc_specs.specs.References.Changes.{reference_changes, refers_at};
ghost use Rattle.hesc_specs.specs.References.Decoding.{decoded};
ghost use Rattle.hesc_specs.proofs.References.Applied.{applied-reference_changes};
ghost use Rattle.memchr.specs.Find.{is_byte};
ghost use Rattle.hesc_table.specs.Table.{rows_of};
ghost use Rattle.hesc_engine.specs.Next.{IsChangeAt};
ghost use Rattle.hesc_core.specs.Names.{names_rows};

pub mod names;
mod values;

use crate::rules::references::names::Names;
use crate::rules::references::values::value_of_body;
use hesc_engine::found::Found;
use hesc_engine::rule::Rule;
use hesc_engine::sought::{Seek, Sought};
use hesc_scan::find::first_of_two;
use hesc_table::EntityTable;
use hesc_table::growth::Growth;

/// The decoder of the references of a table.
///
/// Of the built-in table it changes the bytes 1 to 5 of `a&lt;b` to `<`.
#[derive(Clone, Copy)]
pub struct References<'a>(pub &'a EntityTable<'a>);

impl Rule for References<'_> {
    ghost changes_from = { λ rule. reference_changes (rows_of rule.0.now) };

    ghost made = { λ rule. decoded (rows_of rule.0.now) };

    ghost begins_at = { λ rule. refers_at (rows_of rule.0.now) };

    ghost is_sought = { λ rule. is_byte ampersand };

    ghost rows = { λ rule. [] };

    #[inline(always)]
    fn seeks(&self) -> Seek {
        Seek {
            sought: Sought::Byte(b'&'),
            texts: None,
        }
    }

    #[inline(always)]
    fn change_at(&self, text: &str, place: usize) -> Option<Found<'_>> {
        reference_at(Names::Of(self.0), text, place)
    }

    /// The source's length, or a fifth more, where the table knows that its values are so short.
    #[inline(always)]
    fn longest(&self, text: &str) -> Option<usize> {
        match self.0.growth() {
            Growth::Never => Some(text.len()),
            Growth::AtMostAFifth => text.len().checked_add(text.len() / 5),
            Growth::Unknown => None,
        }
    }

    ghost makes = { λ rule source _. applied-reference_changes (rows_of rule.0.now) source };
}

/// The reference at a `&`, and its value, or `None` where there is none that has a value.
///
/// Each `&` is judged by itself: what follows it goes up to the next `&` or `;`, so that no byte is
/// looked at more than twice for either.
///
/// By the built-in names, in `a&lt;b` at 1 it is the bytes 1 to 5, which become `<`.
#[inline(always)]
pub fn reference_at<'a>(names: Names<'_, 'a>, text: &str, place: usize) -> Option<Found<'a>>
    requires within { place < length text.now }
    requires sought { is_byte ampersand (slice_index text.now place) ≡ true }
    ensures none { IfNone result (refers_at (names_rows names.entry) text.now place ≡ false) }
    ensures found { IfSome result (IsChangeAt (refers_at (names_rows names.entry) text.now) text.now
        (reference_changes (names_rows names.entry) text.now) place) }
{
    let bytes = text.as_bytes();
    let end = first_of_two(b'&', b';', bytes, place + 1);
    if end == bytes.len() {
        return None;
    }
    if bytes[end] == b'&' {
        return None;
    }
    match value_of_body(names, &bytes[place + 1..end]) {
        Some(replacement) => Some(Found {
            start: place,
            end: end + 1,
            replacement,
        }),
        None => None,
    }
}
