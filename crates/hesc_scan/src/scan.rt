//! The search for the next place at which an encoder may change something.
ghost use Rattle.std.specs.Prelude.{◌≡◌, ◌≢◌, ◌≤◌, length};
ghost use Rattle.hesc_specs.specs.Text.Classes.{in_class};
ghost use Rattle.hesc_specs.specs.Text.EscapedPlaces.{completes_separator};
ghost use Rattle.hesc_specs.specs.Text.FirstPlace.{IsFirstPlace};
ghost use Rattle.hesc_scan.specs.Blocks.{IsFirstBlock, IsPassed, mask_from};

use crate::block::Block;
use crate::flags::is_in;
pub use crate::flags::{FLAGS, flags_agree};
use crate::lookup::entries::Entries;
use crate::lookup::groups::Groups;
use crate::lookup::symbols::Symbols;
use crate::lookup::{Lookup, hits_in};
use hesc_specs::Class;
use std::simd::prelude::*;

/// The least place at or after `from` whose byte is in the class, or the length where there is
/// none.
///
/// `first_in(Class::Text, b"a<b", 0)` is 1, and from 2 on it is 3.
#[inline(always)]
pub fn first_in(class: Class, bytes: &[u8], from: usize) -> usize
    requires { from ≤ length bytes.now }
    ensures { IsFirstPlace (in_class class) bytes.now from result }
{
    // Where much is replaced, the first byte often is.
    if from < bytes.len() && is_in(class, bytes[from]) {
        return from;
    }
    first_by_blocks(class, bytes, from)
}

#[inline(always)]
fn first_by_blocks(class: Class, bytes: &[u8], from: usize) -> usize
    requires { from ≤ length bytes.now }
    ensures { IsFirstPlace (in_class class) bytes.now from result }
{
    let (place, mask) = first_block(class, bytes, from);
    if mask == 0 {
        return place;
    }
    place + mask.trailing_zeros() as usize
}

/// The mask of the first bytes at or after `from` among which one is in the class, 32 of them or as
/// many as there are, and the place where they begin. Where there is none, the length and an empty
/// mask.
///
/// `first_block(Class::Text, b"ab<c<", 1)` is `(1, 0b1010)`.
#[inline(never)]
pub fn first_block(class: Class, bytes: &[u8], from: usize) -> (usize, u64)
    requires { from ≤ length bytes.now }
    ensures { IsFirstBlock (in_class class) bytes.now from result.0 result.1 }
{
    // Each arm is a loop of one kind of look-up.
    match class {
        Class::TextMinimal
        | Class::Text
        | Class::DoubleQuotedAttribute
        | Class::SingleQuotedAttribute
        | Class::QuotedAttribute
        | Class::Safe => first_by_lanes(&Entries::of(class), bytes, from),
        Class::UnquotedAttribute => first_by_lanes(&Symbols, bytes, from),
        Class::ScriptSingleQuoted
        | Class::ScriptDoubleQuoted
        | Class::ScriptQuoted
        | Class::StyleSingleQuoted
        | Class::StyleDoubleQuoted
        | Class::StyleQuoted => first_by_lanes(&Groups::of(class), bytes, from),
    }
}

#[inline(always)]
fn first_by_lanes<L: Lookup>(lookup: &L, bytes: &[u8], from: usize) -> (usize, u64)
    requires { from ≤ length bytes.now }
    ensures { IsFirstBlock (L.has lookup.now) bytes.now from result.0 result.1 }
{
    let mut place = from;
    if bytes.len() - from >= 32 {
        // Where something is replaced, the next often stands near.
        let mask = lookup.hits(u8x32::from_slice(&bytes[from..]));
        if mask != 0 {
            return (from, mask);
        }
        let (reached, mask) = first_by_pairs(lookup, bytes, from + 32, bytes.len());
        if mask != 0 {
            return (reached, mask);
        }
        place = reached;
    }
    first_by_chunks(lookup, bytes, place)
}

/// The same up to `end`, by 64 bytes at a time as long as there are so many: an empty mask tells that
/// none of these is in the class.
#[inline(always)]
pub(crate) fn first_by_pairs<L: Lookup>(
    lookup: &L,
    bytes: &[u8],
    from: usize,
    end: usize,
) -> (usize, u64)
    requires ordered { from ≤ end }
    requires within { end ≤ length bytes.now }
    ensures passed { IsPassed (L.has lookup.now) bytes.now from result.0 }
    ensures mask { result.1 ≢ 0 → result.1 ≡ mask_from (L.has lookup.now) bytes.now result.0 }
{
    let mut place = from;
    'pairs: while end - place >= 64 {
        let first = lookup.hits(u8x32::from_slice(&bytes[place..]));
        let second = lookup.hits(u8x32::from_slice(&bytes[place + 32..]));
        if first | second != 0 {
            if first != 0 {
                return (place, first);
            }
            return (place + 32, second);
        }
        place += 64;
    }
    (place, 0)
}

/// The same by 32 bytes at a time, up to the end.
#[inline(always)]
pub(crate) fn first_by_chunks<L: Lookup>(lookup: &L, bytes: &[u8], from: usize) -> (usize, u64)
    requires { from ≤ length bytes.now }
    ensures { IsFirstBlock (L.has lookup.now) bytes.now from result.0 result.1 }
{
    let (chunks, _) = bytes[from..].as_chunks::<32>();
    let mut place = from;
    for chunk in chunks {
        let mask = lookup.hits(u8x32::from_array(*chunk));
        if mask != 0 {
            return (place, mask);
        }
        place += 32;
    }
    let mask = hits_in(lookup, &Block::rest(bytes, place));
    if mask == 0 {
        return (bytes.len(), 0);
    }
    (place, mask)
}

/// Whether the bytes after an E2 make a separator of it.
///
/// `completes_separator(&[0x80, 0xA8])`, and not `completes_separator(&[0x82, 0xAC])`.
#[inline(always)]
pub fn completes_separator(rest: &[u8]) -> bool
    ensures { result ≡ completes_separator rest.now }
{
    matches!(rest, [0x80, 0xA8 | 0xA9, ..])
}
