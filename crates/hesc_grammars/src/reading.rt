//! The readers of places: what stands in a place, and where it ends.
ghost use Rattle.std.specs.Prelude.{◌≡◌, ◌<◌, ◌++◌, length, encode_utf8, IfOk, IfSome, OnOk};
ghost use Rattle.std.specs.Option.{option_map};
ghost use Rattle.std.specs.Str.{IsUtf8};
ghost use Rattle.hesc_grammars.specs.Places.{end_of, reading};

use crate::place::Place;
use crate::step::{Mode, Step, first_mode, step_of};
use crate::stretches::stretch;
use std::alloc::{AllocError, Allocator, Global};

/// What stands in a place, and where it ends.
#[derive(Debug, Drop, PartialEq, Eq)]
pub struct Reading<A: Allocator = Global> {
    /// The bytes that were read, each item's value.
    pub value: Vec<u8, A>,
    /// The position of the closing mark's first byte after the opening mark.
    pub end: usize,
}

/// Reads the bytes after a place's opening mark, up to its closing mark. There is `None` exactly
/// where the place's grammar has no reading. The bytes need be no UTF-8; where they are, the value is.
///
/// In `Place::Text`, `a&lt;b</p>` is read as `a<b`, which ends at byte 6.
pub fn read_place<A: Allocator>(
    alloc: A,
    place: Place,
    bytes: &[u8],
) -> Result<Option<Reading<A>>, AllocError>
    ensures value { IfOk result (λ found. option_map (λ r. (r.value.items, r.end)) found
        ≡ reading place bytes.now) }
    ensures within { IfOk result (λ found. IfSome found (λ r. r.end < length bytes.now)) }
    ensures utf8 { IsUtf8 bytes.now
        → IfOk result (λ found. IfSome found (λ r. IsUtf8 r.value.items)) }
{
    let mut value = Vec::new(alloc);
    let mut mode = first_mode(place);
    let mut rest = bytes;
    'reading: while !rest.is_empty() {
        let (plain, other) = rest.split_at(stretch(place, mode, rest));
        match step_of(place, mode, other) {
            Step::Close => {
                append_last(&mut value, plain)?;
                let end = bytes.len() - other.len();
                return Ok(Some(Reading { value, end }));
            }
            Step::Nothing => return Ok(None),
            Step::Byte(more, byte, next) => {
                if more >= other.len() {
                    return Ok(None);
                }
                append(&mut value, plain)?;
                value.push(byte)?;
                rest = other.split_at(more + 1).1;
                mode = next;
            }
            Step::Character(more, character, next) => {
                if more >= other.len() {
                    return Ok(None);
                }
                append(&mut value, plain)?;
                append_character(&mut value, character)?;
                rest = other.split_at(more + 1).1;
                mode = next;
            }
        }
    }
    Ok(None)
}

// Between two items of other kinds the stretch is often empty, and no call is made for it.
fn append<A: Allocator>(value: &mut Vec<u8, A>, stretch: &[u8]) -> Result<(), AllocError>
    ensures { OnOk result (value.new.items ≡ value.old.items ++ stretch.now) }
{
    if stretch.is_empty() {
        return Ok(());
    }
    if stretch.len() >= value.capacity() - value.len() {
        make_room(value, stretch)?;
    }
    value.extend_from_slice(stretch)
}

// Makes room for a stretch and an item after it, up to a power of two, as pushes alone would: in a room
// of its own size a long stretch would be doubled by the item.
#[cold]
#[inline(never)]
fn make_room<A: Allocator>(value: &mut Vec<u8, A>, stretch: &[u8]) -> Result<(), AllocError>
    ensures { value.new.items ≡ value.old.items }
{
    let least = value.len() + stretch.len() + 1;
    let room = least.checked_next_power_of_two().ok_or(AllocError)?;
    value.reserve(room - value.len())
}

// No item follows the last stretch, so no more room is asked for.
#[inline(always)]
fn append_last<A: Allocator>(value: &mut Vec<u8, A>, stretch: &[u8]) -> Result<(), AllocError>
    ensures { OnOk result (value.new.items ≡ value.old.items ++ stretch.now) }
{
    value.reserve_exact(stretch.len())?;
    value.extend_from_slice(stretch)
}

// Most characters that an encoder replaces are of one byte.
#[inline(always)]
fn append_character<A: Allocator>(value: &mut Vec<u8, A>, character: char) -> Result<(), AllocError>
    ensures { OnOk result (value.new.items ≡ value.old.items ++ encode_utf8 character) }
{
    if character.is_ascii() {
        value.push(character as u8)?;
        return Ok(());
    }
    value.extend_from_slice(character.encode_utf8(&mut [0; 4]).as_bytes())
}

/// The end of that reading, where there is one. It takes no memory, and a time linear in the bytes.
///
/// In `Place::Text`, `a&lt;b</p>` ends at byte 6.
pub fn end_of_place(place: Place, bytes: &[u8]) -> Option<usize>
    ensures { result ≡ option_map end_of (reading place bytes.now) }
{
    let mut mode = first_mode(place);
    let mut rest = bytes;
    'reading: while !rest.is_empty() {
        rest = rest.split_at(stretch(place, mode, rest)).1;
        match step_of(place, mode, rest) {
            Step::Close => return Some(bytes.len() - rest.len()),
            Step::Nothing => return None,
            Step::Byte(more, _, next) | Step::Character(more, _, next) => {
                if more >= rest.len() {
                    return None;
                }
                rest = rest.split_at(more + 1).1;
                mode = next;
            }
        }
    }
    None
}
