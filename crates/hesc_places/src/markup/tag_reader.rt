//! The reader of a tag's attributes.
ghost use Rattle.std.specs.Prelude.{◌≡◌, length, map, IfOk};
ghost use Rattle.std.specs.Option.{option_map};
ghost use Rattle.hesc_places.specs.Pages.AttributeReadings.{
  attribute_at,
  attributes_at,
  differ,
  ending,
  entry,
  first_ending,
  quoted_at,
  unquoted_at,
  value_at,
};

use crate::markup::names::add_name;
use crate::markup::prefix::{letters_at, past, white_space_at};
use crate::markup::types::{Quoting, ReadAttribute};
use hesc_grammars::{End, Place, read_place};
use std::alloc::{AllocError, Allocator};
use std::collections::BTreeSet;

/// The attributes that follow one another at the front, and the bytes after them.
pub(crate) fn attributes_at<A: Allocator + Clone>(
    alloc: A,
    bytes: &[u8],
) -> Result<(Vec<ReadAttribute<A>, A>, &[u8]), AllocError>
    ensures { IfOk result (λ found.
        (map (λ a. entry a.0.items a.1 a.2.items) found.0.items, found.1.now)
        ≡ attributes_at (length bytes.now) bytes.now) }
{
    let mut attributes = Vec::new(alloc.clone()?);
    let mut rest = bytes;
    for _ in 0..bytes.len() {
        match attribute_at(alloc.clone()?, rest)? {
            None => return Ok((attributes, rest)),
            Some((attribute, after)) => {
                attributes.push(attribute)?;
                rest = after;
            }
        }
    }
    Ok((attributes, rest))
}

// White space, a name, `=` and a value, and the bytes after them.
#[tactic(auto, unfolding(crate::specs::Pages::AttributeReadings::attribute_at))]
fn attribute_at<A: Allocator + Clone>(
    alloc: A,
    bytes: &[u8],
) -> Result<Option<(ReadAttribute<A>, &[u8])>, AllocError>
    ensures { IfOk result (λ found.
        option_map (λ a. (entry a.0.0.items a.0.1 a.0.2.items, a.1.now)) found
        ≡ attribute_at bytes.now) }
{
    let gap = white_space_at(bytes);
    if gap == 0 {
        return Ok(None);
    }
    let (_, named) = bytes.split_at(gap);
    let letters = letters_at(named);
    if letters == 0 {
        return Ok(None);
    }
    let (name, rest) = named.split_at(letters);
    let Some(after) = past(rest, b"=") else {
        return Ok(None);
    };
    let Some((quoting, value, rest)) = value_at(alloc.clone()?, after)? else {
        return Ok(None);
    };
    let name = Vec::from_slice(alloc, name)?;
    Ok(Some(((name, quoting, value), rest)))
}

// A value, and the bytes after it.
#[tactic(auto, unfolding(crate::specs::Pages::AttributeReadings::value_at))]
fn value_at<A: Allocator>(
    alloc: A,
    bytes: &[u8],
) -> Result<Option<(Quoting, Vec<u8, A>, &[u8])>, AllocError>
    ensures { IfOk result (λ found. option_map (λ v. (v.0, v.1.items, v.2.now)) found
        ≡ value_at bytes.now) }
{
    match bytes {
        [] => Ok(None),
        [b'"', inside @ ..] => quoted_at(alloc, Quoting::Double, Place::DoubleAttribute, inside),
        [b'\'', inside @ ..] => quoted_at(alloc, Quoting::Single, Place::SingleAttribute, inside),
        [_, ..] => unquoted_at(alloc, bytes),
    }
}

// A value after its opening quote mark; its closing mark is taken.
#[tactic(auto, unfolding(crate::specs::Pages::AttributeReadings::quoted_at))]
fn quoted_at<A: Allocator>(
    alloc: A,
    quoting: Quoting,
    place: Place,
    bytes: &[u8],
) -> Result<Option<(Quoting, Vec<u8, A>, &[u8])>, AllocError>
    ensures { IfOk result (λ found. option_map (λ v. (v.0, v.1.items, v.2.now)) found
        ≡ quoted_at quoting place bytes.now) }
{
    let Some(found) = read_place(alloc, place, bytes)? else {
        return Ok(None);
    };
    let (_, after) = bytes.split_at(found.end + 1);
    Ok(Some((quoting, found.value, after)))
}

// A value without quote marks, up to its ending.
#[tactic(auto, unfolding(crate::specs::Pages::AttributeReadings::unquoted_at))]
fn unquoted_at<A: Allocator>(
    alloc: A,
    bytes: &[u8],
) -> Result<Option<(Quoting, Vec<u8, A>, &[u8])>, AllocError>
    ensures { IfOk result (λ found. option_map (λ v. (v.0, v.1.items, v.2.now)) found
        ≡ unquoted_at bytes.now) }
{
    let Some(end) = first_ending(bytes) else {
        return Ok(None);
    };
    let Some(found) = read_place(alloc, Place::UnquotedAttribute(end), bytes)? else {
        return Ok(None);
    };
    let (_, after) = bytes.split_at(found.end);
    Ok(Some((Quoting::Unquoted, found.value, after)))
}

fn first_ending(bytes: &[u8]) -> Option<End>
    ensures { result ≡ first_ending bytes.now }
{
    let mut rest = bytes;
    'bytes: while let [byte, after @ ..] = rest {
        if let Some(end) = ending(*byte) {
            return Some(end);
        }
        rest = after;
    }
    None
}

fn ending(byte: u8) -> Option<End>
    ensures { result ≡ ending byte }
{
    match byte {
        b'\t' => Some(End::Tab),
        b'\n' => Some(End::LineFeed),
        b'\x0c' => Some(End::FormFeed),
        b' ' => Some(End::Space),
        b'>' => Some(End::Greater),
        _ => None,
    }
}

/// No name stands twice, found in `n log n`.
#[tactic(auto, using(crate::proofs::Pages::StoodNames::none_stood, crate::proofs::Pages::StoodNames::old_first, crate::proofs::Pages::StoodNames::new_first,))]
pub(crate) fn differ<A: Allocator + Clone>(
    alloc: A,
    attributes: &[ReadAttribute<A>],
) -> Result<bool, AllocError>
    ensures { IfOk result (λ answer. answer ≡ differ
        (map (λ a. a.name) (map (λ a. entry a.0.items a.1 a.2.items) attributes.now))) }
{
    let mut names = BTreeSet::new(alloc);
    for (name, _, _) in attributes {
        if add_name(&mut names, name.as_slice())? {
            return Ok(false);
        }
    }
    Ok(true)
}
