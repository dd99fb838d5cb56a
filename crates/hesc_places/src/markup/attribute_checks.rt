//! The first fault of attributes.
ghost use Rattle.std.specs.Prelude.{◌≡◌, Bool, bytes_eq, map, IfOk};
ghost use Rattle.std.specs.List.{list_any};
ghost use Rattle.hesc_places.specs.Pages.FormFaults.{fault_where, first_fault};
ghost use Rattle.hesc_places.specs.Pages.FormTexts.{is_name, written};

use crate::markup::names::add_name;
use crate::markup::prefix::letters_at;
use crate::markup::types::{Attribute, FormFault, Quoting};
use std::alloc::{AllocError, Allocator};
use std::collections::BTreeSet;

/// So many names are compared one by one, which takes no memory.
const FEW_NAMES: usize = 32;

/// What is wrong first, attribute by attribute; never `Memory`.
///
/// More than a few names are kept in order, so that the time grows with `n log n`. Where that finds
/// no memory, they are compared one by one, with the same answer.
pub(crate) fn first_fault<A: Allocator>(alloc: &A, attributes: &[Attribute]) -> Option<FormFault>
    ensures { result ≡ first_fault (map written attributes.now) }
{
    if attributes.len() <= FEW_NAMES {
        return first_fault_one_by_one(attributes);
    }
    match first_fault_in_order(alloc, attributes) {
        Ok(fault) => fault,
        Err(AllocError) => first_fault_one_by_one(attributes),
    }
}

fn first_fault_in_order<A: Allocator>(
    alloc: &A,
    attributes: &[Attribute],
) -> Result<Option<FormFault>, AllocError>
    ensures { IfOk result (λ fault. fault ≡ first_fault (map written attributes.now)) }
{
    let mut names = BTreeSet::new(alloc);
    for place in 0..attributes.len() {
        let attribute = attributes[place];
        let stood = add_name(&mut names, attribute.name.as_bytes())?;
        if let Some(fault) = fault_where(stood, place, attribute) {
            return Ok(Some(fault));
        }
    }
    Ok(None)
}

fn first_fault_one_by_one(attributes: &[Attribute]) -> Option<FormFault>
    ensures { result ≡ first_fault (map written attributes.now) }
{
    for place in 0..attributes.len() {
        let attribute = attributes[place];
        let (earlier, _) = attributes.split_at(place);
        let stood = is_name_of_one(attribute.name, earlier);
        if let Some(fault) = fault_where(stood, place, attribute) {
            return Some(fault);
        }
    }
    None
}

// What is wrong with the attribute at this place, whose name stood before or not.
fn fault_where(stood: bool, place: usize, attribute: Attribute) -> Option<FormFault>
    ensures { result ≡ fault_where stood place (written attribute.entry) }
{
    if stood || !is_name(attribute.name) {
        return Some(FormFault::BadName(place));
    }
    if matches!(attribute.quoting, Quoting::Unquoted) && attribute.value.is_empty() {
        return Some(FormFault::EmptyUnquoted(place));
    }
    None
}

#[tactic(auto, using(crate::proofs::Pages::ParserLaws::letters_to_the_end))]
fn is_name(name: &str) -> bool
    ensures { result ≡ is_name name.now }
{
    !name.is_empty() && letters_at(name.as_bytes()) == name.len()
}

fn is_name_of_one(name: &str, attributes: &[Attribute]) -> bool
    ensures { result ≡ list_any (bytes_eq name.now)
        (map (λ a. a.name) (map written attributes.now)) }
{
    let mut rest = attributes;
    'names: while let [attribute, others @ ..] = rest {
        if name == attribute.name {
            return true;
        }
        rest = others;
    }
    false
}
