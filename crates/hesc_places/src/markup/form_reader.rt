//! The reader of forms: what stands in a form, and where it ends.
ghost use Rattle.std.specs.Prelude.{◌≡◌, map, IfOk, IfSome};
ghost use Rattle.std.specs.Option.{option_map};
ghost use Rattle.std.specs.Str.{IsUtf8};
ghost use Rattle.hesc_places.specs.Pages.AttributeReadings.{entry};
ghost use Rattle.hesc_places.specs.Pages.FormEntries.{entries_of};
ghost use Rattle.hesc_places.specs.Pages.FormTexts.{AreGood};
ghost use Rattle.hesc_places.specs.Pages.FormReadings.{
  IsTextForm,
  alerted,
  after_attributes,
  form_reading,
  form_found,
  script_at,
  tag_end,
  with_attributes,
};

use crate::markup::prefix::{past, past_in_any_case, white_space_at};
use crate::markup::tag_reader::{attributes_at, differ};
use crate::markup::types::{Quoting, ReadAttribute};
use hesc_grammars::{Place, end_of_place, read_place};
use std::alloc::{AllocError, Allocator, Global};

/// What stands in a form, and where it ends.
#[derive(Debug, Drop, PartialEq, Eq)]
pub struct Form<A: Allocator = Global> {
    /// The attributes in order, each with its name, how its value is quoted, and its value.
    pub attributes: Vec<(Vec<u8, A>, Quoting, Vec<u8, A>), A>,
    /// The string that the script hands to `alert`.
    pub script: Vec<u8, A>,
    /// The position after the script's end tag.
    pub end: usize,
}

impl<A: Allocator> Form<A> {
    ghost use Rattle.hesc_places.specs.Pages.FormReadings.{value_of};

    /// The value of the attribute of this name, or `None` where there is none. A form that was read has
    /// no two attributes of one name; of one that was not, it is the first.
    ///
    /// Of `<input a=1 b="2"/><script>alert('x');</script>` the value of `b` is `2`, and there is none
    /// of `c`.
    pub fn value_of(&self, name: &str) -> Option<&[u8]>
        ensures { option_map (λ value. value.now) result
            ≡ value_of name.now (entries_of self.now) }
    {
        let mut rest = self.attributes.as_slice();
        'attributes: while let [(other, _, value), after @ ..] = rest {
            if name.as_bytes() == other.as_slice() {
                return Some(value.as_slice());
            }
            rest = after;
        }
        None
    }
}

/// Reads a form from the front of the bytes: an input's tag with any attributes, no two of one name,
/// and a script that hands one string to `alert`. There is `None` exactly where there is no reading,
/// and `AllocError` where memory, or a copy of `alloc`, is refused. The bytes need be no UTF-8. The
/// attributes are good, so that they can be written again by `build_form`, and of a text each value
/// is a text.
///
/// Of `<input/><script>alert('x');</script>` it has no attributes, and the script string `x`.
#[tactic(auto, unfolding(crate::specs::Pages::FormReadings::form_reading))]
pub fn read_form<A: Allocator + Clone>(
    alloc: A,
    bytes: &[u8],
) -> Result<Option<Form<A>>, AllocError>
    ensures value { IfOk result (λ found. option_map
        (λ f. form_found (entries_of f) f.script.items f.end) found ≡ form_reading bytes.now) }
    ensures good { IfOk result (λ found. IfSome found (λ f. AreGood (entries_of f))) }
    ensures utf8 { IsUtf8 bytes.now → IfOk result (λ found. IfSome found
        (λ f. IsTextForm (form_found (entries_of f) f.script.items f.end))) }
{
    let Some(inside) = past(bytes, b"<input") else {
        return Ok(None);
    };
    let (attributes, rest) = attributes_at(alloc.clone()?, inside)?;
    with_attributes(alloc, bytes.len(), attributes, rest)
}

// The form with these attributes, in so many bytes, of which these stand after the attributes.
#[tactic(auto, unfolding(crate::specs::Pages::FormReadings::with_attributes))]
fn with_attributes<A: Allocator + Clone>(
    alloc: A,
    total: usize,
    attributes: Vec<ReadAttribute<A>, A>,
    bytes: &[u8],
) -> Result<Option<Form<A>>, AllocError>
    ensures { IfOk result (λ found. option_map (λ f. form_found
        (map (λ a. entry a.0.items a.1 a.2.items) f.attributes.items) f.script.items f.end) found
        ≡ with_attributes total
        (map (λ a. entry a.0.items a.1 a.2.items) attributes.items, bytes.now)) }
{
    let Some((script, rest)) = after_attributes(alloc.clone()?, bytes)? else {
        return Ok(None);
    };
    if !differ(alloc, attributes.as_slice())? {
        return Ok(None);
    }
    let end = total.saturating_sub(rest.len());
    Ok(Some(Form {
        attributes,
        script,
        end,
    }))
}

// All that follows the attributes: the literal, and the bytes after the script.
#[tactic(auto, unfolding(crate::specs::Pages::FormReadings::after_attributes))]
fn after_attributes<A: Allocator>(
    alloc: A,
    bytes: &[u8],
) -> Result<Option<(Vec<u8, A>, &[u8])>, AllocError>
    ensures { IfOk result (λ found. option_map (λ s. (s.0.items, s.1.now)) found
        ≡ after_attributes bytes.now) }
{
    let Some(tag) = tag_end(bytes) else {
        return Ok(None);
    };
    let Some(body) = past(tag, b"<script>") else {
        return Ok(None);
    };
    script_at(alloc, body)
}

// White space, at most one `/`, and `>`.
fn tag_end(bytes: &[u8]) -> Option<&[u8]>
    ensures { option_map (λ rest. rest.now) result ≡ tag_end bytes.now }
{
    let (_, mark) = bytes.split_at(white_space_at(bytes));
    match past(mark, b"/>") {
        Some(rest) => Some(rest),
        None => past(mark, b">"),
    }
}

// A body that calls `alert`, and its end tag.
#[tactic(auto, unfolding(crate::specs::Pages::FormReadings::script_at))]
fn script_at<A: Allocator>(
    alloc: A,
    bytes: &[u8],
) -> Result<Option<(Vec<u8, A>, &[u8])>, AllocError>
    ensures { IfOk result (λ found. option_map (λ s. (s.0.items, s.1.now)) found
        ≡ script_at bytes.now) }
{
    // A body is read as it stands, so its bytes are its value.
    let Some(end) = end_of_place(Place::ScriptBody, bytes) else {
        return Ok(None);
    };
    let (body, tag) = bytes.split_at(end);
    let Some(literal) = alerted(alloc, body)? else {
        return Ok(None);
    };
    let Some(rest) = past_in_any_case(tag, b"</script>") else {
        return Ok(None);
    };
    Ok(Some((literal, rest)))
}

// The literal in a body that is one call of `alert`.
#[tactic(auto, unfolding(crate::specs::Pages::FormReadings::alerted))]
fn alerted<A: Allocator>(alloc: A, body: &[u8]) -> Result<Option<Vec<u8, A>>, AllocError>
    ensures { IfOk result (λ found. option_map (λ literal. literal.items) found
        ≡ alerted body.now) }
{
    let Some(inside) = past(body, b"alert('") else {
        return Ok(None);
    };
    let Some(literal) = read_place(alloc, Place::ScriptSingle, inside)? else {
        return Ok(None);
    };
    let (_, rest) = inside.split_at(literal.end);
    if rest != b"');".as_slice() {
        return Ok(None);
    }
    Ok(Some(literal.value))
}
