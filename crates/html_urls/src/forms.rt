//! The component of a text in each form: a text that borrows where nothing changes, appended to a
//! string or a vector, or written.
ghost use Rattle.std.specs.Prelude.{◌≡◌, ◌≤◌, ◌↔◌, IfOk, IfSome, IsOk, drop, length};
ghost use Rattle.std.specs.Borrow.{sem};
ghost use Rattle.std.specs.Cow.{cow_str_bytes};
ghost use Rattle.std.specs.Str.{IsCharBoundary};
ghost use Rattle.std.specs.String.{string_bytes};
ghost use Rattle.percent_encoding.specs.Cow.{IsBorrowedStr};
ghost use Rattle.hesc_engine.specs.Forms.{Appended, AnswersPart, StringAppended, VecAppended, WritesText, string_room, vec_room};
ghost use Rattle.html_urls.specs.Components.{IsUnreservedText, component};

use crate::component::blocks::{BLOCK, BLOCK_ROOM, SHORT_ROOM, made_block};
use crate::component::lanes::LANES;
use crate::component::{Component, is_unreserved, put_component};
use hesc_engine::WriterSink;
use hesc_engine::forms::{append_parts, append_parts_to_vec};
use std::alloc::{AllocError, Allocator};
use std::borrow::CowStr;
use std::io::{self, Write};

/// The component of `text`. Where nothing changes it is `text` itself, and takes no memory.
///
/// `encode_component(alloc, "a&b/../c")?` is `a%26b%2F..%2Fc`.
pub fn encode_component<'t, A: Allocator>(
    alloc: A,
    text: &'t str,
) -> Result<CowStr<'t, A>, AllocError>
    ensures text { IfOk result (λ cow. cow_str_bytes cow ≡ component text.now) }
    ensures borrows { IfOk result (λ cow. IsBorrowedStr cow ↔ IsUnreservedText text.now) }
    ensures unchanged { IsUnreservedText text.now → IsOk result }
{
    if is_unreserved(text) {
        return Ok(CowStr::Borrowed(text));
    }
    let mut made = String::new(alloc);
    append_text(&mut made, text)?;
    Ok(CowStr::Owned(made))
}

/// Appends the component of `text`, and answers the part that was added. On a refusal `output` is as
/// it was.
///
/// `append_component(&mut page, "a&b")?` appends and answers `a%26b`.
pub fn append_component<'o, A: Allocator>(
    output: &'o mut String<A>,
    text: &str,
) -> Result<&'o str, AllocError>
    ensures part { AnswersPart (string_room output.old) (component text.now) result }
    ensures* appended { sem 𝓛 (StringAppended A.row A.Allocator output.entry
        (component text.now) result) }
{
    let start = output.as_str().len();
    append_text(output, text)?;
    Ok(part_from(output, start))
}

// A text that stays as it is is appended as it stands, and one of one block as it is made: neither is
// measured.
#[inline(always)]
fn append_text<A: Allocator>(output: &mut String<A>, text: &str) -> Result<(), AllocError>
    ensures appended { Appended (string_bytes output.old) (string_bytes output.new)
        (component text.now) result }
    ensures fits { length (component text.now) ≤ string_room output.old → IsOk result }
{
    if let Some(same) = unchanged(text) {
        return output.push_str(same);
    }
    if text.len() < LANES {
        let mut short = [0; SHORT_ROOM];
        return output.push_str(made_block(text.as_bytes(), &mut short));
    }
    if text.len() <= BLOCK {
        let mut room = [0; BLOCK_ROOM];
        return output.push_str(made_block(text.as_bytes(), &mut room));
    }
    append_parts(output, &Component(text))
}

// The text, where it is its own component.
#[inline(always)]
fn unchanged(text: &str) -> Option<&str>
    ensures { IfSome result (λ made. made.now ≡ component text.now) }
{
    if !is_unreserved(text) {
        return None;
    }
    Some(text)
}

fn part_from<A: Allocator>(output: &String<A>, start: usize) -> &str
    requires { IsCharBoundary (string_bytes output.now) start }
    ensures { result.now ≡ drop start (string_bytes output.now) }
{
    &output.as_str()[start..]
}

/// The same for a vector of bytes.
///
/// `append_component_to_vec(&mut bytes, "a&b")?` appends and answers the bytes of `a%26b`.
pub fn append_component_to_vec<'o, A: Allocator>(
    output: &'o mut Vec<u8, A>,
    text: &str,
) -> Result<&'o [u8], AllocError>
    ensures part { AnswersPart (vec_room output.old) (component text.now) result }
    ensures* appended { sem 𝓛 (VecAppended A.row A.Allocator output.entry
        (component text.now) result) }
{
    let start = output.len();
    append_text_to_vec(output, text)?;
    Ok(&output.as_slice()[start..])
}

#[inline(always)]
fn append_text_to_vec<A: Allocator>(output: &mut Vec<u8, A>, text: &str) -> Result<(), AllocError>
    ensures appended { Appended output.old.items output.new.items (component text.now) result }
    ensures fits { length (component text.now) ≤ vec_room output.old → IsOk result }
{
    if let Some(same) = unchanged(text) {
        return output.extend_from_slice(same.as_bytes());
    }
    if text.len() < LANES {
        let mut short = [0; SHORT_ROOM];
        let made = made_block(text.as_bytes(), &mut short);
        return output.extend_from_slice(made.as_bytes());
    }
    if text.len() <= BLOCK {
        let mut room = [0; BLOCK_ROOM];
        let made = made_block(text.as_bytes(), &mut room);
        return output.extend_from_slice(made.as_bytes());
    }
    append_parts_to_vec(output, &Component(text))
}

/// [`append_component`] with the output last, as in the encoders: a caller's proof learns the answered
/// part, and nothing of `output` afterwards.
///
/// `encode_component_to_string("a&b", &mut page)?` appends and answers `a%26b`.
pub fn encode_component_to_string<'o, A: Allocator>(
    text: &str,
    output: &'o mut String<A>,
) -> Result<&'o str, AllocError>
    ensures part { AnswersPart (string_room output.old) (component text.now) result }
    ensures* appended { sem 𝓛 (StringAppended A.row A.Allocator output.entry
        (component text.now) result) }
{
    append_component(output, text)
}

/// The same for a vector of bytes.
///
/// `encode_component_to_vec("a&b", &mut bytes)?` appends and answers the bytes of `a%26b`.
pub fn encode_component_to_vec<'o, A: Allocator>(
    text: &str,
    output: &'o mut Vec<u8, A>,
) -> Result<&'o [u8], AllocError>
    ensures part { AnswersPart (vec_room output.old) (component text.now) result }
    ensures* appended { sem 𝓛 (VecAppended A.row A.Allocator output.entry
        (component text.now) result) }
{
    append_component_to_vec(output, text)
}

/// Writes the component of `text` to `output`, or a beginning of it and then the writer's fault. It
/// takes no memory and never flushes.
///
/// `encode_component_to_writer("a&b", &mut writer)?` writes `a%26b`.
pub fn encode_component_to_writer<W: Write>(text: &str, output: &mut W) -> Result<(), io::Error>
    ensures { WritesText (W.contents output.old) (W.contents output.new)
        (component text.now) result }
{
    let mut sink = WriterSink::new(output);
    let outcome = put_component(text, &mut sink);
    let _output = sink.into_output();
    outcome
}
