//! How long each operation's text is that borrows where nothing changes. Each is a function of its
//! own, so that a call costs what the operation does.
ghost use Rattle.std.specs.Prelude.{◌≡◌, MatchResult, length};
ghost use Rattle.std.specs.Cow.{cow_str_bytes};
ghost use Rattle.hesc_speed.specs.Measured.{AnswersLength, AnswersUnchanged, operation_of, refused};

use crate::REFUSED;
use std::alloc::{AllocError, Global};
use std::borrow::CowStr;

#[inline(never)]
pub(crate) fn encode_text(alloc: Global, text: &str) -> usize
    ensures length { AnswersLength (operation_of 0) text.now result }
    ensures unchanged { AnswersUnchanged (operation_of 0) text.now result }
{
    length_of(html_escape::encode_text(alloc, text))
}

#[inline(never)]
pub(crate) fn encode_double_quoted_attribute(alloc: Global, text: &str) -> usize
    ensures length { AnswersLength (operation_of 1) text.now result }
    ensures unchanged { AnswersUnchanged (operation_of 1) text.now result }
{
    length_of(html_escape::encode_double_quoted_attribute(alloc, text))
}

#[inline(never)]
pub(crate) fn encode_safe(alloc: Global, text: &str) -> usize
    ensures length { AnswersLength (operation_of 2) text.now result }
    ensures unchanged { AnswersUnchanged (operation_of 2) text.now result }
{
    length_of(html_escape::encode_safe(alloc, text))
}

#[inline(never)]
pub(crate) fn encode_unquoted_attribute(alloc: Global, text: &str) -> usize
    ensures length { AnswersLength (operation_of 3) text.now result }
    ensures unchanged { AnswersUnchanged (operation_of 3) text.now result }
{
    length_of(html_escape::encode_unquoted_attribute(alloc, text))
}

#[inline(never)]
pub(crate) fn encode_script(alloc: Global, text: &str) -> usize
    ensures length { AnswersLength (operation_of 4) text.now result }
    ensures unchanged { AnswersUnchanged (operation_of 4) text.now result }
{
    length_of(html_escape::encode_script(alloc, text))
}

#[inline(never)]
pub(crate) fn encode_script_quoted_text(alloc: Global, text: &str) -> usize
    ensures length { AnswersLength (operation_of 5) text.now result }
    ensures unchanged { AnswersUnchanged (operation_of 5) text.now result }
{
    length_of(html_escape::encode_script_quoted_text(alloc, text))
}

#[inline(never)]
pub(crate) fn decode_html_entities(alloc: Global, text: &str) -> usize
    ensures length { AnswersLength (operation_of 6) text.now result }
    ensures unchanged { AnswersUnchanged (operation_of 6) text.now result }
{
    length_of(html_escape::decode_html_entities(alloc, text))
}

#[inline(never)]
pub(crate) fn decode_script(alloc: Global, text: &str) -> usize
    ensures length { AnswersLength (operation_of 7) text.now result }
    ensures unchanged { AnswersUnchanged (operation_of 7) text.now result }
{
    length_of(html_escape::decode_script(alloc, text))
}

#[inline(never)]
pub(crate) fn decode_script_quoted_text(alloc: Global, text: &str) -> usize
    ensures length { AnswersLength (operation_of 8) text.now result }
    ensures unchanged { AnswersUnchanged (operation_of 8) text.now result }
{
    length_of(html_escape::decode_script_quoted_text(alloc, text))
}

#[inline(always)]
fn length_of(made: Result<CowStr<'_, Global>, AllocError>) -> usize
    ensures { MatchResult made.entry (λ cow. result ≡ length (cow_str_bytes cow)) (λ _. result ≡ refused) }
{
    match made {
        Ok(cow) => cow.as_str().len(),
        Err(AllocError) => REFUSED,
    }
}
