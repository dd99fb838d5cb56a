//! How long each operation's part of a new string is. Each is a function of its own, so that a call
//! costs what the operation does.
ghost use Rattle.std.specs.Prelude.{◌≡◌, MatchResult, Some, length};
ghost use Rattle.hesc_speed.specs.Measured.{AnswersEmpty, AnswersLength, operation_of, refused};

use crate::REFUSED;
use html_escape::Operation;
use std::alloc::{AllocError, Global};

#[inline(never)]
pub(crate) fn encode_text(alloc: Global, text: &str) -> usize
    ensures length { AnswersLength (operation_of 0) text.now result }
    ensures empty { AnswersEmpty (operation_of 0) text.now result }
{
    let mut output = String::new(alloc);
    length_of(html_escape::encode_text_to_string(text, &mut output))
}

#[inline(never)]
pub(crate) fn encode_double_quoted_attribute(alloc: Global, text: &str) -> usize
    ensures length { AnswersLength (operation_of 1) text.now result }
    ensures empty { AnswersEmpty (operation_of 1) text.now result }
{
    let mut output = String::new(alloc);
    length_of(html_escape::encode_double_quoted_attribute_to_string(text, &mut output))
}

#[inline(never)]
pub(crate) fn encode_safe(alloc: Global, text: &str) -> usize
    ensures length { AnswersLength (operation_of 2) text.now result }
    ensures empty { AnswersEmpty (operation_of 2) text.now result }
{
    let mut output = String::new(alloc);
    length_of(html_escape::encode_safe_to_string(text, &mut output))
}

#[inline(never)]
pub(crate) fn encode_unquoted_attribute(alloc: Global, text: &str) -> usize
    ensures length { AnswersLength (operation_of 3) text.now result }
    ensures empty { AnswersEmpty (operation_of 3) text.now result }
{
    let mut output = String::new(alloc);
    length_of(html_escape::encode_unquoted_attribute_to_string(text, &mut output))
}

#[inline(never)]
pub(crate) fn encode_script(alloc: Global, text: &str) -> usize
    ensures length { AnswersLength (operation_of 4) text.now result }
    ensures empty { AnswersEmpty (operation_of 4) text.now result }
{
    let mut output = String::new(alloc);
    length_of(html_escape::encode_script_to_string(text, &mut output))
}

#[inline(never)]
pub(crate) fn encode_script_quoted_text(alloc: Global, text: &str) -> usize
    ensures length { AnswersLength (operation_of 5) text.now result }
    ensures empty { AnswersEmpty (operation_of 5) text.now result }
{
    let mut output = String::new(alloc);
    length_of(html_escape::encode_script_quoted_text_to_string(text, &mut output))
}

#[inline(never)]
pub(crate) fn decode_html_entities(alloc: Global, text: &str) -> usize
    ensures length { AnswersLength (operation_of 6) text.now result }
    ensures empty { AnswersEmpty (operation_of 6) text.now result }
{
    let mut output = String::new(alloc);
    length_of(html_escape::decode_html_entities_to_string(text, &mut output))
}

#[inline(never)]
pub(crate) fn decode_script(alloc: Global, text: &str) -> usize
    ensures length { AnswersLength (operation_of 7) text.now result }
    ensures empty { AnswersEmpty (operation_of 7) text.now result }
{
    let mut output = String::new(alloc);
    length_of(html_escape::decode_script_to_string(text, &mut output))
}

#[inline(never)]
pub(crate) fn decode_script_quoted_text(alloc: Global, text: &str) -> usize
    ensures length { AnswersLength (operation_of 8) text.now result }
    ensures empty { AnswersEmpty (operation_of 8) text.now result }
{
    let mut output = String::new(alloc);
    length_of(html_escape::decode_script_quoted_text_to_string(text, &mut output))
}

/// The same by the operation as a value.
#[inline(never)]
pub(crate) fn by_value(alloc: Global, operation: Operation, text: &str) -> usize
    ensures length { AnswersLength (Some operation) text.now result }
    ensures empty { AnswersEmpty (Some operation) text.now result }
{
    let mut output = String::new(alloc);
    length_of(html_escape::append(&mut output, &operation, text))
}

#[inline(always)]
fn length_of(part: Result<&str, AllocError>) -> usize
    ensures { MatchResult part.entry (λ text. result ≡ length text.now) (λ _. result ≡ refused) }
{
    match part {
        Ok(text) => text.len(),
        Err(AllocError) => REFUSED,
    }
}
