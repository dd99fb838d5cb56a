//! Operations for a program in another language that measures them: each is named by its number,
//! and a call answers how long the made text is, or `REFUSED` where there is none.
#![tactic(auto)]

ghost use Rattle.std.specs.Prelude.{◌≡◌, ◌≢◌, ◌≤◌, ◌<◌, ◌↔◌, IfOk, IfSome, IsSome, IsTrue, length, take};
ghost use Rattle.std.specs.Str.{IsUtf8};
ghost use Rattle.std.specs.Str.Lines.{lines};
ghost use Rattle.hesc_engine.specs.Forms.{AnswersText};
ghost use Rattle.html_escape.specs.Operations.{operation_changes, operation_text};
ghost use Rattle.hesc_speed.specs.Measured.{
  AnswersEmpty,
  AnswersLength,
  AnswersSum,
  AnswersUnchanged,
  CopiesText,
  is_measured,
  operation_of,
  refused,
};
ghost use Rattle.hesc_speed.specs.Slots.{rows_of, twenty_slots};
ghost use Rattle.html_template.specs.Structure.{IsPageOf};
ghost use Rattle.html_template.specs.Templates.{texts_of};

mod cow;
mod page;
mod slots;
mod string;

use html_escape::*;
use std::alloc::{AllocError, Global};
use std::borrow::CowStr;
use std::str;

/// The operations that are measured: each number stands for the one at this place.
pub const MEASURED: [Operation; 9] = [
    Operation::Encode(Encoder::Text),
    Operation::Encode(Encoder::DoubleQuotedAttribute),
    Operation::Encode(Encoder::Safe),
    Operation::Encode(Encoder::UnquotedAttribute),
    Operation::Encode(Encoder::Script),
    Operation::Encode(Encoder::ScriptQuoted),
    Operation::Decode(Decoder::HtmlEntities),
    Operation::Decode(Decoder::Script),
    Operation::Decode(Decoder::ScriptQuoted),
];

/// What a call answers where the number names no operation, or memory was refused.
pub const REFUSED: usize = usize::MAX;

/// Makes the text that borrows where nothing changes.
#[unsafe(no_mangle)]
pub extern "C" fn hesc_cow(alloc: Global, number: u32, text: &[u8]) -> usize
    requires { IsUtf8 text.now }
    ensures length { AnswersLength (operation_of number) text.now result }
    ensures unchanged { AnswersUnchanged (operation_of number) text.now result }
{
    // The caller owes it.
    let text = unsafe { str::from_utf8_unchecked(text) };
    // By the function of the operation's own name, which is what is measured, and by nothing else.
    match number {
        0 => cow::encode_text(alloc, text),
        1 => cow::encode_double_quoted_attribute(alloc, text),
        2 => cow::encode_safe(alloc, text),
        3 => cow::encode_unquoted_attribute(alloc, text),
        4 => cow::encode_script(alloc, text),
        5 => cow::encode_script_quoted_text(alloc, text),
        6 => cow::decode_html_entities(alloc, text),
        7 => cow::decode_script(alloc, text),
        8 => cow::decode_script_quoted_text(alloc, text),
        _ => REFUSED,
    }
}

/// Appends to a new string.
#[unsafe(no_mangle)]
pub extern "C" fn hesc_string(alloc: Global, number: u32, text: &[u8]) -> usize
    requires { IsUtf8 text.now }
    ensures length { AnswersLength (operation_of number) text.now result }
    ensures empty { AnswersEmpty (operation_of number) text.now result }
{
    let text = unsafe { str::from_utf8_unchecked(text) };
    match number {
        0 => string::encode_text(alloc, text),
        1 => string::encode_double_quoted_attribute(alloc, text),
        2 => string::encode_safe(alloc, text),
        3 => string::encode_unquoted_attribute(alloc, text),
        4 => string::encode_script(alloc, text),
        5 => string::encode_script_quoted_text(alloc, text),
        6 => string::decode_html_entities(alloc, text),
        7 => string::decode_script(alloc, text),
        8 => string::decode_script_quoted_text(alloc, text),
        _ => REFUSED,
    }
}

/// Appends to a new string by the operation as a value.
#[unsafe(no_mangle)]
pub extern "C" fn hesc_value(alloc: Global, number: u32, text: &[u8]) -> usize
    requires { IsUtf8 text.now }
    ensures length { AnswersLength (operation_of number) text.now result }
    ensures empty { AnswersEmpty (operation_of number) text.now result }
{
    let Some(operation) = measured(number) else {
        return REFUSED;
    };
    let text = unsafe { str::from_utf8_unchecked(text) };
    string::by_value(alloc, operation, text)
}

/// Appends so many times to one output, which grows, and answers the sum of the parts' lengths.
#[unsafe(no_mangle)]
pub extern "C" fn hesc_append(alloc: Global, number: u32, times: usize, text: &[u8]) -> usize
    requires { IsUtf8 text.now }
    ensures { AnswersSum (operation_of number) times text.now result }
{
    let Some(operation) = measured(number) else {
        return REFUSED;
    };
    let text = unsafe { str::from_utf8_unchecked(text) };
    let mut page = String::new(alloc);
    let mut sum = 0usize;
    for _ in 0..times {
        let Some(count) = page::append(operation, text, &mut page) else {
            return REFUSED;
        };
        let Some(next) = sum.checked_add(count) else {
            return REFUSED;
        };
        sum = next;
    }
    sum
}

/// Makes the text and copies it into a buffer that is long enough.
#[unsafe(no_mangle)]
pub extern "C" fn hesc_copy(alloc: Global, number: u32, text: &[u8], buffer: &mut [u8]) -> usize
    requires { IsUtf8 text.now }
    ensures length { AnswersLength (operation_of number) text.now result }
    ensures unchanged { length text.now ≤ length buffer.old
        → AnswersUnchanged (operation_of number) text.now result }
    ensures copied { CopiesText (operation_of number) text.now result buffer.new }
{
    let Some(operation) = measured(number) else {
        return REFUSED;
    };
    let text = unsafe { str::from_utf8_unchecked(text) };
    match cow_of(alloc, operation, text) {
        Some(Ok(cow)) if cow.as_str().len() <= buffer.len() => {
            let made = cow.as_str().as_bytes();
            buffer[..made.len()].copy_from_slice(made);
            made.len()
        }
        _ => REFUSED,
    }
}

/// Makes a page of twenty slots so many times by a template, with the lines of a text, and copies the
/// last page into a buffer that is long enough. The pages stand in one string, which is cleared before
/// each, or each in a new one.
#[unsafe(no_mangle)]
pub extern "C" fn hesc_template(
    alloc: Global,
    is_kept: bool,
    times: usize,
    text: &[u8],
    buffer: &mut [u8],
) -> usize
    requires { IsUtf8 text.now }
    ensures { 0 < times → result ≢ refused
        → IsPageOf twenty_slots (lines text.now) (take result buffer.new) }
{
    let text = unsafe { str::from_utf8_unchecked(text) };
    let Ok(texts) = lines_of(alloc, text) else {
        return REFUSED;
    };
    match slots::by_template(alloc, is_kept, times, &texts) {
        Some(page) => copied(page.as_str(), buffer),
        None => REFUSED,
    }
}

/// The same page by hand.
#[unsafe(no_mangle)]
pub extern "C" fn hesc_by_hand(
    alloc: Global,
    is_kept: bool,
    times: usize,
    text: &[u8],
    buffer: &mut [u8],
) -> usize
    requires { IsUtf8 text.now }
    ensures { 0 < times → result ≢ refused → take result buffer.new ≡ rows_of (lines text.now) }
{
    let text = unsafe { str::from_utf8_unchecked(text) };
    let Ok(texts) = lines_of(alloc, text) else {
        return REFUSED;
    };
    match slots::by_hand(alloc, is_kept, times, &texts) {
        Some(page) => copied(page.as_str(), buffer),
        None => REFUSED,
    }
}

fn lines_of(alloc: Global, text: &str) -> Result<Vec<&str>, AllocError>
    ensures { IfOk result (λ texts. texts_of texts.items ≡ lines text.now) }
{
    text.lines().collect(alloc)
}

// The page's length, if the buffer is long enough for a copy of it.
fn copied(page: &str, buffer: &mut [u8]) -> usize
    ensures { result ≢ refused → take result buffer.new ≡ page.now }
{
    let page = page.as_bytes();
    if page.len() > buffer.len() {
        return REFUSED;
    }
    buffer[..page.len()].copy_from_slice(page);
    page.len()
}

// The operation of a number.
fn measured(number: u32) -> Option<Operation>
    ensures { result ≡ operation_of number }
{
    MEASURED.get(number as usize).copied()
}

// By the function of the operation's own name.
fn cow_of(
    alloc: Global,
    operation: Operation,
    text: &str,
) -> Option<Result<CowStr<'_, Global>, AllocError>>
    ensures some { IsSome result ↔ IsTrue (is_measured operation) }
    ensures made { IfSome result (AnswersText text.now (operation_text operation text.now)
        (operation_changes operation text.now 0)) }
{
    match operation {
        Operation::Encode(Encoder::Text) => Some(encode_text(alloc, text)),
        Operation::Encode(Encoder::DoubleQuotedAttribute) => {
            Some(encode_double_quoted_attribute(alloc, text))
        }
        Operation::Encode(Encoder::Safe) => Some(encode_safe(alloc, text)),
        Operation::Encode(Encoder::UnquotedAttribute) => {
            Some(encode_unquoted_attribute(alloc, text))
        }
        Operation::Encode(Encoder::Script) => Some(encode_script(alloc, text)),
        Operation::Encode(Encoder::ScriptQuoted) => Some(encode_script_quoted_text(alloc, text)),
        Operation::Decode(Decoder::HtmlEntities) => Some(decode_html_entities(alloc, text)),
        Operation::Decode(Decoder::Script) => Some(decode_script(alloc, text)),
        Operation::Decode(Decoder::ScriptQuoted) => Some(decode_script_quoted_text(alloc, text)),
        _ => None,
    }
}
