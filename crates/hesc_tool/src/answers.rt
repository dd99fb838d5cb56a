//! What each command answers to an input, made in memory.
ghost use Rattle.std.specs.Prelude.{◌≡◌, map, MatchResult, Ok};
ghost use Rattle.std.specs.Str.{IsUtf8};
ghost use Rattle.hesc_specs.specs.Bodies.Encoding.{body_encoding};
ghost use Rattle.html_escape.specs.Operations.{operation_text};
ghost use Rattle.hesc_places.specs.Pages.FormReadings.{form_reading};
ghost use Rattle.hesc_places.specs.Pages.PageReadings.{page_reading};
ghost use Rattle.hesc_tool.specs.Answers.{
  Answers,
  AnswersForm,
  AnswersText,
  enclosing,
  form_lines_of,
  lines_of,
  page_of,
};
ghost use Rattle.hesc_tool.specs.Steps.{IsMade};
ghost use Rattle.hesc_tool.specs.declared.faults.Fault.TheVariants.{NotUtf8};

use crate::body_lines::append_lines;
use crate::faults::Fault;
use crate::lines::{read_form_lines, read_lines};
use hesc_commands::{Command, FormWords, attributes_of};
use hesc_core::forms::append_to_string;
use hesc_places::{Place, append_enclosed, append_form, append_page};
use html_escape::{BodyKind, Encoder, Operation};
use simdutf8::basic::from_utf8;
use std::alloc::Allocator;

/// What the command answers to the input.
pub fn make_answer<A: Allocator + Clone>(
    alloc: A,
    command: Command<'_>,
    input: &[u8],
) -> Result<Vec<u8, A>, Fault>
    ensures { IsMade (Answers command.entry input.now) result }
{
    match command {
        Command::Operation(operation) => apply(alloc, operation, input),
        Command::Lines(kind) => encoded_by_lines(alloc, kind, input),
        Command::Enclose(encoder, place) => enclosed(alloc, encoder, place, input),
        Command::Page(first, second, third) => page(alloc, first, second, third),
        Command::ReadPage => lines(alloc, input),
        Command::Form(words) => form(alloc, words),
        Command::ReadForm => form_lines(alloc, input),
    }
}

// The input, which has to be a text.
fn text_of(input: &[u8]) -> Result<&str, Fault>
    ensures { MatchResult result (λ text. (text.now ≡ input.now) × IsUtf8 input.now)
        (λ fault. (fault ≡ NotUtf8) × (IsUtf8 input.now → ⊥)) }
{
    match from_utf8(input) {
        Ok(text) => Ok(text),
        Err(_) => Err(Fault::NotUtf8),
    }
}

// What the operation makes of a text.
fn apply<A: Allocator>(alloc: A, operation: Operation, input: &[u8]) -> Result<Vec<u8, A>, Fault>
    ensures { IsMade (AnswersText input.now (Ok (operation_text operation input.now))) result }
{
    let text = text_of(input)?;
    let mut output = String::new(alloc);
    append_to_string(&mut output, &operation, text)?;
    Ok(output.into_bytes())
}

// The encoding of a body, by one session that gets each line.
fn encoded_by_lines<A: Allocator>(
    alloc: A,
    kind: BodyKind,
    input: &[u8],
) -> Result<Vec<u8, A>, Fault>
    ensures { IsMade (AnswersText input.now (Ok (body_encoding kind input.now))) result }
{
    let text = text_of(input)?;
    let mut output = String::new(alloc);
    append_lines(&mut output, kind, text)?;
    Ok(output.into_bytes())
}

// The text between the marks of the place, if it can stand there.
fn enclosed<A: Allocator>(
    alloc: A,
    encoder: Encoder,
    place: Place,
    input: &[u8],
) -> Result<Vec<u8, A>, Fault>
    ensures { IsMade (AnswersText input.now (enclosing encoder place input.now)) result }
{
    let text = text_of(input)?;
    let mut output = String::new(alloc);
    append_enclosed(&mut output, encoder, place, text)?;
    Ok(output.into_bytes())
}

// The page of three texts, if the first is not empty.
fn page<A: Allocator>(alloc: A, first: &str, second: &str, third: &str) -> Result<Vec<u8, A>, Fault>
    ensures { IsMade (λ answer. page_of first.now second.now third.now ≡ answer) result }
{
    let mut output = String::new(alloc);
    append_page(&mut output, first, second, third)?;
    Ok(output.into_bytes())
}

// The lines of the page that is read, if there is one.
fn lines<A: Allocator + Clone>(alloc: A, input: &[u8]) -> Result<Vec<u8, A>, Fault>
    ensures { IsMade (λ answer. lines_of (page_reading input.now) ≡ answer) result }
{
    match read_lines(alloc, input)? {
        Some(lines) => Ok(lines),
        None => Err(Fault::NoPage),
    }
}

// The form of the attributes that the words name, if nothing is wrong with them.
fn form<A: Allocator + Clone>(alloc: A, words: FormWords<'_>) -> Result<Vec<u8, A>, Fault>
    ensures { IsMade (AnswersForm words.entry.script.now
        (map (λ word. word.now) words.entry.attributes.now)) result }
{
    let attributes = attributes_of(alloc.clone()?, words)?;
    let mut output = String::new(alloc);
    append_form(&mut output, attributes.as_slice(), words.script)?;
    Ok(output.into_bytes())
}

// The lines of the form that is read, if there is one.
fn form_lines<A: Allocator + Clone>(alloc: A, input: &[u8]) -> Result<Vec<u8, A>, Fault>
    ensures { IsMade (λ answer. form_lines_of (form_reading input.now) ≡ answer) result }
{
    match read_form_lines(alloc, input)? {
        Some(form) => Ok(form),
        None => Err(Fault::NoPage),
    }
}
