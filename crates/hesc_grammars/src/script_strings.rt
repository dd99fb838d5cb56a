//! The step of JavaScript string literals.
ghost use Rattle.std.specs.Prelude.{◌≡◌, ◌≤◌, take};
ghost use Rattle.hesc_grammars.specs.ScriptStrings.{
  begins_line_end,
  hex_escape,
  script_escape,
  script_string_step,
  single_escape,
};

use crate::hex::hex_number;
use crate::step::{Mode, Step};

/// The step of a string literal, which the byte `mark` ends.
///
/// `script_string_step(b'"', Mode::Plain, b"a\"")` is `Step::Byte(0, b'a', Mode::Plain)`.
#[tactic(auto, unfolding(crate::specs::ScriptStrings::script_string_step))]
pub fn script_string_step(mark: u8, mode: Mode, bytes: &[u8]) -> Step
    ensures { result ≡ script_string_step mark mode bytes.now }
{
    let Some((first, rest)) = bytes.split_first() else {
        return Step::Nothing;
    };
    if *first == mark {
        return Step::Close;
    }
    if *first == b'\\' {
        return script_escape(rest);
    }
    if begins_line_end(bytes) {
        return Step::Nothing;
    }
    Step::Byte(0, *first, Mode::Plain)
}

/// What a `\` before the bytes begins.
///
/// `script_escape(b"nb")` is `Step::Character(1, '\n', Mode::Plain)`.
pub fn script_escape(bytes: &[u8]) -> Step
    ensures { result ≡ script_escape bytes.now }
{
    let Some((first, rest)) = bytes.split_first() else {
        return Step::Nothing;
    };
    if let Some(character) = single_escape(*first) {
        return Step::Character(1, character, Mode::Plain);
    }
    match *first {
        b'x' => hex_escape(2, rest),
        b'u' => hex_escape(4, rest),
        _ => Step::Nothing,
    }
}

fn single_escape(letter: u8) -> Option<char>
    ensures { result ≡ single_escape letter }
{
    match letter {
        b'\'' => Some('\''),
        b'"' => Some('"'),
        b'\\' => Some('\\'),
        b'b' => Some('\u{8}'),
        b'f' => Some('\u{c}'),
        b'n' => Some('\n'),
        b'r' => Some('\r'),
        b't' => Some('\t'),
        b'v' => Some('\u{b}'),
        _ => None,
    }
}

// So many hex digits at the front of the bytes, after `\` and a letter.
fn hex_escape(count: usize, bytes: &[u8]) -> Step
    requires { count ≤ 4 }
    ensures { result ≡ hex_escape count (take count bytes.now) }
{
    if bytes.len() < count {
        return Step::Nothing;
    }
    let Some(number) = hex_number(&bytes[..count]) else {
        return Step::Nothing;
    };
    match char::from_u32(number) {
        Some(character) => Step::Character(count + 1, character, Mode::Plain),
        None => Step::Nothing,
    }
}

fn begins_line_end(bytes: &[u8]) -> bool
    ensures { result ≡ begins_line_end bytes.now }
{
    matches!(bytes, [b'\n' | b'\r', ..] | [0xe2, 0x80, 0xa8 | 0xa9, ..])
}
