//! The step of CSS strings.
ghost use Rattle.std.specs.Prelude.{◌≡◌, ◌≤◌, true, length, take};
ghost use Rattle.std.specs.Char.{is_digit};
ghost use Rattle.std.specs.List.{list_all, take_while};
ghost use Rattle.hesc_grammars.specs.StyleStrings.{
  digits_escape,
  escaped_character,
  style_escape,
  style_string_step,
  white_space_length,
};

use crate::hex::hex_number;
use crate::step::{Mode, Step};

/// The step of a string, which the byte `mark` ends.
#[tactic(auto, unfolding(crate::specs::StyleStrings::style_string_step))]
pub fn style_string_step(mark: u8, mode: Mode, bytes: &[u8]) -> Step
    ensures { result ≡ style_string_step mark mode bytes.now }
{
    let Some((first, rest)) = bytes.split_first() else {
        return Step::Nothing;
    };
    if *first == mark {
        return Step::Close;
    }
    match *first {
        b'\\' => style_escape(rest),
        b'\n' | b'\r' | b'\x0c' | 0 => Step::Nothing,
        byte => Step::Byte(0, byte, Mode::Plain),
    }
}

// What a `\` before the bytes begins.
fn style_escape(bytes: &[u8]) -> Step
    ensures { result ≡ style_escape bytes.now }
{
    let Some((first, _)) = bytes.split_first() else {
        return Step::Nothing;
    };
    if (*first as char).is_digit(16) {
        return digits_escape(leading_digits(bytes), bytes);
    }
    match *first {
        b'\n' | b'\r' | b'\x0c' | 0 => Step::Nothing,
        byte => Step::Byte(1, byte, Mode::Plain),
    }
}

// The hex digits that come first, at most six.
fn leading_digits(bytes: &[u8]) -> &[u8]
    ensures value { result.now ≡ take_while (λ d. is_digit d 16) (take 6 bytes.now) }
    ensures six { length result.now ≤ 6 }
    ensures within { length result.now ≤ length bytes.now }
    ensures digits { list_all (λ d. is_digit d 16) result.now ≡ true }
{
    let first_six = &bytes[..bytes.len().min(6)];
    let mut count = 0;
    while count < first_six.len() && (first_six[count] as char).is_digit(16) {
        count += 1;
    }
    &first_six[..count]
}

// What a `\` before the bytes begins, which begin with these digits.
fn digits_escape(digits: &[u8], bytes: &[u8]) -> Step
    requires six { length digits.now ≤ 6 }
    requires within { length digits.now ≤ length bytes.now }
    requires digits { list_all (λ d. is_digit d 16) digits.now ≡ true }
    ensures { result ≡ digits_escape digits.now bytes.now }
{
    match hex_number(digits) {
        Some(number) => Step::Character(
            digits.len() + white_space_length(&bytes[digits.len()..]),
            escaped_character(number),
            Mode::Plain,
        ),
        None => Step::Nothing,
    }
}

fn white_space_length(bytes: &[u8]) -> usize
    ensures value { result ≡ white_space_length bytes.now }
    ensures one { result ≤ 1 }
{
    match bytes {
        [b' ' | b'\t' | b'\n', ..] => 1,
        _ => 0,
    }
}

fn escaped_character(number: u32) -> char
    ensures { result ≡ escaped_character number }
{
    match number {
        0 => '\u{fffd}',
        _ => char::from_u32(number).unwrap_or('\u{fffd}'),
    }
}
