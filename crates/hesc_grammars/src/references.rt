//! Character references, as a reader takes them: six names, and numbers.
ghost use Rattle.std.specs.Prelude.{◌≡◌, ◌≤◌, ◌<◌, ◌+◌, ◌*◌, Option, if◌then◌else◌, Some, None, length, ◌∷◌};
ghost use Rattle.std.specs.Char.{digit_value, is_digit};
ghost use Rattle.std.specs.Str.Parse.{digits_value};
ghost use Rattle.hesc_specs.specs.References.Numbers.{base_of, capped};
ghost use Rattle.hesc_grammars.specs.References.{
  are_digits,
  body_character,
  digits_character,
  named_character,
  numbered_character,
  reference,
};
ghost use Rattle.hesc_grammars.specs.NumberedReferences.{numbered_reference};
ghost use Rattle.hesc_grammars.specs.declared.step.Mode.TheVariants.{Plain};
ghost use Rattle.hesc_grammars.specs.declared.step.Step.TheVariants.{Character, Nothing};
ghost use Rattle.hesc_specs.specs.Text.Words.{begins};

use crate::step::{Mode, Step};

/// The number right after that of the last character, for which any greater one stands.
const PAST_CHARACTERS: u32 = 0x110000;

/// What a `&` before the bytes begins.
///
/// `reference(b"lt;b")` is `Step::Character(3, '<', Mode::Plain)`.
pub fn reference(bytes: &[u8]) -> Step
    ensures { result ≡ reference bytes.now }
{
    // A reference is read in one pass, with no search for its `;`.
    let Some((first, rest)) = bytes.split_first() else {
        return Step::Nothing;
    };
    match *first {
        b'l' => named_reference('<', b"t;", rest),
        b'g' => named_reference('>', b"t;", rest),
        b'a' if rest.starts_with(b"mp;") => Step::Character(4, '&', Mode::Plain),
        b'a' => named_reference('\'', b"pos;", rest),
        b'q' => named_reference('"', b"uot;", rest),
        b'n' => named_reference('\u{a0}', b"bsp;", rest),
        b'#' => number_reference(rest),
        _ => Step::Nothing,
    }
}

// What a `&` and the first byte of a name begin before the bytes, where the word is the rest of the name
// and its `;`.
#[inline(always)]
fn named_reference(character: char, word: &[u8], bytes: &[u8]) -> Step
    requires { length word.now ≤ 4 }
    ensures { result ≡ if begins word.now bytes.now
        then Character (length word.now + 1) character Plain else Nothing }
{
    if bytes.starts_with(word) {
        Step::Character(word.len() + 1, character, Mode::Plain)
    } else {
        Step::Nothing
    }
}

// What `&#` before the bytes begins.
#[inline(always)]
fn number_reference(bytes: &[u8]) -> Step
    ensures { result ≡ reference (35 ∷ bytes.now) }
{
    // What the encoders write has two digits.
    if let [b'x', high, low, b';', ..] = bytes
        && let Some(character) = digits_character(true, &[*high, *low])
    {
        return Step::Character(5, character, Mode::Plain);
    }
    match bytes {
        [b'x' | b'X', digits @ ..] => numbered_reference(true, 2, digits),
        _ => numbered_reference(false, 1, bytes),
    }
}

// What a `&` and the marks of a base begin before the bytes: `#`, or `#x` for hex. The digits are added up
// as they are met, and the first other byte has to be the `;`.
#[inline(always)]
fn numbered_reference(is_hex: bool, mark_count: usize, bytes: &[u8]) -> Step
    requires { mark_count ≤ 2 }
    ensures { result ≡ numbered_reference (base_of is_hex) mark_count bytes.now }
{
    let mut number = 0;
    for count in 0..bytes.len() {
        let byte = bytes[count];
        let Some(digit) = digit_of(is_hex, byte) else {
            if byte != b';' || count == 0 {
                return Step::Nothing;
            }
            return match numbered_character(number) {
                Some(character) => Step::Character(mark_count + count + 1, character, Mode::Plain),
                None => Step::Nothing,
            };
        };
        number = with_digit(is_hex, number, digit);
    }
    Step::Nothing
}

/// The character of a reference's body, which stands between its `&` and its `;`.
///
/// `body_character(b"#x3C")` is `Some('<')`.
pub fn body_character(body: &[u8]) -> Option<char>
    ensures { result ≡ body_character body.now }
{
    match body {
        [b'#', b'x' | b'X', digits @ ..] => digits_character(true, digits),
        [b'#', digits @ ..] => digits_character(false, digits),
        _ => named_character(body),
    }
}

fn named_character(name: &[u8]) -> Option<char>
    ensures { result ≡ named_character name.now }
{
    match name {
        b"amp" => Some('&'),
        b"apos" => Some('\''),
        b"gt" => Some('>'),
        b"lt" => Some('<'),
        b"nbsp" => Some('\u{a0}'),
        b"quot" => Some('"'),
        _ => None,
    }
}

#[inline(always)]
fn digits_character(is_hex: bool, digits: &[u8]) -> Option<char>
    ensures { result ≡ digits_character (base_of is_hex) digits.now }
{
    numbered_character(digits_number(is_hex, digits)?)
}

// The number that one or more digits write.
#[inline(always)]
fn digits_number(is_hex: bool, digits: &[u8]) -> Option<u32>
    ensures { result ≡ if are_digits (base_of is_hex) digits.now
        then Some (capped (digits_value (base_of is_hex) digits.now)) else None }
{
    if digits.is_empty() {
        return None;
    }
    let mut number = 0;
    for digit in digits {
        let value = (*digit as char).to_digit(base(is_hex))?;
        number = with_digit(is_hex, number, value);
    }
    Some(number)
}

// The value of a digit.
#[inline(always)]
fn digit_of(is_hex: bool, byte: u8) -> Option<u32>
    ensures { result ≡ if is_digit byte (base_of is_hex) then Some (digit_value byte) else None }
{
    if !is_hex {
        return (byte as char).to_digit(10);
    }
    let value = match byte {
        b'0'..=b'9' => byte - b'0',
        b'a'..=b'f' => byte - b'a' + 10,
        b'A'..=b'F' => byte - b'A' + 10,
        _ => return None,
    };
    Some(value as u32)
}

// The number that a number's digits and one more digit write.
#[inline(always)]
fn with_digit(is_hex: bool, number: u32, digit: u32) -> u32
    requires number { number ≤ 0x110000 }
    requires digit { digit < base_of is_hex }
    ensures { result ≡ capped (number * base_of is_hex + digit) }
{
    (number * base(is_hex) + digit).min(PAST_CHARACTERS)
}

fn numbered_character(number: u32) -> Option<char>
    ensures { result ≡ numbered_character number }
{
    match number {
        0 => Some('\u{fffd}'),
        0x80..=0x9f => None,
        _ => char::from_u32(number),
    }
}

#[inline(always)]
fn base(is_hex: bool) -> u32
    ensures { result ≡ base_of is_hex }
{
    if is_hex { 16 } else { 10 }
}
