//! The value of a reference's body: of its number, or of its name.
ghost use Rattle.std.specs.Prelude.{◌≡◌, ◌≤◌, ◌<◌, ◌+◌, ◌*◌, encode_utf8};
ghost use Rattle.std.specs.Option.{option_map};
ghost use Rattle.hesc_specs.specs.References.Rows.{value_of};
ghost use Rattle.hesc_specs.specs.References.Decoding.{body_value, is_kept_control, number_of, numbered_value, numeral};
ghost use Rattle.hesc_specs.specs.References.Numbers.{base_of, capped};
ghost use Rattle.hesc_table.specs.Table.{common_character as common_character_of};
ghost use Rattle.hesc_core.specs.Names.{names_rows};
ghost use Rattle.hesc_engine.specs.Text.{replacement_bytes};

use crate::rules::references::names::Names;
use hesc_engine::found::Replacement;
use hesc_engine::small_text::SmallText;

/// The number right after that of the last character, for which any greater one stands.
const PAST_CHARACTERS: u32 = 0x110000;

/// The value of a body, if it has one.
#[inline(always)]
pub fn value_of_body<'a>(names: Names<'_, 'a>, body: &[u8]) -> Option<Replacement<'a>>
    ensures { option_map replacement_bytes result ≡ body_value (names_rows names.entry) body.now }
{
    match number_of(body) {
        Some(number) => character(number),
        None => value_of_name(names, body),
    }
}

// The value of a name. The common names, which most references have, are in every table.
#[inline(always)]
fn value_of_name<'a>(names: Names<'_, 'a>, name: &[u8]) -> Option<Replacement<'a>>
    ensures { option_map replacement_bytes result ≡ value_of (names_rows names.entry) name.now }
{
    match common_character(name) {
        Some(character) => Some(small(character)),
        None => match names.value(name) {
            Some(value) => Some(Replacement::Borrowed(value)),
            None => None,
        },
    }
}

#[inline(always)]
fn common_character(name: &[u8]) -> Option<char>
    ensures { result ≡ common_character_of name.now }
{
    match name {
        [b'l', b't'] => Some('<'),
        [b'g', b't'] => Some('>'),
        [b'a', b'm', b'p'] => Some('&'),
        [b'q', b'u', b'o', b't'] => Some('"'),
        _ => None,
    }
}

#[inline(always)]
fn small(character: char) -> Replacement<'static>
    ensures { replacement_bytes result ≡ encode_utf8 character }
{
    Replacement::Small(SmallText::from_char(character))
}

// The character of a number, if a reference may stand for it.
#[inline(always)]
fn character(number: u32) -> Option<Replacement<'static>>
    ensures { option_map replacement_bytes result ≡ numbered_value number }
{
    if is_kept_control(number) {
        return None;
    }
    let character = char::from_u32(number)?;
    Some(small(character))
}

// Whether the number is of a C0 control other than tab, line feed, form feed, carriage return.
#[inline(always)]
fn is_kept_control(number: u32) -> bool
    ensures { result ≡ is_kept_control number }
{
    number < 32 && !matches!(number, 9 | 10 | 12 | 13)
}

// The number of a body, if it is one.
#[inline(always)]
fn number_of(body: &[u8]) -> Option<u32>
    ensures { result ≡ option_map capped (number_of body.now) }
{
    match body {
        [b'#', b'x' | b'X', digits @ ..] => numeral(true, digits),
        [b'#', digits @ ..] => numeral(false, digits),
        _ => None,
    }
}

// The number that one or more digits write.
fn numeral(is_hex: bool, digits: &[u8]) -> Option<u32>
    ensures { result ≡ option_map capped (numeral (base_of is_hex) digits.now) }
{
    if digits.is_empty() {
        return None;
    }
    let mut number = 0;
    for digit in digits {
        let value = (*digit as char).to_digit(base(is_hex))?;
        number = with_digit(is_hex, number, value);
    }
    Some(number)
}

// The number that a number's digits and one more digit write.
fn with_digit(is_hex: bool, number: u32, digit: u32) -> u32
    requires number { number ≤ 0x110000 }
    requires digit { digit < base_of is_hex }
    ensures { result ≡ capped (number * base_of is_hex + digit) }
{
    let longer = number * base(is_hex) + digit;
    if longer < PAST_CHARACTERS {
        longer
    } else {
        PAST_CHARACTERS
    }
}

fn base(is_hex: bool) -> u32
    ensures { result ≡ base_of is_hex }
{
    if is_hex { 16 } else { 10 }
}
