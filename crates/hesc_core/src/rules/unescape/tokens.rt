//! The escapes among the tokens of an encoded string: what a `\` and the bytes after it stand for.
ghost use Rattle.std.specs.Prelude.{◌≡◌, ◌≤◌, ◌<◌, IsTrue, length};
ghost use Rattle.hesc_specs.specs.Text.Elements.{element_name};
ghost use Rattle.hesc_specs.specs.Strings.Encoding.{is_quote as among};
ghost use Rattle.hesc_specs.specs.Strings.Changes.{is_after_less};
ghost use Rattle.hesc_specs.specs.Strings.Tokens.{
  ends_name_within,
  escape as escape_of,
  is_pair as writes_pair,
  is_upper_hex as is_digit,
  mark_escape as mark,
  number_escape as number,
  opening_escape as opening,
  pair_value as pair,
  separator_escape as separator,
  upper_hex_value as value_of,
};
ghost use Rattle.hesc_specs.specs.Text.Words.{begins_in_any_case};

use hesc_scan::openings::{is_named, name_of};
use hesc_specs::{Element, Quotes};

/// The escape that a `\` before these bytes begins, if any: how many bytes it has after the `\`,
/// and the character that it stands for. `after_less` tells that a `<` stands right before the
/// `\`.
#[inline(always)]
pub fn escape(
    element: Element,
    quotes: Quotes,
    after_less: bool,
    bytes: &[u8],
) -> Option<(usize, char)>
    ensures { result ≡ escape_of element quotes after_less bytes.now }
{
    if let Some(found) = mark_escape(quotes, bytes) {
        return Some(found);
    }
    if let Some(found) = number_escape(element, bytes) {
        return Some(found);
    }
    if let Some(found) = separator_escape(element, bytes) {
        return Some(found);
    }
    if after_less {
        opening_escape(element, bytes)
    } else {
        None
    }
}

/// Whether the byte right before the place is `<`.
#[inline(always)]
pub fn is_after_less(bytes: &[u8], place: usize) -> bool
    requires { place ≤ length bytes.now }
    ensures { result ≡ is_after_less bytes.now place }
{
    place > 0 && bytes[place - 1] == b'<'
}

#[inline(always)]
fn mark_escape(quotes: Quotes, bytes: &[u8]) -> Option<(usize, char)>
    ensures { result ≡ mark quotes bytes.now }
{
    match bytes {
        [byte, ..] if *byte == b'\\' || is_quote(quotes, *byte) => Some((1, char::from(*byte))),
        _ => None,
    }
}

#[inline(always)]
fn is_quote(quotes: Quotes, byte: u8) -> bool
    ensures { result ≡ among quotes byte }
{
    // The byte first: most are no quote mark, whichever are known.
    match byte {
        b'\'' => !matches!(quotes, Quotes::Double),
        b'"' => !matches!(quotes, Quotes::Single),
        _ => false,
    }
}

#[inline(always)]
fn number_escape(element: Element, bytes: &[u8]) -> Option<(usize, char)>
    ensures { result ≡ number element bytes.now }
{
    match (element, bytes) {
        (Element::Script, [b'x', high, low, ..]) if is_pair(0, *high, *low) => {
            Some((3, char::from(pair_value(*high, *low))))
        }
        (Element::Style, [high, low, b' ', ..]) if is_pair(1, *high, *low) => {
            Some((3, char::from(pair_value(*high, *low))))
        }
        _ => None,
    }
}

// By the first digit: that of `<`, or that of a control.
#[inline(always)]
fn is_pair(least: u8, high: u8, low: u8) -> bool
    requires { least ≤ 1 }
    ensures { result ≡ writes_pair least high low }
{
    match high {
        b'3' => low == b'C',
        b'1' => is_upper_hex(low),
        b'0' => is_upper_hex(low) && low >= b'0' + least,
        _ => false,
    }
}

#[inline(always)]
fn pair_value(high: u8, low: u8) -> u8
    requires high { IsTrue (is_digit high) }
    requires low { IsTrue (is_digit low) }
    ensures { result ≡ pair high low }
{
    upper_hex_value(high) * 16 + upper_hex_value(low)
}

#[inline(always)]
fn is_upper_hex(byte: u8) -> bool
    ensures { result ≡ is_digit byte }
{
    matches!(byte, b'0'..=b'9' | b'A'..=b'F')
}

#[inline(always)]
fn upper_hex_value(byte: u8) -> u8
    requires { IsTrue (is_digit byte) }
    ensures value { result ≡ value_of byte }
    ensures small { result < 16 }
{
    if byte < b'A' {
        byte - b'0'
    } else {
        byte - b'A' + 10
    }
}

#[inline(always)]
fn separator_escape(element: Element, bytes: &[u8]) -> Option<(usize, char)>
    ensures { result ≡ separator element bytes.now }
{
    match (element, bytes) {
        (Element::Script, [b'u', b'2', b'0', b'2', b'8', ..]) => Some((5, '\u{2028}')),
        (Element::Script, [b'u', b'2', b'0', b'2', b'9', ..]) => Some((5, '\u{2029}')),
        _ => None,
    }
}

#[inline(always)]
fn opening_escape(element: Element, bytes: &[u8]) -> Option<(usize, char)>
    ensures { result ≡ opening element bytes.now }
{
    match bytes {
        [b'!', b'-', b'-', ..] => Some((1, '!')),
        [b'/', tag @ ..] if is_named_within(element, tag) => Some((1, '/')),
        _ => None,
    }
}

// Rarely needed, and so kept out of the loop over escapes.
#[inline(never)]
fn is_named_within(element: Element, tag: &[u8]) -> bool
    ensures { result ≡ begins_in_any_case (element_name element) ends_name_within tag.now }
{
    is_named(element, tag) && tag.len() > name_of(element).len()
}
