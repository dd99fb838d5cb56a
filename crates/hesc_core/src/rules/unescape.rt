//! Unescaping by a class: in an encoded string each escape becomes the character that it stands for.
ghost use Rattle.std.specs.Prelude.{◌≡◌, ◌<◌, [], false, true, length, slice_index, IfNone, IfSome};
ghost use Rattle.hesc_specs.specs.Strings.Changes.{string_decoding_changes, string_escapes_at};
ghost use Rattle.hesc_specs.specs.Text.Ascii.{backslash};
ghost use Rattle.hesc_specs.specs.Text.Escaped.{unescape_changes, unescaped, unescapes_at};
ghost use Rattle.hesc_specs.proofs.Text.UnescapeChanges.{applied-unescape_changes};
ghost use Rattle.memchr.specs.Find.{is_byte};
ghost use Rattle.hesc_engine.specs.Next.{IsChangeAt};

mod tokens;

use crate::rules::classes::string_class;
use crate::rules::unescape::tokens::{escape, is_after_less};
use hesc_engine::found::{Found, Replacement};
use hesc_engine::rule::Rule;
use hesc_engine::small_text::SmallText;
use hesc_engine::sought::{Seek, Sought};
use hesc_specs::{Class, Element, Quotes};

/// The decoder of a class. That of an HTML encoder's class changes nothing.
///
/// Of `Class::ScriptQuoted` it changes the bytes 2 to 4 of `it\'s` to `'`.
#[derive(Clone, Copy)]
pub struct Unescape(pub Class);

impl Rule for Unescape {
    ghost changes_from = { λ rule. unescape_changes rule.0 };

    ghost made = { λ rule. unescaped rule.0 };

    ghost begins_at = { λ rule. unescapes_at rule.0 };

    ghost is_sought = { λ rule. is_byte backslash };

    ghost rows = { λ rule. [] };

    #[inline(always)]
    fn seeks(&self) -> Seek {
        Seek {
            sought: Sought::Byte(b'\\'),
            texts: None,
        }
    }

    #[inline(always)]
    fn change_at(&self, text: &str, place: usize) -> Option<Found<'_>> {
        unescape_at(self.0, text, place)
    }

    /// The source's length: no escape is shorter than its character.
    #[inline(always)]
    fn longest(&self, text: &str) -> Option<usize> {
        Some(text.len())
    }

    ghost makes = { λ rule source _. applied-unescape_changes rule.0 source };
}

/// The escape that begins at a `\`, and its character, or `None` where none begins there.
///
/// In `it\'s` at 2, of `Class::ScriptQuoted`, it is the bytes 2 to 4, which become `'`.
#[inline(always)]
pub fn unescape_at(class: Class, text: &str, place: usize) -> Option<Found<'static>>
    requires within { place < length text.now }
    requires sought { is_byte backslash (slice_index text.now place) ≡ true }
    ensures none { IfNone result (unescapes_at class text.now place ≡ false) }
    ensures found { IfSome result (IsChangeAt (unescapes_at class text.now) text.now
        (unescape_changes class text.now) place) }
{
    match string_class(class) {
        Some((element, quotes)) => string_unescape_at(element, quotes, text, place),
        None => None,
    }
}

// The same, by the element and the quote marks.
#[inline(always)]
fn string_unescape_at(
    element: Element,
    quotes: Quotes,
    text: &str,
    place: usize,
) -> Option<Found<'static>>
    requires within { place < length text.now }
    requires sought { is_byte backslash (slice_index text.now place) ≡ true }
    ensures none { IfNone result (string_escapes_at element quotes text.now place ≡ false) }
    ensures found { IfSome result (IsChangeAt (string_escapes_at element quotes text.now) text.now
        (string_decoding_changes element quotes text.now) place) }
{
    let bytes = text.as_bytes();
    let after_less = is_after_less(bytes, place);
    match escape(element, quotes, after_less, &bytes[place + 1..]) {
        Some((more, character)) => Some(Found {
            start: place,
            end: place + 1 + more,
            replacement: Replacement::Small(SmallText::from_char(character)),
        }),
        None => None,
    }
}
