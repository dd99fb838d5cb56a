//! Escaping by a class: what the encoder of the class replaces becomes its reference or its escape.
ghost use Rattle.std.specs.Prelude.{◌≡◌, ◌<◌, ◌==◌, false, true, length, slice_index, if◌then◌else◌, IfNone, IfSome};
ghost use Rattle.hesc_specs.specs.Strings.Encoding.{
  line_separator,
  paragraph_separator,
  string_escape,
};
ghost use Rattle.hesc_specs.specs.Text.Classes.{in_class};
ghost use Rattle.hesc_specs.specs.Text.Escaped.{escape_changes, escaped};
ghost use Rattle.hesc_specs.specs.Text.EscapedPlaces.{escapes_at};
ghost use Rattle.hesc_specs.specs.declared.elements.Element.TheVariants.{Script};
ghost use Rattle.hesc_specs.proofs.Text.EscapeChanges.{applied-escape_changes};
ghost use Rattle.hesc_engine.specs.AsciiRows.{HasText};
ghost use Rattle.hesc_engine.specs.Next.{IsChangeAt};
ghost use Rattle.hesc_engine.specs.Text.{small_text_bytes};
ghost use Rattle.hesc_core.specs.ClassTexts.{class_rows};

mod escapes;
mod references;

use crate::rules::classes::string_class;
use crate::rules::escape::escapes::escapes;
use crate::rules::escape::references::references;
use hesc_engine::found::{Found, Replacement};
use hesc_engine::length::Length;
use hesc_engine::rule::Rule;
use hesc_engine::small_text::SmallText;
use hesc_engine::sought::{Seek, Sought};
use hesc_scan::length::{encoded_length, longest_escaped, string_bound};
use hesc_scan::scan::completes_separator;
use hesc_specs::Class;

/// The encoder of a class.
///
/// Of `Class::Text` it changes the byte 1 of `a<b` to `&lt;`.
#[derive(Clone, Copy)]
pub struct Escape(pub Class);

impl Rule for Escape {
    ghost changes_from = { λ rule. escape_changes rule.0 };

    ghost made = { λ rule. escaped rule.0 };

    ghost begins_at = { λ rule. escapes_at rule.0 };

    ghost is_sought = { λ rule. in_class rule.0 };

    ghost rows = { λ rule. class_rows rule.0 };

    #[inline(always)]
    fn seeks(&self) -> Seek {
        let texts = match string_class(self.0) {
            None => references(),
            Some((element, _)) => escapes(element),
        };
        Seek {
            sought: Sought::InClass(self.0),
            texts: Some(texts),
        }
    }

    #[inline(always)]
    fn change_at(&self, text: &str, place: usize) -> Option<Found<'_>> {
        escape_at(self.0, text, place)
    }

    #[inline(always)]
    fn length(&self, text: &str) -> Length {
        if string_class(self.0).is_some() {
            return match string_bound(self.0, text) {
                Some(bound) => Length::AtMost(bound),
                None => Length::Unknown,
            };
        }
        match encoded_length(self.0, text.as_bytes()) {
            Some(count) => Length::Exactly(count),
            None => Length::Unknown,
        }
    }

    #[inline(always)]
    fn longest(&self, text: &str) -> Option<usize> {
        longest_escaped(self.0, text)
    }

    ghost makes = { λ rule source text. applied-escape_changes rule.0 source text };
}

/// The change at a byte of the class that has no text in the table: NUL in a style, or the first byte
/// of a separator in a script. `None` where no separator begins there.
///
/// Of `Class::StyleQuoted` and NUL it is U+FFFD.
#[inline(always)]
pub fn escape_at(class: Class, text: &str, place: usize) -> Option<Found<'static>>
    requires within { place < length text.now }
    requires sought { in_class class (slice_index text.now place) ≡ true }
    requires without_text { HasText (class_rows class) (slice_index text.now place) → ⊥ }
    ensures none { IfNone result (escapes_at class text.now place ≡ false) }
    ensures found { IfSome result
        (IsChangeAt (escapes_at class text.now) text.now (escape_changes class text.now) place) }
{
    let bytes = text.as_bytes();
    if bytes[place] == 0 {
        return Some(Found {
            start: place,
            end: place + 1,
            replacement: Replacement::Small(SmallText::from_char('\u{FFFD}')),
        });
    }
    if !completes_separator(&bytes[place + 1..]) {
        return None;
    }
    Some(Found {
        start: place,
        end: place + 3,
        replacement: Replacement::Small(separator_escape(bytes[place + 2])),
    })
}

#[inline(always)]
fn separator_escape(last: u8) -> SmallText
    ensures { small_text_bytes result
        ≡ string_escape Script (if last == 0xA8 then line_separator else paragraph_separator) }
{
    if last == 0xA8 {
        SmallText::from_ascii(*b"\\u2028\0\0", 6)
    } else {
        SmallText::from_ascii(*b"\\u2029\0\0", 6)
    }
}
