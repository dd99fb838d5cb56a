//! The bodies of scripts and styles: an encoder puts a `\` into each opening, after its `<`, and a
//! decoder drops it.
ghost use Rattle.std.specs.Prelude.{◌≡◌, ◌<◌, [], false, true, length, slice_index, IfNone, IfSome};
ghost use Rattle.hesc_specs.specs.Bodies.Changes.{body_decoding_changes, body_encoding_changes};
ghost use Rattle.hesc_specs.specs.Bodies.Encoding.{body_decoding, body_encoding};
ghost use Rattle.hesc_specs.specs.Bodies.Openings.{drops_at, opens_at};
ghost use Rattle.hesc_specs.specs.Text.Ascii.{backslash, less_than};
ghost use Rattle.hesc_specs.proofs.Bodies.DecodingChanges.{applied-body_decoding_changes};
ghost use Rattle.hesc_specs.proofs.Bodies.EncodingChanges.{applied-body_encoding_changes};
ghost use Rattle.memchr.specs.Find.{is_byte};
ghost use Rattle.hesc_engine.specs.Next.{IsChangeAt};

use hesc_engine::found::{Found, Replacement};
use hesc_engine::length::Length;
use hesc_engine::rule::Rule;
use hesc_engine::small_text::SmallText;
use hesc_engine::sought::{Seek, Sought};
use hesc_scan::length::{body_bound, longest_body};
use hesc_scan::openings::completes_opening;
use hesc_specs::Element;

/// The encoder of an element's body.
///
/// Of a script it puts a `\` into `a</script>` at 2.
#[derive(Clone, Copy)]
pub struct EncodeBody(pub Element);

/// The decoder of an element's body.
///
/// Of a script it drops the byte 2 of `a<\/script>`.
#[derive(Clone, Copy)]
pub struct DecodeBody(pub Element);

impl Rule for EncodeBody {
    ghost changes_from = { λ rule. body_encoding_changes rule.0 };

    ghost made = { λ rule. body_encoding rule.0 };

    ghost begins_at = { λ rule. opens_at rule.0 };

    ghost is_sought = { λ rule. is_byte less_than };

    ghost rows = { λ rule. [] };

    #[inline(always)]
    fn seeks(&self) -> Seek {
        Seek {
            sought: Sought::Byte(b'<'),
            texts: None,
        }
    }

    #[inline(always)]
    fn change_at(&self, text: &str, place: usize) -> Option<Found<'_>> {
        body_escape_at(self.0, text, place)
    }

    #[inline(always)]
    fn length(&self, text: &str) -> Length {
        match body_bound(text.as_bytes()) {
            Some(bound) => Length::AtMost(bound),
            None => Length::Unknown,
        }
    }

    #[inline(always)]
    fn longest(&self, text: &str) -> Option<usize> {
        longest_body(text.as_bytes())
    }

    ghost makes = { λ rule source _. applied-body_encoding_changes rule.0 source };
}

impl Rule for DecodeBody {
    ghost changes_from = { λ rule. body_decoding_changes rule.0 };

    ghost made = { λ rule. body_decoding rule.0 };

    ghost begins_at = { λ rule. drops_at rule.0 };

    ghost is_sought = { λ rule. is_byte backslash };

    ghost rows = { λ rule. [] };

    #[inline(always)]
    fn seeks(&self) -> Seek {
        Seek {
            sought: Sought::Byte(b'\\'),
            texts: None,
        }
    }

    #[inline(always)]
    fn change_at(&self, text: &str, place: usize) -> Option<Found<'_>> {
        body_unescape_at(self.0, text, place)
    }

    /// The source's length: nothing is put in.
    #[inline(always)]
    fn longest(&self, text: &str) -> Option<usize> {
        Some(text.len())
    }

    ghost makes = { λ rule source _. applied-body_decoding_changes rule.0 source };
}

/// The `\` that goes into the opening at a `<`, or `None` where none begins there.
///
/// In `a</script>` at 1, of a script, it goes in at 2.
#[inline(always)]
pub fn body_escape_at(element: Element, text: &str, place: usize) -> Option<Found<'static>>
    requires within { place < length text.now }
    requires sought { is_byte less_than (slice_index text.now place) ≡ true }
    ensures none { IfNone result (opens_at element text.now place ≡ false) }
    ensures found { IfSome result (IsChangeAt (opens_at element text.now) text.now
        (body_encoding_changes element text.now) place) }
{
    let bytes = text.as_bytes();
    if !completes_opening(element, &bytes[place + 1..]) {
        return None;
    }
    Some(Found {
        start: place + 1,
        end: place + 1,
        replacement: Replacement::Small(SmallText::from_ascii(*b"\\\0\0\0\0\0\0\0", 1)),
    })
}

/// The `\` that an escaped opening loses, or `None` where it stands in none.
///
/// In `a<\/script>` at 2, of a script, it is that byte.
#[inline(always)]
pub fn body_unescape_at(element: Element, text: &str, place: usize) -> Option<Found<'static>>
    requires within { place < length text.now }
    requires sought { is_byte backslash (slice_index text.now place) ≡ true }
    ensures none { IfNone result (drops_at element text.now place ≡ false) }
    ensures found { IfSome result (IsChangeAt (drops_at element text.now) text.now
        (body_decoding_changes element text.now) place) }
{
    let bytes = text.as_bytes();
    if place == 0 || bytes[place - 1] != b'<' {
        return None;
    }
    if !completes_opening(element, &bytes[place + 1..]) {
        return None;
    }
    Some(Found {
        start: place,
        end: place + 1,
        replacement: Replacement::Borrowed(""),
    })
}
