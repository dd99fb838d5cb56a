//! The rule of what is decided of a body, whatever follows it: a `\` goes into each opening that is
//! decided, after its `<`, and the partial end is dropped.
ghost use Rattle.std.specs.Prelude.{◌≡◌, []};
ghost use Rattle.memchr.specs.Find.{is_byte};
ghost use Rattle.hesc_specs.specs.Text.Ascii.{less_than};
ghost use Rattle.hesc_specs.specs.Bodies.Sessions.{decided_encoding, is_partial as partial};
ghost use Rattle.hesc_specs.specs.Bodies.DecidedChanges.{decided_changes};
ghost use Rattle.hesc_specs.proofs.Bodies.DecidedChanges.{applied-decided_changes};
ghost use Rattle.html_escape.specs.DecidedPlaces.{decides_at};

use crate::body_encoder::partial::{MOST_UNDECIDED, is_partial};
use hesc_core::openings::completes_opening;
use hesc_core::{Element, Found, Replacement, Rule, Seek, SmallText, Sought};

/// The encoder of what is decided of a body.
#[derive(Clone, Copy)]
pub(crate) struct EncodeDecided(pub(crate) Element);

impl Rule for EncodeDecided {
    ghost changes_from = { λ rule. decided_changes (rule.0) };

    ghost made = { λ rule. decided_encoding (rule.0) };

    ghost begins_at = { λ rule. decides_at (rule.0) };

    ghost is_sought = { λ rule. is_byte less_than };

    ghost rows = { λ rule. [] };

    #[inline(always)]
    fn seeks(&self) -> Seek {
        Seek {
            sought: Sought::Byte(b'<'),
            texts: None,
        }
    }

    #[inline(always)]
    fn change_at(&self, text: &str, place: usize) -> Option<Found<'_>> {
        let bytes = text.as_bytes();
        if ends_partially(self.0, &bytes[place..]) {
            return Some(Found {
                start: place,
                end: bytes.len(),
                replacement: Replacement::Borrowed(""),
            });
        }
        if !completes_opening(self.0, &bytes[place + 1..]) {
            return None;
        }
        Some(Found {
            start: place + 1,
            end: place + 1,
            replacement: Replacement::Small(SmallText::from_ascii(*b"\\\0\0\0\0\0\0\0", 1)),
        })
    }

    fn longest(&self, _text: &str) -> Option<usize> {
        None
    }

    ghost makes = { λ rule source _. applied-decided_changes (rule.0) source };
}

// Whether these bytes, up to the end of the body's text so far, are partial. Most are too many.
#[inline(always)]
fn ends_partially(element: Element, bytes: &[u8]) -> bool
    ensures { result ≡ partial element bytes.now }
{
    bytes.len() <= MOST_UNDECIDED && is_partial(element, bytes)
}
