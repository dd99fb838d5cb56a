//! The rule of the encoder, and its text put into any sink.
ghost use Rattle.std.specs.Prelude.{◌≡◌, ◌<◌, ◌^◌, [], length, slice_index, true, IfSome, IsSome};
ghost use Rattle.memchr.specs.Find.{is_byte};
ghost use Rattle.hesc_specs.specs.Text.Ascii.{less_than};
ghost use Rattle.hesc_sinks.specs.Took.{Took};
ghost use Rattle.hesc_engine.specs.Next.{IsChangeAt};
ghost use Rattle.html_json.specs.Applied.{applied-json_changes};
ghost use Rattle.html_json.specs.Encoding.{changes_at, json_changes, json_encoding};

use hesc_engine::forms::measure::total;
use hesc_engine::{Found, Replacement, Rule, Seek, Sink, SmallText, Sought, run};

/// The encoder of JSON.
///
/// It changes the byte 1 of `"<"` to `\u003C`.
#[derive(Clone, Copy)]
pub struct EncodeJson;

impl Rule for EncodeJson {
    ghost changes_from = { λ rule. json_changes };

    ghost made = { λ rule. json_encoding };

    ghost begins_at = { λ rule. changes_at };

    ghost is_sought = { λ rule. is_byte less_than };

    ghost rows = { λ rule. [] };

    #[inline(always)]
    fn seeks(&self) -> Seek {
        Seek {
            sought: Sought::Byte(b'<'),
            texts: None,
        }
    }

    #[inline(always)]
    fn change_at(&self, text: &str, place: usize) -> Option<Found<'_>> {
        Some(escape_at(text, place))
    }

    /// Each byte becomes six at most.
    #[inline(always)]
    fn longest(&self, text: &str) -> Option<usize> {
        text.len().checked_mul(6)
    }

    ghost makes = { λ rule source _. applied-json_changes source };
}

/// The change of the `<` at a place.
///
/// In `"<"` at 1 it is that byte, which becomes `\u003C`.
#[inline(always)]
pub fn escape_at(text: &str, place: usize) -> Found<'static>
    requires within { place < length text.now }
    requires sought { is_byte less_than (slice_index text.now place) ≡ true }
    ensures { IsChangeAt (changes_at text.now) text.now (json_changes text.now) place result }
{
    let _text = text;
    Found {
        start: place,
        end: place + 1,
        replacement: Replacement::Small(SmallText::from_ascii(*b"\\u003C\0\0", 6)),
    }
}

/// Hands the encoding of `text` to the sink, piece by piece.
///
/// On success the sink took exactly that. On the sink's fault, which is handed on at once, it took a
/// beginning of it.
///
/// Of `"<"` the sink takes `"\u003C"`.
#[inline(always)]
pub fn put_json<S: Sink>(text: &str, sink: &mut S) -> Result<(), S::Fault>
    ensures { Took (S.seen sink.old) (S.seen sink.new) (json_encoding text.now) result }
{
    run(&EncodeJson, text, sink)
}

/// The length of the encoding of `text`, or `None` where it passes the greatest `usize`.
///
/// Of `"<"` it is 8.
pub fn json_length(text: &str) -> Option<usize>
    ensures count { IfSome result (λ count. count ≡ length (json_encoding text.now)) }
    ensures fits { length (json_encoding text.now) < 2 ^ 64 → IsSome result }
{
    total(&EncodeJson, text)
}
