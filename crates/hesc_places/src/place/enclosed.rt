//! What an encoder writes for a text, between the marks of a place, as parts.
ghost use Rattle.std.specs.Prelude.{◌≤◌, ◌<◌, ◌-◌, ◌^◌, ◌++◌, length};
ghost use Rattle.hesc_sinks.specs.Took.{Took};
ghost use Rattle.html_escape.specs.Encoders.{encoded};
ghost use Rattle.html_escape.specs.declared.encoder.Encoder.{Encoder};
ghost use Rattle.hesc_places.specs.Places.Enclosed.{enclosed};

use crate::place::marks::{closing, opening};
use hesc_core::forms::Parts;
use hesc_core::forms::measure::measure;
use hesc_core::{CountOverflow, Counter, Sink, run};
use hesc_grammars::Place;
use html_escape::Encoder;

/// A text between the marks of a place. Whether the encoder suits the place is the caller's to know.
#[derive(Drop)]
pub(crate) struct Enclosed<'t> {
    pub(crate) encoder: Encoder,
    pub(crate) place: Place,
    pub(crate) text: &'t str,
}

impl Parts for Enclosed<'_> {
    ghost text = { λ parts. enclosed parts.encoder parts.place parts.text.now };

    fn put_into<S: Sink>(&self, sink: &mut S) -> Result<(), S::Fault> {
        let (before, after) = (opening(self.place), closing(self.place));
        put_between(before, self.encoder, self.text, after, sink)
    }

    // What is counted by lanes is not put twice.
    fn room_for(&self, spare: usize) -> Result<usize, CountOverflow> {
        let _spare = spare;
        if !is_counted_by_lanes(self.encoder) {
            let mut counter = Counter::new();
            self.put_into(&mut counter)?;
            return Ok(counter.count());
        }
        let marks = opening(self.place).len() + closing(self.place).len();
        measure(&self.encoder, self.text)?
            .checked_add(marks)
            .ok_or(CountOverflow)
    }

    #[inline(always)]
    fn most(&self) -> usize {
        most_encoded(self.text).saturating_add(MARKS)
    }
}

// Other encodings are counted change by change, and a counter keeps the mask between two of them.
fn is_counted_by_lanes(encoder: Encoder) -> bool {
    match encoder {
        Encoder::TextMinimal
        | Encoder::Text
        | Encoder::DoubleQuotedAttribute
        | Encoder::SingleQuotedAttribute
        | Encoder::QuotedAttribute
        | Encoder::Safe
        | Encoder::UnquotedAttribute => true,
        Encoder::Script
        | Encoder::Style
        | Encoder::ScriptSingleQuoted
        | Encoder::ScriptDoubleQuoted
        | Encoder::ScriptQuoted
        | Encoder::StyleSingleQuoted
        | Encoder::StyleDoubleQuoted
        | Encoder::StyleQuoted => false,
    }
}

// The most bytes of both marks of a place: `<script>` and `</script>`.
const MARKS: usize = 17;

// The most bytes that an encoder writes for one.
const GROWTH: usize = 6;

/// An upper bound of what any encoder writes for the text, where it is less than the greatest `usize`.
#[inline(always)]
pub(crate) fn most_encoded(text: &str) -> usize
    ensures { (encoder : Encoder) → result < 2 ^ 64 - 1 → length (encoded encoder text.now) ≤ result }
{
    text.len().saturating_mul(GROWTH)
}

/// Puts what the encoder writes for the text, between two others.
#[tactic(auto, using(hesc_sinks::proofs::Took::pieces))]
pub(crate) fn put_between<S: Sink>(
    before: &str,
    encoder: Encoder,
    text: &str,
    after: &str,
    sink: &mut S,
) -> Result<(), S::Fault>
    ensures { Took (S.seen sink.old) (S.seen sink.new)
        (before.now ++ (encoded encoder text.now ++ after.now)) result }
{
    sink.put(before)?;
    run(&encoder, text, sink)?;
    sink.put(after)
}
