//! A text enclosed for a place, or the reason why it is not: the place's opening mark, what an
//! encoder writes for the text, and the closing mark.
ghost use Rattle.std.specs.Prelude.{◌≡◌, ◌≤◌, ◌↔◌, length, IfOk, IsOk, IsTrue, OnOk};
ghost use Rattle.std.specs.Borrow.{sem};
ghost use Rattle.std.specs.String.{string_bytes};
ghost use Rattle.hesc_engine.specs.Forms.{Appended, StringAppended, string_room};
ghost use Rattle.hesc_places.specs.Places.Enclosed.{AnswersFirstFault, IsReadAsText, enclosed};
ghost use Rattle.hesc_places.specs.Places.Suits.{MayHold, suits};

use crate::place::enclosed::Enclosed;
use crate::place::suiting::suits;
use hesc_core::forms::append_parts;
use hesc_grammars::Place;
use html_escape::Encoder;
use std::alloc::{AllocError, Allocator};

/// Why a text is not enclosed for a place, in the order in which it is checked.
#[derive(Clone, Copy, Debug, PartialEq, Eq)]
pub enum PlaceFault {
    /// The encoder does not suit the place.
    NotForPlace,
    /// The place is an unquoted value, and the text is empty.
    EmptyUnquoted,
    /// A growth was refused, or the length would pass the greatest `usize`.
    Memory,
}

impl From<AllocError> for PlaceFault {
    ghost use Rattle.std.specs.Prelude.{◌≡◌};
    ghost use Rattle.hesc_places.specs.declared.place.enclosing.PlaceFault.TheVariants.{Memory};

    ghost from_gives = { λ _ fault. fault ≡ Memory };

    fn from(_refusal: AllocError) -> PlaceFault {
        PlaceFault::Memory
    }
}

/// Appends the opening mark of `place`, what `encoder` writes for `text`, and the closing mark, and
/// answers that part. On a fault, the first of [`PlaceFault`] that applies, `output` is as it was.
///
/// Whatever follows the part, the place ends exactly at its closing mark and is read as the text,
/// with U+FFFD for NUL where the encoder is `UnquotedAttribute` or one of a style's strings, and a
/// body as its encoding.
///
/// `enclose(Encoder::Text, Place::Text, "a<b", &mut page)?` appends and answers `>a&lt;b<`.
pub fn enclose<'o, A: Allocator>(
    encoder: Encoder,
    place: Place,
    text: &str,
    output: &'o mut String<A>,
) -> Result<&'o str, PlaceFault>
    ensures part { IfOk result (λ part. part.now ≡ enclosed encoder place text.now) }
    ensures read { IfOk result (λ part. IsReadAsText encoder place text.now part.now) }
    ensures* appended { sem 𝓛 (StringAppended A.row A.Allocator output.entry
        (enclosed encoder place text.now) result) }

    ensures faults { AnswersFirstFault encoder place text.now result }
    ensures fits { IsTrue (suits encoder place) → MayHold place text.now
        → length (enclosed encoder place text.now) ≤ string_room output.old → IsOk result }
{
    append_enclosed(output, encoder, place, text)
}

/// [`enclose`] with the output first: a caller's proof learns the answered part, and all of what
/// `output` holds afterwards.
///
/// In a quoted attribute value NUL and carriage returns stay as they are, but by
/// `UnquotedAttribute`, and the grammar reads them so. A browser reads NUL there as U+FFFD (HTML
/// Standard, 13.2.5.36, 13.2.5.37), and a carriage return as a line feed (13.2.3.5).
///
/// `append_enclosed(&mut page, Encoder::Text, Place::Text, "a<b")?` appends and answers `>a&lt;b<`.
pub fn append_enclosed<'o, A: Allocator>(
    output: &'o mut String<A>,
    encoder: Encoder,
    place: Place,
    text: &str,
) -> Result<&'o str, PlaceFault>
    ensures part { IfOk result (λ part. part.now ≡ enclosed encoder place text.now) }
    ensures read { IfOk result (λ part. IsReadAsText encoder place text.now part.now) }
    ensures* appended { sem 𝓛 (StringAppended A.row A.Allocator output.entry
        (enclosed encoder place text.now) result) }

    ensures faults { AnswersFirstFault encoder place text.now result }
    ensures fits { IsTrue (suits encoder place) → MayHold place text.now
        → length (enclosed encoder place text.now) ≤ string_room output.old → IsOk result }
{
    let start = output.as_str().len();
    add_enclosed(output, encoder, place, text)?;
    Ok(&output.as_str()[start..])
}

// Appends, and answers nothing.
fn add_enclosed<A: Allocator>(
    output: &mut String<A>,
    encoder: Encoder,
    place: Place,
    text: &str,
) -> Result<(), PlaceFault>
    ensures appended { Appended (string_bytes output.old) (string_bytes output.new)
        (enclosed encoder place text.now) result }
    ensures read { OnOk result
        (IsReadAsText encoder place text.now (enclosed encoder place text.now)) }

    ensures faults { AnswersFirstFault encoder place text.now result }
    ensures fits { IsTrue (suits encoder place) → MayHold place text.now
        → length (enclosed encoder place text.now) ≤ string_room output.old → IsOk result }
{
    check_place(encoder, place, text)?;
    let enclosed = Enclosed {
        encoder,
        place,
        text,
    };
    append_parts(output, &enclosed)?;
    Ok(())
}

// All faults but `Memory`.
fn check_place(encoder: Encoder, place: Place, text: &str) -> Result<(), PlaceFault>
    ensures faults { AnswersFirstFault encoder place text.now result }
    ensures ok { IsOk result ↔ (IsTrue (suits encoder place) × MayHold place text.now) }
{
    if !suits(encoder, place) {
        return Err(PlaceFault::NotForPlace);
    }
    if matches!(place, Place::UnquotedAttribute(_)) && text.is_empty() {
        return Err(PlaceFault::EmptyUnquoted);
    }
    Ok(())
}
