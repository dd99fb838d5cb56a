//! Which encoder suits which place.
ghost use Rattle.std.specs.Prelude.{◌≡◌};
ghost use Rattle.hesc_places.specs.Places.Suits.{suits};

use hesc_grammars::Place;
use html_escape::Encoder;

/// Whether what the encoder writes for any text can stand in the place.
///
/// | place | encoders that suit it |
/// |---|---|
/// | `Text` | the seven HTML encoders |
/// | `DoubleAttribute` | `DoubleQuotedAttribute`, `QuotedAttribute`, `Safe`, `UnquotedAttribute` |
/// | `SingleAttribute` | `SingleQuotedAttribute`, `QuotedAttribute`, `Safe`, `UnquotedAttribute` |
/// | `UnquotedAttribute` | `UnquotedAttribute`, with a text that is not empty |
/// | `ScriptSingle` | `ScriptSingleQuoted`, `ScriptQuoted` |
/// | `ScriptDouble` | `ScriptDoubleQuoted`, `ScriptQuoted` |
/// | `StyleSingle` | `StyleSingleQuoted`, `StyleQuoted` |
/// | `StyleDouble` | `StyleDoubleQuoted`, `StyleQuoted` |
/// | `ScriptBody` | `Script` |
/// | `StyleBody` | `Style` |
///
/// `suits(Encoder::Text, Place::Text)`, and not `suits(Encoder::Text, Place::ScriptBody)`.
pub fn suits(encoder: Encoder, place: Place) -> bool
    ensures { result ≡ suits encoder place }
{
    match encoder {
        Encoder::TextMinimal | Encoder::Text => matches!(place, Place::Text),
        Encoder::DoubleQuotedAttribute => matches!(place, Place::Text | Place::DoubleAttribute),
        Encoder::SingleQuotedAttribute => matches!(place, Place::Text | Place::SingleAttribute),
        Encoder::QuotedAttribute | Encoder::Safe => matches!(
            place,
            Place::Text | Place::DoubleAttribute | Place::SingleAttribute
        ),
        Encoder::UnquotedAttribute => matches!(
            place,
            Place::Text
                | Place::DoubleAttribute
                | Place::SingleAttribute
                | Place::UnquotedAttribute(_)
        ),
        Encoder::ScriptSingleQuoted => matches!(place, Place::ScriptSingle),
        Encoder::ScriptDoubleQuoted => matches!(place, Place::ScriptDouble),
        Encoder::ScriptQuoted => matches!(place, Place::ScriptSingle | Place::ScriptDouble),
        Encoder::StyleSingleQuoted => matches!(place, Place::StyleSingle),
        Encoder::StyleDoubleQuoted => matches!(place, Place::StyleDouble),
        Encoder::StyleQuoted => matches!(place, Place::StyleSingle | Place::StyleDouble),
        Encoder::Script => matches!(place, Place::ScriptBody),
        Encoder::Style => matches!(place, Place::StyleBody),
    }
}
