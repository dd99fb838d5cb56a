//! The words that name the operations, the encoders among them, the places, and how a value is
//! quoted.
ghost use Rattle.std.specs.Prelude.{◌≡◌, [], ◌∷◌, MatchOption};
ghost use Rattle.hesc_commands.specs.Names.{
  IsNameOf,
  IsNoNameBy,
  decoder_name,
  encoder_name,
  operation_name,
  place_name,
  quoting_name,
};

use hesc_places::{End, Place, Quoting};
use html_escape::{Decoder, Encoder, Operation};

/// The operation of this name, `None` where it is none.
pub fn operation_named(word: &str) -> Option<Operation>
    ensures { MatchOption result (IsNoNameBy operation_name word.now)
        (IsNameOf operation_name word.now) }
{
    if let Some(encoder) = encoder_named(word) {
        return Some(Operation::Encode(encoder));
    }
    if let Some(decoder) = decoder_named(word) {
        return Some(Operation::Decode(decoder));
    }
    None
}

/// The encoder of this name, `None` where it is none.
pub fn encoder_named(word: &str) -> Option<Encoder>
    ensures { MatchOption result (IsNoNameBy encoder_name word.now)
        (IsNameOf encoder_name word.now) }
{
    match word {
        "encode_text_minimal" => Some(Encoder::TextMinimal),
        "encode_text" => Some(Encoder::Text),
        "encode_double_quoted_attribute" => Some(Encoder::DoubleQuotedAttribute),
        "encode_single_quoted_attribute" => Some(Encoder::SingleQuotedAttribute),
        "encode_quoted_attribute" => Some(Encoder::QuotedAttribute),
        "encode_safe" => Some(Encoder::Safe),
        "encode_unquoted_attribute" => Some(Encoder::UnquotedAttribute),
        "encode_script" => Some(Encoder::Script),
        "encode_style" => Some(Encoder::Style),
        "encode_script_single_quoted_text" => Some(Encoder::ScriptSingleQuoted),
        "encode_script_double_quoted_text" => Some(Encoder::ScriptDoubleQuoted),
        "encode_script_quoted_text" => Some(Encoder::ScriptQuoted),
        "encode_style_single_quoted_text" => Some(Encoder::StyleSingleQuoted),
        "encode_style_double_quoted_text" => Some(Encoder::StyleDoubleQuoted),
        "encode_style_quoted_text" => Some(Encoder::StyleQuoted),
        _ => None,
    }
}

/// The decoder of this name, `None` where it is none.
pub fn decoder_named(word: &str) -> Option<Decoder>
    ensures { MatchOption result (IsNoNameBy decoder_name word.now)
        (IsNameOf decoder_name word.now) }
{
    match word {
        "decode_html_entities" => Some(Decoder::HtmlEntities),
        "decode_script" => Some(Decoder::Script),
        "decode_style" => Some(Decoder::Style),
        "decode_script_single_quoted_text" => Some(Decoder::ScriptSingleQuoted),
        "decode_script_double_quoted_text" => Some(Decoder::ScriptDoubleQuoted),
        "decode_script_quoted_text" => Some(Decoder::ScriptQuoted),
        "decode_style_single_quoted_text" => Some(Decoder::StyleSingleQuoted),
        "decode_style_double_quoted_text" => Some(Decoder::StyleDoubleQuoted),
        "decode_style_quoted_text" => Some(Decoder::StyleQuoted),
        _ => None,
    }
}

/// The place of this name, `None` where it is none.
pub fn place_named(word: &str) -> Option<Place>
    ensures { MatchOption result (IsNoNameBy place_name word.now) (IsNameOf place_name word.now) }
{
    match word {
        "text" => Some(Place::Text),
        "double-attribute" => Some(Place::DoubleAttribute),
        "single-attribute" => Some(Place::SingleAttribute),
        "unquoted-tab" => Some(Place::UnquotedAttribute(End::Tab)),
        "unquoted-line-feed" => Some(Place::UnquotedAttribute(End::LineFeed)),
        "unquoted-form-feed" => Some(Place::UnquotedAttribute(End::FormFeed)),
        "unquoted-space" => Some(Place::UnquotedAttribute(End::Space)),
        "unquoted-greater" => Some(Place::UnquotedAttribute(End::Greater)),
        "script-single" => Some(Place::ScriptSingle),
        "script-double" => Some(Place::ScriptDouble),
        "style-single" => Some(Place::StyleSingle),
        "style-double" => Some(Place::StyleDouble),
        "script-body" => Some(Place::ScriptBody),
        "style-body" => Some(Place::StyleBody),
        _ => None,
    }
}

/// How a value of this letter is quoted, `None` where it is no such letter.
pub fn quoting_named(word: &str) -> Option<Quoting>
    ensures { MatchOption result (IsNoNameBy quoting_name word.now)
        (IsNameOf quoting_name word.now) }
{
    match word {
        "u" => Some(Quoting::Unquoted),
        "s" => Some(Quoting::Single),
        "d" => Some(Quoting::Double),
        _ => None,
    }
}

/// The letter for how a value is quoted.
///
/// Of `Quoting::Single` it is `b's'`.
pub fn quoting_letter(quoting: Quoting) -> u8
    ensures { quoting_name quoting ≡ result ∷ [] }
{
    match quoting {
        Quoting::Unquoted => b'u',
        Quoting::Single => b's',
        Quoting::Double => b'd',
    }
}
