//! The words by which the tool is told an operation or a place.
use hesc_places::{End, Place};
use html_escape::{Decoder, Encoder, Operation};

pub fn operation_word(operation: Operation) -> &'static str {
    match operation {
        Operation::Encode(encoder) => encoder_word(encoder),
        Operation::Decode(decoder) => decoder_word(decoder),
    }
}

pub fn encoder_word(encoder: Encoder) -> &'static str {
    match encoder {
        Encoder::TextMinimal => "encode_text_minimal",
        Encoder::Text => "encode_text",
        Encoder::DoubleQuotedAttribute => "encode_double_quoted_attribute",
        Encoder::SingleQuotedAttribute => "encode_single_quoted_attribute",
        Encoder::QuotedAttribute => "encode_quoted_attribute",
        Encoder::Safe => "encode_safe",
        Encoder::UnquotedAttribute => "encode_unquoted_attribute",
        Encoder::Script => "encode_script",
        Encoder::Style => "encode_style",
        Encoder::ScriptSingleQuoted => "encode_script_single_quoted_text",
        Encoder::ScriptDoubleQuoted => "encode_script_double_quoted_text",
        Encoder::ScriptQuoted => "encode_script_quoted_text",
        Encoder::StyleSingleQuoted => "encode_style_single_quoted_text",
        Encoder::StyleDoubleQuoted => "encode_style_double_quoted_text",
        Encoder::StyleQuoted => "encode_style_quoted_text",
    }
}

fn decoder_word(decoder: Decoder) -> &'static str {
    match decoder {
        Decoder::HtmlEntities => "decode_html_entities",
        Decoder::Script => "decode_script",
        Decoder::Style => "decode_style",
        Decoder::ScriptSingleQuoted => "decode_script_single_quoted_text",
        Decoder::ScriptDoubleQuoted => "decode_script_double_quoted_text",
        Decoder::ScriptQuoted => "decode_script_quoted_text",
        Decoder::StyleSingleQuoted => "decode_style_single_quoted_text",
        Decoder::StyleDoubleQuoted => "decode_style_double_quoted_text",
        Decoder::StyleQuoted => "decode_style_quoted_text",
    }
}

pub fn place_word(place: Place) -> &'static str {
    match place {
        Place::Text => "text",
        Place::DoubleAttribute => "double-attribute",
        Place::SingleAttribute => "single-attribute",
        Place::UnquotedAttribute(End::Tab) => "unquoted-tab",
        Place::UnquotedAttribute(End::LineFeed) => "unquoted-line-feed",
        Place::UnquotedAttribute(End::FormFeed) => "unquoted-form-feed",
        Place::UnquotedAttribute(End::Space) => "unquoted-space",
        Place::UnquotedAttribute(End::Greater) => "unquoted-greater",
        Place::ScriptSingle => "script-single",
        Place::ScriptDouble => "script-double",
        Place::StyleSingle => "style-single",
        Place::StyleDouble => "style-double",
        Place::ScriptBody => "script-body",
        Place::StyleBody => "style-body",
    }
}
