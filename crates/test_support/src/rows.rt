//! Texts and what each operation makes of them: worked by hand, or as the Rust crate answers them.
mod bodies;
mod html;
pub mod references;
mod script_strings;
mod style_strings;

use html_escape::{Decoder, Encoder, Operation};

/// How the `Cow` form holds its text.
#[derive(Clone, Copy, PartialEq, Eq)]
pub enum Held {
    Borrowed,
    Owned,
}

/// A text, what the operation makes of it, and how the `Cow` form holds that.
pub type Row = (&'static str, &'static str, Held);

/// The rows of an operation.
pub fn rows(operation: Operation) -> &'static [Row] {
    match operation {
        Operation::Encode(encoder) => encoded_rows(encoder),
        Operation::Decode(decoder) => decoded_rows(decoder),
    }
}

fn encoded_rows(encoder: Encoder) -> &'static [Row] {
    match encoder {
        Encoder::TextMinimal => &html::TEXT_MINIMAL,
        Encoder::Text => &html::TEXT,
        Encoder::DoubleQuotedAttribute => &html::DOUBLE_QUOTED_ATTRIBUTE,
        Encoder::SingleQuotedAttribute => &html::SINGLE_QUOTED_ATTRIBUTE,
        Encoder::QuotedAttribute => &html::QUOTED_ATTRIBUTE,
        Encoder::Safe => &html::SAFE,
        Encoder::UnquotedAttribute => &html::UNQUOTED_ATTRIBUTE,
        Encoder::Script => &bodies::ENCODED_SCRIPTS,
        Encoder::Style => &bodies::ENCODED_STYLES,
        Encoder::ScriptSingleQuoted => &script_strings::ENCODED_SINGLE,
        Encoder::ScriptDoubleQuoted => &script_strings::ENCODED_DOUBLE,
        Encoder::ScriptQuoted => &script_strings::ENCODED_BOTH,
        Encoder::StyleSingleQuoted => &style_strings::ENCODED_SINGLE,
        Encoder::StyleDoubleQuoted => &style_strings::ENCODED_DOUBLE,
        Encoder::StyleQuoted => &style_strings::ENCODED_BOTH,
    }
}

fn decoded_rows(decoder: Decoder) -> &'static [Row] {
    match decoder {
        Decoder::HtmlEntities => &references::DECODED_REFERENCES,
        Decoder::Script => &bodies::DECODED_SCRIPTS,
        Decoder::Style => &bodies::DECODED_STYLES,
        Decoder::ScriptSingleQuoted => &script_strings::DECODED_SINGLE,
        Decoder::ScriptDoubleQuoted => &script_strings::DECODED_DOUBLE,
        Decoder::ScriptQuoted => &script_strings::DECODED_BOTH,
        Decoder::StyleSingleQuoted => &style_strings::DECODED_SINGLE,
        Decoder::StyleDoubleQuoted => &style_strings::DECODED_DOUBLE,
        Decoder::StyleQuoted => &style_strings::DECODED_BOTH,
    }
}
