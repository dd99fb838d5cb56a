//! The four forms of each operation, by its value.

use html_escape::*;
use std::alloc::{AllocError, Allocator};
use std::borrow::CowStr;
use std::io::{self, Write};

/// The `Cow` form.
pub fn make<'t, A: Allocator>(
    operation: Operation,
    alloc: A,
    text: &'t str,
) -> Result<CowStr<'t, A>, AllocError> {
    match operation {
        Operation::Encode(encoder) => encode(encoder, alloc, text),
        Operation::Decode(decoder) => decode(decoder, alloc, text),
    }
}

fn encode<'t, A: Allocator>(
    encoder: Encoder,
    alloc: A,
    text: &'t str,
) -> Result<CowStr<'t, A>, AllocError> {
    match encoder {
        Encoder::TextMinimal => encode_text_minimal(alloc, text),
        Encoder::Text => encode_text(alloc, text),
        Encoder::DoubleQuotedAttribute => encode_double_quoted_attribute(alloc, text),
        Encoder::SingleQuotedAttribute => encode_single_quoted_attribute(alloc, text),
        Encoder::QuotedAttribute => encode_quoted_attribute(alloc, text),
        Encoder::Safe => encode_safe(alloc, text),
        Encoder::UnquotedAttribute => encode_unquoted_attribute(alloc, text),
        Encoder::Script => encode_script(alloc, text),
        Encoder::Style => encode_style(alloc, text),
        Encoder::ScriptSingleQuoted => encode_script_single_quoted_text(alloc, text),
        Encoder::ScriptDoubleQuoted => encode_script_double_quoted_text(alloc, text),
        Encoder::ScriptQuoted => encode_script_quoted_text(alloc, text),
        Encoder::StyleSingleQuoted => encode_style_single_quoted_text(alloc, text),
        Encoder::StyleDoubleQuoted => encode_style_double_quoted_text(alloc, text),
        Encoder::StyleQuoted => encode_style_quoted_text(alloc, text),
    }
}

fn decode<'t, A: Allocator>(
    decoder: Decoder,
    alloc: A,
    text: &'t str,
) -> Result<CowStr<'t, A>, AllocError> {
    match decoder {
        Decoder::HtmlEntities => decode_html_entities(alloc, text),
        Decoder::Script => decode_script(alloc, text),
        Decoder::Style => decode_style(alloc, text),
        Decoder::ScriptSingleQuoted => decode_script_single_quoted_text(alloc, text),
        Decoder::ScriptDoubleQuoted => decode_script_double_quoted_text(alloc, text),
        Decoder::ScriptQuoted => decode_script_quoted_text(alloc, text),
        Decoder::StyleSingleQuoted => decode_style_single_quoted_text(alloc, text),
        Decoder::StyleDoubleQuoted => decode_style_double_quoted_text(alloc, text),
        Decoder::StyleQuoted => decode_style_quoted_text(alloc, text),
    }
}

/// The string form.
pub fn make_to_string<'o, A: Allocator>(
    operation: Operation,
    text: &str,
    output: &'o mut String<A>,
) -> Result<&'o str, AllocError> {
    match operation {
        Operation::Encode(encoder) => encode_to_string(encoder, text, output),
        Operation::Decode(decoder) => decode_to_string(decoder, text, output),
    }
}

fn encode_to_string<'o, A: Allocator>(
    encoder: Encoder,
    text: &str,
    output: &'o mut String<A>,
) -> Result<&'o str, AllocError> {
    match encoder {
        Encoder::TextMinimal => encode_text_minimal_to_string(text, output),
        Encoder::Text => encode_text_to_string(text, output),
        Encoder::DoubleQuotedAttribute => encode_double_quoted_attribute_to_string(text, output),
        Encoder::SingleQuotedAttribute => encode_single_quoted_attribute_to_string(text, output),
        Encoder::QuotedAttribute => encode_quoted_attribute_to_string(text, output),
        Encoder::Safe => encode_safe_to_string(text, output),
        Encoder::UnquotedAttribute => encode_unquoted_attribute_to_string(text, output),
        Encoder::Script => encode_script_to_string(text, output),
        Encoder::Style => encode_style_to_string(text, output),
        Encoder::ScriptSingleQuoted => encode_script_single_quoted_text_to_string(text, output),
        Encoder::ScriptDoubleQuoted => encode_script_double_quoted_text_to_string(text, output),
        Encoder::ScriptQuoted => encode_script_quoted_text_to_string(text, output),
        Encoder::StyleSingleQuoted => encode_style_single_quoted_text_to_string(text, output),
        Encoder::StyleDoubleQuoted => encode_style_double_quoted_text_to_string(text, output),
        Encoder::StyleQuoted => encode_style_quoted_text_to_string(text, output),
    }
}

fn decode_to_string<'o, A: Allocator>(
    decoder: Decoder,
    text: &str,
    output: &'o mut String<A>,
) -> Result<&'o str, AllocError> {
    match decoder {
        Decoder::HtmlEntities => decode_html_entities_to_string(text, output),
        Decoder::Script => decode_script_to_string(text, output),
        Decoder::Style => decode_style_to_string(text, output),
        Decoder::ScriptSingleQuoted => decode_script_single_quoted_text_to_string(text, output),
        Decoder::ScriptDoubleQuoted => decode_script_double_quoted_text_to_string(text, output),
        Decoder::ScriptQuoted => decode_script_quoted_text_to_string(text, output),
        Decoder::StyleSingleQuoted => decode_style_single_quoted_text_to_string(text, output),
        Decoder::StyleDoubleQuoted => decode_style_double_quoted_text_to_string(text, output),
        Decoder::StyleQuoted => decode_style_quoted_text_to_string(text, output),
    }
}

/// The vector form.
pub fn make_to_vec<'o, A: Allocator>(
    operation: Operation,
    text: &str,
    output: &'o mut Vec<u8, A>,
) -> Result<&'o [u8], AllocError> {
    match operation {
        Operation::Encode(encoder) => encode_to_vec(encoder, text, output),
        Operation::Decode(decoder) => decode_to_vec(decoder, text, output),
    }
}

fn encode_to_vec<'o, A: Allocator>(
    encoder: Encoder,
    text: &str,
    output: &'o mut Vec<u8, A>,
) -> Result<&'o [u8], AllocError> {
    match encoder {
        Encoder::TextMinimal => encode_text_minimal_to_vec(text, output),
        Encoder::Text => encode_text_to_vec(text, output),
        Encoder::DoubleQuotedAttribute => encode_double_quoted_attribute_to_vec(text, output),
        Encoder::SingleQuotedAttribute => encode_single_quoted_attribute_to_vec(text, output),
        Encoder::QuotedAttribute => encode_quoted_attribute_to_vec(text, output),
        Encoder::Safe => encode_safe_to_vec(text, output),
        Encoder::UnquotedAttribute => encode_unquoted_attribute_to_vec(text, output),
        Encoder::Script => encode_script_to_vec(text, output),
        Encoder::Style => encode_style_to_vec(text, output),
        Encoder::ScriptSingleQuoted => encode_script_single_quoted_text_to_vec(text, output),
        Encoder::ScriptDoubleQuoted => encode_script_double_quoted_text_to_vec(text, output),
        Encoder::ScriptQuoted => encode_script_quoted_text_to_vec(text, output),
        Encoder::StyleSingleQuoted => encode_style_single_quoted_text_to_vec(text, output),
        Encoder::StyleDoubleQuoted => encode_style_double_quoted_text_to_vec(text, output),
        Encoder::StyleQuoted => encode_style_quoted_text_to_vec(text, output),
    }
}

fn decode_to_vec<'o, A: Allocator>(
    decoder: Decoder,
    text: &str,
    output: &'o mut Vec<u8, A>,
) -> Result<&'o [u8], AllocError> {
    match decoder {
        Decoder::HtmlEntities => decode_html_entities_to_vec(text, output),
        Decoder::Script => decode_script_to_vec(text, output),
        Decoder::Style => decode_style_to_vec(text, output),
        Decoder::ScriptSingleQuoted => decode_script_single_quoted_text_to_vec(text, output),
        Decoder::ScriptDoubleQuoted => decode_script_double_quoted_text_to_vec(text, output),
        Decoder::ScriptQuoted => decode_script_quoted_text_to_vec(text, output),
        Decoder::StyleSingleQuoted => decode_style_single_quoted_text_to_vec(text, output),
        Decoder::StyleDoubleQuoted => decode_style_double_quoted_text_to_vec(text, output),
        Decoder::StyleQuoted => decode_style_quoted_text_to_vec(text, output),
    }
}

/// The writer form.
pub fn make_to_writer<W: Write>(
    operation: Operation,
    text: &str,
    output: &mut W,
) -> io::Result<()> {
    match operation {
        Operation::Encode(encoder) => encode_to_writer(encoder, text, output),
        Operation::Decode(decoder) => decode_to_writer(decoder, text, output),
    }
}

fn encode_to_writer<W: Write>(encoder: Encoder, text: &str, output: &mut W) -> io::Result<()> {
    match encoder {
        Encoder::TextMinimal => encode_text_minimal_to_writer(text, output),
        Encoder::Text => encode_text_to_writer(text, output),
        Encoder::DoubleQuotedAttribute => encode_double_quoted_attribute_to_writer(text, output),
        Encoder::SingleQuotedAttribute => encode_single_quoted_attribute_to_writer(text, output),
        Encoder::QuotedAttribute => encode_quoted_attribute_to_writer(text, output),
        Encoder::Safe => encode_safe_to_writer(text, output),
        Encoder::UnquotedAttribute => encode_unquoted_attribute_to_writer(text, output),
        Encoder::Script => encode_script_to_writer(text, output),
        Encoder::Style => encode_style_to_writer(text, output),
        Encoder::ScriptSingleQuoted => encode_script_single_quoted_text_to_writer(text, output),
        Encoder::ScriptDoubleQuoted => encode_script_double_quoted_text_to_writer(text, output),
        Encoder::ScriptQuoted => encode_script_quoted_text_to_writer(text, output),
        Encoder::StyleSingleQuoted => encode_style_single_quoted_text_to_writer(text, output),
        Encoder::StyleDoubleQuoted => encode_style_double_quoted_text_to_writer(text, output),
        Encoder::StyleQuoted => encode_style_quoted_text_to_writer(text, output),
    }
}

fn decode_to_writer<W: Write>(decoder: Decoder, text: &str, output: &mut W) -> io::Result<()> {
    match decoder {
        Decoder::HtmlEntities => decode_html_entities_to_writer(text, output),
        Decoder::Script => decode_script_to_writer(text, output),
        Decoder::Style => decode_style_to_writer(text, output),
        Decoder::ScriptSingleQuoted => decode_script_single_quoted_text_to_writer(text, output),
        Decoder::ScriptDoubleQuoted => decode_script_double_quoted_text_to_writer(text, output),
        Decoder::ScriptQuoted => decode_script_quoted_text_to_writer(text, output),
        Decoder::StyleSingleQuoted => decode_style_single_quoted_text_to_writer(text, output),
        Decoder::StyleDoubleQuoted => decode_style_double_quoted_text_to_writer(text, output),
        Decoder::StyleQuoted => decode_style_quoted_text_to_writer(text, output),
    }
}
