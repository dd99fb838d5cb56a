//! Documents and short texts that each operation is done to, in several forms.

use crate::digest::Digest;
use crate::kinds::{DENSE, MANY_SCRIPTS, MARKUP, SCRIPT, STYLE};
use crate::numbers::Numbers;
use crate::texts::{any_piece, text_of};
use html_escape::{
    Decoder, Encoder, append, append_to_vec, encode_double_quoted_attribute,
    encode_double_quoted_attribute_to_string, encode_safe, encode_script_quoted_text, encode_text,
    encode_text_to_string, encode_text_to_writer, encode_unquoted_attribute,
};
use std::alloc::{AllocError, Global};

static ENCODERS: [Encoder; 15] = [
    Encoder::TextMinimal,
    Encoder::Text,
    Encoder::DoubleQuotedAttribute,
    Encoder::SingleQuotedAttribute,
    Encoder::QuotedAttribute,
    Encoder::Safe,
    Encoder::UnquotedAttribute,
    Encoder::Script,
    Encoder::Style,
    Encoder::ScriptSingleQuoted,
    Encoder::ScriptDoubleQuoted,
    Encoder::ScriptQuoted,
    Encoder::StyleSingleQuoted,
    Encoder::StyleDoubleQuoted,
    Encoder::StyleQuoted,
];

// Each decoder with an encoder whose texts it decodes.
static DECODERS: [(Encoder, Decoder); 9] = [
    (Encoder::Safe, Decoder::HtmlEntities),
    (Encoder::Script, Decoder::Script),
    (Encoder::Style, Decoder::Style),
    (Encoder::ScriptSingleQuoted, Decoder::ScriptSingleQuoted),
    (Encoder::ScriptDoubleQuoted, Decoder::ScriptDoubleQuoted),
    (Encoder::ScriptQuoted, Decoder::ScriptQuoted),
    (Encoder::StyleSingleQuoted, Decoder::StyleSingleQuoted),
    (Encoder::StyleDoubleQuoted, Decoder::StyleDoubleQuoted),
    (Encoder::StyleQuoted, Decoder::StyleQuoted),
];

/// What is written again and again.
#[derive(Drop)]
struct Outputs {
    page: String,
    back: String,
    bytes: Vec<u8>,
}

pub(crate) fn change_documents(
    alloc: Global,
    numbers: &mut Numbers,
    rounds: usize,
    digest: &mut Digest,
) -> Result<(), AllocError> {
    let texts = [
        text_of(alloc, &MARKUP, numbers, 500_000)?,
        text_of(alloc, &MANY_SCRIPTS, numbers, 500_000)?,
        text_of(alloc, &SCRIPT, numbers, 250_000)?,
        text_of(alloc, &STYLE, numbers, 250_000)?,
        text_of(alloc, &DENSE, numbers, 100_000)?,
    ];
    let mut outputs = Outputs {
        page: String::new(alloc),
        back: String::new(alloc),
        bytes: Vec::new(alloc),
    };
    for _ in 0..rounds {
        for text in &texts {
            encode_each(text, numbers, &mut outputs, digest)?;
            decode_each(text, numbers, &mut outputs, digest)?;
            for _ in 0..40 {
                make_short(alloc, text, numbers, &mut outputs, digest)?;
            }
        }
    }
    Ok(())
}

fn encode_each(
    text: &str,
    numbers: &mut Numbers,
    outputs: &mut Outputs,
    digest: &mut Digest,
) -> Result<(), AllocError> {
    for encoder in &ENCODERS {
        let length = numbers.length(1_000, 80_000);
        outputs.page.clear();
        append(&mut outputs.page, encoder, any_piece(text, numbers, length))?;
        digest.add(outputs.page.as_bytes());
        let length = numbers.length(100, 8_000);
        outputs.bytes.clear();
        append_to_vec(
            &mut outputs.bytes,
            encoder,
            any_piece(text, numbers, length),
        )?;
        digest.add(&outputs.bytes);
    }
    Ok(())
}

fn decode_each(
    text: &str,
    numbers: &mut Numbers,
    outputs: &mut Outputs,
    digest: &mut Digest,
) -> Result<(), AllocError> {
    for (encoder, decoder) in &DECODERS {
        let length = numbers.length(1_000, 80_000);
        outputs.page.clear();
        outputs.back.clear();
        append(&mut outputs.page, encoder, any_piece(text, numbers, length))?;
        append(&mut outputs.back, decoder, outputs.page.as_str())?;
        digest.add(outputs.back.as_bytes());
    }
    Ok(())
}

// Texts of 5 to 60 bytes, borrowed where nothing changes, appended and written.
fn make_short(
    alloc: Global,
    text: &str,
    numbers: &mut Numbers,
    outputs: &mut Outputs,
    digest: &mut Digest,
) -> Result<(), AllocError> {
    digest.add(
        encode_text(alloc, short(text, numbers))?
            .as_str()
            .as_bytes(),
    );
    let attribute = encode_double_quoted_attribute(alloc, short(text, numbers))?;
    digest.add(attribute.as_str().as_bytes());
    digest.add(
        encode_safe(alloc, short(text, numbers))?
            .as_str()
            .as_bytes(),
    );
    let unquoted = encode_unquoted_attribute(alloc, short(text, numbers))?;
    digest.add(unquoted.as_str().as_bytes());
    let string = encode_script_quoted_text(alloc, short(text, numbers))?;
    digest.add(string.as_str().as_bytes());
    outputs.page.clear();
    encode_text_to_string(short(text, numbers), &mut outputs.page)?;
    encode_double_quoted_attribute_to_string(short(text, numbers), &mut outputs.page)?;
    digest.add(outputs.page.as_bytes());
    outputs.bytes.clear();
    let written = encode_text_to_writer(short(text, numbers), &mut outputs.bytes).is_ok();
    digest.add_number(written as u64);
    digest.add(&outputs.bytes);
    Ok(())
}

fn short<'t>(text: &'t str, numbers: &mut Numbers) -> &'t str {
    let length = numbers.from(5, 56);
    any_piece(text, numbers, length)
}
