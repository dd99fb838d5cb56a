//! Where in a declaration the value of a `style` attribute is.
ghost use Rattle.std.specs.List.{list_all};
ghost use Rattle.std.specs.Prelude.{◌≡◌};
ghost use Rattle.html_tokenizer.specs.Declarations.{is_style_byte, is_word_byte};
ghost use Rattle.html_tokenizer.specs.Tokenizer.Attributes.StyleParts.{after_name_read, declaration_end, declarations_read};

use crate::states::StylePart;
use crate::tags::is_space;

/// Whether the byte is one of a word.
#[inline(always)]
pub(crate) fn is_word_byte(byte: u8) -> bool
    ensures { result ≡ is_word_byte byte }
{
    byte.is_ascii_alphanumeric() || byte == b'-' || byte == b'_'
}

/// Whether the bytes are of words.
pub(crate) fn is_word(bytes: &[u8]) -> bool
    ensures { result ≡ list_all is_word_byte bytes.now }
{
    bytes.iter().all(|byte| is_word_byte(*byte))
}

/// Whether the byte is one of words, white space, numbers, hashes and commas, of which a slot's text in a declaration is.
///
/// Of `b'%'` it is `true`, and of `b'('` it is `false`.
#[inline]
pub fn is_style_byte(byte: u8) -> bool
    ensures { result ≡ is_style_byte byte }
{
    is_word_byte(byte) || is_space(byte) || matches!(byte, b'#' | b'%' | b'+' | b',' | b'.')
}

/// Whether a slot in the value of a declaration takes the text: it has no other bytes.
///
/// Of `b"1.5em"` it is `true`, and of `b"red;"` it is `false`.
pub fn is_style_value(text: &[u8]) -> bool
    ensures { result ≡ list_all is_style_byte text.now }
{
    let mut rest = text;
    'bytes: while let [byte, others @ ..] = rest {
        if !is_style_byte(*byte) {
            return false;
        }
        rest = others;
    }
    true
}

// Behind a name, up to the `:`.
fn after_name_read(byte: u8) -> StylePart
    ensures { result ≡ after_name_read byte }
{
    match byte {
        b':' => StylePart::Value,
        _ if is_space(byte) => StylePart::AfterName,
        _ => StylePart::Opaque,
    }
}

// At a byte that does not go on with the part of a declaration.
fn declaration_end(byte: u8) -> StylePart
    ensures { result ≡ declaration_end byte }
{
    if byte == b';' {
        StylePart::BeforeName
    } else {
        StylePart::Opaque
    }
}

/// After one byte more of the value.
#[inline(never)]
pub(crate) fn declarations_read(part: StylePart, byte: u8) -> StylePart
    ensures { result ≡ declarations_read part byte }
{
    match part {
        StylePart::BeforeName | StylePart::Name if is_word_byte(byte) => StylePart::Name,
        StylePart::BeforeName if is_space(byte) => StylePart::BeforeName,
        StylePart::Name | StylePart::AfterName => after_name_read(byte),
        StylePart::Value if is_style_byte(byte) => StylePart::Value,
        StylePart::Value if byte == b'!' => StylePart::Important,
        StylePart::Important if is_word_byte(byte) || is_space(byte) => StylePart::Important,
        StylePart::Opaque => StylePart::Opaque,
        StylePart::BeforeName | StylePart::Value | StylePart::Important => declaration_end(byte),
    }
}
