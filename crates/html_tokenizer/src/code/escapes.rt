//! What `<!--` begins in a script, and other code that takes no slot.
ghost use Rattle.std.specs.Prelude.{◌≡◌, ℕ, List, true};
ghost use Rattle.html_tokenizer.specs.Tokenizer.Code.Escapes.{is_opaque};
ghost use Rattle.html_tokenizer.specs.Tokenizer.Code.Scripts.{script_code_byte};
ghost use Rattle.html_tokenizer.specs.Tokenizer.Code.{code_word_byte, double_escaped_less_byte, escaped_less_byte};
ghost use Rattle.html_tokenizer.specs.Tokenizer.Phases.{moved};

use crate::code::{in_code_byte, stays};
use crate::elements::Content;
use crate::states::{Code, Move, Phase, Word, goes};
use crate::tags::ends_name;

/// In a part of a script that takes no slot, or where one begins.
pub(crate) fn opaque_byte(code: Code, content: Content, byte: u8) -> Move
    requires { is_opaque code ≡ true }
    ensures { (word : List ℕ) → moved result word ≡ (script_code_byte code content byte).next }
{
    let dash = byte == b'-';
    let next = match code {
        Code::EscapeStart if dash => Code::EscapeStartDash,
        Code::EscapeStartDash if dash => Code::EscapedDashDash,
        Code::EscapedDashDash | Code::DoubleEscapedDashDash if byte == b'>' => Code::Opaque,
        Code::Escaped if dash => Code::EscapedDash,
        Code::EscapedDash | Code::EscapedDashDash if dash => Code::EscapedDashDash,
        Code::Escaped | Code::EscapedDash | Code::EscapedDashDash => Code::Escaped,
        Code::DoubleEscaped if dash => Code::DoubleEscapedDash,
        Code::DoubleEscapedDash | Code::DoubleEscapedDashDash if dash => {
            Code::DoubleEscapedDashDash
        }
        Code::DoubleEscaped | Code::DoubleEscapedDash | Code::DoubleEscapedDashDash => {
            Code::DoubleEscaped
        }
        Code::JsonRest => Code::JsonRest,
        _ => Code::Opaque,
    };
    stays(next, content, byte)
}

pub(crate) fn escaped_less_byte(content: Content, byte: u8) -> Move
    ensures { (word : List ℕ) → moved result word ≡ (escaped_less_byte content byte).next }
{
    if byte == b'/' {
        goes(Phase::CodeEndTag(Code::Escaped), content, Word::New)
    } else if byte.is_ascii_alphabetic() {
        let letter = Word::Begin(byte.to_ascii_lowercase());
        goes(Phase::CodeWord(Code::Escaped), content, letter)
    } else {
        in_code_byte(Code::Escaped, content, byte)
    }
}

pub(crate) fn double_escaped_less_byte(content: Content, byte: u8) -> Move
    ensures { (word : List ℕ) → moved result word
        ≡ (double_escaped_less_byte content byte).next }
{
    if byte == b'/' {
        goes(Phase::CodeWord(Code::DoubleEscaped), content, Word::New)
    } else {
        in_code_byte(Code::DoubleEscaped, content, byte)
    }
}

/// In a word that begins or ends what hides an end tag.
pub(crate) fn code_word_byte(code: Code, content: Content, word: &[u8], byte: u8) -> Move
    ensures { moved result word.now ≡ (code_word_byte code content word.now byte).next }
{
    if ends_name(byte) {
        let next = match code {
            _ if word != b"script".as_slice() => code,
            Code::Escaped => Code::DoubleEscaped,
            _ => Code::Escaped,
        };
        stays(next, content, byte)
    } else if byte.is_ascii_alphabetic() {
        let letter = byte.to_ascii_lowercase();
        goes(Phase::CodeWord(code), content, Word::Add(letter))
    } else {
        in_code_byte(code, content, byte)
    }
}

/// Whether the rest takes no slot.
pub(crate) fn is_opaque(code: Code) -> bool
    ensures { result ≡ is_opaque code }
{
    matches!(
        code,
        Code::Opaque
            | Code::JsonRest
            | Code::EscapeStart
            | Code::EscapeStartDash
            | Code::Escaped
            | Code::EscapedDash
            | Code::EscapedDashDash
            | Code::DoubleEscaped
            | Code::DoubleEscapedDash
            | Code::DoubleEscapedDashDash
    )
}
