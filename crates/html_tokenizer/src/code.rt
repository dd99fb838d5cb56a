//! What a byte does in the code of a script or a style, outside of strings.
pub(crate) mod escapes;
pub(crate) mod scripts;
pub(crate) mod strings;
pub(crate) mod styles;
pub(crate) mod words;

ghost use Rattle.std.specs.Prelude.{◌≡◌, ℕ, List};
ghost use Rattle.html_tokenizer.specs.Tokenizer.Code.Comments.{block_byte, block_star_byte, gives_up, stays};
ghost use Rattle.html_tokenizer.specs.Tokenizer.Code.{code_after_solidus, code_at_less, code_byte, code_less_byte, in_code_byte, is_script, less_byte};
ghost use Rattle.html_tokenizer.specs.Tokenizer.Phases.{moved};

use crate::code::escapes::{double_escaped_less_byte, escaped_less_byte};
use crate::code::scripts::script_code_byte;
use crate::code::styles::style_code_byte;
use crate::elements::restricted::is_text_alone;
use crate::elements::{Content, OpenElement};
use crate::states::{Code, Move, Phase, Word, goes, refuses, to};

#[inline(always)]
pub(crate) fn stays(code: Code, content: Content, byte: u8) -> Move
    ensures { (word : List ℕ) → moved result word ≡ (stays code content byte).next }
{
    let _byte = byte;
    to(Phase::InCode(code), content)
}

/// The rest of the code is opaque.
#[inline(always)]
pub(crate) fn gives_up(content: Content, byte: u8) -> Move
    ensures { (word : List ℕ) → moved result word ≡ (gives_up content byte).next }
{
    stays(Code::Opaque, content, byte)
}

#[inline(always)]
pub(crate) fn block_byte(content: Content, byte: u8) -> Move
    ensures { (word : List ℕ) → moved result word ≡ (block_byte content byte).next }
{
    let code = if byte == b'*' {
        Code::BlockStar
    } else {
        Code::BlockComment
    };
    stays(code, content, byte)
}

#[inline(always)]
pub(crate) fn block_star_byte(content: Content, byte: u8) -> Move
    ensures { (word : List ℕ) → moved result word ≡ (block_star_byte content byte).next }
{
    if byte == b'/' {
        stays(Code::Plain, content, byte)
    } else {
        block_byte(content, byte)
    }
}

#[inline(always)]
fn code_byte(code: Code, content: Content, byte: u8) -> Move
    ensures { (word : List ℕ) → moved result word ≡ (code_byte code content byte).next }
{
    match content.element {
        OpenElement::Script => script_code_byte(code, content, byte),
        OpenElement::Style => style_code_byte(code, content, byte),
        OpenElement::SvgStyle if byte == b'&' => refuses(),
        _ => gives_up(content, byte),
    }
}

pub(crate) fn is_script(element: OpenElement) -> bool
    ensures { result ≡ is_script element }
{
    element == OpenElement::Script
}

fn code_at_less(element: OpenElement, code: Code) -> Code
    ensures { result ≡ code_at_less element code }
{
    match code {
        Code::LineComment | Code::LineLead | Code::LineSecond => Code::LineComment,
        Code::BlockComment | Code::BlockStar => Code::BlockComment,
        Code::FrontComment | Code::FrontStar => Code::FrontComment,
        Code::UrlOpen | Code::Url | Code::UrlSlash => Code::Url,
        Code::Slash if is_script(element) => Code::Opaque,
        Code::FrontSlash
        | Code::Json
        | Code::JsonRest
        | Code::Opaque
        | Code::EscapeStart
        | Code::EscapeStartDash => Code::Opaque,
        Code::Escaped | Code::EscapedDash | Code::EscapedDashDash => Code::Escaped,
        Code::DoubleEscaped | Code::DoubleEscapedDash | Code::DoubleEscapedDashDash => {
            Code::DoubleEscaped
        }
        _ => Code::Plain,
    }
}

/// In code.
#[inline(always)]
pub(crate) fn in_code_byte(code: Code, content: Content, byte: u8) -> Move
    ensures { (word : List ℕ) → moved result word ≡ (in_code_byte code content byte).next }
{
    if byte == b'<' {
        let code = code_at_less(content.element, code);
        to(Phase::CodeLess(code), content)
    } else {
        code_byte(code, content, byte)
    }
}

fn code_after_solidus(code: Code) -> Code
    ensures { result ≡ code_after_solidus code }
{
    match code {
        Code::LineComment | Code::BlockComment | Code::FrontComment | Code::Escaped => code,
        _ => Code::Opaque,
    }
}

/// After a `<` of code, outside of what `<!--` begins.
#[inline(always)]
pub(crate) fn less_byte(code: Code, content: Content, byte: u8) -> Move
    ensures { (word : List ℕ) → moved result word ≡ (less_byte code content byte).next }
{
    if byte == b'/' {
        let code = code_after_solidus(code);
        goes(Phase::CodeEndTag(code), content, Word::New)
    } else if (byte == b'!') & is_script(content.element) {
        to(Phase::InCode(Code::EscapeStart), content)
    } else {
        in_code_byte(code, content, byte)
    }
}

/// After a `<` of code.
pub(crate) fn code_less_byte(code: Code, content: Content, byte: u8) -> Move
    ensures { (word : List ℕ) → moved result word ≡ (code_less_byte code content byte).next }
{
    match code {
        Code::Escaped => escaped_less_byte(content, byte),
        Code::DoubleEscaped => double_escaped_less_byte(content, byte),
        _ if is_text_alone(content.element) => {
            if byte == b'/' {
                to(Phase::EndTagOpen, content)
            } else {
                refuses()
            }
        }
        _ => less_byte(code, content, byte),
    }
}
