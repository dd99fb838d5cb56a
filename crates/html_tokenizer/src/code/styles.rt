//! What a byte does in the code of a style, outside of strings.
ghost use Rattle.std.specs.Prelude.{◌≡◌, ℕ, List};
ghost use Rattle.html_tokenizer.specs.Tokenizer.Code.Styles.{front_byte, front_comment_byte, front_star_byte, style_byte, style_code_byte, url_byte, url_open_byte};
ghost use Rattle.html_tokenizer.specs.Tokenizer.Phases.{moved};

use crate::code::scripts::begins_without_slot;
use crate::code::words::longer;
use crate::code::{block_byte, block_star_byte, gives_up, stays};
use crate::elements::Content;
use crate::slot_place::SlotPlace;
use crate::states::{Code, Move, Phase, to};
use crate::tags::is_space;

#[inline(always)]
fn style_byte(content: Content, byte: u8) -> Move
    ensures { (word : List ℕ) → moved result word ≡ (style_byte content byte).next }
{
    let phase = match byte {
        b'\'' => Phase::In(SlotPlace::StyleSingle),
        b'"' => Phase::In(SlotPlace::StyleDouble),
        b'\\' => Phase::InCode(Code::Opaque),
        b'/' => Phase::InCode(Code::Slash),
        b'@' => Phase::InCode(Code::At),
        b'u' | b'U' => Phase::InCode(Code::LetterU),
        _ => Phase::InCode(Code::Plain),
    };
    to(phase, content)
}

#[inline(always)]
fn url_byte(content: Content, byte: u8) -> Move
    ensures { (word : List ℕ) → moved result word ≡ (url_byte content byte).next }
{
    match byte {
        b')' => stays(Code::Plain, content, byte),
        b'"' | b'\'' | b'(' | b'\\' => gives_up(content, byte),
        b'/' => stays(Code::UrlSlash, content, byte),
        _ => stays(Code::Url, content, byte),
    }
}

#[inline(always)]
fn url_open_byte(content: Content, byte: u8) -> Move
    ensures { (word : List ℕ) → moved result word ≡ (url_open_byte content byte).next }
{
    let place = match byte {
        b'\'' => SlotPlace::StyleSingle,
        b'"' => SlotPlace::StyleDouble,
        _ if is_space(byte) => return stays(Code::UrlOpen, content, byte),
        _ => return url_byte(content, byte),
    };
    begins_without_slot(place, content)
}

fn front_byte(content: Content, byte: u8) -> Move
    ensures { (word : List ℕ) → moved result word ≡ (front_byte content byte).next }
{
    match byte {
        b'/' => stays(Code::FrontSlash, content, byte),
        b'@' | 0 => gives_up(content, byte),
        _ if is_space(byte) => stays(Code::Front, content, byte),
        _ => style_byte(content, byte),
    }
}

fn front_comment_byte(content: Content, byte: u8) -> Move
    ensures { (word : List ℕ) → moved result word ≡ (front_comment_byte content byte).next }
{
    match byte {
        b'*' => stays(Code::FrontStar, content, byte),
        0 => gives_up(content, byte),
        _ => stays(Code::FrontComment, content, byte),
    }
}

fn front_star_byte(content: Content, byte: u8) -> Move
    ensures { (word : List ℕ) → moved result word ≡ (front_star_byte content byte).next }
{
    match byte {
        b'/' => stays(Code::Front, content, byte),
        b'*' => gives_up(content, byte),
        _ => front_comment_byte(content, byte),
    }
}

#[inline(always)]
pub(crate) fn style_code_byte(code: Code, content: Content, byte: u8) -> Move
    ensures { (word : List ℕ) → moved result word ≡ (style_code_byte code content byte).next }
{
    let longer = match (code, byte) {
        (Code::Front, _) => return front_byte(content, byte),
        (Code::FrontSlash, b'*') => Code::FrontComment,
        (Code::FrontComment, _) => return front_comment_byte(content, byte),
        (Code::FrontStar, _) => return front_star_byte(content, byte),
        (Code::Slash, b'*') => Code::BlockComment,
        (Code::LetterU, b'r' | b'R') => Code::LettersUr,
        (Code::LettersUr, b'l' | b'L') => Code::LettersUrl,
        (Code::LettersUrl, b'(') => Code::UrlOpen,
        (Code::BlockComment, _) => return block_byte(content, byte),
        (Code::BlockStar, _) => return block_star_byte(content, byte),
        (Code::UrlOpen, _) => return url_open_byte(content, byte),
        (Code::UrlSlash, b'*') => Code::Opaque,
        (Code::Url | Code::UrlSlash, _) => return url_byte(content, byte),
        (Code::At, b'i' | b'I') => Code::Opaque,
        (
            Code::Plain
            | Code::Slash
            | Code::At
            | Code::LetterU
            | Code::LettersUr
            | Code::LettersUrl,
            _,
        ) => {
            return style_byte(content, byte);
        }
        _ => Code::Opaque,
    };
    stays(longer, content, byte)
}
