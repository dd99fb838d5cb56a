//! What a byte does in the code of a script, outside of strings.
ghost use Rattle.std.specs.Prelude.{◌≡◌, ℕ, List};
ghost use Rattle.html_tokenizer.specs.Tokenizer.Code.Comments.{line_byte};
ghost use Rattle.html_tokenizer.specs.Tokenizer.Code.Scripts.{import_byte, is_json_space, letters_byte, module_byte, name_byte, script_byte, script_code_byte};
ghost use Rattle.html_tokenizer.specs.Tokenizer.Code.Words.{longer};
ghost use Rattle.html_tokenizer.specs.Tokenizer.Phases.{moved};
ghost use Rattle.html_tokenizer.specs.Tokenizer.States.{Forbidden, In, at_value};

use crate::code::escapes::{is_opaque, opaque_byte};
use crate::code::words::{is_blank, longer};
use crate::code::{block_byte, block_star_byte, gives_up, stays};
use crate::elements::Content;
use crate::flags::is_name_byte;
use crate::slot_place::SlotPlace;
use crate::states::{Code, Kind, Move, Phase, Word, in_value, to};

#[inline(always)]
fn line_byte(content: Content, byte: u8) -> Move
    ensures { (word : List ℕ) → moved result word ≡ (line_byte content byte).next }
{
    let code = match byte {
        b'\n' | b'\r' => Code::Plain,
        0xE2 => Code::LineLead,
        _ => Code::LineComment,
    };
    stays(code, content, byte)
}

#[inline(always)]
fn script_byte(content: Content, byte: u8) -> Move
    ensures { (word : List ℕ) → moved result word ≡ (script_byte content byte).next }
{
    let phase = match byte {
        b'\'' => Phase::In(SlotPlace::ScriptSingle),
        b'"' => Phase::In(SlotPlace::ScriptDouble),
        b'\\' | b'`' | b'#' => Phase::InCode(Code::Opaque),
        b'/' => Phase::InCode(Code::Slash),
        b'-' => Phase::InCode(Code::Dash),
        b'i' => Phase::InCode(Code::LetterI),
        b'f' => Phase::InCode(Code::LetterF),
        _ if is_name_byte(byte) => Phase::InCode(Code::Name),
        _ => Phase::InCode(Code::Plain),
    };
    to(phase, content)
}

#[inline(always)]
fn name_byte(content: Content, byte: u8) -> Move
    ensures { (word : List ℕ) → moved result word ≡ (name_byte content byte).next }
{
    if is_name_byte(byte) {
        stays(Code::Name, content, byte)
    } else {
        script_byte(content, byte)
    }
}

// After letters of `import` or `from`.
fn letters_byte(code: Code, content: Content, byte: u8) -> Move
    ensures { (word : List ℕ) → moved result word
        ≡ (letters_byte (longer code byte) content byte).next }
{
    match longer(code, byte) {
        Some(code) => stays(code, content, byte),
        None => name_byte(content, byte),
    }
}

/// A string begins in which no slot may stand.
pub(crate) fn begins_without_slot(place: SlotPlace, content: Content) -> Move
    ensures { (word : List ℕ) → moved result word ≡ at_value (In place) content Forbidden }
{
    in_value(Phase::In(place), content, Kind::Forbidden, Word::New)
}

fn module_byte(after: Code, content: Content, byte: u8) -> Move
    ensures { (word : List ℕ) → moved result word ≡ (module_byte after content byte).next }
{
    let place = match byte {
        b'\'' => SlotPlace::ScriptSingle,
        b'"' => SlotPlace::ScriptDouble,
        b'/' => return gives_up(content, byte),
        _ if is_blank(byte) => return stays(after, content, byte),
        _ => return script_byte(content, byte),
    };
    begins_without_slot(place, content)
}

fn import_byte(content: Content, byte: u8) -> Move
    ensures { (word : List ℕ) → moved result word ≡ (import_byte content byte).next }
{
    if byte == b'(' || byte == b'.' {
        gives_up(content, byte)
    } else {
        module_byte(Code::AfterImport, content, byte)
    }
}

/// Whether the byte is white space of JSON.
///
/// Of a space it is `true`, and of a form feed `false`.
#[inline(always)]
pub fn is_json_space(byte: u8) -> bool
    ensures { result ≡ is_json_space byte }
{
    matches!(byte, b' ' | b'\t' | b'\n' | b'\r')
}

#[inline(always)]
pub(crate) fn script_code_byte(code: Code, content: Content, byte: u8) -> Move
    ensures { (word : List ℕ) → moved result word ≡ (script_code_byte code content byte).next }
{
    match code {
        Code::Plain => script_byte(content, byte),
        Code::Json if is_json_space(byte) => stays(Code::Json, content, byte),
        Code::Json => stays(Code::JsonRest, content, byte),
        Code::LetterI
        | Code::LettersIm
        | Code::LettersImp
        | Code::LettersImpo
        | Code::LettersImpor
        | Code::LetterF
        | Code::LettersFr
        | Code::LettersFro => letters_byte(code, content, byte),
        Code::Import if !is_name_byte(byte) => import_byte(content, byte),
        Code::From if !is_name_byte(byte) => module_byte(Code::AfterFrom, content, byte),
        Code::Name | Code::Import | Code::From => name_byte(content, byte),
        Code::AfterImport => import_byte(content, byte),
        Code::AfterFrom => module_byte(Code::AfterFrom, content, byte),
        Code::Dash if byte != b'>' => script_byte(content, byte),
        Code::Slash if byte == b'/' => stays(Code::LineComment, content, byte),
        Code::Slash if byte == b'*' => stays(Code::BlockComment, content, byte),
        Code::LineComment => line_byte(content, byte),
        Code::LineLead if byte == 0x80 => stays(Code::LineSecond, content, byte),
        Code::LineLead => line_byte(content, byte),
        Code::LineSecond if byte == 0xA8 || byte == 0xA9 => stays(Code::Plain, content, byte),
        Code::LineSecond => line_byte(content, byte),
        Code::BlockComment => block_byte(content, byte),
        Code::BlockStar => block_star_byte(content, byte),
        _ if is_opaque(code) => opaque_byte(code, content, byte),
        _ => gives_up(content, byte),
    }
}
