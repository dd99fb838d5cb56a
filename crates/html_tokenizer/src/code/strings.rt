//! What a byte does in a string of a script or a style.
ghost use Rattle.std.specs.Char.{is_digit};
ghost use Rattle.std.specs.Prelude.{◌≡◌, ◌++◌, ◌∷◌, [], ℕ, Bool, List};
ghost use Rattle.hesc_grammars.specs.StyleStrings.{is_newline_or_nul};
ghost use Rattle.html_tokenizer.specs.Tokenizer.Attributes.{reference_read};
ghost use Rattle.html_tokenizer.specs.Tokenizer.Code.Comments.{ends_line};
ghost use Rattle.html_tokenizer.specs.Tokenizer.Code.Strings.{begins_hex_escape, character_of_escape, script_escape_byte, string_byte, string_less_byte, style_escape_byte};
ghost use Rattle.html_tokenizer.specs.Tokenizer.Phases.{attribute_in, moved};
ghost use Rattle.html_tokenizer.specs.Tokenizer.Transitions.{Transition};

use crate::attributes::reference_read;
use crate::code::{in_code_byte, is_script, less_byte};
use crate::elements::Content;
use crate::slot_place::SlotPlace;
use crate::states::{Code, Kind, Move, Phase, Word, in_value, to};
use crate::values::{begins_character, keeps};
use hesc_grammars::Step;
use hesc_grammars::script_strings::script_escape;

/// In a string. Its bytes but the mark, `\` and `<` stand as they are, unless they break it.
#[inline(always)]
pub(crate) fn string_byte(
    mark: u8,
    place: SlotPlace,
    content: Content,
    kind: Kind,
    word: &[u8],
    byte: u8,
    breaks: bool,
) -> Move
    ensures { (test : ℕ → Bool) → test byte ≡ breaks → moved result word.now
        ≡ (string_byte test mark place content (attribute_in kind word.now) byte).next }
{
    if byte == mark {
        to(Phase::InCode(Code::Plain), content)
    } else if byte == b'\\' {
        begins_character(place, content, kind)
    } else if byte == b'<' {
        in_value(Phase::StringLess(place), content, kind, Word::Keep)
    } else if breaks {
        to(Phase::InCode(Code::Opaque), content)
    } else {
        keeps(place, content, kind, word, byte)
    }
}

/// Whether the byte breaks a string of a script.
pub(crate) fn ends_line(byte: u8) -> bool
    ensures { result ≡ ends_line byte }
{
    matches!(byte, b'\n' | b'\r')
}

/// Whether the byte breaks a string of a style.
pub(crate) fn is_newline_or_nul(byte: u8) -> bool
    ensures { result ≡ is_newline_or_nul byte }
{
    matches!(byte, b'\n' | b'\r' | b'\x0c' | 0)
}

/// After a `<` of a string, where the byte alone would lead on so.
#[inline(always)]
pub(crate) fn string_less_byte(
    place: SlotPlace,
    content: Content,
    kind: Kind,
    again: Move,
    byte: u8,
) -> Move
    ensures { (word : List ℕ) (t : Transition) → moved again word ≡ t.next
        → moved result word
        ≡ (string_less_byte place content (attribute_in kind word) t byte).next }
{
    if byte == b'/' {
        let phase = Phase::ValueEndTag(place);
        in_value(phase, content, reference_read(kind), Word::New)
    } else if (byte == b'!') & is_script(content.element) {
        less_byte(Code::Opaque, content, byte)
    } else {
        again
    }
}

fn is_hex(byte: u8) -> bool
    ensures { result ≡ is_digit byte 16 }
{
    (byte as char).is_digit(16)
}

// Whether the bytes begin an escape by hex digits.
fn begins_hex_escape(word: &[u8]) -> bool
    ensures { result ≡ begins_hex_escape word.now }
{
    match word {
        [b'x' | b'u'] => true,
        [b'x' | b'u', first] => is_hex(*first),
        [b'u', first, second] => is_hex(*first) && is_hex(*second),
        [b'u', first, second, third] => is_hex(*first) && is_hex(*second) && is_hex(*third),
        _ => false,
    }
}

fn character_of_escape(word: &[u8]) -> Option<char>
    ensures { result ≡ character_of_escape word.now }
{
    if word == b"/".as_slice() {
        return Some('/');
    }
    match script_escape(word) {
        Step::Character(more, character, _) if more == word.len() => Some(character),
        _ => None,
    }
}

/// In an escape of a script: the byte is the last of the word.
#[tactic(auto, using(crate::proofs::HeldWords::reference_read_held))]
pub(crate) fn script_escape_byte(
    place: SlotPlace,
    content: Content,
    kind: Kind,
    word: &[u8],
    byte: u8,
) -> Move
    ensures { (before held : List ℕ) → word.now ≡ held ++ byte ∷ [] → moved result word.now
        ≡ (script_escape_byte place content (reference_read (attribute_in kind before))
        held byte).next }
{
    let kind = reference_read(kind);
    match character_of_escape(word) {
        Some(_) => in_value(Phase::In(place), content, kind, Word::New),
        None if begins_hex_escape(word) => {
            in_value(Phase::Within(place), content, kind, Word::Keep)
        }
        None => in_code_byte(Code::Opaque, content, byte),
    }
}

/// In an escape of a style, where the byte alone would lead on so.
pub(crate) fn style_escape_byte(
    place: SlotPlace,
    content: Content,
    kind: Kind,
    word: &[u8],
    byte: u8,
    again: Move,
) -> Move
    ensures { (t : Transition) → moved again word.now ≡ t.next
        → moved result word.now
        ≡ (style_escape_byte place content (reference_read (attribute_in kind word.now))
        word.now byte t).next }
{
    let (phase, held) = if is_hex(byte) && word.len() < 6 {
        (Phase::Within(place), Word::Add(byte))
    } else if word.is_empty() {
        if is_newline_or_nul(byte) || byte == b'<' {
            return in_code_byte(Code::Opaque, content, byte);
        }
        (Phase::In(place), Word::New)
    } else if matches!(byte, b' ' | b'\t' | b'\n') {
        (Phase::In(place), Word::New)
    } else {
        return again;
    };
    in_value(phase, content, reference_read(kind), held)
}
