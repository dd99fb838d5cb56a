//! What a byte does in text and in the value of an attribute.
pub(crate) mod legacy_names;
pub(crate) mod references;

ghost use Rattle.std.specs.Prelude.{◌≡◌, ℕ, List, []};
ghost use Rattle.html_tokenizer.specs.Tokenizer.Phases.{attribute_in, moved, state_of};
ghost use Rattle.html_tokenizer.specs.Tokenizer.Transitions.{goes, keeps};
ghost use Rattle.html_tokenizer.specs.Tokenizer.Values.{before_value_byte, begins_character, ended, quoted_byte, text_byte, unquoted_byte, unquoted_value_byte};

use crate::attributes::{content_after, may_end_raw, reference_read, value_byte_read};
use crate::elements::Content;
use crate::slot_place::SlotPlace;
use crate::states::{Kind, Move, Phase, Word, in_value, refuses, to};
use crate::tags::{is_space, opened};

/// A byte of a value as it stands.
#[inline(always)]
pub(crate) fn keeps(place: SlotPlace, content: Content, kind: Kind, word: &[u8], byte: u8) -> Move
    ensures { moved result word.now
        ≡ (keeps place content (attribute_in kind word.now) byte).next }
{
    let (kind, word) = value_byte_read(kind, word, byte);
    in_value(Phase::In(place), content, kind, word)
}

/// At a `&`, which begins a reference, or a `\`, which begins an escape.
#[inline(always)]
pub(crate) fn begins_character(place: SlotPlace, content: Content, kind: Kind) -> Move
    ensures { (word : List ℕ) → moved result word
        ≡ (begins_character place content (attribute_in kind word)).next }
{
    let kind = reference_read(kind);
    in_value(Phase::Within(place), content, kind, Word::New)
}

/// In text.
#[inline(always)]
pub(crate) fn text_byte(content: Content, kind: Kind, word: &[u8], byte: u8) -> Move
    ensures { moved result word.now
        ≡ (text_byte content (attribute_in kind word.now) byte).next }
{
    match byte {
        b'<' => to(Phase::TagOpen, content),
        b'&' => begins_character(SlotPlace::Text, content, kind),
        _ => keeps(SlotPlace::Text, content, kind, word, byte),
    }
}

// After a value, if the profile has it.
#[inline(always)]
fn ended(phase: Phase, content: Option<Content>) -> Move
    ensures { (word : List ℕ) → moved result word
        ≡ (ended content (λ content. goes (state_of phase []) content [])).next }
{
    match content {
        Some(content) => to(phase, content),
        None => refuses(),
    }
}

/// In a value between two quote marks.
#[inline(always)]
pub(crate) fn quoted_byte(
    mark: u8,
    place: SlotPlace,
    content: Content,
    kind: Kind,
    word: &[u8],
    byte: u8,
) -> Move
    ensures { moved result word.now
        ≡ (quoted_byte mark place content (attribute_in kind word.now) byte).next }
{
    if byte == mark {
        ended(Phase::AfterValue, content_after(content, kind, word))
    } else if byte == b'&' {
        begins_character(place, content, kind)
    } else if may_end_raw(kind, byte) {
        refuses()
    } else {
        keeps(place, content, kind, word, byte)
    }
}

// Where a value without quotes may begin or go on.
#[inline(always)]
fn unquoted_byte(content: Content, kind: Kind, word: &[u8], byte: u8) -> Move
    ensures { moved result word.now
        ≡ (unquoted_byte content (attribute_in kind word.now) byte).next }
{
    match byte {
        b'&' => begins_character(SlotPlace::Unquoted, content, kind),
        b'"' | b'\'' | b'<' | b'=' | b'`' => refuses(),
        _ => keeps(SlotPlace::Unquoted, content, kind, word, byte),
    }
}

/// In a value without quotes.
#[inline(always)]
pub(crate) fn unquoted_value_byte(content: Content, kind: Kind, word: &[u8], byte: u8) -> Move
    ensures { moved result word.now
        ≡ (unquoted_value_byte content (attribute_in kind word.now) byte).next }
{
    if is_space(byte) {
        ended(Phase::BeforeName, content_after(content, kind, word))
    } else if byte == b'>' {
        match content_after(content, kind, word) {
            Some(content) => opened(content),
            None => refuses(),
        }
    } else {
        unquoted_byte(content, kind, word, byte)
    }
}

/// Before a value.
#[inline(always)]
pub(crate) fn before_value_byte(content: Content, kind: Kind, word: &[u8], byte: u8) -> Move
    ensures { moved result word.now
        ≡ (before_value_byte content (attribute_in kind word.now) byte).next }
{
    let phase = match byte {
        b'\t' | b'\n' | b'\x0c' | b'\r' | b' ' => Phase::BeforeValue,
        b'"' => Phase::In(SlotPlace::DoubleQuoted),
        b'\'' => Phase::In(SlotPlace::SingleQuoted),
        b'>' => return refuses(),
        _ => return unquoted_byte(content, kind, word, byte),
    };
    in_value(phase, content, kind, Word::Keep)
}
