//! The end tags that end a text, a string or code.
ghost use Rattle.std.specs.Char.{to_ascii_lowercase};
ghost use Rattle.std.specs.Prelude.{◌≡◌, ℕ, List, map};
ghost use Rattle.html_tokenizer.specs.Tokenizer.Actions.{Action};
ghost use Rattle.html_tokenizer.specs.Tokenizer.Attributes.{reference_read};
ghost use Rattle.html_tokenizer.specs.Tokenizer.Code.{code_end_tag_byte};
ghost use Rattle.html_tokenizer.specs.Tokenizer.Phases.{attribute_in, moved};
ghost use Rattle.html_tokenizer.specs.Tokenizer.States.{Tokenizer};
ghost use Rattle.html_tokenizer.specs.Tokenizer.Tags.EndTags.{held_end_tag_byte, is_appropriate, is_rcdata};
ghost use Rattle.html_tokenizer.specs.Tokenizer.Tokenization.{value_end_tag_byte};
ghost use Rattle.html_tokenizer.specs.Tokenizer.Transitions.{Transition};
ghost use Rattle.html_tokenizer.specs.Tokenizer.Values.{rcdata_end_tag_open_byte, rcdata_less_byte};

use crate::attributes::reference_read;
use crate::code::in_code_byte;
use crate::consume::value_byte;
use crate::elements::{Content, OpenElement, with_element};
use crate::slot_place::SlotPlace;
use crate::states::{Code, Kind, Move, Phase, Word, goes, in_value};
use crate::tags::{end_tag_byte, ends_name};
use crate::values::text_byte;

/// Whether the content is text in which a `<` that begins no appropriate end tag is text.
#[inline(always)]
pub(crate) fn is_rcdata(element: OpenElement) -> bool
    ensures { result ≡ is_rcdata element }
{
    matches!(element, OpenElement::Title | OpenElement::Textarea)
}

/// Whether an end tag of this name in any case ends the code or the text.
pub(crate) fn is_appropriate(element: OpenElement, name: &[u8]) -> bool
    ensures { result ≡ is_appropriate element (map to_ascii_lowercase name.now) }
{
    match element {
        OpenElement::Title => name.eq_ignore_ascii_case(b"title"),
        OpenElement::Textarea => name.eq_ignore_ascii_case(b"textarea"),
        OpenElement::Script => name.eq_ignore_ascii_case(b"script"),
        OpenElement::Style => name.eq_ignore_ascii_case(b"style"),
        OpenElement::Frame => name.eq_ignore_ascii_case(b"iframe"),
        _ => false,
    }
}

/// After `</` and letters, where one letter more leads to `longer` and the byte alone would lead on so.
#[inline(always)]
pub(crate) fn held_end_tag_byte(
    content: Content,
    word: &[u8],
    longer: Move,
    again: Move,
    byte: u8,
) -> Move
    ensures { (ended : List Action) (u : Tokenizer) (given : ℕ → Action) (t : Transition)
        → moved longer word.now ≡ u → moved again word.now ≡ t.next
        → moved result word.now
        ≡ (held_end_tag_byte content word.now ended u given t byte).next }
{
    if ends_name(byte) && is_appropriate(content.element, word) {
        end_tag_byte(with_element(content, OpenElement::Normal), byte)
    } else if byte.is_ascii_alphabetic() {
        longer
    } else {
        again
    }
}

/// After a `<` of a `title` or `textarea`, but for a `/`.
#[inline(always)]
pub(crate) fn rcdata_less_byte(content: Content, word: &[u8], byte: u8) -> Move
    ensures { moved result word.now ≡ (rcdata_less_byte content byte).next }
{
    text_byte(content, Kind::Ordinary, word, byte)
}

/// After `</` of a `title` or `textarea`.
pub(crate) fn rcdata_end_tag_open_byte(content: Content, word: &[u8], byte: u8) -> Move
    ensures { moved result word.now ≡ (rcdata_end_tag_open_byte content byte).next }
{
    if byte.is_ascii_alphabetic() {
        let letter = Word::Begin(byte);
        goes(Phase::ValueEndTag(SlotPlace::Text), content, letter)
    } else {
        text_byte(content, Kind::Ordinary, word, byte)
    }
}

/// After `</` in a text or a string, where the word has the letters so far.
pub(crate) fn value_end_tag_byte(
    place: SlotPlace,
    content: Content,
    kind: Kind,
    word: &[u8],
    byte: u8,
) -> Move
    ensures { moved result word.now
        ≡ (value_end_tag_byte place content (reference_read (attribute_in kind word.now))
        word.now byte).next }
{
    let kind = reference_read(kind);
    let longer = in_value(Phase::ValueEndTag(place), content, kind, Word::Add(byte));
    let again = value_byte(place, content, kind, word, byte);
    held_end_tag_byte(content, word, longer, again, byte)
}

/// After `</` of code, where the word has the letters so far.
pub(crate) fn code_end_tag_byte(code: Code, content: Content, word: &[u8], byte: u8) -> Move
    ensures { moved result word.now ≡ (code_end_tag_byte code content word.now byte).next }
{
    let longer = goes(Phase::CodeEndTag(code), content, Word::Add(byte));
    let again = in_code_byte(code, content, byte);
    held_end_tag_byte(content, word, longer, again, byte)
}
