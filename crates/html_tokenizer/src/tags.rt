//! What a byte does in a tag.
pub(crate) mod end_tags;

ghost use Rattle.std.specs.Prelude.{◌≡◌, ℕ, List};
ghost use Rattle.html_tokenizer.specs.Tokenizer.Elements.{beside};
ghost use Rattle.html_tokenizer.specs.Tokenizer.Phases.{moved};
ghost use Rattle.html_tokenizer.specs.Tokenizer.States.{State, at};
ghost use Rattle.html_tokenizer.specs.Tokenizer.Tags.{after_name_byte, after_value_byte, attribute_name_byte, before_name_byte, closed_itself, end_tag_byte, end_tag_name_byte, end_tag_open_byte, ends_name, first_name_byte, in_tag, is_name_error, is_space, opened, self_closing_byte, tag_name_byte, tag_open_byte};
ghost use Rattle.html_tokenizer.specs.Tokenizer.Transitions.{Transition};

use crate::attributes::{value_of, without_value};
use crate::elements::{
    Content, beside, closed, content_of, content_phase, ends_content, holds_comments, holds_markup,
    inside, with_element,
};
use crate::slot_place::SlotPlace;
use crate::states::{Move, Phase, Word, goes, refuses, to};

pub(crate) fn is_space(byte: u8) -> bool
    ensures { result ≡ is_space byte }
{
    matches!(byte, b'\t' | b'\n' | b'\x0c' | b' ' | b'\r')
}

/// At the `>` of a start tag.
#[inline(always)]
pub(crate) fn opened(content: Content) -> Move
    ensures { (word : List ℕ) → moved result word ≡ (opened content).next }
{
    to(content_phase(content.element), inside(content))
}

// At white space, `/` or `>` of a start tag, and else at another byte.
#[inline(always)]
fn in_tag(blank: Move, content: Content, byte: u8, other: Move) -> Move
    ensures { (word : List ℕ) (state : State) (t : Transition)
        → moved blank word ≡ at state content → moved other word ≡ t.next
        → moved result word ≡ (in_tag state content byte t).next }
{
    if byte == b'>' {
        opened(content)
    } else if is_space(byte) {
        blank
    } else if byte == b'/' {
        to(Phase::SelfClosing, content)
    } else {
        other
    }
}

/// After a `<`, but for a `/`.
#[inline(always)]
pub(crate) fn tag_open_byte(content: Content, byte: u8) -> Move
    ensures { (word : List ℕ) → moved result word ≡ (tag_open_byte content byte).next }
{
    if holds_markup(content.element) && byte.is_ascii_alphabetic() {
        let letter = byte.to_ascii_lowercase();
        goes(Phase::TagName, content, Word::Begin(letter))
    } else if holds_comments(content.element) && byte == b'!' {
        to(Phase::Declaration, content)
    } else if holds_comments(content.element) && byte == b'?' {
        to(Phase::BogusComment, content)
    } else {
        refuses()
    }
}

/// After `</`.
#[inline(always)]
pub(crate) fn end_tag_open_byte(content: Content, byte: u8) -> Move
    ensures { (word : List ℕ) → moved result word ≡ (end_tag_open_byte content byte).next }
{
    if byte.is_ascii_alphabetic() {
        let letter = byte.to_ascii_lowercase();
        goes(Phase::EndTagName, content, Word::Begin(letter))
    } else {
        refuses()
    }
}

/// Whether the byte is white space, `/` or `>`.
pub(crate) fn ends_name(byte: u8) -> bool
    ensures { result ≡ ends_name byte }
{
    byte == b'>' || is_space(byte) || byte == b'/'
}

/// In the name of a start tag.
#[inline(always)]
pub(crate) fn tag_name_byte(content: Content, name: &[u8], byte: u8) -> Move
    ensures { moved result name.now ≡ (tag_name_byte content name.now byte).next }
{
    if ends_name(byte) {
        match content_of(content, name) {
            Some(content) => after_value_byte(content, byte),
            None => refuses(),
        }
    } else if byte == 0 {
        refuses()
    } else {
        let letter = byte.to_ascii_lowercase();
        goes(Phase::TagName, content, Word::Add(letter))
    }
}

/// In an end tag, after its name.
#[inline(always)]
pub(crate) fn end_tag_byte(content: Content, byte: u8) -> Move
    ensures { (word : List ℕ) → moved result word ≡ (end_tag_byte content byte).next }
{
    if byte == b'>' {
        to(Phase::In(SlotPlace::Text), content)
    } else if is_space(byte) {
        to(Phase::AfterEndTagName, content)
    } else {
        refuses()
    }
}

/// In the name of an end tag.
#[inline(always)]
pub(crate) fn end_tag_name_byte(content: Content, name: &[u8], byte: u8) -> Move
    ensures { moved result name.now ≡ (end_tag_name_byte content name.now byte).next }
{
    if ends_name(byte) {
        if ends_content(content.element, name) {
            end_tag_byte(closed(content, name), byte)
        } else {
            refuses()
        }
    } else if byte == 0 {
        refuses()
    } else {
        let letter = byte.to_ascii_lowercase();
        goes(Phase::EndTagName, content, Word::Add(letter))
    }
}

fn is_name_error(byte: u8) -> bool
    ensures { result ≡ is_name_error byte }
{
    matches!(byte, 0 | b'"' | b'\'' | b'<')
}

#[inline(always)]
fn first_name_byte(content: Content, byte: u8) -> Move
    ensures { (word : List ℕ) → moved result word ≡ (first_name_byte content byte).next }
{
    if byte == b'=' || is_name_error(byte) {
        refuses()
    } else {
        goes(Phase::Name, content, Word::Begin(byte.to_ascii_lowercase()))
    }
}

/// In the name of an attribute.
#[inline(always)]
pub(crate) fn attribute_name_byte(content: Content, name: &[u8], byte: u8) -> Move
    ensures { moved result name.now ≡ (attribute_name_byte content name.now byte).next }
{
    if byte == b'=' {
        value_of(content, name)
    } else {
        let longer = if is_name_error(byte) {
            refuses()
        } else {
            goes(Phase::Name, content, Word::Add(byte.to_ascii_lowercase()))
        };
        let blank = goes(Phase::AfterName, content, Word::Keep);
        in_tag(blank, content, byte, longer)
    }
}

/// After the name of an attribute.
#[inline(always)]
pub(crate) fn after_name_byte(content: Content, name: &[u8], byte: u8) -> Move
    ensures { moved result name.now ≡ (after_name_byte content name.now byte).next }
{
    if byte == b'=' {
        value_of(content, name)
    } else {
        let blank = goes(Phase::AfterName, content, Word::Keep);
        let next = first_name_byte(without_value(content, name), byte);
        in_tag(blank, content, byte, next)
    }
}

// At the `/>` of a start tag.
#[inline(always)]
fn closed_itself(content: Content) -> Move
    ensures { (word : List ℕ) → moved result word
        ≡ (closed_itself (beside content.element) content).next }
{
    let phase = content_phase(content.element);
    match beside(content.element) {
        Some(element) => to(phase, with_element(content, element)),
        None => refuses(),
    }
}

/// After the `/` of a start tag.
#[inline(always)]
pub(crate) fn self_closing_byte(content: Content, byte: u8) -> Move
    ensures { (word : List ℕ) → moved result word ≡ (self_closing_byte content byte).next }
{
    if byte == b'>' {
        closed_itself(content)
    } else {
        refuses()
    }
}

/// Before the name of an attribute.
#[inline(always)]
pub(crate) fn before_name_byte(content: Content, byte: u8) -> Move
    ensures { (word : List ℕ) → moved result word ≡ (before_name_byte content byte).next }
{
    let blank = to(Phase::BeforeName, content);
    in_tag(blank, content, byte, first_name_byte(content, byte))
}

/// After a value in quotes.
#[inline(always)]
pub(crate) fn after_value_byte(content: Content, byte: u8) -> Move
    ensures { (word : List ℕ) → moved result word ≡ (after_value_byte content byte).next }
{
    in_tag(to(Phase::BeforeName, content), content, byte, refuses())
}
