//! What the tokenizer does at a byte.
ghost use Rattle.std.specs.Prelude.{◌≡◌};
ghost use Rattle.html_tokenizer.specs.Tokenizer.Attributes.{reference_read};
ghost use Rattle.html_tokenizer.specs.Tokenizer.Phases.{IsBeforeName, IsInName, IsNoScriptEscape, IsTextOrValue, attribute_in, moved, state_of};
ghost use Rattle.html_tokenizer.specs.Tokenizer.Tokenization.{byte_in, value_byte, within_byte};
ghost use Rattle.html_tokenizer.specs.declared.states.Kind.{Kind};
ghost use Rattle.html_tokenizer.specs.declared.states.Phase.TheVariants as phase;

use crate::attributes::{fixed, reference_read};
use crate::code::escapes::code_word_byte;
use crate::code::strings::{
    ends_line, is_newline_or_nul, string_byte, string_less_byte, style_escape_byte,
};
use crate::code::{code_less_byte, in_code_byte};
use crate::comments::{
    bogus_comment_byte, comment_byte, comment_dash_byte, comment_end_byte, comment_start_byte,
    declaration_byte,
};
use crate::doctypes::{
    after_doctype_byte, after_public_byte, after_system_byte, before_doctype_byte,
    before_public_byte, before_system_byte, between_identifiers_byte, doctype_byte,
    doctype_keyword_byte, public_byte, system_byte,
};
use crate::elements::Content;
use crate::slot_place::SlotPlace;
use crate::states::{Kind, Move, Phase, Word, in_value, refuses, to};
use crate::tags::end_tags::{
    code_end_tag_byte, is_rcdata, rcdata_end_tag_open_byte, rcdata_less_byte, value_end_tag_byte,
};
use crate::tags::{
    after_name_byte, after_value_byte, attribute_name_byte, before_name_byte, end_tag_byte,
    end_tag_name_byte, end_tag_open_byte, self_closing_byte, tag_name_byte, tag_open_byte,
};
use crate::values::references::{goes_on, reference_end};
use crate::values::{before_value_byte, quoted_byte, text_byte, unquoted_value_byte};

#[inline(always)]
pub(crate) fn value_byte(
    place: SlotPlace,
    content: Content,
    kind: Kind,
    word: &[u8],
    byte: u8,
) -> Move
    ensures { moved result word.now
        ≡ (value_byte place content (attribute_in kind word.now) byte).next }
{
    let (in_script, in_style) = (ends_line(byte), is_newline_or_nul(byte));
    match place {
        SlotPlace::Text => text_byte(content, kind, word, byte),
        SlotPlace::DoubleQuoted => quoted_byte(b'"', place, content, kind, word, byte),
        SlotPlace::SingleQuoted => quoted_byte(b'\'', place, content, kind, word, byte),
        SlotPlace::Unquoted => unquoted_value_byte(content, kind, word, byte),
        SlotPlace::ScriptSingle => string_byte(b'\'', place, content, kind, word, byte, in_script),
        SlotPlace::ScriptDouble => string_byte(b'"', place, content, kind, word, byte, in_script),
        SlotPlace::StyleSingle => string_byte(b'\'', place, content, kind, word, byte, in_style),
        SlotPlace::StyleDouble => string_byte(b'"', place, content, kind, word, byte, in_style),
    }
}

// In a reference, or in an escape of a style.
fn within_byte(place: SlotPlace, content: Content, kind: Kind, word: &[u8], byte: u8) -> Move
    requires { IsNoScriptEscape (phase.Within place) }
    ensures { moved result word.now
        ≡ (within_byte place content (reference_read (attribute_in kind word.now))
        word.now byte).next }
{
    match place {
        SlotPlace::StyleSingle | SlotPlace::StyleDouble => {
            let kind = reference_read(kind);
            let again = value_byte(place, content, kind, word, byte);
            style_escape_byte(place, content, kind, word, byte, again)
        }
        _ if goes_on(word, byte) => {
            let kind = reference_read(kind);
            in_value(Phase::Within(place), content, kind, Word::Add(byte))
        }
        _ => {
            let kind = reference_read(kind);
            let again = value_byte(place, content, kind, word, byte);
            let fixed = value_byte(place, content, fixed(kind), word, byte);
            reference_end(place, content, kind, word, byte, again, fixed)
        }
    }
}

/// What the tokenizer does in text, in a value in quotes, and right before and after one.
#[inline(always)]
pub(crate) fn text_or_value_byte(
    phase: Phase,
    content: Content,
    kind: Kind,
    word: &[u8],
    byte: u8,
) -> Move
    requires { IsTextOrValue phase }
    ensures { moved result word.now
        ≡ (byte_in (state_of phase word.now) content (attribute_in kind word.now) byte).next }
{
    match phase {
        Phase::In(SlotPlace::Text) => text_byte(content, kind, word, byte),
        Phase::In(SlotPlace::DoubleQuoted) => {
            quoted_byte(b'"', SlotPlace::DoubleQuoted, content, kind, word, byte)
        }
        Phase::In(SlotPlace::SingleQuoted) => {
            quoted_byte(b'\'', SlotPlace::SingleQuoted, content, kind, word, byte)
        }
        Phase::BeforeValue => before_value_byte(content, kind, word, byte),
        _ => after_value_byte(content, byte),
    }
}

// What the tokenizer does where the name of a tag or an attribute may begin.
#[inline(always)]
fn first_byte(phase: Phase, content: Content, word: &[u8], byte: u8) -> Move
    requires { IsBeforeName phase }
    ensures { (kind : Kind) → moved result word.now
        ≡ (byte_in (state_of phase word.now) content (attribute_in kind word.now) byte).next }
{
    match phase {
        Phase::TagOpen if byte == b'/' => to(Phase::EndTagOpen, content),
        Phase::TagOpen if is_rcdata(content.element) => rcdata_less_byte(content, word, byte),
        Phase::TagOpen => tag_open_byte(content, byte),
        Phase::EndTagOpen if is_rcdata(content.element) => {
            rcdata_end_tag_open_byte(content, word, byte)
        }
        Phase::EndTagOpen => end_tag_open_byte(content, byte),
        _ => before_name_byte(content, byte),
    }
}

/// What the tokenizer does in the name of a tag or an attribute.
#[inline(always)]
pub(crate) fn name_byte(phase: Phase, content: Content, name: &[u8], byte: u8) -> Move
    requires { IsInName phase }
    ensures { (kind : Kind) → moved result name.now
        ≡ (byte_in (state_of phase name.now) content (attribute_in kind name.now) byte).next }
{
    match phase {
        Phase::TagName => tag_name_byte(content, name, byte),
        Phase::EndTagName => end_tag_name_byte(content, name, byte),
        _ => attribute_name_byte(content, name, byte),
    }
}

/// What the tokenizer does at a byte, but within an escape of a script.
#[inline(always)]
pub(crate) fn byte_in(phase: Phase, content: Content, kind: Kind, word: &[u8], byte: u8) -> Move
    requires { IsNoScriptEscape phase }
    ensures { moved result word.now
        ≡ (byte_in (state_of phase word.now) content (attribute_in kind word.now) byte).next }
{
    match phase {
        Phase::In(SlotPlace::Text | SlotPlace::DoubleQuoted | SlotPlace::SingleQuoted)
        | Phase::BeforeValue
        | Phase::AfterValue => text_or_value_byte(phase, content, kind, word, byte),
        Phase::TagOpen | Phase::EndTagOpen | Phase::BeforeName => first_byte(
            phase, content, word, byte,
        ),
        Phase::TagName | Phase::EndTagName | Phase::Name => name_byte(phase, content, word, byte),
        Phase::In(place) => value_byte(place, content, kind, word, byte),
        Phase::Within(place) => within_byte(place, content, kind, word, byte),
        Phase::StringLess(place) => {
            let again = value_byte(place, content, kind, word, byte);
            string_less_byte(place, content, kind, again, byte)
        }
        Phase::ValueEndTag(place) => value_end_tag_byte(place, content, kind, word, byte),
        Phase::AfterEndTagName => end_tag_byte(content, byte),
        Phase::AfterName => after_name_byte(content, word, byte),
        Phase::SelfClosing => self_closing_byte(content, byte),
        Phase::InCode(code) => in_code_byte(code, content, byte),
        Phase::CodeLess(code) => code_less_byte(code, content, byte),
        Phase::CodeEndTag(code) => code_end_tag_byte(code, content, word, byte),
        Phase::CodeWord(code) => code_word_byte(code, content, word, byte),
        Phase::Declaration => declaration_byte(content, word, byte),
        Phase::BeforeDoctype => before_doctype_byte(content, byte),
        Phase::Doctype => doctype_byte(content, word, byte),
        Phase::AfterDoctype => after_doctype_byte(content, byte),
        Phase::DoctypeKeyword => doctype_keyword_byte(content, word, byte),
        Phase::BeforePublic => before_public_byte(content, byte),
        Phase::PublicIdentifier(mark) => public_byte(mark, content, byte),
        Phase::AfterPublic => after_public_byte(content, byte),
        Phase::BetweenIdentifiers => between_identifiers_byte(content, byte),
        Phase::BeforeSystem => before_system_byte(content, byte),
        Phase::SystemIdentifier(mark) => system_byte(mark, content, byte),
        Phase::AfterSystem => after_system_byte(content, byte),
        Phase::BogusComment => bogus_comment_byte(content, byte),
        Phase::CommentStart => comment_start_byte(content, Phase::CommentStartDash, byte),
        Phase::CommentStartDash => comment_start_byte(content, Phase::CommentEnd, byte),
        Phase::Comment => comment_byte(content, byte),
        Phase::CommentDash => comment_dash_byte(content, byte),
        Phase::CommentEnd => comment_end_byte(content, byte),
        Phase::Refused => refuses(),
    }
}
