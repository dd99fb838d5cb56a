//! What a byte does in a DOCTYPE.
ghost use Rattle.std.specs.Prelude.{◌≡◌, ℕ, List};
ghost use Rattle.html_tokenizer.specs.Tokenizer.Doctypes.{after_doctype_byte, after_public_byte, after_system_byte, before_doctype_byte, before_public_byte, before_system_byte, between_identifiers_byte, doctype_byte, doctype_end_byte, doctype_keyword_byte, is_identifier_error, is_quote_mark, public_byte, system_byte};
ghost use Rattle.html_tokenizer.specs.Tokenizer.Phases.{moved};

use crate::elements::Content;
use crate::slot_place::SlotPlace;
use crate::states::{Move, Phase, Word, goes, refuses, to};
use crate::tags::is_space;

fn is_quote_mark(byte: u8) -> bool
    ensures { result ≡ is_quote_mark byte }
{
    byte == b'"' || byte == b'\''
}

fn is_identifier_error(byte: u8) -> bool
    ensures { result ≡ is_identifier_error byte }
{
    byte == 0 || byte == b'>'
}

// At the `>` of a DOCTYPE.
#[inline(always)]
fn doctype_end_byte(content: Content, byte: u8) -> Move
    ensures { (word : List ℕ) → moved result word ≡ (doctype_end_byte content byte).next }
{
    if byte == b'>' {
        to(Phase::In(SlotPlace::Text), content)
    } else {
        refuses()
    }
}

/// Before the name of a DOCTYPE.
#[inline(always)]
pub(crate) fn before_doctype_byte(content: Content, byte: u8) -> Move
    ensures { (word : List ℕ) → moved result word ≡ (before_doctype_byte content byte).next }
{
    if is_space(byte) {
        to(Phase::BeforeDoctype, content)
    } else if byte.is_ascii_alphabetic() {
        let letter = byte.to_ascii_lowercase();
        goes(Phase::Doctype, content, Word::Begin(letter))
    } else {
        refuses()
    }
}

/// After the name of a DOCTYPE.
#[inline(always)]
pub(crate) fn after_doctype_byte(content: Content, byte: u8) -> Move
    ensures { (word : List ℕ) → moved result word ≡ (after_doctype_byte content byte).next }
{
    if is_space(byte) {
        to(Phase::AfterDoctype, content)
    } else if byte.is_ascii_alphabetic() {
        let letter = byte.to_ascii_lowercase();
        goes(Phase::DoctypeKeyword, content, Word::Begin(letter))
    } else {
        doctype_end_byte(content, byte)
    }
}

/// In the name of a DOCTYPE.
#[inline(always)]
pub(crate) fn doctype_byte(content: Content, name: &[u8], byte: u8) -> Move
    ensures { moved result name.now ≡ (doctype_byte content name.now byte).next }
{
    if byte.is_ascii_alphabetic() {
        let letter = byte.to_ascii_lowercase();
        goes(Phase::Doctype, content, Word::Add(letter))
    } else if name == b"html".as_slice() {
        after_doctype_byte(content, byte)
    } else {
        refuses()
    }
}

/// In or after the keyword of a DOCTYPE.
#[inline(always)]
pub(crate) fn doctype_keyword_byte(content: Content, word: &[u8], byte: u8) -> Move
    ensures { moved result word.now ≡ (doctype_keyword_byte content word.now byte).next }
{
    if word == b"public".as_slice() {
        if is_space(byte) {
            to(Phase::BeforePublic, content)
        } else {
            refuses()
        }
    } else if word == b"system".as_slice() {
        if is_space(byte) {
            to(Phase::BeforeSystem, content)
        } else {
            refuses()
        }
    } else if byte.is_ascii_alphabetic() {
        let letter = byte.to_ascii_lowercase();
        goes(Phase::DoctypeKeyword, content, Word::Add(letter))
    } else {
        refuses()
    }
}

/// Before the public identifier of a DOCTYPE.
#[inline(always)]
pub(crate) fn before_public_byte(content: Content, byte: u8) -> Move
    ensures { (word : List ℕ) → moved result word ≡ (before_public_byte content byte).next }
{
    if is_space(byte) {
        to(Phase::BeforePublic, content)
    } else if is_quote_mark(byte) {
        to(Phase::PublicIdentifier(byte), content)
    } else {
        refuses()
    }
}

/// In the public identifier of a DOCTYPE.
#[inline(always)]
pub(crate) fn public_byte(mark: u8, content: Content, byte: u8) -> Move
    ensures { (word : List ℕ) → moved result word ≡ (public_byte mark content byte).next }
{
    if byte == mark {
        to(Phase::AfterPublic, content)
    } else if is_identifier_error(byte) {
        refuses()
    } else {
        to(Phase::PublicIdentifier(mark), content)
    }
}

/// After the public identifier of a DOCTYPE.
#[inline(always)]
pub(crate) fn after_public_byte(content: Content, byte: u8) -> Move
    ensures { (word : List ℕ) → moved result word ≡ (after_public_byte content byte).next }
{
    if is_space(byte) {
        to(Phase::BetweenIdentifiers, content)
    } else {
        doctype_end_byte(content, byte)
    }
}

/// Between the two identifiers of a DOCTYPE.
#[inline(always)]
pub(crate) fn between_identifiers_byte(content: Content, byte: u8) -> Move
    ensures { (word : List ℕ) → moved result word ≡ (between_identifiers_byte content byte).next }
{
    if is_space(byte) {
        to(Phase::BetweenIdentifiers, content)
    } else if is_quote_mark(byte) {
        to(Phase::SystemIdentifier(byte), content)
    } else {
        doctype_end_byte(content, byte)
    }
}

/// Before the system identifier of a DOCTYPE, where no public one stands.
#[inline(always)]
pub(crate) fn before_system_byte(content: Content, byte: u8) -> Move
    ensures { (word : List ℕ) → moved result word ≡ (before_system_byte content byte).next }
{
    if is_space(byte) {
        to(Phase::BeforeSystem, content)
    } else if is_quote_mark(byte) {
        to(Phase::SystemIdentifier(byte), content)
    } else {
        refuses()
    }
}

/// In the system identifier of a DOCTYPE.
#[inline(always)]
pub(crate) fn system_byte(mark: u8, content: Content, byte: u8) -> Move
    ensures { (word : List ℕ) → moved result word ≡ (system_byte mark content byte).next }
{
    if byte == mark {
        to(Phase::AfterSystem, content)
    } else if is_identifier_error(byte) {
        refuses()
    } else {
        to(Phase::SystemIdentifier(mark), content)
    }
}

/// After the system identifier of a DOCTYPE.
#[inline(always)]
pub(crate) fn after_system_byte(content: Content, byte: u8) -> Move
    ensures { (word : List ℕ) → moved result word ≡ (after_system_byte content byte).next }
{
    if is_space(byte) {
        to(Phase::AfterSystem, content)
    } else {
        doctype_end_byte(content, byte)
    }
}
