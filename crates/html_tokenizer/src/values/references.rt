//! What a byte does in a character reference, and after a `&` that begins none.
ghost use Rattle.std.specs.List.{list_any};
ghost use Rattle.std.specs.Option.{is_some};
ghost use Rattle.std.specs.Prelude.{◌≡◌, ℕ, List, bytes_eq};
ghost use Rattle.hesc_specs.specs.Text.Words.{begins};
ghost use Rattle.html_tokenizer.specs.Tokenizer.Attributes.{reference_read};
ghost use Rattle.html_tokenizer.specs.Tokenizer.Phases.{LeadsOn, attribute_in, moved};
ghost use Rattle.html_tokenizer.specs.Tokenizer.Transitions.{Transition};
ghost use Rattle.html_tokenizer.specs.Tokenizer.Values.References.{begins_with_legacy, behind_reference, goes_on, is_legacy, named_characters, reference_end, unnamed_end};

use crate::attributes::reference_read;
use crate::elements::Content;
use crate::slot_place::SlotPlace;
use crate::states::{Kind, Move, Phase, Word, in_value, refuses};
use crate::values::legacy_names::LEGACY_NAMES;
use hesc_grammars::references::body_character;
use html_entities::html_entities;

/// Whether a reference may go on with the byte after the word.
#[inline(always)]
pub(crate) fn goes_on(word: &[u8], byte: u8) -> bool
    ensures { result ≡ goes_on word.now byte }
{
    byte.is_ascii_alphanumeric() || (byte == b'#' && word.is_empty())
}

// Whether it is a name of HTML's that a `;` ends.
fn is_named(name: &[u8]) -> bool
    ensures { result ≡ is_some (named_characters name.now) }
{
    html_entities().get(name).is_some()
}

// Whether the word begins with the name.
fn begins(word: &[u8], name: &[u8]) -> bool
    ensures { result ≡ begins name.now word.now }
{
    word.starts_with(name)
}

fn begins_with_one(names: &[&[u8]], word: &[u8]) -> bool
    ensures { result ≡ list_any (λ name. begins name.now word.now) names.now }
{
    names.iter().any(|name| begins(word, name))
}

fn is_one(names: &[&[u8]], word: &[u8]) -> bool
    ensures { result ≡ list_any (λ name. bytes_eq name.now word.now) names.now }
{
    names.iter().any(|name| *name == word)
}

#[tactic(auto, unfolding(crate::specs::Tokenizer::Values::References::begins_with_legacy))]
fn begins_with_legacy(word: &[u8]) -> bool
    ensures { result ≡ begins_with_legacy word.now }
{
    begins_with_one(&LEGACY_NAMES, word)
}

#[tactic(auto, unfolding(crate::specs::Tokenizer::Values::References::is_legacy))]
fn is_legacy(word: &[u8]) -> bool
    ensures { result ≡ is_legacy word.now }
{
    is_one(&LEGACY_NAMES, word)
}

// Behind a reference: in a URL of a list any but `&amp;` may be white space or a comma.
fn behind_reference(word: &[u8], kind: Kind) -> Kind
    ensures { (held : List ℕ) → attribute_in result held
        ≡ behind_reference word.now (attribute_in kind held) }
{
    match kind {
        Kind::BeforeListedUrl
        | Kind::ListedUrl
        | Kind::FixedListedUrl
        | Kind::ListedComma
        | Kind::Descriptors
            if word != b"amp".as_slice() => Kind::RestOfList,
        kind => kind,
    }
}

// After a word that is no name with its `;`: what the Standard calls an error is refused.
fn unnamed_end(place: SlotPlace, word: &[u8], byte: u8, again: Move, fixed: Move) -> Move
    ensures { (t : Transition) → LeadsOn again fixed word.now t
        → moved result word.now ≡ (unnamed_end place word.now byte t).next }
{
    let begins = begins_with_legacy(word);
    let is_error = if begins {
        place == SlotPlace::Text || (is_legacy(word) && byte != b'=')
    } else {
        byte == b';'
    };
    if is_error {
        refuses()
    } else if begins {
        fixed
    } else {
        again
    }
}

/// Where a reference ends, and the byte alone would lead on so, and so in a value that takes no slot any more.
pub(crate) fn reference_end(
    place: SlotPlace,
    content: Content,
    kind: Kind,
    word: &[u8],
    byte: u8,
    again: Move,
    fixed: Move,
) -> Move
    ensures { (t : Transition) → LeadsOn again fixed word.now t
        → moved result word.now
        ≡ (reference_end place content (reference_read (attribute_in kind word.now))
        word.now byte t).next }
{
    let is_read = match word {
        [] => return again,
        [b'#', ..] => byte == b';' && body_character(word).is_some(),
        _ if byte == b';' && is_named(word) => true,
        _ => return unnamed_end(place, word, byte, again, fixed),
    };
    if is_read {
        let kind = behind_reference(word, reference_read(kind));
        in_value(Phase::In(place), content, kind, Word::New)
    } else {
        refuses()
    }
}
