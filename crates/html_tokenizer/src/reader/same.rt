//! Whether two running tokenizers are in one state.
ghost use Rattle.std.specs.Prelude.{◌≡◌, ℕ, List, false, IsTrue};
ghost use Rattle.html_tokenizer.specs.Tokenizer.Phases.{HoldsNoWord, attribute_in, state_of};

use crate::elements::{Content, OpenElement};
use crate::slot_place::SlotPlace;
use crate::states::{Code, Kind, Phase};

fn is_same_place(first: SlotPlace, second: SlotPlace) -> bool
    ensures { IsTrue result → first ≡ second }
{
    first == second
}

fn is_same_code(first: Code, second: Code) -> bool
    ensures { IsTrue result → first ≡ second }
{
    first == second
}

pub(crate) fn is_same_kind(first: Kind, second: Kind) -> bool
    ensures { IsTrue result → first ≡ second }
{
    first == second
}

fn is_same_element(first: OpenElement, second: OpenElement) -> bool
    ensures { IsTrue result → first ≡ second }
{
    first == second
}

pub(crate) fn is_same_content(first: Content, second: Content) -> bool
    ensures { IsTrue result → first ≡ second }
{
    is_same_element(first.element, second.element) && first.templates == second.templates
}

/// Whether it is the same state, but for the word that it holds.
pub(crate) fn is_same_phase(first: Phase, second: Phase) -> bool
    ensures { IsTrue result → first ≡ second }
{
    match (first, second) {
        (Phase::In(first), Phase::In(second)) => is_same_place(first, second),
        (Phase::Within(first), Phase::Within(second)) => is_same_place(first, second),
        (Phase::StringLess(first), Phase::StringLess(second)) => is_same_place(first, second),
        (Phase::ValueEndTag(first), Phase::ValueEndTag(second)) => is_same_place(first, second),
        (Phase::InCode(first), Phase::InCode(second)) => is_same_code(first, second),
        (Phase::CodeLess(first), Phase::CodeLess(second)) => is_same_code(first, second),
        (Phase::CodeEndTag(first), Phase::CodeEndTag(second)) => is_same_code(first, second),
        (Phase::CodeWord(first), Phase::CodeWord(second)) => is_same_code(first, second),
        (Phase::PublicIdentifier(first), Phase::PublicIdentifier(second)) => first == second,
        (Phase::SystemIdentifier(first), Phase::SystemIdentifier(second)) => first == second,
        (Phase::TagOpen, Phase::TagOpen) => true,
        (Phase::EndTagOpen, Phase::EndTagOpen) => true,
        (Phase::TagName, Phase::TagName) => true,
        (Phase::EndTagName, Phase::EndTagName) => true,
        (Phase::AfterEndTagName, Phase::AfterEndTagName) => true,
        (Phase::BeforeName, Phase::BeforeName) => true,
        (Phase::Name, Phase::Name) => true,
        (Phase::AfterName, Phase::AfterName) => true,
        (Phase::BeforeValue, Phase::BeforeValue) => true,
        (Phase::AfterValue, Phase::AfterValue) => true,
        (Phase::SelfClosing, Phase::SelfClosing) => true,
        (Phase::Declaration, Phase::Declaration) => true,
        (Phase::BeforeDoctype, Phase::BeforeDoctype) => true,
        (Phase::Doctype, Phase::Doctype) => true,
        (Phase::AfterDoctype, Phase::AfterDoctype) => true,
        (Phase::DoctypeKeyword, Phase::DoctypeKeyword) => true,
        (Phase::BeforePublic, Phase::BeforePublic) => true,
        (Phase::AfterPublic, Phase::AfterPublic) => true,
        (Phase::BetweenIdentifiers, Phase::BetweenIdentifiers) => true,
        (Phase::BeforeSystem, Phase::BeforeSystem) => true,
        (Phase::AfterSystem, Phase::AfterSystem) => true,
        (Phase::BogusComment, Phase::BogusComment) => true,
        (Phase::CommentStart, Phase::CommentStart) => true,
        (Phase::CommentStartDash, Phase::CommentStartDash) => true,
        (Phase::Comment, Phase::Comment) => true,
        (Phase::CommentDash, Phase::CommentDash) => true,
        (Phase::CommentEnd, Phase::CommentEnd) => true,
        (Phase::Refused, Phase::Refused) => true,
        _ => false,
    }
}

/// Whether the state holds the word.
pub(crate) fn holds_word(phase: Phase, kind: Kind) -> bool
    ensures { result ≡ false → (word other : List ℕ)
        → HoldsNoWord (state_of phase word) (state_of phase other) (attribute_in kind word)
        (attribute_in kind other) }
{
    matches!(
        phase,
        Phase::Within(_)
            | Phase::TagName
            | Phase::EndTagName
            | Phase::ValueEndTag(_)
            | Phase::Name
            | Phase::AfterName
            | Phase::CodeEndTag(_)
            | Phase::CodeWord(_)
            | Phase::Declaration
            | Phase::Doctype
            | Phase::DoctypeKeyword
    ) || matches!(
        kind,
        Kind::ScriptType | Kind::Encoding | Kind::Pragma | Kind::PageType | Kind::Relation
    )
}
