//! Names, references and end tags of text and code: the letters with which they go on, held on the stack.
ghost use Rattle.std.specs.Prelude.{◌≡◌, ◌≤◌, ◌+◌, ◌++◌, ◌∷◌, [], ℕ, List, length, take, IfSome};
ghost use Rattle.html_tokenizer.specs.Tokenizer.Phases.{HoldsLetters, IsBeforeName, IsInName, attribute_in, state_of};
ghost use Rattle.html_tokenizer.specs.Tokenizer.States.{Attribute, at, at_value};
ghost use Rattle.html_tokenizer.specs.Tokenizer.Tokenization.{byte_in, consume, state_after};
ghost use Rattle.html_tokenizer.specs.declared.elements.Content.{Content};
ghost use Rattle.html_tokenizer.specs.declared.states.Kind.{Kind};

use crate::elements::{Content, holds_markup};
use crate::flags::name_letter;
use crate::slot_place::SlotPlace;
use crate::states::Phase;
use crate::tags::end_tags::is_rcdata;

/// How many letters are read at once.
pub(crate) const MOST_LETTERS: usize = 32;

/// Where a name begins with this letter, the state of the name and the letter as it is held. Few names
/// begin otherwise.
#[inline(always)]
pub(crate) fn begun_name(phase: Phase, content: Content, byte: u8) -> Option<(Phase, u8)>
    requires { IsBeforeName phase }
    ensures begins { IfSome result (λ begun. (held : List ℕ) (kind : Kind)
        → (byte_in (state_of phase held) content (attribute_in kind held) byte).next
        ≡ at (state_of begun.0 (begun.1 ∷ [])) content) }
    ensures name { IfSome result (λ begun. IsInName begun.0) }
{
    if !byte.is_ascii_alphabetic() {
        return None;
    }
    let letter = byte.to_ascii_lowercase();
    match phase {
        Phase::TagOpen if holds_markup(content.element) => Some((Phase::TagName, letter)),
        Phase::EndTagOpen if !is_rcdata(content.element) => Some((Phase::EndTagName, letter)),
        Phase::BeforeName => Some((Phase::Name, letter)),
        _ => None,
    }
}

// The byte as the state holds it, if what it holds goes on with the byte.
#[inline(always)]
#[tactic(auto, unfolding(crate::specs::Tokenizer::Tokenization::consume))]
fn held_letter(phase: Phase, byte: u8) -> Option<u8>
    ensures { IfSome result (λ letter. (content : Content) (attribute : Attribute)
        (word : List ℕ) → HoldsLetters phase attribute
        → (consume (at_value (state_of phase word) content attribute) byte).next
        ≡ at_value (state_of phase (word ++ letter ∷ [])) content attribute) }
{
    match phase {
        Phase::TagName | Phase::EndTagName | Phase::Name => name_letter(byte),
        Phase::Within(
            SlotPlace::Text
            | SlotPlace::DoubleQuoted
            | SlotPlace::SingleQuoted
            | SlotPlace::Unquoted,
        ) if byte.is_ascii_alphanumeric() => Some(byte),
        Phase::ValueEndTag(_) | Phase::CodeEndTag(_) if byte.is_ascii_alphabetic() => Some(byte),
        _ => None,
    }
}

/// Reads on over these bytes, in a state that holds letters, and answers over how many: to the first
/// other byte, or as many as there is room for behind those letters that are read already.
#[inline(always)]
pub(crate) fn read_letters(
    phase: Phase,
    bytes: &[u8],
    letters: &mut [u8; MOST_LETTERS],
    already: usize,
) -> usize
    requires { already ≤ 32 }
    ensures within { result ≤ length bytes.now }
    ensures room { already + result ≤ 32 }
    ensures read { (content : Content) (attribute : Attribute) (word : List ℕ)
        → HoldsLetters phase attribute
        → state_after (at_value (state_of phase (word ++ take already letters.old)) content attribute)
        (take result bytes.now)
        ≡ at_value (state_of phase (word ++ take (already + result) letters.new)) content attribute }
{
    let mut count = 0;
    'letters: while count < bytes.len() && count < MOST_LETTERS - already {
        let Some(letter) = held_letter(phase, bytes[count]) else {
            return count;
        };
        letters[already + count] = letter;
        count += 1;
    }
    count
}
