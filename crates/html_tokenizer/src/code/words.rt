//! The words of a script's code, of which two stand before a string that names a module.
ghost use Rattle.std.specs.Prelude.{◌≡◌, IfSome};
ghost use Rattle.html_tokenizer.specs.Tokenizer.Code.Words.{is_blank, longer};
ghost use Rattle.html_tokenizer.specs.Tokenizer.States.{InCode, at};
ghost use Rattle.html_tokenizer.specs.Tokenizer.Stretches.{settled, word_after};
ghost use Rattle.html_tokenizer.specs.Tokenizer.Tokenization.{consume};
ghost use Rattle.html_tokenizer.specs.declared.elements.Content.{Content};
ghost use Rattle.html_tokenizer.specs.declared.elements.OpenElement.TheVariants.{Script};

use crate::flags::{is_mark, is_name_byte};
use crate::states::Code;
use crate::tags::is_space;

/// Whether the byte is white space, or may be a part of it.
pub(crate) fn is_blank(byte: u8) -> bool
    ensures { result ≡ is_blank byte }
{
    is_space(byte) || byte == 0x0B || byte > 127
}

/// After one letter more of `import` or `from`.
#[inline(always)]
pub(crate) fn longer(code: Code, byte: u8) -> Option<Code>
    ensures { result ≡ longer code byte }
{
    match (code, byte) {
        (Code::LetterI, b'm') => Some(Code::LettersIm),
        (Code::LettersIm, b'p') => Some(Code::LettersImp),
        (Code::LettersImp, b'o') => Some(Code::LettersImpo),
        (Code::LettersImpo, b'r') => Some(Code::LettersImpor),
        (Code::LettersImpor, b't') => Some(Code::Import),
        (Code::LetterF, b'r') => Some(Code::LettersFr),
        (Code::LettersFr, b'o') => Some(Code::LettersFro),
        (Code::LettersFro, b'm') => Some(Code::From),
        _ => None,
    }
}

/// The word state after a byte that is no mark and begins neither word.
#[inline(always)]
pub(crate) fn settled(byte: u8) -> Code
    ensures { result ≡ settled byte }
{
    if is_name_byte(byte) {
        Code::Name
    } else {
        Code::Plain
    }
}

/// A byte after which the word state is this one, if there is one.
#[inline(always)]
pub(crate) fn settled_byte(code: Code) -> Option<u8>
    ensures { IfSome result (λ byte. settled byte ≡ code) }
{
    match code {
        Code::Plain => Some(b' '),
        Code::Name => Some(b'a'),
        _ => None,
    }
}

/// Where a byte of a script's code leads from a word to another one, or stays in one.
#[inline(always)]
#[tactic(auto, unfolding(crate::specs::Tokenizer::Tokenization::consume))]
pub(crate) fn next_word(code: Code, byte: u8) -> Option<Code>
    ensures exact { result ≡ word_after code byte }
    ensures leads { IfSome result (λ next. (content : Content) → content.element ≡ Script
        → (consume (at (InCode code) content) byte).next ≡ at (InCode next) content) }
{
    match code {
        Code::Plain | Code::Name => match byte {
            b'i' if code == Code::Plain => Some(Code::LetterI),
            b'f' if code == Code::Plain => Some(Code::LetterF),
            _ if is_mark(byte) => None,
            _ => Some(settled(byte)),
        },
        Code::LetterI
        | Code::LettersIm
        | Code::LettersImp
        | Code::LettersImpo
        | Code::LettersImpor
        | Code::LetterF
        | Code::LettersFr
        | Code::LettersFro => match longer(code, byte) {
            Some(longer) => Some(longer),
            None if is_name_byte(byte) => Some(Code::Name),
            None => None,
        },
        _ => None,
    }
}
