//! Names, cut into their words.
ghost use Rattle.std.specs.Prelude.{◌≡◌, ◌<◌, ◌++◌, ◌∷◌, [], IfNone, IfOk, IfSome, OnOk, length};
ghost use Rattle.html_template.specs.Templates.{texts_of};
ghost use Rattle.html_view.specs.Names.{words_behind, words_of};

use std::alloc::{AllocError, Allocator};

/// The words of a name.
#[derive(Drop)]
pub(crate) enum Words<'a, A: Allocator> {
    /// `.`, the innermost value.
    Innermost,
    One(&'a str),
    /// The first word, and the others.
    Several(&'a str, Vec<&'a str, A>),
}

impl<'a, A: Allocator + Copy> Words<'a, A> {
    ghost use Rattle.html_view.specs.CutNames.{words_in};

    /// The words of this name.
    pub(crate) fn of(alloc: A, name: &'a str) -> Result<Words<'a, A>, AllocError>
        ensures { IfOk result (λ words. words_in words ≡ words_of name.now) }
    {
        if name == "." {
            return Ok(Words::Innermost);
        }
        match cut_word(name) {
            None => Ok(Words::One(name)),
            Some((first, rest)) => {
                let mut others = Vec::new(alloc);
                add_words(&mut others, rest)?;
                Ok(Words::Several(first, others))
            }
        }
    }
}

// Adds the words of a text.
fn add_words<'a, A: Allocator>(words: &mut Vec<&'a str, A>, text: &'a str) -> Result<(), AllocError>
    ensures { OnOk result (texts_of words.new.items
        ≡ texts_of words.old.items ++ words_behind [] text.now) }
{
    match cut_word(text) {
        None => add_word(words, text),
        Some((word, rest)) => {
            add_word(words, word)?;
            add_words(words, rest)
        }
    }
}

fn add_word<'a, A: Allocator>(words: &mut Vec<&'a str, A>, word: &'a str) -> Result<(), AllocError>
    ensures { OnOk result (texts_of words.new.items ≡ texts_of words.old.items ++ word.now ∷ []) }
{
    match words.push(word) {
        Ok(()) => Ok(()),
        Err(_) => Err(AllocError),
    }
}

// The first word of a name and its other words, `None` where it is one word. Most are, which is seen sooner than
// where one would end.
fn cut_word(words: &str) -> Option<(&str, &str)>
    ensures some { IfSome result (λ r. words_behind [] words.now
        ≡ r.0.now ∷ words_behind [] r.1.now) }
    ensures none { IfNone result (words_behind [] words.now ≡ words.now ∷ []) }
    ensures shorter { IfSome result (λ r. length r.1.now < length words.now) }
{
    if !words.as_bytes().contains(&b'.') {
        return None;
    }
    words.split_once('.')
}
