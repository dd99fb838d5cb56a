//! The words of a form: a script string, and three words for each attribute.
ghost use Rattle.std.specs.Prelude.{◌≡◌, false, map, IfOk, IsTrue, MatchOption};
ghost use Rattle.hesc_places.specs.Pages.FormTexts.{written};
ghost use Rattle.hesc_commands.specs.FormWords.{AreWordsOf, name_attributes};

use crate::names::quoting_named;
use hesc_places::Attribute;
use std::alloc::{AllocError, Allocator};

/// The script string of a form and the words of its attributes, which are three for each: its name,
/// the letter of its quoting, and its value.
#[derive(Clone, Copy)]
pub struct FormWords<'w> {
    pub script: &'w str,
    pub attributes: &'w [&'w str],
    pub ghost named: { IsTrue (name_attributes (map (λ word. word.now) attributes.now)) },
}

/// The form of this script string and of the attributes that the words name, `None` where they name
/// none.
pub fn form_of<'w>(script: &'w str, words: &'w [&'w str]) -> Option<FormWords<'w>>
    ensures { MatchOption result (name_attributes (map (λ word. word.now) words.now) ≡ false)
        (λ form. (form.script.now ≡ script.now)
        × (map (λ word. word.now) form.attributes.now ≡ map (λ word. word.now) words.now)) }
{
    let mut rest = words;
    'attributes: while let [_, letter, _, others @ ..] = rest {
        let Some(_) = quoting_named(letter) else {
            return None;
        };
        rest = others;
    }
    if !rest.is_empty() {
        return None;
    }
    Some(FormWords {
        script,
        attributes: words,
    })
}

/// The attributes that the words name.
///
/// Of `form`, an empty script string, `q`, `d` and `tea` it is one: the name `q`, `Quoting::Double`
/// and the value `tea`.
pub fn attributes_of<'w, A: Allocator>(
    alloc: A,
    form: FormWords<'w>,
) -> Result<Vec<Attribute<'w>, A>, AllocError>
    ensures { IfOk result (λ attributes. AreWordsOf (map written attributes.items)
        (map (λ word. word.now) form.entry.attributes.now)) }
{
    let mut attributes = Vec::new(alloc);
    let mut rest = form.attributes;
    'attributes: while let [name, letter, value, others @ ..] = rest {
        let Some(quoting) = quoting_named(letter) else {
            unreachable!();
        };
        attributes.push(Attribute {
            name,
            quoting,
            value,
        })?;
        rest = others;
    }
    Ok(attributes)
}
