//! The commands, and the words that name them.
ghost use Rattle.std.specs.Prelude.{◌≡◌, [], ◌∷◌, map, MatchOption};
ghost use Rattle.hesc_commands.specs.Commands.{NamesNoCommand, NamesNoneOfFew, words_of};

use crate::form_words::{FormWords, form_of};
use crate::names::{encoder_named, operation_named, place_named};
use hesc_places::Place;
use html_escape::{BodyKind, Encoder, Operation};

/// What a list of words can name.
#[derive(Clone, Copy)]
pub enum Command<'w> {
    /// The name of an operation: what the operation makes of a text.
    Operation(Operation),
    /// `lines-script` or `lines-style`: the encoding of a body, by one session that gets each line.
    Lines(BodyKind),
    /// `enclose ENCODER PLACE`: the encoding of a text between the marks of a place.
    Enclose(Encoder, Place),
    /// `page A B C`: the page of these three texts. It reads no input.
    Page(&'w str, &'w str, &'w str),
    /// `read-page`: the three texts that are read from a page, each after its length.
    ReadPage,
    /// `form SCRIPT [NAME QUOTING VALUE]..`: the form of these attributes. It reads no input.
    Form(FormWords<'w>),
    /// `read-form`: the attributes that are read from a form, and its script string.
    ReadForm,
}

/// The command that the words after the program's name name, `None` where they name none.
///
/// Of the one word `read-page` it is `Command::ReadPage`, and of no words it is `None`.
pub fn command_of<'w>(words: &'w [&'w str]) -> Option<Command<'w>>
    ensures { MatchOption result (NamesNoCommand (map (λ word. word.now) words.now))
        (λ command. words_of command ≡ map (λ word. word.now) words.now) }
{
    let ["form", script, attributes @ ..] = words else {
        return command_of_few(words);
    };
    let form = form_of(script, attributes)?;
    Some(Command::Form(form))
}

// The same without forms, which alone have any number of words.
fn command_of_few<'w>(words: &[&'w str]) -> Option<Command<'w>>
    ensures { MatchOption result (NamesNoneOfFew (map (λ word. word.now) words.now))
        (λ command. words_of command ≡ map (λ word. word.now) words.now) }
{
    match words {
        [word] => command_of_one(word),
        ["page", first, second, third] => Some(Command::Page(first, second, third)),
        ["enclose", encoder, place] => Some(Command::Enclose(
            encoder_named(encoder)?,
            place_named(place)?,
        )),
        _ => None,
    }
}

// The command that this word alone names.
fn command_of_one<'w>(word: &str) -> Option<Command<'w>>
    ensures { MatchOption result (NamesNoneOfFew (word.now ∷ []))
        (λ command. words_of command ≡ word.now ∷ []) }
{
    match word {
        "read-form" => Some(Command::ReadForm),
        "read-page" => Some(Command::ReadPage),
        "lines-script" => Some(Command::Lines(BodyKind::Script)),
        "lines-style" => Some(Command::Lines(BodyKind::Style)),
        name => Some(Command::Operation(operation_named(name)?)),
    }
}
