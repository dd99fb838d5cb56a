//! Which command the words name, and which files.
ghost use Rattle.std.specs.Prelude.{◌≡◌, ◌↔◌, map, IfNone, IfSome, IsTrue};
ghost use Rattle.hesc_tool.specs.Program.{words_given};
ghost use Rattle.hesc_views.specs.Words.{
  AreForViews,
  CallForNothing,
  IsCommandName,
  command_name,
  paths_in,
  words_of,
};

use std::alloc::Allocator;
use std::env::Args;
use std::io;

/// A command for views.
#[derive(Clone, Copy, Debug, PartialEq, Eq)]
pub enum Command {
    /// `render`: writes the page of a view and of the data that is read.
    Render,
    /// `check`: writes what slots and sections a view has.
    Check,
}

/// A command, the path of a view's file, and those of its partials.
#[derive(Clone, Copy, Debug)]
pub struct Call<'w> {
    pub command: Command,
    pub view: &'w str,
    pub partials: &'w [&'w str],
}

fn command_named(word: &str) -> Option<Command>
    ensures some { IfSome result (λ command. command_name command ≡ word.now) }
    ensures none { IfNone result (IsCommandName word.now → ⊥) }
{
    match word {
        "render" => Some(Command::Render),
        "check" => Some(Command::Check),
        _ => None,
    }
}

/// What the words after the program's name call for, `None` exactly where they name no command for
/// views, or no view.
///
/// The words `render page.html partials/head.html` call for `Command::Render` of `page.html`, with one
/// partial.
pub fn call_of<'w>(words: &'w [&'w str]) -> Option<Call<'w>>
    ensures some { IfSome result (λ call. words_of call ≡ map (λ word. word.now) words.now) }
    ensures none { IfNone result (CallForNothing (map (λ word. word.now) words.now)) }
{
    let [word, view, partials @ ..] = words else {
        return None;
    };
    let command = command_named(*word)?;
    Some(Call {
        command,
        view: *view,
        partials,
    })
}

/// The paths of the files that the words name: those after the command.
pub(crate) fn paths_in<'w>(words: &'w [&'w str]) -> &'w [&'w str]
    ensures { map (λ path. path.now) result.now ≡ paths_in (map (λ word. word.now) words.now) }
{
    match words {
        [_command, paths @ ..] => paths,
        [] => words,
    }
}

/// Whether the first word after the program's name is a command for views.
///
/// Of `hesc render` it is true, of `hesc encode_text` and where the words could not be had it is not.
pub fn are_for_views<B: Allocator>(args: io::Result<Args<B>>) -> bool
    ensures { IsTrue result ↔ AreForViews (words_given args) }
{
    let Ok(mut words) = args else {
        return false;
    };
    let _program = words.next();
    match words.next() {
        Some(word) => command_named(word.as_str()).is_some(),
        None => false,
    }
}
