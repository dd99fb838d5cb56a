//! The command-line tool as a library, over any allocator, reader and writer.
//!
//! A run goes by steps: the words name a command, its input is read, its text is made in memory, and
//! only then written. `serve` is the whole program round a run.
#![tactic(auto)]

ghost use Rattle.std.specs.Prelude.{map};
ghost use Rattle.hesc_tool.specs.Run.{RanAs};

mod answers;
mod body_lines;
mod faults;
mod lines;
mod program;
mod steps;
mod words;

pub use crate::faults::Fault;
pub use crate::program::{serve, write_line};
use crate::steps::{answer, input_of};
pub use crate::steps::{read_whole, write_whole};
pub use crate::words::{lent, without_words, words_after_name};
use hesc_commands::command_of;
use std::alloc::Allocator;
use std::io::{Read, Write};

/// Runs the command that `args`, the words after the program's name, name: reads all that `input`
/// has left, unless the command reads no input, and writes the command's text of it to `output`.
///
/// Nothing is written before all else has succeeded, so only `Fault::Write` leaves anything after,
/// a beginning of the text. A reader that never ends comes to `Fault::Memory`.
///
/// Of the words `encode_text` and the input `a<b` it writes `a&lt;b`.
pub fn run<A: Allocator, R: Read, W: Write>(
    alloc: A,
    args: &[&str],
    input: &mut R,
    output: &mut W,
) -> Result<(), Fault>
    ensures { RanAs (map (λ word. word.now) args.now) (R.remaining input.old) (R.remaining input.new)
        (W.contents output.old) (W.contents output.new) result }
{
    let Some(command) = command_of(args) else {
        return Err(Fault::Usage);
    };
    let bytes = input_of(&alloc, command, input)?;
    answer(&alloc, command, bytes.as_slice(), output)
}
