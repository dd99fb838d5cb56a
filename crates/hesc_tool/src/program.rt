//! The program: what it does with the words that the system gave it, and how it ends.
ghost use Rattle.std.specs.Prelude.{◌≡◌, [], ◌∷◌, ◌++◌, map, Err, IfErr, IsOk, MatchResult, OnOk};
ghost use Rattle.std.specs.Io.KnownBytes.{Appends};
ghost use Rattle.hesc_specs.specs.Text.Ascii.{line_feed};
ghost use Rattle.hesc_specs.specs.Text.Beginning.{AppendsBeginning};
ghost use Rattle.hesc_tool.specs.Program.{EndsAs, ServedAs, WentAs, words_given};
ghost use Rattle.hesc_tool.specs.Run.{RanAs};
ghost use Rattle.hesc_tool.specs.declared.faults.Fault.{Fault};

use crate::faults::Fault;
use crate::run;
use crate::steps::write_whole;
use crate::words::{lent, without_words, words_after_name};
use std::alloc::Allocator;
use std::env::Args;
use std::io::{self, Read, Write};

/// Runs the whole program over what the system gave it, and answers the status that it ends with.
///
/// `args` is what `std::env::args` answered: the program's name and the words after it, or why they
/// could not be had, as where one of them is not UTF-8. After success the output is flushed, once.
/// A fault's line goes to `errors`; where that fails the line is cut off, and the status stays the
/// fault's.
///
/// Of `hesc encode_text` and the input `a<b` the output gets `a&lt;b`, and the status is 0; of `hesc`
/// alone the error stream gets the line of `Fault::Usage`, and the status is 2.
pub fn serve<A: Allocator, B: Allocator, R: Read, W: Write, E: Write>(
    alloc: A,
    args: io::Result<Args<B>>,
    input: &mut R,
    output: &mut W,
    errors: &mut E,
) -> u8
    ensures { ServedAs (words_given args) (R.remaining input.old) (R.remaining input.new)
        (W.contents output.old) (W.contents output.new)
        (E.contents errors.old) (E.contents errors.new) result }
{
    let outcome = outcome_of(alloc, args, input, output);
    end(outcome, errors)
}

// What comes of the words: a run, if they and the memory for their list could be had.
fn outcome_of<A: Allocator, B: Allocator, R: Read, W: Write>(
    alloc: A,
    args: io::Result<Args<B>>,
    input: &mut R,
    output: &mut W,
) -> Result<(), Fault>
    ensures { WentAs (words_given args) (R.remaining input.old) (R.remaining input.new)
        (W.contents output.old) (W.contents output.new) result }
{
    let args = match args {
        Ok(args) => args,
        Err(error) => return Err(without_words(error)),
    };
    let words = words_after_name(&alloc, args)?;
    let words = lent(&alloc, words.as_slice())?;
    run_and_flush(&alloc, words.as_slice(), input, output)
}

// Runs the command that the words name, and flushes what it wrote.
fn run_and_flush<A: Allocator, R: Read, W: Write>(
    alloc: A,
    words: &[&str],
    input: &mut R,
    output: &mut W,
) -> Result<(), Fault>
    ensures { RanAs (map (λ word. word.now) words.now) (R.remaining input.old) (R.remaining input.new)
        (W.contents output.old) (W.contents output.new) result }
{
    match run(alloc, words, input, output) {
        Ok(()) => after_flush(output.flush()),
        Err(fault) => Err(fault),
    }
}

// A flush that fails is `Write`.
fn after_flush(flushed: io::Result<()>) -> Result<(), Fault>
    ensures { MatchResult flushed (λ _. IsOk result) (λ _. result ≡ Err Fault.Write) }
{
    match flushed {
        Ok(()) => Ok(()),
        Err(_) => Err(Fault::Write),
    }
}

// The status of the outcome. A fault's line goes to the error stream.
fn end<E: Write>(outcome: Result<(), Fault>, errors: &mut E) -> u8
    ensures { EndsAs outcome (E.contents errors.old) (E.contents errors.new) result }
{
    match outcome {
        Ok(()) => 0,
        Err(fault) => {
            let _ = write_line(fault.line(), errors);
            fault.status()
        }
    }
}

/// Writes the line and a line feed, and only a beginning of them where a write fails.
pub fn write_line<W: Write>(line: &str, output: &mut W) -> Result<(), Fault>
    ensures all { OnOk result
        (Appends (W.contents output.old) (W.contents output.new) (line.now ++ line_feed ∷ [])) }
    ensures began { AppendsBeginning (W.contents output.old) (W.contents output.new)
        (line.now ++ line_feed ∷ []) }
    ensures fault { IfErr result (λ fault. fault ≡ Fault.Write) }
{
    write_whole(line.as_bytes(), output)?;
    write_whole(b"\n", output)?;
    Ok(())
}
