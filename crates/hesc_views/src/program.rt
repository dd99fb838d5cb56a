//! The program: what it does with the words that the system gave it, and how it ends.
ghost use Rattle.std.specs.Prelude.{◌≡◌, map, Err, IsOk, MatchResult};
ghost use Rattle.hesc_tool.specs.Faults as tool;
ghost use Rattle.hesc_tool.specs.Program.{words_given};
ghost use Rattle.hesc_views.specs.Program.{EndsAs, ServedAs, Tells, TellsFault};
ghost use Rattle.hesc_views.specs.Run.{RanAs};
ghost use Rattle.hesc_views.specs.declared.faults.Fault.{Fault};

use crate::faults::Fault;
use crate::lines::line_of;
use crate::sources::Sources;
use crate::steps::run;
use crate::words::paths_in;
use hesc_tool::{lent, without_words, words_after_name, write_line};
use std::alloc::{Allocator, Global};
use std::env::Args;
use std::io::{self, Read, Write};

/// Runs the whole program over what the system gave it, and answers the status that it ends with.
///
/// `args` is what `std::env::args` answered. After success the output is flushed, once. A fault's line
/// goes to `errors`, or the line of `Fault::Memory` where there is no memory for it; where the stream
/// fails the line is cut off, and the status stays the fault's.
///
/// Of `hesc render page.html`, the file `<p>{{a}}</p>` and the input `{"a": "x<y"}` the output gets
/// `<p>x&lt;y</p>`, and the status is 0.
pub fn serve<A: Allocator, B: Allocator, S: Sources, R: Read, W: Write, E: Write>(
    alloc: A,
    heap: Global,
    args: io::Result<Args<B>>,
    sources: &S,
    input: &mut R,
    output: &mut W,
    errors: &mut E,
) -> u8
    ensures { ServedAs (λ path. S.bytes sources.now path) (words_given args)
        (R.remaining input.old) (R.remaining input.new)
        (W.contents output.old) (W.contents output.new)
        (E.contents errors.old) (E.contents errors.new) result }
{
    let args = match args {
        Ok(args) => args,
        Err(error) => return end_at_once(without_words(error), errors),
    };
    let Ok(words) = words_after_name(&alloc, args) else {
        return end_at_once(hesc_tool::Fault::Memory, errors);
    };
    let Ok(words) = lent(&alloc, words.as_slice()) else {
        return end_at_once(hesc_tool::Fault::Memory, errors);
    };
    let outcome = run_and_flush(&alloc, heap, words.as_slice(), sources, input, output);
    end(&alloc, words.as_slice(), outcome, errors)
}

// Runs the command that the words name, and flushes what it wrote.
fn run_and_flush<A: Allocator, S: Sources, R: Read, W: Write>(
    alloc: A,
    heap: Global,
    words: &[&str],
    sources: &S,
    input: &mut R,
    output: &mut W,
) -> Result<(), Fault>
    ensures { RanAs (λ path. S.bytes sources.now path) (map (λ word. word.now) words.now)
        (R.remaining input.old) (R.remaining input.new)
        (W.contents output.old) (W.contents output.new) result }
{
    match run(alloc, heap, words, sources, input, output) {
        Ok(()) => after_flush(output.flush()),
        Err(fault) => Err(fault),
    }
}

// A flush that fails is `Write`.
fn after_flush(flushed: io::Result<()>) -> Result<(), Fault>
    ensures { MatchResult flushed (λ _. IsOk result) (λ _. result ≡ Err Fault.Write) }
{
    match flushed {
        Ok(()) => Ok(()),
        Err(_) => Err(Fault::Write),
    }
}

// The status of the outcome. A fault's line goes to the error stream.
fn end<A: Allocator, E: Write>(
    alloc: A,
    words: &[&str],
    outcome: Result<(), Fault>,
    errors: &mut E,
) -> u8
    ensures { EndsAs (map (λ word. word.now) words.now) outcome
        (E.contents errors.old) (E.contents errors.new) result }
{
    match outcome {
        Ok(()) => 0,
        Err(fault) => {
            tell_fault(alloc, paths_in(words), fault, errors);
            fault.status()
        }
    }
}

// Writes the line of a fault of these files, or that of `Memory` where there is none for the line.
fn tell_fault<A: Allocator, E: Write>(alloc: A, paths: &[&str], fault: Fault, errors: &mut E)
    ensures { TellsFault (map (λ path. path.now) paths.now) fault
        (E.contents errors.old) (E.contents errors.new) }
{
    match line_of(alloc, paths, fault) {
        Ok(line) => tell(line.as_str(), errors),
        Err(_) => tell(hesc_tool::Fault::Memory.line(), errors),
    }
}

// Writes a line, which is cut off where the stream fails.
fn tell<E: Write>(line: &str, errors: &mut E)
    ensures { Tells line.now (E.contents errors.old) (E.contents errors.new) }
{
    let _ = write_line(line, errors);
}

// The status of a fault before there were words, whose line goes to the error stream.
fn end_at_once<E: Write>(fault: hesc_tool::Fault, errors: &mut E) -> u8
    ensures status { result ≡ tool.status_of fault }
    ensures line { Tells (tool.line_of fault) (E.contents errors.old) (E.contents errors.new) }
{
    tell(fault.line(), errors);
    fault.status()
}
