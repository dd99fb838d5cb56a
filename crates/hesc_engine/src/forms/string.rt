//! A rule's text appended to a string.
ghost use Rattle.std.specs.Prelude.{◌≡◌, ◌≤◌, IsOk, drop, length};
ghost use Rattle.std.specs.Borrow.{sem};
ghost use Rattle.std.specs.Str.{IsCharBoundary};
ghost use Rattle.std.specs.String.{string_bytes};
ghost use Rattle.hesc_engine.specs.Forms.{AnswersPart, Appended, StringAppended, string_room};

use crate::forms::made::Made;
use crate::forms::parts::{Parts, append_parts};
use crate::rule::Rule;
use hesc_sinks::sinks::output::Output;
use std::alloc::{AllocError, Allocator};

/// Appends what `rule` makes of `text`, or leaves the output as it was.
///
/// Of the encoder of text and `a<b` it appends `a&lt;b`.
#[inline(always)]
pub fn append_to_string<R: Rule, A: Allocator>(
    output: &mut String<A>,
    rule: &R,
    text: &str,
) -> Result<(), AllocError>
    ensures appended { Appended (string_bytes output.old) (string_bytes output.new)
        (R.made rule.now text.now) result }
    ensures fits { length (R.made rule.now text.now) ≤ string_room output.old → IsOk result }
{
    // Most texts stay as they are, and that is found out once.
    match Made::of(rule, text) {
        Some(made) => append_made(output, &made),
        None => output.append_kept(text),
    }
}

// A call of its own, so that a text that stays costs little more than its scan and its copy.
#[inline(never)]
fn append_made<P: Parts, A: Allocator>(output: &mut String<A>, parts: &P) -> Result<(), AllocError>
    ensures appended { Appended (string_bytes output.old) (string_bytes output.new)
        (P.text parts.now) result }
    ensures fits { length (P.text parts.now) ≤ string_room output.old → IsOk result }
{
    append_parts(output, parts)
}

/// Appends what `rule` makes of `text`, and answers the part that was added. On a refusal the
/// output is as it was.
///
/// Of the encoder of text and `a<b` it appends and answers `a&lt;b`.
#[inline(always)]
pub fn onto_string<'o, R: Rule, A: Allocator>(
    output: &'o mut String<A>,
    rule: &R,
    text: &str,
) -> Result<&'o str, AllocError>
    ensures part { AnswersPart (string_room output.old) (R.made rule.now text.now) result }
    ensures* appended { sem 𝓛 (StringAppended A.row A.Allocator output.entry
        (R.made rule.now text.now) result) }
{
    let start = output.as_str().len();
    append_to_string(output, rule, text)?;
    Ok(part_from(output, start))
}

#[inline(always)]
fn part_from<A: Allocator>(output: &String<A>, start: usize) -> &str
    requires { IsCharBoundary (string_bytes output.now) start }
    ensures { result.now ≡ drop start (string_bytes output.now) }
{
    &output.as_str()[start..]
}
