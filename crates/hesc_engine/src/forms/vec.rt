//! A rule's text appended to a vector of bytes.
ghost use Rattle.std.specs.Prelude.{◌≤◌, IsOk, OnOk, length};
ghost use Rattle.std.specs.Borrow.{sem};
ghost use Rattle.std.specs.Str.{IsUtf8};
ghost use Rattle.hesc_engine.specs.Forms.{AnswersPart, Appended, VecAppended, vec_room};

use crate::forms::made::Made;
use crate::forms::parts::{Parts, append_parts_to_vec};
use crate::rule::Rule;
use hesc_sinks::sinks::output::Output;
use std::alloc::{AllocError, Allocator};

/// Appends what `rule` makes of `text`, or leaves the output as it was.
///
/// Of the encoder of text and `a<b` it appends the bytes of `a&lt;b`.
#[inline(always)]
pub fn append_to_vec<R: Rule, A: Allocator>(
    output: &mut Vec<u8, A>,
    rule: &R,
    text: &str,
) -> Result<(), AllocError>
    ensures appended { Appended output.old.items output.new.items
        (R.made rule.now text.now) result }
    ensures fits { length (R.made rule.now text.now) ≤ vec_room output.old → IsOk result }
    ensures utf8 { OnOk result (IsUtf8 (R.made rule.now text.now)) }
{
    // Most texts stay as they are, and that is found out once.
    match Made::of(rule, text) {
        Some(made) => append_made(output, &made),
        None => output.append_kept(text),
    }
}

// A call of its own, so that a text that stays costs little more than its scan and its copy.
#[inline(never)]
fn append_made<P: Parts, A: Allocator>(output: &mut Vec<u8, A>, parts: &P) -> Result<(), AllocError>
    ensures appended { Appended output.old.items output.new.items (P.text parts.now) result }
    ensures fits { length (P.text parts.now) ≤ vec_room output.old → IsOk result }
    ensures utf8 { OnOk result (IsUtf8 (P.text parts.now)) }
{
    append_parts_to_vec(output, parts)
}

/// Appends what `rule` makes of `text`, and answers the part that was added. On a refusal the
/// output is as it was.
///
/// Of the encoder of text and `a<b` it appends and answers the bytes of `a&lt;b`.
#[inline(always)]
pub fn onto_vec<'o, R: Rule, A: Allocator>(
    output: &'o mut Vec<u8, A>,
    rule: &R,
    text: &str,
) -> Result<&'o [u8], AllocError>
    ensures part { AnswersPart (vec_room output.old) (R.made rule.now text.now) result }
    ensures* appended { sem 𝓛 (VecAppended A.row A.Allocator output.entry
        (R.made rule.now text.now) result) }
{
    let start = output.len();
    append_to_vec(output, rule, text)?;
    Ok(&output.as_slice()[start..])
}
