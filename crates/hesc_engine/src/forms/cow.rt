//! A rule's text as a text that is borrowed where nothing changes.
ghost use Rattle.std.specs.Prelude.{◌≡◌, ◌≤◌, IfOk, length};
ghost use Rattle.std.specs.String.{string_bytes};
ghost use Rattle.hesc_engine.specs.Forms.{AnswersText};

use crate::forms::made::Made;
use crate::forms::parts::{Parts, SMALL_BOUND, SMALL_STACK, STACK, STACK_BOUND, append_measured};
use crate::rule::Rule;
use hesc_sinks::sinks::stack::StackSink;
use std::alloc::{AllocError, Allocator};
use std::borrow::CowStr;

/// What `rule` makes of `text`: `text` itself where nothing changes, which takes no memory.
///
/// Of the encoder of text and `a<b` it is `a&lt;b`, and of `ab` it is `ab`, borrowed.
#[inline(always)]
pub fn to_cow<'t, R: Rule, A: Allocator>(
    alloc: A,
    rule: &R,
    text: &'t str,
) -> Result<CowStr<'t, A>, AllocError>
    ensures { AnswersText text.now (R.made rule.now text.now)
        (R.changes_from rule.now text.now 0) result }
{
    match Made::of(rule, text) {
        Some(made) => Ok(CowStr::Owned(new_string(alloc, &made)?)),
        None => Ok(CowStr::Borrowed(text)),
    }
}

// Inlined, so that no result is handed on: its parts would be read at once, wider than they were written.
#[inline(always)]
fn new_string<P: Parts, A: Allocator>(alloc: A, parts: &P) -> Result<String<A>, AllocError>
    ensures { IfOk result (λ string. string_bytes string ≡ P.text parts.now) }
{
    let most = parts.most();
    if most <= SMALL_BOUND {
        return new_by_stack::<SMALL_STACK, P, A>(alloc, parts);
    }
    if most <= STACK_BOUND {
        return new_by_stack::<STACK, P, A>(alloc, parts);
    }
    new_measured(alloc, parts)
}

// Made on the stack, so that its length is known before memory is asked for.
#[inline(never)]
fn new_by_stack<const N: usize, P: Parts, A: Allocator>(
    alloc: A,
    parts: &P,
) -> Result<String<A>, AllocError>
    requires few { N ≤ 416 }
    requires suffices { length (P.text parts.now) ≤ N }
    ensures { IfOk result (λ string. string_bytes string ≡ P.text parts.now) }
{
    let mut short = StackSink::<N>::new();
    let _whole = parts.put_into(&mut short);
    String::from_str(alloc, short.as_str())
}

#[inline(never)]
fn new_measured<P: Parts, A: Allocator>(alloc: A, parts: &P) -> Result<String<A>, AllocError>
    ensures { IfOk result (λ string. string_bytes string ≡ P.text parts.now) }
{
    let mut bytes = Vec::new(alloc);
    append_measured(&mut bytes, parts)?;
    // What is made of a text is a text.
    Ok(unsafe { String::from_utf8_unchecked(bytes) })
}
