//! A text made of parts, appended: room is found out and reserved once, and then the parts are put.
ghost use Rattle.std.specs.Prelude.{◌≡◌, ◌≤◌, ◌<◌, ◌-◌, ◌^◌, ℕ, List, [], ◌++◌, if◌then◌else◌, length, IfNone, IfOk, IfSome, IsOk, IsTrue, OnOk};
ghost use Rattle.std.specs.Str.{IsUtf8};
ghost use Rattle.std.specs.String.{string_bytes};
ghost use Rattle.hesc_sinks.specs.Took.{Took};
ghost use Rattle.hesc_engine.specs.Forms.{Appended, string_room, vec_room};

use core::mem::replace_with;
use hesc_sinks::sink::Sink;
use hesc_sinks::sinks::counter::{CountOverflow, Counter};
use hesc_sinks::sinks::filled::FilledSink;
use hesc_sinks::sinks::output::Output;
use hesc_sinks::sinks::stack::StackSink;
use std::alloc::{AllocError, Allocator};

/// The bytes of the arrays on the stack that a text is made in, and the longest text that is made in each
/// of the first two: a block more fits after it.
pub(crate) const SMALL_STACK: usize = 128;

pub(crate) const SMALL_BOUND: usize = 96;

pub(crate) const STACK: usize = 416;

pub(crate) const STACK_BOUND: usize = 384;

const LONG_STACK: usize = 2048;

/// A text as the parts that are put into a sink, one after another.
pub trait Parts {
    ghost text: { Self → List ℕ };

    // How many of its bytes `may_fit` and `about` know of.
    ghost known_length: { Self → ℕ } = { λ _. 0 };

    /// Puts all parts, in order.
    ///
    /// Of what the encoder of text makes of `a<b` it puts `a`, `&lt;` and `b`.
    fn put_into<S: Sink>(&self, sink: &mut S) -> Result<(), S::Fault>
        ensures { Took (S.seen sink.old) (S.seen sink.new) (text self.now) result };

    /// How many bytes to have room for before the text is appended to an output that has room for
    /// `spare`: at least as many as it has, none where it has none, and no more than `spare` where
    /// those suffice.
    ///
    /// Of what the encoder of text makes of `a<b` it is 6.
    fn room_for(&self, spare: usize) -> Result<usize, CountOverflow>
        ensures enough { IfOk result (λ room. length (text self.now) ≤ room) }
        ensures empty { text self.now ≡ [] → IfOk result (λ room. room ≡ 0) }
        ensures spare { length (text self.now) ≤ spare → IfOk result (λ room. room ≤ spare) }
        ensures fits { length (text self.now) < 2 ^ 64 → IsOk result }
    {
        let _spare = spare;
        let mut counter = Counter::new();
        self.put_into(&mut counter)?;
        Ok(counter.count())
    }

    /// An upper bound of the length, computed without a scan, where it is less than the greatest `usize`.
    ///
    /// Of what the encoder of text makes of `a<b` it is 18.
    #[inline(always)]
    fn most(&self) -> usize
        ensures { result < 2 ^ 64 - 1 → length (text self.now) ≤ result }
    {
        usize::MAX
    }

    /// Whether the parts are put into an output that has room for `spare`, although no upper bound says
    /// that they fit: only where that room suffices, as far as is known. Where more comes than is known,
    /// they are put twice.
    ///
    /// Of what the encoder of text makes of `a<b` it is `true` where 9 bytes are spare, half of the upper
    /// bound.
    #[inline(always)]
    fn may_fit(&self, spare: usize) -> bool
        ensures { IsTrue result → known_length self.now ≤ spare }
    {
        let _spare = spare;
        false
    }

    /// About how long the text is, and at least as long as is known, where no upper bound is near.
    ///
    /// Of what a rule makes of a text it is `None`.
    #[inline(always)]
    fn about(&self) -> Option<usize>
        ensures { IfSome result (λ about. known_length self.now ≤ about) }
    {
        None
    }
}

/// Appends the text of the parts, or leaves the output as it was.
///
/// Of what the encoder of text makes of `a<b`, it appends `a&lt;b`.
#[inline(always)]
pub fn append_parts<P: Parts, A: Allocator>(
    output: &mut String<A>,
    parts: &P,
) -> Result<(), AllocError>
    ensures appended { Appended (string_bytes output.old) (string_bytes output.new)
        (P.text parts.now) result }
    ensures fits { length (P.text parts.now) ≤ string_room output.old → IsOk result }
{
    // A short text goes to the string itself: its bytes are not taken out and put back for it.
    match append_short(output, parts) {
        Some(outcome) => outcome,
        None => replace_with(output, parts, appended),
    }
}

// The string with the parts after it, or as it was.
#[inline(always)]
fn appended<P: Parts, A: Allocator>(
    string: String<A>,
    parts: &P,
) -> (String<A>, Result<(), AllocError>)
    ensures appended { Appended (string_bytes string) (string_bytes result.0)
        (P.text parts.now) result.1 }
    ensures fits { length (P.text parts.now) ≤ string_room string → IsOk result.1 }
{
    let mut bytes = string.into_bytes();
    let outcome = append_long(&mut bytes, parts);
    // UTF-8 after UTF-8 is UTF-8.
    (unsafe { String::from_utf8_unchecked(bytes) }, outcome)
}

/// The same for a vector of bytes.
///
/// Of what the encoder of text makes of `a<b`, it appends the bytes of `a&lt;b`.
#[inline(always)]
pub fn append_parts_to_vec<P: Parts, A: Allocator>(
    output: &mut Vec<u8, A>,
    parts: &P,
) -> Result<(), AllocError>
    ensures appended { Appended output.old.items output.new.items (P.text parts.now) result }
    ensures fits { length (P.text parts.now) ≤ vec_room output.old → IsOk result }
    ensures utf8 { OnOk result (IsUtf8 (P.text parts.now)) }
{
    match append_short(output, parts) {
        Some(outcome) => outcome,
        None => append_long(output, parts),
    }
}

// Appends a text that is made on the stack first, by the array that seems to suffice for it, or answers
// `None`.
#[inline(always)]
fn append_short<P: Parts, O: Output>(output: &mut O, parts: &P) -> Option<Result<(), AllocError>>
    ensures none { IfNone result (output.new ≡ output.old) }
    ensures appended { IfSome result (λ outcome.
        Appended (O.bytes output.old) (O.bytes output.new) (P.text parts.now) outcome) }
    ensures fits { length (P.text parts.now) ≤ O.room output.old
        → IfSome result (λ outcome. IsOk outcome) }
    ensures utf8 { IfSome result (λ outcome. OnOk outcome (IsUtf8 (P.text parts.now))) }
{
    let most = parts.most();
    if most <= SMALL_BOUND {
        return Some(append_whole::<SMALL_STACK, P, O>(output, parts));
    }
    if most <= STACK_BOUND {
        return Some(append_whole::<STACK, P, O>(output, parts));
    }
    if parts.may_fit(output.spare()) {
        return None;
    }
    match parts.about() {
        Some(about) if about <= LONG_STACK => append_by_stack::<LONG_STACK, P, O>(output, parts),
        _ => None,
    }
}

// A text that the array suffices for. The array is set up in this function and no other.
#[inline(never)]
#[tactic(auto, using(hesc_sinks::proofs::Took::outcomes))]
fn append_whole<const N: usize, P: Parts, O: Output>(
    output: &mut O,
    parts: &P,
) -> Result<(), AllocError>
    requires few { N ≤ 2048 }
    requires suffices { length (P.text parts.now) ≤ N }
    ensures appended { Appended (O.bytes output.old) (O.bytes output.new) (P.text parts.now) result }
    ensures fits { length (P.text parts.now) ≤ O.room output.old → IsOk result }
    ensures utf8 { OnOk result (IsUtf8 (P.text parts.now)) }
{
    let mut short = StackSink::<N>::new();
    let _whole = parts.put_into(&mut short);
    output.append_kept(short.as_str())
}

// The same where the array may not suffice, and then nothing is appended.
#[inline(never)]
fn append_by_stack<const N: usize, P: Parts, O: Output>(
    output: &mut O,
    parts: &P,
) -> Option<Result<(), AllocError>>
    requires few { N ≤ 2048 }
    ensures none { IfNone result (output.new ≡ output.old) }
    ensures appended { IfSome result (λ outcome.
        Appended (O.bytes output.old) (O.bytes output.new) (P.text parts.now) outcome) }
    ensures fits { length (P.text parts.now) ≤ O.room output.old
        → IfSome result (λ outcome. IsOk outcome) }
    ensures utf8 { IfSome result (λ outcome. OnOk outcome (IsUtf8 (P.text parts.now))) }
{
    let mut short = StackSink::<N>::new();
    match parts.put_into(&mut short) {
        Ok(()) => Some(output.append_kept(short.as_str())),
        Err(_) => None,
    }
}

// Into the room that is there, where the text seems to fit, or else measured first. A call of its own, so
// that a short text takes no more registers than it needs.
#[inline(never)]
fn append_long<P: Parts, A: Allocator>(output: &mut Vec<u8, A>, parts: &P) -> Result<(), AllocError>
    ensures appended { Appended output.old.items output.new.items (P.text parts.now) result }
    ensures fits { length (P.text parts.now) ≤ vec_room output.old → IsOk result }
    ensures utf8 { OnOk result (IsUtf8 (P.text parts.now)) }
{
    let spare = output.spare();
    if (parts.most() <= spare || parts.may_fit(spare)) && put_in_room(output, parts) {
        return Ok(());
    }
    append_measured(output, parts)
}

// By one request for as much room as is found out first. A call of its own, so that a short text takes
// no more registers than it needs.
#[inline(never)]
#[tactic(auto, using(hesc_sinks::proofs::Took::outcomes))]
pub(crate) fn append_measured<P: Parts, A: Allocator>(
    output: &mut Vec<u8, A>,
    parts: &P,
) -> Result<(), AllocError>
    ensures appended { Appended output.old.items output.new.items (P.text parts.now) result }
    ensures fits { length (P.text parts.now) ≤ vec_room output.old → IsOk result }
    ensures utf8 { OnOk result (IsUtf8 (P.text parts.now)) }
{
    let spare = output.capacity() - output.len();
    let Ok(room) = parts.room_for(spare) else {
        return Err(AllocError);
    };
    if room == 0 {
        return Ok(());
    }
    output.reserve(room)?;
    let mut sink = FilledSink::new(output, room);
    let outcome = parts.put_into(&mut sink);
    let _output = sink.into_output();
    outcome
}

// Appends the text of the parts to the room that is there, or leaves the output as it was.
#[inline(always)]
#[tactic(auto, using(hesc_sinks::proofs::Took::outcomes))]
fn put_in_room<P: Parts, A: Allocator>(output: &mut Vec<u8, A>, parts: &P) -> bool
    ensures items { output.new.items
        ≡ (if result then output.old.items ++ P.text parts.now else output.old.items) }
    ensures fits { length (P.text parts.now) ≤ vec_room output.old → IsTrue result }
    ensures utf8 { IsTrue result → IsUtf8 (P.text parts.now) }
{
    let start = output.len();
    let mut sink = FilledSink::new(output, output.capacity() - start);
    let is_put = parts.put_into(&mut sink).is_ok();
    let output = sink.into_output();
    if !is_put {
        output.truncate(start);
    }
    is_put
}
