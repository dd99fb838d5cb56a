//! How long a rule's text is, before any of it is made.
ghost use Rattle.std.specs.Prelude.{◌≡◌, ◌<◌, ◌≤◌, ◌^◌, [], length, IfOk, IfSome, IsOk, IsSome};

use crate::engine::run;
use crate::length::Length;
use crate::rule::Rule;
use hesc_sinks::sinks::counter::{CountOverflow, Counter};

/// The length of what `rule` makes of `text`, in bytes.
///
/// Of the encoder of text and `a<b` it is 6.
#[inline(always)]
pub fn measure<R: Rule>(rule: &R, text: &str) -> Result<usize, CountOverflow>
    ensures count { IfOk result (λ count. count ≡ length (R.made rule.now text.now)) }
    ensures fits { length (R.made rule.now text.now) < 2 ^ 64 → IsOk result }
{
    total(rule, text).ok_or(CountOverflow)
}

/// The same, or `None` where it passes the greatest `usize`.
///
/// Of the encoder of text and `a<b` it is 6.
#[inline(always)]
pub fn total<R: Rule>(rule: &R, text: &str) -> Option<usize>
    ensures count { IfSome result (λ count. count ≡ length (R.made rule.now text.now)) }
    ensures fits { length (R.made rule.now text.now) < 2 ^ 64 → IsSome result }
{
    match rule.length(text) {
        Length::Exactly(count) => Some(count),
        Length::AtMost(_) | Length::Unknown => counted(rule, text),
    }
}

// The same, by a scan for changes.
#[inline(never)]
fn counted<R: Rule>(rule: &R, text: &str) -> Option<usize>
    ensures count { IfSome result (λ count. count ≡ length (R.made rule.now text.now)) }
    ensures fits { length (R.made rule.now text.now) < 2 ^ 64 → IsSome result }
{
    let mut counter = Counter::new();
    match run(rule, text, &mut counter) {
        Ok(()) => Some(counter.count()),
        Err(_) => None,
    }
}

/// How many bytes to have room for before what `rule` makes of `text` is appended to an output that
/// has room for `spare`: at least as many as it has, none where it has none, and no more than
/// `spare` where those suffice.
///
/// Where the rule gives an upper bound, the text is not scanned for changes, unless the bound asks for
/// memory that the length itself may not need.
///
/// Of the encoder of a script's strings and `\u{20AC}` it is 6, an upper bound, where nothing is spare,
/// and 3 where 3 bytes are.
#[inline(always)]
pub fn room_for<R: Rule>(rule: &R, text: &str, spare: usize) -> Result<usize, CountOverflow>
    ensures enough { IfOk result (λ room. length (R.made rule.now text.now) ≤ room) }
    ensures empty { R.made rule.now text.now ≡ [] → IfOk result (λ room. room ≡ 0) }
    ensures spare { length (R.made rule.now text.now) ≤ spare → IfOk result (λ room. room ≤ spare) }
    ensures fits { length (R.made rule.now text.now) < 2 ^ 64 → IsOk result }
{
    match rule.length(text) {
        Length::Exactly(count) => Ok(count),
        Length::AtMost(bound) if spare == 0 || bound <= spare => Ok(bound),
        Length::AtMost(_) | Length::Unknown => counted(rule, text).ok_or(CountOverflow),
    }
}
