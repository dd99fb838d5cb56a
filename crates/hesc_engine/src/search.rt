//! The search for the next change of a rule.
ghost use Rattle.std.specs.Prelude.{◌≡◌, ◌≤◌, ◌<◌, ℕ, false, true, [], length, slice_index, slice_range, IfNone, IfSome};
ghost use Rattle.std.specs.Str.{IsCharBoundary};
ghost use Rattle.hesc_specs.specs.Text.FirstPlace.{IsFirstPlace};
ghost use Rattle.hesc_engine.specs.Ahead.{IsAhead};
ghost use Rattle.hesc_engine.specs.Next.{IsChangeAt, IsNext};
ghost use Rattle.hesc_sinks.specs.declared.found.Found.{Found};
ghost use Rattle.hesc_engine.specs.Searches.{BeginsWith, IsSeekOf};
ghost use Rattle.hesc_engine.specs.Sought.{in_sought};
ghost use Rattle.hesc_sinks.specs.Text.{segment_bytes};

use crate::ahead::Ahead;
use crate::rule::Rule;
use crate::sought::{Seek, first_hit};
use hesc_sinks::found::{Found, Replacement};
use hesc_sinks::segment::Segment;

// What the rule seeks, asked for once, so that it stays in registers.
#[inline(always)]
pub(crate) fn seek_of<R: Rule>(rule: &R) -> Seek
    ensures { IsSeekOf R.Rule rule.now result }
{
    rule.seeks()
}

/// The first change of what `rule` makes of `text` at or after `from`, a character boundary, or `None`
/// where there is none.
///
/// Of the encoder of text, in `a<b` from 0, it is the byte 1, which becomes `&lt;`.
#[inline(always)]
pub fn change_from<'r, R: Rule>(rule: &'r R, text: &str, from: usize) -> Option<Found<'r>>
    requires { IsCharBoundary text.now from }
    ensures none { IfNone result (R.changes_from rule.now text.now from ≡ []) }
    ensures found { IfSome result (IsNext text.now from (R.changes_from rule.now text.now)) }
{
    let ahead = &mut Ahead::nothing(text);
    first_change(rule, seek_of(rule), text, from, from, ahead)
}

// The same, by what is known of the bytes ahead, which stays true, where no change begins before `passed`.
#[inline(always)]
pub(crate) fn first_change<'r, R: Rule>(
    rule: &'r R,
    seek: Seek,
    text: &str,
    from: usize,
    passed: usize,
    ahead: &mut Ahead,
) -> Option<Found<'r>>
    requires boundary { IsCharBoundary text.now from }
    requires ordered { from ≤ passed }
    requires within { passed ≤ length text.now }
    requires passed { (k : ℕ) → from ≤ k → k < passed → R.begins_at rule.now text.now k ≡ false }
    requires seek { IsSeekOf R.Rule rule.now seek }
    requires ahead { IsAhead (R.is_sought rule.now) text.now ahead.old }
    ensures none { IfNone result (R.changes_from rule.now text.now from ≡ []) }
    ensures found { IfSome result (IsNext text.now from (R.changes_from rule.now text.now)) }
    ensures ahead { IsAhead (R.is_sought rule.now) text.now ahead.new }
{
    let mut reached = passed;
    'seeking: while let Some(place) = first_hit(seek.sought, text, reached, ahead) {
        if let Some(found) = change_at_hit(rule, seek, text, place) {
            return Some(found);
        }
        reached = place + 1;
    }
    None
}

// The first change of a text whose first sought byte is known. Mostly it begins there, and what is known of
// the bytes ahead is not asked again.
#[inline(always)]
pub(crate) fn change_from_hit<'r, R: Rule>(
    rule: &'r R,
    seek: Seek,
    text: &str,
    place: usize,
    ahead: &mut Ahead,
) -> Option<Found<'r>>
    requires within { place < length text.now }
    requires first { IsFirstPlace (in_sought seek.sought) text.now 0 place }
    requires seek { IsSeekOf R.Rule rule.now seek }
    requires ahead { IsAhead (R.is_sought rule.now) text.now ahead.old }
    ensures none { IfNone result (R.changes_from rule.now text.now 0 ≡ []) }
    ensures found { IfSome result (IsNext text.now 0 (R.changes_from rule.now text.now)) }
    ensures ahead { IsAhead (R.is_sought rule.now) text.now ahead.new }
{
    match change_at_hit(rule, seek, text, place) {
        Some(found) => Some(found),
        None => first_change(rule, seek, text, 0, place + 1, ahead),
    }
}

// The change that begins at a sought byte, by the table or else by the rule.
#[inline(always)]
fn change_at_hit<'r, R: Rule>(
    rule: &'r R,
    seek: Seek,
    text: &str,
    place: usize,
) -> Option<Found<'r>>
    requires within { place < length text.now }
    requires sought { R.is_sought rule.now (slice_index text.now place) ≡ true }
    requires seek { IsSeekOf R.Rule rule.now seek }
    ensures none { IfNone result (R.begins_at rule.now text.now place ≡ false) }
    ensures found { IfSome result (IsChangeAt (R.begins_at rule.now text.now) text.now
        (R.changes_from rule.now text.now) place) }
{
    if let Some(texts) = seek.texts {
        if let Some(text) = texts.text_for(text.as_bytes()[place]) {
            return Some(Found {
                start: place,
                end: place + 1,
                replacement: Replacement::Small(text),
            });
        }
    }
    rule.change_at(text, place)
}

/// A change that begins at `start`, and the stretch before it.
#[inline(always)]
pub(crate) fn segment_before<'t>(
    text: &'t str,
    from: usize,
    start: usize,
    new: Replacement<'t>,
) -> Segment<'t>
    requires ordered { from ≤ start }
    requires from_boundary { IsCharBoundary text.now from }
    requires start_boundary { IsCharBoundary text.now start }
    ensures start { result.start ≡ from }
    ensures kept { result.kept.now ≡ slice_range text.now from start }
    ensures new { result.new ≡ new.entry }
    ensures first { (found : Found) → found.start ≡ start → found.replacement ≡ new.entry
        → BeginsWith text.now from found (segment_bytes result) }
{
    Segment {
        start: from,
        rest: &text.as_bytes()[from..],
        kept: &text[from..start],
        new,
    }
}
