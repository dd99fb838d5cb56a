//! The engine: each piece of a rule's text goes to a sink.
ghost use Rattle.std.specs.Prelude.{◌≤◌};
ghost use Rattle.std.specs.Str.{IsCharBoundary};
ghost use Rattle.hesc_specs.specs.Text.Changes.{applied};
ghost use Rattle.hesc_sinks.specs.Took.{Took};
ghost use Rattle.hesc_engine.specs.Ahead.{IsAhead};
ghost use Rattle.hesc_engine.specs.Searches.{IsSeekOf, TookFirst};

use crate::ahead::Ahead;
use crate::forms::made::Made;
use crate::rule::Rule;
use crate::search::{first_change, seek_of, segment_before};
use crate::sought::Seek;
use hesc_sinks::sink::Sink;

/// Hands what `rule` makes of `text` to the sink, piece by piece.
///
/// On success the sink took exactly that. On the sink's fault, which is handed on at once, it took
/// a beginning of it.
///
/// Of the encoder of text and `a<b` the sink takes `a&lt;b`.
#[inline(always)]
pub fn run<R: Rule, S: Sink>(rule: &R, text: &str, sink: &mut S) -> Result<(), S::Fault>
    ensures { Took (S.seen sink.old) (S.seen sink.new) (R.made rule.now text.now) result }
{
    run_from(rule, text, 0, Ahead::nothing(text), sink)
}

/// The same of a text whose first change was found.
///
/// Of what the encoder of text makes of `a<b` the sink takes `a&lt;b`.
#[inline(always)]
pub fn run_made<R: Rule, S: Sink>(made: &Made<'_, R>, sink: &mut S) -> Result<(), S::Fault>
    ensures { Took (S.seen sink.old) (S.seen sink.new)
        (R.made made.now.rule.now made.now.text.now) result }
{
    // What the rest takes is read first, so that it stays in registers.
    let (rule, text, from, ahead) = (made.rule, made.text, made.first.end, made.ahead);
    let segment = segment_before(text, 0, made.first.start, made.first.replacement);
    sink.put_segment(segment)?;
    run_from(rule, text, from, ahead, sink)
}

// Hands what `rule` makes of `text` from `from` on, a character boundary, to the sink, where something
// is known of the bytes ahead.
#[inline(always)]
fn run_from<R: Rule, S: Sink>(
    rule: &R,
    text: &str,
    from: usize,
    ahead: Ahead,
    sink: &mut S,
) -> Result<(), S::Fault>
    requires boundary { IsCharBoundary text.now from }
    requires ahead { IsAhead (R.is_sought rule.now) text.now ahead }
    ensures { Took (S.seen sink.old) (S.seen sink.new)
        (applied text.now from (R.changes_from rule.now text.now from)) result }
{
    let seek = seek_of(rule);
    let (mut place, mut known) = (from, ahead);
    // No mask with a change begins at the end.
    let mut handed_from = text.len();
    'putting: while let Some(found) = first_change(rule, seek, text, place, place, &mut known) {
        sink.put_segment(segment_before(text, place, found.start, found.replacement))?;
        place = found.end;
        // Once for a mask: where the sink stopped, it would mostly stop again.
        if known.start != handed_from {
            handed_from = known.start;
            place = put_hits(rule, seek, text, place, known, sink);
        }
    }
    sink.put_some(&text[place..])
}

// Hands the changes that are known to the sink, as many of them as it takes at once, and answers the
// place after them.
#[inline(always)]
fn put_hits<R: Rule, S: Sink>(
    rule: &R,
    seek: Seek,
    text: &str,
    from: usize,
    ahead: Ahead,
    sink: &mut S,
) -> usize
    requires boundary { IsCharBoundary text.now from }
    requires seek { IsSeekOf R.Rule rule.now seek }
    requires ahead { IsAhead (R.is_sought rule.now) text.now ahead }
    ensures taken { TookFirst (applied text.now from (R.changes_from rule.now text.now from))
        (applied text.now result (R.changes_from rule.now text.now result))
        (S.seen sink.old) (S.seen sink.new) }
    ensures ordered { from ≤ result }
    ensures boundary { IsCharBoundary text.now result }
{
    let _rule = rule;
    match seek.texts {
        Some(texts) if ahead.is_dense(text.len() - from) => {
            sink.put_hits(text, from, ahead.hits_from(from), texts)
        }
        _ => from,
    }
}
