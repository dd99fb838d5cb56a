//! What a rule makes of a text, piece by piece: the stretches that stay are slices of the text.
ghost use Rattle.std.specs.Str.{IsCharBoundary};
ghost use Rattle.hesc_engine.specs.Ahead.{IsAhead};

use crate::ahead::Ahead;
use crate::rule::Rule;
use crate::search::{first_change, seek_of, segment_before};
use hesc_sinks::found::Replacement;
use hesc_sinks::segment::Segment;

/// A piece of a rule's text.
#[derive(Clone, Copy)]
pub enum Piece<'t> {
    /// A stretch of the source that starts at the byte `start` there.
    Kept { start: usize, text: &'t str },
    /// A text that stands for other bytes of the source, or between them.
    New(Replacement<'t>),
}

impl Piece<'_> {
    ghost use Rattle.std.specs.Prelude.{◌≡◌};
    ghost use Rattle.hesc_specs.specs.Text.Parts.{part_bytes};
    ghost use Rattle.hesc_engine.specs.Pieces.{part_of};

    /// The piece's text, which is not empty in a piece of `Pieces`.
    ///
    /// `Piece::Kept { start: 1, text: "b" }.as_str()` is `b`.
    #[inline(always)]
    pub fn as_str(&self) -> &str
        ensures { result.now ≡ part_bytes (part_of self.now) }
    {
        match self {
            Piece::Kept { start: _, text } => text,
            Piece::New(replacement) => replacement.as_str(),
        }
    }
}

/// The pieces of a rule's text, in order and none of them empty: the stretches of the source
/// before, between and after the changes, and the changes' replacements.
///
/// They are at most twice the number of changes and one. No memory is taken.
#[derive(Drop)]
pub struct Pieces<'t, R: Rule> {
    rule: &'t R,
    text: &'t str,
    from: usize,
    // What stands after the stretch that was handed out last.
    pending: Option<Replacement<'t>>,
    is_done: bool,
    ahead: Ahead,
    ghost boundary: { IsCharBoundary text.now from },
    ghost known: { IsAhead (R.is_sought rule.now) text.now ahead },
}

impl<'t, R: Rule> Pieces<'t, R> {
    ghost use Rattle.std.specs.Prelude.{
      ◌≡◌,
      ◌≤◌,
      ◌<◌,
      ◌*◌,
      ◌+◌,
      [],
      ◌++◌,
      length,
      IfNone,
      IfSome,
    };
    ghost use Rattle.hesc_specs.specs.Text.Parts.{joined, parts, renewed};
    ghost use Rattle.hesc_engine.specs.Pieces.{IsAtSegment, parts_left, stretch_of, segments_left};
    ghost use Rattle.hesc_sinks.specs.Text.{replacement_bytes};

    /// The pieces of what `rule` makes of `text`.
    ///
    /// Of the encoder of text and `a<b` they are the kept `a`, the new `&lt;` and the kept `b`.
    #[inline(always)]
    pub fn new(rule: &'t R, text: &'t str) -> Pieces<'t, R>
        ensures pieces { parts_left result ≡ parts text.now 0 (R.changes_from rule.now text.now 0) }
        ensures joined { joined (parts text.now 0 (R.changes_from rule.now text.now 0))
            ≡ R.made rule.now text.now }
        ensures few { length (parts text.now 0 (R.changes_from rule.now text.now 0))
            ≤ 2 * length (R.changes_from rule.now text.now 0) + 1 }
        ensures at_segment { IsAtSegment result }
    {
        Pieces {
            rule,
            text,
            from: 0,
            pending: None,
            is_done: false,
            ahead: Ahead::nothing(text),
        }
    }

    // The next change and the stretch before it, or at last the stretch after all changes. `None`
    // where nothing is left.
    #[inline(always)]
    fn segment(&mut self) -> Option<Segment<'t>>
        requires { IsAtSegment self.old }
        ensures none { IfNone result ((parts_left self.old ≡ []) × (parts_left self.new ≡ [])) }
        ensures some { IfSome result (λ segment. parts_left self.old
            ≡ stretch_of segment ++ (renewed (replacement_bytes segment.new) ++ parts_left self.new)) }
        ensures less { IfSome result (λ segment. segments_left self.new < segments_left self.old) }
        ensures at_segment { IsAtSegment self.new }
    {
        if self.is_done {
            return None;
        }
        let (seek, from) = (seek_of(self.rule), self.from);
        match first_change(self.rule, seek, self.text, from, from, &mut self.ahead) {
            Some(found) => {
                self.from = found.end;
                Some(segment_before(self.text, from, found.start, found.replacement))
            }
            None => {
                self.is_done = true;
                Some(Segment {
                    start: from,
                    rest: &self.text.as_bytes()[from..],
                    kept: &self.text[from..],
                    new: Replacement::Borrowed(""),
                })
            }
        }
    }
}

impl<'t, R: Rule> Iterator for Pieces<'t, R> {
    ghost use Rattle.std.specs.Iterator.{YieldsFirstBy, item_count};
    ghost use Rattle.hesc_engine.specs.Pieces.{part_of, parts_left};

    type Item = Piece<'t>;

    ghost next_gives = { YieldsFirstBy part_of parts_left };

    ghost remaining = { item_count parts_left };

    #[inline(always)]
    fn next(&mut self) -> Option<Piece<'t>> {
        if let Some(replacement) = self.pending {
            self.pending = None;
            return Some(Piece::New(replacement));
        }
        'finding: while let Some(segment) = self.segment() {
            let is_new = !segment.new.as_str().is_empty();
            if !segment.kept.is_empty() {
                if is_new {
                    self.pending = Some(segment.new);
                }
                return Some(Piece::Kept {
                    start: segment.start,
                    text: segment.kept,
                });
            }
            if is_new {
                return Some(Piece::New(segment.new));
            }
        }
        None
    }
}
