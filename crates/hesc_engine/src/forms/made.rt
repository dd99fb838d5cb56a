//! What a rule makes of a text, as parts.
ghost use Rattle.std.specs.Prelude.{◌≡◌};
ghost use Rattle.std.specs.Str.{IsCharBoundary};
ghost use Rattle.hesc_specs.specs.Text.Changes.{applied};
ghost use Rattle.hesc_engine.specs.Ahead.{IsAhead};
ghost use Rattle.hesc_engine.specs.Next.{IsNext};

use crate::ahead::Ahead;
use crate::engine::run_made;
use crate::forms::measure::room_for;
use crate::forms::parts::Parts;
use crate::rule::Rule;
use crate::search::{change_from_hit, seek_of};
use crate::sought::first_hit;
use hesc_sinks::found::Found;
use hesc_sinks::sink::Sink;
use hesc_sinks::sinks::counter::CountOverflow;

/// What `rule` makes of a `text` that does not stay as it is: its first change, which is searched for
/// once, and what is known of the bytes after it.
#[derive(Drop)]
pub struct Made<'m, R: Rule> {
    pub rule: &'m R,
    pub text: &'m str,
    pub(crate) first: Found<'m>,
    pub(crate) ahead: Ahead,
    ghost is_first: { IsNext text.now 0 (R.changes_from rule.now text.now) first },
    ghost known: { IsAhead (R.is_sought rule.now) text.now ahead },
    ghost boundary: { IsCharBoundary text.now 0 },
    ghost makes: { applied text.now 0 (R.changes_from rule.now text.now 0) ≡ R.made rule.now text.now },
}

impl<'m, R: Rule> Made<'m, R> {
    ghost use Rattle.std.specs.Prelude.{◌≡◌, ◌≢◌, [], IfNone, IfSome};

    /// What `rule` makes of `text`, or `None` where nothing changes.
    ///
    /// Of the encoder of text and `ab` it is `None`.
    #[inline(always)]
    pub fn of(rule: &'m R, text: &'m str) -> Option<Made<'m, R>>
        ensures none { IfNone result (R.changes_from rule.now text.now 0 ≡ []) }
        ensures rule { IfSome result (λ made. made.rule.now ≡ rule.now) }
        ensures text { IfSome result (λ made. made.text.now ≡ text.now) }
        ensures some { IfSome result (λ _. R.changes_from rule.now text.now 0 ≢ []) }
    {
        let mut ahead = Ahead::nothing(text);
        // Most texts have no sought byte, and need no table.
        let seek = seek_of(rule);
        let place = match first_hit(seek.sought, text, 0, &mut ahead) {
            Some(place) => place,
            None => return None,
        };
        match change_from_hit(rule, seek, text, place, &mut ahead) {
            Some(first) => Some(Made {
                rule,
                text,
                first,
                ahead,
            }),
            None => None,
        }
    }
}

impl<R: Rule> Parts for Made<'_, R> {
    ghost text = { λ made. R.made made.rule.now made.text.now };

    #[inline(always)]
    fn put_into<S: Sink>(&self, sink: &mut S) -> Result<(), S::Fault> {
        run_made(self, sink)
    }

    #[inline(always)]
    fn room_for(&self, spare: usize) -> Result<usize, CountOverflow> {
        room_for(self.rule, self.text, spare)
    }

    #[inline(always)]
    fn most(&self) -> usize {
        match self.rule.longest(self.text) {
            Some(longest) => longest,
            None => usize::MAX,
        }
    }

    /// Half of the upper bound is mostly enough, and then the text is not scanned twice.
    #[inline(always)]
    fn may_fit(&self, spare: usize) -> bool {
        self.most() / 2 <= spare
    }
}
