//! What a session held until a piece decided about it, and what is decided of the piece, as parts.
ghost use Rattle.std.specs.Prelude.{◌≡◌, ◌≤◌, ◌<◌, false, ◌++◌, length, IsTrue};
ghost use Rattle.std.specs.Str.{IsAscii};
ghost use Rattle.hesc_specs.specs.Bodies.Openings.{is_opening};
ghost use Rattle.hesc_sinks.specs.Took.{Took};
ghost use Rattle.hesc_specs.specs.Bodies.Sessions.{is_partial, flushed, decided_encoding};

use crate::body_encoder::carry::MOST_BYTES;
use crate::body_encoder::decided::EncodeDecided;
use hesc_core::forms::Parts;
use hesc_core::openings::completes_opening;
use hesc_core::{Element, Sink, run};

/// Whether an opening begins with what is held, which the first bytes of it and of what follows
/// decide.
pub(crate) fn is_opened(element: Element, held: &[u8], front: &[u8]) -> bool
    requires { is_partial element front.now ≡ false }
    ensures none { length held.now ≡ 0 → result ≡ false }
    ensures some { 0 < length held.now → result ≡ is_opening element front.now }
{
    if held.is_empty() {
        return false;
    }
    front[0] == b'<' && completes_opening(element, &front[1..])
}

/// What is held, with a `\` after its `<` where it begins an opening, and then what is decided of
/// the piece.
#[derive(Drop)]
pub(crate) struct Flushed<'p> {
    pub(crate) element: Element,
    pub(crate) held: &'p str,
    pub(crate) opens: bool,
    pub(crate) piece: &'p str,
    ghost some: { IsTrue opens → 0 < length held.now },
    ghost few: { length held.now ≤ 8 },
    ghost ascii: { IsAscii held.now },
}

impl Parts for Flushed<'_> {
    ghost text = { λ parts.
        flushed parts.opens parts.held.now ++ decided_encoding parts.element parts.piece.now };

    #[tactic(auto, using(hesc_sinks::proofs::Took::pieces))]
    fn put_into<S: Sink>(&self, sink: &mut S) -> Result<(), S::Fault> {
        put_held(self.held, self.opens, sink)?;
        run(&EncodeDecided(self.element), self.piece, sink)
    }

    // An opening has four bytes at least, and gets one more.
    #[inline(always)]
    #[tactic(auto, using(crate::proofs::DecidedBound::most_flushed))]
    fn most(&self) -> usize
        ensures { length (flushed self.now.opens self.now.held.now
            ++ decided_encoding self.now.element self.now.piece.now) ≤ result }
    {
        let most = self.piece.len() + self.piece.len() / 4;
        most.saturating_add(MOST_BYTES)
    }
}

#[tactic(auto, using(hesc_sinks::proofs::Took::pieces))]
fn put_held<S: Sink>(held: &str, opens: bool, sink: &mut S) -> Result<(), S::Fault>
    requires some { IsTrue opens → 0 < length held.now }
    requires ascii { IsAscii held.now }
    ensures { Took (S.seen sink.old) (S.seen sink.new) (flushed opens held.now) result }
{
    if !opens {
        return sink.put(held);
    }
    sink.put("<\\")?;
    sink.put(&held[1..])
}
