//! The bytes that a sink stores over.
ghost use Rattle.std.specs.Prelude.{◌≡◌, ◌≤◌, ◌<◌, ◌+◌, ℕ, List, ◌++◌, IfOk, OnErr, length, take};
ghost use Rattle.std.specs.Str.{IsCharBoundary, IsUtf8};
ghost use Rattle.hesc_sinks.specs.Hits.{StoredHits, ascii_rows};
ghost use Rattle.hesc_sinks.specs.Stores.{Stored};
ghost use Rattle.hesc_sinks.specs.Took.{Setting};

use crate::ascii_texts::AsciiTexts;
use crate::in_place::Storing;

/// Bytes that texts are stored over, one after another: an array, or the zeros of a vector.
pub trait Room: Drop {
    type Fault;

    /// Whether a stretch of up to 64 bytes is stored by one block: to branch on its length takes longer. In
    /// an array there are mostly short ones.
    const HAS_LONG: bool;

    ghost bytes: { Self → List ℕ };

    ghost setting: { Self → Setting };

    /// What was stored, and the bytes to store over.
    fn as_slice(&self) -> &[u8]
        ensures { result.now ≡ bytes self.now };

    /// Makes more bytes to store over, where there may be more.
    fn fill(&mut self)
        ensures kept { take (length (bytes self.old)) (bytes self.new) ≡ bytes self.old }
        ensures same { setting self.new ≡ setting self.old };

    /// Stores a text at a place, and answers the place after it. What stands there afterwards is lost.
    fn store<T: Storing>(&mut self, place: usize, text: &T) -> usize
        requires { place + T.needed text.now ≤ length (bytes self.old) }
        ensures stored { Stored (bytes self.old) (bytes self.new) place (T.text text.now) result }
        ensures utf8 { IsUtf8 (T.text text.now) }
        ensures same { setting self.new ≡ setting self.old };

    /// Stores a text from `from` on at a place, with the bytes replaced that `hits` tells of, up to the end
    /// of one of them. Answers the place after what was stored, and where in the text that is.
    fn store_hits(
        &mut self,
        place: usize,
        text: &str,
        from: usize,
        hits: u64,
        texts: AsciiTexts,
    ) -> (usize, usize)
        requires boundary { IsCharBoundary text.now from }
        requires within { place ≤ length (bytes self.old) }
        ensures stored { StoredHits (ascii_rows texts) text.now from hits result.1
            (bytes self.old) (bytes self.new) place result.0 }
        ensures ordered { from ≤ result.1 }
        ensures boundary { IsCharBoundary text.now result.1 }
        ensures same { setting self.new ≡ setting self.old };

    /// Puts a piece at a place where too few bytes are left for it, and answers the place after it.
    fn append(&mut self, place: usize, piece: &str) -> Result<usize, Self::Fault>
        requires within { place ≤ length (bytes self.old) }
        requires few { length (bytes self.old) < place + length piece.now }
        ensures after { IfOk result (λ end. end ≡ place + length piece.now) }
        ensures appended { IfOk result (λ end.
            take end (bytes self.new) ≡ take place (bytes self.old) ++ piece.now) }
        ensures kept { OnErr result (take place (bytes self.new) ≡ take place (bytes self.old)) }
        ensures full { OnErr result ((setting self.old).limit < place + length piece.now) }
        ensures same { setting self.new ≡ setting self.old };
}
