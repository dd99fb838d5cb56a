//! Sinks: what takes the pieces of a text.
ghost use Rattle.std.specs.Prelude.{◌≤◌};
ghost use Rattle.std.specs.Str.{IsCharBoundary};
ghost use Rattle.hesc_sinks.specs.Hits.{TookHits, ascii_rows};
ghost use Rattle.hesc_sinks.specs.Text.{segment_bytes};
ghost use Rattle.hesc_sinks.specs.Took.{Seen, Took};

use crate::ascii_texts::AsciiTexts;
use crate::in_place::{IN_PLACE_ROOM, InPlace, made_in};
use crate::segment::Segment;

/// Takes texts, one after another.
///
/// What contracts see of it (`seen`) are the bytes that it took, the number of its failures, how many more
/// bytes it takes without failing, the reference that it writes to, and what stood there at first, where
/// that is known.
pub trait Sink {
    type Fault;

    ghost seen: { Self → Seen };

    /// Takes the whole piece, or fails after a beginning of it. An empty piece is always taken.
    ///
    /// After `put("ab")?` a vector that held `x` holds `xab`.
    fn put(&mut self, piece: &str) -> Result<(), Self::Fault>
        ensures { Took (seen self.old) (seen self.new) piece.now result };

    /// Takes the stretch of a segment and then the text after it, or fails after a beginning of both.
    ///
    /// Of the stretch `a` and the text `&lt;` it takes `a&lt;`.
    #[inline(always)]
    #[tactic(auto, using(crate::proofs::Took::pieces))]
    fn put_segment(&mut self, segment: Segment<'_>) -> Result<(), Self::Fault>
        ensures { Took (seen self.old) (seen self.new) (segment_bytes segment.entry) result }
    {
        self.put_some(segment.kept)?;
        self.put_some(segment.new.as_str())
    }

    /// Takes the stretch of a segment alone, or fails after a beginning of it.
    ///
    /// Of the stretch `a` and the text `&lt;` it takes `a`.
    #[inline(always)]
    fn put_stretch(&mut self, segment: Segment<'_>) -> Result<(), Self::Fault>
        ensures { Took (seen self.old) (seen self.new) segment.entry.kept.now result }
    {
        self.put_some(segment.kept)
    }

    /// Takes the piece, unless it is empty.
    ///
    /// After `put_some("")?` a writer was offered nothing.
    #[inline(always)]
    #[tactic(auto, using(crate::proofs::Took::nothing))]
    fn put_some(&mut self, piece: &str) -> Result<(), Self::Fault>
        ensures { Took (seen self.old) (seen self.new) piece.now result }
    {
        if piece.is_empty() {
            return Ok(());
        }
        self.put(piece)
    }

    /// Takes a text that is made in place: in the room of the sink, where it has enough.
    ///
    /// Of the component of `a b` it takes `a%20b`.
    #[inline(always)]
    fn put_in_place<T: InPlace>(&mut self, text: &T) -> Result<(), Self::Fault>
        ensures { Took (seen self.old) (seen self.new) (T.text text.now) result }
    {
        let mut room = [0; IN_PLACE_ROOM];
        self.put(made_in(text, &mut room))
    }

    /// Takes a text from `from` on, a character boundary, with the bytes replaced that `hits` tells of, up
    /// to the end of one of them, and answers where that is: bit `k` tells whether byte `from + k` is
    /// sought. How many it takes is up to the sink, which need take none.
    ///
    /// Of `a<b` from 0, the hits `0b10` and the texts of the HTML references it takes `a&lt;` and answers
    /// 2, or it takes nothing and answers 0.
    #[inline(always)]
    fn put_hits(&mut self, text: &str, from: usize, hits: u64, texts: AsciiTexts) -> usize
        requires { IsCharBoundary text.now from }
        ensures taken { TookHits (ascii_rows texts) text.now from hits result
            (seen self.old) (seen self.new) }
        ensures ordered { from ≤ result }
        ensures boundary { IsCharBoundary text.now result }
    {
        let (_text, _hits, _texts) = (text.len(), hits, texts);
        from
    }
}
