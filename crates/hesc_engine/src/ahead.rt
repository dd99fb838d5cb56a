//! What is known of the bytes ahead: at which of them a rule that looks for certain bytes may change
//! something.
ghost use Rattle.std.specs.Prelude.{◌≡◌, ◌≤◌, ℕ, Bool, List, count_ones, if◌then◌else◌, length, nat_le};
ghost use Rattle.hesc_sinks.specs.Hits.{AreHits};
ghost use Rattle.hesc_engine.specs.Ahead.{IsAhead};

/// The mask of the bytes from `start` on, 32 of them or as many as the text has: bit `k` of `hits`
/// is set exactly if byte `start + k` is one that the rule looks for.
///
/// A rule that finds the mask of some bytes keeps it here, and takes its bits one after another.
#[derive(Clone, Copy)]
pub struct Ahead {
    pub start: usize,
    pub hits: u64,
}

impl Ahead {
    /// Nothing is known of the text, whatever bytes are looked for.
    ///
    /// `Ahead::nothing("a<b")` begins at the end: its `start` is 3, and its `hits` are 0.
    #[inline(always)]
    pub fn nothing(text: &str) -> Ahead
        ensures { (is_sought : ℕ → Bool) → IsAhead is_sought text.now result }
    {
        Ahead {
            start: text.len(),
            hits: 0,
        }
    }

    // The hits from `from` on, as far as they are known.
    #[inline(always)]
    pub(crate) fn hits_from(&self, from: usize) -> u64
        ensures { (is_sought : ℕ → Bool) (source : List ℕ) → from ≤ length source
            → IsAhead is_sought source self.now → AreHits is_sought source from result }
    {
        if from < self.start || from - self.start >= 32 {
            return 0;
        }
        self.hits >> (from - self.start)
    }

    // Whether so many of the known bytes are looked for that it pays to hand them to the sink at once.
    // Near the end of the text each of them takes the sink longer.
    #[inline(always)]
    pub(crate) fn is_dense(&self, left: usize) -> bool
        ensures { result ≡ nat_le (if nat_le 20 left then 4 else 7) (count_ones self.now.hits) }
    {
        let enough = if left >= 20 { 4 } else { 7 };
        self.hits.count_ones() >= enough
    }
}
