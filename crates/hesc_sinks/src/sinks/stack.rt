//! The sink that writes to the stack.
ghost use Rattle.std.specs.Prelude.{◌≡◌, [], length};

use crate::ascii_texts::AsciiTexts;
use crate::in_place::Storing;
use crate::sinks::log::Log;
use crate::sinks::room::Room;
use crate::sinks::store::StoreSink;
use crate::sinks::stores::store_hits;
use std::str;

/// Writes into an array, and fails where it does not suffice.
///
/// A short text is made here first: its length is known before memory is asked for, and it is not
/// looked at twice.
pub type StackSink<const N: usize> = StoreSink<StackRoom<N>>;

/// An array that texts are stored over.
#[derive(Drop)]
pub struct StackRoom<const N: usize> {
    bytes: [u8; N],
}

/// The array does not suffice.
#[derive(Clone, Copy, Debug, PartialEq, Eq)]
pub struct StackFull;

impl<const N: usize> StoreSink<StackRoom<N>> {
    ghost use Rattle.hesc_sinks.specs.Sinks.{stack_sink_room, stack_sink_taken};

    /// Nothing taken yet.
    ///
    /// `StackSink::<16>::new().as_str()` is empty.
    #[inline(always)]
    pub fn new() -> StackSink<N>
        ensures nothing { stack_sink_taken result ≡ [] }
        ensures room { stack_sink_room result ≡ N }
    {
        StoreSink {
            room: StackRoom { bytes: [0; N] },
            end: 0,
            log: Log::new(),
        }
    }

    /// What was taken.
    ///
    /// After `put("ab")?` it is `ab`.
    #[inline(always)]
    pub fn as_str(&self) -> &str
        ensures { result.now ≡ stack_sink_taken self.now }
    {
        // The bytes are UTF-8, as the ghost field `utf8` keeps.
        unsafe { str::from_utf8_unchecked(&self.room.bytes[..self.end]) }
    }
}

impl<const N: usize> Room for StackRoom<N> {
    ghost use Rattle.hesc_sinks.specs.Sinks.{stack_setting};

    type Fault = StackFull;

    const HAS_LONG: bool = false;

    ghost bytes = { λ room. room.bytes };

    ghost setting = { λ room. stack_setting room };

    #[inline(always)]
    fn as_slice(&self) -> &[u8] {
        &self.bytes
    }

    #[inline(always)]
    fn fill(&mut self) {}

    #[inline(always)]
    fn store<T: Storing>(&mut self, place: usize, text: &T) -> usize {
        text.store_at(&mut self.bytes, place)
    }

    #[inline(always)]
    fn store_hits(
        &mut self,
        place: usize,
        text: &str,
        from: usize,
        hits: u64,
        texts: AsciiTexts,
    ) -> (usize, usize) {
        store_hits(&mut self.bytes, place, text, from, hits, texts)
    }

    #[inline(always)]
    fn append(&mut self, place: usize, piece: &str) -> Result<usize, StackFull> {
        let (_place, _piece) = (place, piece.len());
        Err(StackFull)
    }
}
