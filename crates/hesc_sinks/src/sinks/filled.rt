//! The sink that writes into the room of a vector.
ghost use Rattle.std.specs.Prelude.{◌≡◌, ◌≤◌, ◌++◌, length};
ghost use Rattle.std.specs.Str.{IsUtf8};
ghost use Rattle.std.specs.Vec.{vec_capacity};

use crate::ascii_texts::AsciiTexts;
use crate::in_place::Storing;
use crate::sinks::log::Log;
use crate::sinks::room::Room;
use crate::sinks::store::StoreSink;
use crate::sinks::stores::store_hits;
use std::alloc::{AllocError, Allocator};
use std::snapshot::Snapshot;

static ZEROS: [u8; 1024] = [0; 1024];

/// Appends to a vector up to a limit, and never grows it.
///
/// Short pieces are stored over zeros that were appended before, which is a store or two: an append
/// also writes the vector's length, and the next append has to wait for it. What was not written over
/// is cut off at the end.
pub type FilledSink<'a, A> = StoreSink<FilledRoom<'a, A>>;

/// A vector with zeros at its end that texts are stored over.
#[derive(Drop)]
pub struct FilledRoom<'a, A: Allocator> {
    output: &'a mut Vec<u8, A>,
    start: Snapshot<Vec<u8, A>>,
    // How long it may become.
    limit: usize,
    pub ghost filled: { length output.now.items ≤ limit },
    pub ghost room: { limit ≤ vec_capacity output.now },
}

impl<'a, A: Allocator> StoreSink<FilledRoom<'a, A>> {
    ghost use Rattle.std.specs.Prelude.{[]};
    ghost use Rattle.hesc_sinks.specs.Room.{vec_room};
    ghost use Rattle.hesc_sinks.specs.Sinks.{
      filled_sink_output,
      filled_sink_room,
      filled_sink_start,
      filled_sink_taken,
    };

    /// A sink after the bytes of the output, for `room` bytes at most, for which the output has room.
    ///
    /// After `FilledSink::new(&mut output, 2)` over `x`, `put("ab")?` and `into_output()` it holds `xab`.
    #[inline(always)]
    pub fn new(output: &'a mut Vec<u8, A>, room: usize) -> FilledSink<'a, A>
        requires { room ≤ vec_room output.old }
        ensures same_reference { (filled_sink_output result).ghost_name ≡ output.entry.ghost_name }
        ensures start { filled_sink_start result ≡ output.old.items }
        ensures room { filled_sink_room result ≡ room }
        ensures nothing { filled_sink_taken result ≡ [] }
    {
        let start = Snapshot::of(&*output);
        let end = output.len();
        let limit = end + room;
        let mut room = FilledRoom {
            output,
            start,
            limit,
        };
        room.fill();
        StoreSink {
            room,
            end,
            log: Log::new(),
        }
    }

    /// The output without the zeros that were not written over.
    ///
    /// After `put("ab")?` over `x` it holds `xab`.
    #[inline(always)]
    pub fn into_output(self) -> &'a mut Vec<u8, A>
        ensures same_reference { result.ghost_name ≡ (filled_sink_output self.entry).ghost_name }
        ensures items { result.now.items ≡ filled_sink_start self.entry ++ filled_sink_taken self.entry }
        ensures utf8 { IsUtf8 (filled_sink_taken self.entry) }
    {
        let room = self.room;
        let output = room.output;
        output.truncate(self.end);
        output
    }
}

impl<A: Allocator> Room for FilledRoom<'_, A> {
    ghost use Rattle.hesc_sinks.specs.Sinks.{filled_setting};

    type Fault = AllocError;

    const HAS_LONG: bool = true;

    ghost bytes = { λ room. room.output.now.items };

    ghost setting = { λ room. filled_setting room };

    #[inline(always)]
    fn as_slice(&self) -> &[u8] {
        self.output.as_slice()
    }

    #[inline(always)]
    fn fill(&mut self) {
        let step = (self.limit - self.output.len()).min(ZEROS.len());
        let _appended = self.output.extend_from_slice(&ZEROS[..step]);
    }

    #[inline(always)]
    fn store<T: Storing>(&mut self, place: usize, text: &T) -> usize {
        text.store_at(self.output.as_mut_slice(), place)
    }

    #[inline(always)]
    fn store_hits(
        &mut self,
        place: usize,
        text: &str,
        from: usize,
        hits: u64,
        texts: AsciiTexts,
    ) -> (usize, usize) {
        store_hits(self.output.as_mut_slice(), place, text, from, hits, texts)
    }

    #[inline(always)]
    fn append(&mut self, place: usize, piece: &str) -> Result<usize, AllocError> {
        if piece.len() > self.limit - place {
            return Err(AllocError);
        }
        self.output.truncate(place);
        self.output.extend_from_slice(piece.as_bytes())?;
        // After a short piece the next ones may be short too.
        if piece.len() <= 64 {
            self.fill();
        }
        Ok(place + piece.len())
    }
}
