//! The sink that stores over the bytes of a room.
ghost use Rattle.std.specs.Prelude.{◌≡◌, ◌≤◌, ◌<◌, ◌++◌, length, take};
ghost use Rattle.std.specs.Str.{IsUtf8};

use crate::ascii_texts::AsciiTexts;
use crate::found::Replacement;
use crate::in_place::{IN_PLACE_ROOM, InPlace, Storing, made_in};
use crate::segment::Segment;
use crate::sink::Sink;
use crate::sinks::log::Log;
use crate::sinks::room::Room;
use crate::sinks::stores::{Both, Stretch};
use std::str;

/// Stores what it takes over the bytes of a room, by a store or two of a constant length where a text is
/// short.
#[derive(Drop)]
pub struct StoreSink<R: Room> {
    pub(crate) room: R,
    // How far it has written.
    pub(crate) end: usize,
    pub(crate) log: Log,
    pub ghost within: { end ≤ length (R.bytes room) },
    pub ghost holds: { take end (R.bytes room) ≡ (R.setting room).start ++ log.taken },
    pub ghost utf8: { ∥ IsUtf8 log.taken ∥₁ },
}

impl<R: Room> StoreSink<R> {
    ghost use Rattle.std.specs.Int.{to_le_bytes, w64};
    ghost use Rattle.hesc_sinks.specs.Sinks.{store_sink_left, store_sink_seen};
    ghost use Rattle.hesc_sinks.specs.Took.{Took, TookAll};

    // How many bytes there are to store over.
    #[inline(always)]
    fn left(&self) -> usize
        ensures { result ≡ store_sink_left self.now }
    {
        self.room.as_slice().len() - self.end
    }

    #[inline(always)]
    fn store<T: Storing>(&mut self, text: &T)
        requires { T.needed text.now ≤ store_sink_left self.old }
        ensures { TookAll (store_sink_seen self.old) (store_sink_seen self.new) (T.text text.now) }
    {
        let start = self.end;
        self.end = self.room.store(start, text);
        let stored = &self.room.as_slice()[start..self.end];
        self.log = self.log.after_taking(stored);
    }

    // A short text, where few bytes are left. Passed as a number: a reference would keep the text in memory
    // where there are enough, too.
    #[inline(never)]
    fn put_small(&mut self, word: u64, len: usize) -> Result<(), R::Fault>
        requires few { len ≤ 8 }
        requires utf8 { IsUtf8 (take len (to_le_bytes w64 word)) }
        ensures { Took (store_sink_seen self.old) (store_sink_seen self.new)
            (take len (to_le_bytes w64 word)) result }
    {
        self.room.fill();
        let bytes = word.to_le_bytes();
        // It is UTF-8, as the caller says.
        self.put_some(unsafe { str::from_utf8_unchecked(&bytes[..len]) })
    }

    // A piece that too few bytes are left for.
    #[inline(never)]
    fn append(&mut self, piece: &str) -> Result<(), R::Fault>
        requires { store_sink_left self.old < length piece.now }
        ensures { Took (store_sink_seen self.old) (store_sink_seen self.new) piece.now result }
    {
        match self.room.append(self.end, piece) {
            Ok(after) => {
                self.end = after;
                self.log = self.log.after_taking(piece.as_bytes());
                Ok(())
            }
            Err(fault) => {
                self.log = self.log.after_failing();
                Err(fault)
            }
        }
    }
}

impl<R: Room> Sink for StoreSink<R> {
    ghost use Rattle.hesc_sinks.specs.Sinks.{store_sink_seen};

    type Fault = R::Fault;

    ghost seen = { store_sink_seen };

    #[inline(always)]
    fn put(&mut self, piece: &str) -> Result<(), R::Fault> {
        if piece.len() > self.left() {
            return self.append(piece);
        }
        self.store(&piece);
        Ok(())
    }

    // Most stretches and replacements are short.
    #[inline(always)]
    #[tactic(auto, using(crate::proofs::Took::pieces))]
    fn put_segment(&mut self, segment: Segment<'_>) -> Result<(), R::Fault> {
        match segment.new {
            Replacement::Small(text) => {
                let (kept, rest) = (segment.kept.len(), segment.rest.len());
                if R::HAS_LONG && kept <= 64 && rest >= 64 && self.left() >= 72 {
                    self.store(&Both::<64> { segment, text });
                    return Ok(());
                }
                if kept <= 16 && self.left() >= 24 {
                    self.store(&Both::<16> { segment, text });
                    return Ok(());
                }
                self.put_some(segment.kept)?;
                if self.left() >= 8 {
                    self.store(&text);
                    return Ok(());
                }
                self.put_small(text.word(), text.len())
            }
            Replacement::Borrowed(text) => {
                self.put_stretch(segment)?;
                self.put_some(text)
            }
        }
    }

    #[inline(always)]
    fn put_stretch(&mut self, segment: Segment<'_>) -> Result<(), R::Fault> {
        if segment.kept.len() > 16 || self.left() < 16 {
            return self.put_some(segment.kept);
        }
        self.store(&Stretch::<16> { segment });
        Ok(())
    }

    #[inline(always)]
    fn put_in_place<T: InPlace>(&mut self, text: &T) -> Result<(), R::Fault> {
        if self.left() < text.needed_room() {
            let mut room = [0; IN_PLACE_ROOM];
            return self.put(made_in(text, &mut room));
        }
        self.store(text);
        Ok(())
    }

    // One call for many hits, so that the loop has the registers to itself.
    #[inline(never)]
    fn put_hits(&mut self, text: &str, from: usize, hits: u64, texts: AsciiTexts) -> usize {
        let start = self.end;
        let (end, reached) = self.room.store_hits(start, text, from, hits, texts);
        self.end = end;
        self.log = self.log.after_taking(&self.room.as_slice()[start..end]);
        reached
    }
}
