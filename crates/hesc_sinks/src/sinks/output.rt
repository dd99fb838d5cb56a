//! The sink that appends to an output, which grows where its room runs out.
ghost use Rattle.std.specs.Prelude.{◌≡◌, ◌≤◌, ◌<◌, ◌+◌, ℕ, List, [], ◌++◌, OnErr, length};
ghost use Rattle.std.specs.Str.{IsUtf8};
ghost use Rattle.hesc_sinks.specs.Room.{Appended};

use crate::sink::Sink;
use crate::sinks::log::Log;
use std::alloc::{AllocError, Allocator};
use std::snapshot::Snapshot;

/// A string, or a vector of bytes.
pub trait Output {
    ghost bytes: { Self → List ℕ };

    ghost room: { Self → ℕ };

    /// How many bytes it takes without asking for memory.
    ///
    /// Of an empty string with room for 8 bytes it is 8.
    fn spare(&self) -> usize;

    /// Appends `text` as it is, or leaves the output as it was.
    ///
    /// Of `x` and `ab` it makes `xab`.
    fn append_kept(&mut self, text: &str) -> Result<(), AllocError>
        ensures appended { Appended (bytes self.old) (bytes self.new) text.now result }
        ensures full { OnErr result (room self.old < length text.now) }
        ensures room { room self.old ≤ room self.new + length text.now };
}

impl<A: Allocator> Output for String<A> {
    ghost use Rattle.std.specs.String.{string_bytes};
    ghost use Rattle.hesc_sinks.specs.Room.{string_room};

    ghost bytes = { string_bytes };

    ghost room = { string_room };

    #[inline(always)]
    fn spare(&self) -> usize {
        self.capacity() - self.len()
    }

    #[inline(always)]
    fn append_kept(&mut self, text: &str) -> Result<(), AllocError> {
        self.push_str(text)
    }
}

impl<A: Allocator> Output for Vec<u8, A> {
    ghost use Rattle.hesc_sinks.specs.Room.{vec_room};

    ghost bytes = { λ output. output.items };

    ghost room = { vec_room };

    #[inline(always)]
    fn spare(&self) -> usize {
        self.capacity() - self.len()
    }

    #[inline(always)]
    fn append_kept(&mut self, text: &str) -> Result<(), AllocError> {
        self.extend_from_slice(text.as_bytes())
    }
}

/// Appends to an output, which grows where its room runs out.
#[derive(Drop)]
pub struct OutputSink<'a, O: Output> {
    output: &'a mut O,
    start: Snapshot<O>,
    log: Log,
    pub ghost holds: { O.bytes output.now ≡ O.bytes start.value ++ log.taken },
    pub ghost utf8: { ∥ IsUtf8 log.taken ∥₁ },
}

/// Appends to a string.
pub type StringSink<'a, A> = OutputSink<'a, String<A>>;

/// Appends to a vector of bytes.
pub type VecSink<'a, A> = OutputSink<'a, Vec<u8, A>>;

impl<'a, O: Output> OutputSink<'a, O> {
    ghost use Rattle.hesc_sinks.specs.Sinks.{output_sink_output, output_sink_start, output_sink_taken};

    /// A sink over this output, which stays as it was.
    ///
    /// After `StringSink::new(&mut output)` over `x`, `put("ab")?` makes `xab` of it.
    #[inline(always)]
    pub fn new(output: &'a mut O) -> OutputSink<'a, O>
        ensures same_reference { (output_sink_output result).ghost_name ≡ output.entry.ghost_name }
        ensures start { output_sink_start result ≡ output.old }
        ensures unchanged { (output_sink_output result).now ≡ output.old }
        ensures nothing { output_sink_taken result ≡ [] }
    {
        let start = Snapshot::of(&*output);
        OutputSink {
            output,
            start,
            log: Log::new(),
        }
    }

    /// The output, to be used again: a caller knows of it only what is asked for here.
    ///
    /// After `put("ab")?` over `x` it holds `xab`.
    #[inline(always)]
    pub fn into_output(self) -> &'a mut O
        ensures same_reference { result.ghost_name ≡ (output_sink_output self.entry).ghost_name }
        ensures value { result.now ≡ (output_sink_output self.entry).now }
        ensures utf8 { IsUtf8 (output_sink_taken self.entry) }
    {
        self.output
    }
}

impl<O: Output> Sink for OutputSink<'_, O> {
    ghost use Rattle.hesc_sinks.specs.Sinks.{output_sink_seen};

    type Fault = AllocError;

    ghost seen = { output_sink_seen };

    #[inline(always)]
    fn put(&mut self, piece: &str) -> Result<(), AllocError> {
        match self.output.append_kept(piece) {
            Ok(()) => {
                self.log = self.log.after_taking(piece.as_bytes());
                Ok(())
            }
            Err(fault) => {
                self.log = self.log.after_failing();
                Err(fault)
            }
        }
    }
}
