//! The sink that writes.
ghost use Rattle.std.specs.Prelude.{◌≡◌, []};
ghost use Rattle.std.specs.Io.KnownBytes.{Appends};

use crate::sink::Sink;
use crate::sinks::log::Log;
use std::io::{self, ErrorKind, Write};
use std::snapshot::Snapshot;

/// Writes to a writer, which it never flushes.
///
/// Each piece is offered until all of it was taken. A fault of the writer is handed on at once,
/// also an interrupted write. A write that takes nothing is the fault `WriteZero`.
#[derive(Drop)]
pub struct WriterSink<'a, W: Write> {
    output: &'a mut W,
    start: Snapshot<W>,
    log: Log,
    pub ghost told: { ∥ Appends (W.contents start.value) (W.contents output.now) log.taken ∥₁ },
}

impl<'a, W: Write> WriterSink<'a, W> {
    ghost use Rattle.hesc_sinks.specs.Sinks.{writer_sink_output, writer_sink_start, writer_sink_taken};

    /// A sink over this output, which stays as it was.
    ///
    /// `WriterSink::new(&mut writer)` has written nothing; after `put("ab")?` it has written `ab`.
    #[inline(always)]
    pub fn new(output: &'a mut W) -> WriterSink<'a, W>
        ensures same_reference { (writer_sink_output result).ghost_name ≡ output.entry.ghost_name }
        ensures start { writer_sink_start result ≡ output.old }
        ensures unchanged { (writer_sink_output result).now ≡ output.old }
        ensures nothing { writer_sink_taken result ≡ [] }
    {
        let start = Snapshot::of(&*output);
        WriterSink {
            output,
            start,
            log: Log::new(),
        }
    }

    /// The output, to be used again: a caller knows of it only what is asked for here.
    ///
    /// After `put("ab")?` it is the writer, which got `ab`.
    #[inline(always)]
    pub fn into_output(self) -> &'a mut W
        ensures same_reference { result.ghost_name ≡ (writer_sink_output self.entry).ghost_name }
        ensures value { result.now ≡ (writer_sink_output self.entry).now }
    {
        self.output
    }
}

impl<W: Write> Sink for WriterSink<'_, W> {
    ghost use Rattle.hesc_sinks.specs.Sinks.{writer_sink_seen};

    type Fault = io::Error;

    ghost seen = { writer_sink_seen };

    #[inline(always)]
    fn put(&mut self, piece: &str) -> Result<(), io::Error> {
        let mut left = piece.as_bytes();
        'offering: while !left.is_empty() {
            match self.output.write(left) {
                Ok(0) => {
                    self.log = self.log.after_failing();
                    return Err(io::Error::from(ErrorKind::WriteZero));
                }
                Ok(count) => {
                    self.log = self.log.after_taking(&left[..count]);
                    left = &left[count..];
                }
                Err(fault) => {
                    self.log = self.log.after_failing();
                    return Err(fault);
                }
            }
        }
        Ok(())
    }
}
