//! The sink that only counts.
ghost use Rattle.std.specs.Prelude.{◌≡◌, [], length};

use crate::sink::Sink;
use crate::sinks::log::Log;

/// Counts the bytes that it takes, up to the greatest `usize`.
#[derive(Drop)]
pub struct Counter {
    count: usize,
    log: Log,
    pub ghost counts: { count ≡ length log.taken },
}

/// The count would pass the greatest `usize`.
#[derive(Clone, Copy, Debug, PartialEq, Eq)]
pub struct CountOverflow;

impl Counter {
    ghost use Rattle.hesc_sinks.specs.Sinks.{counted};

    /// Nothing taken yet.
    ///
    /// `Counter::new().count()` is 0.
    #[inline(always)]
    pub fn new() -> Counter
        ensures { counted result ≡ [] }
    {
        Counter {
            count: 0,
            log: Log::new(),
        }
    }

    /// The number of bytes taken.
    ///
    /// After `put("ab")?` and `put("\u{E9}")?` it is 4.
    #[inline(always)]
    pub fn count(&self) -> usize
        ensures { result ≡ length (counted self.now) }
    {
        self.count
    }
}

impl Sink for Counter {
    ghost use Rattle.hesc_sinks.specs.Sinks.{counter_seen};

    type Fault = CountOverflow;

    ghost seen = { counter_seen };

    #[inline(always)]
    fn put(&mut self, piece: &str) -> Result<(), CountOverflow> {
        match self.count.checked_add(piece.len()) {
            Some(count) => {
                self.count = count;
                self.log = self.log.after_taking(piece.as_bytes());
                Ok(())
            }
            None => {
                self.log = self.log.after_failing();
                Err(CountOverflow)
            }
        }
    }
}
