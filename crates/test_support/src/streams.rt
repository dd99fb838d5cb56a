//! Streams that take and give little at a time, and fail at the call at which they are told to.
ghost use Rattle.std.specs.Prelude.{◌≡◌, [], Some};
ghost use Rattle.test_support.specs.declared.streams.Flush.TheVariants.{Succeeds};

use std::alloc::Global;
use std::io::{self, Error, ErrorKind, Read, Write};

/// What a weak stream does at the one call at which it is told to.
#[derive(Clone, Copy, Debug, PartialEq, Eq)]
pub enum Trouble {
    /// Nothing out of the ordinary.
    Calm,
    /// It fails, by an error of the call's own kind and with its number as the message.
    Fails,
    /// It fails, by an error of the kind `Interrupted` and with the call's number as the message.
    Interrupted,
    /// A writer takes nothing and answers `Ok(0)`. A reader may not, before its end, and stays calm.
    Idle,
}

/// What a writer does where it is flushed.
#[derive(Clone, Copy, Debug, PartialEq, Eq)]
pub enum Flush {
    Succeeds,
    /// It fails, by an error of the kind `Other`.
    Fails,
}

/// How a stream is weak: at most `step` bytes a call, and `trouble` at the call of number `at`.
///
/// The first call has the number 1. Every call counts, that with the trouble too.
#[derive(Clone, Copy, Debug, PartialEq, Eq)]
pub struct Weakness {
    pub step: usize,
    pub at: u64,
    pub trouble: Trouble,
}

impl Trouble {
    /// The error of the call of that number, where this trouble is one.
    pub fn error_at(self, alloc: Global, call: u64) -> io::Result<Error> {
        let message = call.to_string(alloc)?;
        Ok(Error::new(self.kind_at(call), message.as_str()))
    }

    // Calls that follow one another fail by different kinds, and the first by one of its own.
    fn kind_at(self, call: u64) -> ErrorKind {
        if self == Trouble::Interrupted {
            return ErrorKind::Interrupted;
        }
        match call {
            1 => ErrorKind::BrokenPipe,
            _ if call % 2 == 0 => ErrorKind::StorageFull,
            _ => ErrorKind::TimedOut,
        }
    }
}

impl Weakness {
    /// A byte a call, and this trouble at the call of that number.
    pub fn byte_by_byte(at: u64, trouble: Trouble) -> Weakness
        ensures step { result.step ≡ 1 }
        ensures at { result.at ≡ at }
        ensures trouble { result.trouble ≡ trouble }
    {
        Weakness {
            step: 1,
            at,
            trouble,
        }
    }
}

/// A writer that keeps what it takes, and counts its calls.
#[derive(Drop)]
pub struct WeakWriter {
    pub taken: Vec<u8>,
    /// How often `write` was called.
    pub calls: u64,
    /// How often it was called with nothing to write.
    pub empty_calls: u64,
    /// How often `flush` was called.
    pub flushes: u64,
    pub weakness: Weakness,
    /// What it does where it is flushed; at first it succeeds.
    pub flush: Flush,
    alloc: Global,
}

impl WeakWriter {
    /// A writer that has taken nothing. With a step of 0 it never takes a byte.
    pub fn new(alloc: Global, weakness: Weakness) -> WeakWriter
        ensures empty { result.taken.items ≡ [] }
        ensures uncalled { result.calls ≡ 0 }
        ensures unflushed { result.flushes ≡ 0 }
        ensures none_empty { result.empty_calls ≡ 0 }
        ensures weak { result.weakness ≡ weakness }
        ensures flush { result.flush ≡ Succeeds }
    {
        WeakWriter {
            taken: Vec::new(alloc),
            calls: 0,
            empty_calls: 0,
            flushes: 0,
            weakness,
            flush: Flush::Succeeds,
            alloc,
        }
    }

    /// Whether it was asked for nothing but to write bytes: no flush, and no write of none.
    pub fn was_only_written(&self) -> bool {
        self.flushes == 0 && self.empty_calls == 0
    }
}

impl Write for WeakWriter {
    ghost contents = { λ writer. Some writer.taken.items };

    fn write(&mut self, buf: &[u8]) -> io::Result<usize> {
        self.calls = self.calls.saturating_add(1);
        if buf.is_empty() {
            self.empty_calls = self.empty_calls.saturating_add(1);
        }
        if self.calls == self.weakness.at {
            let trouble = self.weakness.trouble;
            match trouble {
                Trouble::Calm => {}
                Trouble::Fails | Trouble::Interrupted => {
                    return Err(trouble.error_at(self.alloc, self.calls)?);
                }
                Trouble::Idle => return Ok(0),
            }
        }
        let count = buf.len().min(self.weakness.step);
        self.taken.extend_from_slice(&buf[..count])?;
        Ok(count)
    }

    fn flush(&mut self) -> io::Result<()> {
        self.flushes = self.flushes.saturating_add(1);
        match self.flush {
            Flush::Succeeds => Ok(()),
            Flush::Fails => Err(Error::from(ErrorKind::Other)),
        }
    }
}

/// A reader over a slice, which counts the calls of `read`.
#[derive(Drop)]
pub struct WeakReader<'a> {
    pub left: &'a [u8],
    pub calls: u64,
    pub weakness: Weakness,
}

impl<'a> WeakReader<'a> {
    /// A reader that has the whole slice left. A step of 0 stands for 1.
    pub fn new(left: &'a [u8], weakness: Weakness) -> WeakReader<'a>
        ensures whole { result.left.now ≡ left.now }
        ensures uncalled { result.calls ≡ 0 }
        ensures weak { result.weakness ≡ weakness }
    {
        WeakReader {
            left,
            calls: 0,
            weakness,
        }
    }
}

impl Read for WeakReader<'_> {
    ghost remaining = { λ reader. Some reader.left.now };

    fn read(&mut self, buf: &mut [u8]) -> io::Result<usize> {
        self.calls = self.calls.saturating_add(1);
        if self.calls == self.weakness.at {
            match self.weakness.trouble {
                Trouble::Calm | Trouble::Idle => {}
                Trouble::Fails => return Err(Error::from(ErrorKind::Other)),
                Trouble::Interrupted => return Err(Error::from(ErrorKind::Interrupted)),
            }
        }
        let count = buf
            .len()
            .min(self.weakness.step.max(1))
            .min(self.left.len());
        let (given, left) = self.left.split_at(count);
        buf[..count].copy_from_slice(given);
        self.left = left;
        Ok(count)
    }
}
