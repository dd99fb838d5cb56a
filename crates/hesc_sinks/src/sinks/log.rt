//! What contracts see of a sink: the bytes that it took, and how often it failed.
ghost use Rattle.std.specs.Prelude.{◌≡◌, ◌+◌, ℕ, List, [], ◌++◌};

use std::marker::{Model, PhantomData};

/// The bytes taken and the number of failures, which proofs alone see. It takes no room.
///
/// A proof may pick any log (`saying`), and that is sound: there is a log for any bytes and any
/// number, so none assumes anything, and no code reads one, so nothing that runs depends on it.
///
/// What is real is tied to it elsewhere. A sink's ghost field ties `taken` to what the output holds
/// after what it held at first, of a writer as far as it tells its bytes, and of a counter to their
/// number; a log that says otherwise cannot stand in the sink. `failures` is tied to the clauses of
/// [`put`](crate::Sink::put) alone: it rises at each `Err` and stays at each `Ok`. So it counts the
/// faults that were answered, and all that is proved by it is that `run` of the engine answers a
/// fault only where a `put` did.
#[derive(Drop)]
pub struct Log {
    marker: PhantomData<()>,
    pub ghost taken: { List ℕ },
    pub ghost failures: { ℕ },
}

impl Model for Log {
    ghost use base.Fml.{ftrue};

    ghost also_owns = { λ _. ftrue };
}

impl Log {
    /// Nothing taken, and no failure.
    ///
    /// `Log::new()` has taken no byte, and its failures are 0.
    #[inline(always)]
    pub fn new() -> Log
        ensures { (result.taken ≡ []) × (result.failures ≡ 0) }
    {
        Log {
            marker: PhantomData,
        }
    }

    /// The log after `bytes` were taken too.
    ///
    /// `Log::new().after_taking(b"ab")` has taken `ab`.
    #[inline(always)]
    pub fn after_taking(&self, bytes: &[u8]) -> Log
        ensures taken { result.taken ≡ self.now.taken ++ bytes.now }
        ensures failures { result.failures ≡ self.now.failures }
    {
        Log::saying(self, bytes)
    }

    /// The log after one more failure.
    ///
    /// Of `Log::new().after_failing()` the failures are 1.
    #[inline(always)]
    pub fn after_failing(&self) -> Log
        ensures taken { result.taken ≡ self.now.taken }
        ensures failures { result.failures ≡ self.now.failures + 1 }
    {
        Log::saying(self, b"")
    }

    // A log that says what its caller picks. The ghost field of the sink that it is put into asks
    // for a proof that it is true.
    #[inline(always)]
    fn saying(_before: &Log, _piece: &[u8]) -> Log
        ghost said: { List ℕ × ℕ }
        ensures { (result.taken ≡ said.0) × (result.failures ≡ said.1) }
    {
        Log {
            marker: PhantomData,
        }
    }
}
