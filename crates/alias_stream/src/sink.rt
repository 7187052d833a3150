//! What bytes are written to.
ghost use Rattle.std.specs.Prelude.{ℕ, ◌≡◌, ◌<◌, ◌≤◌, Bool, List, Option, Err, length, take, IfOk, OnErr};
ghost use Rattle.alias_stream.specs.Streams.{Adds, HasFailed};
ghost use Rattle.alias_stream.specs.declared.sink.SinkStop.TheVariants.{Failed, Memory};

use std::alloc::AllocError;

/// Why a write stopped.
#[derive(Clone, Copy, Debug)]
pub enum SinkStop {
    /// It failed outside the program.
    Failed,
    /// Out of memory, which can come at any growth.
    Memory(AllocError),
}

impl From<AllocError> for SinkStop {
    ghost from_gives = { λ e s. s ≡ Memory e };

    fn from(e: AllocError) -> SinkStop {
        SinkStop::Memory(e)
    }
}

/// What bytes are written to, a piece at a time.
pub trait Sink {
    /// What it holds, where this is known.
    ghost held: { Self → Option (List ℕ) };

    /// How often it has failed; never falls.
    ghost faults: { Self → ℕ };

    /// Whether the count of faults stands at its last value, so that a further fault cannot raise it.
    ghost at_last: { Self → Bool };

    /// Adds bytes from the front of `piece`, and gives how many: 0 only where `piece` is empty. An `Err` comes
    /// where the write fails outside the program or memory is out, and adds none.
    fn write(&mut self, piece: &[u8]) -> Result<usize, SinkStop>
        ensures count { IfOk result (λ n. n ≤ length piece.now) }
        ensures some { IfOk result (λ n. 0 < length piece.now → 0 < n) }
        ensures added { IfOk result (λ n. Adds (held self.old) (take n piece.now) (held self.new)) }
        ensures kept { OnErr result (held self.new ≡ held self.old) }
        ensures faults { faults self.old ≤ faults self.new }
        ensures failed { result ≡ Err Failed → HasFailed (faults self.old) (faults self.new) (at_last self.new) };
}
