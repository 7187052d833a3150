//! What bytes are read from.
ghost use Rattle.std.specs.Prelude.{ℕ, ◌≡◌, ◌<◌, ◌≤◌, Bool, List, Option, length, take, IfOk, OnErr};
ghost use Rattle.alias_stream.specs.Streams.{Takes, IsAtEnd, HasFailed};

/// A read or a write failed outside the program.
#[derive(Clone, Copy, Debug)]
pub struct Failed;

/// What bytes are read from, a piece at a time.
pub trait Source {
    /// The bytes that it has left, where this is known.
    ghost left: { Self → Option (List ℕ) };

    /// How often it has failed; never falls.
    ghost faults: { Self → ℕ };

    /// Whether the count of faults stands at its last value, so that a further fault cannot raise it.
    ghost at_last: { Self → Bool };

    /// Takes the next bytes into the front of `buf`, and gives how many: 0 only at the end, or where `buf` is
    /// empty. An `Err` comes where the read fails outside the program, and takes none.
    fn read(&mut self, buf: &mut [u8]) -> Result<usize, Failed>
        ensures count { IfOk result (λ n. n ≤ length buf.new) }
        ensures taken { IfOk result (λ n. Takes (left self.old) (take n buf.new) (left self.new)) }
        ensures end { IfOk result (λ n. n ≡ 0 → 0 < length buf.new → IsAtEnd (left self.old)) }
        ensures kept { OnErr result (left self.new ≡ left self.old) }
        ensures faults { faults self.old ≤ faults self.new }
        ensures failed { OnErr result (HasFailed (faults self.old) (faults self.new) (at_last self.new)) };
}
