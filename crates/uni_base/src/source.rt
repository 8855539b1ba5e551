ghost use Rattle.std.specs.Prelude.{ℕ, List, Option, ◌≡◌, ◌≤◌, ◌<◌, ◌^◌, IfOk, OnErr, length};
ghost use Rattle.uni_base.specs.Streams.{Rose, Reads};

/// A read or a write that did not happen. The stream's count of faults says so too.
#[derive(Clone, Copy, Debug, PartialEq, Eq)]
pub struct Failed;

/// Where the bytes of a script come from.
pub trait Source {
    /// The bytes that are left, where the source tells them.
    ghost left: { Self → Option (List ℕ) };

    /// How many reads have failed; it stands still at 2^64 - 1.
    ghost faults: { Self → ℕ };

    /// Reads some of the bytes that are left into the front of a buffer, and says how many. 0 bytes
    /// for a buffer that is not empty is the end of the input.
    fn read(&mut self, into: &mut [u8]) -> Result<usize, Failed>
        ensures within { IfOk result (λ n. n ≤ length into.old) }
        ensures told { IfOk result (λ n. Reads (left self.old) (left self.new) n into.new (length into.old)) }
        ensures quiet { IfOk result (λ n. faults self.new ≡ faults self.old) }
        ensures rose { OnErr result (Rose (faults self.old) (faults self.new)) }
        ensures unread { OnErr result (left self.new ≡ left self.old) };

    ghost bounded: { (source : Self) → faults source < 2 ^ 64 };
}
