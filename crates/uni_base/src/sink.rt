ghost use Rattle.std.specs.Prelude.{ℕ, List, Option, ◌≡◌, ◌≤◌, ◌<◌, ◌^◌, IfOk, OnErr, length};
ghost use Rattle.uni_base.specs.Streams.{Rose, Takes};

use crate::Failed;

/// Where the answers go.
pub trait Sink {
    /// The bytes that were taken, where the sink tells them.
    ghost taken: { Self → Option (List ℕ) };

    /// How many writes have failed; it stands still at 2^64 - 1.
    ghost faults: { Self → ℕ };

    /// Takes bytes from the front of a piece, at least one unless the piece is empty, and says how
    /// many.
    fn write(&mut self, from: &[u8]) -> Result<usize, Failed>
        ensures within { IfOk result (λ n. n ≤ length from.now) }
        ensures some { IfOk result (λ n. 0 < length from.now → 0 < n) }
        ensures told { IfOk result (λ n. Takes (taken self.old) (taken self.new) n from.now) }
        ensures quiet { IfOk result (λ n. faults self.new ≡ faults self.old) }
        ensures rose { OnErr result (Rose (faults self.old) (faults self.new)) }
        ensures untaken { OnErr result (taken self.new ≡ taken self.old) };

    ghost bounded: { (sink : Self) → faults sink < 2 ^ 64 };
}
