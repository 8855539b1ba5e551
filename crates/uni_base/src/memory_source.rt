ghost use Rattle.std.specs.Prelude.{◌≡◌, ◌≤◌, ◌<◌, ◌^◌, ◌-◌, ◌++◌, Some, min, length, take, drop, is_err, IfOk, OnErr};
ghost use Rattle.std.specs.List.{concat};
ghost use Rattle.uni_base.specs.Streams.{Rose, Reads};
ghost use Rattle.uni_base.specs.MemoryStreams.{raised, next_fails, unread, current, cut};
ghost use Rattle.std.proofs.Common.{arith};

use crate::copy::copy_front;
use crate::{Failed, Source, Text};
use std::marker::Model;

/// A source over pieces of bytes in memory. Each read gives bytes of one piece only, and the reads
/// with the numbers in `fails`, counted from 1, fail.
#[derive(Drop)]
pub struct MemorySource {
    pieces: Pieces,
    calls: u64,
    fails: Vec<u64>,
    faults: u64,
}

impl Model for MemorySource {
    ghost use Rattle.uni_base.specs.MemoryStreams.{PieceSource};

    ghost Value = { PieceSource };

    ghost view = { λ s. record { pieces = s.pieces; calls = s.calls; fails = s.fails.items; faults = s.faults } };
}

impl MemorySource {
    pub fn new(pieces: Vec<Text>, fails: Vec<u64>) -> MemorySource
        ensures { result ≡ record { pieces = pieces.items; calls = 0; fails = fails.items; faults = 0 } }
    {
        MemorySource {
            pieces: Pieces::new(pieces),
            calls: 0,
            fails,
            faults: 0,
        }
    }

    /// How many reads have failed.
    pub fn faults(&self) -> u64
        ensures count { result ≡ self.now.faults }
        ensures fits { result < 2 ^ 64 }
    {
        self.faults
    }
}

impl Source for MemorySource {
    ghost left = { λ s. Some (concat s.pieces) };

    ghost faults = { λ s. min s.faults (2 ^ 64 - 1) };

    ghost bounded = { λ s. Prim.omega arith };

    fn read(&mut self, into: &mut [u8]) -> Result<usize, Failed>
        ensures within { IfOk result (λ n. n ≤ length into.old) }
        ensures told { IfOk result (λ n. Reads (Some (concat self.old.pieces)) (Some (concat self.new.pieces)) n into.new (length into.old)) }
        ensures quiet { IfOk result (λ n. min self.new.faults (2 ^ 64 - 1) ≡ min self.old.faults (2 ^ 64 - 1)) }
        ensures rose { OnErr result (Rose (min self.old.faults (2 ^ 64 - 1)) (min self.new.faults (2 ^ 64 - 1))) }
        ensures unread { OnErr result (Some (concat self.new.pieces) ≡ Some (concat self.old.pieces)) }
        ensures failed { is_err result ≡ next_fails self.old.calls self.old.fails }
        ensures given { IfOk result (λ n. n ≡ min (length (current (unread self.old.pieces))) (length into.old)) }
        ensures copied { IfOk result (λ n. into.new ≡ take n (current (unread self.old.pieces)) ++ drop n into.old) }
        ensures after { IfOk result (λ n. self.new ≡ record self.old { pieces = cut n (unread self.old.pieces); calls = raised self.old.calls }) }
        ensures after_fault { OnErr result (self.new ≡ record self.old { calls = raised self.old.calls; faults = raised self.old.faults }) }
        ensures untouched { OnErr result (into.new ≡ into.old) }
    {
        self.calls = self.calls.saturating_add(1);
        if self.fails.as_slice().contains(&self.calls) {
            self.faults = self.faults.saturating_add(1);
            return Err(Failed);
        }
        Ok(self.pieces.read(into))
    }
}

// Pieces of bytes that are read from the front. Contracts see what is left of each, from the
// current one on.
#[derive(Drop)]
struct Pieces {
    all: Vec<Text>,
    place: usize,
    at: usize,
}

impl Model for Pieces {
    ghost use Rattle.std.specs.Prelude.{List, ℕ, ◌≤◌, length, drop};
    ghost use Rattle.uni_base.specs.MemoryStreams.{current, cut};

    ghost Value = { List (List ℕ) };

    ghost view = { λ p. cut p.at (drop p.place p.all.items) };

    ghost invariant = { λ p. (p.place ≤ length p.all.items) × (p.at ≤ length (current (drop p.place p.all.items))) };
}

impl Pieces {
    fn new(all: Vec<Text>) -> Pieces
        ensures { result ≡ all.items }
    {
        Pieces {
            all,
            place: 0,
            at: 0,
        }
    }

    fn read(&mut self, into: &mut [u8]) -> usize
        ensures count { result ≡ min (length (current (unread self.old))) (length into.old) }
        ensures copied { into.new ≡ take result (current (unread self.old)) ++ drop result into.old }
        ensures after { self.new ≡ cut result (unread self.old) }
    {
        self.pass_empty();
        let Some(piece) = self.all.as_slice().get(self.place) else {
            return 0;
        };
        let n = copy_front(&piece.as_slice()[self.at..], into);
        self.at += n;
        n
    }

    // Goes on to the first piece that has a byte left.
    fn pass_empty(&mut self)
        ensures { self.new ≡ unread self.old }
    {
        while let Some(piece) = self.all.as_slice().get(self.place) {
            if self.at < piece.len() {
                break;
            }
            self.place += 1;
            self.at = 0;
        }
    }
}
