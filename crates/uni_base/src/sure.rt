ghost use Rattle.std.specs.Prelude.{◌≡◌, ◌≤◌, ◌<◌, ◌+◌, ◌-◌, ◌^◌, ◌++◌, Ok, Some, None, min, length, take, drop, IfOk};
ghost use Rattle.uni_base.specs.Streams.{Reads};
ghost use Rattle.std.proofs.Common.{arith};

use crate::copy::copy_front;
use crate::{Failed, Sink, Source, Text};
use std::marker::Model;

/// A source over bytes in memory, whose reads never fail. Contracts see the bytes that are left.
#[derive(Drop)]
pub struct SureSource {
    bytes: Text,
    at: usize,
}

impl Model for SureSource {
    ghost use Rattle.std.specs.Prelude.{List, ℕ, ◌≤◌, length, drop};

    ghost Value = { List ℕ };

    ghost view = { λ s. drop s.at s.bytes };

    ghost invariant = { λ s. s.at ≤ length s.bytes };
}

impl SureSource {
    pub fn new(bytes: Text) -> SureSource
        ensures { result ≡ bytes }
    {
        SureSource { bytes, at: 0 }
    }
}

impl Source for SureSource {
    ghost left = { λ s. Some s };

    ghost faults = { λ s. 0 };

    ghost bounded = { λ s. Prim.omega arith };

    fn read(&mut self, into: &mut [u8]) -> Result<usize, Failed>
        ensures within { IfOk result (λ n. n ≤ length into.old) }
        ensures told { IfOk result (λ n. Reads (Some self.old) (Some self.new) n into.new (length into.old)) }
        ensures sure { result ≡ Ok (min (length self.old) (length into.old)) }
        ensures copied { IfOk result (λ n. into.new ≡ take n self.old ++ drop n into.old) }
        ensures after { IfOk result (λ n. self.new ≡ drop n self.old) }
    {
        let n = copy_front(&self.bytes.as_slice()[self.at..], into);
        self.at += n;
        Ok(n)
    }
}

/// A sink that takes every piece whole, never fails, and keeps only the number of bytes, which
/// stands still at 2^64 - 1. Contracts see that number.
#[derive(Drop)]
pub struct SureSink {
    count: u64,
}

impl Model for SureSink {
    ghost use Rattle.std.specs.Prelude.{ℕ};

    ghost Value = { ℕ };

    ghost view = { λ s. s.count };
}

impl SureSink {
    pub fn new() -> SureSink
        ensures { result ≡ 0 }
    {
        SureSink { count: 0 }
    }

    /// How many bytes it has taken.
    pub fn count(&self) -> u64
        ensures { result ≡ self.now }
    {
        self.count
    }
}

impl Sink for SureSink {
    ghost taken = { λ s. None };

    ghost faults = { λ s. 0 };

    ghost bounded = { λ s. Prim.omega arith };

    fn write(&mut self, from: &[u8]) -> Result<usize, Failed>
        ensures within { IfOk result (λ n. n ≤ length from.now) }
        ensures some { IfOk result (λ n. 0 < length from.now → 0 < n) }
        ensures sure { result ≡ Ok (length from.now) }
        ensures after { self.new ≡ min (self.old + length from.now) (2 ^ 64 - 1) }
    {
        self.count = self.count.saturating_add(from.len() as u64);
        Ok(from.len())
    }
}
