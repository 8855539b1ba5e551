ghost use Rattle.std.specs.Io.KnownBytes.{ReadConsumes, WriteAppends};
ghost use Rattle.std.proofs.Common.{arith};
ghost use Rattle.std.specs.Prelude.{◌≡◌, ◌<◌, ◌^◌, ◌-◌, ◌≤◌, None, min, length, IfOk, OnErr};
ghost use Rattle.uni_base.specs.MemoryStreams.{raised};
ghost use Rattle.uni_base.specs.Streams.{Rose};

use crate::{Failed, Sink, Source};
use std::io::{Read, Write};
use std::marker::Model;

/// A source over a reader. Each error of the reader is a failed read.
#[derive(Drop)]
pub struct StdSource<R> {
    inner: R,
    faults: u64,
}

impl<R> Model for StdSource<R> {
    ghost use Rattle.uni_base.specs.Streams.{Counted};

    ghost Value = { Counted R };

    ghost view = { λ s. record { inner = s.inner; faults = s.faults } };
}

impl<R: Read> StdSource<R> {
    pub fn new(inner: R) -> StdSource<R>
        ensures inner { result.inner ≡ inner }
        ensures faults { result.faults ≡ 0 }
    {
        StdSource { inner, faults: 0 }
    }

    /// How many reads have failed; it stands still at 2^64 - 1.
    pub fn faults(&self) -> u64
        ensures { result ≡ self.now.faults }
    {
        self.faults
    }
}

impl<R: Read> Source for StdSource<R> {
    ghost left = { λ s. None };

    ghost faults = { λ s. min s.faults (2 ^ 64 - 1) };

    ghost bounded = { λ s. Prim.omega arith };

    fn read(&mut self, into: &mut [u8]) -> Result<usize, Failed>
        ensures within { IfOk result (λ n. n ≤ length into.old) }
        ensures quiet { IfOk result (λ n. min self.new.faults (2 ^ 64 - 1) ≡ min self.old.faults (2 ^ 64 - 1)) }
        ensures rose { OnErr result (Rose (min self.old.faults (2 ^ 64 - 1)) (min self.new.faults (2 ^ 64 - 1))) }
        ensures raised { OnErr result (self.new.faults ≡ raised self.old.faults) }
        ensures inner { ReadConsumes (R.remaining self.old.inner) (R.remaining self.new.inner) result into.new }
    {
        match self.inner.read(into) {
            Ok(n) => Ok(n),
            Err(_) => {
                self.faults = self.faults.saturating_add(1);
                Err(Failed)
            }
        }
    }
}

/// A sink over a writer. Each error of the writer is a failed write, and so is an answer that it
/// took no byte of a piece that has some.
#[derive(Drop)]
pub struct StdSink<W> {
    inner: W,
    faults: u64,
}

impl<W> Model for StdSink<W> {
    ghost use Rattle.uni_base.specs.Streams.{Counted};

    ghost Value = { Counted W };

    ghost view = { λ s. record { inner = s.inner; faults = s.faults } };
}

impl<W: Write> StdSink<W> {
    pub fn new(inner: W) -> StdSink<W>
        ensures inner { result.inner ≡ inner }
        ensures faults { result.faults ≡ 0 }
    {
        StdSink { inner, faults: 0 }
    }

    /// How many writes have failed; it stands still at 2^64 - 1.
    pub fn faults(&self) -> u64
        ensures { result ≡ self.now.faults }
    {
        self.faults
    }
}

impl<W: Write> Sink for StdSink<W> {
    ghost taken = { λ s. None };

    ghost faults = { λ s. min s.faults (2 ^ 64 - 1) };

    ghost bounded = { λ s. Prim.omega arith };

    fn write(&mut self, from: &[u8]) -> Result<usize, Failed>
        ensures within { IfOk result (λ n. n ≤ length from.now) }
        ensures some { IfOk result (λ n. 0 < length from.now → 0 < n) }
        ensures quiet { IfOk result (λ n. min self.new.faults (2 ^ 64 - 1) ≡ min self.old.faults (2 ^ 64 - 1)) }
        ensures rose { OnErr result (Rose (min self.old.faults (2 ^ 64 - 1)) (min self.new.faults (2 ^ 64 - 1))) }
        ensures raised { OnErr result (self.new.faults ≡ raised self.old.faults) }
        ensures inner { WriteAppends (W.contents self.old.inner) (W.contents self.new.inner) result from.now }
    {
        match self.inner.write(from) {
            Ok(n) if n > 0 || from.is_empty() => Ok(n),
            _ => {
                self.faults = self.faults.saturating_add(1);
                Err(Failed)
            }
        }
    }
}
