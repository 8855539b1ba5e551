ghost use Rattle.std.specs.Prelude.{◌≡◌, ◌≤◌, ◌<◌, ◌^◌, ◌-◌, ◌++◌, [], Some, min, length, take, is_err, IfOk, OnErr};
ghost use Rattle.uni_base.specs.Streams.{Rose, Takes};
ghost use Rattle.uni_base.specs.MemoryStreams.{raised, next_write_fails, taken_of};
ghost use Rattle.std.proofs.Common.{arith};

use crate::{Failed, Sink};
use std::alloc::{AllocError, Global};
use std::marker::Model;

/// A sink that keeps its bytes in memory that it takes at the start. A write takes at most `most`
/// bytes. It fails where no room is left for its bytes, or its number, counted from 1, is in `fails`.
#[derive(Drop)]
pub struct MemorySink {
    bytes: Vec<u8>,
    room: usize,
    most: usize,
    calls: u64,
    fails: Vec<u64>,
    faults: u64,
}

impl Model for MemorySink {
    ghost use Rattle.std.specs.Prelude.{◌≤◌, ◌<◌, length, vec_capacity};
    ghost use Rattle.uni_base.specs.MemoryStreams.{RoomSink};

    ghost Value = { RoomSink };

    ghost view = { λ s. record { bytes = s.bytes.items; room = s.room; most = s.most; calls = s.calls; fails = s.fails.items; faults = s.faults } };

    ghost invariant = { λ s. (length s.bytes.items ≤ s.room) × (s.room ≤ vec_capacity s.bytes) × (0 < s.most) };
}

impl MemorySink {
    pub fn new(
        alloc: Global,
        room: usize,
        most: usize,
        fails: Vec<u64>,
    ) -> Result<MemorySink, AllocError>
        requires { 0 < most }
        ensures { IfOk result (λ sink. sink ≡ record { bytes = []; room = room; most = most; calls = 0; fails = fails.items; faults = 0 }) }
    {
        Ok(MemorySink {
            bytes: Vec::with_capacity(alloc, room)?,
            room,
            most,
            calls: 0,
            fails,
            faults: 0,
        })
    }

    /// The bytes that were taken.
    pub fn bytes(&self) -> &[u8]
        ensures { result.now ≡ self.now.bytes }
    {
        self.bytes.as_slice()
    }

    /// How many writes have failed.
    pub fn faults(&self) -> u64
        ensures count { result ≡ self.now.faults }
        ensures fits { result < 2 ^ 64 }
    {
        self.faults
    }
}

impl Sink for MemorySink {
    ghost taken = { λ s. Some s.bytes };

    ghost faults = { λ s. min s.faults (2 ^ 64 - 1) };

    ghost bounded = { λ s. Prim.omega arith };

    fn write(&mut self, from: &[u8]) -> Result<usize, Failed>
        ensures within { IfOk result (λ n. n ≤ length from.now) }
        ensures some { IfOk result (λ n. 0 < length from.now → 0 < n) }
        ensures told { IfOk result (λ n. Takes (Some self.old.bytes) (Some self.new.bytes) n from.now) }
        ensures quiet { IfOk result (λ n. min self.new.faults (2 ^ 64 - 1) ≡ min self.old.faults (2 ^ 64 - 1)) }
        ensures rose { OnErr result (Rose (min self.old.faults (2 ^ 64 - 1)) (min self.new.faults (2 ^ 64 - 1))) }
        ensures untaken { OnErr result (Some self.new.bytes ≡ Some self.old.bytes) }
        ensures failed { is_err result ≡ next_write_fails self.old from.now }
        ensures count { IfOk result (λ n. n ≡ taken_of self.old from.now) }
        ensures after { IfOk result (λ n. self.new ≡ record self.old { bytes = self.old.bytes ++ take n from.now; calls = raised self.old.calls }) }
        ensures after_fault { OnErr result (self.new ≡ record self.old { calls = raised self.old.calls; faults = raised self.old.faults }) }
    {
        self.calls = self.calls.saturating_add(1);
        let left = self.room - self.bytes.len();
        if self.fails.as_slice().contains(&self.calls) || (left == 0 && !from.is_empty()) {
            self.faults = self.faults.saturating_add(1);
            return Err(Failed);
        }
        let n = from.len().min(self.most.min(left));
        self.bytes.extend_from_slice(&from[..n]).unwrap();
        Ok(n)
    }
}
