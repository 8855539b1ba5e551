//! The compactor puts one layer in place of those of several stacks.
ghost use Rattle.std.specs.Prelude.{[], ◌∷◌, ◌+◌, ◌-◌, ◌*◌, ◌^◌, ◌<◌, ◌≤◌, ℕ, List, length, IfOk, IfSome};
ghost use Rattle.std.specs.List.{All};
ghost use mathlib.Core.List.{IsPrefix};
ghost use Rattle.uni_schema.specs.Schema.{Declarations};
ghost use Rattle.uni_table.specs.declared.command.Command.{Command};
ghost use Rattle.version_catalog.specs.Bases.{IsBaseAfter, IsStackId, StandsAfter};
ghost use Rattle.version_catalog.specs.Installs.{IsLayered, Raises};
ghost use Rattle.version_catalog.specs.Seats.{settings_of, compactor_journal, compactor_installs, compactor_turns, IsCompactorOf, IsVersionOf};

use crate::bases::{ShardBase, is_same_shard, shard_bases};
use crate::{Catalogue, Compactor, Pinned, StackId};
use shard_index::ShardLayer;
use std::alloc::AllocError;
use std::sync::Wait;
use std::thread::Threads;

impl Catalogue {
    /// Puts one layer in place of those that each of some stacks has at a pin, as `compact` does with one of
    /// them. The shards of as many stacks as there are workers are merged at a time, each by a thread, where one
    /// can be started; stacks of one shard that stand side by side share what is merged. A stack that finds no
    /// memory is as it was. Ok is the newest version after all that: how many layers a stack has there tells
    /// whether it was compacted. It takes two turns at most for each stack, and one.
    pub fn compact_stacks<R: Threads + Wait + Sync>(
        &self,
        rt: &R,
        compactor: &mut Compactor,
        stacks: &[StackId],
        workers: u32,
    ) -> Result<Pinned, AllocError>
        requires workers { 1 ≤ workers }
        requires of { IsCompactorOf self.now compactor.old }
        requires few { compactor_turns compactor.old + 2 * length stacks.now + 1 ≤ 2 ^ 56 }
        requires stacks { All (IsStackId (settings_of self.now).schema) stacks.now }
        ensures of { IsCompactorOf self.now compactor.new }
        ensures turns { compactor_turns compactor.new ≤ compactor_turns compactor.old + 2 * length stacks.now + 1 }
        ensures later { IsPrefix (compactor_journal compactor.old) (compactor_journal compactor.new) }
        ensures raises { Raises stacks.now (length (compactor_journal compactor.old)) (compactor_installs compactor.old) (compactor_installs compactor.new) }
        ensures is { IfOk result (IsVersionOf (settings_of self.now) (compactor_journal compactor.new)) }
        ensures layers { IfOk result (IsLayered (settings_of self.now).schema (compactor_installs compactor.new) (length (compactor_journal compactor.new))) }
    {
        let mut from = 0;
        while from < stacks.len() {
            let to = group_end(stacks, from, workers);
            let _found = self.compact_group(rt, compactor, stacks, from, to, workers);
            from = to;
        }
        self.pin_told(rt, compactor)
    }

    // Compacts a group of stacks at one pin. Those that find no memory stay as they were.
    fn compact_group<R: Threads + Wait + Sync>(
        &self,
        rt: &R,
        compactor: &mut Compactor,
        stacks: &[StackId],
        from: usize,
        to: usize,
        workers: u32,
    ) -> Result<(), AllocError>
        requires workers { 1 ≤ workers }
        requires of { IsCompactorOf self.now compactor.old }
        requires few { compactor_turns compactor.old + 1 + (to - from) ≤ 2 ^ 56 }
        requires stacks { All (IsStackId (settings_of self.now).schema) stacks.now }
        requires within { (from ≤ to) × (to ≤ length stacks.now) }
        ensures of { IsCompactorOf self.now compactor.new }
        ensures turns { compactor_turns compactor.new ≤ compactor_turns compactor.old + 1 + (to - from) }
        ensures later { IsPrefix (compactor_journal compactor.old) (compactor_journal compactor.new) }
        ensures raises { Raises stacks.now (length (compactor_journal compactor.old)) (compactor_installs compactor.old) (compactor_installs compactor.new) }
    {
        let pinned = self.pin(rt, &mut compactor.seat)?;
        let version = pinned.version();
        let bases = shard_bases(rt, self.alloc, version, stacks, from, to, workers)?;
        let covers = version.publishes();
        for at in from..to {
            let _found = self.install_base(rt, compactor, stacks[at], covers, &bases);
        }
        Ok(())
    }

    // Installs the layer of its shard in a stack. None where there is no such layer, or no memory for it.
    fn install_base<R: Wait>(
        &self,
        rt: &R,
        compactor: &mut Compactor,
        stack: StackId,
        covers: u64,
        bases: &[ShardBase],
    ) -> Option<()>
        requires of { IsCompactorOf self.now compactor.old }
        requires few { compactor_turns compactor.old < 2 ^ 56 }
        requires stack { IsStackId (settings_of self.now).schema stack }
        requires bases { All (IsBaseAfter (settings_of self.now).schema (compactor_journal compactor.old) covers) bases.now }
        ensures of { IsCompactorOf self.now compactor.new }
        ensures turns { compactor_turns compactor.new ≤ compactor_turns compactor.old + 1 }
        ensures later { IsPrefix (compactor_journal compactor.old) (compactor_journal compactor.new) }
        ensures raises { Raises (stack ∷ []) covers (compactor_installs compactor.old) (compactor_installs compactor.new) }
    {
        let layer = layer_for(&stack, bases)?.share().ok()?;
        let StackId {
            vertical,
            shard,
            replica,
        } = stack;
        self.install(rt, compactor, vertical, shard, replica, covers, layer)
            .ok()
    }
}

// Where a group of stacks ends that begins at a place: with those of as many shards as there are workers.
fn group_end(stacks: &[StackId], from: usize, workers: u32) -> usize
    requires { from < length stacks.now }
    ensures { (from < result) × (result ≤ length stacks.now) }
{
    let mut shards = 1_u32;
    for to in from + 1..stacks.len() {
        if !is_same_shard(&stacks[to - 1], &stacks[to]) {
            if shards >= workers {
                return to;
            }
            shards = shards.saturating_add(1);
        }
    }
    stacks.len()
}

// The layer of the shard of a stack, if it was merged.
fn layer_for<'a>(stack: &StackId, bases: &'a [ShardBase]) -> Option<&'a ShardLayer>
    ensures { IfSome result (λ layer. (schema : Declarations) (journal : List (List Command)) (covers : ℕ) → All (IsBaseAfter schema journal covers) bases.now
        → StandsAfter schema journal covers stack.now.vertical stack.now.shard layer.now) }
{
    for base in bases {
        if base.has(stack) {
            return base.layer.as_ref();
        }
    }
    None
}
