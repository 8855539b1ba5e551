//! One layer for each of several shards, merged at once.
ghost use Rattle.std.specs.Prelude.{◌≡◌, ◌+◌, ◌≤◌, IfOk, OnOk, length};
ghost use Rattle.std.specs.List.{All};
ghost use Rattle.std.specs.Thread.{IsSync};
ghost use Rattle.uni_schema.specs.Schema.{Declarations};
ghost use Rattle.version_catalog.specs.Bases.{IsStackId, IsWhole, is_of_shard};

use crate::StackId;
use crate::whole::whole;
use shard_index::{ShardLayer, Version};
use std::alloc::{AllocError, Global};
use std::thread::{Threads, join};

/// One layer that by itself stands for a shard. None where there was no memory for it.
#[derive(Drop)]
pub(crate) struct ShardBase {
    pub(crate) vertical: u16,
    pub(crate) shard: u32,
    pub(crate) layer: Option<ShardLayer>,
}

// Layers of shards.
type Bases = Result<Vec<ShardBase>, AllocError>;

impl ShardBase {
    // Whether a stack is one of its shard.
    pub(crate) fn has(&self, stack: &StackId) -> bool
        ensures { result ≡ is_of_shard stack.now self.now }
    {
        self.vertical == stack.vertical && self.shard == stack.shard
    }
}

/// One layer for each shard of a run of stacks, by at most as many threads as there are workers. Of stacks of
/// one shard that stand side by side the layer is merged once. Where a thread can't be started, the caller
/// does its work.
pub(crate) fn shard_bases<R: Threads + Sync>(
    rt: &R,
    alloc: Global,
    version: &Version,
    stacks: &[StackId],
    from: usize,
    to: usize,
    workers: u32,
) -> Bases
    requires workers { 1 ≤ workers }
    requires within { to ≤ length stacks.now }
    requires stacks { All (IsStackId version.now.schema) stacks.now }
    ensures { IfOk result (λ bases. All (IsWhole version.now) bases.items) }
{
    let firsts = first_of_shards(alloc, stacks, from, to)?;
    bases_among(rt, alloc, version, &firsts, 0, firsts.len(), workers)
}

// The first stack of each shard of a run of stacks.
fn first_of_shards(
    alloc: Global,
    stacks: &[StackId],
    from: usize,
    to: usize,
) -> Result<Vec<StackId>, AllocError>
    requires { to ≤ length stacks.now }
    ensures { IfOk result (λ firsts. (schema : Declarations) → All (IsStackId schema) stacks.now → All (IsStackId schema) firsts.items) }
{
    let mut firsts = Vec::new(alloc);
    for at in from..to {
        add_first(&mut firsts, stacks[at])?;
    }
    Ok(firsts)
}

// Adds a stack, unless the last one is of its shard.
fn add_first(firsts: &mut Vec<StackId>, stack: StackId) -> Result<(), AllocError>
    ensures { OnOk result ((schema : Declarations) → IsStackId schema stack → All (IsStackId schema) firsts.old.items → All (IsStackId schema) firsts.new.items) }
{
    let count = firsts.len();
    if count > 0 && is_same_shard(&firsts[count - 1], &stack) {
        return Ok(());
    }
    firsts.push(stack)?;
    Ok(())
}

// Whether two stacks are of one shard.
pub(crate) fn is_same_shard(one: &StackId, other: &StackId) -> bool {
    one.vertical == other.vertical && one.shard == other.shard
}

// The layers of a run of shards: half of them by half of the workers, the rest by the others.
#[cycle(halves)]
fn bases_among<R: Threads + Sync>(
    rt: &R,
    alloc: Global,
    version: &Version,
    shards: &[StackId],
    from: usize,
    count: usize,
    workers: u32,
) -> Bases
    requires workers { 1 ≤ workers }
    requires within { from + count ≤ length shards.now }
    requires stacks { All (IsStackId version.now.schema) shards.now }
    ensures { IfOk result (λ bases. All (IsWhole version.now) bases.items) }
{
    if workers == 1 || count <= 1 {
        return bases_in_turn(alloc, version, shards, from, count);
    }
    let (front, back) = bases_both(rt, alloc, version, shards, from, count, workers);
    let mut all = front?;
    let mut back = back?;
    all.append(&mut back)?;
    Ok(all)
}

// Both halves of a run, at the same time.
#[cycle(halves)]
fn bases_both<R: Threads + Sync>(
    rt: &R,
    alloc: Global,
    version: &Version,
    shards: &[StackId],
    from: usize,
    count: usize,
    workers: u32,
) -> (Bases, Bases)
    requires workers { 2 ≤ workers }
    requires count { 2 ≤ count }
    requires within { from + count ≤ length shards.now }
    requires stacks { All (IsStackId version.now.schema) shards.now }
    ensures front { IfOk result.0 (λ bases. All (IsWhole version.now) bases.items) }
    ensures back { IfOk result.1 (λ bases. All (IsWhole version.now) bases.items) }
{
    let low = count / 2;
    let high = count - low;
    let middle = from + low;
    let few = workers / 2;
    let others = workers - few;
    join(
        rt,
        || -> Bases
            requires sync { IsSync R.row }
            requires workers { 1 ≤ few }
            requires within { from + low ≤ length shards.now }
            requires stacks { All (IsStackId version.now.schema) shards.now }
            ensures { IfOk result (λ bases. All (IsWhole version.entry.now) bases.items) }
        { bases_among(rt, alloc, version, shards, from, low, few) },
        || -> Bases
            requires sync { IsSync R.row }
            requires workers { 1 ≤ others }
            requires within { middle + high ≤ length shards.now }
            requires stacks { All (IsStackId version.now.schema) shards.now }
            ensures { IfOk result (λ bases. All (IsWhole version.entry.now) bases.items) }
        { bases_among(rt, alloc, version, shards, middle, high, others) },
    )
}

// The layers of a run of shards, one after the other.
fn bases_in_turn(
    alloc: Global,
    version: &Version,
    shards: &[StackId],
    from: usize,
    count: usize,
) -> Bases
    requires within { from + count ≤ length shards.now }
    requires stacks { All (IsStackId version.now.schema) shards.now }
    ensures { IfOk result (λ bases. All (IsWhole version.now) bases.items) }
{
    let mut bases = Vec::new(alloc);
    for at in from..from + count {
        bases.push(base_of(alloc, version, shards[at]))?;
    }
    Ok(bases)
}

// The layer of the shard of a stack.
fn base_of(alloc: Global, version: &Version, stack: StackId) -> ShardBase
    requires { IsStackId version.now.schema stack }
    ensures { IsWhole version.now result }
{
    let StackId {
        vertical,
        shard,
        replica,
    } = stack;
    ShardBase {
        vertical,
        shard,
        layer: whole(alloc, version, vertical, shard, replica).ok(),
    }
}
