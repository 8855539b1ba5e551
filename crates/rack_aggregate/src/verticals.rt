ghost use Rattle.std.specs.Prelude.{◌≡◌, ◌+◌, ◌*◌, ◌^◌, ◌≤◌, ◌<◌, ℕ, IfOk, length, map, take};
ghost use Rattle.std.specs.List.{AllByRecursion};
ghost use Rattle.std.specs.Thread.{IsSync};
ghost use Rattle.uni_base.specs.Cursors.{IsRanked};
ghost use Rattle.rack_aggregate.specs.Merged.{AreApart, all_hits, hits_in_rank_order, keys_of};
ghost use Rattle.rack_aggregate.specs.Racks.{AreFirstOf, AreRacks, CanMerge, GivesRack};
ghost use Rattle.rack_aggregate.specs.Runs.{GivesRun, MayRun};

use crate::merge_top;
use crate::racks::run_among;
use lineage_tree::HitRows;
use std::alloc::{AllocError, Global};
use std::thread::Threads;

/// So many neighbouring shards are a rack.
const RACK: u32 = 8;

/// What merges the hits of shards, and those of racks.
pub(crate) trait Merges {
    /// The first hits of several parts in rank order, as of `merge_top`.
    fn first_of(
        &self,
        alloc: Global,
        parts: Vec<HitRows>,
        limit: u32,
    ) -> Result<HitRows, AllocError>
        requires ranked { AllByRecursion (λ part. IsRanked (keys_of part)) parts.items }
        requires apart { AreApart (map keys_of parts.items) }
        ensures { IfOk result (λ hits. hits ≡ take limit (hits_in_rank_order (all_hits parts.items))) };
}

/// Merges by `merge_top`.
pub(crate) struct MergesTop;

impl Merges for MergesTop {
    fn first_of(
        &self,
        alloc: Global,
        parts: Vec<HitRows>,
        limit: u32,
    ) -> Result<HitRows, AllocError> {
        merge_top(alloc, parts, limit)
    }
}

/// The first hits of all shards of a vertical in rank order, as many as the limit says, by at most as many
/// threads as there are workers. Eight neighbouring shards are a rack, and the last rack is smaller: the hits of
/// a rack are merged and cut to the limit where its shards come together, and then those of the racks.
pub fn first_of_racks<R: Threads + Sync, J: Fn(u32) -> Result<HitRows, AllocError> + Sync>(
    rt: &R,
    alloc: Global,
    workers: u32,
    shards: u32,
    limit: u32,
    job: &J,
) -> Result<HitRows, AllocError>
    requires workers { 1 ≤ workers }
    requires may { (i : ℕ) → i < shards → J.pre job.now i }
    requires merges { CanMerge (J.post job.now) 0 shards }
    ensures { IfOk result (AreFirstOf (J.post job.now) 0 shards limit) }
{
    first_by(rt, alloc, workers, shards, limit, job, &MergesTop)
}

/// The same by whatever merges.
pub(crate) fn first_by<
    R: Threads + Sync,
    J: Fn(u32) -> Result<HitRows, AllocError> + Sync,
    M: Merges + Sync,
>(
    rt: &R,
    alloc: Global,
    workers: u32,
    shards: u32,
    limit: u32,
    job: &J,
    merges: &M,
) -> Result<HitRows, AllocError>
    requires workers { 1 ≤ workers }
    requires may { MayRun (J.pre job.now) 0 shards }
    requires merges { CanMerge (J.post job.now) 0 shards }
    ensures { IfOk result (AreFirstOf (J.post job.now) 0 shards limit) }
{
    if shards <= RACK {
        return first_of_rack(rt, alloc, workers, 0, shards, limit, job, merges);
    }
    let racks = each_rack(rt, alloc, workers, shards, limit, job, merges)?;
    merges.first_of(alloc, racks, limit)
}

// The first hits of each rack, in the order of the racks. Racks are shared among the workers, and where there
// are more workers than racks the shards of each rack are.
fn each_rack<R: Threads + Sync, J: Fn(u32) -> Result<HitRows, AllocError> + Sync, M: Merges + Sync>(
    rt: &R,
    alloc: Global,
    workers: u32,
    shards: u32,
    limit: u32,
    job: &J,
    merges: &M,
) -> Result<Vec<HitRows>, AllocError>
    requires workers { 1 ≤ workers }
    requires some { 0 < shards }
    requires may { MayRun (J.pre job.now) 0 shards }
    requires merges { CanMerge (J.post job.now) 0 shards }
    ensures count { IfOk result (λ racks. AreRacks shards (length racks.items)) }
    ensures gives { IfOk result (λ racks. GivesRun (GivesRack (J.post job.now) shards limit) 0 racks.items) }
{
    let racks = shards.div_ceil(RACK);
    let few = (workers / racks).max(1);
    run_among(
        rt,
        alloc,
        workers,
        0,
        racks,
        &|rack: u32| -> Result<HitRows, AllocError>
            requires sync { IsSync R.row × IsSync J.row × IsSync M.row }
            requires few { 1 ≤ few }
            requires within { rack * 8 < shards }
            requires size { shards < 2 ^ 32 }
            requires may { MayRun (J.pre job.now) 0 shards }
            requires merges { CanMerge (J.post job.now) 0 shards }
            ensures { GivesRack (J.post job.entry.now) shards limit rack result }
        {
            let from = rack * RACK;
            let count = RACK.min(shards - from);
            first_of_rack(rt, alloc, few, from, count, limit, job, merges)
        },
    )
}

// The first hits of one rack.
fn first_of_rack<R: Threads + Sync, J: Fn(u32) -> Result<HitRows, AllocError> + Sync, M: Merges>(
    rt: &R,
    alloc: Global,
    workers: u32,
    from: u32,
    count: u32,
    limit: u32,
    job: &J,
    merges: &M,
) -> Result<HitRows, AllocError>
    requires workers { 1 ≤ workers }
    requires within { from + count < 2 ^ 32 }
    requires may { MayRun (J.pre job.now) from count }
    requires merges { CanMerge (J.post job.now) from count }
    ensures { IfOk result (AreFirstOf (J.post job.now) from count limit) }
{
    let parts = run_among(rt, alloc, workers, from, count, job)?;
    merges.first_of(alloc, parts, limit)
}
