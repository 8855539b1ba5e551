ghost use Rattle.std.specs.Prelude.{◌≡◌, ◌+◌, ◌-◌, ◌/◌, ◌^◌, ◌≤◌, ◌<◌, ℕ, IfOk, vec_len};
ghost use Rattle.std.specs.Thread.{IsSync};
ghost use Rattle.rack_aggregate.specs.Runs.{GivesRun, GivesShards, MayRun};

use lineage_tree::HitRows;
use std::alloc::{AllocError, Global};
use std::thread::{Threads, join};

/// The answers of a job for each shard of a vertical, in the order of the shards, by at most as many
/// threads as there are workers. Where a thread can't be started, the caller does its work.
pub fn run_racks<R: Threads + Sync, J: Fn(u32) -> Result<HitRows, AllocError> + Sync>(
    rt: &R,
    alloc: Global,
    workers: u32,
    shards: u32,
    job: &J,
) -> Result<Vec<HitRows>, AllocError>
    requires workers { 1 ≤ workers }
    requires may { (i : ℕ) → i < shards → J.pre job.now i }
    ensures len { IfOk result (λ v. vec_len v ≡ shards) }
    ensures each { IfOk result (λ v. GivesShards (J.post job.now) v.items) }
{
    run_among(rt, alloc, workers, 0, shards, job)
}

/// The answers for a run of shards: half of them by half of the workers, the rest by the others.
#[cycle(halves)]
pub(crate) fn run_among<R: Threads + Sync, J: Fn(u32) -> Result<HitRows, AllocError> + Sync>(
    rt: &R,
    alloc: Global,
    workers: u32,
    from: u32,
    count: u32,
    job: &J,
) -> Result<Vec<HitRows>, AllocError>
    requires workers { 1 ≤ workers }
    requires within { from + count < 2 ^ 32 }
    requires may { MayRun (J.pre job.now) from count }
    ensures len { IfOk result (λ v. vec_len v ≡ count) }
    ensures gives { IfOk result (λ v. GivesRun (J.post job.now) from v.items) }
{
    if workers == 1 || count <= 1 {
        return run_alone(alloc, from, count, job);
    }
    let (front, back) = run_both(rt, alloc, workers, from, count, job);
    let mut all = front?;
    let mut back = back?;
    all.append(&mut back)?;
    Ok(all)
}

// Both halves of a run, at the same time.
#[cycle(halves)]
fn run_both<R: Threads + Sync, J: Fn(u32) -> Result<HitRows, AllocError> + Sync>(
    rt: &R,
    alloc: Global,
    workers: u32,
    from: u32,
    count: u32,
    job: &J,
) -> (
    Result<Vec<HitRows>, AllocError>,
    Result<Vec<HitRows>, AllocError>,
)
    requires workers { 2 ≤ workers }
    requires count { 2 ≤ count }
    requires within { from + count < 2 ^ 32 }
    requires may { MayRun (J.pre job.now) from count }
    ensures front_len { IfOk result.0 (λ v. vec_len v ≡ count / 2) }
    ensures front { IfOk result.0 (λ v. GivesRun (J.post job.now) from v.items) }
    ensures back_len { IfOk result.1 (λ v. vec_len v ≡ count - count / 2) }
    ensures back { IfOk result.1 (λ v. GivesRun (J.post job.now) (from + count / 2) v.items) }
{
    let low = count / 2;
    let high = count - low;
    let middle = from + low;
    let few = workers / 2;
    let others = workers - few;
    join(
        rt,
        || -> Result<Vec<HitRows>, AllocError>
            requires sync { IsSync R.row × IsSync J.row }
            requires workers { 1 ≤ few }
            requires within { from + low < 2 ^ 32 }
            requires may { MayRun (J.pre job.now) from low }
            ensures len { IfOk result (λ v. vec_len v ≡ low) }
            ensures gives { IfOk result (λ v. GivesRun (J.post job.entry.now) from v.items) }
        { run_among(rt, alloc, few, from, low, job) },
        || -> Result<Vec<HitRows>, AllocError>
            requires sync { IsSync R.row × IsSync J.row }
            requires workers { 1 ≤ others }
            requires within { middle + high < 2 ^ 32 }
            requires may { MayRun (J.pre job.now) middle high }
            ensures len { IfOk result (λ v. vec_len v ≡ high) }
            ensures gives { IfOk result (λ v. GivesRun (J.post job.entry.now) middle v.items) }
        { run_among(rt, alloc, others, middle, high, job) },
    )
}

// The answers for a run of shards, one after the other.
fn run_alone<J: Fn(u32) -> Result<HitRows, AllocError>>(
    alloc: Global,
    from: u32,
    count: u32,
    job: &J,
) -> Result<Vec<HitRows>, AllocError>
    requires within { from + count < 2 ^ 32 }
    requires may { MayRun (J.pre job.now) from count }
    ensures len { IfOk result (λ v. vec_len v ≡ count) }
    ensures gives { IfOk result (λ v. GivesRun (J.post job.now) from v.items) }
{
    let mut all = Vec::new(alloc);
    for shard in from..from + count {
        all.push(job(shard)?)?;
    }
    Ok(all)
}
