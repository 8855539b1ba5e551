//! A query asked of all shards of a vertical.
ghost use Rattle.std.specs.Prelude.{◌≡◌, ◌<◌, IfOk, length};
ghost use Rattle.apply_extract.specs.Answered.{answered_in, IsReadyIn};
ghost use Rattle.apply_extract.specs.Parts.{AllFirst, AreFirst};
ghost use Rattle.shard_index.specs.Places.{shards_in};
ghost use Rattle.shard_eval.specs.Resolution.{IsReady};

use crate::answered::Answered;
use crate::in_shard::in_shard;
use lineage_tree::HitRows;
use rack_aggregate::{Gate, Point, run_racks};
use replica_pick::Chooser;
use shard_eval::eval_shard;
use shard_index::Version;
use std::alloc::{AllocError, Global};
use std::sync::Wait;
use std::thread::Threads;

/// The first hits of each shard, as many as the limit says, in the order of the shards, one after the other.
pub(crate) fn ask_in_turn<C: Chooser>(
    alloc: Global,
    version: &Version,
    vertical: u16,
    query: &Answered,
    limit: u32,
    line: u64,
    chooser: &C,
) -> Result<Vec<HitRows>, AllocError>
    requires vertical { vertical < length version.now.schema.verticals }
    requires ready { IsReadyIn (shards_in version.now.schema vertical) (answered_in query.now) }
    ensures count { IfOk result (λ parts. length parts.items ≡ shards_in version.now.schema vertical) }
    ensures parts { IfOk result (λ parts. AllFirst version.now vertical 0 limit (answered_in query.now) parts.items) }
{
    let mut parts = Vec::new(alloc);
    for shard in 0..version.schema().vertical(vertical).shards {
        parts.push(ask_shard(alloc, version, vertical, shard, query, limit, line, chooser)?)?;
    }
    Ok(parts)
}

/// The same, by at most so many threads, or by one. Each shard is told to the gate as it begins.
pub(crate) fn ask_among<R: Threads + Wait + Sync, C: Chooser + Sync, G: Gate + Sync>(
    rt: &R,
    alloc: Global,
    workers: u32,
    version: &Version,
    vertical: u16,
    query: &Answered,
    limit: u32,
    line: u64,
    chooser: &C,
    gate: &G,
) -> Result<Vec<HitRows>, AllocError>
    requires vertical { vertical < length version.now.schema.verticals }
    requires ready { IsReadyIn (shards_in version.now.schema vertical) (answered_in query.now) }
    ensures count { IfOk result (λ parts. length parts.items ≡ shards_in version.now.schema vertical) }
    ensures parts { IfOk result (λ parts. AllFirst version.now vertical 0 limit (answered_in query.now) parts.items) }
{
    let shards = version.schema().vertical(vertical).shards;
    run_racks(
        rt,
        alloc,
        workers.max(1),
        shards,
        &|shard: u32| -> Result<HitRows, AllocError>
            requires vertical { vertical < length version.now.schema.verticals }
            requires shard { shard < shards_in version.now.schema vertical }
            requires ready { IsReady (answered_in query.now shard) }
            ensures { IfOk result (λ hits. AreFirst version.entry.now vertical shard limit (answered_in query.entry.now shard) hits) }
        {
            gate.at(rt, Point::ShardStarted(line, vertical, shard));
            ask_shard(alloc, version, vertical, shard, query, limit, line, chooser)
        },
    )
}

// The first hits of one shard. Which replica is read is chosen by the line of the query.
fn ask_shard<C: Chooser>(
    alloc: Global,
    version: &Version,
    vertical: u16,
    shard: u32,
    query: &Answered,
    limit: u32,
    line: u64,
    chooser: &C,
) -> Result<HitRows, AllocError>
    requires vertical { vertical < length version.now.schema.verticals }
    requires shard { shard < shards_in version.now.schema vertical }
    requires ready { IsReady (answered_in query.now shard) }
    ensures { IfOk result (λ hits. AreFirst version.now vertical shard limit (answered_in query.now shard) hits) }
{
    let replicas = version.schema().vertical(vertical).replicas;
    let replica = chooser.pick(vertical, shard, line, replicas);
    let resolved = in_shard(alloc, query, shard)?;
    eval_shard(
        alloc,
        version.shard(vertical, shard, replica),
        &resolved,
        limit,
    )
}
