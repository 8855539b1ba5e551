ghost use Rattle.std.specs.Prelude.{◌≡◌, ◌<◌, IfOk, length};
ghost use Rattle.std.specs.Thread.{IsSync};
ghost use Rattle.apply_extract.specs.Answered.{answered_in, IsReadyIn};
ghost use Rattle.apply_extract.specs.Asking.{GivesFirst, MayAsk};
ghost use Rattle.apply_extract.specs.Conditions.{IsAsked, IsStanding};
ghost use Rattle.apply_extract.specs.Hits.{OfEachTable};
ghost use Rattle.apply_extract.specs.Parts.{AllFirst};
ghost use Rattle.query_check.specs.Plan.{seen};
ghost use Rattle.shard_index.specs.Places.{shards_in};
ghost use Rattle.uni_meaning.specs.Replies.{reply_of};

use crate::answered::Answered;
use crate::joins::first_hits;
use crate::shards::{ask_among, ask_in_turn};
use crate::shown::shown_hits;
use lineage_tree::{HitRows, LineageBook};
use query_check::Checked;
use rack_aggregate::Gate;
use replica_pick::Chooser;
use shard_index::Version;
use std::alloc::{AllocError, Global};
use std::sync::Wait;
use std::thread::Threads;
use uni_base::EntityId;
use uni_meaning::Reply;

/// What a query means over the table that a version stands for: its first hits, as many as the limit says,
/// of which the viewer is shown those with a lineage that is authorised whole. The shards of a vertical are
/// asked by at most as many threads as there are workers, or by one, and each is told to the gate as it begins; the
/// replicas that they are read from are chosen by the line of the query. Neither changes the reply.
pub fn answer<R: Threads + Wait + Sync, C: Chooser + Sync, G: Gate + Sync>(
    rt: &R,
    alloc: Global,
    version: &Version,
    query: &Checked,
    viewer: EntityId,
    limit: u32,
    line: u64,
    workers: u32,
    chooser: &C,
    gate: &G,
) -> Result<Reply, AllocError>
    requires standing { IsStanding version.now }
    requires typed { IsAsked version.now.schema (seen query.now) }
    ensures { IfOk result (λ reply. OfEachTable version.now (λ table. reply ≡ reply_of version.now.schema table version.now.publishes (seen query.now).stated.plan viewer limit)) }
{
    answer_by(
        alloc,
        version,
        query,
        viewer,
        limit,
        &|vertical: u16, query: Answered, limit: u32| -> Result<Vec<HitRows>, AllocError>
            requires sync { IsSync R.row × IsSync C.row × IsSync G.row }
            requires vertical { vertical < length version.now.schema.verticals }
            requires ready { IsReadyIn (shards_in version.now.schema vertical) (answered_in query) }
            ensures count { IfOk result (λ parts. length parts.items ≡ shards_in version.entry.now.schema vertical) }
            ensures parts { IfOk result (λ parts. AllFirst version.entry.now vertical 0 limit (answered_in query) parts.items) }
        {
            ask_among(
                rt, alloc, workers, version, vertical, &query, limit, line, chooser, gate,
            )
        },
    )
}

/// The same on the caller's thread, which waits for nobody.
pub fn answer_here<C: Chooser>(
    alloc: Global,
    version: &Version,
    query: &Checked,
    viewer: EntityId,
    limit: u32,
    line: u64,
    chooser: &C,
) -> Result<Reply, AllocError>
    requires standing { IsStanding version.now }
    requires typed { IsAsked version.now.schema (seen query.now) }
    ensures { IfOk result (λ reply. OfEachTable version.now (λ table. reply ≡ reply_of version.now.schema table version.now.publishes (seen query.now).stated.plan viewer limit)) }
{
    answer_by(
        alloc,
        version,
        query,
        viewer,
        limit,
        &|vertical: u16, query: Answered, limit: u32| -> Result<Vec<HitRows>, AllocError>
            requires vertical { vertical < length version.now.schema.verticals }
            requires ready { IsReadyIn (shards_in version.now.schema vertical) (answered_in query) }
            ensures count { IfOk result (λ parts. length parts.items ≡ shards_in version.entry.now.schema vertical) }
            ensures parts { IfOk result (λ parts. AllFirst version.entry.now vertical 0 limit (answered_in query) parts.items) }
        { ask_in_turn(alloc, version, vertical, &query, limit, line, chooser) },
    )
}

// What a query is answered, by whatever asks the shards.
fn answer_by<A: Fn(u16, Answered, u32) -> Result<Vec<HitRows>, AllocError>>(
    alloc: Global,
    version: &Version,
    query: &Checked,
    viewer: EntityId,
    limit: u32,
    ask: &A,
) -> Result<Reply, AllocError>
    requires may { MayAsk version.now (A.pre ask.now) }
    requires gives { GivesFirst version.now (A.post ask.now) }
    requires standing { IsStanding version.now }
    requires typed { IsAsked version.now.schema (seen query.now) }
    ensures { IfOk result (λ reply. OfEachTable version.now (λ table. reply ≡ reply_of version.now.schema table version.now.publishes (seen query.now).stated.plan viewer limit)) }
{
    let mut book = LineageBook::new(alloc);
    let hits = first_hits(alloc, version, ask, query, limit, &mut book)?;
    let hits = shown_hits(alloc, version, viewer, &book, &hits)?;
    Ok(Reply {
        publishes: version.publishes(),
        hits,
    })
}
