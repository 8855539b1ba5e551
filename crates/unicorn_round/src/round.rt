//! The feeder, the compactor and the sessions work on the lines of a round at once.
ghost use Rattle.std.specs.Prelude.{◌≡◌, ◌++◌, ◌*◌, ◌≤◌, IfOk, length};
ghost use Rattle.std.specs.Thread.{IsSync};
ghost use Rattle.round_feed.specs.Compacted.{compact_entries, installs_by};
ghost use Rattle.round_feed.specs.Seats.{HasCompacted, HasFed};
ghost use Rattle.version_catalog.specs.Seats.{compactor_installs};
ghost use Rattle.session_asks.specs.Seats.{AllHaveTaken};
ghost use Rattle.unicorn_round.specs.Work.{AreAnswered, AsksDone, CompactionsDone, FeedDone, MayAsk, MayTakeCompactions, MayTakeFeed};

use crate::notes::{hear_compactor, hear_sessions, tell_compactor, tell_sessions};
use crate::parts::Parts;
use rack_aggregate::Gate;
use replica_pick::Chooser;
use reply_text::AnswerList;
use round_feed::{compact_round, feed_round, feed_round_by};
use script_rounds::ItemList;
use session_asks::{AskList, ask_sessions};
use std::alloc::{AllocError, Global};
use std::sync::Wait;
use std::thread::{Threads, join_mut};
use version_catalog::{Catalogue, Compactor, Feeder, Session};

/// The answers of a round, by who made them.
#[derive(Drop)]
pub(crate) struct RoundAnswers {
    pub fed: AnswerList,
    pub compacted: AnswerList,
    pub asked: Vec<AnswerList>,
}

/// Has the lines of a round worked on. Before it all seats learn what the feeder has seen, and after it the
/// feeder what they have, so that each number in an answer is one of this round.
pub(crate) fn run_round<R: Threads + Wait + Sync, C: Chooser + Sync, G: Gate + Sync>(
    rt: &R,
    alloc: Global,
    catalogue: &Catalogue,
    feeder: &mut Feeder,
    compactor: &mut Compactor,
    sessions: &mut [Session],
    parts: &Parts,
    workers: u32,
    chooser: &C,
    gate: &G,
) -> Result<RoundAnswers, AllocError>
    requires workers { 1 ≤ workers }
    requires feeder { MayTakeFeed catalogue.now parts.now.feed feeder.old }
    requires compactor { MayTakeCompactions catalogue.now parts.now.compactions compactor.old }
    requires sessions { MayAsk catalogue.now parts.now.asks.items sessions.old }
    ensures feeder { HasFed catalogue.now (length parts.now.feed) feeder.old feeder.new }
    ensures compactor { HasCompacted catalogue.now (2 * length parts.now.compactions) compactor.old compactor.new }
    ensures sessions { AllHaveTaken catalogue.now sessions.old sessions.new parts.now.asks.items }
    ensures answered { IfOk result (AreAnswered catalogue.now parts.now feeder.old feeder.new) }
    ensures installed { IfOk result (λ answers. compactor_installs compactor.new ≡ compactor_installs compactor.old ++ installs_by (compact_entries parts.now.compactions) answers.compacted) }
{
    tell_sessions(catalogue, feeder, sessions);
    tell_compactor(catalogue, feeder, compactor);
    let (fed, (compacted, asked)) = work(
        rt,
        alloc,
        catalogue,
        feeder,
        &parts.feed,
        compactor,
        &parts.compactions,
        sessions,
        parts.asks.as_slice(),
        workers,
        chooser,
        gate,
    );
    hear_sessions(catalogue, feeder, sessions);
    hear_compactor(catalogue, feeder, compactor);
    Ok(RoundAnswers {
        fed: fed?,
        compacted: compacted?,
        asked: asked?,
    })
}

// The feeder works beside all others, where both have something to do.
fn work<R: Threads + Wait + Sync, C: Chooser + Sync, G: Gate + Sync>(
    rt: &R,
    alloc: Global,
    catalogue: &Catalogue,
    feeder: &mut Feeder,
    feed: &ItemList,
    compactor: &mut Compactor,
    compactions: &ItemList,
    sessions: &mut [Session],
    asks: &[AskList],
    workers: u32,
    chooser: &C,
    gate: &G,
) -> (
    Result<AnswerList, AllocError>,
    (
        Result<AnswerList, AllocError>,
        Result<Vec<AnswerList>, AllocError>,
    ),
)
    requires workers { 1 ≤ workers }
    requires feeder { MayTakeFeed catalogue.now feed.now feeder.old }
    requires compactor { MayTakeCompactions catalogue.now compactions.now compactor.old }
    requires sessions { MayAsk catalogue.now asks.now sessions.old }
    ensures fed { FeedDone catalogue.now feed.now feeder.old feeder.new result.0 }
    ensures compacted { CompactionsDone catalogue.now compactions.now compactor.old compactor.new result.1.0 }
    ensures asked { AsksDone catalogue.now asks.now sessions.old sessions.new result.1.1 }
{
    if feed.is_empty() || (compactions.is_empty() && !has_asks(asks)) {
        let fed = feed_round_by(rt, alloc, catalogue, feeder, feed, workers, gate);
        let others = compact_and_ask(
            rt,
            alloc,
            catalogue,
            compactor,
            compactions,
            sessions,
            asks,
            workers,
            chooser,
            gate,
        );
        return (fed, others);
    }
    feed_beside(
        rt,
        alloc,
        catalogue,
        feeder,
        feed,
        compactor,
        compactions,
        sessions,
        asks,
        workers,
        chooser,
        gate,
    )
}

fn feed_beside<R: Threads + Wait + Sync, C: Chooser + Sync, G: Gate + Sync>(
    rt: &R,
    alloc: Global,
    catalogue: &Catalogue,
    feeder: &mut Feeder,
    feed: &ItemList,
    compactor: &mut Compactor,
    compactions: &ItemList,
    sessions: &mut [Session],
    asks: &[AskList],
    workers: u32,
    chooser: &C,
    gate: &G,
) -> (
    Result<AnswerList, AllocError>,
    (
        Result<AnswerList, AllocError>,
        Result<Vec<AnswerList>, AllocError>,
    ),
)
    requires workers { 1 ≤ workers }
    requires feeder { MayTakeFeed catalogue.now feed.now feeder.old }
    requires compactor { MayTakeCompactions catalogue.now compactions.now compactor.old }
    requires sessions { MayAsk catalogue.now asks.now sessions.old }
    ensures fed { FeedDone catalogue.now feed.now feeder.old feeder.new result.0 }
    ensures compacted { CompactionsDone catalogue.now compactions.now compactor.old compactor.new result.1.0 }
    ensures asked { AsksDone catalogue.now asks.now sessions.old sessions.new result.1.1 }
{
    let (others, fed) = join_mut(
        rt,
        &mut || -> (
            Result<AnswerList, AllocError>,
            Result<Vec<AnswerList>, AllocError>,
        )
            requires sync { IsSync R.row × IsSync C.row × IsSync G.row }
            requires workers { 1 ≤ workers }
            requires compactor { MayTakeCompactions catalogue.now compactions.now compactor.now }
            requires sessions { MayAsk catalogue.now asks.now sessions.now }
            ensures compacted { CompactionsDone catalogue.entry.now compactions.entry.now compactor.entry.now compactor.exit.now result.0 }
            ensures asked { AsksDone catalogue.entry.now asks.entry.now sessions.entry.now sessions.exit.now result.1 }
        {
            compact_and_ask(
                rt,
                alloc,
                catalogue,
                compactor,
                compactions,
                sessions,
                asks,
                workers,
                chooser,
                gate,
            )
        },
        &mut || -> Result<AnswerList, AllocError>
            requires sync { IsSync R.row × IsSync G.row }
            requires feeder { MayTakeFeed catalogue.now feed.now feeder.now }
            ensures fed { FeedDone catalogue.entry.now feed.entry.now feeder.entry.now feeder.exit.now result }
        { feed_round(rt, alloc, catalogue, feeder, feed, gate) },
    );
    (fed, others)
}

// The compactor works beside the sessions, where both have something to do.
fn compact_and_ask<R: Threads + Wait + Sync, C: Chooser + Sync, G: Gate + Sync>(
    rt: &R,
    alloc: Global,
    catalogue: &Catalogue,
    compactor: &mut Compactor,
    compactions: &ItemList,
    sessions: &mut [Session],
    asks: &[AskList],
    workers: u32,
    chooser: &C,
    gate: &G,
) -> (
    Result<AnswerList, AllocError>,
    Result<Vec<AnswerList>, AllocError>,
)
    requires workers { 1 ≤ workers }
    requires compactor { MayTakeCompactions catalogue.now compactions.now compactor.old }
    requires sessions { MayAsk catalogue.now asks.now sessions.old }
    ensures compacted { CompactionsDone catalogue.now compactions.now compactor.old compactor.new result.0 }
    ensures asked { AsksDone catalogue.now asks.now sessions.old sessions.new result.1 }
{
    if compactions.is_empty() || !has_asks(asks) {
        let compacted = compact_round(rt, alloc, catalogue, compactor, compactions, gate);
        let asked = ask_sessions(rt, alloc, catalogue, sessions, asks, workers, chooser, gate);
        return (compacted, asked);
    }
    compact_beside(
        rt,
        alloc,
        catalogue,
        compactor,
        compactions,
        sessions,
        asks,
        workers,
        chooser,
        gate,
    )
}

fn compact_beside<R: Threads + Wait + Sync, C: Chooser + Sync, G: Gate + Sync>(
    rt: &R,
    alloc: Global,
    catalogue: &Catalogue,
    compactor: &mut Compactor,
    compactions: &ItemList,
    sessions: &mut [Session],
    asks: &[AskList],
    workers: u32,
    chooser: &C,
    gate: &G,
) -> (
    Result<AnswerList, AllocError>,
    Result<Vec<AnswerList>, AllocError>,
)
    requires workers { 1 ≤ workers }
    requires compactor { MayTakeCompactions catalogue.now compactions.now compactor.old }
    requires sessions { MayAsk catalogue.now asks.now sessions.old }
    ensures compacted { CompactionsDone catalogue.now compactions.now compactor.old compactor.new result.0 }
    ensures asked { AsksDone catalogue.now asks.now sessions.old sessions.new result.1 }
{
    join_mut(
        rt,
        &mut || -> Result<AnswerList, AllocError>
            requires sync { IsSync R.row × IsSync G.row }
            requires compactor { MayTakeCompactions catalogue.now compactions.now compactor.now }
            ensures compacted { CompactionsDone catalogue.entry.now compactions.entry.now compactor.entry.now compactor.exit.now result }
        { compact_round(rt, alloc, catalogue, compactor, compactions, gate) },
        &mut || -> Result<Vec<AnswerList>, AllocError>
            requires sync { IsSync R.row × IsSync C.row × IsSync G.row }
            requires workers { 1 ≤ workers }
            requires sessions { MayAsk catalogue.now asks.now sessions.now }
            ensures asked { AsksDone catalogue.entry.now asks.entry.now sessions.entry.now sessions.exit.now result }
        { ask_sessions(rt, alloc, catalogue, sessions, asks, workers, chooser, gate) },
    )
}

// Whether a session asks.
fn has_asks(asks: &[AskList]) -> bool {
    asks.iter().any(|list| !list.is_empty())
}
