ghost use Rattle.std.specs.Prelude.{◌≤◌, ◌<◌, All, IfOk, length};
ghost use Rattle.std.specs.Thread.{IsSync};
ghost use Rattle.session_asks.specs.Replies.{IsAsk};
ghost use Rattle.session_asks.specs.Seats.{AllHaveTaken, AllMayTake, AllReplied};
ghost use Rattle.version_catalog.specs.Seats.{settings_of};

use crate::idle::{IdleWorkers, TwoParts};
use crate::{AskList, ask_session};
use fork_join::fork_both;
use rack_aggregate::Gate;
use replica_pick::Chooser;
use reply_text::AnswerList;
use std::alloc::{AllocError, Global};
use std::sync::Wait;
use std::thread::Threads;
use version_catalog::{Catalogue, Session};

// The answers of sessions, a list for each.
type Answers = Result<Vec<AnswerList>, AllocError>;

/// Answers the asks of sessions, at once where there are workers for it. Where a worker has nothing to do, the
/// sessions that another has yet to answer are halved by the number of their asks, and both halves are answered at
/// the same time; where none has, they are answered one after the other. The workers are shared among the sessions
/// that ask.
pub fn ask_sessions<R: Threads + Wait + Sync, C: Chooser + Sync, G: Gate + Sync>(
    rt: &R,
    alloc: Global,
    catalogue: &Catalogue,
    sessions: &mut [Session],
    asks: &[AskList],
    workers: u32,
    chooser: &C,
    gate: &G,
) -> Result<Vec<AnswerList>, AllocError>
    requires workers { 1 ≤ workers }
    requires may { AllMayTake catalogue.now sessions.old asks.now }
    requires typed { All (All (IsAsk (settings_of catalogue.now).schema)) asks.now }
    ensures taken { AllHaveTaken catalogue.now sessions.old sessions.new asks.now }
    ensures replied { IfOk result (λ answers. AllReplied (settings_of catalogue.now).schema sessions.old sessions.new asks.now answers.items) }
{
    let each = share_of(workers, asking(asks));
    let idle = IdleWorkers::new(workers - 1);
    ask_parts(
        rt, alloc, catalogue, sessions, asks, each, &idle, chooser, gate,
    )
}

// How many lists have asks.
fn asking(asks: &[AskList]) -> usize {
    asks.iter().filter(|list| !list.is_empty()).count()
}

// The workers of each query, where so many sessions ask at once.
pub(crate) fn share_of(workers: u32, asking: usize) -> u32
    ensures { 1 ≤ result }
{
    let asking = u32::try_from(asking).unwrap_or(u32::MAX);
    (workers / asking.max(1)).max(1)
}

// Answers sessions, each query by so many workers: the first that asks and then the others, or half of them beside
// the other half where a worker is idle.
#[cycle(parts)]
fn ask_parts<R: Threads + Wait + Sync, C: Chooser + Sync, G: Gate + Sync>(
    rt: &R,
    alloc: Global,
    catalogue: &Catalogue,
    sessions: &mut [Session],
    asks: &[AskList],
    workers: u32,
    idle: &IdleWorkers,
    chooser: &C,
    gate: &G,
) -> Answers
    requires workers { 1 ≤ workers }
    requires may { AllMayTake catalogue.now sessions.old asks.now }
    requires typed { All (All (IsAsk (settings_of catalogue.now).schema)) asks.now }
    ensures taken { AllHaveTaken catalogue.now sessions.old sessions.new asks.now }
    ensures replied { IfOk result (λ answers. AllReplied (settings_of catalogue.now).schema sessions.old sessions.new asks.now answers.items) }
{
    if asks.len() <= 1 || asking(asks) <= 1 {
        return ask_in_turn(rt, alloc, catalogue, sessions, asks, workers, chooser, gate);
    }
    let at_once = idle.take();
    let most = if at_once { asks_of(asks) / 2 } else { 0 };
    let middle = middle(asks, most);
    let (front_asks, back_asks) = asks.split_at(middle);
    let (front, back) = sessions.split_at_mut(middle);
    let (answers, others) = ask_both(
        rt, alloc, catalogue, front, front_asks, back, back_asks, at_once, workers, idle, chooser,
        gate,
    );
    let mut all = answers?;
    let mut others = others?;
    all.append(&mut others)?;
    Ok(all)
}

// Answers two parts of sessions: at the same time, where a worker was taken for it, or one after the other.
#[cycle(parts)]
fn ask_both<R: Threads + Wait + Sync, C: Chooser + Sync, G: Gate + Sync>(
    rt: &R,
    alloc: Global,
    catalogue: &Catalogue,
    front: &mut [Session],
    front_asks: &[AskList],
    back: &mut [Session],
    back_asks: &[AskList],
    at_once: bool,
    workers: u32,
    idle: &IdleWorkers,
    chooser: &C,
    gate: &G,
) -> (Answers, Answers)
    requires some { (1 ≤ length front_asks.now) × (1 ≤ length back_asks.now) }
    requires workers { 1 ≤ workers }
    requires front { AllMayTake catalogue.now front.old front_asks.now }
    requires front_typed { All (All (IsAsk (settings_of catalogue.now).schema)) front_asks.now }
    requires back { AllMayTake catalogue.now back.old back_asks.now }
    requires back_typed { All (All (IsAsk (settings_of catalogue.now).schema)) back_asks.now }
    ensures front { AllHaveTaken catalogue.now front.old front.new front_asks.now }
    ensures front_answers { IfOk result.0 (λ answers. AllReplied (settings_of catalogue.now).schema front.old front.new front_asks.now answers.items) }
    ensures back { AllHaveTaken catalogue.now back.old back.new back_asks.now }
    ensures back_answers { IfOk result.1 (λ answers. AllReplied (settings_of catalogue.now).schema back.old back.new back_asks.now answers.items) }
{
    if !at_once {
        let answers = ask_parts(
            rt, alloc, catalogue, front, front_asks, workers, idle, chooser, gate,
        );
        let others = ask_parts(
            rt, alloc, catalogue, back, back_asks, workers, idle, chooser, gate,
        );
        return (answers, others);
    }
    let parts = TwoParts::new();
    fork_both(
        rt,
        &mut || -> Answers
            requires sync { IsSync R.row × IsSync C.row × IsSync G.row }
            requires workers { 1 ≤ workers }
            requires may { AllMayTake catalogue.now front.now front_asks.now }
            requires typed { All (All (IsAsk (settings_of catalogue.now).schema)) front_asks.now }
            ensures taken { AllHaveTaken catalogue.entry.now front.entry.now front.exit.now front_asks.entry.now }
            ensures answers { IfOk result (λ answers. AllReplied (settings_of catalogue.entry.now).schema front.entry.now front.exit.now front_asks.entry.now answers.items) }
        {
            let answers = ask_parts(
                rt, alloc, catalogue, front, front_asks, workers, idle, chooser, gate,
            );
            idle.end(&parts);
            answers
        },
        &mut || -> Answers
            requires sync { IsSync R.row × IsSync C.row × IsSync G.row }
            requires workers { 1 ≤ workers }
            requires may { AllMayTake catalogue.now back.now back_asks.now }
            requires typed { All (All (IsAsk (settings_of catalogue.now).schema)) back_asks.now }
            ensures taken { AllHaveTaken catalogue.entry.now back.entry.now back.exit.now back_asks.entry.now }
            ensures answers { IfOk result (λ answers. AllReplied (settings_of catalogue.entry.now).schema back.entry.now back.exit.now back_asks.entry.now answers.items) }
        {
            let answers = ask_parts(
                rt, alloc, catalogue, back, back_asks, workers, idle, chooser, gate,
            );
            idle.end(&parts);
            answers
        },
    )
}

// How many sessions are in front: the first that asks, and those after it while at most so many asks are in front.
// Where two sessions ask, one of them is behind.
pub(crate) fn middle(asks: &[AskList], most: usize) -> usize
    requires { 2 ≤ length asks.now }
    ensures { (1 ≤ result) × (result < length asks.now) }
{
    let last = asks.len() - 1;
    let mut taken = 0_usize;
    for (place, list) in asks.iter().enumerate() {
        let with = taken.saturating_add(list.len());
        if taken > 0 && with > most {
            return place.max(1).min(last);
        }
        taken = with;
    }
    last
}

// How many asks there are.
pub(crate) fn asks_of(asks: &[AskList]) -> usize {
    let mut all = 0_usize;
    for list in asks {
        all = all.saturating_add(list.len());
    }
    all
}

// Answers sessions one after the other.
fn ask_in_turn<R: Threads + Wait + Sync, C: Chooser + Sync, G: Gate + Sync>(
    rt: &R,
    alloc: Global,
    catalogue: &Catalogue,
    sessions: &mut [Session],
    asks: &[AskList],
    workers: u32,
    chooser: &C,
    gate: &G,
) -> Answers
    requires workers { 1 ≤ workers }
    requires may { AllMayTake catalogue.now sessions.old asks.now }
    requires typed { All (All (IsAsk (settings_of catalogue.now).schema)) asks.now }
    ensures taken { AllHaveTaken catalogue.now sessions.old sessions.new asks.now }
    ensures replied { IfOk result (λ answers. AllReplied (settings_of catalogue.now).schema sessions.old sessions.new asks.now answers.items) }
{
    let mut all = Vec::new(alloc);
    for place in 0..asks.len() {
        let answers = ask_session(
            rt,
            alloc,
            catalogue,
            &mut sessions[place],
            &asks[place],
            workers,
            chooser,
            gate,
        )?;
        all.push(answers)?;
    }
    Ok(all)
}
