ghost use Rattle.std.specs.Prelude.{◌≤◌, [], ◌∷◌, All, IfOk, length};
ghost use Rattle.session_asks.specs.Replies.{IsAsk};
ghost use Rattle.session_asks.specs.Seats.{HasTaken, IsReplied, MayTake};
ghost use Rattle.version_catalog.specs.Seats.{settings_of};

use crate::{AskLine, AskList};
use apply_extract::answer;
use rack_aggregate::{Gate, Point};
use replica_pick::Chooser;
use reply_text::{Answer, AnswerList};
use std::alloc::{AllocError, Global};
use std::sync::Wait;
use std::thread::Threads;
use version_catalog::{Catalogue, Session};

/// Answers the asks of a session one after the other, each over the newest version at its pin: by a reply, or
/// by saying that it is out of memory. The shards of a query are asked by at most as many threads as there are workers.
pub fn ask_session<R: Threads + Wait + Sync, C: Chooser + Sync, G: Gate + Sync>(
    rt: &R,
    alloc: Global,
    catalogue: &Catalogue,
    session: &mut Session,
    asks: &AskList,
    workers: u32,
    chooser: &C,
    gate: &G,
) -> Result<AnswerList, AllocError>
    requires workers { 1 ≤ workers }
    requires may { MayTake catalogue.now (length asks.now) session.old }
    requires typed { All (IsAsk (settings_of catalogue.now).schema) asks.now }
    ensures taken { HasTaken catalogue.now (length asks.now) session.old session.new }
    ensures replied { IfOk result (λ answers. IsReplied (settings_of catalogue.now).schema session.old session.new asks.now answers) }
{
    let mut answers = AnswerList::new(alloc);
    for ask in asks.as_slice() {
        let answer = ask_one(rt, alloc, catalogue, session, ask, workers, chooser, gate);
        answers.push(answer)?;
    }
    Ok(answers)
}

// Answers one ask.
fn ask_one<R: Threads + Wait + Sync, C: Chooser + Sync, G: Gate + Sync>(
    rt: &R,
    alloc: Global,
    catalogue: &Catalogue,
    session: &mut Session,
    ask: &AskLine,
    workers: u32,
    chooser: &C,
    gate: &G,
) -> Answer
    requires may { MayTake catalogue.now 1 session.old }
    requires typed { IsAsk (settings_of catalogue.now).schema ask.now }
    ensures taken { HasTaken catalogue.now 1 session.old session.new }
    ensures replied { IsReplied (settings_of catalogue.now).schema session.old session.new (ask.now ∷ []) (result ∷ []) }
{
    uni_table::laws::tables_are_kept();
    let Ok(pinned) = catalogue.pin(rt, session) else {
        return Answer::Memory(ask.line);
    };
    gate.at(rt, Point::Pinned(ask.line));
    let version = pinned.version();
    match answer(
        rt, alloc, version, &ask.query, ask.viewer, ask.limit, ask.line, workers, chooser, gate,
    ) {
        Ok(reply) => Answer::Reply(ask.line, reply),
        Err(_) => Answer::Memory(ask.line),
    }
}
