//! Questions of every kind over stacks of many layers, since each change is published by itself.
ghost use Rattle.std.specs.Prelude.{◌≡◌, IfSome};
ghost use Rattle.apply_extract.specs.Conditions.{IsStanding};
ghost use Rattle.session_asks.specs.Replies.{IsAsk};
ghost use Rattle.turn_lock.specs.Seats.{SeatRests};
ghost use Rattle.version_catalog.specs.Seats.{IsFeederOf, IsSessionOf, settings_of};

use super::{MANY, Opened, are_due, are_same, is_fed, open, read_ask, read_asks};
use crate::{AskLine, ask_session};
use apply_extract::answer_here;
use rack_aggregate::OpenGate;
use replica_pick::{Chooser, FirstChooser, TurnChooser};
use shard_index::Version;
use std::alloc::Global;
use std::process::Abort;
use std::sync::Wait;
use std::test::Fail;
use std::thread::Threads;
use uni_base::cut_at;
use uni_meaning::{Reply, plain_answer};
use version_catalog::{Catalogue, Feeder, Pinned, Session};

// Always the last replica.
struct LastChooser;

impl Chooser for LastChooser {
    fn pick(&self, _vertical: u16, _shard: u32, _turn: u64, replicas: u32) -> u32 {
        replicas - 1
    }
}

// Whether a session has the reply that it is due of what is published, by so many workers, where replicas
// are chosen so.
fn is_replied<C: Chooser + Sync>(
    rt: &(impl Threads + Wait + Sync),
    alloc: Global,
    catalogue: &Catalogue,
    feeder: &Feeder,
    session: &mut Session,
    text: &[u8],
    workers: u32,
    chooser: &C,
) -> Option<bool>
    requires feeder { IsFeederOf catalogue.now feeder.now }
    requires session { IsSessionOf catalogue.now session.old × SeatRests session.old }
    ensures { IsSessionOf catalogue.now session.new × SeatRests session.new }
{
    let asks = read_asks(alloc, feeder.table().schema(), text)?;
    if session.turns() >= MANY || asks.len() > 1000 {
        return None;
    }
    let answers = ask_session(
        rt,
        alloc,
        catalogue,
        session,
        &asks,
        workers.max(1),
        chooser,
        &OpenGate,
    );
    are_due(
        alloc,
        feeder.table(),
        feeder.publishes(),
        &asks,
        &answers.ok()?,
    )
}

// Whether it has it, whichever replicas are read.
fn is_replied_by(
    rt: &(impl Threads + Wait + Sync),
    alloc: Global,
    catalogue: &Catalogue,
    feeder: &Feeder,
    session: &mut Session,
    text: &[u8],
    workers: u32,
) -> Option<bool>
    requires feeder { IsFeederOf catalogue.now feeder.now }
    requires session { IsSessionOf catalogue.now session.old × SeatRests session.old }
    ensures { IsSessionOf catalogue.now session.new × SeatRests session.new }
{
    let first = is_replied(
        rt,
        alloc,
        catalogue,
        feeder,
        session,
        text,
        workers,
        &FirstChooser,
    )?;
    let turn = is_replied(
        rt,
        alloc,
        catalogue,
        feeder,
        session,
        text,
        workers,
        &TurnChooser,
    )?;
    let last = is_replied(
        rt,
        alloc,
        catalogue,
        feeder,
        session,
        text,
        workers,
        &LastChooser,
    )?;
    Some(first && turn && last)
}

// The newest version, if there is memory for its pin and the session has not had too many.
fn pinned<R: Wait>(rt: &R, catalogue: &Catalogue, session: &mut Session) -> Option<Pinned>
    requires { IsSessionOf catalogue.now session.old × SeatRests session.old }
    ensures session { IsSessionOf catalogue.now session.new × SeatRests session.new }
    ensures standing { IfSome result (λ version. IsStanding version) }
    ensures schema { IfSome result (λ version. version.schema ≡ (settings_of catalogue.now).schema) }
{
    // The table of a journal keeps what tables keep.
    uni_table::laws::tables_are_kept();
    if session.turns() >= MANY {
        return None;
    }
    catalogue.pin(rt, session).ok()
}

// Whether a version has a reply to an ask on one thread, whichever replicas are read.
fn is_answered_here(alloc: Global, version: &Version, ask: &AskLine, due: &Reply) -> Option<bool>
    requires standing { IsStanding version.now }
    requires typed { IsAsk version.now.schema ask.now }
{
    let AskLine {
        line,
        viewer,
        limit,
        query,
    } = ask;
    let first = answer_here(alloc, version, query, *viewer, *limit, *line, &FirstChooser).ok()?;
    let turn = answer_here(alloc, version, query, *viewer, *limit, *line, &TurnChooser).ok()?;
    let last = answer_here(alloc, version, query, *viewer, *limit, *line, &LastChooser).ok()?;
    Some(are_same(due, &first) && are_same(due, &turn) && are_same(due, &last))
}

// Whether a session's pin has the reply that is due on one thread.
fn is_replied_here<R: Wait>(
    rt: &R,
    alloc: Global,
    catalogue: &Catalogue,
    feeder: &Feeder,
    session: &mut Session,
    text: &[u8],
) -> Option<bool>
    requires feeder { IsFeederOf catalogue.now feeder.now }
    requires session { IsSessionOf catalogue.now session.old × SeatRests session.old }
    ensures { IsSessionOf catalogue.now session.new × SeatRests session.new }
{
    let table = feeder.table();
    let ask = read_ask(alloc, table.schema(), 1, text)?;
    let due = plain_answer(
        alloc,
        table,
        feeder.publishes(),
        &ask.query,
        ask.viewer,
        ask.limit,
    );
    let due = due.ok()?;
    let pinned = pinned(rt, catalogue, session)?;
    is_answered_here(alloc, pinned.version(), &ask, &due)
}

// Whether a question is answered by one, two and many workers, and on one thread.
fn is_asked(
    rt: &(impl Threads + Wait + Sync),
    alloc: Global,
    catalogue: &Catalogue,
    feeder: &Feeder,
    session: &mut Session,
    text: &[u8],
) -> bool
    requires feeder { IsFeederOf catalogue.now feeder.now }
    requires session { IsSessionOf catalogue.now session.old × SeatRests session.old }
    ensures { IsSessionOf catalogue.now session.new × SeatRests session.new }
{
    for workers in [1, 2, 64] {
        let replied = is_replied_by(rt, alloc, catalogue, feeder, session, text, workers);
        if replied != Some(true) {
            return false;
        }
    }
    is_replied_here(rt, alloc, catalogue, feeder, session, text) == Some(true)
}

// A step is a change, which is published, or `ask` and a question.
fn is_met(
    rt: &(impl Threads + Wait + Sync),
    alloc: Global,
    catalogue: &Catalogue,
    feeder: &mut Feeder,
    session: &mut Session,
    step: &[u8],
) -> bool
    requires feeder { IsFeederOf catalogue.now feeder.old }
    requires session { IsSessionOf catalogue.now session.old × SeatRests session.old }
    ensures feeder { IsFeederOf catalogue.now feeder.new }
    ensures session { IsSessionOf catalogue.now session.new × SeatRests session.new }
{
    match step.strip_prefix(b"ask ") {
        Some(text) => is_asked(rt, alloc, catalogue, feeder, session, text),
        None => is_fed(rt, catalogue, feeder, step),
    }
}

// Eight entities, and their edges.
const ROWS: &[u8] =
    b"entity user 1 50|entity user 2 90|entity user 3 20|entity user 4 10|entity user 5 70|entity user 6 60|entity photo 101 5|entity photo 102 9|edge friend 1 2 public|edge friend 1 3 only|edge friend 1 6 public|edge friend 1 5 public|edge lives rome 2 public|edge lives rome 4 public|edge lives rome 5 public|edge lives rome 6 public|edge tagged 2 101 public|edge tagged 3 102 public|edge tagged 5 102 public|edge shows 102 4 public|edge shows 102 5 public|edge shows 102 1 public|entity user 3 90|cut friend 1 6|edge friend 1 3 public|cut shows 102 5";

// Lists and words with a prefix, while edges come and go.
const LISTS: &[u8] =
    b"ask 9 10 friend:1|ask 9 10 (and friend:1 lives:rome)|ask 9 10 (difference friend:1 lives:rome)|ask 9 10 (or friend:1 lives:rome)|ask 9 10 (weak-and (term friend:1 :optional-hits 1) lives:rome)|ask 9 10 (strong-or friend:1 (term lives:rome :optional-weight 1/2))|cut friend 1 5|ask 9 10 (weak-and (term friend:1 :optional-hits 1) lives:rome)|edge lives oslo 4 public|ask 9 10 (and (weak-and (term friend:1 :optional-hits 1) lives:rome) (or lives:oslo))|ask 9 10 (weak-and (term friend:1 :optional-weight 1/2) lives:rome)|entity user 7 80|edge friend 1 7 public|ask 9 10 (strong-or friend:1 (term lives:rome :optional-weight 1/2))|ask 9 10 lives:r*|ask 9 10 (and friend:1 lives:o*)|ask 9 10 lives:x*";

// Joins, while edges of theirs are hidden.
const JOINS: &[u8] =
    b"ask 9 10 (apply tagged: friend:1)|ask 9 10 (apply tagged: friend:1 :limit 1)|ask 9 10 (extract shows: (apply tagged: friend:1))|ask 9 10 (extract shows: (apply tagged: friend:1) :limit 1)|ask 9 10 (and (extract shows: tagged:5) (apply friend: (extract shows: tagged:3)))|edge tagged 3 102 only|ask 9 10 (apply tagged: friend:1)|edge friend 1 5 only|ask 9 10 (apply tagged: friend:1)|edge friend 1 5 public|edge tagged 5 102 only|ask 9 10 (apply tagged: friend:1)|ask 9 1 (apply tagged: friend:1)|ask 3 1 (apply tagged: friend:1)|ask 9 10 (apply friend: (apply friend: (apply friend: (apply friend: friend:1))))";

// A circle, a viewer who is denied, a rank that changes, and a user who goes.
const VIEWERS: &[u8] =
    b"edge friend 5 6 only|edge friend 1 2 in:friend:5|ask 6 10 friend:1|ask 9 10 friend:1|entity user 9 1|edge blocked 3 9 public|ask 9 10 friend:1|ask 1 10 friend:1|entity user 5 95|ask 1 10 friend:1|gone 3|ask 1 10 friend:1|ask 1 1 (or friend:1 lives:rome)|ask 1 3 (or friend:1 lives:rome)|ask 1 5000 (or friend:1 lives:rome)";

// Meets all steps, which bars part.
fn meet(
    rt: &(impl Abort + Threads + Wait + Sync),
    alloc: Global,
    catalogue: &Catalogue,
    feeder: &mut Feeder,
    session: &mut Session,
    steps: &[u8],
)
    requires feeder { IsFeederOf catalogue.now feeder.old }
    requires session { IsSessionOf catalogue.now session.old × SeatRests session.old }
    ensures feeder { IsFeederOf catalogue.now feeder.new }
    ensures session { IsSessionOf catalogue.now session.new × SeatRests session.new }
{
    let mut rest = steps;
    for number in 0..steps.len() {
        let (step, others) = cut_at(rest, b'|').unwrap_or((rest, b""));
        let met = is_met(rt, alloc, catalogue, feeder, session, step);
        assert!(rt; met, "at {number}");
        if others.is_empty() {
            break;
        }
        rest = others;
    }
}

// Feeds the rows, and then meets the steps of a test.
fn follow(
    rt: &(impl Abort + Threads + Wait + Sync),
    alloc: Global,
    steps: &[u8],
) -> Result<(), Fail> {
    let Opened {
        catalogue,
        mut feeder,
    } = open(rt, alloc)?;
    if feeder.sessions() > 100 {
        return Err("too many sessions")?;
    }
    let mut session = catalogue.session(&mut feeder);
    meet(rt, alloc, &catalogue, &mut feeder, &mut session, ROWS);
    meet(rt, alloc, &catalogue, &mut feeder, &mut session, steps);
    Ok(())
}

#[test]
fn lists(rt: HostRuntime) -> Result<(), Fail> {
    follow(&rt, rt.alloc(), LISTS)
}

#[test]
fn joins(rt: HostRuntime) -> Result<(), Fail> {
    follow(&rt, rt.alloc(), JOINS)
}

#[test]
fn viewers(rt: HostRuntime) -> Result<(), Fail> {
    follow(&rt, rt.alloc(), VIEWERS)
}
