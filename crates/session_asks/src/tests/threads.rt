//! Sessions that ask while a feeder publishes. The gate holds each query, once its version is pinned, until as
//! many publishes were made as its line says.
ghost use Rattle.std.specs.Prelude.{◌≤◌, All, IfSome};
ghost use Rattle.session_asks.specs.Replies.{IsAsk};
ghost use Rattle.session_asks.specs.Seats.{AllMayTake};
ghost use Rattle.version_catalog.specs.Seats.{IsFeederOf, settings_of};

use super::{Opened, is_fed, open, read_ask, sessions_for};
use crate::{AskList, ask_sessions};
use rack_aggregate::{Gate, Point};
use replica_pick::TurnChooser;
use reply_text::{Answer, AnswerList};
use std::alloc::Global;
use std::sync::Wait;
use std::sync::atomic::{AtomicU64, Ordering};
use std::test::Fail;
use std::thread::{Threads, join, yield_now};
use uni_base::Rank;
use uni_schema::Schema;
use version_catalog::{Catalogue, Feeder, Session};

// How often the feeder publishes, and a session asks.
const PUBLISHES: u32 = 40;

// How many publishes were made.
#[derive(Drop)]
struct Paced {
    publishes: AtomicU64,
}

impl Gate for Paced {
    fn at<R: Wait>(&self, rt: &R, point: Point) {
        if let Point::Pinned(line) = point {
            for _ in rt.forever() {
                if self.publishes.load(Ordering::SeqCst) >= line {
                    break;
                }
                yield_now();
            }
        }
    }
}

// Publishes ranks that say the number of the publish.
fn publish_all<R: Wait>(
    rt: &R,
    alloc: Global,
    catalogue: &Catalogue,
    mut feeder: Feeder,
    paced: &Paced,
) -> Option<()>
    requires { IsFeederOf catalogue.now feeder }
{
    for number in 2..=PUBLISHES {
        let line = format!(in alloc; "entity user 2 {number}").ok()?;
        if !is_fed(rt, catalogue, &mut feeder, line.as_bytes()) {
            return None;
        }
        paced.publishes.store(number as u64, Ordering::SeqCst);
    }
    Some(())
}

// Publishes, and then holds no query any more.
fn feed<R: Wait>(
    rt: &R,
    alloc: Global,
    catalogue: &Catalogue,
    feeder: Feeder,
    paced: &Paced,
) -> Option<()>
    requires { IsFeederOf catalogue.now feeder }
{
    let published = publish_all(rt, alloc, catalogue, feeder, paced);
    paced.publishes.store(u64::MAX, Ordering::SeqCst);
    published
}

// As many asks as there are publishes, their lines counted from 1.
fn asks(alloc: Global, schema: &Schema) -> Option<AskList>
    ensures { IfSome result (λ asks. All (IsAsk schema.now) asks) }
{
    let mut asks = AskList::new(alloc);
    for line in 1..=PUBLISHES {
        let ask = read_ask(alloc, schema, line as u64, b"1 9 lives:rome")?;
        let Ok(()) = asks.push(ask) else {
            return None;
        };
    }
    Some(asks)
}

// The same for so many sessions.
fn lists(alloc: Global, schema: &Schema, sessions: u32) -> Option<Vec<AskList>>
    ensures { IfSome result (λ lists. All (All (IsAsk schema.now)) lists.items) }
{
    let mut lists = Vec::new(alloc);
    for _session in 0..sessions {
        let asks = asks(alloc, schema)?;
        let Ok(()) = lists.push(asks) else {
            return None;
        };
    }
    Some(lists)
}

// Whether replies have numbers that do not fall, and that are the ranks of their hits; each has the publishes
// that the query before it waited for.
fn rise(answers: &AnswerList) -> bool {
    let mut last = 1;
    for answer in answers.as_slice() {
        let Answer::Reply(line, reply) = answer else {
            return false;
        };
        let [hit] = reply.hits.as_slice() else {
            return false;
        };
        let number = reply.publishes;
        if number < last || number < line.saturating_sub(1) || hit.key.rank.0 as u64 != number {
            return false;
        }
        last = number;
    }
    answers.len() == PUBLISHES as usize
}

// Whether sessions have such replies.
fn watch<R: Threads + Wait + Sync>(
    rt: &R,
    alloc: Global,
    catalogue: &Catalogue,
    mut sessions: Vec<Session>,
    lists: &[AskList],
    paced: &Paced,
) -> bool
    requires may { AllMayTake catalogue.now sessions.items lists.now }
    requires typed { All (All (IsAsk (settings_of catalogue.now).schema)) lists.now }
{
    let answers = ask_sessions(
        rt,
        alloc,
        catalogue,
        sessions.as_mut_slice(),
        lists,
        5,
        &TurnChooser,
        paced,
    );
    match answers {
        Ok(answers) => answers.len() == lists.len() && answers.iter().all(rise),
        Err(_) => false,
    }
}

// Whether both go well at once.
fn feed_and_watch<R: Threads + Wait + Sync>(
    rt: &R,
    alloc: Global,
    catalogue: &Catalogue,
    feeder: Feeder,
    sessions: Vec<Session>,
    lists: &[AskList],
    paced: &Paced,
) -> bool
    requires feeder { IsFeederOf catalogue.now feeder }
    requires may { AllMayTake catalogue.now sessions.items lists.now }
    requires typed { All (All (IsAsk (settings_of catalogue.now).schema)) lists.now }
{
    let (fed, watched) = join(
        rt,
        || -> Option<()>
            requires { IsFeederOf catalogue.now feeder }
        { feed(rt, alloc, catalogue, feeder, paced) },
        || -> bool
            requires may { AllMayTake catalogue.now sessions.items lists.now }
            requires typed { All (All (IsAsk (settings_of catalogue.now).schema)) lists.now }
        { watch(rt, alloc, catalogue, sessions, lists, paced) },
    );
    fed.is_some() && watched
}

// The same for three sessions, once a first version is published.
fn are_watched<R: Threads + Wait + Sync>(
    rt: &R,
    alloc: Global,
    catalogue: &Catalogue,
    mut feeder: Feeder,
) -> Option<bool>
    requires { IsFeederOf catalogue.now feeder }
{
    let lists = lists(alloc, feeder.table().schema(), 3)?;
    let lists = lists.as_slice();
    let sessions = sessions_for(alloc, catalogue, &mut feeder, lists)?;
    let paced = Paced {
        publishes: AtomicU64::new(1),
    };
    Some(feed_and_watch(rt, alloc, catalogue, feeder, sessions, lists, &paced))
}

#[test]
fn while_a_feeder_publishes(rt: HostRuntime) -> Result<(), Fail> {
    let Opened {
        catalogue,
        mut feeder,
    } = open(&rt, rt.alloc())?;
    assert!(rt;
        is_fed(
            &rt,
            &catalogue,
            &mut feeder,
            b"entity user 2 1|edge lives rome 2 public"
        )
    );
    let watched = are_watched(&rt, rt.alloc(), &catalogue, feeder);
    assert_eq!(rt; watched, Some(true));
    Ok(())
}
