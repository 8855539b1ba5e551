//! Replies of several sessions while nothing is published.
ghost use Rattle.std.specs.Prelude.{◌≡◌, All};
ghost use Rattle.session_asks.specs.Replies.{IsAsk};
ghost use Rattle.version_catalog.specs.Seats.{IsFeederOf};

use super::{Opened, are_due, is_fed, open, read_lists, sessions_for};
use crate::{AskList, ask_sessions};
use rack_aggregate::OpenGate;
use replica_pick::TurnChooser;
use reply_text::AnswerList;
use std::alloc::Global;
use std::sync::Wait;
use std::test::Fail;
use std::thread::Threads;
use uni_table::Table;
use version_catalog::{Catalogue, Feeder};

const ROWS: &[u8] =
    b"entity user 1 5|entity user 2 9|entity user 3 9|entity user 4 1|entity photo 7 2|edge friend 1 2 public|edge friend 1 3 only|edge friend 2 4 in:friend:1|edge lives rome 2 public|edge lives rome 4 public|edge lives rieti 3 public|edge tagged 2 7 public|edge blocked 3 1 public";

// Asks of sessions, one of which asks nothing.
const ASKS: &[u8] =
    b"1 9 friend:1|2 9 lives:r*|1 1 (and lives:r* friend:1)|3 9 (apply friend: lives:rome);;4 9 (or lives:rome lives:rieti)|1 9 (apply tagged: friend:1)|9 2 (difference lives:r* friend:2);3 9 (weak-and (term friend:1 :optional-hits 1) lives:r*)|2 2 friend:2|1 9 tagged:2";

// Whether lists have the replies that they are due.
fn all_due(
    alloc: Global,
    table: &Table,
    publishes: u64,
    lists: &[AskList],
    answers: &[AnswerList],
) -> Option<bool>
    requires { All (All (IsAsk table.now.schema)) lists.now }
{
    for (place, asks) in lists.iter().enumerate() {
        if !are_due(alloc, table, publishes, asks, answers.get(place)?)? {
            return Some(false);
        }
    }
    Some(lists.len() == answers.len())
}

// Whether new sessions have the replies that they are due, by so many workers.
fn are_replied(
    rt: &(impl Threads + Wait + Sync),
    alloc: Global,
    catalogue: &Catalogue,
    feeder: &mut Feeder,
    workers: u32,
) -> Option<bool>
    requires { IsFeederOf catalogue.now feeder.old }
    ensures { IsFeederOf catalogue.now feeder.new }
{
    let lists = read_lists(alloc, feeder.table().schema(), ASKS)?;
    let lists = lists.as_slice();
    let mut sessions = sessions_for(alloc, catalogue, feeder, lists)?;
    let answers = ask_sessions(
        rt,
        alloc,
        catalogue,
        sessions.as_mut_slice(),
        lists,
        workers.max(1),
        &TurnChooser,
        &OpenGate,
    );
    let answers = answers.ok()?;
    all_due(
        alloc,
        feeder.table(),
        feeder.publishes(),
        lists,
        answers.as_slice(),
    )
}

#[test]
fn by_few_and_many_workers(rt: HostRuntime) -> Result<(), Fail> {
    let Opened {
        catalogue,
        mut feeder,
    } = open(&rt, rt.alloc())?;
    assert!(rt; is_fed(&rt, &catalogue, &mut feeder, ROWS));
    for workers in [1, 4, 64] {
        let replied = are_replied(&rt, rt.alloc(), &catalogue, &mut feeder, workers);
        assert_eq!(rt; replied, Some(true));
    }
    Ok(())
}
