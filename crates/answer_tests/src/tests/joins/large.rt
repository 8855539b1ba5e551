//! Large questions, and questions over a large table.
ghost use Rattle.std.specs.Prelude.{◌≡◌};
ghost use Rattle.uni_schema.specs.Schema.{Declarations};
ghost use Rattle.uni_table.specs.Commands.{IsDeclared};
ghost use Rattle.apply_extract.specs.Conditions.{IsStanding};

use super::asked::{Question, is_answered, nothing, read_question, version_of};
use super::rows::small;
use crate::tests::{HEADER, is_put};
use feed_reader::{FeedLine, read_feed_line};
use shard_index::Version;
use std::alloc::{AllocError, Global};
use std::sync::Wait;
use std::test::Fail;
use std::thread::Threads;
use uni_base::EntityId;
use uni_table::{Command, Table};

// How many friends user 1 of a large table has, and of a larger one.
const FRIENDS: u64 = 6_000;

const MOST_FRIENDS: u64 = 100_000;

// What opens one of the four lists of the widest query.
fn opening(number: u64) -> &'static [u8] {
    match number {
        0 => b"(or (weak-and",
        63 => b") (strong-or",
        126 => b") (or",
        189 => b") (and",
        _ => b"",
    }
}

// A term of the widest query, with the marks that its list may have.
fn term(number: u64) -> &'static [u8] {
    match (number / 63, number % 4) {
        (0, 0) => b" (term friend:1 :optional-hits 9)",
        (1, 0) => b" (term friend:1 :optional-weight 1/2)",
        (_, 1) => b" lives:r*",
        _ => b" lives:rome",
    }
}

// A query of 256 nodes, which is the greatest count: four lists in a list, and 251 terms.
fn widest(alloc: Global) -> Result<Vec<u8>, AllocError> {
    let mut text = Vec::new(alloc);
    for number in 0..251u64 {
        text.extend_from_slice(opening(number))?;
        text.extend_from_slice(term(number))?;
    }
    text.extend_from_slice(b"))")?;
    Ok(text)
}

// Whether a query is answered over a table for ten hits.
fn is_widest_answered(
    rt: &(impl Threads + Wait + Sync),
    alloc: Global,
    table: &Table,
    text: &[u8],
) -> Option<bool> {
    let version = version_of(alloc, table)?;
    let question = Question {
        viewer: EntityId::new(9)?,
        limit: 10,
        text,
    };
    is_answered(rt, alloc, &[2], table, &version, &question)
}

#[test]
fn the_greatest_count_of_nodes(rt: HostRuntime) -> Result<(), Fail> {
    let table = small(rt.alloc())?;
    let text = widest(rt.alloc())?;
    assert!(rt; is_widest_answered(&rt, rt.alloc(), &table, text.as_slice()) == Some(true));
    Ok(())
}

// A user whom user 1 has for a friend, and who has one.
fn befriended(alloc: Global, table: &mut Table, id: u64) -> Result<bool, AllocError> {
    let other = id / 2 + 1;
    let entity = format!(in alloc; "entity user {id} {other}")?;
    let to = format!(in alloc; "edge friend 1 {id} public")?;
    let from = format!(in alloc; "edge friend {id} {other} public")?;
    let lives = format!(in alloc; "edge lives rome {id} only")?;
    Ok(
        is_put(table, entity.as_bytes())
            && is_put(table, to.as_bytes())
            && is_put(table, from.as_bytes())
            && (id % 3 != 0 || is_put(table, lives.as_bytes())),
    )
}

// Whether a table takes user 1 with friends, each of whom has a friend.
fn takes_hub(alloc: Global, table: &mut Table) -> bool {
    if !is_put(table, b"entity user 1 7") {
        return false;
    }
    for friend in 0..FRIENDS {
        if befriended(alloc, table, friend + 2) != Ok(true) {
            return false;
        }
    }
    is_put(table, b"edge friend 3 1 public")
}

fn hub(alloc: Global) -> Result<Table, Fail> {
    let mut table = nothing(alloc, HEADER)?;
    if !takes_hub(alloc, &mut table) {
        return Err("a row is refused")?;
    }
    Ok(table)
}

// A change of a user, or of an edge to one, told of another user.
fn told_of(command: &Command, id: EntityId) -> Command
    ensures { (schema : Declarations) → IsDeclared schema command.now → IsDeclared schema result }
{
    match *command {
        Command::Entity { vertical, rank, .. } => Command::Entity { vertical, id, rank },
        Command::Edge {
            type_no,
            key,
            audience,
            until,
            ..
        } => Command::Edge {
            type_no,
            key,
            target: id,
            audience,
            until,
        },
        other => other,
    }
}

// Whether a table takes a change of each of many users.
fn are_put(table: &mut Table, line: &[u8]) -> bool {
    let Ok(FeedLine::Change(command)) = read_feed_line(table.schema(), line) else {
        return false;
    };
    for number in 0..MOST_FRIENDS {
        let Some(id) = EntityId::new(number + 2) else {
            return false;
        };
        if table.put(&told_of(&command, id)).is_err() {
            return false;
        }
    }
    true
}

// A table of user 1 with many more friends, and one of these with a friend.
fn large_hub(alloc: Global) -> Result<Table, Fail> {
    let mut table = nothing(alloc, HEADER)?;
    let is_whole = is_put(&mut table, b"entity user 1 7")
        && are_put(&mut table, b"entity user 2 7")
        && are_put(&mut table, b"edge friend 1 2 public")
        && is_put(&mut table, b"edge friend 2 3 public");
    if !is_whole {
        return Err("a row is refused")?;
    }
    Ok(table)
}

// The hub alone, with others, and on the way to its friends; then joins by a thousand and by all.
const AT_THE_HUB: &[u8] =
    b"9 10 friend:1|9 5000 (and friend:1 lives:rome)|9 100 (apply friend: friend:3)|9 5000 (apply friend: friend:1 :limit 1000)|9 10 (apply friend: friend:1 :limit 5000)";

// The large hub alone, and with one who has a friend of it.
const AT_THE_LARGE_HUB: &[u8] = b"9 10 friend:1|9 5000 (and friend:1 friend:2)";

// Whether a question of the large table is answered, on one thread and by two workers.
fn is_asked(
    rt: &(impl Threads + Wait + Sync),
    alloc: Global,
    table: &Table,
    version: &Version,
    text: &[u8],
) -> Option<bool>
    requires standing { IsStanding version.now }
    requires same { version.now.schema ≡ table.now.schema }
{
    let Some(question) = read_question(text) else {
        return None;
    };
    is_answered(rt, alloc, &[2], table, version, &question)
}

// Whether all questions are answered over a table. Fails at the number of the first that is not.
fn are_asked(
    rt: &(impl Threads + Wait + Sync),
    alloc: Global,
    table: &Table,
    questions: &[u8],
) -> Result<(), Fail> {
    let version = version_of(alloc, table).ok_or("no version")?;
    for (number, text) in questions.split(|byte| *byte == b'|').enumerate() {
        if is_asked(rt, alloc, table, &version, text) != Some(true) {
            return Err(Fail::new(number));
        }
    }
    Ok(())
}

#[test]
fn a_hub(rt: HostRuntime) -> Result<(), Fail> {
    let table = hub(rt.alloc())?;
    are_asked(&rt, rt.alloc(), &table, AT_THE_HUB)
}

#[test]
fn a_large_hub(rt: HostRuntime) -> Result<(), Fail> {
    let table = large_hub(rt.alloc())?;
    are_asked(&rt, rt.alloc(), &table, AT_THE_LARGE_HUB)
}
