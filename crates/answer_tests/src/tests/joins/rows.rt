//! Questions over a small table, each asked in every way.
use super::asked::{is_answered, nothing, read_question, version_of};
use crate::tests::{HEADER, ROWS, is_put};
use std::alloc::Global;
use std::sync::Wait;
use std::test::Fail;
use std::thread::Threads;
use uni_table::Table;

// Whether a question is answered over a table by one, two and many workers, and on one thread.
fn is_asked(
    rt: &(impl Threads + Wait + Sync),
    alloc: Global,
    table: &Table,
    text: &[u8],
) -> Option<bool> {
    let Some(question) = read_question(text) else {
        return None;
    };
    let version = version_of(alloc, table)?;
    is_answered(rt, alloc, &[1, 2, 64], table, &version, &question)
}

// A step is a change, or `ask` and a question.
fn is_met(
    rt: &(impl Threads + Wait + Sync),
    alloc: Global,
    table: &mut Table,
    step: &[u8],
) -> bool {
    match step.strip_prefix(b"ask ") {
        Some(text) => is_asked(rt, alloc, table, text) == Some(true),
        None => is_put(table, step),
    }
}

// Fails at the number of the first step that is not as it is to be.
fn follow(
    rt: &(impl Threads + Wait + Sync),
    alloc: Global,
    table: &mut Table,
    steps: &[u8],
) -> Result<(), Fail> {
    for (number, step) in steps.split(|byte| *byte == b'|').enumerate() {
        if !is_met(rt, alloc, table, step) {
            return Err(Fail::new(number));
        }
    }
    Ok(())
}

/// The small table.
pub(super) fn small(alloc: Global) -> Result<Table, Fail> {
    let mut table = nothing(alloc, HEADER)?;
    for (number, line) in ROWS.split(|byte| *byte == b'|').enumerate() {
        if !is_put(&mut table, line) {
            return Err(Fail::new(number));
        }
    }
    Ok(table)
}

fn answers(rt: &(impl Threads + Wait + Sync), alloc: Global, steps: &[u8]) -> Result<(), Fail> {
    let mut table = small(alloc)?;
    follow(rt, alloc, &mut table, steps)
}

const OPERATORS: &[u8] =
    b"ask 9 10 friend:1|ask 9 10 (and friend:1 lives:rome)|ask 9 10 (difference friend:1 lives:rome)|ask 9 10 (or friend:1 lives:rome)|ask 9 10 (weak-and (term friend:1 :optional-hits 1) lives:rome)|ask 9 10 (strong-or friend:1 (term lives:rome :optional-weight 1/2))|cut friend 1 5|ask 9 10 (weak-and (term friend:1 :optional-hits 1) lives:rome)|edge lives oslo 4 public|ask 9 10 (and (weak-and (term friend:1 :optional-hits 1) lives:rome) (or lives:oslo))|ask 9 10 (weak-and (term friend:1 :optional-weight 1/2) lives:rome)|entity user 7 80|edge friend 1 7 public|ask 9 10 (strong-or friend:1 (term lives:rome :optional-weight 1/2))|ask 9 10 lives:r*|ask 9 10 (and friend:1 lives:o*)|ask 9 10 (or lives:r* lives:o*)|ask 9 10 lives:x*|ask 9 10 friend:77";

// A joining edge that is hidden, then each whole lineage of 102, a cut that counts what is hidden, and an
// owner.
const JOINS: &[u8] =
    b"ask 9 10 (apply tagged: friend:1)|ask 9 10 (apply tagged: friend:1 :limit 1)|ask 9 10 (extract shows: (apply tagged: friend:1))|ask 9 10 (extract shows: (apply tagged: friend:1) :limit 1)|ask 9 10 (and (extract shows: tagged:5) (apply friend: (extract shows: tagged:3)))|edge tagged 3 102 only|ask 9 10 (apply tagged: friend:1)|edge friend 1 5 only|ask 9 10 (apply tagged: friend:1)|edge friend 1 5 public|edge tagged 5 102 only|ask 9 10 (apply tagged: friend:1)|ask 9 1 (apply tagged: friend:1)|ask 3 1 (apply tagged: friend:1)|ask 9 10 (apply friend: (apply friend: (apply friend: (apply friend: friend:1))))";

// A circle, a viewer who is denied, ranks that change, and a user who goes. Then a cut at each length.
const VIEWERS: &[u8] =
    b"edge friend 5 6 only|edge friend 1 2 in:friend:5|ask 6 10 friend:1|ask 9 10 friend:1|entity user 9 1|edge blocked 3 9 public|ask 9 10 friend:1|ask 1 10 friend:1|entity user 5 95|ask 1 10 friend:1|gone 3|ask 1 10 friend:1|ask 1 1 (or friend:1 lives:rome)|ask 1 2 (or friend:1 lives:rome)|ask 1 3 (or friend:1 lives:rome)|ask 1 4 (or friend:1 lives:rome)|ask 1 5 (or friend:1 lives:rome)|ask 1 5000 (or friend:1 lives:rome)";

#[test]
fn operators(rt: HostRuntime) -> Result<(), Fail> {
    answers(&rt, rt.alloc(), OPERATORS)
}

#[test]
fn joins(rt: HostRuntime) -> Result<(), Fail> {
    answers(&rt, rt.alloc(), JOINS)
}

#[test]
fn viewers(rt: HostRuntime) -> Result<(), Fail> {
    answers(&rt, rt.alloc(), VIEWERS)
}
