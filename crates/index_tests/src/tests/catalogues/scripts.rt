//! Scripts, with a look at each stack after each step.
ghost use Rattle.std.specs.Prelude.{◌≤◌, IfSome};

use super::Opened;
use crate::tests::ROWS;
use crate::tests::alike::are_alike;
use shard_index::{ShardIndex, Version};
use std::alloc::Global;
use std::sync::Wait;
use std::test::Fail;
use std::thread::Threads;
use uni_base::{Fields, Limits, read_between};
use version_catalog::PublishRefusal;

// `layers`, `newest` and `entries` have a number for each stack: its layers, the entries of the newest one, and
// those of all.
const COMPACTS: &[u8] =
    b"layers 2 2 2 2 2;newest 7 7 6 6 6;entries 7 7 6 6 6;publish 2;layers 3 3 3 3 3;newest 0 0 0 0 0;entries 7 7 6 6 6;compact 0 0 1 2;layers 3 1 3 3 3;newest 0 7 0 0 0;entries 7 7 6 6 6;publish 3;layers 4 2 4 4 4;newest 0 0 0 0 0;entries 7 7 6 6 6;compact 0 0 1 3;layers 4 1 4 4 4;entries 7 7 6 6 6;compact 1 0 0 3;layers 4 1 4 4 1;entries 7 7 6 6 6;compact 0 0 0 3;layers 1 1 4 4 1;entries 7 7 6 6 6;compact 0 1 0 3;layers 1 1 1 4 1;entries 7 7 6 6 6;compact 0 1 1 3;layers 1 1 1 1 1;newest 7 7 6 6 6;entries 7 7 6 6 6";

const TIDIES: &[u8] =
    b"publish 2;layers 3 3 3 3 3;entries 7 7 6 6 6;publish 3;layers 4 4 4 4 4;entries 7 7 6 6 6;publish 4;layers 5 5 5 5 5;entries 7 7 6 6 6;publish 5;layers 6 6 6 6 6;entries 7 7 6 6 6;publish 6;layers 7 7 7 7 7;entries 7 7 6 6 6;publish 7;layers 8 8 8 8 8;entries 7 7 6 6 6;publish 8;layers 9 9 9 9 9;newest 0 0 0 0 0;entries 7 7 6 6 6;compact 0 0 0 8;layers 1 9 9 9 9;entries 7 7 6 6 6;compact 0 1 0 8;layers 1 9 1 9 9;entries 7 7 6 6 6;compact 1 0 0 8;layers 1 9 1 9 1;newest 7 0 6 0 6;entries 7 7 6 6 6";

// All stacks at once, by so many workers, after so many publishes.
const TOGETHER: &[u8] =
    b"publish 2;layers 3 3 3 3 3;all 1 2;layers 1 1 1 1 1;publish 3;publish 4;compact 0 0 1 4;layers 3 1 3 3 3;all 2 4;layers 1 1 1 1 1;newest 7 7 6 6 6;entries 7 7 6 6 6;entity user 5 95;gone 3;publish 5;all 64 5;layers 1 1 1 1 1";

// An edge is cut, an entity goes and comes at another rank, and edges end, with compactions in between.
const CHANGES: &[u8] =
    b"entity user 5 95;publish 2;newest 0 0 5 5 0;entries 7 7 11 11 6;compact 0 1 1 2;layers 3 3 3 1 3;entries 7 7 11 6 6;gone 3;edge friend 1 4 public until 4;publish 3;entity user 3 9;edge friend 1 3 only;publish 4;compact 0 0 0 4;cut shows 102 4;publish 5;newest 0 0 0 0 1;publish 6";

// The numbers of a step.
fn number(fields: &mut Fields<'_>) -> Option<u64>
    ensures { IfSome result (λ n. n ≤ 1000) }
{
    read_between(fields.next()?, 0, 1000)
}

// The entries of all layers of a stack.
fn all_entries(stack: &ShardIndex) -> u64 {
    let mut sum: u64 = 0;
    for layer_no in 0..stack.layers() {
        sum = sum.saturating_add(stack.layer_entries(layer_no));
    }
    sum
}

// What is to be counted of a stack: its layers, or the entries of all, or of its newest one.
fn count(version: &Version, stack_no: usize, word: &[u8]) -> Option<u64> {
    let stack = version.stacks().get(stack_no)?;
    if word == b"layers".as_slice() {
        return Some(stack.layers() as u64);
    }
    if word == b"entries".as_slice() {
        return Some(all_entries(stack));
    }
    let newest = stack.layers().checked_sub(1)?;
    Some(stack.layer_entries(newest))
}

// Whether a word says that stacks are counted.
fn counts(word: &[u8]) -> bool {
    word == b"layers".as_slice() || word == b"entries".as_slice() || word == b"newest".as_slice()
}

// Whether each stack has the count that is said.
fn is_counted(version: &Version, word: &[u8], fields: &mut Fields<'_>) -> Option<bool> {
    for stack_no in 0..version.stacks().len() {
        if number(fields)? != count(version, stack_no, word)? {
            return Some(false);
        }
    }
    Some(true)
}

// Whether the newest version reads like one that no layers lead to.
pub(super) fn is_newest_read<R: Wait>(rt: &R, alloc: Global, opened: &mut Opened) -> Option<bool> {
    let pinned = opened.pin(rt)?;
    let publishes = pinned.version().publishes();
    let rebuilt = Version::of_table(alloc, opened.feeder.table(), publishes).ok()?;
    are_alike(alloc, pinned.version(), &rebuilt)
}

fn is_compacted<R: Wait>(rt: &R, opened: &mut Opened, fields: &mut Fields<'_>) -> Option<bool> {
    let vertical = number(fields)? as u16;
    let shard = number(fields)? as u32;
    let replica = number(fields)? as u32;
    Some(opened.compact(rt, vertical, shard, replica)? == number(fields)?)
}

// Whether all stacks are compacted by so many workers: each has one layer in the version after so many
// publishes.
fn are_compacted<R: Threads + Wait + Sync>(
    rt: &R,
    alloc: Global,
    opened: &mut Opened,
    fields: &mut Fields<'_>,
) -> Option<bool> {
    let workers = number(fields)? as u32;
    let publishes = number(fields)?;
    let pinned = opened.compact_all(rt, alloc, workers)?;
    let version = pinned.version();
    let have_one_layer = version.stacks().iter().all(|stack| stack.layers() == 1);
    Some(version.publishes() == publishes && have_one_layer)
}

// Makes a step: a publish, a compaction, a look, or a change. After a publish and a compaction the newest
// version reads like one that no layers lead to.
fn is_made<R: Threads + Wait + Sync>(
    rt: &R,
    alloc: Global,
    opened: &mut Opened,
    step: &[u8],
) -> Option<bool> {
    let mut fields = Fields::of(step);
    let word = fields.next()?;
    if word == b"publish".as_slice() {
        let answer = opened.publish(rt)?;
        return Some(answer == Ok(number(&mut fields)?) && is_newest_read(rt, alloc, opened)?);
    }
    if word == b"compact".as_slice() {
        let is_compacted = is_compacted(rt, opened, &mut fields)?;
        return Some(is_compacted && is_newest_read(rt, alloc, opened)?);
    }
    if word == b"all".as_slice() {
        let are_compacted = are_compacted(rt, alloc, opened, &mut fields)?;
        return Some(are_compacted && is_newest_read(rt, alloc, opened)?);
    }
    if counts(word) {
        return is_counted(opened.pin(rt)?.version(), word, &mut fields);
    }
    Some(opened.is_put(step))
}

// Fails at the number of the first step that is not made.
fn follow<R: Threads + Wait + Sync>(
    rt: &R,
    alloc: Global,
    opened: &mut Opened,
    script: &[u8],
) -> Result<(), Fail> {
    for (step_no, step) in script.split(|byte| *byte == b';').enumerate() {
        if is_made(rt, alloc, opened, step) != Some(true) {
            return Err(Fail::new(step_no));
        }
    }
    Ok(())
}

fn are_put(opened: &mut Opened, rows: &[u8]) -> bool {
    for line in rows.split(|byte| *byte == b'|') {
        if !opened.is_put(line) {
            return false;
        }
    }
    true
}

fn follow_all<R: Threads + Wait + Sync>(rt: &R, alloc: Global, script: &[u8]) -> Result<(), Fail> {
    let mut opened = Opened::new(rt, alloc, Limits::standard()).ok_or("no catalogue")?;
    follow_rows(rt, alloc, &mut opened, script)
}

// Puts the rows, publishes them, and follows a script.
fn follow_rows<R: Threads + Wait + Sync>(
    rt: &R,
    alloc: Global,
    opened: &mut Opened,
    script: &[u8],
) -> Result<(), Fail> {
    if !are_put(opened, ROWS) {
        return Err("a row is refused")?;
    }
    follow(rt, alloc, opened, b"publish 1")?;
    follow(rt, alloc, opened, script)
}

#[test]
fn layers_by_publishes_and_compactions(rt: HostRuntime) -> Result<(), Fail> {
    follow_all(&rt, rt.alloc(), COMPACTS)?;
    follow_all(&rt, rt.alloc(), TIDIES)?;
    follow_all(&rt, rt.alloc(), TOGETHER)?;
    follow_all(&rt, rt.alloc(), CHANGES)
}

const FULL: &[u8] = b"publish 1;publish 2;entity user 7 8";

const STILL: &[u8] = b"layers 3 3 3 3 3;newest 0 0 0 0 0;entries 0 0 0 0 0";

// Whether a publish is refused at the limit of two, and an entity is still pending.
fn is_refused<R: Wait>(rt: &R, opened: &mut Opened) -> bool {
    opened.publish(rt) == Some(Err(PublishRefusal::TooMany(2)))
        && opened.feeder.table().entities() == 1
        && opened.feeder.sessions() == 1
}

// At the limit a publish is refused, and the pending batch stays; pins and compactions go on.
fn goes_on<R: Threads + Wait + Sync>(
    rt: &R,
    alloc: Global,
    opened: &mut Opened,
) -> Result<bool, Fail> {
    follow(rt, alloc, opened, FULL)?;
    if !is_refused(rt, opened) {
        return Ok(false);
    }
    follow(rt, alloc, opened, STILL)?;
    Ok(opened.compact(rt, 1, 0, 0) == Some(2))
}

#[test]
fn a_publish_at_the_limit(rt: HostRuntime) -> Result<(), Fail> {
    let mut limits = Limits::standard();
    limits.publishes = 2;
    let mut opened = Opened::new(&rt, rt.alloc(), limits).ok_or("no catalogue")?;
    assert!(rt; goes_on(&rt, rt.alloc(), &mut opened)?);
    Ok(())
}
