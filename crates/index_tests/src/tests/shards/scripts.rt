//! Scripts over a small table, by layers.
use super::layered::LayeredShard;
use super::reading::is_met;
use super::small;
use crate::tests::is_put;
use std::alloc::Global;
use std::test::Fail;
use uni_base::{cut_at, read_between};
use uni_table::Table;

// What the small table is in each shard, published once, and then again with nothing changed. A look
// at a shard begins with its number: 0 and 1 are of users, and 2 is of photos.
const SMALL: &[u8] =
    b"publish;0 rank 2=90;0 rank 6=60;0 rank 4=10;0 rank 3=;0 term 0 1=2;0 term 1 rome=2,6,4;0 entries 0=0;0 entries 1=7;1 rank 3=90;1 rank 5=70;1 rank 1=50;1 rank 2=;1 term 0 1=3,5;1 term 1 rome=5;1 entries 1=6;2 rank 102=9;2 rank 101=5;2 term 2 2=101;2 term 2 3=102;2 term 2 5=102;2 record 3 102=1,4;2 record 3 101=;2 entries 1=6;publish;0 entries 2=0;1 entries 2=0;2 entries 2=0;1 term 0 1=3,5";

// User 5 is at a higher rank.
const MOVED: &[u8] =
    b"publish;entity user 5 95;publish;0 term 0 1=2;1 term 0 1=5,3;1 rank 5=95;1 term 1 rome=5;0 entries 2=0;2 entries 2=0";

// User 3 is gone, with a tag, and goes again.
const GONE: &[u8] =
    b"publish;gone 3;publish;0 term 0 1=2;1 term 0 1=5;1 rank 3=;2 term 2 3=;2 term 2 5=102;gone 3;publish;0 term 0 1=2;1 term 0 1=5;1 entries 3=0;2 entries 3=0";

// Photo 102 is gone, with whom it shows.
const HIDDEN: &[u8] =
    b"publish;gone 102;publish;2 rank 102=;2 record 3 102=;2 term 2 5=;2 term 2 2=101;0 entries 2=0;2 entries 2=4";

const ENDS_LATER: &[u8] =
    b"publish;edge friend 1 4 public until 3;publish;0 term 0 1=2,4;1 term 0 1=3,5;publish;0 term 0 1=2;1 term 0 1=3,5";

const ENDS_AT_ONCE: &[u8] =
    b"publish;edge friend 1 4 public until 2;publish;0 term 0 1=2;1 term 0 1=3,5;publish;0 term 0 1=2;1 term 0 1=3,5";

const ENDS_WHAT_STOOD: &[u8] =
    b"publish;edge friend 1 2 public until 2;publish;0 term 0 1=;1 term 0 1=3,5;publish;0 term 0 1=;1 term 0 1=3,5";

// Whether a shard has what a look says, or the look is at another one.
fn is_seen(alloc: Global, shard: &LayeredShard, look: &[u8]) -> Option<bool> {
    let (number, look) = cut_at(look, b' ')?;
    if read_between(number, 0, 2)? != shard.number() as u64 {
        return Some(true);
    }
    is_met(alloc, shard.index(), look)
}

// Makes a step: a look at a shard, a publish, or a change. A publish leaves an index that reads like one
// that no layers lead to.
fn is_made(
    alloc: Global,
    shard: &mut LayeredShard,
    table: &mut Table,
    step: &[u8],
) -> Option<bool> {
    if cut_at(step, b'=').is_some() {
        return is_seen(alloc, shard, step);
    }
    if step == b"publish".as_slice() {
        shard.publish(alloc, table)?;
        return shard.is_read(alloc, table);
    }
    Some(is_put(table, step))
}

// Follows a script over a shard of the small table. Fails at the number of the first step that is not made.
fn follow(alloc: Global, number: u16, script: &[u8]) -> Result<(), Fail> {
    let mut table = small(alloc)?;
    follow_over(alloc, &mut table, number, script)
}

fn follow_over(alloc: Global, table: &mut Table, number: u16, script: &[u8]) -> Result<(), Fail> {
    let mut shard = LayeredShard::new(alloc, number).ok_or("no shard")?;
    for (step_no, step) in script.split(|byte| *byte == b';').enumerate() {
        if is_made(alloc, &mut shard, table, step) != Some(true) {
            return Err(Fail::new(step_no));
        }
    }
    Ok(())
}

// Follows a script over each shard.
fn follow_all(alloc: Global, script: &[u8]) -> Result<(), Fail> {
    for number in 0..3 {
        follow(alloc, number, script)?;
    }
    Ok(())
}

#[test]
fn a_small_table_by_layers(rt: HostRuntime) -> Result<(), Fail> {
    follow_all(rt.alloc(), SMALL)
}

#[test]
fn changes_by_layers(rt: HostRuntime) -> Result<(), Fail> {
    follow_all(rt.alloc(), MOVED)?;
    follow_all(rt.alloc(), GONE)?;
    follow_all(rt.alloc(), HIDDEN)
}

#[test]
fn ends_by_layers(rt: HostRuntime) -> Result<(), Fail> {
    follow_all(rt.alloc(), ENDS_LATER)?;
    follow_all(rt.alloc(), ENDS_AT_ONCE)?;
    follow_all(rt.alloc(), ENDS_WHAT_STOOD)
}
