//! The shards of a small table, and what a layer changes of them.
use super::{HEADER, ROWS, is_put, schema};
use forward_data::{ForwardDelta, ForwardItems, ForwardLayer};
use layer_stack::{Delta, Layer, TermKey};
use posting_lists::Posting;
use reading::{copies, doc_key, is_met, term};
use shard_index::{EntityDelta, EntityLayer, ShardIndex, ShardLayer, Version};
use std::alloc::Global;
use std::sync::Arc;
use std::test::Fail;
use uni_base::{Audience, Limits, read_id};
use uni_table::Table;

mod layered;
mod noisy;
mod reading;
mod scripts;

// An edge is in the shard of its target, and a forward edge in that of its source.
const EVEN: &[u8] =
    b"rank 2=90;rank 3=;term 0 1=2;term 1 rome=2,6,4;term 3 102=;record 3 102=;edge 0 1 2=yes;edge 0 1 3=no";

const ODD: &[u8] =
    b"rank 5=70;rank 4=;term 0 1=3,5;term 1 rome=5;edge 0 1 5=yes;edge 1 rome 3=no;edge 0 1 77=no";

const PHOTOS: &[u8] =
    b"rank 102=9;term 2 5=102;term 2 2=101;record 3 102=1,4;record 3 101=;record 0 102=";

// User 5 is at a higher rank, user 3 is gone, and photo 102 shows nobody. In the layer are a put and two
// removals of entities, two puts and four deletes of postings, and a record.
const CHANGED: &[u8] =
    b"rank 5=95;rank 3=;rank 1=50;term 0 1=5;term 1 rome=5;edge 0 1 3=no;edge 0 1 5=yes;entries 0=6;entries 1=10;merged 2=2;merged 1=3";

const HIDDEN: &[u8] = b"record 3 102=;rank 102=9;entries 1=10";

// Photo 102 and its postings are gone with the oldest layer.
const CLEARED: &[u8] = b"rank 102=;rank 5=95;term 2 5=;term 0 1=5;edge 1 rome 5=yes;entries 0=0";

const NOTHING: &[u8] = b"rank 2=;term 0 1=;edge 0 1 2=no;entries 0=0";

fn nothing(alloc: Global) -> Result<Table, Fail> {
    let schema = Arc::new(alloc, schema(alloc, HEADER).ok_or("no header")?)?;
    Ok(Table::new(alloc, schema, Limits::standard()))
}

fn small(alloc: Global) -> Result<Table, Fail> {
    let mut table = nothing(alloc)?;
    for (number, line) in ROWS.split(|byte| *byte == b'|').enumerate() {
        if !is_put(&mut table, line) {
            return Err(Fail::new(number));
        }
    }
    Ok(table)
}

// Looks for what steps say, which semicolons part. Fails at the number of the first that is not so.
fn follow(alloc: Global, index: &ShardIndex, steps: &[u8]) -> Result<(), Fail> {
    for (number, step) in steps.split(|byte| *byte == b';').enumerate() {
        if is_met(alloc, index, step) != Some(true) {
            return Err(Fail::new(number));
        }
    }
    Ok(())
}

fn shard(alloc: Global, table: &Table, vertical: u16, shard: u32) -> Result<ShardIndex, Fail> {
    if vertical >= table.schema().verticals() {
        return Err("no such vertical")?;
    }
    Ok(ShardIndex::rebuild(alloc, table, vertical, shard)?)
}

// A shard of the small table.
fn small_shard(alloc: Global, vertical: u16, number: u32) -> Result<ShardIndex, Fail> {
    let table = small(alloc)?;
    shard(alloc, &table, vertical, number)
}

// Follows steps over it.
fn follow_shard(alloc: Global, vertical: u16, number: u32, steps: &[u8]) -> Result<(), Fail> {
    let index = small_shard(alloc, vertical, number)?;
    follow(alloc, &index, steps)
}

#[test]
fn even_users(rt: HostRuntime) -> Result<(), Fail> {
    follow_shard(rt.alloc(), 0, 0, EVEN)
}

#[test]
fn odd_users(rt: HostRuntime) -> Result<(), Fail> {
    follow_shard(rt.alloc(), 0, 1, ODD)
}

#[test]
fn photos(rt: HostRuntime) -> Result<(), Fail> {
    follow_shard(rt.alloc(), 1, 0, PHOTOS)
}

// Moves user 5 to another rank, and removes user 3.
fn move_entities(delta: &mut EntityDelta) -> Option<()> {
    let fifth = doc_key(b"95 5")?;
    delta.put(fifth.id, fifth.rank).ok()?;
    delta.remove(fifth.id).ok()?;
    delta.remove(read_id(b"3")?).ok()
}

fn entities(alloc: Global) -> Result<EntityLayer, Fail> {
    let mut delta = EntityDelta::new(alloc);
    move_entities(&mut delta).ok_or("no entity")?;
    Ok(EntityLayer::build(delta)?)
}

fn everybody() -> Audience {
    Audience::Public
}

// Moves the posting of user 5 under a term, and drops that of user 3.
fn move_postings(delta: &mut Delta, term: TermKey, audience: Audience) -> Option<()> {
    let key = doc_key(b"95 5")?;
    delta.delete(term, doc_key(b"70 5")?).ok()?;
    delta.delete(term, doc_key(b"90 3")?).ok()?;
    delta.put(term, Posting { key, audience }).ok()
}

fn postings(alloc: Global) -> Result<Layer, Fail> {
    let mut delta = Delta::new(alloc);
    for text in b"0 1,1 rome".split(|byte| *byte == b',') {
        let term = term(text).ok_or("no term")?;
        move_postings(&mut delta, term, everybody()).ok_or("no memory")?;
    }
    Ok(Layer::build(alloc, delta)?)
}

fn records(alloc: Global) -> Result<ForwardLayer, Fail> {
    let id = read_id(b"102").ok_or("no id")?;
    let mut delta = ForwardDelta::new(alloc);
    delta.replace(3, id, ForwardItems::new(alloc))?;
    Ok(ForwardLayer::build(delta)?)
}

fn changes(alloc: Global) -> Result<ShardLayer, Fail> {
    let entities = Arc::new(alloc, entities(alloc)?)?;
    let postings = Arc::new(alloc, postings(alloc)?)?;
    let forward = Arc::new(alloc, records(alloc)?)?;
    Ok(ShardLayer::join(entities, postings, forward))
}

fn with_layer(index: &ShardIndex, layer: &ShardLayer) -> Result<ShardIndex, Fail> {
    let mut next = index.roomy(1)?;
    next.push_layer_reserved(layer.share()?);
    Ok(next)
}

fn changed(alloc: Global, vertical: u16) -> Result<ShardIndex, Fail> {
    let base = small_shard(alloc, vertical, 1 - vertical.min(1) as u32)?;
    with_layer(&base, &changes(alloc)?)
}

#[test]
fn a_layer_changes_users(rt: HostRuntime) -> Result<(), Fail> {
    let index = changed(rt.alloc(), 0)?;
    follow(rt.alloc(), &index, CHANGED)
}

#[test]
fn a_layer_changes_a_photo(rt: HostRuntime) -> Result<(), Fail> {
    let index = changed(rt.alloc(), 1)?;
    follow(rt.alloc(), &index, HIDDEN)
}

// The index with its oldest layer replaced by an empty one.
fn cleared(alloc: Global, index: &ShardIndex) -> Result<ShardIndex, Fail> {
    if index.layers() == 0 {
        return Err("no layer")?;
    }
    Ok(index.with_front(alloc, 1, ShardLayer::empty(alloc)?)?)
}

#[test]
fn the_oldest_layer_is_replaced(rt: HostRuntime) -> Result<(), Fail> {
    let index = changed(rt.alloc(), 1)?;
    let cleared = cleared(rt.alloc(), &index)?;
    follow(rt.alloc(), &cleared, CLEARED)
}

// Follows steps over the stack of a replica of the second shard of users.
fn follow_stack(alloc: Global, version: &Version, replica: u32, steps: &[u8]) -> Result<(), Fail> {
    if version.schema().verticals() == 0 {
        return Err("no vertical")?;
    }
    let declared = version.schema().vertical(0);
    if declared.shards <= 1 || replica >= declared.replicas {
        return Err("no such stack")?;
    }
    follow(alloc, version.shard(0, 1, replica), steps)
}

// The version of the small table after seven publishes.
fn seventh(alloc: Global) -> Result<Version, Fail> {
    let table = small(alloc)?;
    Ok(Version::of_table(alloc, &table, 7)?)
}

#[test]
fn a_version_has_a_stack_for_each_replica(rt: HostRuntime) -> Result<(), Fail> {
    let version = seventh(rt.alloc())?;
    assert!(rt; version.publishes() == 7 && version.stacks().len() == 5);
    follow_stack(rt.alloc(), &version, 1, ODD)
}

fn empty(alloc: Global) -> Result<Version, Fail> {
    let schema = Arc::new(alloc, schema(alloc, HEADER).ok_or("no header")?)?;
    Ok(Version::empty(alloc, schema)?)
}

#[test]
fn a_version_with_other_stacks(rt: HostRuntime) -> Result<(), Fail> {
    let empty = empty(rt.alloc())?;
    let copies = copies(rt.alloc(), &empty)?;
    let next = empty.with_stacks(1, copies)?;
    assert!(rt; empty.publishes() == 0 && next.publishes() == 1);
    follow_stack(rt.alloc(), &next, 0, NOTHING)
}
