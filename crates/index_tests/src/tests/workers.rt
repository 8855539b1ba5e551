//! The layers of a batch, made by several workers.
use super::batches::{MANY_ENTRIES, base, grown, have_entries, put_all, unfilled};
use shard_index::{ShardIndex, ShardLayer, batch_layers_by};
use std::alloc::Global;
use std::test::Fail;
use std::thread::Threads;
use uni_base::{EdgeRef, EntityId, Key, read_id};
use uni_table::Table;

// How many there are of them.
const WORKERS: [u32; 4] = [0, 1, 3, 64];

// How many users there are, each a friend of the one before. So there are more types and keys than are gone through
// by one worker.
const USERS: u64 = 1_100;

// The entries of their layers: of either shard of users the put of each, and its posting.
const ENTRIES: [u64; 3] = [1_100, 1_100, 0];

// The photo of the table with many users.
fn photo() -> Result<EntityId, Fail> {
    Ok(read_id(b"102").ok_or("no id")?)
}

// How many users the photo shows, with a layer over what was published.
fn shown_with(alloc: Global, layers: &[ShardLayer]) -> Result<usize, Fail> {
    let layer = layers.get(2).ok_or("no layer")?;
    let mut index = base(alloc, 1, 0)?.roomy(1)?;
    index.push_layer_reserved(layer.share()?);
    Ok(index.forward(3, photo()?).len())
}

// Whether the layers of many changes are as they are by one worker.
fn are_changes_noted<R: Threads + Sync>(
    rt: &R,
    alloc: Global,
    table: &Table,
    workers: u32,
) -> Result<bool, Fail> {
    let layers = batch_layers_by(rt, alloc, table, workers)?;
    let counted = have_entries(layers.as_slice(), &MANY_ENTRIES)?;
    Ok(counted && shown_with(alloc, layers.as_slice())? == 62)
}

#[test]
fn changes_by_workers(rt: HostRuntime) -> Result<(), Fail> {
    let table = grown(rt.alloc())?;
    for workers in WORKERS {
        assert!(rt; are_changes_noted(&rt, rt.alloc(), &table, workers)?);
    }
    Ok(())
}

// Puts a user, who is a friend of the one before.
fn put_user(alloc: Global, table: &mut Table, id: u64) -> Result<(), Fail> {
    let before = id.saturating_sub(1);
    let lines = format!(in alloc; "entity user {id} 50|edge friend {before} {id} public")?;
    put_all(table, lines.as_bytes())
}

// A table before which there was nothing.
fn first(alloc: Global) -> Result<Table, Fail> {
    let mut table = unfilled(alloc)?;
    put_all(
        &mut table,
        b"entity user 1000 50|edge friend 1000 1000 public",
    )?;
    for number in 1..USERS {
        put_user(alloc, &mut table, number + 1_000)?;
    }
    Ok(table)
}

// That a user is a friend of the one before.
fn friend(number: u64) -> Result<EdgeRef, Fail> {
    let before = EntityId::new(number.saturating_sub(1)).ok_or("no id")?;
    let target = EntityId::new(number).ok_or("no id")?;
    Ok(EdgeRef {
        type_no: 0,
        key: Key::Id(before),
        target,
    })
}

// How many of the users a layer has as a friend of the one before.
fn friends_in(alloc: Global, layer: &ShardLayer) -> Result<u64, Fail> {
    let index = ShardIndex::of(alloc, layer.share()?)?;
    let mut friends = 0_u64;
    for number in 1_001..1_000 + USERS {
        if index.has_edge(&friend(number)?) {
            friends = friends.saturating_add(1);
        }
    }
    Ok(friends)
}

// Whether the layers of a first batch have what they are to have: half of the friends are in either shard.
fn are_all_noted<R: Threads + Sync>(
    rt: &R,
    alloc: Global,
    table: &Table,
    workers: u32,
) -> Result<bool, Fail> {
    let layers = batch_layers_by(rt, alloc, table, workers)?;
    let counted = have_entries(layers.as_slice(), &ENTRIES)?;
    let even = layers.get(0).ok_or("no layer")?;
    let odd = layers.get(1).ok_or("no layer")?;
    Ok(counted && friends_in(alloc, even)? == 549 && friends_in(alloc, odd)? == 550)
}

#[test]
fn all_edges_by_workers(rt: HostRuntime) -> Result<(), Fail> {
    let table = first(rt.alloc())?;
    for workers in WORKERS {
        assert!(rt; are_all_noted(&rt, rt.alloc(), &table, workers)?);
    }
    Ok(())
}
