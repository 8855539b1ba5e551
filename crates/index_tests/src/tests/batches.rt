//! The layers of a batch of a small table.
use super::{is_put, schema};
use shard_index::{ShardIndex, ShardLayer, batch_layers};
use std::alloc::{AllocError, Global};
use std::sync::Arc;
use std::test::Fail;
use uni_base::{Limits, Rank, read_id};
use uni_table::Table;

// Users in two shards and photos in one. A bar ends a line.
const HEADER: &[u8] =
    b"unicorn 2|vertical user 2 1|vertical photo 1 1|type friend user user both index|type lives word user target index|type tagged user photo source index|type shows photo user source forward|begin";

const ROWS: &[u8] =
    b"entity user 1 50|entity user 2 90|entity user 3 90|entity user 5 70|entity photo 102 9|edge friend 1 2 public|edge friend 1 3 public|edge friend 1 5 public|edge lives rome 5 public|edge tagged 3 102 public|edge shows 102 2 public|edge shows 102 1 public";

// User 5 moves to another rank, and user 3 is gone, whose photo keeps a tag no longer; the photo shows one
// user less. What is said again of user 2 and of user 1's friend is as it was.
const BATCH: &[u8] =
    b"entity user 5 95|gone 3|cut shows 102 2|entity user 2 90|edge friend 1 2 public";

// The entries of the layers: none of even users; of odd ones a put and a removal of entities, the two
// postings of user 5 deleted and put, and that of user 3 deleted; of photos a posting deleted, and a record.
const ENTRIES: [u64; 3] = [0, 7, 2];

// How many users more there are, all of them friends of user 1. The photo shows the last ones of them. So
// more edges change than are made at a time, and those of the photo's record in two parts.
const MANY: u64 = 1_000;

const SHOWN: u64 = 60;

// The entries of their layers: of either shard of users the put of each, and its posting; and a record.
pub(super) const MANY_ENTRIES: [u64; 3] = [1_000, 1_000, 1];

// Puts lines, which bars part. Fails at the number of the first that the table does not take.
pub(super) fn put_all(table: &mut Table, lines: &[u8]) -> Result<(), Fail> {
    for (number, line) in lines.split(|byte| *byte == b'|').enumerate() {
        if !is_put(table, line) {
            return Err(Fail::new(number));
        }
    }
    Ok(())
}

// A table without rows.
pub(super) fn unfilled(alloc: Global) -> Result<Table, Fail> {
    let schema = schema(alloc, HEADER).ok_or("no header")?;
    let schema = Arc::new(alloc, schema)?;
    Ok(Table::new(alloc, schema, Limits::standard()))
}

fn published(alloc: Global) -> Result<Table, Fail> {
    let mut table = unfilled(alloc)?;
    put_all(&mut table, ROWS)?;
    table.begin_batch();
    Ok(table)
}

// Whether the layers of a table's batch have so many entries.
fn has_entries(alloc: Global, table: &Table, entries: &[u64]) -> Result<bool, Fail> {
    let layers = batch_layers(alloc, table)?;
    have_entries(layers.as_slice(), entries)
}

// Whether layers have so many entries. Fails at the number of the first that has not.
pub(super) fn have_entries(layers: &[ShardLayer], entries: &[u64]) -> Result<bool, Fail> {
    for (number, layer) in layers.iter().enumerate() {
        if entries.get(number) != Some(&layer.entries()) {
            return Err(Fail::new(number));
        }
    }
    Ok(layers.len() == entries.len())
}

// The table with its batch.
fn changed(alloc: Global) -> Result<Table, Fail> {
    let mut table = published(alloc)?;
    put_all(&mut table, BATCH)?;
    Ok(table)
}

#[test]
fn a_batch_has_a_layer_for_each_shard(rt: HostRuntime) -> Result<(), Fail> {
    let table = changed(rt.alloc())?;
    assert!(rt; has_entries(rt.alloc(), &table, &ENTRIES)?);
    Ok(())
}

// The index of a shard of the table as it was published.
pub(super) fn base(alloc: Global, vertical: u16, shard: u32) -> Result<ShardIndex, Fail> {
    let table = published(alloc)?;
    if vertical >= table.schema().verticals() {
        return Err("no such vertical")?;
    }
    Ok(ShardIndex::rebuild(alloc, &table, vertical, shard)?)
}

// An index with the layer at a place over it, of those of a table's batch.
fn with_layer(
    alloc: Global,
    table: &Table,
    index: &ShardIndex,
    place: usize,
) -> Result<ShardIndex, Fail> {
    let mut index = index.roomy(1)?;
    let layers = batch_layers(alloc, table)?;
    let layer = layers.get(place).ok_or("no layer")?;
    index.push_layer_reserved(layer.share()?);
    Ok(index)
}

// The rank of an entity in the second shard of users, after a table's batch.
fn rank_after(alloc: Global, table: &Table, id: &[u8]) -> Result<Option<Rank>, Fail> {
    let id = read_id(id).ok_or("no id")?;
    let index = base(alloc, 0, 1)?;
    let index = with_layer(alloc, table, &index, 1)?;
    Ok(index.rank_of(id))
}

// Fails at the first of three entities that has another rank after the batch.
fn have_ranks(alloc: Global, table: &Table) -> Result<(), Fail> {
    let ranks = [(b"5", Some(Rank(95))), (b"3", None), (b"1", Some(Rank(50)))];
    for (number, (id, rank)) in ranks.into_iter().enumerate() {
        if rank_after(alloc, table, id)? != rank {
            return Err(Fail::new(number));
        }
    }
    Ok(())
}

#[test]
fn a_layer_over_an_index(rt: HostRuntime) -> Result<(), Fail> {
    let table = changed(rt.alloc())?;
    have_ranks(rt.alloc(), &table)
}

// Puts a user who is a friend of user 1.
fn put_friend(alloc: Global, table: &mut Table, id: u64) -> Result<(), Fail> {
    let lines = format!(in alloc; "entity user {id} 50|edge friend 1 {id} public")?;
    put_all(table, lines.as_bytes())
}

// Puts that the photo shows a user.
fn put_shown(alloc: Global, table: &mut Table, id: u64) -> Result<(), Fail> {
    let line = format!(in alloc; "edge shows 102 {id} public")?;
    put_all(table, line.as_bytes())
}

// Puts many users.
fn put_many(alloc: Global, table: &mut Table) -> Result<(), Fail> {
    for number in 0..MANY {
        put_friend(alloc, table, number + 1_000)?;
    }
    for number in 0..SHOWN {
        put_shown(alloc, table, number + 1_940)?;
    }
    Ok(())
}

// The table with many users put.
pub(super) fn grown(alloc: Global) -> Result<Table, Fail> {
    let mut table = published(alloc)?;
    put_many(alloc, &mut table)?;
    Ok(table)
}

// How many users the photo shows after a table's batch.
fn shown_after(alloc: Global, table: &Table) -> Result<usize, Fail> {
    let photo = read_id(b"102").ok_or("no id")?;
    let index = base(alloc, 1, 0)?;
    let index = with_layer(alloc, table, &index, 2)?;
    Ok(index.forward(3, photo).len())
}

// Whether the layers of many users put have so many entries, and the photo shows those that it is to.
fn are_many_listed(alloc: Global, table: &Table) -> Result<bool, Fail> {
    Ok(has_entries(alloc, table, &MANY_ENTRIES)? && shown_after(alloc, table)? == 62)
}

#[test]
fn more_changes_than_are_made_at_a_time(rt: HostRuntime) -> Result<(), Fail> {
    let table = grown(rt.alloc())?;
    assert!(rt; are_many_listed(rt.alloc(), &table)?);
    Ok(())
}
