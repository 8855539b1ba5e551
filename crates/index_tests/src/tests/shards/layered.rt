//! A shard of a table that publishes, by layers.
use crate::tests::alike::is_stack_alike;
use shard_index::{ShardIndex, ShardLayer, batch_layers};
use std::alloc::Global;
use uni_table::Table;

// A shard by layers. Its first layer covers some publishes, and there is one more for each publish
// since. Beside it are the layers that stand for the shard by themselves, after each publish.
#[derive(Drop)]
pub(super) struct LayeredShard {
    // Its place among all shards: two of users, and one of photos.
    number: u16,
    index: ShardIndex,
    covers: usize,
    bases: Vec<ShardLayer>,
}

// The layer that stands by itself for a shard of a table.
fn base(alloc: Global, table: &Table, number: u16) -> Option<ShardLayer> {
    let vertical = number / 2;
    if vertical >= table.schema().verticals() {
        return None;
    }
    ShardLayer::base(alloc, table, vertical, (number % 2) as u32).ok()
}

// An index of a shard of a table that no layers lead to.
fn rebuilt(alloc: Global, table: &Table, number: u16) -> Option<ShardIndex> {
    let vertical = number / 2;
    if vertical >= table.schema().verticals() {
        return None;
    }
    ShardIndex::rebuild(alloc, table, vertical, (number % 2) as u32).ok()
}

// An index with one layer more.
fn with_layer(index: &ShardIndex, layer: &ShardLayer) -> Option<ShardIndex> {
    let mut next = index.roomy(1).ok()?;
    next.push_layer_reserved(layer.share().ok()?);
    Some(next)
}

impl LayeredShard {
    // A shard before the first publish.
    pub(super) fn new(alloc: Global, number: u16) -> Option<LayeredShard> {
        let empty = ShardLayer::empty(alloc).ok()?;
        let index = ShardIndex::of(alloc, empty.share().ok()?).ok()?;
        let mut bases = Vec::new(alloc);
        bases.push(empty).ok()?;
        Some(LayeredShard {
            number,
            index,
            covers: 0,
            bases,
        })
    }

    pub(super) fn number(&self) -> u16 {
        self.number
    }

    pub(super) fn index(&self) -> &ShardIndex {
        &self.index
    }

    // Publishes what the table holds then, without the edges that end.
    pub(super) fn publish(&mut self, alloc: Global, table: &mut Table) -> Option<()> {
        table.end(self.bases.len() as u64);
        let layers = batch_layers(alloc, table).ok()?;
        self.index = with_layer(&self.index, layers.get(self.number as usize)?)?;
        table.begin_batch();
        self.bases.push(base(alloc, table, self.number)?).ok()
    }

    // The index with its first layers replaced by the one that stands by itself for what they stand for.
    fn fronted(&self, alloc: Global, count: usize) -> Option<ShardIndex> {
        if count > self.index.layers() {
            return None;
        }
        let publishes = self.covers.checked_add(count)?.checked_sub(1)?;
        let front = self.bases.get(publishes)?.share().ok()?;
        self.index.with_front(alloc, count, front).ok()
    }

    // Replaces the first layers by one.
    pub(super) fn shorten(&mut self, alloc: Global, count: usize) -> Option<()> {
        self.index = self.fronted(alloc, count)?;
        self.covers = self.covers.checked_add(count)?.checked_sub(1)?;
        Some(())
    }

    // Whether there is a layer for each publish since those that the first one covers, and the index
    // reads like one that no layers lead to.
    pub(super) fn is_read(&self, alloc: Global, table: &Table) -> Option<bool> {
        let rebuilt = rebuilt(alloc, table, self.number)?;
        let layers = self.bases.len().checked_sub(self.covers)?;
        Some(self.index.layers() == layers && is_stack_alike(alloc, &self.index, &rebuilt)?)
    }

    // Whether the index with some of its first layers replaced by one reads like one that no layers
    // lead to.
    pub(super) fn is_front_read(&self, alloc: Global, table: &Table, count: usize) -> Option<bool> {
        let fronted = self.fronted(alloc, count)?;
        is_stack_alike(alloc, &fronted, &rebuilt(alloc, table, self.number)?)
    }
}
