ghost use Rattle.std.specs.Prelude.{◌≡◌, ◌<◌, length, IfOk};
ghost use Rattle.shard_index.specs.Rows.{no_rows, layer_over, stack_rows};
ghost use Rattle.shard_index.specs.Shards.{table_rows};

use crate::batch::{first_shards, full_layers};
use crate::{ShardIndex, ShardLayer};
use std::alloc::{AllocError, Global};
use uni_table::Table;

impl ShardIndex {
    /// The index of a shard of a table: one layer, which stands for the table's rows of that shard.
    pub fn rebuild(
        alloc: Global,
        table: &Table,
        vertical: u16,
        shard: u32,
    ) -> Result<ShardIndex, AllocError>
        requires { vertical < length table.now.schema.verticals }
        ensures layers { IfOk result (λ index. length index.0 ≡ 1) }
        ensures rows { IfOk result (λ index. stack_rows index.0 ≡ table_rows table.now vertical shard) }
    {
        let base = ShardLayer::base(alloc, table, vertical, shard)?;
        ShardIndex::of(alloc, base)
    }
}

impl ShardLayer {
    /// The layer that stands by itself for the rows of a shard of a table. The layers of all shards are made for
    /// it, in one pass over the entities and the edges.
    pub fn base(
        alloc: Global,
        table: &Table,
        vertical: u16,
        shard: u32,
    ) -> Result<ShardLayer, AllocError>
        requires { vertical < length table.now.schema.verticals }
        ensures { IfOk result (λ layer. layer_over no_rows layer ≡ table_rows table.now vertical shard) }
    {
        if shard >= table.schema().vertical(vertical).shards {
            return ShardLayer::empty(alloc);
        }
        let firsts = first_shards(alloc, table.schema())?;
        let layers = full_layers(alloc, table, &firsts)?;
        layers[firsts[vertical as usize] + shard as usize].share()
    }
}
