ghost use Rattle.std.specs.Prelude.{◌≡◌, ◌<◌, ◌++◌, length, IfOk, OnOk};
ghost use Rattle.uni_table.specs.Contents.{empty};
ghost use Rattle.shard_index.specs.Batches.{all_shards, TakeFrom};
ghost use Rattle.shard_index.specs.Numbers.{AreFirsts};
ghost use Rattle.shard_index.specs.Places.{places_in, stack_places};
ghost use Rattle.shard_index.specs.Versions.{layers_of, stacks_on, rows_of, rows_at_all};

use crate::batch::{first_shards, full_layers};
use crate::{ShardIndex, ShardLayer};
use std::alloc::{AllocError, Global};
use uni_table::Table;

// Adds stacks of one layer that they share.
pub(crate) fn add_stacks(
    alloc: Global,
    base: &ShardLayer,
    count: usize,
    stacks: &mut Vec<ShardIndex>,
) -> Result<(), AllocError>
    ensures { OnOk result (layers_of stacks.new.items ≡ layers_of stacks.old.items ++ stacks_on count base.now) }
{
    for _ in 0..count {
        let stack = ShardIndex::of(alloc, base.share()?)?;
        stacks.push(stack)?;
    }
    Ok(())
}

// The stacks of all shards of a table, each of one layer.
pub(crate) fn table_stacks(alloc: Global, table: &Table) -> Result<Vec<ShardIndex>, AllocError>
    ensures { IfOk result (λ stacks. rows_of stacks.items ≡ rows_at_all table.now (stack_places table.now.schema)) }
{
    let firsts = first_shards(alloc, table.schema())?;
    let layers = full_layers(alloc, table, &firsts)?;
    let mut stacks = Vec::new(alloc);
    for vertical in 0..table.schema().verticals() {
        add_vertical(alloc, table, &firsts, &layers, vertical, &mut stacks)?;
    }
    Ok(stacks)
}

// Adds the stacks of the shards of a vertical, over the layers of all shards.
fn add_vertical(
    alloc: Global,
    table: &Table,
    firsts: &[usize],
    layers: &[ShardLayer],
    vertical: u16,
    stacks: &mut Vec<ShardIndex>,
) -> Result<(), AllocError>
    requires vertical { vertical < length table.now.schema.verticals }
    requires firsts { AreFirsts table.now.schema firsts.now }
    requires layers { TakeFrom table.now.schema empty table.now.contents (all_shards table.now.schema) layers.now }
    ensures { OnOk result (rows_of stacks.new.items ≡ rows_of stacks.old.items ++ rows_at_all table.now (places_in table.now.schema vertical)) }
{
    let declared = *table.schema().vertical(vertical);
    let first = firsts[vertical as usize];
    for shard in 0..declared.shards {
        let base = &layers[first + shard as usize];
        add_stacks(alloc, base, declared.replicas as usize, stacks)?;
    }
    Ok(())
}
