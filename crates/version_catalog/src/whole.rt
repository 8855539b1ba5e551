//! One layer that by itself stands for a shard of a version.
ghost use Rattle.std.specs.Prelude.{◌≡◌, ◌<◌, [], ◌∷◌, length, IfOk, IfSome};
ghost use Rattle.shard_index.specs.Places.{IsStack};
ghost use Rattle.shard_index.specs.Rows.{no_rows, layer_of, layer_over, stack_rows};
ghost use Rattle.shard_index.specs.Versions.{StandsAt};

use forward_data::ForwardLayer;
use layer_merge::{merge_forward, merge_front};
use layer_stack::Layer;
use shard_index::{EntityLayer, ShardIndex, ShardLayer, Version};
use std::alloc::{AllocError, Global};
use std::sync::Arc;

/// The layers of the replica that has the fewest, merged. Where these are one layer alone, it is shared.
pub(crate) fn whole(
    alloc: Global,
    version: &Version,
    vertical: u16,
    shard: u32,
    replica: u32,
) -> Result<ShardLayer, AllocError>
    requires { IsStack version.now.schema vertical shard replica }
    ensures { IfOk result (λ layer. StandsAt version.now (layer ∷ []) vertical shard) }
{
    let index = shortest(version, vertical, shard, replica);
    if index.layers() == 1 {
        shared(index)
    } else {
        merged(alloc, index)
    }
}

// The stack of a shard with the fewest layers, that of a given replica where no other has fewer. All replicas
// have the same rows, and the one that was merged last costs least to merge again.
fn shortest(version: &Version, vertical: u16, shard: u32, replica: u32) -> &ShardIndex
    requires { IsStack version.now.schema vertical shard replica }
    ensures { StandsAt version.now result.now.0 vertical shard }
{
    let mut shortest = version.shard(vertical, shard, replica);
    for other in 0..version.schema().vertical(vertical).replicas {
        let index = version.shard(vertical, shard, other);
        if index.layers() < shortest.layers() {
            shortest = index;
        }
    }
    shortest
}

// The layer of a stack that has no other.
fn shared(index: &ShardIndex) -> Result<ShardLayer, AllocError>
    requires { length index.now.0 ≡ 1 }
    ensures { IfOk result (λ layer. layer_over no_rows layer ≡ stack_rows index.now.0) }
{
    let layer = index.layer(0)?;
    Ok(layer)
}

// All layers of a stack as one.
fn merged(alloc: Global, index: &ShardIndex) -> Result<ShardLayer, AllocError>
    ensures { IfOk result (λ layer. layer_over no_rows layer ≡ stack_rows index.now.0) }
{
    let count = index.layers();
    let entities = index.merge_entities(alloc, count)?;
    let postings = merge_front(alloc, index.postings(), count)?;
    let forward = merge_forward(alloc, index.forward_stack(), count)?;
    let layer = joined(alloc, entities, postings, forward)?;
    Ok(layer)
}

// The layer of three parts.
fn joined(
    alloc: Global,
    entities: EntityLayer,
    postings: Layer,
    forward: ForwardLayer,
) -> Result<ShardLayer, AllocError>
    ensures { IfOk result (λ layer. layer ≡ layer_of entities postings forward) }
{
    Ok(ShardLayer::join(
        Arc::new(alloc, entities)?,
        Arc::new(alloc, postings)?,
        Arc::new(alloc, forward)?,
    ))
}
