//! Stacks with one layer more, and a stack with one layer in place of its first.
ghost use Rattle.std.specs.Prelude.{◌≡◌, ◌+◌, ◌<◌, [], ◌∷◌, ◌++◌, length, drop, replicate, set, get_or, IfOk, OnOk};
ghost use Rattle.std.specs.List.{flat_map};
ghost use Rattle.std.specs.Arc.{arc_value};
ghost use Rattle.shard_index.specs.Batches.{all_shards};
ghost use Rattle.shard_index.specs.Versions.{AreStacks, layers_of};
ghost use Rattle.version_catalog.specs.Spread.{spread, with_layers};

use shard_index::{ShardIndex, ShardLayer, Version};
use std::alloc::{AllocError, Global};
use std::sync::Arc;
use uni_schema::Schema;

// The version with one publish and one layer on each stack more.
pub(crate) fn longer_version(
    alloc: Global,
    version: &Version,
    publishes: u64,
    layers: &[ShardLayer],
) -> Result<Arc<Version>, AllocError>
    requires shards { length layers.now ≡ length (all_shards version.now.schema) }
    requires stacks { length (spread version.now.schema layers.now) ≡ length version.now.stacks }
    requires stand { AreStacks version.now.schema (with_layers version.now.stacks (spread version.now.schema layers.now)) }
    ensures { IfOk result (λ longer. arc_value longer ≡ record { schema = version.now.schema; publishes = publishes; stacks = with_layers version.now.stacks (spread version.now.schema layers.now) }) }
{
    let shares = spread(alloc, version.schema(), layers)?;
    let stacks = longer_stacks(alloc, version.stacks(), &shares)?;
    let longer = version.with_stacks(publishes, stacks)?;
    Ok(Arc::new(alloc, longer)?)
}

// The version with one layer in place of the first one of a stack and so many later ones.
pub(crate) fn fronted_version(
    alloc: Global,
    version: &Version,
    number: usize,
    later: usize,
    layer: ShardLayer,
) -> Result<Arc<Version>, AllocError>
    requires number { number < length version.now.stacks }
    requires later { later < length (get_or version.now.stacks number []) }
    requires stand { AreStacks version.now.schema (set version.now.stacks number (layer ∷ drop (1 + later) (get_or version.now.stacks number []))) }
    ensures { IfOk result (λ changed. arc_value changed ≡ record version.now { stacks = set version.now.stacks number (layer ∷ drop (1 + later) (get_or version.now.stacks number [])) }) }
{
    let stacks = fronted_stacks(alloc, version.stacks(), number, later, layer)?;
    let changed = version.with_stacks(version.publishes(), stacks)?;
    Ok(Arc::new(alloc, changed)?)
}

// For each stack the layer of its shard, which the replicas of the shard share.
fn spread(
    alloc: Global,
    schema: &Schema,
    layers: &[ShardLayer],
) -> Result<Vec<ShardLayer>, AllocError>
    requires { length layers.now ≡ length (all_shards schema.now) }
    ensures { IfOk result (λ shares. shares.items ≡ spread schema.now layers.now) }
{
    let mut shares = Vec::new(alloc);
    let mut rest = layers;
    for vertical in 0..schema.verticals() {
        let declared = schema.vertical(vertical);
        let (own, others) = rest.split_at(declared.shards as usize);
        add_replicas(own, declared.replicas, &mut shares)?;
        rest = others;
    }
    Ok(shares)
}

// Adds each layer once for every replica.
fn add_replicas(
    layers: &[ShardLayer],
    replicas: u32,
    shares: &mut Vec<ShardLayer>,
) -> Result<(), AllocError>
    ensures { OnOk result (shares.new.items ≡ shares.old.items ++ flat_map (replicate replicas) layers.now) }
{
    for layer in layers {
        add_shares(layer, replicas, shares)?;
    }
    Ok(())
}

// Adds a layer so many times.
fn add_shares(
    layer: &ShardLayer,
    count: u32,
    shares: &mut Vec<ShardLayer>,
) -> Result<(), AllocError>
    ensures { OnOk result (shares.new.items ≡ shares.old.items ++ replicate count layer.now) }
{
    for _ in 0..count {
        shares.push(layer.share()?)?;
    }
    Ok(())
}

// The stacks with one layer more each.
fn longer_stacks(
    alloc: Global,
    stacks: &[ShardIndex],
    layers: &[ShardLayer],
) -> Result<Vec<ShardIndex>, AllocError>
    requires { length layers.now ≡ length stacks.now }
    ensures { IfOk result (λ longer. layers_of longer.items ≡ with_layers (layers_of stacks.now) layers.now) }
{
    let mut longer = Vec::new(alloc);
    for number in 0..stacks.len() {
        longer.push(with_layer(&stacks[number], &layers[number])?)?;
    }
    Ok(longer)
}

// A stack with one layer more.
fn with_layer(stack: &ShardIndex, layer: &ShardLayer) -> Result<ShardIndex, AllocError>
    ensures { IfOk result (λ longer. longer.0 ≡ stack.now.0 ++ layer.now ∷ []) }
{
    let mut longer = stack.roomy(1)?;
    longer.push_layer_reserved(layer.share()?);
    Ok(longer)
}

// The stacks, one of them with a layer in place of its first one and so many later ones.
fn fronted_stacks(
    alloc: Global,
    stacks: &[ShardIndex],
    number: usize,
    later: usize,
    layer: ShardLayer,
) -> Result<Vec<ShardIndex>, AllocError>
    requires number { number < length stacks.now }
    requires later { later < length (get_or (layers_of stacks.now) number []) }
    ensures { IfOk result (λ changed. layers_of changed.items ≡ set (layers_of stacks.now) number (layer ∷ drop (1 + later) (get_or (layers_of stacks.now) number []))) }
{
    let (before, _) = stacks.split_at(number);
    let (_, after) = stacks.split_at(number + 1);
    let front = fronted(alloc, &stacks[number], later, layer)?;
    let mut changed = Vec::new(alloc);
    add_stacks(before, &mut changed)?;
    changed.push(front)?;
    add_stacks(after, &mut changed)?;
    Ok(changed)
}

// A stack with a layer in place of its first one and so many later ones.
fn fronted(
    alloc: Global,
    stack: &ShardIndex,
    later: usize,
    layer: ShardLayer,
) -> Result<ShardIndex, AllocError>
    requires { later < length stack.now.0 }
    ensures { IfOk result (λ changed. changed.0 ≡ layer ∷ drop (1 + later) stack.now.0) }
{
    let _layers = stack.layers();
    stack.with_front(alloc, 1 + later, layer)
}

// Adds stacks of the same layers.
fn add_stacks(stacks: &[ShardIndex], all: &mut Vec<ShardIndex>) -> Result<(), AllocError>
    ensures { OnOk result (layers_of all.new.items ≡ layers_of all.old.items ++ layers_of stacks.now) }
{
    for stack in stacks {
        all.push(stack.roomy(0)?)?;
    }
    Ok(())
}
