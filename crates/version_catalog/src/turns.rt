//! What a turn does to the value under a catalogue's lock.
ghost use Rattle.std.specs.Prelude.{◌≡◌, ◌<◌, OnOk, OnErr, IfOk, IfErr};
ghost use Rattle.version_catalog.specs.Refused.{IsRefused};
ghost use Rattle.version_catalog.specs.States.{version_in, limits_in};
ghost use Rattle.version_catalog.specs.Turns.{MayGain, GainsBatch, HasPublished, MayInstall, KeepsJournal, HasInstalled};

use crate::stacks::{fronted_version, longer_version};
use crate::{Batch, CatalogueState, PublishRefusal};
use shard_index::{ShardLayer, stack_no};
use std::alloc::{AllocError, Global};

/// The layers of a batch, one for each shard, in order of vertical and shard. All replicas of a shard take
/// the same.
#[derive(Drop)]
pub struct NewLayers {
    pub layers: Vec<ShardLayer>,
}

/// Publishes a batch, whose layers were made before: it takes longer stacks and one assignment. Ok is the
/// number of the new version.
pub fn publish_turn(
    alloc: Global,
    state: &mut CatalogueState,
    batch: &Batch,
    layers: &NewLayers,
) -> Result<u64, PublishRefusal>
    requires { MayGain state.old batch.now layers.now.layers.items }
    ensures published { OnOk result (HasPublished layers.now.layers.items state.old state.new) }
    ensures gains { OnOk result (GainsBatch state.old batch.now layers.now.layers.items state.new) }
    ensures number { IfOk result (λ n. n ≡ (version_in state.new).publishes) }
    ensures below { OnOk result ((version_in state.old).publishes < (limits_in state.old).publishes) }
    ensures refused { IfErr result (IsRefused (version_in state.old).publishes (limits_in state.old).publishes) }
    ensures kept { OnErr result (state.new ≡ state.old) }
{
    let number = lengthen(alloc, state, batch, layers)?;
    Ok(number)
}

/// Puts a layer in place of those that it covers, in a stack that covered no more. Any other stack stays as
/// it was.
pub fn install_turn(
    alloc: Global,
    state: &mut CatalogueState,
    vertical: u16,
    shard: u32,
    replica: u32,
    covers: u64,
    layer: ShardLayer,
) -> Result<(), AllocError>
    requires { MayInstall state.old vertical shard replica covers layer }
    ensures installed { OnOk result (HasInstalled vertical shard replica covers layer state.old state.new) }
    ensures keeps { KeepsJournal state.old vertical shard replica covers layer state.new }
    ensures kept { OnErr result (state.new ≡ state.old) }
{
    install(alloc, state, vertical, shard, replica, covers, layer)?;
    Ok(())
}

// The same as `publish_turn`, but for what the value stands for.
fn lengthen(
    alloc: Global,
    state: &mut CatalogueState,
    batch: &Batch,
    layers: &NewLayers,
) -> Result<u64, PublishRefusal>
    requires { MayGain state.old batch.now layers.now.layers.items }
    ensures published { OnOk result (HasPublished layers.now.layers.items state.old state.new) }
    ensures number { IfOk result (λ n. n ≡ (version_in state.new).publishes) }
    ensures below { OnOk result ((version_in state.old).publishes < (limits_in state.old).publishes) }
    ensures refused { IfErr result (IsRefused (version_in state.old).publishes (limits_in state.old).publishes) }
    ensures kept { OnErr result (state.new ≡ state.old) }
{
    let made = state.version.publishes();
    if made >= state.limits.publishes {
        return Err(PublishRefusal::TooMany(made));
    }
    let version = longer_version(alloc, &state.version, made + 1, &layers.layers)?;
    state.version = version;
    Ok(made + 1)
}

// The same as `install_turn`, but for what the value stands for.
fn install(
    alloc: Global,
    state: &mut CatalogueState,
    vertical: u16,
    shard: u32,
    replica: u32,
    covers: u64,
    layer: ShardLayer,
) -> Result<(), AllocError>
    requires { MayInstall state.old vertical shard replica covers layer }
    ensures installed { OnOk result (HasInstalled vertical shard replica covers layer state.old state.new) }
    ensures kept { OnErr result (state.new ≡ state.old) }
{
    let number = stack_no(state.version.schema(), vertical, shard, replica);
    let covered = state.covered[number];
    if covers < covered {
        return Ok(());
    }
    let later = (covers - covered) as usize;
    let version = fronted_version(alloc, &state.version, number, later, layer)?;
    state.version = version;
    state.covered[number] = covers;
    Ok(())
}
