//! The feeder publishes.
ghost use Rattle.std.specs.Prelude.{IfOk};
ghost use Rattle.std.specs.List.{AllZip};
ghost use Rattle.uni_table.specs.Contents.{ended};
ghost use Rattle.shard_index.specs.Batches.{TakesOver, all_shards};
ghost use Rattle.version_catalog.specs.Layered.{MakesLayers};

use crate::turns::{NewLayers, publish_turn};
use crate::{Batch, Catalogue, Entry, Feeder, PublishRefusal};
use shard_index::{ShardLayer, batch_layers};
use std::alloc::AllocError;
use std::mem;
use std::sync::Wait;
use uni_table::Table;

impl Catalogue {
    ghost use Rattle.std.specs.Prelude.{◌≡◌, ◌+◌, ◌^◌, ◌<◌, ◌≤◌, length, OnOk, OnErr, IfErr};
    ghost use Rattle.shard_index.specs.Batches.{TakeOver};
    ghost use Rattle.version_catalog.specs.Refused.{IsRefused};
    ghost use Rattle.version_catalog.specs.Seats.{settings_of, feeder_table, feeder_batch, feeder_journal, feeder_turns, feeder_sessions, IsFeederOf, HasPublishedBatch, KeepsFeeder};
    ghost use Rattle.version_catalog.specs.Turns.{LayersFit};

    /// Publishes the pending batch, also an empty one. Ok is the number of the new version. It takes one turn
    /// at most, and the layers are made before.
    pub fn publish<R: Wait>(&self, rt: &R, feeder: &mut Feeder) -> Result<u64, PublishRefusal>
        requires of { IsFeederOf self.now feeder.old }
        requires few { feeder_turns feeder.old < 2 ^ 56 }
        ensures of { IsFeederOf self.now feeder.new }
        ensures turns { feeder_turns feeder.new ≤ feeder_turns feeder.old + 1 }
        ensures sessions { feeder_sessions feeder.new ≡ feeder_sessions feeder.old }
        ensures ok { IfOk result (HasPublishedBatch feeder.old feeder.new) }
        ensures below { OnOk result (length (feeder_journal feeder.old) < (settings_of self.now).limits.publishes) }
        ensures refused { IfErr result (IsRefused (length (feeder_journal feeder.old)) (settings_of self.now).limits.publishes) }
        ensures kept { OnErr result (KeepsFeeder feeder.old feeder.new) }
    {
        let alloc = self.alloc;
        let layers_of = |table: &Table| -> Result<Vec<ShardLayer>, AllocError>
            ensures { IfOk result (λ layers. TakeOver table.now (all_shards table.now.schema) layers.items) }
        { batch_layers(alloc, table) };
        self.publish_with(rt, feeder, &layers_of)
    }

    /// The same, by layers that a closure makes of the feeder's table.
    pub fn publish_with<R: Wait, F: Fn(&Table) -> Result<Vec<ShardLayer>, AllocError>>(
        &self,
        rt: &R,
        feeder: &mut Feeder,
        layers_of: &F,
    ) -> Result<u64, PublishRefusal>
        requires of { IsFeederOf self.now feeder.old }
        requires few { feeder_turns feeder.old < 2 ^ 56 }
        requires callable { F.IsAlwaysCallable layers_of.now }
        requires layers { MakesLayers F.Fn layers_of.now }
        ensures of { IsFeederOf self.now feeder.new }
        ensures turns { feeder_turns feeder.new ≤ feeder_turns feeder.old + 1 }
        ensures sessions { feeder_sessions feeder.new ≡ feeder_sessions feeder.old }
        ensures ok { IfOk result (HasPublishedBatch feeder.old feeder.new) }
        ensures below { OnOk result (length (feeder_journal feeder.old) < (settings_of self.now).limits.publishes) }
        ensures refused { IfErr result (IsRefused (length (feeder_journal feeder.old)) (settings_of self.now).limits.publishes) }
        ensures kept { OnErr result (KeepsFeeder feeder.old feeder.new) }
    {
        let made = feeder.publishes;
        if made >= self.settings.limits().publishes {
            return Err(PublishRefusal::TooMany(made));
        }
        let layers = next_layers(&feeder.table, made + 1, layers_of)?;
        self.publish_layers(rt, feeder, &layers)
    }

    // Publishes in a turn, by layers that were made before.
    fn publish_layers<R: Wait>(
        &self,
        rt: &R,
        feeder: &mut Feeder,
        layers: &NewLayers,
    ) -> Result<u64, PublishRefusal>
        requires of { IsFeederOf self.now feeder.old }
        requires few { feeder_turns feeder.old < 2 ^ 56 }
        requires fit { LayersFit (settings_of self.now).schema (feeder_journal feeder.old) (feeder_batch feeder.old) layers.now.layers.items }
        ensures of { IsFeederOf self.now feeder.new }
        ensures turns { feeder_turns feeder.new ≡ feeder_turns feeder.old + 1 }
        ensures sessions { feeder_sessions feeder.new ≡ feeder_sessions feeder.old }
        ensures ok { IfOk result (HasPublishedBatch feeder.old feeder.new) }
        ensures below { OnOk result (length (feeder_journal feeder.old) < (settings_of self.now).limits.publishes) }
        ensures refused { IfErr result (IsRefused (length (feeder_journal feeder.old)) (settings_of self.now).limits.publishes) }
        ensures kept { OnErr result (KeepsFeeder feeder.old feeder.new) }
    {
        let mut turn = self.lock.enter_writer(rt, &mut feeder.seat);
        match publish_turn(self.alloc, &mut turn.value, &feeder.batch, layers) {
            Ok(number) => {
                let batch = mem::replace(&mut feeder.batch, Batch::new());
                self.lock
                    .leave_with_entry(&mut feeder.seat, turn, &Entry::Published(batch));
                feeder.table.end(number);
                feeder.table.begin_batch();
                feeder.publishes = number;
                Ok(number)
            }
            Err(refusal) => {
                self.lock.leave_writer(&mut feeder.seat, turn);
                Err(refusal)
            }
        }
    }
}

// The layers that a table's batch makes at the publish of a number. Where an edge ends at it, they are made
// of a copy, so that the table stays as it is until the publish is made.
fn next_layers<F: Fn(&Table) -> Result<Vec<ShardLayer>, AllocError>>(
    table: &Table,
    publish: u64,
    layers_of: &F,
) -> Result<NewLayers, AllocError>
    requires callable { F.IsAlwaysCallable layers_of.now }
    requires layers { MakesLayers F.Fn layers_of.now }
    ensures { IfOk result (λ layers. AllZip (TakesOver table.now.schema table.now.published (ended table.now.contents publish)) (all_shards table.now.schema) layers.layers.items) }
{
    if table.ending(publish)?.is_empty() {
        return Ok(NewLayers {
            layers: layers_of(table)?,
        });
    }
    let mut ended = table.copy()?;
    ended.end(publish);
    Ok(NewLayers {
        layers: layers_of(&ended)?,
    })
}
