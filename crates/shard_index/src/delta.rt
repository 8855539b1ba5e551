ghost use Rattle.std.specs.Prelude.{◌≡◌, OnOk, OnErr};
ghost use Rattle.shard_index.specs.Entities.{no_entities, removing, ranking};

use std::alloc::{AllocError, Global};
use std::marker::Model;
use uni_base::{EntityId, Rank};

/// How many removals, and how many puts, are noted at most, so that sums over layers stay exact.
const MOST_NOTED: usize = 1 << 61;

/// The changes of a layer of entities as they come in. A removal and a put of the same entity are
/// both kept, in whichever order they come.
#[derive(Drop)]
pub struct EntityDelta {
    pub(crate) deletes: Vec<(EntityId, ())>,
    pub(crate) puts: Vec<(EntityId, Rank)>,
}

impl Model for EntityDelta {
    ghost use Rattle.std.specs.Prelude.{◌≤◌, ◌^◌, length};
    ghost use Rattle.std.specs.Coded.{codes};
    ghost use Rattle.std.specs.FinMap as finite;
    ghost use Rattle.layer_base.specs.Layers.{from_log};
    ghost use Rattle.shard_index.specs.Entities.{EntityChanges};

    ghost Value = { EntityChanges };

    ghost coded = { Prim.hlevel (codes, finite.code) };

    ghost view = { λ d. record { deletes = from_log d.deletes.items; puts = from_log d.puts.items } };

    ghost invariant = { λ d. (length d.deletes.items ≤ 2 ^ 61) × (length d.puts.items ≤ 2 ^ 61) };
}

impl EntityDelta {
    /// No changes.
    pub fn new(alloc: Global) -> EntityDelta
        ensures { result ≡ no_entities }
    {
        EntityDelta {
            deletes: Vec::new(alloc),
            puts: Vec::new(alloc),
        }
    }

    /// Removes an entity. A second removal adds nothing.
    pub fn remove(&mut self, id: EntityId) -> Result<(), AllocError>
        ensures ok { OnOk result (self.new ≡ removing self.old id) }
        ensures err { OnErr result (self.new ≡ self.old) }
    {
        if self.deletes.len() >= MOST_NOTED {
            return Err(AllocError);
        }
        self.deletes.push((id, ()))?;
        Ok(())
    }

    /// Puts an entity at a rank, in place of one that was put for it before.
    pub fn put(&mut self, id: EntityId, rank: Rank) -> Result<(), AllocError>
        ensures ok { OnOk result (self.new ≡ ranking self.old id rank) }
        ensures err { OnErr result (self.new ≡ self.old) }
    {
        if self.puts.len() >= MOST_NOTED {
            return Err(AllocError);
        }
        self.puts.push((id, rank))?;
        Ok(())
    }
}
