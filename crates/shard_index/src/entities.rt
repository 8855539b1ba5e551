ghost use Rattle.std.specs.Prelude.{◌≡◌, ◌≤◌, ◌^◌, ◌++◌, T, map, IfOk, OnOk};
ghost use Rattle.std.specs.FinMap as finite;
ghost use Rattle.std.specs.FinMap.{is_sorted};
ghost use Rattle.std.specs.Ordering.{nat_cmp};
ghost use Rattle.layer_base.specs.Changes.{deleted, put, in_turn};
ghost use Rattle.shard_index.specs.Entities.{entity_entries, putting_entities, rank_over};

use crate::EntityDelta;
use layer_base::{last_words, look_up};
use std::alloc::{AllocError, Global};
use std::marker::Model;
use uni_base::{EntityId, Rank};

/// How many removals, and how many puts, a layer has at most.
const MOST_ROWS: usize = 1 << 61;

/// A layer of entities: those that it removes, and those that it puts, each with its rank.
#[derive(Drop)]
pub struct EntityLayer {
    deletes: Vec<(EntityId, ())>,
    puts: Vec<(EntityId, Rank)>,
}

impl Model for EntityLayer {
    ghost use Rattle.std.specs.Prelude.{◌≤◌, ◌^◌, length, T};
    ghost use Rattle.std.specs.Coded.{codes};
    ghost use Rattle.std.specs.FinMap as finite;
    ghost use Rattle.std.specs.Ordering.{nat_cmp};
    ghost use Rattle.shard_index.specs.Entities.{EntityChanges, entity_changes, AreEntityRows};

    ghost Value = { EntityChanges };

    ghost coded = { Prim.hlevel (codes, finite.code) };

    ghost view = { λ l. entity_changes (finite.from_sorted l.deletes.items) (finite.from_sorted l.puts.items) };

    ghost invariant = { λ l. AreEntityRows l.deletes.items l.puts.items };
}

impl EntityLayer {
    /// The layer of some changes.
    pub fn build(delta: EntityDelta) -> Result<EntityLayer, AllocError>
        ensures { IfOk result (λ layer. layer ≡ delta) }
    {
        let EntityDelta { deletes, puts } = delta;
        let deletes = last_words(deletes)?;
        let puts = last_words(puts)?;
        Ok(EntityLayer { deletes, puts })
    }

    /// The layer that puts entities in the order of their ids, and removes none. More than 2^61 of
    /// them find no memory.
    pub(crate) fn of_rows(
        alloc: Global,
        puts: Vec<(EntityId, Rank)>,
    ) -> Result<EntityLayer, AllocError>
        requires { T (is_sorted nat_cmp puts.items) }
        ensures { IfOk result (λ layer. layer ≡ putting_entities (finite.from_sorted puts.items)) }
    {
        if puts.len() > MOST_ROWS {
            return Err(AllocError);
        }
        let deletes = Vec::new(alloc);
        Ok(EntityLayer { deletes, puts })
    }

    /// The number of its removals and puts.
    pub fn entries(&self) -> u64
        ensures entries { result ≡ entity_entries self.now }
        ensures few { result ≤ 2 ^ 62 }
    {
        self.deletes.len() as u64 + self.puts.len() as u64
    }

    // Adds its changes to a log of changes: what it removes, and then what it puts.
    pub(crate) fn log_changes(
        &self,
        log: &mut Vec<(EntityId, Option<Rank>)>,
    ) -> Result<(), AllocError>
        ensures { OnOk result (log.new.items ≡ log.old.items ++ in_turn self.now) }
    {
        log_deletes(log, &self.deletes)?;
        log_puts(log, &self.puts)
    }

    // The rank of an entity, given that of the older layers.
    pub(crate) fn over(&self, older: Option<Rank>, id: EntityId) -> Option<Rank>
        ensures { result ≡ rank_over self.now id older }
    {
        match self.rank(id) {
            Some(rank) => Some(rank),
            None if self.removes(id) => None,
            None => older,
        }
    }

    // The rank that it puts for an entity.
    fn rank(&self, id: EntityId) -> Option<Rank>
        ensures { result ≡ finite.get self.now.puts id }
    {
        look_up(&self.puts, &id).copied()
    }

    fn removes(&self, id: EntityId) -> bool
        ensures { result ≡ finite.contains_key self.now.deletes id }
    {
        look_up(&self.deletes, &id).is_some()
    }
}

fn log_deletes(
    log: &mut Vec<(EntityId, Option<Rank>)>,
    deletes: &[(EntityId, ())],
) -> Result<(), AllocError>
    ensures { OnOk result (log.new.items ≡ log.old.items ++ map deleted deletes.now) }
{
    for (id, _) in deletes {
        log.push((*id, None))?;
    }
    Ok(())
}

fn log_puts(
    log: &mut Vec<(EntityId, Option<Rank>)>,
    puts: &[(EntityId, Rank)],
) -> Result<(), AllocError>
    ensures { OnOk result (log.new.items ≡ log.old.items ++ map put puts.now) }
{
    for (id, rank) in puts {
        log.push((*id, Some(*rank)))?;
    }
    Ok(())
}
