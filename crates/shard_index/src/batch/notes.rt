//! What is noted of each shard as the changes of a batch are gone through.
ghost use Rattle.std.specs.Prelude.{◌≡◌, length, replicate, IfOk, OnOk};
ghost use Rattle.shard_index.specs.Batches.{all_shards};
ghost use Rattle.shard_index.specs.Numbers.{AreFirsts};
ghost use Rattle.shard_index.specs.Notes.{no_notes, with_all, with_notes, with_removal, with_put, noted_layer};
ghost use Rattle.shard_index.specs.Rows.{empty_layer};

use crate::{EntityDelta, EntityLayer, ShardLayer};
use forward_data::{ForwardDelta, ForwardLayer, RecordKey};
use layer_stack::{Delta, Layer};
use std::alloc::{AllocError, Global};
use uni_base::{EntityId, Rank};
use uni_schema::Schema;

/// The parts of a shard's layer as they come in, and the record that was replaced last.
#[derive(Drop)]
pub(super) struct ShardNotes {
    pub(super) entities: EntityDelta,
    pub(super) postings: Delta,
    pub(super) records: ForwardDelta,
    pub(super) last: Option<RecordKey>,
}

impl ShardNotes {
    // Nothing noted, with room for some postings under some terms.
    fn new(alloc: Global, terms: usize, postings: usize) -> Result<ShardNotes, AllocError>
        ensures { IfOk result (λ notes. notes ≡ no_notes) }
    {
        Ok(ShardNotes {
            entities: EntityDelta::new(alloc),
            postings: Delta::with_capacity(alloc, terms, postings)?,
            records: ForwardDelta::new(alloc),
            last: None,
        })
    }

    /// Notes that an entity is no longer in the shard.
    pub(super) fn remove(&mut self, id: EntityId) -> Result<(), AllocError>
        ensures { OnOk result (self.new ≡ with_removal self.old id) }
    {
        self.entities.remove(id)
    }

    /// Notes that an entity is in the shard at a rank.
    pub(super) fn put(&mut self, id: EntityId, rank: Rank) -> Result<(), AllocError>
        ensures { OnOk result (self.new ≡ with_put self.old id rank) }
    {
        self.entities.put(id, rank)
    }

    /// Adds what was noted of edges alone, after these.
    pub(super) fn append(&mut self, later: ShardNotes) -> Result<(), AllocError>
        ensures { OnOk result (self.new ≡ with_notes self.old later) }
    {
        let ShardNotes {
            entities: _,
            postings,
            records,
            last,
        } = later;
        self.postings.append(&postings)?;
        self.records.append(records)?;
        if last.is_some() {
            self.last = last;
        }
        Ok(())
    }

    /// The layer of what was noted. For what nothing was noted of it shares the part of an empty layer.
    pub(super) fn layer(self, alloc: Global, empty: &ShardLayer) -> Result<ShardLayer, AllocError>
        requires { empty.now ≡ empty_layer }
        ensures { IfOk result (λ layer. layer ≡ noted_layer self) }
    {
        let ShardNotes {
            entities,
            postings,
            records,
            last: _,
        } = self;
        let entities = EntityLayer::build(entities)?;
        let postings = Layer::build(alloc, postings)?;
        let forward = ForwardLayer::build(records)?;
        ShardLayer::of_parts(alloc, entities, postings, forward, empty)
    }
}

/// Nothing noted of any shard, with room in each for so many terms, and for its part of so many postings.
pub(super) fn empty_notes(
    alloc: Global,
    schema: &Schema,
    firsts: &[usize],
    terms: usize,
    postings: usize,
) -> Result<Vec<ShardNotes>, AllocError>
    requires { AreFirsts schema.now firsts.now }
    ensures { IfOk result (λ notes. notes.items ≡ replicate (length (all_shards schema.now)) no_notes) }
{
    let count = firsts[schema.verticals() as usize];
    let mut notes = Vec::with_capacity(alloc, count)?;
    for _ in 0..count {
        notes.push(ShardNotes::new(alloc, terms, postings / count)?)?;
    }
    Ok(notes)
}

/// Adds what was noted of edges alone after what was noted, shard by shard.
pub(super) fn append_notes(
    notes: &mut [ShardNotes],
    later: Vec<ShardNotes>,
) -> Result<(), AllocError>
    requires { length later.items ≡ length notes.old }
    ensures count { length notes.new ≡ length notes.old }
    ensures joined { OnOk result (notes.new ≡ with_all notes.old later.items) }
{
    let mut at = 0;
    for shard in later {
        notes[at].append(shard)?;
        at += 1;
    }
    Ok(())
}
