//! The layers of a batch: what takes the rows of each shard from what they were as the last batch ended
//! to what they are now.
ghost use Rattle.std.specs.Prelude.{◌≡◌, [], length, map, IfOk};
ghost use Rattle.uni_table.specs.Contents.{empty};
ghost use Rattle.uni_table.specs.TableState.{IsKept};
ghost use Rattle.shard_index.specs.Batches.{all_shards, TakeFrom, TakeOver};
ghost use Rattle.shard_index.specs.BatchEdges.{AreOfBatch, HasEntities};
ghost use Rattle.shard_index.specs.Notes.{noted_layer, AreNoted};
ghost use Rattle.shard_index.specs.Numbers.{AreFirsts};

use crate::ShardLayer;
use std::alloc::{AllocError, Global};
use std::thread::Threads;
use uni_table::{EntityChange, Table};

mod batch_edges;
mod edges;
mod entities;
mod halves;
mod notes;
mod numbers;
mod postings;
mod records;
mod sources;

use batch_edges::BatchEdges;
use entities::note_entities;
use halves::{note_among, spare_notes};
use notes::{ShardNotes, empty_notes};
pub(crate) use numbers::first_shards;
use sources::note_sources;

/// The layers of a batch, one for each shard of each vertical, in their order: each takes the rows of its
/// shard from what they were as the last batch ended to what they are now. It costs one pass over the
/// changes, and the records of which an edge changed.
pub fn batch_layers(alloc: Global, table: &Table) -> Result<Vec<ShardLayer>, AllocError>
    ensures { IfOk result (λ layers. TakeOver table.now (all_shards table.now.schema) layers.items) }
{
    let firsts = first_shards(alloc, table.schema())?;
    let edges = BatchEdges::of(table)?;
    let mut notes = changed_entities(alloc, table, &firsts, &edges)?;
    edges.note(alloc, table, &firsts, 0, edges.len(), &mut notes)?;
    layers(alloc, notes)
}

/// The same, where the edges are gone through by at most as many threads as there are workers. No worker counts as
/// one.
pub fn batch_layers_by<R: Threads + Sync>(
    rt: &R,
    alloc: Global,
    table: &Table,
    workers: u32,
) -> Result<Vec<ShardLayer>, AllocError>
    ensures { IfOk result (λ layers. TakeOver table.now (all_shards table.now.schema) layers.items) }
{
    let firsts = first_shards(alloc, table.schema())?;
    let edges = BatchEdges::of(table)?;
    let mut notes = changed_entities(alloc, table, &firsts, &edges)?;
    let mut spare = spare_notes(alloc, table, &firsts, &edges, workers)?;
    let all = edges.len();
    note_among(
        rt, alloc, table, &firsts, &edges, 0, all, &mut notes, &mut spare,
    )?;
    layers(alloc, notes)
}

/// The layers of a table of which nothing was there before: each by itself stands for the rows of its shard. It
/// costs one pass over the entities and the edges, which are read type by type and key by key.
pub(crate) fn full_layers(
    alloc: Global,
    table: &Table,
    firsts: &[usize],
) -> Result<Vec<ShardLayer>, AllocError>
    requires { AreFirsts table.now.schema firsts.now }
    ensures { IfOk result (λ layers. TakeFrom table.now.schema empty table.now.contents (all_shards table.now.schema) layers.items) }
{
    let sources = table.edge_sources()?;
    let all = sources.len();
    let entities = table.all_entities()?;
    let mut notes = entity_notes(
        alloc,
        table,
        firsts,
        entities.as_slice(),
        all,
        table.edges() as usize,
    )?;
    note_sources(alloc, table, firsts, &sources, 0, all, &mut notes)?;
    layers(alloc, notes)
}

// What is noted of the entities that a batch changed, with room for its edges.
fn changed_entities(
    alloc: Global,
    table: &Table,
    firsts: &[usize],
    edges: &BatchEdges<'_>,
) -> Result<Vec<ShardNotes>, AllocError>
    requires firsts { AreFirsts table.now.schema firsts.now }
    requires edges { AreOfBatch table.now edges.now }
    ensures noted { IfOk result (λ notes. HasEntities table.now.published table.now notes.items) }
    ensures count { IfOk result (λ notes. length notes.items ≡ length (all_shards table.now.schema)) }
{
    let (terms, postings) = edges.room(table, edges.len());
    let entities = match edges {
        BatchEdges::Whole(_) => table.all_entities()?,
        BatchEdges::Changed(_) => table.changed_entities()?,
    };
    entity_notes(alloc, table, firsts, entities.as_slice(), terms, postings)
}

// What is noted of entities, with room in each shard for so many terms, and for its part of so many postings.
fn entity_notes(
    alloc: Global,
    table: &Table,
    firsts: &[usize],
    entities: &[EntityChange],
    terms: usize,
    postings: usize,
) -> Result<Vec<ShardNotes>, AllocError>
    requires { AreFirsts table.now.schema firsts.now }
    ensures noted { IfOk result (λ notes. AreNoted table.now entities.now entities.now [] notes.items) }
    ensures count { IfOk result (λ notes. length notes.items ≡ length (all_shards table.now.schema)) }
    ensures kept { IsKept table.now.schema table.now.limits table.now.contents }
{
    let mut notes = empty_notes(alloc, table.schema(), firsts, terms, postings)?;
    note_entities(table, firsts, entities, &mut notes)?;
    Ok(notes)
}

// The layers of what was noted of shards.
fn layers(alloc: Global, notes: Vec<ShardNotes>) -> Result<Vec<ShardLayer>, AllocError>
    ensures { IfOk result (λ layers. layers.items ≡ map noted_layer notes.items) }
{
    let empty = ShardLayer::empty(alloc)?;
    let mut layers = Vec::with_capacity(alloc, notes.len())?;
    for shard in notes {
        layers.push(shard.layer(alloc, &empty)?)?;
    }
    Ok(layers)
}
