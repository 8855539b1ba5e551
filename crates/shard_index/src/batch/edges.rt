//! What a batch changed of the edges of shards.
ghost use Rattle.std.specs.Prelude.{◌≡◌, ◌<◌, ◌≤◌, ◌-◌, [], ◌∷◌, length, take, drop, OnOk};
ghost use Rattle.std.specs.List.{All};
ghost use Rattle.uni_table.specs.TableState.{IsKept};
ghost use Rattle.shard_index.specs.Batches.{all_shards};
ghost use Rattle.shard_index.specs.Numbers.{AreFirsts};
ghost use Rattle.shard_index.specs.Notes.{with_edge, NotesEdges};

use crate::batch::notes::ShardNotes;
use crate::batch::numbers::keeper_no;
use crate::batch::postings::note_posting;
use crate::batch::records::note_record;
use std::alloc::{AllocError, Global};
use uni_schema::Store;
use uni_table::{ChangedEdges, EdgeChange, Table};

/// How many changes are made at a time.
const PART: usize = 1_024;

/// Notes the changes of edges from one place up to another, which are made a part at a time, each in the shard that
/// keeps its edge.
pub(super) fn note_changes(
    alloc: Global,
    table: &Table,
    firsts: &[usize],
    changes: &ChangedEdges<'_>,
    from: usize,
    to: usize,
    notes: &mut [ShardNotes],
) -> Result<(), AllocError>
    requires within { (from ≤ to) × (to ≤ length changes.now) }
    requires declared { All (λ c. c.edge.type_no < length table.now.schema.types) changes.now }
    requires firsts { AreFirsts table.now.schema firsts.now }
    requires count { length notes.old ≡ length (all_shards table.now.schema) }
    ensures count { length notes.new ≡ length notes.old }
    ensures noted { OnOk result (NotesEdges table.now (take (to - from) (drop from changes.now)) notes.old notes.new) }
{
    let mut at = from;
    while at < to {
        let next = at + (to - at).min(PART);
        let part = changes.part(at, next)?;
        note_part(alloc, table, firsts, part.as_slice(), notes)?;
        at = next;
    }
    Ok(())
}

// Notes a part of the changes.
fn note_part(
    alloc: Global,
    table: &Table,
    firsts: &[usize],
    changes: &[EdgeChange],
    notes: &mut [ShardNotes],
) -> Result<(), AllocError>
    requires declared { All (λ c. c.edge.type_no < length table.now.schema.types) changes.now }
    requires firsts { AreFirsts table.now.schema firsts.now }
    requires count { length notes.old ≡ length (all_shards table.now.schema) }
    ensures count { length notes.new ≡ length notes.old }
    ensures noted { OnOk result (NotesEdges table.now changes.now notes.old notes.new) }
{
    for change in changes {
        note_edge(alloc, table, firsts, change, notes)?;
    }
    Ok(())
}

// Notes the change of an edge in the shard that keeps it.
fn note_edge(
    alloc: Global,
    table: &Table,
    firsts: &[usize],
    change: &EdgeChange,
    notes: &mut [ShardNotes],
) -> Result<(), AllocError>
    requires declared { change.now.edge.type_no < length table.now.schema.types }
    requires firsts { AreFirsts table.now.schema firsts.now }
    requires count { length notes.old ≡ length (all_shards table.now.schema) }
    ensures count { length notes.new ≡ length notes.old }
    ensures noted { OnOk result (NotesEdges table.now (change.now ∷ []) notes.old notes.new) }
{
    let type_def = table.schema().type_def(change.edge.type_no);
    if let Some(number) = keeper_no(table.schema(), firsts, type_def, &change.edge) {
        note_kept(alloc, table, type_def.store, change, &mut notes[number])?;
    }
    Ok(())
}

/// Notes the change of an edge of the shard, which keeps it in an index or in a record.
pub(super) fn note_kept(
    alloc: Global,
    table: &Table,
    store: Store,
    change: &EdgeChange,
    notes: &mut ShardNotes,
) -> Result<(), AllocError>
    requires declared { change.now.edge.type_no < length table.now.schema.types }
    requires kept { IsKept table.now.schema table.now.limits table.now.contents }
    ensures { OnOk result (notes.new ≡ with_edge table.now.contents store change.now notes.old) }
{
    match store {
        Store::Index => note_posting(&mut notes.postings, change),
        Store::Forward => note_record(alloc, table, change, &mut notes.records, &mut notes.last),
    }
}
