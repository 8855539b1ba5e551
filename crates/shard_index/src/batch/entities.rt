//! What a batch changed of the entities of shards.
ghost use Rattle.std.specs.Prelude.{◌≡◌, [], ◌∷◌, length, OnOk};
ghost use Rattle.shard_index.specs.Batches.{all_shards};
ghost use Rattle.shard_index.specs.Numbers.{AreFirsts};
ghost use Rattle.shard_index.specs.Notes.{row_left, row_taken, NotesEntities, NotesRemovals, NotesPuts};

use crate::batch::notes::ShardNotes;
use crate::batch::numbers::shard_no;
use std::alloc::AllocError;
use uni_table::{EntityChange, EntityRow, Table};

/// Notes changes of entities, each in the shards in which the entity was and is.
pub(super) fn note_entities(
    table: &Table,
    firsts: &[usize],
    changes: &[EntityChange],
    notes: &mut [ShardNotes],
) -> Result<(), AllocError>
    requires firsts { AreFirsts table.now.schema firsts.now }
    requires count { length notes.old ≡ length (all_shards table.now.schema) }
    ensures count { length notes.new ≡ length notes.old }
    ensures noted { OnOk result (NotesEntities table.now changes.now notes.old notes.new) }
{
    for change in changes {
        note_removal(table, firsts, change, notes)?;
        note_put(table, firsts, change, notes)?;
    }
    Ok(())
}

// Notes the removal of an entity from the shard in which it was, unless it is still there.
fn note_removal(
    table: &Table,
    firsts: &[usize],
    change: &EntityChange,
    notes: &mut [ShardNotes],
) -> Result<(), AllocError>
    requires firsts { AreFirsts table.now.schema firsts.now }
    requires count { length notes.old ≡ length (all_shards table.now.schema) }
    ensures count { length notes.new ≡ length notes.old }
    ensures noted { OnOk result (NotesRemovals table.now (change.now ∷ []) notes.old notes.new) }
{
    let Some(row) = row_left(change) else {
        return Ok(());
    };
    if let Some(number) = shard_no(table.schema(), firsts, row.vertical, change.id) {
        notes[number].remove(change.id)?;
    }
    Ok(())
}

// Notes an entity in the shard in which it is, unless it was there at the same rank.
fn note_put(
    table: &Table,
    firsts: &[usize],
    change: &EntityChange,
    notes: &mut [ShardNotes],
) -> Result<(), AllocError>
    requires firsts { AreFirsts table.now.schema firsts.now }
    requires count { length notes.old ≡ length (all_shards table.now.schema) }
    ensures count { length notes.new ≡ length notes.old }
    ensures noted { OnOk result (NotesPuts table.now (change.now ∷ []) notes.old notes.new) }
{
    let Some(row) = row_taken(change) else {
        return Ok(());
    };
    if let Some(number) = shard_no(table.schema(), firsts, row.vertical, change.id) {
        notes[number].put(change.id, row.rank)?;
    }
    Ok(())
}

// The row that an entity had, where it is none of that vertical now.
fn row_left(change: &EntityChange) -> Option<EntityRow>
    ensures { result ≡ row_left change.now.before change.now.after }
{
    match (change.before, change.after) {
        (None, _) => None,
        (Some(was), None) => Some(was),
        (Some(was), Some(now)) => {
            if was.vertical == now.vertical {
                None
            } else {
                Some(was)
            }
        }
    }
}

// The row that an entity has, where it was none of that vertical with that rank.
fn row_taken(change: &EntityChange) -> Option<EntityRow>
    ensures { result ≡ row_taken change.now.before change.now.after }
{
    match (change.before, change.after) {
        (_, None) => None,
        (None, Some(now)) => Some(now),
        (Some(was), Some(now)) => {
            if was.vertical == now.vertical && was.rank == now.rank {
                None
            } else {
                Some(now)
            }
        }
    }
}
