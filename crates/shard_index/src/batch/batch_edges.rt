//! The edges that a batch changed, which are noted a run at a time.
ghost use Rattle.std.specs.Prelude.{◌≡◌, ◌≤◌, length, IfOk, OnOk};
ghost use Rattle.uni_table.specs.TableState.{TableState};
ghost use Rattle.shard_index.specs.Batches.{all_shards};
ghost use Rattle.shard_index.specs.BatchEdges.{AreOfBatch, IsKeptThroughout, NotesRun, run_length};
ghost use Rattle.shard_index.specs.Numbers.{AreFirsts};

use crate::batch::edges::note_changes;
use crate::batch::notes::ShardNotes;
use crate::batch::sources::note_sources;
use std::alloc::{AllocError, Global};
use uni_table::{ChangedEdges, EdgeSources, Table};

/// The edges that a batch changed: all of the table's by type and key, where it held nothing before, and else the
/// changes.
#[derive(Drop)]
pub(super) enum BatchEdges<'a> {
    Whole(EdgeSources<'a>),
    Changed(ChangedEdges<'a>),
}

impl<'a> BatchEdges<'a> {
    /// Those of a table's last batch.
    pub(super) fn of(table: &'a Table) -> Result<BatchEdges<'a>, AllocError>
        requires { IsKeptThroughout table.now }
        ensures { IfOk result (AreOfBatch table.now) }
    {
        if table.published_entities() == 0 {
            return Ok(BatchEdges::Whole(table.edge_sources()?));
        }
        Ok(BatchEdges::Changed(table.changed_edges()?))
    }

    /// How many there are: types and keys, or changes.
    pub(super) fn len(&self) -> usize
        ensures { result ≡ run_length self.now }
    {
        match self {
            BatchEdges::Whole(sources) => sources.len(),
            BatchEdges::Changed(changes) => changes.len(),
        }
    }

    /// For how many terms and postings some of them take room.
    pub(super) fn room(&self, table: &Table, some: usize) -> (usize, usize) {
        match self {
            BatchEdges::Whole(sources) => {
                let each = table.edges() as usize / sources.len().max(1);
                (some, each.saturating_mul(some))
            }
            BatchEdges::Changed(_) => (0, some),
        }
    }

    /// Notes those from one place up to another, each in the shard that keeps it.
    pub(super) fn note(
        &self,
        alloc: Global,
        table: &Table,
        firsts: &[usize],
        from: usize,
        to: usize,
        notes: &mut [ShardNotes],
    ) -> Result<(), AllocError>
        requires within { (from ≤ to) × (to ≤ run_length self.now) }
        requires edges { AreOfBatch table.now self.now }
        requires firsts { AreFirsts table.now.schema firsts.now }
        requires count { length notes.old ≡ length (all_shards table.now.schema) }
        requires kept { IsKeptThroughout table.now }
        ensures count { length notes.new ≡ length notes.old }
        ensures noted { OnOk result (NotesRun table.now self.now from to notes.old notes.new) }
    {
        match self {
            BatchEdges::Whole(sources) => {
                note_sources(alloc, table, firsts, sources, from, to, notes)
            }
            BatchEdges::Changed(changes) => {
                note_changes(alloc, table, firsts, changes, from, to, notes)
            }
        }
    }
}
