ghost use Rattle.std.specs.Prelude.{length, IfOk, IsPermutation, IsSortedByKey};
ghost use Rattle.std.specs.Ordering.{nat_cmp};

use crate::{ChangedEdges, EdgeSources, EntityChange, EntityChanges, Table};
use std::alloc::AllocError;

impl Table {
    ghost use Rattle.uni_table.specs.Changes.{AreEdgeChanges, AreEntityChanges};
    ghost use Rattle.uni_table.specs.Contents.{empty};
    ghost use Rattle.uni_table.specs.Sources.{AreSources};

    /// All entities, each as a change of an id that was none, by id. It costs one pass over the ids, and a sort.
    pub fn all_entities(&self) -> Result<EntityChanges, AllocError>
        ensures { IfOk result (AreEntityChanges empty self.now.contents) }
    {
        let changes = self.graph.all_entities(self.alloc)?;
        Ok(by_id(changes))
    }

    /// The types and keys at which edges start, or started, in their order. It costs one pass over them and a
    /// sort, and two over the edges, of each of which it keeps a copy of 20 bytes; what the edges of one type and
    /// key lead to is read as it is asked for.
    pub fn edge_sources(&self) -> Result<EdgeSources<'_>, AllocError>
        ensures { IfOk result (AreSources (length self.now.schema.types) self.now.contents) }
    {
        self.graph.edge_sources(self.alloc, self.schema.types())
    }

    /// The entities that differ from what they were as the last batch ended, by id. It costs the rows that
    /// the batch touched, and a sort.
    pub fn changed_entities(&self) -> Result<EntityChanges, AllocError>
        ensures { IfOk result (AreEntityChanges self.now.published self.now.contents) }
    {
        let changes = self.graph.entity_changes(self.alloc)?;
        Ok(by_id(changes))
    }

    /// The edges that differ from what they were as the last batch ended, and those whose target has another
    /// rank, by type number, key and target. It costs the rows that the batch touched, the edges that reach
    /// an entity with another rank, and a sort; each change is made as it is asked for.
    pub fn changed_edges(&self) -> Result<ChangedEdges<'_>, AllocError>
        ensures { IfOk result (AreEdgeChanges self.now.published self.now.contents) }
    {
        self.graph.edge_changes(self.alloc)
    }
}

// The same changes by id.
fn by_id(changes: Vec<EntityChange>) -> EntityChanges
    ensures permutation { IsPermutation changes.items result }
    ensures sorted { IsSortedByKey (λ change. change.id) nat_cmp result }
{
    let mut changes = changes;
    changes.sort_unstable_by_key(|change| change.id);
    EntityChanges::from_vec(changes)
}
