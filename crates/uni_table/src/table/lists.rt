ghost use Rattle.std.specs.Prelude.{◌≡◌, ◌<◌, length, map, filter, IfOk, OnOk, IsPermutation, IsSortedByKey};
ghost use Rattle.uni_base.specs.EdgeOrder.{edge_cmp};
ghost use Rattle.uni_table.specs.Added.{Adds};
ghost use Rattle.uni_table.specs.Contents.{leaves_below};
ghost use Rattle.uni_table.specs.Lists.{held_of};

use crate::Table;
use crate::graph::Graph;
use std::alloc::AllocError;
use uni_base::{DocList, EdgeList, EntityId, Held, HeldList, Key};

impl Table {
    ghost use Rattle.uni_table.specs.Lists.{touching, ending};
    ghost use Rattle.uni_table.specs.Ranked.{ranked};

    /// The entities of a shard of a vertical in rank order. It costs one pass over the ids, and a sort of
    /// what it lists.
    pub fn ranked(&self, vertical: u16, shard: u32) -> Result<DocList, AllocError>
        requires { vertical < length self.now.schema.verticals }
        ensures { IfOk result (λ docs. docs ≡ ranked self.now.schema self.now.contents vertical shard) }
    {
        let mut docs = self
            .graph
            .members(self.alloc, &self.schema, vertical, shard)?;
        docs.sort_unstable();
        Ok(DocList::from_vec(docs))
    }

    /// The edges that leave or reach an id, by type number, key and target. It costs these edges and a
    /// sort, and one look-up a type.
    pub fn touching(&self, id: EntityId) -> Result<HeldList, AllocError>
        ensures { IfOk result (λ held. held ≡ touching self.now.contents id) }
    {
        let mut held = Vec::new(self.alloc);
        add_leaving(&self.graph, self.schema.types(), id, &mut held)?;
        // An edge from the id to itself is among those that reach it.
        held.retain(|held| held.edge.target != id);
        self.graph.add_into(id, &mut held)?;
        Ok(in_order(held))
    }

    /// The edges that `end` takes out at a publish, by end, type number, key and target. It costs these
    /// edges and a sort.
    pub fn ending(&self, publish: u64) -> Result<EdgeList, AllocError>
        ensures { IfOk result (λ edges. edges ≡ ending self.now.contents publish) }
    {
        let mut endings = self.graph.ending(self.alloc, publish)?;
        endings.sort_unstable();
        let mut edges = EdgeList::new(self.alloc);
        for ending in &endings {
            edges.push(ending.edge)?;
        }
        Ok(edges)
    }
}

// Adds the edges that leave an id, of the types below a number.
fn add_leaving(
    graph: &Graph,
    types: u16,
    id: EntityId,
    held: &mut Vec<Held>,
) -> Result<(), AllocError>
    ensures { OnOk result (Adds held.old.items held.new.items (map held_of (filter (λ e. leaves_below types id e.0) graph.now.contents.edges))) }
{
    for type_no in 0..types {
        graph.add_from(type_no, &Key::Id(id), held)?;
    }
    Ok(())
}

/// The same edges by type number, key and target.
pub(crate) fn in_order(held: Vec<Held>) -> HeldList
    ensures permutation { IsPermutation held.items result }
    ensures sorted { IsSortedByKey (λ h. h.edge) edge_cmp result }
{
    let mut held = held;
    held.sort_unstable_by(|one, other| one.edge.cmp(&other.edge));
    HeldList::from_vec(held)
}
