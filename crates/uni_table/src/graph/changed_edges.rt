//! The changes of edges, which are made as they are asked for.
ghost use Rattle.std.specs.Prelude.{◌≡◌, ◌≤◌, ◌-◌, ◌++◌, length, map, take, drop, IfOk, OnOk};
ghost use Rattle.std.specs.List.{filter_map};
ghost use Rattle.std.specs.Option.{option_map, option_to_list};
ghost use Rattle.uni_table.specs.Changes.{AreEdgeChanges};
ghost use Rattle.uni_table.specs.GraphOrder.{placed_change, ranks_standing, standing_at};
ghost use Rattle.uni_table.specs.GraphRows.{contents_of, published_of, IsRows};

use super::changes::push;
use super::numbers::{EdgeNo, Ranks, Slot};
use super::order::PlacedEdge;
use super::rows::Rows;
use crate::{EdgeChange, EdgeChanges, EdgeRow};
use std::alloc::{AllocError, Global};
use std::marker::Model;
use uni_base::{Audience, EdgeRef};

/// The edges that differ from what they were as the last batch ended, and those whose target has another
/// rank, by type number, key and target. It keeps their places, and makes a change as it is asked for.
#[derive(Drop)]
pub struct ChangedEdges<'a> {
    alloc: Global,
    rows: &'a Rows,
    edges: Vec<PlacedEdge>,
}

impl<'a> Model for ChangedEdges<'a> {
    ghost use Rattle.std.specs.Prelude.{List};
    ghost use Rattle.std.specs.List.{filter_map};
    ghost use Rattle.uni_table.specs.declared.change.EdgeChange.{EdgeChange};
    ghost use Rattle.uni_table.specs.GraphOrder.{placed_change, HaveChanges};

    ghost Value = { List EdgeChange };

    ghost view = { λ c. filter_map (placed_change c.rows.now) c.edges.items };

    ghost invariant = { λ c. HaveChanges c.rows.now c.edges.items };
}

impl<'a> ChangedEdges<'a> {
    /// How many there are.
    pub fn len(&self) -> usize
        ensures { result ≡ length self.now }
    {
        self.edges.len()
    }

    /// The changes from a place up to another. To read what stands at their places, and then the ranks of
    /// their targets, each in a loop of its own costs less than one by one, since these rows lie in no order;
    /// so parts of some hundred are best.
    pub fn part(&self, from: usize, to: usize) -> Result<EdgeChanges, AllocError>
        requires { (from ≤ to) × (to ≤ length self.now) }
        ensures { IfOk result (λ changes. changes ≡ take (to - from) (drop from self.now)) }
    {
        let edges = &self.edges[from..to];
        let standing = self.rows.standing(self.alloc, edges)?;
        let ranks = self.rows.target_ranks(self.alloc, standing.as_slice())?;
        let changes = self
            .rows
            .edge_changes_at(self.alloc, edges, standing.as_slice(), ranks.as_slice())?;
        Ok(EdgeChanges::from_vec(changes))
    }
}

// The row of an edge with an audience and an end. None where it has none.
fn row_with(audience: Option<Audience>, end: u64) -> Option<EdgeRow>
    ensures { result ≡ option_map (λ a. record { audience = a; end = end }) audience }
{
    match audience {
        Some(audience) => Some(EdgeRow { audience, end }),
        None => None,
    }
}

impl Rows {
    // The ranks of the target of what stands at a place.
    fn ranks_standing(&self, standing: &Option<(EdgeNo, Slot)>) -> Ranks
        ensures { result ≡ ranks_standing self.now standing.now }
    {
        match standing {
            Some((number, _)) => self.ranks_at(number.target as usize),
            None => Ranks::none(),
        }
    }

    // The ranks of the targets of what stands at places, in their order.
    fn target_ranks(
        &self,
        alloc: Global,
        standing: &[Option<(EdgeNo, Slot)>],
    ) -> Result<Vec<Ranks>, AllocError>
        ensures { IfOk result (λ ranks. ranks.items ≡ map (ranks_standing self.now) standing.now) }
    {
        let mut ranks = Vec::with_capacity(alloc, standing.len())?;
        for edge in standing {
            ranks.push(self.ranks_standing(edge))?;
        }
        Ok(ranks)
    }

    // Adds the change of an edge to a list, by what stands at its place, and the ranks of its target.
    fn add_edge_change(
        &self,
        edge: &PlacedEdge,
        standing: &Option<(EdgeNo, Slot)>,
        ranks: Ranks,
        changes: &mut Vec<EdgeChange>,
    ) -> Result<(), AllocError>
        requires kept { IsRows self.now }
        requires standing { standing.now ≡ standing_at self.now edge.now }
        requires ranks { ranks ≡ ranks_standing self.now standing.now }
        ensures { OnOk result (changes.new.items ≡ changes.old.items ++ option_to_list (placed_change self.now edge.now)) }
    {
        let Some((_, slot)) = standing else {
            return Ok(());
        };
        let named = self.edge_of(edge);
        let key = named.key;
        let edge = EdgeRef {
            type_no: named.type_no,
            key,
            target: named.target,
        };
        let (state, end) = slot.stood();
        let before = self.audience(state);
        let after = self.audience(slot.state);
        let change = EdgeChange {
            edge,
            before: row_with(before, end),
            after: row_with(after, slot.end),
            rank_before: ranks.before,
            rank_after: ranks.after,
        };
        push(changes, change)
    }

    // The changes of edges in their order, by what stands at their places, and the ranks of their targets.
    fn edge_changes_at(
        &self,
        alloc: Global,
        edges: &[PlacedEdge],
        standing: &[Option<(EdgeNo, Slot)>],
        ranks: &[Ranks],
    ) -> Result<Vec<EdgeChange>, AllocError>
        requires kept { IsRows self.now }
        requires standing { standing.now ≡ map (standing_at self.now) edges.now }
        requires ranks { ranks.now ≡ map (ranks_standing self.now) standing.now }
        ensures { IfOk result (λ changes. changes.items ≡ filter_map (placed_change self.now) edges.now) }
    {
        let mut changes = Vec::with_capacity(alloc, edges.len())?;
        for i in 0..edges.len() {
            self.add_edge_change(&edges[i], &standing[i], ranks[i], &mut changes)?;
        }
        Ok(changes)
    }

    /// The changes of the edges that differ, or lead to an id with another rank, by type number, key and
    /// target.
    pub fn edge_changes(&self, alloc: Global) -> Result<ChangedEdges<'_>, AllocError>
        requires { IsRows self.now }
        ensures { IfOk result (λ changes. AreEdgeChanges (published_of self.now) (contents_of self.now) changes) }
    {
        let edges = self.affected_edges(alloc)?;
        let edges = self.in_order(edges);
        Ok(ChangedEdges {
            alloc,
            rows: self,
            edges,
        })
    }
}
