//! The edges that a batch affects: those that differ, and those that live and lead to an id with another rank.
ghost use Rattle.std.specs.Prelude.{◌≡◌, ◌++◌, ◌<◌, length, IfOk, OnOk};
ghost use Rattle.std.specs.List.{filter_map};
ghost use Rattle.std.specs.Option.{option_to_list};
ghost use Rattle.uni_table.specs.GraphChanges.{earlier_at, is_affected, moved_last_at, place_of};
ghost use Rattle.uni_table.specs.GraphOrder.{affected_at, placed_at, untouched_edge_at, AddsMoved, AreAffectedEdges};
ghost use Rattle.uni_table.specs.GraphRows.{IsRows};

use super::changes::push;
use super::numbers::{EdgeNo, Side, Slot};
use super::order::PlacedEdge;
use super::rows::Rows;
use std::alloc::{AllocError, Global};

/// Adds an item to a list, if there is one.
pub(super) fn push_some<T: Drop>(items: &mut Vec<T>, item: Option<T>) -> Result<(), AllocError>
    ensures { OnOk result (items.new.items ≡ items.old.items ++ option_to_list item) }
{
    if let Some(item) = item {
        items.push(item)?;
    }
    Ok(())
}

/// The place of a number: they count from 1, and 0 is none.
pub(super) fn place_of(number: u32) -> Option<u32>
    ensures { result ≡ place_of number }
{
    if number > 0 { Some(number - 1) } else { None }
}

impl Rows {
    // The place of the last edge that reaches the id of a number, gone or not, if the id has another rank.
    fn moved_last(&self, number: usize) -> Option<u32>
        ensures { result ≡ moved_last_at self.now number }
    {
        if self.ranks_at(number).differ() {
            place_of(self.last(Side::Target, number))
        } else {
            None
        }
    }

    // The places of the last edges that reach the ids with another rank.
    fn moved_lasts(&self, alloc: Global) -> Result<Vec<u32>, AllocError>
        ensures { IfOk result (λ places. places.items ≡ filter_map (moved_last_at self.now) self.now.touched_ids.items) }
    {
        let mut places = Vec::new(alloc);
        for number in self.touched_ids.as_slice() {
            let number = *number;
            push_some(&mut places, self.moved_last(number as usize))?;
        }
        Ok(places)
    }

    // The place of the edge before the one at a place among those with its target.
    fn earlier_into(&self, place: u32) -> Option<u32>
        ensures { result ≡ earlier_at self.now place }
    {
        let (_, slot) = self.edges.get_index(place as usize)?;
        place_of(slot.slot().next_into)
    }

    /// An edge of two numbers with its place, and with what it is ordered by.
    pub(super) fn placed(&self, number: EdgeNo, place: u32) -> PlacedEdge
        requires source { number.source < length self.now.sources.entries }
        requires target { number.target < length self.now.ids.entries }
        ensures { result ≡ placed_at self.now place number }
    {
        let (short, _) = self.sources.get_index(number.source as usize).unwrap();
        let (target, _) = self.ids.get_index(number.target as usize).unwrap();
        PlacedEdge {
            lead: short.lead(),
            target: *target,
            source: number.source,
            place,
        }
    }

    // Adds the edge at a place to a list, if one lives there and the batch has not touched it.
    fn add_untouched(&self, place: u32, edges: &mut Vec<PlacedEdge>) -> Result<(), AllocError>
        requires { IsRows self.now }
        ensures { OnOk result (edges.new.items ≡ edges.old.items ++ option_to_list (untouched_edge_at self.now place)) }
    {
        let Some((number, slot)) = self.edges.get_index(place as usize) else {
            return Ok(());
        };
        let slot = slot.slot();
        if !slot.before.is_same() || !slot.state.is_live() {
            return Ok(());
        }
        push(edges, self.placed(*number, place))
    }

    // Adds the edges that live, reach an id with another rank, and were not touched by the batch. Where it touched
    // all edges, as a first load does, there is none. All chains are walked side by side, a step of each in turn: a
    // step waits for its row, and the waits of steps of other chains overlap.
    fn add_moved(&self, alloc: Global, edges: &mut Vec<PlacedEdge>) -> Result<(), AllocError>
        requires { IsRows self.now }
        ensures { OnOk result (AddsMoved self.now edges.old.items edges.new.items) }
    {
        if self.touched_edges.len() == self.edges.len() {
            return Ok(());
        }
        let mut walk = self.moved_lasts(alloc)?;
        let mut at = 0;
        while at < walk.len() {
            let place = walk[at];
            self.add_untouched(place, edges)?;
            push_some(&mut walk, self.earlier_into(place))?;
            at += 1;
        }
        Ok(())
    }

    // Whether an edge differs, or lives and leads to an id with other ranks, which are looked at only then.
    fn is_affected(&self, number: EdgeNo, slot: &Slot) -> bool
        ensures { result ≡ is_affected self.now (number, slot.now) }
    {
        slot.is_changed()
            || (slot.state.is_live() && self.ranks_at(number.target as usize).differ())
    }

    // Adds the edge at a place to a list, if there is one that is affected.
    fn add_affected(&self, place: u32, edges: &mut Vec<PlacedEdge>) -> Result<(), AllocError>
        requires { IsRows self.now }
        ensures { OnOk result (edges.new.items ≡ edges.old.items ++ option_to_list (affected_at self.now place)) }
    {
        let Some((number, slot)) = self.edges.get_index(place as usize) else {
            return Ok(());
        };
        if !self.is_affected(*number, &slot.slot()) {
            return Ok(());
        }
        push(edges, self.placed(*number, place))
    }

    /// The edges that are affected, each once, with what they are ordered by.
    pub fn affected_edges(&self, alloc: Global) -> Result<Vec<PlacedEdge>, AllocError>
        requires { IsRows self.now }
        ensures { IfOk result (λ edges. AreAffectedEdges self.now edges.items) }
    {
        let mut edges = Vec::with_capacity(alloc, self.touched_edges.len())?;
        self.add_moved(alloc, &mut edges)?;
        for place in self.touched_edges.as_slice() {
            let place = *place;
            self.add_affected(place, &mut edges)?;
        }
        Ok(edges)
    }
}
