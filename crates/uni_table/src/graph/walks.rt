//! Walks along the chains of edges: those that reach an id, and those of a type and key.
ghost use Rattle.std.specs.Prelude.{◌≡◌, ℕ, ◌+◌, ◌<◌, ◌++◌, Some, map, length, reverse, slice_get, OnOk};
ghost use Rattle.std.specs.Map.{keys_of};
ghost use Rattle.std.specs.Option.{option_to_list};
ghost use Rattle.uni_base.specs.declared.edge.Held.{Held};
ghost use Rattle.uni_table.specs.declared.graph.numbers.EdgeNo.{EdgeNo};
ghost use Rattle.uni_table.specs.declared.graph.numbers.Slot.{Slot};
ghost use Rattle.uni_table.specs.GraphRows.{published_of, next_at, edge_named, held_by, slot_named, all_held, gone_at, is_live, IsRows};

use super::entities::as_count;
use super::numbers::{EdgeNo, Side};
use super::rows::Rows;
use std::alloc::AllocError;
use uni_base::{EdgeRef, Held};

impl Rows {
    // The number of the last earlier edge with the same number at an end, or 0.
    pub(super) fn next(&self, side: Side, index: usize) -> u32
        requires { index < length self.now.edges.entries }
        ensures { (e : EdgeNo × Slot) → slice_get self.now.edges.entries index ≡ Some e → result ≡ next_at side e.1 }
    {
        match self.edges.get_index(index) {
            Some((_, slot)) => slot.slot().next(side),
            None => 0,
        }
    }

    // The edge of two numbers.
    pub(super) fn edge_ref(&self, number: EdgeNo) -> EdgeRef
        requires source { number.source < length self.now.sources.entries }
        requires target { number.target < length self.now.ids.entries }
        ensures { result ≡ edge_named (keys_of self.now.sources.entries) (keys_of self.now.ids.entries) number }
    {
        let (short, _) = self.sources.get_index(number.source as usize).unwrap();
        let source = short.source();
        let (target, _) = self.ids.get_index(number.target as usize).unwrap();
        EdgeRef {
            type_no: source.type_no,
            key: source.key,
            target: *target,
        }
    }

    // Adds the edge of an index to a list, unless it is gone.
    fn add_held(&self, index: usize, held: &mut Vec<Held>) -> Result<(), AllocError>
        requires { IsRows self.now }
        ensures { (e : EdgeNo × Slot) → slice_get self.now.edges.entries index ≡ Some e → OnOk result (held.new.items ≡ held.old.items ++ option_to_list (held_by (slot_named (keys_of self.now.sources.entries) (keys_of self.now.ids.entries) e))) }
    {
        let Some((number, slot)) = self.edges.get_index(index) else {
            return Ok(());
        };
        let Some(audience) = self.audience(slot.slot().state) else {
            return Ok(());
        };
        let named = self.edge_ref(*number);
        let key = named.key;
        let edge = EdgeRef {
            type_no: named.type_no,
            key,
            target: named.target,
        };
        let Ok(()) = held.push(Held { edge, audience }) else {
            return Err(AllocError);
        };
        Ok(())
    }

    /// Whether the edge of an index is not gone.
    pub fn is_live(&self, index: usize) -> bool
        requires { index < length self.now.edges.entries }
        ensures { (e : EdgeNo × Slot) → slice_get self.now.edges.entries index ≡ Some e → result ≡ is_live e.1.state }
    {
        match self.edges.get_index(index) {
            Some((_, slot)) => slot.slot().state.is_live(),
            None => false,
        }
    }

    /// Adds the edges with a number at an end to a list, the last one first.
    pub fn add_at(&self, side: Side, index: usize, held: &mut Vec<Held>) -> Result<(), AllocError>
        requires { IsRows self.now }
        ensures { OnOk result (held.new.items ≡ held.old.items ++ reverse (all_held self.now side index)) }
    {
        let mut number = self.last(side, index) as usize;
        while number > 0 {
            self.add_held(number - 1, held)?;
            number = self.next(side, number - 1) as usize;
        }
        Ok(())
    }

    /// How many edges have a number at an end.
    pub fn count_at(&self, side: Side, index: usize) -> u64
        requires { IsRows self.now }
        ensures { result ≡ length (all_held self.now side index) }
    {
        let mut count = 0;
        let mut number = self.last(side, index) as usize;
        while number > 0 {
            count += as_count(self.is_live(number - 1));
            number = self.next(side, number - 1) as usize;
        }
        count
    }

    /// Takes out the edges with a number at an end.
    pub fn remove_at(&mut self, side: Side, index: usize)
        requires { IsRows self.old }
        ensures kept { IsRows self.new }
        ensures published { published_of self.new ≡ published_of self.old }
        ensures ids { self.new.ids ≡ self.old.ids }
        ensures sources { self.new.sources ≡ self.old.sources }
        ensures edges { self.new.edges.entries ≡ map (gone_at side index) self.old.edges.entries }
    {
        let mut number = self.last(side, index) as usize;
        while number > 0 {
            let at = number - 1;
            number = self.next(side, at) as usize;
            self.clear_slot(at);
        }
    }
}
