//! The edges that end: their list, and their removal.
ghost use Rattle.std.specs.Prelude.{◌≡◌, ℕ, ◌+◌, ◌++◌, true, false, Some, map, filter, length, slice_get, IfOk, OnOk, IsPermutation};
ghost use Rattle.std.specs.Map.{keys_of};
ghost use Rattle.std.specs.Option.{option_map_or, option_to_list};
ghost use Rattle.uni_table.specs.declared.graph.numbers.EdgeNo.{EdgeNo};
ghost use Rattle.uni_table.specs.declared.graph.numbers.Slot.{Slot};
ghost use Rattle.uni_table.specs.Contents.{ended, has_ended};
ghost use Rattle.uni_table.specs.GraphRows.{contents_of, published_of, ending_no, is_ended, row_no, IsFirstEnded, IsRows};
ghost use Rattle.uni_table.specs.Lists.{ending_of};

use super::Ending;
use super::rows::Rows;
use std::alloc::{AllocError, Global};
use uni_base::EdgeRef;

impl Rows {
    // Adds what an entry among the ends stands for to a list, if its end has come.
    fn add_ending(
        &self,
        end: u64,
        number: u32,
        publish: u64,
        endings: &mut Vec<Ending>,
    ) -> Result<(), AllocError>
        requires { IsRows self.now }
        ensures { OnOk result (endings.new.items ≡ endings.old.items ++ option_to_list (ending_no self.now publish (end, number))) }
    {
        if number == 0 {
            return Ok(());
        }
        let Some((numbers, slot)) = self.edges.get_index(number as usize - 1) else {
            return Ok(());
        };
        let slot = slot.slot();
        if slot.end != end || !slot.is_ended(publish) {
            return Ok(());
        }
        let named = self.edge_ref(*numbers);
        let key = named.key;
        let edge = EdgeRef {
            type_no: named.type_no,
            key,
            target: named.target,
        };
        let Ok(()) = endings.push(Ending { end, edge }) else {
            return Err(AllocError);
        };
        Ok(())
    }

    /// The edges that end at a publish or before it, in some order.
    pub fn ending(&self, alloc: Global, publish: u64) -> Result<Vec<Ending>, AllocError>
        requires { IsRows self.now }
        ensures { IfOk result (λ endings. IsPermutation (map ending_of (filter (λ e. has_ended publish e.1) (contents_of self.now).edges)) endings.items) }
    {
        let mut endings = Vec::new(alloc);
        for entry in self.ends.range(..=(publish, u32::MAX)) {
            self.add_ending(entry.0, entry.1, publish, &mut endings)?;
        }
        Ok(endings)
    }

    // Whether the edge of a number is not gone, and ends at a publish or before it.
    fn has_ended(&self, number: u32, publish: u64) -> bool
        ensures { result ≡ option_map_or (λ e. is_ended publish e.1) (row_no self.now.edges.entries number) false }
    {
        if number == 0 {
            return false;
        }
        match self.edges.get_index(number as usize - 1) {
            Some((_, slot)) => slot.slot().is_ended(publish),
            None => false,
        }
    }

    // The number of the first of the ends, if that has come.
    fn first_ended(&self, publish: u64) -> Option<u32>
        ensures { IsFirstEnded self.now publish result }
    {
        let Some(entry) = self.ends.first() else {
            return None;
        };
        if entry.0 > publish {
            return None;
        }
        Some(entry.1)
    }

    // Takes out the edge of a number, if it ends at a publish or before it.
    fn mark_ended(&mut self, number: u32, publish: u64)
        requires { IsRows self.old }
        ensures kept { IsRows self.new }
        ensures published { published_of self.new ≡ published_of self.old }
        ensures ends { self.new.ends ≡ self.old.ends }
        ensures marked { option_map_or (λ e. is_ended publish e.1) (row_no self.new.edges.entries number) false ≡ false }
        ensures same { ended (contents_of self.new) publish ≡ ended (contents_of self.old) publish }
    {
        if self.has_ended(number, publish) {
            self.clear_slot(number as usize - 1);
        }
    }

    // Takes out what the first of the ends stands for, and that end.
    fn end_first(&mut self, number: u32, publish: u64)
        requires kept { IsRows self.old }
        requires first { IsFirstEnded self.old publish (Some number) }
        ensures kept { IsRows self.new }
        ensures published { published_of self.new ≡ published_of self.old }
        ensures same { ended (contents_of self.new) publish ≡ ended (contents_of self.old) publish }
        ensures fewer { length self.new.ends.keys + 1 ≡ length self.old.ends.keys }
    {
        self.mark_ended(number, publish);
        self.ends.pop_first();
    }

    /// Takes out the edges that end at a publish or before it.
    pub fn end(&mut self, publish: u64)
        requires { IsRows self.old }
        ensures kept { IsRows self.new }
        ensures published { published_of self.new ≡ published_of self.old }
        ensures ended { contents_of self.new ≡ ended (contents_of self.old) publish }
    {
        while let Some(number) = self.first_ended(publish) {
            self.end_first(number, publish);
        }
    }
}
