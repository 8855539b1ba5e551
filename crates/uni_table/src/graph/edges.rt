//! The edges among the rows: look-ups, and one more, another row or a mark that it is gone.
ghost use Rattle.std.specs.Prelude.{◌≡◌, ℕ, ◌+◌, ◌<◌, ◌^◌, ◌⊎◌, true, is_err, false, None, Some, length, slice_get, IfErr, IfOk, OnOk, OnErr};
ghost use Rattle.std.specs.BTreeMap.{is_at};
ghost use Rattle.std.specs.BTreeSet.{contains};
ghost use Rattle.std.specs.Map.{keys_of};
ghost use Rattle.std.proofs.lemmas.Map.{NonePasses};
ghost use Rattle.indexmap.specs.Layout.{set_value_at};
ghost use Rattle.uni_base.specs.EdgeOrder.{edge_cmp};
ghost use Rattle.uni_table.specs.declared.graph.numbers.EdgeNo.{EdgeNo};
ghost use Rattle.uni_table.specs.declared.graph.numbers.Node.{Node};
ghost use Rattle.uni_table.specs.declared.graph.numbers.Slot.{Slot};
ghost use Rattle.uni_table.specs.declared.graph.numbers.SlotState.TheVariants.{Gone};
ghost use Rattle.uni_table.specs.declared.graph.numbers.Source.{Source};
ghost use Rattle.uni_table.specs.Commands.{next_edge, refuses_edge};
ghost use Rattle.uni_table.specs.Contents.{edge_at, with_edge, without_edge};
ghost use Rattle.uni_table.specs.GraphRows.{contents_of, published_of, written, is_same, edge_named, row_of, slot_named, slots_named, with_edge_row, is_live, end_cmp, IsRows, IsQuiet, IsCircleKnown, IsFound, IsNoted};

use super::entities::recount;
use super::found::FoundEdge;
use super::numbers::{Before, EdgeNo, Side, Slot, SlotState};
use super::rows::{MAX_ROWS, Rows};
use super::short_node::ShortNode;
use super::short_slot::ShortSlot;
use super::short_source::ShortSource;
use super::touched::{make_room, note_touched};
use crate::{EdgeRow, FeedRefusal};
use indexmap::IndexMap;
use std::alloc::AllocError;
use uni_base::{Audience, EdgeRef, EntityId, Limits};
use uni_schema::TypeDef;

// Writes the state and the end of an edge, which the batch touches, and answers whether it was live. That it
// is gone takes no memory.
fn write_slot(
    edges: &mut IndexMap<EdgeNo, ShortSlot>,
    index: usize,
    state: SlotState,
    end: u64,
) -> Result<bool, AllocError>
    requires { index < length edges.old.entries }
    ensures entries { (n : EdgeNo) (slot : Slot) → slice_get edges.old.entries index ≡ Some (n, slot) → OnOk result (edges.new.entries ≡ set_value_at edges.old.entries index (written slot state end)) }
    ensures was { (n : EdgeNo) (slot : Slot) → slice_get edges.old.entries index ≡ Some (n, slot) → IfOk result (λ was. was ≡ is_live slot.state) }
    ensures err { OnErr result (edges.new.entries ≡ edges.old.entries) }
    ensures gone { state ≡ Gone → end ≡ 0 → is_err result ≡ false }
{
    let alloc = *edges.allocator();
    match edges.get_index_mut(index) {
        Some(slot) => {
            let was = slot.slot().state.is_live();
            slot.write(alloc, state, end)?;
            Ok(was)
        }
        None => Ok(false),
    }
}

// Writes the number of the last edge that leads to an id.
fn write_last_into(ids: &mut IndexMap<EntityId, ShortNode>, index: usize, number: u32)
    ensures { (id : ℕ) (node : Node) → slice_get ids.old.entries index ≡ Some (id, node) → ids.new.entries ≡ set_value_at ids.old.entries index (record node { last_edge = number }) }
{
    if let Some(node) = ids.get_index_mut(index) {
        node.write_last_edge(number);
    }
}

// Writes the number of the last edge that starts at a type and key.
fn write_last_from(sources: &mut IndexMap<ShortSource, u32>, index: usize, number: u32)
    ensures { (source : Source) (last : ℕ) → slice_get sources.old.entries index ≡ Some (source, last) → sources.new.entries ≡ set_value_at sources.old.entries index number }
{
    if let Some(last) = sources.get_index_mut(index) {
        *last = number;
    }
}

impl Rows {
    /// The row of an edge by its index. None where it is gone.
    pub fn row_at(&self, index: usize) -> Option<EdgeRow>
        requires kept { IsRows self.now }
        ensures { (n : EdgeNo) (slot : Slot) → slice_get self.now.edges.entries index ≡ Some (n, slot) → result ≡ row_of (keys_of self.now.sources.entries) slot.state slot.end }
    {
        match self.edges.get_index(index) {
            Some((_, slot)) => {
                let slot = slot.slot();
                match self.audience(slot.state) {
                    Some(audience) => Some(EdgeRow {
                        audience,
                        end: slot.end,
                    }),
                    None => None,
                }
            }
            None => None,
        }
    }

    /// The row of an edge. None where there is none.
    pub fn edge(&self, edge: &EdgeRef) -> Option<EdgeRow>
        requires { IsRows self.now }
        ensures { result ≡ edge_at (contents_of self.now) edge.now }
    {
        match self.find(edge) {
            Some(index) => self.row_at(index),
            None => None,
        }
    }

    /// How many edges there are.
    pub fn count_edges(&self) -> u64
        requires { IsRows self.now }
        ensures { result ≡ length (contents_of self.now).edges }
    {
        self.edge_count
    }

    // Whether the batch has not touched an edge.
    fn is_untouched(&self, index: usize) -> bool
        requires { index < length self.now.edges.entries }
        ensures { (n : EdgeNo) (slot : Slot) → slice_get self.now.edges.entries index ≡ Some (n, slot) → result ≡ is_same slot.before }
    {
        match self.edges.get_index(index) {
            Some((_, slot)) => slot.slot().before.is_same(),
            None => false,
        }
    }

    // Writes the state and the end of an edge. That it is gone takes no memory.
    fn set_slot(&mut self, index: usize, state: SlotState, end: u64) -> Result<(), AllocError>
        requires kept { IsRows self.old }
        requires index { index < length self.old.edges.entries }
        requires circle { IsCircleKnown (length self.old.sources.entries) state }
        requires noted { IsNoted self.old state end index }
        ensures kept { IsRows self.new }
        ensures ids { self.new.ids ≡ self.old.ids }
        ensures sources { self.new.sources ≡ self.old.sources }
        ensures ends { self.new.ends ≡ self.old.ends }
        ensures entity_count { self.new.entity_count ≡ self.old.entity_count }
        ensures published { published_of self.new ≡ published_of self.old }
        ensures edges { (n : EdgeNo) (slot : Slot) → slice_get self.old.edges.entries index ≡ Some (n, slot) → OnOk result (self.new.edges.entries ≡ set_value_at self.old.edges.entries index (written slot state end)) }
        ensures set { (n : EdgeNo) (slot : Slot) → slice_get self.old.edges.entries index ≡ Some (n, slot) → OnOk result (contents_of self.new ≡ with_edge_row (contents_of self.old) (edge_named (keys_of self.old.sources.entries) (keys_of self.old.ids.entries) n) (row_of (keys_of self.old.sources.entries) state end)) }
        ensures err { OnErr result (contents_of self.new ≡ contents_of self.old) }
        ensures gone { state ≡ Gone → end ≡ 0 → is_err result ≡ false }
    {
        let is_first = self.is_untouched(index);
        let was = write_slot(&mut self.edges, index, state, end)?;
        note_touched(&mut self.touched_edges, index, is_first);
        self.edge_count = recount(self.edge_count, was, state.is_live());
        Ok(())
    }

    // Writes that an edge is gone.
    pub(super) fn clear_slot(&mut self, index: usize)
        requires kept { IsRows self.old }
        requires index { index < length self.old.edges.entries }
        ensures kept { IsRows self.new }
        ensures ids { self.new.ids ≡ self.old.ids }
        ensures sources { self.new.sources ≡ self.old.sources }
        ensures ends { self.new.ends ≡ self.old.ends }
        ensures entity_count { self.new.entity_count ≡ self.old.entity_count }
        ensures published { published_of self.new ≡ published_of self.old }
        ensures edges { (n : EdgeNo) (slot : Slot) → slice_get self.old.edges.entries index ≡ Some (n, slot) → self.new.edges.entries ≡ set_value_at self.old.edges.entries index (written slot Gone 0) }
        ensures set { (n : EdgeNo) (slot : Slot) → slice_get self.old.edges.entries index ≡ Some (n, slot) → contents_of self.new ≡ with_edge_row (contents_of self.old) (edge_named (keys_of self.old.sources.entries) (keys_of self.old.ids.entries) n) None }
    {
        let _is_written = self.set_slot(index, SlotState::Gone, 0);
    }

    // Notes when an edge ends, if it does.
    fn note_end(&mut self, index: usize, end: u64) -> Result<(), AllocError>
        requires kept { IsRows self.old }
        requires index { index + 1 < 2 ^ 32 }
        ensures quiet { IsQuiet self.old self.new }
        ensures rest { self.new ≡ record self.old { ends = self.new.ends } }
        ensures noted { OnOk result (0 < end → contains end_cmp self.new.ends (end, index + 1) ≡ true) }
    {
        if end > 0 {
            self.ends.insert((end, index as u32 + 1))?;
        }
        Ok(())
    }

    // Adds an edge.
    fn add_slot(&mut self, number: EdgeNo, state: SlotState, end: u64) -> Result<(), AllocError>
        requires kept { IsRows self.old }
        requires source { number.source < length self.old.sources.entries }
        requires target { number.target < length self.old.ids.entries }
        requires circle { IsCircleKnown (length self.old.sources.entries) state }
        requires live { is_live state ≡ true }
        requires unused { NonePasses (is_at (edge_cmp (edge_named (keys_of self.old.sources.entries) (keys_of self.old.ids.entries) number))) (slots_named self.old) }
        requires noted { IsNoted self.old state end (length self.old.edges.entries) }
        ensures kept { IsRows self.new }
        ensures published { published_of self.new ≡ published_of self.old }
        ensures ok { OnOk result (contents_of self.new ≡ with_edge_row (contents_of self.old) (edge_named (keys_of self.old.sources.entries) (keys_of self.old.ids.entries) number) (row_of (keys_of self.old.sources.entries) state end)) }
        ensures err { OnErr result (contents_of self.new ≡ contents_of self.old) }
    {
        let index = self.edges.len();
        if index >= MAX_ROWS {
            return Err(AllocError);
        }
        make_room(&mut self.touched_edges, index)?;
        let slot = Slot {
            state,
            end,
            before: Before::Gone,
            next_into: self.last(Side::Target, number.target as usize),
            next_from: self.last(Side::Source, number.source as usize),
        };
        let slot = ShortSlot::of(*self.edges.allocator(), slot)?;
        self.edges.insert(number, slot)?;
        let last = index as u32 + 1;
        write_last_into(&mut self.ids, number.target as usize, last);
        write_last_from(&mut self.sources, number.source as usize, last);
        self.edge_count += 1;
        note_touched(&mut self.touched_edges, index, true);
        Ok(())
    }

    // Writes the state and the end of an edge, and notes the end.
    fn set_edge(&mut self, index: usize, state: SlotState, end: u64) -> Result<(), AllocError>
        requires kept { IsRows self.old }
        requires index { index < length self.old.edges.entries }
        requires circle { IsCircleKnown (length self.old.sources.entries) state }
        ensures kept { IsRows self.new }
        ensures published { published_of self.new ≡ published_of self.old }
        ensures ok { (n : EdgeNo) (slot : Slot) → slice_get self.old.edges.entries index ≡ Some (n, slot) → OnOk result (contents_of self.new ≡ with_edge_row (contents_of self.old) (edge_named (keys_of self.old.sources.entries) (keys_of self.old.ids.entries) n) (row_of (keys_of self.old.sources.entries) state end)) }
        ensures err { OnErr result (contents_of self.new ≡ contents_of self.old) }
    {
        self.note_end(index, end)?;
        self.set_slot(index, state, end)
    }

    // Adds an edge, and notes its end.
    fn add_edge(&mut self, number: EdgeNo, state: SlotState, end: u64) -> Result<(), AllocError>
        requires kept { IsRows self.old }
        requires source { number.source < length self.old.sources.entries }
        requires target { number.target < length self.old.ids.entries }
        requires circle { IsCircleKnown (length self.old.sources.entries) state }
        requires live { is_live state ≡ true }
        requires unused { NonePasses (is_at (edge_cmp (edge_named (keys_of self.old.sources.entries) (keys_of self.old.ids.entries) number))) (slots_named self.old) }
        ensures kept { IsRows self.new }
        ensures published { published_of self.new ≡ published_of self.old }
        ensures ok { OnOk result (contents_of self.new ≡ with_edge_row (contents_of self.old) (edge_named (keys_of self.old.sources.entries) (keys_of self.old.ids.entries) number) (row_of (keys_of self.old.sources.entries) state end)) }
        ensures err { OnErr result (contents_of self.new ≡ contents_of self.old) }
    {
        let index = self.edges.len();
        if index >= MAX_ROWS {
            return Err(AllocError);
        }
        self.note_end(index, end)?;
        self.add_slot(number, state, end)
    }

    // Puts an edge that was looked for, or another row in place of the one that it has.
    fn put_found(
        &mut self,
        found: &FoundEdge<'_>,
        audience: &Audience,
        end: u64,
    ) -> Result<(), AllocError>
        requires kept { IsRows self.old }
        requires found { IsFound self.old found.now }
        ensures kept { IsRows self.new }
        ensures published { published_of self.new ≡ published_of self.old }
        ensures ok { OnOk result (contents_of self.new ≡ with_edge (contents_of self.old) found.now.edge.now (record { audience = audience.now; end = end })) }
        ensures err { OnErr result (contents_of self.new ≡ contents_of self.old) }
    {
        let number = self.edge_no(found)?;
        let state = self.state_of(audience)?;
        match found.place {
            Some(index) => self.set_edge(index, state, end),
            None => self.add_edge(number, state, end),
        }
    }

    /// Puts an edge of a type, or another row in place of the one that it has, or says why not.
    pub fn put_edge(
        &mut self,
        limits: &Limits,
        type_def: &TypeDef,
        edge: &EdgeRef,
        audience: &Option<Audience>,
        end: u64,
    ) -> Result<(), FeedRefusal>
        requires { IsRows self.old }
        ensures kept { IsRows self.new }
        ensures published { published_of self.new ≡ published_of self.old }
        ensures taken { OnOk result (refuses_edge limits.now (contents_of self.old) type_def.now edge.now audience.now ≡ None) }
        ensures ok { OnOk result (contents_of self.new ≡ next_edge (contents_of self.old) end (Some edge.now) audience.now) }
        ensures refused { IfErr result (λ refusal. (refusal ≡ FeedRefusal.Memory)
            ⊎ (refuses_edge limits.now (contents_of self.old) type_def.now edge.now audience.now ≡ Some refusal)) }
        ensures err { OnErr result (contents_of self.new ≡ contents_of self.old) }
    {
        let found = self.found(edge);
        if let Some(refusal) = self.refuses_ends(type_def, &found) {
            return Err(refusal);
        }
        let Some(audience) = audience else {
            return Err(FeedRefusal::UnknownCircle);
        };
        if let Some(refusal) = self.refuses_new_edge(limits, type_def, &found) {
            return Err(refusal);
        }
        let Ok(()) = self.put_found(&found, audience, end) else {
            return Err(FeedRefusal::Memory);
        };
        Ok(())
    }

    /// Takes an edge out.
    pub fn remove_edge(&mut self, edge: &EdgeRef)
        requires { IsRows self.old }
        ensures kept { IsRows self.new }
        ensures published { published_of self.new ≡ published_of self.old }
        ensures removed { contents_of self.new ≡ without_edge (contents_of self.old) edge.now }
    {
        if let Some(index) = self.find(edge) {
            self.clear_slot(index);
        }
    }
}
