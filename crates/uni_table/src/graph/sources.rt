//! The sources of edges in their order, and what the edges of each lead to.
ghost use Rattle.std.specs.Prelude.{◌≡◌, ◌<◌, ◌-◌, ◌++◌, ℕ, [], Some, length, reverse, slice_get, IfOk, OnOk};
ghost use Rattle.std.specs.List.{filter_map};
ghost use Rattle.std.specs.Option.{option_to_list};
ghost use Rattle.uni_table.specs.GraphRows.{contents_of, next_at, IsCircleKnown, IsRows};
ghost use Rattle.uni_table.specs.GraphSources.{all_ends, doc_by, far_end, last_from, led_to, AreCopies, AreEnds};
ghost use Rattle.uni_table.specs.Sources.{AreSources, AreTargets};
ghost use Rattle.uni_table.specs.declared.graph.numbers.EdgeNo.{EdgeNo};
ghost use Rattle.uni_table.specs.declared.graph.numbers.Side.TheVariants.{Source as From};
ghost use Rattle.uni_table.specs.declared.graph.numbers.Slot.{Slot};
ghost use Rattle.uni_table.specs.declared.graph.numbers.Source.{Source};

use super::affected::{place_of, push_some};
use super::changes::push;
use super::edge_copies::{EdgeCopies, EdgeCopy};
use super::numbers::{Side, SlotState, Source};
use super::order::PlacedEdge;
use super::rows::Rows;
use crate::table::reached::Target;
use std::alloc::{AllocError, Global};
use std::marker::Model;
use uni_base::{Audience, DocKey};

/// The rows of what so many copies before a place lead to, and so many after it, are read at a time.
const RUN: usize = 512;

/// An edge by the number of its target, with its state.
#[derive(Clone, Copy, Debug)]
pub(crate) struct FarEnd {
    pub target: u32,
    pub state: SlotState,
}

/// What the edges of a source lead to, in rank order. It is read into for one source after another, and keeps its
/// memory.
#[derive(Drop)]
pub struct TargetList {
    ends: Vec<FarEnd>,
    targets: Vec<Target>,
    /// the rows of what the copies before this place lead to were read
    near: usize,
}

impl Model for TargetList {
    ghost use Rattle.std.specs.Prelude.{List};
    ghost use Rattle.uni_table.specs.declared.table.reached.Target.{Target};

    ghost Value = { List Target };

    ghost view = { λ t. t.targets.items };
}

impl TargetList {
    /// Nothing.
    pub fn new(alloc: Global) -> TargetList
        ensures { result ≡ [] }
    {
        TargetList {
            ends: Vec::new(alloc),
            targets: Vec::new(alloc),
            near: 0,
        }
    }

    /// What was read last.
    pub fn as_slice(&self) -> &[Target]
        ensures { result.now ≡ self.now }
    {
        &self.targets
    }
}

/// The types and keys at which edges start, or started, in their order. What the edges of one of them lead to is
/// read as it is asked for.
#[derive(Drop)]
pub struct EdgeSources<'a> {
    rows: &'a Rows,
    /// the last edge that started at each, gone or not
    lasts: Vec<PlacedEdge>,
    /// where their edges are looked for first
    copies: EdgeCopies,
}

impl<'a> Model for EdgeSources<'a> {
    ghost use Rattle.std.specs.Prelude.{map};
    ghost use Rattle.uni_table.specs.GraphRows.{contents_of};
    ghost use Rattle.uni_table.specs.GraphSources.{source_told, AreCopies, AreLasts};
    ghost use Rattle.uni_table.specs.Sources.{SourcesState};

    ghost Value = { SourcesState };

    ghost view = { λ s. record { table = contents_of s.rows.now; sources = map (source_told s.rows.now) s.lasts.items } };

    ghost invariant = { λ s. AreLasts s.rows.now s.lasts.items × AreCopies s.rows.now s.copies.copies.items };
}

impl<'a> EdgeSources<'a> {
    /// How many there are.
    pub fn len(&self) -> usize
        ensures { result ≡ length self.now.sources }
    {
        self.lasts.len()
    }

    /// The type and key at a place.
    pub fn source(&self, at: usize) -> Source
        requires { at < length self.now.sources }
        ensures { slice_get self.now.sources at ≡ Some result }
    {
        let edge = self.rows.edge_of(&self.lasts[at]);
        let key = edge.key;
        Source {
            type_no: edge.type_no,
            key,
        }
    }

    /// Reads what the edges of the type and key at a place lead to, in rank order, in place of what the list had.
    /// It costs these edges, those that are gone among them, and a sort.
    pub fn read(&self, at: usize, list: &mut TargetList) -> Result<(), AllocError>
        requires { at < length self.now.sources }
        ensures { OnOk result ((source : Source) → slice_get self.now.sources at ≡ Some source → AreTargets self.now.table source list.new) }
    {
        let number = self.lasts[at].source as usize;
        let after = self.copies.after(number);
        self.come_near(after, list)?;
        list.ends.clear();
        self.rows
            .add_ends(number, self.copies.as_slice(), after, &mut list.ends)?;
        list.targets.clear();
        self.rows
            .add_targets(list.ends.as_slice(), &mut list.targets)?;
        list.targets.sort_unstable_by_key(|target| target.doc);
        Ok(())
    }

    // Makes room for what the copies around a place lead to, unless that was done for those before it. The rows of
    // what they lead to lie in no order, and each is waited for: here for many at the same time, and so no more when
    // the edges of one source after another are read.
    fn come_near(&self, place: usize, list: &mut TargetList) -> Result<(), AllocError> {
        if place <= list.near {
            return Ok(());
        }
        let copies = self.copies.as_slice();
        let to = place.saturating_add(RUN).min(copies.len());
        let from = place.saturating_sub(RUN).max(list.near).min(to);
        list.near = to;
        list.targets
            .reserve(self.rows.count_entities(&copies[from..to]))
    }
}

impl Rows {
    // The edge of an index by the number of its target, with its state, and the number of the edge before it among
    // those of its source.
    fn far_end(&self, index: usize) -> (FarEnd, u32)
        requires { index < length self.now.edges.entries }
        ensures { (e : EdgeNo × Slot) → slice_get self.now.edges.entries index ≡ Some e → (result.0 ≡ far_end e) × (result.1 ≡ next_at From e.1) }
    {
        let (number, slot) = self.edges.get_index(index).unwrap();
        let end = FarEnd {
            target: number.target,
            state: slot.state(),
        };
        (end, slot.next_from())
    }

    // The same of a number, which counts from 1. The copy at a place is looked at first.
    fn far_end_by(&self, number: usize, copies: &[EdgeCopy], place: usize) -> (FarEnd, u32)
        requires some { 0 < number }
        requires within { number - 1 < length self.now.edges.entries }
        requires copies { AreCopies self.now copies.now }
        ensures { (e : EdgeNo × Slot) → slice_get self.now.edges.entries (number - 1) ≡ Some e → (result.0 ≡ far_end e) × (result.1 ≡ next_at From e.1) }
    {
        match copies.get(place) {
            Some(copy) if copy.number as usize == number => (copy.end, copy.next),
            _ => self.far_end(number - 1),
        }
    }

    // Adds the edges of a source to a list, gone or not, the last one first. Copies of them are looked for below a
    // place, downwards.
    fn add_ends(
        &self,
        index: usize,
        copies: &[EdgeCopy],
        after: usize,
        ends: &mut Vec<FarEnd>,
    ) -> Result<(), AllocError>
        requires kept { IsRows self.now }
        requires copies { AreCopies self.now copies.now }
        ensures { OnOk result (ends.new.items ≡ ends.old.items ++ reverse (all_ends self.now index)) }
    {
        let mut number = self.last(Side::Source, index) as usize;
        let mut place = after;
        while number > 0 {
            place = place.saturating_sub(1);
            let (end, next) = self.far_end_by(number, copies, place);
            ends.push(end)?;
            number = next as usize;
        }
        Ok(())
    }

    // The place in rank order of the id of a number, if it is an entity.
    fn doc_at(&self, number: usize) -> Option<DocKey>
        ensures { result ≡ doc_by self.now number }
    {
        let (id, node) = self.ids.get_index(number)?;
        let row = node.row()?;
        Some(DocKey {
            rank: row.rank,
            id: *id,
        })
    }

    // How many copies lead to entities, whether their edges are gone or not.
    fn count_entities(&self, copies: &[EdgeCopy]) -> usize {
        let mut count: usize = 0;
        for copy in copies {
            if self.doc_at(copy.end.target as usize).is_some() {
                count = count.saturating_add(1);
            }
        }
        count
    }

    // What an edge leads to. None where it is gone, or its target is no entity.
    fn led_to(&self, end: &FarEnd) -> Option<Target>
        requires { IsCircleKnown (length self.now.sources.entries) end.now.state }
        ensures { result ≡ led_to self.now end.now }
    {
        let audience = self.audience(end.state)?;
        let doc = self.doc_at(end.target as usize)?;
        Some(Target { doc, audience })
    }

    // Adds it to a list, if there is something.
    fn add_led(&self, end: &FarEnd, targets: &mut Vec<Target>) -> Result<(), AllocError>
        requires { IsCircleKnown (length self.now.sources.entries) end.now.state }
        ensures { OnOk result (targets.new.items ≡ targets.old.items ++ option_to_list (led_to self.now end.now)) }
    {
        let Some(target) = self.led_to(end) else {
            return Ok(());
        };
        let audience = match &target.audience {
            Audience::Public => Audience::Public,
            Audience::Only => Audience::Only,
            Audience::Circle(type_no, key) => Audience::Circle(*type_no, *key),
        };
        let doc = target.doc;
        push(targets, Target { doc, audience })
    }

    // The same of some edges. To read it in a loop of its own costs less than edge by edge, since the targets lie
    // in no order.
    fn add_targets(&self, ends: &[FarEnd], targets: &mut Vec<Target>) -> Result<(), AllocError>
        requires { AreEnds self.now ends.now }
        ensures { OnOk result (targets.new.items ≡ targets.old.items ++ filter_map (led_to self.now) ends.now) }
    {
        for end in ends {
            self.add_led(end, targets)?;
        }
        Ok(())
    }

    // The last edge of a source, gone or not, if there ever was one, and its type is below a number.
    fn last_from(&self, number: usize, types: u16) -> Option<PlacedEdge>
        requires { IsRows self.now }
        ensures { result ≡ last_from self.now types number }
    {
        let place = place_of(self.last(Side::Source, number))?;
        let (edge, _) = self.edges.get_index(place as usize)?;
        let last = self.placed(*edge, place);
        if last.type_no() < types {
            Some(last)
        } else {
            None
        }
    }

    /// The sources of types below a number at which edges start, or started, in their order.
    pub fn edge_sources(&self, alloc: Global, types: u16) -> Result<EdgeSources<'_>, AllocError>
        requires { IsRows self.now }
        ensures { IfOk result (AreSources types (contents_of self.now)) }
    {
        let mut lasts = Vec::with_capacity(alloc, self.sources.len())?;
        for number in 0..self.sources.len() {
            push_some(&mut lasts, self.last_from(number, types))?;
        }
        let lasts = self.in_order(lasts);
        let copies = self.edge_copies(alloc, &lasts)?;
        Ok(EdgeSources {
            rows: self,
            lasts,
            copies,
        })
    }
}
