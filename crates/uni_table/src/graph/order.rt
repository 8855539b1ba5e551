//! Edges by their places, in the order of type numbers, keys and targets.
ghost use Rattle.std.specs.Prelude.{◌≡◌, ◌<◌, ◌++◌, false, true, is_some, map, slice_get, IfOk, OnOk, IsPermutation, IsSortedByKey};
ghost use Rattle.std.specs.List.{filter_map};
ghost use Rattle.std.specs.Map.{keys_of};
ghost use Rattle.std.specs.Option.{option_to_list};
ghost use Rattle.uni_base.specs.EdgeOrder.{edge_cmp};
ghost use Rattle.uni_table.specs.GraphOrder.{edge_told, key_told, short_no, short_id, leads_tell, lead_of, type_told, standing_at};

use super::numbers::{EdgeNo, Slot};
use super::rows::Rows;
use std::alloc::{AllocError, Global};
use std::cmp::Ordering;
use uni_base::{EdgeRef, EntityId, Key};

/// How many numbers a type has for its keys: 2^48.
const SPAN: u64 = 281_474_976_710_656;

/// The number of every key of a type that has none of its own: of the words, and of the ids from it on.
const LAST: u64 = SPAN - 1;

/// The place of an edge, with what the edge is ordered by.
#[derive(Clone, Copy, Debug)]
pub(crate) struct PlacedEdge {
    /// its type and its key as one number
    pub lead: u64,
    pub target: EntityId,
    /// the number of its source, which has the key
    pub source: u32,
    pub place: u32,
}

// The number of a key in its type.
fn short_no(key: &Key) -> u64
    ensures number { result ≡ short_no key.now }
    ensures within { result < 281474976710656 }
{
    match key {
        Key::Id(id) => {
            let number = id.get();
            if number < LAST { number } else { LAST }
        }
        Key::Word(_) => LAST,
    }
}

/// A type and a key as one number.
pub(super) fn lead(type_no: u16, key: &Key) -> u64
    ensures { result ≡ lead_of type_no key.now }
{
    u64::from(type_no) * SPAN + short_no(key)
}

impl PlacedEdge {
    /// The number of its type.
    pub(super) fn type_no(&self) -> u16
        ensures { result ≡ type_told self.now }
    {
        (self.lead / SPAN) as u16
    }

    // The id at which it starts, where the number of its key is that.
    fn short_id(&self) -> Option<EntityId>
        ensures { result ≡ short_id self.now }
    {
        let number = self.lead % SPAN;
        if number == LAST {
            return None;
        }
        EntityId::new(number)
    }

    // Whether the number of its key is an id.
    fn is_short(&self) -> bool
        ensures { result ≡ is_some (short_id self.now) }
    {
        let number = self.lead % SPAN;
        number != 0 && number != LAST
    }
}

// Whether two edges are of two types, or both keys are ids by their numbers.
fn leads_tell(one: &PlacedEdge, other: &PlacedEdge) -> bool
    ensures { result ≡ leads_tell one.now other.now }
{
    (one.type_no() != other.type_no()) | (one.is_short() & other.is_short())
}

impl Rows {
    // The key of an edge.
    fn key_of(&self, edge: &PlacedEdge) -> Key
        ensures { result ≡ key_told (keys_of self.now.sources.entries) edge.now }
    {
        match edge.short_id() {
            Some(id) => Key::Id(id),
            None => match self.sources.get_index(edge.source as usize) {
                Some((short, _)) => short.source().key,
                None => Key::Id(edge.target),
            },
        }
    }

    /// The edge itself.
    pub fn edge_of(&self, edge: &PlacedEdge) -> EdgeRef
        ensures { result ≡ edge_told self.now edge.now }
    {
        EdgeRef {
            type_no: edge.type_no(),
            key: self.key_of(edge),
            target: edge.target,
        }
    }

    // The order of two edges by their keys as they stand in the rows.
    fn compare_told(&self, one: &PlacedEdge, other: &PlacedEdge) -> Ordering
        ensures { result ≡ edge_cmp (edge_told self.now one.now) (edge_told self.now other.now) }
    {
        match one.type_no().cmp(&other.type_no()) {
            Ordering::Equal => match self.key_of(one).cmp(&self.key_of(other)) {
                Ordering::Equal => one.target.cmp(&other.target),
                unequal => unequal,
            },
            unequal => unequal,
        }
    }

    // The order of two edges of one source, which is that of their targets within a type.
    fn compare_targets(&self, one: &PlacedEdge, other: &PlacedEdge) -> Ordering
        requires one { is_some (short_id one.now) ≡ false }
        requires other { is_some (short_id other.now) ≡ false }
        requires source { one.now.source ≡ other.now.source }
        ensures { result ≡ edge_cmp (edge_told self.now one.now) (edge_told self.now other.now) }
    {
        one.type_no()
            .cmp(&other.type_no())
            .then(one.target.get().cmp(&other.target.get()))
    }

    // The order of two edges, by the number of the source where both have one and the same.
    #[inline(never)]
    fn compare_long(&self, one: &PlacedEdge, other: &PlacedEdge) -> Ordering
        ensures { result ≡ edge_cmp (edge_told self.now one.now) (edge_told self.now other.now) }
    {
        if one.source == other.source && !one.is_short() && !other.is_short() {
            return self.compare_targets(one, other);
        }
        self.compare_told(one, other)
    }

    // The order of two edges of two types, or whose keys are ids by their numbers.
    fn compare_leads(&self, one: &PlacedEdge, other: &PlacedEdge) -> Ordering
        requires { leads_tell one.now other.now ≡ true }
        ensures { result ≡ edge_cmp (edge_told self.now one.now) (edge_told self.now other.now) }
    {
        one.lead
            .cmp(&other.lead)
            .then(one.target.get().cmp(&other.target.get()))
    }

    // The order of two edges. It is told by two numbers of each, but where the keys are of one type and one of
    // them is no id by its number.
    fn compare(&self, one: &PlacedEdge, other: &PlacedEdge) -> Ordering
        ensures { result ≡ edge_cmp (edge_told self.now one.now) (edge_told self.now other.now) }
    {
        if leads_tell(one, other) {
            self.compare_leads(one, other)
        } else {
            self.compare_long(one, other)
        }
    }

    // What stands at the place of an edge, if there is such a place.
    fn standing_at(&self, place: u32) -> Option<(EdgeNo, Slot)>
        ensures { result ≡ slice_get self.now.edges.entries place }
    {
        let (number, slot) = self.edges.get_index(place as usize)?;
        Some((*number, slot.slot()))
    }

    /// What stands at the places of edges, in the order of the edges. To read it in a loop of its own costs
    /// less than one by one: the places lie in no order.
    pub fn standing(
        &self,
        alloc: Global,
        edges: &[PlacedEdge],
    ) -> Result<Vec<Option<(EdgeNo, Slot)>>, AllocError>
        ensures { IfOk result (λ standing. standing.items ≡ map (standing_at self.now) edges.now) }
    {
        let mut standing = Vec::with_capacity(alloc, edges.len())?;
        for edge in edges {
            standing.push(self.standing_at(edge.place))?;
        }
        Ok(standing)
    }

    /// The same edges in their order.
    pub fn in_order(&self, edges: Vec<PlacedEdge>) -> Vec<PlacedEdge>
        ensures permutation { IsPermutation edges.items result.items }
        ensures sorted { IsSortedByKey (edge_told self.now) edge_cmp result.items }
    {
        let mut edges = edges;
        edges.sort_unstable_by(|one, other| self.compare(one, other));
        edges
    }
}
