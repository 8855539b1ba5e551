//! Why an edge that was looked for is refused.
ghost use Rattle.std.specs.Prelude.{◌≡◌};
ghost use Rattle.uni_table.specs.Commands.{has_forward_room, refuses_ends, refuses_new_edge};
ghost use Rattle.uni_table.specs.Contents.{count_from, entity_at, has_edge, is_in, source_stands};
ghost use Rattle.uni_table.specs.GraphRows.{contents_of, IsFound, IsRows};

use super::found::FoundEdge;
use super::numbers::Side;
use super::rows::Rows;
use crate::{EntityRow, FeedRefusal};
use uni_base::{EntityId, Key, Limits};
use uni_schema::{Origin, Store, TypeDef};

impl Rows {
    /// Why an edge of a type is refused for its ends, if it is.
    pub fn refuses_ends(&self, type_def: &TypeDef, found: &FoundEdge<'_>) -> Option<FeedRefusal>
        requires kept { IsRows self.now }
        requires found { IsFound self.now found.now }
        ensures { result ≡ refuses_ends (contents_of self.now) type_def.now found.now.edge.now }
    {
        if !self.source_stands(type_def.origin, &found.edge.key) {
            Some(FeedRefusal::NoSource)
        } else if !self.leads_into(type_def.target, found) {
            Some(FeedRefusal::NoTarget)
        } else {
            None
        }
    }

    /// Why an edge of a type is refused for want of room, if it is.
    pub fn refuses_new_edge(
        &self,
        limits: &Limits,
        type_def: &TypeDef,
        found: &FoundEdge<'_>,
    ) -> Option<FeedRefusal>
        requires kept { IsRows self.now }
        requires found { IsFound self.now found.now }
        ensures { result ≡ refuses_new_edge limits.now (contents_of self.now) type_def.now found.now.edge.now }
    {
        if self.has_edge(found) {
            None
        } else if !self.has_forward_room(limits, type_def, found) {
            Some(FeedRefusal::ForwardFull)
        } else if self.count_edges() < limits.edges {
            None
        } else {
            Some(FeedRefusal::TableFull)
        }
    }

    // Whether there is an edge.
    fn has_edge(&self, found: &FoundEdge<'_>) -> bool
        requires kept { IsRows self.now }
        requires found { IsFound self.now found.now }
        ensures { result ≡ has_edge (contents_of self.now) found.now.edge.now }
    {
        match found.place {
            Some(index) => self.is_live(index),
            None => false,
        }
    }

    // Whether one forward edge more may start at the key, or the edge is an index edge.
    fn has_forward_room(&self, limits: &Limits, type_def: &TypeDef, found: &FoundEdge<'_>) -> bool
        requires kept { IsRows self.now }
        requires found { IsFound self.now found.now }
        ensures { result ≡ has_forward_room limits.now (contents_of self.now) type_def.now found.now.edge.now }
    {
        type_def.store == Store::Index || self.count_beside(found) < limits.forward
    }

    // How many edges there are of the type and key of an edge.
    fn count_beside(&self, found: &FoundEdge<'_>) -> u64
        requires kept { IsRows self.now }
        requires found { IsFound self.now found.now }
        ensures { result ≡ count_from (contents_of self.now) found.now.edge.now.type_no found.now.edge.now.key }
    {
        match found.source {
            Some(index) => self.count_at(Side::Source, index),
            None => 0,
        }
    }

    // Whether edges may start at a key.
    fn source_stands(&self, origin: Origin, key: &Key) -> bool
        requires { IsRows self.now }
        ensures { result ≡ source_stands (contents_of self.now) origin key.now }
    {
        match (origin, *key) {
            (Origin::Words, _) => true,
            (Origin::Vertical(vertical), Key::Id(id)) => self.is_in(vertical, id),
            (Origin::Vertical(_), Key::Word(_)) => false,
        }
    }

    // Whether an id is that of an entity of a vertical.
    fn is_in(&self, vertical: u16, id: EntityId) -> bool
        requires { IsRows self.now }
        ensures { result ≡ is_in (contents_of self.now) vertical id }
    {
        self.entity(id).is_some_and(|row| row.vertical == vertical)
    }

    // Whether the target of an edge is an entity of a vertical.
    fn leads_into(&self, vertical: u16, found: &FoundEdge<'_>) -> bool
        requires kept { IsRows self.now }
        requires found { IsFound self.now found.now }
        ensures { result ≡ is_in (contents_of self.now) vertical found.now.edge.now.target }
    {
        self.target_row(found)
            .is_some_and(|row| row.vertical == vertical)
    }

    // The target of an edge. None where it is no entity.
    fn target_row(&self, found: &FoundEdge<'_>) -> Option<EntityRow>
        requires kept { IsRows self.now }
        requires found { IsFound self.now found.now }
        ensures { result ≡ entity_at (contents_of self.now) found.now.edge.now.target }
    {
        match found.target {
            Some(number) => self.entity_at(number),
            None => None,
        }
    }
}
