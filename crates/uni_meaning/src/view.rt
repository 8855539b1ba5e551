//! What a viewer may see of a table.
ghost use Rattle.std.specs.Prelude.{◌≡◌, ◌==◌, ◌<◌, IfOk, false, length};
ghost use Rattle.std.specs.List.{list_any};
ghost use Rattle.std.specs.Option.{option_map_or};
ghost use Rattle.uni_schema.specs.Schema.{IsSchema};
ghost use Rattle.uni_table.specs.Contents.{has_edge};
ghost use Rattle.uni_meaning.specs.Hits.{edge_to};
ghost use Rattle.uni_meaning.specs.Policy.{admits, authorised, denials_from, denies, some_owner};
ghost use Rattle.uni_meaning.specs.Standings.{by_edge};

use crate::standing::Standing;
use std::alloc::{AllocError, Global};
use std::marker::Model;
use uni_base::{Audience, EdgeList, EdgeRef, EntityId, Key};
use uni_schema::{Owners, Schema};
use uni_table::Table;

/// A table as a viewer looks at it.
#[derive(Drop)]
pub(crate) struct View<'t> {
    pub alloc: Global,
    pub table: &'t Table,
    pub viewer: EntityId,
    /// The types whose edges deny.
    pub denials: &'t [u16],
}

impl<'t> Model for View<'t> {
    ghost use Rattle.std.specs.Prelude.{◌≡◌};
    ghost use Rattle.uni_schema.specs.Schema.{IsSchema};
    ghost use Rattle.uni_table.specs.TableState.{IsKept};
    ghost use Rattle.uni_meaning.specs.Policy.{denials_from};
    ghost use Rattle.uni_meaning.specs.Viewed.{Viewed};

    ghost Value = { Viewed };

    ghost view = { λ v. record { schema = v.table.now.schema; limits = v.table.now.limits; contents = v.table.now.contents; viewer = v.viewer } };

    ghost invariant = { λ v. (v.denials.now ≡ denials_from 0 v.table.now.schema.types) × IsKept v.table.now.schema v.table.now.limits v.table.now.contents × IsSchema v.table.now.schema };
}

/// The numbers of the types whose edges deny.
pub(crate) fn denials(alloc: Global, schema: &Schema) -> Result<Vec<u16>, AllocError>
    ensures listed { IfOk result (λ numbers. numbers.items ≡ denials_from 0 schema.now.types) }
    ensures kept { IsSchema schema.now }
{
    let mut numbers = Vec::new(alloc);
    for number in 0..schema.types() {
        if schema.type_def(number).deny {
            numbers.push(number)?;
        }
    }
    Ok(numbers)
}

impl<'t> View<'t> {
    /// Whether the viewer may see an edge of the table: an owner may; nobody may whom an owner denies;
    /// else those whom its audience admits.
    pub fn may_see(&self, edge: &EdgeRef) -> bool
        requires { edge.now.type_no < length self.now.schema.types }
        ensures { result ≡ authorised self.now.schema self.now.contents self.now.viewer edge.now }
    {
        let owners = self.table.schema().owners(edge);
        if self.is_among(&owners) {
            return true;
        }
        if self.is_denied(owners.first) || self.is_denied(owners.second) {
            return false;
        }
        match self.table.audience(edge) {
            Some(audience) => self.is_admitted(audience),
            None => false,
        }
    }

    // Whether the viewer is one of the owners.
    fn is_among(&self, owners: &Owners) -> bool
        ensures { result ≡ some_owner (λ owner. owner == self.now.viewer) owners.now }
    {
        owners.first == Some(self.viewer) || owners.second == Some(self.viewer)
    }

    // Whether an owner, if there is one, denies the viewer.
    fn is_denied(&self, owner: Option<EntityId>) -> bool
        ensures { result ≡ option_map_or (denies self.now.schema self.now.contents self.now.viewer) owner false }
    {
        match owner {
            Some(owner) => self.any_reaches(self.denials, &Key::Id(owner)),
            None => false,
        }
    }

    // Whether an edge of some of the types, of a key, leads to the viewer.
    fn any_reaches(&self, types: &[u16], key: &Key) -> bool
        ensures { result ≡ list_any (λ number. has_edge self.now.contents (edge_to number key.now self.now.viewer)) types.now }
    {
        for type_no in types {
            if self.reaches(*type_no, key) {
                return true;
            }
        }
        false
    }

    // Whether an audience admits the viewer.
    fn is_admitted(&self, audience: Audience) -> bool
        ensures { result ≡ admits self.now.contents self.now.viewer audience }
    {
        match audience {
            Audience::Public => true,
            Audience::Only => false,
            Audience::Circle(type_no, key) => self.reaches(type_no, &key),
        }
    }

    // Whether an edge of a type and key leads to the viewer.
    fn reaches(&self, type_no: u16, key: &Key) -> bool
        ensures { result ≡ has_edge self.now.contents (edge_to type_no key.now self.now.viewer) }
    {
        let edge = EdgeRef {
            type_no,
            key: *key,
            target: self.viewer,
        };
        self.table.audience(&edge).is_some()
    }

    /// How the target of an edge stands, with the edges that lead on from it.
    pub fn by_edge(&self, edge: EdgeRef, rest: &[EdgeRef]) -> Result<Standing, AllocError>
        requires { edge.type_no < length self.now.schema.types }
        ensures { IfOk result (λ standing. standing ≡ by_edge self.now edge rest.now) }
    {
        if !self.may_see(&edge) {
            return Ok(Standing::Hidden);
        }
        let mut edges = EdgeList::new(self.alloc);
        edges.push(edge)?;
        edges.extend_from_slice(rest)?;
        Ok(Standing::Shown(edges))
    }
}
