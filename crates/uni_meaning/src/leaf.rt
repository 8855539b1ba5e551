//! How entities stand under terms and prefix terms.
ghost use Rattle.std.specs.Prelude.{◌≡◌, ◌<◌, IfOk, length, map};
ghost use Rattle.uni_meaning.specs.Standings.{is_from, is_word_from, under_prefix, under_term};

use crate::place::Place;
use crate::standing::Standing;
use crate::view::View;
use std::alloc::AllocError;
use uni_base::{DocKey, EdgeRef, EntityId, Key, Word};

impl<'t> View<'t> {
    /// How entities stand under the term of a type and key.
    pub fn under_terms(
        &self,
        type_no: u16,
        key: &Key,
        places: &[Place],
    ) -> Result<Vec<Standing>, AllocError>
        requires { type_no < length self.now.schema.types }
        ensures { IfOk result (λ standings. standings.items ≡ map (λ p. under_term self.now type_no key.now p.doc) places.now) }
    {
        let mut standings = Vec::new(self.alloc);
        for place in places {
            standings.push(self.under_term(type_no, key, &place.doc)?)?;
        }
        Ok(standings)
    }

    /// How entities stand under the prefix term of a type and the beginning of its keys.
    pub fn under_prefixes(
        &self,
        type_no: u16,
        from: &Word,
        places: &[Place],
    ) -> Result<Vec<Standing>, AllocError>
        requires { type_no < length self.now.schema.types }
        ensures { IfOk result (λ standings. standings.items ≡ map (λ p. under_prefix self.now type_no from.now p.doc) places.now) }
    {
        let mut standings = Vec::new(self.alloc);
        for place in places {
            standings.push(self.under_prefix(type_no, from, &place.doc)?)?;
        }
        Ok(standings)
    }

    /// How an entity stands under the term of a type and key.
    pub fn under_term(&self, type_no: u16, key: &Key, doc: &DocKey) -> Result<Standing, AllocError>
        requires { type_no < length self.now.schema.types }
        ensures { IfOk result (λ standing. standing ≡ under_term self.now type_no key.now doc.now) }
    {
        let edge = EdgeRef {
            type_no,
            key: *key,
            target: doc.id,
        };
        match self.table.audience(&edge) {
            Some(_) => self.by_edge(edge, &[]),
            None => Ok(Standing::Missed),
        }
    }

    /// How an entity stands under the prefix term of a type and the beginning of its keys. It costs the
    /// edges that touch the entity.
    pub fn under_prefix(
        &self,
        type_no: u16,
        from: &Word,
        doc: &DocKey,
    ) -> Result<Standing, AllocError>
        requires { type_no < length self.now.schema.types }
        ensures { IfOk result (λ standing. standing ≡ under_prefix self.now type_no from.now doc.now) }
    {
        let mut standing = Standing::Missed;
        let touching = self.table.touching(doc.id)?;
        for held in touching.as_slice() {
            if is_from(type_no, from, doc.id, &held.edge) {
                standing = standing.or(self.alloc, &self.by_edge(held.edge, &[])?)?;
            }
        }
        Ok(standing)
    }
}

// Whether an edge is of a type and leads from a word that begins so to an entity.
fn is_from(type_no: u16, from: &Word, id: EntityId, edge: &EdgeRef) -> bool
    ensures { result ≡ is_from type_no from.now id edge.now }
{
    type_no == edge.type_no && id == edge.target && is_word_from(from, &edge.key)
}

// Whether a key is a word that begins so.
fn is_word_from(from: &Word, key: &Key) -> bool
    ensures { result ≡ is_word_from from.now key.now }
{
    match key {
        Key::Id(_) => false,
        Key::Word(word) => word.bytes().starts_with(from.bytes()),
    }
}
