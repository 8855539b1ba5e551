ghost use Rattle.std.specs.Prelude.{◌≡◌, ◌<◌, IfSome, Some, true, false, length, map, slice_get};
ghost use Rattle.std.specs.List.{list_any};
ghost use Rattle.uni_base.specs.Fields.{same};

use indexmap::IndexMap;
use std::alloc::{AllocError, Global};
use std::marker::Model;
use uni_base::{EdgeRef, EntityId, Key, Word, read_id};

/// A vertical: a kind of entity, kept in shards with replicas each.
#[derive(Clone, Copy, Debug, PartialEq, Eq)]
pub struct VerticalDef {
    pub name: Word,
    pub shards: u32,
    pub replicas: u32,
}

/// Where the edges of a type start: at the entities of a vertical, or at words.
#[derive(Clone, Copy, Debug, PartialEq, Eq)]
pub enum Origin {
    Vertical(u16),
    Words,
}

/// Whose edges those of a type are.
#[derive(Clone, Copy, Debug, PartialEq, Eq)]
pub enum Owner {
    Source,
    Target,
    Both,
}

/// Where the edges of a type are kept: in posting lists at their targets, or with their sources.
#[derive(Clone, Copy, Debug, PartialEq, Eq)]
pub enum Store {
    Index,
    Forward,
}

/// A type of edges. Where it denies, an edge of it from an owner of some other edge to a viewer keeps
/// that edge from the viewer.
#[derive(Clone, Copy, Debug, PartialEq, Eq)]
pub struct TypeDef {
    pub name: Word,
    pub origin: Origin,
    pub target: u16,
    pub owner: Owner,
    pub store: Store,
    pub deny: bool,
}

/// The entities that own an edge.
#[derive(Clone, Copy, Debug, PartialEq, Eq)]
pub struct Owners {
    /// the entity that the edge starts at, where it is an owner
    pub first: Option<EntityId>,
    /// the target, where it is an owner
    pub second: Option<EntityId>,
}

/// The format of a script, and its verticals and types, each numbered from 0 in the order of their
/// lines.
#[derive(Drop)]
pub struct Schema {
    pub(crate) format: u32,
    pub(crate) verticals: IndexMap<Word, VerticalDef>,
    pub(crate) types: IndexMap<Word, TypeDef>,
}

impl Model for Schema {
    ghost use Rattle.uni_schema.specs.Schema.{Declarations, AreNamed, IsSchema};
    ghost use Rattle.indexmap.specs.IndexMap.{values};

    ghost Value = { Declarations };

    ghost view = { λ s. record { format = s.format; verticals = values s.verticals; types = values s.types } };

    ghost invariant = { λ s. AreNamed s.verticals.entries s.types.entries × IsSchema (record { format = s.format; verticals = values s.verticals; types = values s.types }) };
}

impl Schema {
    ghost use Rattle.uni_schema.specs.Schema.{vertical_no, type_no, key_of, owners_of, shard_of, nothing, denials, is_vertical, is_type, IsSchema};

    /// Nothing declared.
    pub(crate) fn new(alloc: Global) -> Schema
        ensures { result ≡ nothing }
    {
        Schema {
            format: 1,
            verticals: IndexMap::new(alloc),
            types: IndexMap::new(alloc),
        }
    }

    /// The format of the script: 1 or 2. Every schema keeps what `IsSchema` says.
    pub fn format(&self) -> u32
        ensures format { result ≡ self.now.format }
        ensures kept { IsSchema self.now }
    {
        self.format
    }

    /// How many types deny.
    pub(crate) fn denials(&self) -> usize
        ensures { result ≡ denials self.now.types }
    {
        self.types.values().filter(|t| t.deny).count()
    }

    /// How many verticals there are.
    pub fn verticals(&self) -> u16
        ensures count { result ≡ length self.now.verticals }
        ensures kept { IsSchema self.now }
    {
        self.verticals.len() as u16
    }

    /// How many types there are.
    pub fn types(&self) -> u16
        ensures count { result ≡ length self.now.types }
        ensures kept { IsSchema self.now }
    {
        self.types.len() as u16
    }

    pub fn vertical(&self, no: u16) -> &VerticalDef
        requires { no < length self.now.verticals }
        ensures at { slice_get self.now.verticals no ≡ Some result.now }
        ensures kept { is_vertical result.now ≡ true }
    {
        &self.verticals[no as usize]
    }

    pub fn type_def(&self, no: u16) -> &TypeDef
        requires { no < length self.now.types }
        ensures at { slice_get self.now.types no ≡ Some result.now }
        ensures kept { is_type (length self.now.verticals) result.now ≡ true }
    {
        &self.types[no as usize]
    }

    /// The number of a vertical. None where the name is not declared.
    pub fn vertical_no(&self, name: &Word) -> Option<u16>
        ensures number { result ≡ vertical_no self.now name.now }
        ensures within { IfSome result (λ number. number < length self.now.verticals) }
    {
        Some(self.verticals.get_index_of(name)? as u16)
    }

    /// The number of a type. None where the name is not declared.
    pub fn type_no(&self, name: &Word) -> Option<u16>
        ensures number { result ≡ type_no self.now name.now }
        ensures within { IfSome result (λ number. number < length self.now.types) }
    {
        Some(self.types.get_index_of(name)? as u16)
    }

    /// The shard of an entity in a vertical: its id modulo the number of shards.
    pub fn shard_of(&self, vertical: u16, id: EntityId) -> u32
        requires { vertical < length self.now.verticals }
        ensures { result ≡ shard_of self.now vertical id }
    {
        (id.get() % self.vertical(vertical).shards as u64) as u32
    }

    /// The key that a text is under a type. None where the type's edges start at entities and the
    /// text spells no id.
    pub fn key_of(&self, type_no: u16, text: &Word) -> Option<Key>
        requires { type_no < length self.now.types }
        ensures { result ≡ key_of self.now type_no text.now }
    {
        match self.type_def(type_no).origin {
            Origin::Vertical(_) => Some(Key::Id(read_id(text.bytes())?)),
            Origin::Words => Some(Key::Word(*text)),
        }
    }

    /// Who owns an edge.
    pub fn owners(&self, edge: &EdgeRef) -> Owners
        requires { edge.now.type_no < length self.now.types }
        ensures { result ≡ owners_of self.now edge.now }
    {
        let owner = self.type_def(edge.type_no).owner;
        let source = match edge.key {
            Key::Id(id) => Some(id),
            Key::Word(_) => None,
        };
        Owners {
            first: if owner == Owner::Target { None } else { source },
            second: if owner == Owner::Source {
                None
            } else {
                Some(edge.target)
            },
        }
    }
}
