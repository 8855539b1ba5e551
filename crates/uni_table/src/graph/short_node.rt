//! What an id is and leads to, in less memory.
ghost use Rattle.std.specs.Prelude.{◌≡◌, ℕ};
ghost use Rattle.uni_table.specs.GraphRows.{settled_entity, written_entity};
ghost use Rattle.uni_table.specs.ShortNodes.{entity_of, now_of, then_of};

use super::numbers::{EntityBefore, Node};
use crate::EntityRow;
use std::alloc::AllocError;
use std::marker::Model;
use uni_base::Rank;

/// Whether an id is an entity.
#[derive(Clone, Copy)]
enum Kind {
    Absent,
    Present,
}

/// Whether it was one at the last publish.
#[derive(Clone, Copy)]
enum Was {
    Same,
    Absent,
    Present,
}

/// A node in 20 bytes: the parts of its two entities lie side by side, and say nothing where it is or was none.
/// Contracts see the node.
#[derive(Drop)]
pub(crate) struct ShortNode {
    kind: Kind,
    was: Was,
    vertical: u16,
    vertical_before: u16,
    rank: Rank,
    rank_before: Rank,
    last_edge: u32,
}

impl Model for ShortNode {
    ghost use Rattle.uni_table.specs.declared.graph.numbers.Node.{Node};
    ghost use Rattle.uni_table.specs.ShortNodes.{entity_of, now_of, then_of};

    ghost Value = { Node };

    ghost view = { λ s. record {
      row = now_of s.kind (entity_of s.vertical s.rank);
      last_edge = s.last_edge;
      before = then_of s.was (entity_of s.vertical_before s.rank_before);
    } };
}

impl Kind {
    fn row(self, row: EntityRow) -> Option<EntityRow>
        ensures { result ≡ now_of self row }
    {
        match self {
            Kind::Absent => None,
            Kind::Present => Some(row),
        }
    }
}

impl Was {
    fn before(self, row: EntityRow) -> EntityBefore
        ensures { result ≡ then_of self row }
    {
        match self {
            Was::Same => EntityBefore::Same,
            Was::Absent => EntityBefore::Absent,
            Was::Present => EntityBefore::Present(row),
        }
    }
}

// An entity by its kind and its parts.
fn parts_now(row: Option<EntityRow>) -> (Kind, EntityRow)
    ensures { now_of result.0 result.1 ≡ row }
{
    match row {
        Some(row) => (Kind::Present, row),
        None => (Kind::Absent, no_row()),
    }
}

// What it was by its kind and its parts.
fn parts_then(before: EntityBefore) -> (Was, EntityRow)
    ensures { then_of result.0 result.1 ≡ before }
{
    match before {
        EntityBefore::Same => (Was::Same, no_row()),
        EntityBefore::Absent => (Was::Absent, no_row()),
        EntityBefore::Present(row) => (Was::Present, row),
    }
}

// Parts that say nothing.
fn no_row() -> EntityRow {
    EntityRow {
        vertical: 0,
        rank: Rank(0),
    }
}

impl ShortNode {
    /// A node in less memory.
    pub fn of(node: Node) -> ShortNode
        ensures { result ≡ node }
    {
        let (kind, now) = parts_now(node.row);
        let (was, then) = parts_then(node.before);
        ShortNode {
            kind,
            was,
            vertical: now.vertical,
            vertical_before: then.vertical,
            rank: now.rank,
            rank_before: then.rank,
            last_edge: node.last_edge,
        }
    }

    /// The node itself.
    pub fn node(&self) -> Node
        ensures { result ≡ self.now }
    {
        Node {
            row: self.row(),
            last_edge: self.last_edge,
            before: self.before(),
        }
    }

    /// The entity, if it is one.
    pub fn row(&self) -> Option<EntityRow>
        ensures { result ≡ self.now.row }
    {
        self.kind.row(EntityRow {
            vertical: self.vertical,
            rank: self.rank,
        })
    }

    /// What it was at the last publish.
    pub fn before(&self) -> EntityBefore
        ensures { result ≡ self.now.before }
    {
        self.was.before(EntityRow {
            vertical: self.vertical_before,
            rank: self.rank_before,
        })
    }

    /// The number of the last edge that leads there, gone or not, or 0.
    pub fn last_edge(&self) -> u32
        ensures { result ≡ self.now.last_edge }
    {
        self.last_edge
    }

    /// Writes its entity, or that it is none.
    pub fn write(&mut self, row: Option<EntityRow>)
        ensures { self.new ≡ written_entity self.old row }
    {
        *self = ShortNode::of(self.node().written(row));
    }

    /// Writes the number of the last edge that leads there.
    pub fn write_last_edge(&mut self, number: u32)
        ensures { self.new ≡ record self.old { last_edge = number } }
    {
        self.last_edge = number;
    }

    /// What it is now is what it was at the last publish.
    pub fn settle(&mut self)
        ensures { self.new ≡ settled_entity self.old }
    {
        self.was = Was::Same;
    }
}

impl Clone for ShortNode {
    ghost is_clone = { λ s t. t ≡ s };

    fn clone(&self) -> Result<ShortNode, AllocError> {
        Ok(ShortNode::of(self.node()))
    }
}
