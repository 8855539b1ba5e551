//! What the rows of a graph are made of: keys by number, and what stands at them.
ghost use Rattle.std.specs.Prelude.{◌≡◌};
ghost use Rattle.uni_table.specs.GraphChanges.{differs_from, is_changed, is_changed_entity, is_circle, is_only, is_public, end_before, no_ranks, rank_of, ranks_differ, ranks_of, state_before};
ghost use Rattle.uni_table.specs.GraphRows.{entity_before, is_ended, is_live, is_same, is_same_entity, next_at, stood, stood_entity, written, written_entity};

use crate::EntityRow;
use uni_base::{Key, Rank};

/// A type and a key: what edges start at.
#[derive(Clone, Copy, Debug, PartialEq, Eq, Hash)]
pub struct Source {
    pub type_no: u16,
    pub key: Key,
}

/// An id that is or was an entity, or that an edge leads or led to.
#[derive(Clone, Copy, Debug)]
pub(crate) struct Node {
    /// the entity, if it is one
    pub row: Option<EntityRow>,
    /// the number of the last edge that leads there, gone or not, or 0
    pub last_edge: u32,
    /// the entity that it was at the last publish
    pub before: EntityBefore,
}

/// What an id was at the last publish: what it is now, no entity, or one.
#[derive(Clone, Copy, Debug)]
pub(crate) enum EntityBefore {
    Same,
    Absent,
    Present(EntityRow),
}

impl EntityBefore {
    /// Whether the batch has not touched it.
    pub fn is_same(self) -> bool
        ensures { result ≡ is_same_entity self }
    {
        matches!(self, EntityBefore::Same)
    }

    /// The same, told without what it is now.
    #[tactic(auto, unfolding(crate::specs::GraphRows::stood_entity))]
    pub fn stood(self, row: Option<EntityRow>) -> EntityBefore
        ensures { result ≡ stood_entity self row }
    {
        match (self, row) {
            (EntityBefore::Same, None) => EntityBefore::Absent,
            (EntityBefore::Same, Some(row)) => EntityBefore::Present(row),
            (before, _) => before,
        }
    }
}

impl Node {
    /// The id after the batch has written its entity.
    pub fn written(self, row: Option<EntityRow>) -> Node
        ensures { result ≡ written_entity self row }
    {
        Node {
            row,
            before: self.before.stood(self.row),
            ..self
        }
    }

    /// Whether it differs from what it was at the last publish.
    pub fn is_changed(&self) -> bool
        ensures { result ≡ is_changed_entity self.now }
    {
        match self.before {
            EntityBefore::Same => false,
            EntityBefore::Absent => self.row.is_some(),
            EntityBefore::Present(before) => differs_from(before, self.row),
        }
    }

    /// Its ranks at the last publish and now.
    pub fn ranks(&self) -> Ranks
        ensures { result ≡ ranks_of self.now }
    {
        Ranks {
            before: rank_of(self.row_before()),
            after: rank_of(self.row),
        }
    }

    /// The entity that it was at the last publish, if it was one.
    pub fn row_before(&self) -> Option<EntityRow>
        ensures { result ≡ entity_before self.now }
    {
        match self.before {
            EntityBefore::Same => self.row,
            EntityBefore::Absent => None,
            EntityBefore::Present(row) => Some(row),
        }
    }
}

// Whether an entity is not what another row says.
fn differs_from(before: EntityRow, row: Option<EntityRow>) -> bool
    ensures { result ≡ differs_from before row }
{
    match row {
        Some(row) => before.vertical != row.vertical || before.rank != row.rank,
        None => true,
    }
}

// The rank of an entity, if it is one.
fn rank_of(row: Option<EntityRow>) -> Option<Rank>
    ensures { result ≡ rank_of row }
{
    Some(row?.rank)
}

/// The ranks of an id at the last publish and now. None where it was or is no entity.
#[derive(Clone, Copy, Debug)]
pub(crate) struct Ranks {
    pub before: Option<Rank>,
    pub after: Option<Rank>,
}

impl Ranks {
    /// Those of what is no entity.
    pub fn none() -> Ranks
        ensures { result ≡ no_ranks }
    {
        Ranks {
            before: None,
            after: None,
        }
    }

    /// Whether they differ.
    pub fn differ(self) -> bool
        ensures { result ≡ ranks_differ self }
    {
        match (self.before, self.after) {
            (None, None) => false,
            (Some(before), Some(after)) => before != after,
            _ => true,
        }
    }
}

/// An edge by the numbers of its source and its target.
#[derive(Clone, Copy, Debug, PartialEq, Eq, Hash)]
pub(crate) struct EdgeNo {
    pub source: u32,
    pub target: u32,
}

/// Whether an edge is gone, and else its audience, a circle by the number of its source.
#[derive(Clone, Copy, Debug)]
pub(crate) enum SlotState {
    Gone,
    Public,
    Only,
    Circle(u32),
}

impl SlotState {
    fn is_public(self) -> bool
        ensures { result ≡ is_public self }
    {
        matches!(self, SlotState::Public)
    }

    fn is_only(self) -> bool
        ensures { result ≡ is_only self }
    {
        matches!(self, SlotState::Only)
    }

    fn is_circle(self, source: u32) -> bool
        ensures { result ≡ is_circle source self }
    {
        match self {
            SlotState::Circle(number) => source == number,
            _ => false,
        }
    }

    /// Whether the edge is not gone.
    pub fn is_live(self) -> bool
        ensures { result ≡ is_live self }
    {
        !matches!(self, SlotState::Gone)
    }
}

/// What stood at an edge at the last publish: what stands there now, nothing, or an edge with its
/// audience, a circle by the number of its source, and its end.
#[derive(Clone, Copy, Debug)]
pub(crate) enum Before {
    Same,
    Gone,
    Public(u64),
    Only(u64),
    Circle(u32, u64),
}

impl Before {
    /// Whether the batch has not touched it.
    pub fn is_same(self) -> bool
        ensures { result ≡ is_same self }
    {
        matches!(self, Before::Same)
    }

    /// The same, told without what stands there now.
    #[tactic(auto, unfolding(crate::specs::GraphRows::stood))]
    pub fn stood(self, state: SlotState, end: u64) -> Before
        ensures { result ≡ stood self state end }
    {
        match self {
            Before::Same => match state {
                SlotState::Gone => Before::Gone,
                SlotState::Public => Before::Public(end),
                SlotState::Only => Before::Only(end),
                SlotState::Circle(source) => Before::Circle(source, end),
            },
            before => before,
        }
    }
}

/// What stands at an edge.
#[derive(Clone, Copy, Debug)]
pub(crate) struct Slot {
    pub state: SlotState,
    /// the number of the publish that ends the edge, or 0
    pub end: u64,
    /// the number of the last earlier edge with the same target, or 0
    pub next_into: u32,
    /// the number of the last earlier edge with the same source, or 0
    pub next_from: u32,
    pub before: Before,
}

/// The two ends at which an edge is chained to earlier ones.
#[derive(Clone, Copy, Debug, PartialEq, Eq)]
pub(crate) enum Side {
    Target,
    Source,
}

impl Slot {
    /// The edge after the batch has written its state and its end.
    pub fn written(self, state: SlotState, end: u64) -> Slot
        ensures { result ≡ written self state end }
    {
        Slot {
            state,
            end,
            before: self.before.stood(self.state, self.end),
            ..self
        }
    }

    /// The state and the end of the edge at the last publish.
    pub fn stood(&self) -> (SlotState, u64)
        ensures state { result.0 ≡ state_before self.now.before self.now.state }
        ensures end { result.1 ≡ end_before self.now.before self.now.end }
    {
        match self.before {
            Before::Same => (self.state, self.end),
            Before::Gone => (SlotState::Gone, 0),
            Before::Public(end) => (SlotState::Public, end),
            Before::Only(end) => (SlotState::Only, end),
            Before::Circle(source, end) => (SlotState::Circle(source), end),
        }
    }

    /// Whether the edge differs from what stood there at the last publish.
    pub fn is_changed(&self) -> bool
        ensures { result ≡ is_changed self.now }
    {
        match self.before {
            Before::Same => false,
            Before::Gone => self.state.is_live(),
            Before::Public(end) => !self.state.is_public() || self.end != end,
            Before::Only(end) => !self.state.is_only() || self.end != end,
            Before::Circle(source, end) => !self.state.is_circle(source) || self.end != end,
        }
    }

    /// Whether the edge is not gone, and ends at a publish or before it.
    pub fn is_ended(&self, publish: u64) -> bool
        ensures { result ≡ is_ended publish self.now }
    {
        self.state.is_live() && self.end != 0 && self.end <= publish
    }

    /// The number of the last earlier edge with the same number at an end, or 0.
    pub fn next(&self, side: Side) -> u32
        ensures { result ≡ next_at side self.now }
    {
        match side {
            Side::Target => self.next_into,
            Side::Source => self.next_from,
        }
    }
}
