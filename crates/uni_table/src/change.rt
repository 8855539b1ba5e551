use crate::{EdgeRow, EntityRow};
use uni_base::{EdgeRef, EntityId, Rank, Rows};

/// An entity that a batch changed: what it was as the last batch ended, and what it is. None where it is
/// none.
#[derive(Clone, Copy, Debug, PartialEq, Eq)]
pub struct EntityChange {
    pub id: EntityId,
    pub before: Option<EntityRow>,
    pub after: Option<EntityRow>,
}

/// An edge that a batch changed, or the rank of whose target it changed: its row as the last batch ended,
/// and its row, and so the rank of its target. None where there is none.
#[derive(Clone, Copy, Debug, PartialEq, Eq)]
pub struct EdgeChange {
    pub edge: EdgeRef,
    pub before: Option<EdgeRow>,
    pub after: Option<EdgeRow>,
    pub rank_before: Option<Rank>,
    pub rank_after: Option<Rank>,
}

/// Entities that differ, by id.
pub type EntityChanges = Rows<EntityChange>;

/// Edges that differ, by type number, key and target.
pub type EdgeChanges = Rows<EdgeChange>;
