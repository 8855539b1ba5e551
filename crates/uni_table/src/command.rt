use uni_base::{Audience, EntityId, Rank, Word};

/// An entity of the table.
#[derive(Clone, Copy, Debug, PartialEq, Eq)]
pub struct EntityRow {
    pub vertical: u16,
    pub rank: Rank,
}

/// What the table holds of an edge beside its type, key and target.
#[derive(Clone, Copy, Debug, PartialEq, Eq)]
pub struct EdgeRow {
    pub audience: Audience,
    /// the number of the publish that ends the edge, or 0 for none
    pub end: u64,
}

/// The audience of an edge as a command writes it: everybody, the owners alone, or a circle, which is
/// a type's number and a key as text.
#[derive(Clone, Copy, Debug, PartialEq, Eq)]
pub enum AudienceText {
    Public,
    Only,
    Circle(u16, Word),
}

/// One change of the table.
#[derive(Clone, Copy, Debug, PartialEq, Eq)]
pub enum Command {
    /// Adds an entity, or changes its rank.
    Entity {
        vertical: u16,
        id: EntityId,
        rank: Rank,
    },
    /// Removes an entity, and every edge that leaves or reaches it.
    Gone {
        id: EntityId,
    },
    /// Adds an edge, or changes its audience and end.
    Edge {
        type_no: u16,
        key: Word,
        target: EntityId,
        audience: AudienceText,
        /// the number of the publish that ends the edge, or 0 for none
        until: u64,
    },
    /// Removes an edge.
    Cut {
        type_no: u16,
        key: Word,
        target: EntityId,
    },
}
