use uni_base::{Audience, EntityId, Rows};

/// One edge of a record: its target, and who may see it.
#[derive(Clone, Copy, Debug, PartialEq, Eq)]
pub struct ForwardItem {
    pub target: EntityId,
    pub audience: Audience,
}

/// The edges of a record, in the order of their targets.
pub type ForwardItems = Rows<ForwardItem>;

/// Which record: the type of its edges, and the entity that they start at.
#[derive(Clone, Copy, Debug, PartialEq, Eq, PartialOrd, Ord)]
pub struct RecordKey {
    pub type_no: u16,
    pub id: EntityId,
}
