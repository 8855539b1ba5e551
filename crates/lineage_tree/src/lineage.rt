use uni_base::{DocKey, Held, Rows};

/// Lists of edges, as a tree. Contracts see it by `tree_of`.
#[derive(Drop)]
pub enum Lineage {
    /// The one list with this edge.
    Edge(Held),
    /// One list of each member, joined in their order.
    AllOf(Vec<Lineage>),
    /// The lists of each member, one member after the other.
    AnyOf(Vec<Lineage>),
    /// The lists of an entry of the book that the tree belongs to.
    Entry(u32),
}

/// A hit of a query, with the tree of its lineages.
#[derive(Drop)]
pub struct RawHit {
    pub key: DocKey,
    pub lineage: Lineage,
}

/// Hits in rank order, each with the tree of its lineages.
pub type HitRows = Rows<RawHit>;
