use uni_base::{DocKey, EdgeList, Rows};

/// An entity that a query finds, with the edges that led to it.
#[derive(Drop)]
pub struct Hit {
    pub key: DocKey,
    pub lineage: EdgeList,
}

/// Hits in rank order.
pub type HitList = Rows<Hit>;

/// What a query is answered, over the table after so many publishes.
#[derive(Drop)]
pub struct Reply {
    pub publishes: u64,
    pub hits: HitList,
}
