use posting_lists::Posting;
use query_tree::Mark;
use uni_base::{DocKey, Key, Word};

/// A hit of the inner query of a join, with the number of its entry in the book of lineages.
#[derive(Clone, Copy, Debug)]
pub struct InnerHit {
    pub key: DocKey,
    pub entry: u32,
}

/// A hit of the inner query of a join by forward edges, with those of its edges that lead into the shard, in
/// rank order.
#[derive(Drop)]
pub struct ListedHit {
    pub hit: InnerHit,
    pub rows: Vec<Posting>,
}

/// One operand of a list.
#[derive(Drop)]
#[cycle(resolved)]
pub struct ResolvedOperand {
    pub node: Resolved,
    pub mark: Mark,
}

/// A query whose joins are answered: each carries the hits of its inner query over all shards.
#[derive(Drop)]
#[cycle(resolved)]
pub enum Resolved {
    /// The edges of an index type and key.
    Term { type_no: u16, key: Key },
    /// The edges of an index type and of the words that begin so.
    Prefix { type_no: u16, from: Word },
    And(Vec<ResolvedOperand>),
    Or(Vec<ResolvedOperand>),
    Difference(Vec<ResolvedOperand>),
    WeakAnd(Vec<ResolvedOperand>),
    StrongOr(Vec<ResolvedOperand>),
    /// The targets of the index edges of a type from inner hits.
    Joined { type_no: u16, inner: Vec<InnerHit> },
    /// The targets of the forward edges of a type from inner hits.
    Listed { type_no: u16, inner: Vec<ListedHit> },
}
