use posting_lists::Posting;
use query_tree::{ListKind, Mark};
use shard_eval::InnerHit;
use uni_base::{Key, Word};

/// A hit of the inner query of a join by forward edges, with its edges: for each shard of the vertical that
/// they lead to, those that lead into it, in rank order.
#[derive(Drop)]
pub(crate) struct Led {
    pub(crate) hit: InnerHit,
    pub(crate) rows: Vec<Vec<Posting>>,
}

/// One operand of a list.
#[derive(Drop)]
#[cycle(answered)]
pub(crate) struct AnsweredOperand {
    pub(crate) node: Answered,
    pub(crate) mark: Mark,
}

/// A query whose joins are answered, for all shards of its vertical.
#[derive(Drop)]
#[cycle(answered)]
pub(crate) enum Answered {
    Term {
        type_no: u16,
        key: Key,
    },
    Prefix {
        type_no: u16,
        from: Word,
    },
    List {
        kind: ListKind,
        operands: Vec<AnsweredOperand>,
    },
    /// The targets of the index edges of a type from inner hits.
    Joined {
        type_no: u16,
        inner: Vec<InnerHit>,
    },
    /// The targets of the forward edges of a type from inner hits.
    Listed {
        type_no: u16,
        inner: Vec<Led>,
    },
}
