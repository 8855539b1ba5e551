ghost use Rattle.std.specs.Prelude.{◌≡◌, ◌<◌, ◌^◌};
ghost use Rattle.query_tree.specs.Columns.{column_of};
ghost use Rattle.query_tree.specs.Tree.{joined, joined_of, listed, listed_of, termed, tree_of};
ghost use Rattle.query_tree.specs.Size.{mark_depth, node_count, tree_depth};

use crate::kind::{JoinKind, ListKind, TermKind};
use uni_base::Word;

/// How an operand counts in a list that weighs its operands.
#[derive(Clone, Copy, Debug, PartialEq, Eq)]
pub enum Mark {
    /// A hit has the operand.
    Plain,
    /// So many hits may lack it.
    Hits(u32),
    /// At least this fraction of the hits has it: numerator, then denominator.
    Weight(u32, u32),
}

/// One operand of a list.
#[derive(Debug, Drop)]
#[cycle(query)]
pub struct Operand {
    pub node: Query,
    pub mark: Mark,
}

/// The edges of one type and key, or of the keys that begin with a word. Its column, as each column,
/// is that of its first byte in the query's text, counted from 1; it is 1 in a query that was never a
/// text.
#[derive(Clone, Copy, Debug, PartialEq, Eq)]
pub struct TermNode {
    pub column: u32,
    pub type_name: Word,
    pub key: Word,
}

/// Operands under one operator. Its column is that of the parenthesis.
#[derive(Debug, Drop)]
#[cycle(query)]
pub struct ListNode {
    pub column: u32,
    pub operands: Vec<Operand>,
}

/// A join through the edges of one type, over the first hits of a query.
#[derive(Debug, Drop)]
#[cycle(query)]
pub struct JoinNode {
    pub column: u32,
    pub type_column: u32,
    pub type_name: Word,
    /// how many hits of the inner query are followed
    pub limit: u32,
    pub node: Box<Query>,
}

/// A query.
#[derive(Debug, Drop)]
#[cycle(query)]
pub enum Query {
    Term(TermNode),
    /// a term over every key that begins with the node's key
    Prefix(TermNode),
    And(ListNode),
    Or(ListNode),
    Difference(ListNode),
    WeakAnd(ListNode),
    StrongOr(ListNode),
    Apply(JoinNode),
    Extract(JoinNode),
}

impl Query {
    /// A term, whose key is whole or a prefix.
    pub fn term(kind: TermKind, node: TermNode) -> Query
        ensures { tree_of result ≡ termed kind node }
    {
        match kind {
            TermKind::Whole => Query::Term(node),
            TermKind::Prefix => Query::Prefix(node),
        }
    }

    /// A list under its operator.
    pub fn list(kind: ListKind, node: ListNode) -> Query
        ensures { tree_of result ≡ listed kind (listed_of node) }
    {
        match kind {
            ListKind::And => Query::And(node),
            ListKind::Or => Query::Or(node),
            ListKind::Difference => Query::Difference(node),
            ListKind::WeakAnd => Query::WeakAnd(node),
            ListKind::StrongOr => Query::StrongOr(node),
        }
    }

    /// A join under its operator.
    pub fn join(kind: JoinKind, node: JoinNode) -> Query
        ensures { tree_of result ≡ joined kind (joined_of node) }
    {
        match kind {
            JoinKind::Apply => Query::Apply(node),
            JoinKind::Extract => Query::Extract(node),
        }
    }

    /// Where it stands: its own column.
    pub fn column(&self) -> u32
        ensures { result ≡ column_of (tree_of self.now) }
    {
        match self {
            Query::Term(term) | Query::Prefix(term) => term.column,
            Query::And(list)
            | Query::Or(list)
            | Query::Difference(list)
            | Query::WeakAnd(list)
            | Query::StrongOr(list) => list.column,
            Query::Apply(join) | Query::Extract(join) => join.column,
        }
    }

    /// How many terms, lists and joins it has.
    pub fn nodes(&self) -> u32
        requires fits { node_count (tree_of self.now) < 2 ^ 32 }
        ensures { result ≡ node_count (tree_of self.now) }
    {
        match self {
            Query::Term(_) | Query::Prefix(_) => 1,
            Query::And(list)
            | Query::Or(list)
            | Query::Difference(list)
            | Query::WeakAnd(list)
            | Query::StrongOr(list) => {
                let mut count = 1;
                for operand in &list.operands {
                    count += operand.node.nodes();
                }
                count
            }
            Query::Apply(join) | Query::Extract(join) => 1 + join.node.nodes(),
        }
    }

    /// How many parentheses its print opens at once.
    pub fn depth(&self) -> u32
        requires fits { tree_depth (tree_of self.now) < 2 ^ 32 }
        ensures { result ≡ tree_depth (tree_of self.now) }
    {
        match self {
            Query::Term(_) | Query::Prefix(_) => 0,
            Query::And(list)
            | Query::Or(list)
            | Query::Difference(list)
            | Query::WeakAnd(list)
            | Query::StrongOr(list) => {
                let mut deepest = 0;
                for operand in &list.operands {
                    deepest = deepest.max(operand.mark.depth()).max(operand.node.depth());
                }
                1 + deepest
            }
            Query::Apply(join) | Query::Extract(join) => 1 + join.node.depth(),
        }
    }
}

impl Mark {
    // A mark is written inside a pair of parentheses.
    fn depth(self) -> u32
        ensures { result ≡ mark_depth self }
    {
        match self {
            Mark::Plain => 0,
            Mark::Hits(_) | Mark::Weight(_, _) => 1,
        }
    }
}
