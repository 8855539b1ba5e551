ghost use Rattle.std.specs.Prelude.{◌≡◌};
ghost use Rattle.query_check.specs.Plan.{operands_seen, seen, seen_join, seen_list, seen_node};

use query_tree::{JoinKind, ListKind, Mark};
use uni_base::{Key, Word};

/// A query under a schema, with the number of the vertical of its hits.
#[derive(Debug, Drop)]
#[cycle(checked)]
pub struct Checked {
    pub vertical: u16,
    pub node: CheckedNode,
}

/// One operand of a list.
#[derive(Debug, Drop)]
#[cycle(checked)]
pub struct CheckedOperand {
    pub node: CheckedNode,
    pub mark: Mark,
}

/// Operands in their order.
pub type CheckedList = Vec<CheckedOperand>;

/// What a query asks for: types are numbers of the schema, and keys are read.
#[derive(Debug, Drop)]
#[cycle(checked)]
pub enum CheckedNode {
    /// The edges of a type and key.
    Term {
        type_no: u16,
        key: Key,
    },
    /// The edges of a type and of the words that begin so.
    Prefix {
        type_no: u16,
        from: Word,
    },
    And(Vec<CheckedOperand>),
    Or(Vec<CheckedOperand>),
    Difference(Vec<CheckedOperand>),
    WeakAnd(Vec<CheckedOperand>),
    StrongOr(Vec<CheckedOperand>),
    /// The targets of index edges from the first hits of a query.
    Apply {
        type_no: u16,
        limit: u32,
        node: Box<Checked>,
    },
    /// The targets of forward edges from the first hits of a query.
    Extract {
        type_no: u16,
        limit: u32,
        node: Box<Checked>,
    },
}

impl CheckedNode {
    /// Operands under their operator.
    pub(crate) fn list(kind: ListKind, operands: CheckedList) -> CheckedNode
        ensures { seen_node result ≡ seen_list kind (operands_seen operands.items) }
    {
        match kind {
            ListKind::And => CheckedNode::And(operands),
            ListKind::Or => CheckedNode::Or(operands),
            ListKind::Difference => CheckedNode::Difference(operands),
            ListKind::WeakAnd => CheckedNode::WeakAnd(operands),
            ListKind::StrongOr => CheckedNode::StrongOr(operands),
        }
    }

    /// A join under its operator.
    pub(crate) fn join(kind: JoinKind, type_no: u16, limit: u32, node: Box<Checked>) -> CheckedNode
        ensures { seen_node result ≡ seen_join kind type_no limit (seen node.value) }
    {
        match kind {
            JoinKind::Apply => CheckedNode::Apply {
                type_no,
                limit,
                node,
            },
            JoinKind::Extract => CheckedNode::Extract {
                type_no,
                limit,
                node,
            },
        }
    }
}
