use crate::value::OptionName;
use query_tree::{JoinKind, ListKind, Mark, Operand, Query, TermKind, TermNode};
use uni_base::Word;

/// Which of a list's options were read: a value is due after a name.
#[derive(Clone, Copy, Debug, PartialEq, Eq)]
pub(crate) enum Tail {
    NoOption,
    ValueDue(OptionName),
    OptionRead,
}

/// A join's type, with its column.
#[derive(Clone, Copy, Debug, PartialEq, Eq)]
pub(crate) struct Prefix {
    pub column: u32,
    pub name: Word,
}

/// What an open list has so far, and what it waits for.
#[derive(Drop)]
pub(crate) enum Part {
    OperatorDue,
    TermDue,
    TermRead(TermKind, TermNode),
    Operands(ListKind, Vec<Operand>),
    PrefixDue(JoinKind),
    NodeDue(JoinKind, Prefix),
    NodeRead(JoinKind, Prefix, Query),
}

/// A list whose parenthesis is open.
#[derive(Drop)]
pub(crate) struct OpenList {
    pub column: u32,
    pub part: Part,
    pub mark: Mark,
    pub limit: Option<u32>,
    pub tail: Tail,
}
