//! Queries as trees: their parts, their size, their text and the dialects that they are within.
#![tactic(auto)]

mod dialect;
pub mod examples;
mod kind;
mod print;
mod query;
mod refusal;

pub use dialect::Dialect;
pub use kind::{JoinKind, ListKind, MarkKind, TermKind};
pub use print::{DEFAULT_LIMIT, print_query};
pub use query::{JoinNode, ListNode, Mark, Operand, Query, TermNode};
pub use refusal::QueryRefusal;

#[cfg(test)]
mod tests;
