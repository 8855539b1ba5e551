//! The types of queries: what a query asks for under a schema, or its first fault.
#![tactic(auto)]

mod checked;
pub mod examples;
mod fault;
pub mod laws;
mod leaf;
mod lookup;
mod nodes;

pub use checked::{Checked, CheckedList, CheckedNode, CheckedOperand};
pub use fault::{
    APPLY_SOURCE, KEY_KIND, NESTED_JOINS, NOT_FORWARD, NOT_INDEXED, UNKNOWN_TYPE, VERTICAL_MISMATCH,
};
pub use nodes::check;
