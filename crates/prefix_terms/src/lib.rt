//! Prefix terms over a stack of layers: the keys of one, and a cursor over all their postings.
#![tactic(auto)]

mod cursor;
pub mod laws;
mod next;
mod words;

pub use cursor::{PrefixCursor, prefix_cursor};
pub use words::words_with;
