//! What a shard has of a query: its first hits, each with the tree of its lineages.
#![tactic(auto)]

mod any;
mod eval;
mod grouped;
mod joins;
mod kept;
pub mod laws;
mod leaf;
mod list;
mod operand;
mod prefix;
mod reached;
mod resolved;
mod shard;
mod source;
mod terms;
mod trees;
mod witness;

pub use resolved::{InnerHit, ListedHit, Resolved, ResolvedOperand};
pub use shard::eval_shard;
