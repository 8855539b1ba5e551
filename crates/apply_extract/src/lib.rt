//! What a version answers: a query's joins answered over all shards, its hits, and those that a viewer is
//! shown.
#![tactic(auto)]

mod answered;
mod edges;
mod in_shard;
mod joins;
pub mod laws;
mod leads;
mod notes;
mod reply;
mod shards;
mod shown;

pub use reply::{answer, answer_here};
