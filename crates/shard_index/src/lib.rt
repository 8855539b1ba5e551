//! The index of one shard: its entities, the postings of its index edges and its forward records, as
//! one stack of layers.
#![tactic(auto)]

mod base;
mod batch;
mod delta;
mod entities;
mod index;
pub mod laws;
mod layer;
mod merge;
mod places;
mod ranks;
mod stacks;
mod version;

pub use batch::{batch_layers, batch_layers_by};
pub use delta::EntityDelta;
pub use entities::EntityLayer;
pub use index::{ShardIndex, TermCursor};
pub use layer::ShardLayer;
pub use places::stack_no;
pub use version::Version;
