//! Forward records: the edges of a type that start at an entity, kept with that entity, as a stack
//! of layers of which the newest record counts.
#![tactic(auto)]

mod combine;
mod layer;
mod patch;
mod record;
mod rows;
mod stack;

pub use layer::{ForwardDelta, ForwardLayer};
pub use record::{ForwardItem, ForwardItems, RecordKey};
pub use stack::ForwardStack;
