//! Merges: the oldest layers of a stack as one layer, which deletes nothing and leaves what the
//! stack stands for as it is.
#![tactic(auto)]

mod forward;
mod postings;

pub use forward::merge_forward;
pub use postings::merge_front;
