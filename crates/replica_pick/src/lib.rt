//! Which replica of a shard a query reads.
#![tactic(auto)]

mod chooser;

pub use chooser::{Chooser, FirstChooser, TurnChooser};
