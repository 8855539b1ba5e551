//! What all stacks of layers have in common: a log of changes of which the last word on each key
//! counts, and a stack that shares its layers with other stacks.
#![tactic(auto)]

mod blocks;
mod log;
mod near;
mod shared;
#[cfg(test)]
mod tests;

pub use log::{keep_last_words, last_words, look_up, rises, rows_left};
pub use near::{first_after, look_up_near};
pub use shared::SharedLayers;
