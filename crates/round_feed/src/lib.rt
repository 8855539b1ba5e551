//! What the feeder and the compactor of a catalogue do in a round of a script.
#![tactic(auto)]

mod answers;
mod compactions;
mod feed;
#[cfg(test)]
mod tests;

pub use compactions::compact_round;
pub use feed::{feed_round, feed_round_by};
