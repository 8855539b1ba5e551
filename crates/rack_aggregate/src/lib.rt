//! The shards of a vertical among workers: what each answers, and the first hits of all of them.
#![tactic(auto)]

mod gate;
mod merge;
mod racks;
#[cfg(test)]
mod tests;
mod verticals;

pub use gate::{Gate, OpenGate, Point};
pub use merge::merge_top;
pub use racks::run_racks;
pub use verticals::first_of_racks;
