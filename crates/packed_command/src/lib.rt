//! Commands of a feed, kept in few bytes.
#![tactic(auto)]

mod command;
mod key;

pub use command::PackedCommand;
