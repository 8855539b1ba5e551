//! What the sessions of a catalogue are answered, each query over a version that its session pins.
#![tactic(auto)]

mod asks;
mod idle;
mod session;
mod sessions;

pub use asks::{AskLine, AskList};
pub use session::ask_session;
pub use sessions::ask_sessions;

#[cfg(test)]
mod tests;
