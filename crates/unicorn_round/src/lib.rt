//! The rounds of a script, answered: the modes of the program.
#![tactic(auto)]

mod answering;
mod checker;
mod counter;
mod counts;
pub mod examples;
mod header;
pub mod laws;
mod merge;
mod modes;
mod notes;
mod parts;
mod program;
mod refusal;
mod round;
mod script;
mod serial;
mod service;
mod slot;
mod stacks;
mod status;
mod summary;
mod tidy;
mod write;

pub use modes::{check_script, run_plain, serve_rounds};
pub use program::run;
pub use rack_aggregate::{Gate, OpenGate, Point};
pub use replica_pick::{Chooser, FirstChooser, TurnChooser};
pub use stacks::StackCover;
pub use status::Status;
pub use summary::bench;
