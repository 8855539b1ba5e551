//! The words of the command line: `unicorn MODE [--workers N] [--seed N] [--people N]`.
#![tactic(auto)]

mod command;
pub mod laws;
#[cfg(test)]
mod tests;
mod words;

pub use words::{Mode, Settings, WordsRefusal, read_words};
