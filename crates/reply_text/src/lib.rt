//! The lines of text that the lines of a script are answered with.
#![tactic(auto)]

mod answer;
mod edge;
mod field;
mod further;
mod head;
pub mod laws;
#[cfg(test)]
mod tests;
mod write;

pub use answer::{Answer, AnswerList, StackRow, StackRows};
pub use write::write_answer;
