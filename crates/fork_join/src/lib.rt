//! Two closures at the same time, each in a thread of its own.
#![tactic(auto)]

mod both;
#[cfg(test)]
mod tests;

pub use both::fork_both;
