//! A list that two holders know alike, each by a half.
//!
//! **The algorithm.** There is none: the list exists in the proofs alone, and so does what the halves know of it. A step of theirs
//! is an atomic load of a word that has no meaning, since what a holder knows changes only at a step on a word. What matters is
//! who may take which step: to add an entry takes both halves at once.
//!
//! **The rule**, which each step keeps (`specs/Law.antt`): there are two halves, apart or together, and each knows the whole list.
//!
//! **What it is for**: a value under a lock has one half, and one of those who take turns has the other. Whoever has both in a turn
//! learns that the value stands for exactly the list that the holder knows, although others took turns since.
#![tactic(auto)]

mod half;
mod law;
mod list;
mod plays;
mod steps;

pub use half::Half;
pub use list::TwinList;

#[cfg(test)]
mod tests;
