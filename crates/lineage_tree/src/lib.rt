//! Trees that stand for the lineages of a hit, and the book in which trees share what they have in common.
#![tactic(auto)]

mod book;
mod first;
mod holds;
mod lineage;

pub use book::{LineageBook, Verdicts};
pub use lineage::{HitRows, Lineage, RawHit};

#[cfg(test)]
mod tests;
