//! What a query means over a table: its hits, its cut, how each hit came about, who may see it, and the
//! reply.
#![tactic(auto)]

mod answer;
mod column;
mod cut;
pub mod examples;
mod join;
pub mod laws;
mod leaf;
mod pace;
mod place;
mod reply;
mod standing;
mod term;
mod view;

pub use answer::plain_answer;
pub use reply::{Hit, HitList, Reply};
