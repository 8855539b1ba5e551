//! The words that every part of the service speaks in: entities and their rank order, words, keys,
//! edges with their audiences, limits, lists, and the byte streams that a script comes from and
//! its answers go to.
#![tactic(auto)]

mod copy;
mod cursor;
mod edge;
mod entity;
mod fields;
pub mod laws;
mod limits;
mod memory_sink;
mod memory_source;
mod number;
mod rows;
mod sink;
mod source;
mod standard;
mod steps;
mod sure;
#[cfg(test)]
mod tests;
mod word;

pub use cursor::DocCursor;
pub use edge::{Audience, EdgeRef, Held, Key};
pub use entity::{DocKey, EntityId, Rank};
pub use fields::{Fields, cut_at, is_skipped};
pub use limits::Limits;
pub use memory_sink::MemorySink;
pub use memory_source::MemorySource;
pub use number::{read_between, read_id, read_number};
pub use rows::{DocList, EdgeList, HeldList, Rows, Text, WordList};
pub use sink::Sink;
pub use source::{Failed, Source};
pub use standard::{StdSink, StdSource};
pub use steps::Steps;
pub use sure::{SureSink, SureSource};
pub use word::Word;
