//! The postings of a shard as a stack of layers: small layers of deletes and puts over a base, read
//! as one table.
#![tactic(auto)]

mod arrange;
mod combine;
mod cursor;
mod delta;
mod directory;
mod front;
mod joined;
mod layer;
mod marks;
mod merge;
mod merging;
mod part;
mod parts;
mod patch;
mod place;
mod reader;
mod rows;
mod rows_reader;
mod runs;
mod settle;
mod short_term;
mod stack;
mod term_spans;
mod words;

pub use cursor::StackCursor;
pub use delta::Delta;
pub use layer::Layer;
pub use place::{Place, TermKey};
pub use stack::Stack;
pub use words::earlier;
