//! Posting lists: the entities that a term leads to, in rank order, each with its audience. Keys
//! lie apart from audiences, so that a seek reads keys alone.
#![tactic(auto)]

mod audiences;
mod circles;
mod columns;
mod cursor;
pub mod examples;
mod list;
mod posting;
mod search;

pub use columns::PostingColumns;
pub use cursor::ListCursor;
pub use list::PostingList;
pub use posting::{Posting, PostingRows};
