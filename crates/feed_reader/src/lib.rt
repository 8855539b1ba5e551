//! The lines of a feed: changes of the table, and the line that publishes them, read from their texts and
//! printed again.
#![tactic(auto)]

mod audience;
pub mod examples;
mod fault;
mod fields;
pub mod laws;
mod line;
mod names;
mod number;
mod print;
mod read;

pub use fault::LineFault;
pub use line::FeedLine;
pub use names::LastNames;
pub use print::print_feed_line;
pub use read::{read_feed_line, read_next_feed_line};
