//! The rounds of a script: its bytes are read line by line, and every line is one thing.
#![tactic(auto)]

mod ask;
mod compact;
mod fault;
mod header;
mod item;
pub mod laws;
mod lines;
mod read_line;
mod round;
mod rounds;
mod terms;

pub use fault::{BAD_LIMIT, BAD_SESSION, BAD_VIEWER, LINE_TOO_LONG, TOO_MANY_LINES};
pub use header::OpenRefusal;
pub use item::{Item, ItemList, Round};
pub use lines::ScriptRefusal;
pub use rounds::Rounds;
