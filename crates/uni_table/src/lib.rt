//! The table of entities and edges that commands change, one by one, and that queries and shards are
//! read off.
#![tactic(auto)]

mod change;
mod command;
pub mod examples;
mod graph;
pub mod laws;
mod refusal;
mod table;

pub use change::{EdgeChange, EdgeChanges, EntityChange, EntityChanges};
pub use command::{AudienceText, Command, EdgeRow, EntityRow};
pub use graph::changed_edges::ChangedEdges;
pub use graph::numbers::Source;
pub use graph::sources::{EdgeSources, TargetList};
pub use refusal::FeedRefusal;
pub use table::Table;
pub use table::reached::Target;
