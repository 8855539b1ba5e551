//! What a script declares: its format, its verticals and its types of edges, as its header says.
#![tactic(auto)]

mod declare;
pub mod examples;
mod header;
pub mod laws;
mod line;
mod print;
mod refusal;
mod rules;
mod schema;

pub use header::HeaderReader;
pub use print::print_header;
pub use refusal::SchemaRefusal;
pub use schema::{Origin, Owner, Owners, Schema, Store, TypeDef, VerticalDef};
