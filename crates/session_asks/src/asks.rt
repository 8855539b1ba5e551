use query_check::Checked;
use uni_base::{EntityId, Rows};

/// A query that a session asks for a viewer, for at most so many hits, with the number of its line.
#[derive(Debug, Drop)]
pub struct AskLine {
    pub line: u64,
    pub viewer: EntityId,
    pub limit: u32,
    pub query: Checked,
}

/// The asks of a session, in the order of their lines.
pub type AskList = Rows<AskLine>;
