use uni_base::{DocKey, Key};

/// A term: the type of an edge and where it starts. Terms are in the order of their types, then of
/// their keys, ids before words.
#[derive(Clone, Copy, Debug, PartialEq, Eq, PartialOrd, Ord, Hash)]
pub struct TermKey {
    pub type_no: u16,
    pub key: Key,
}

/// The place of a posting in a table: its term, and then its key in rank order.
#[derive(Clone, Copy, Debug, PartialEq, Eq, PartialOrd, Ord)]
pub struct Place {
    pub term: TermKey,
    pub key: DocKey,
}
