use uni_base::{Audience, DocKey, Rows};

/// One entity that a term leads to: its place in rank order, and who may see the edge to it.
#[derive(Clone, Copy, Debug, PartialEq, Eq)]
pub struct Posting {
    pub key: DocKey,
    pub audience: Audience,
}

/// Postings, mostly in rank order.
pub type PostingRows = Rows<Posting>;
