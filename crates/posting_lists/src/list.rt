ghost use Rattle.std.specs.Prelude.{◌≡◌, ◌==◌, length, IfOk, OnErr};
ghost use Rattle.posting_lists.specs.Postings.{keys_of};
ghost use Rattle.uni_base.specs.Cursors.{IsRanked};

use crate::{ListCursor, PostingColumns, PostingRows};
use std::alloc::{AllocError, Global};
use std::marker::Model;

/// A posting list: postings strictly in rank order.
#[derive(Drop)]
pub struct PostingList {
    columns: PostingColumns,
}

impl Model for PostingList {
    ghost use Rattle.std.specs.Prelude.{List};
    ghost use Rattle.posting_lists.specs.declared.posting.Posting.{Posting};
    ghost use Rattle.posting_lists.specs.Postings.{keys_of};
    ghost use Rattle.uni_base.specs.Cursors.{IsRanked};

    ghost Value = { List Posting };

    ghost view = { λ l. l.columns };

    ghost invariant = { λ l. IsRanked (keys_of l.columns) };
}

impl PostingList {
    /// The list of these postings, which stand strictly in rank order.
    pub fn build(alloc: Global, rows: PostingRows) -> Result<PostingList, AllocError>
        requires { IsRanked (keys_of rows) }
        ensures { IfOk result (λ list. list ≡ rows) }
    {
        let mut columns = PostingColumns::new(alloc);
        for posting in rows.as_slice() {
            columns.push(*posting)?;
        }
        Ok(PostingList { columns })
    }

    pub fn len(&self) -> usize
        ensures { result ≡ length self.now }
    {
        self.columns.len()
    }

    pub fn is_empty(&self) -> bool
        ensures { result ≡ (length self.now == 0) }
    {
        self.columns.is_empty()
    }

    /// A cursor at the first posting.
    pub fn cursor(&self) -> ListCursor<'_>
        ensures { result ≡ self.now }
    {
        self.columns.section(0, self.columns.len())
    }
}
