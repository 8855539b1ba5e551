ghost use Rattle.std.specs.Prelude.{◌≡◌, ℕ, ◌≤◌, ◌<◌, ◌+◌, ◌-◌, ◌*◌, ◌++◌, ◌∷◌, ◌==◌, [], length, take, drop, IfOk, OnOk, OnErr, Some, slice_get};
ghost use Rattle.std.specs.Vec.{vec_len, vec_capacity};
ghost use Rattle.posting_lists.specs.Postings.{keys_of, section};
ghost use Rattle.posting_lists.specs.Search.{RisesWithin, IsFirstFrom, most_comparisons};
ghost use Rattle.uni_base.specs.Cursors.{IsRanked};

use crate::audiences::AudienceColumn;
use crate::search::{BLOCK, place_from};
use crate::{ListCursor, Posting};
use std::alloc::{AllocError, Global};
use std::marker::Model;
use std::sync::ledger::Ledger;
use uni_base::{DocKey, Steps};

/// Postings in columns: keys, the last key of each whole block of keys, and audiences. Lists of
/// postings lie in it one after another; each is a section from one place to another.
#[derive(Drop)]
pub struct PostingColumns {
    keys: Vec<DocKey>,
    lasts: Vec<DocKey>,
    audiences: AudienceColumn,
}

impl Model for PostingColumns {
    ghost use Rattle.std.specs.Prelude.{◌≡◌, List, length};
    ghost use Rattle.posting_lists.specs.declared.posting.Posting.{Posting};
    ghost use Rattle.posting_lists.specs.Postings.{joined};
    ghost use Rattle.posting_lists.specs.Search.{HasLasts};

    ghost Value = { List Posting };

    ghost view = { λ c. joined c.keys.items c.audiences };

    ghost invariant = { λ c. (length c.audiences ≡ length c.keys.items) × HasLasts c.keys.items c.lasts.items };
}

impl PostingColumns {
    /// No postings.
    pub fn new(alloc: Global) -> PostingColumns
        ensures { result ≡ [] }
    {
        PostingColumns {
            keys: Vec::new(alloc),
            lasts: Vec::new(alloc),
            audiences: AudienceColumn::new(alloc),
        }
    }

    /// No postings, with room for some.
    pub fn with_capacity(alloc: Global, postings: usize) -> Result<PostingColumns, AllocError>
        ensures { IfOk result (λ columns. columns ≡ []) }
    {
        Ok(PostingColumns {
            keys: Vec::with_capacity(alloc, postings)?,
            lasts: Vec::with_capacity(alloc, postings / BLOCK)?,
            audiences: AudienceColumn::with_capacity(alloc, postings)?,
        })
    }

    pub fn len(&self) -> usize
        ensures { result ≡ length self.now }
    {
        self.keys.len()
    }

    pub fn is_empty(&self) -> bool
        ensures { result ≡ (length self.now == 0) }
    {
        self.keys.is_empty()
    }

    /// Adds a posting at the end. Columns that find no memory stay as they were.
    pub fn push(&mut self, posting: Posting) -> Result<(), AllocError>
        ensures ok { OnOk result (self.new ≡ self.old ++ posting ∷ []) }
        ensures err { OnErr result (self.new ≡ self.old) }
    {
        make_room(&mut self.keys)?;
        make_room(&mut self.lasts)?;
        self.audiences.push(posting.audience)?;
        self.keys.push(posting.key)?;
        if self.keys.len() % BLOCK == 0 {
            self.lasts.push(posting.key)?;
        }
        Ok(())
    }

    /// Adds the postings of other columns from one place to another at the end. Where there is no
    /// memory for all of them, the first ones are added.
    pub fn append(
        &mut self,
        other: &PostingColumns,
        from: usize,
        to: usize,
    ) -> Result<(), AllocError>
        requires { (from ≤ to) × (to ≤ length other.now) }
        ensures ok { OnOk result (self.new ≡ self.old ++ section from to other.now) }
        ensures err { OnErr result ((until : ℕ) × (from ≤ until) × (until < to) × (self.new ≡ self.old ++ section from until other.now)) }
    {
        for i in from..to {
            self.push(other.posting(i))?;
        }
        Ok(())
    }

    /// The list from one place to another.
    pub fn section(&self, from: usize, to: usize) -> ListCursor<'_>
        requires within { (from ≤ to) × (to ≤ length self.now) }
        requires ranked { IsRanked (keys_of (section from to self.now)) }
        ensures { result ≡ section from to self.now }
    {
        ListCursor::over(self, from, to)
    }

    /// Their keys, in their order.
    pub fn keys(&self) -> &[DocKey]
        ensures { result.now ≡ keys_of self.now }
    {
        &self.keys
    }

    pub(crate) fn key(&self, i: usize) -> DocKey
        requires { i < length self.now }
        ensures { slice_get (keys_of self.now) i ≡ Some result }
    {
        self.keys[i]
    }

    /// The posting at a place, counted from 0.
    pub fn posting(&self, i: usize) -> Posting
        requires { i < length self.now }
        ensures { slice_get self.now i ≡ Some result }
    {
        Posting {
            key: self.keys[i],
            audience: self.audiences.get(i),
        }
    }

    // The first place of a section whose key does not come before a given one.
    pub(crate) fn place_from<L: Ledger>(
        &self,
        at: usize,
        end: usize,
        from: &DocKey,
        steps: &mut Steps<L>,
    ) -> usize
        requires within { (at ≤ end) × (end ≤ length self.now) }
        requires rises { RisesWithin (keys_of self.now) at end }
        ensures found { IsFirstFrom from.now (keys_of self.now) at end result }
        ensures counted { steps.new ≤ steps.old + most_comparisons (result - at) }
    {
        place_from(&self.keys, &self.lasts, at, end, from, steps)
    }
}

// Makes room for one key more.
fn make_room(keys: &mut Vec<DocKey>) -> Result<(), AllocError>
    ensures items { keys.new.items ≡ keys.old.items }
    ensures room { OnOk result (vec_len keys.new < vec_capacity keys.new) }
{
    if keys.len() == keys.capacity() {
        keys.reserve(1)?;
    }
    Ok(())
}
