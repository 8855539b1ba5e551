ghost use Rattle.std.specs.Prelude.{◌≡◌, drop};
ghost use Rattle.std.specs.List.{slice_get};
ghost use Rattle.posting_lists.specs.Postings.{keys_of, postings_from};
ghost use Rattle.uni_base.specs.Cursors.{keys_from};
ghost use Rattle.layer_stack.specs.Stacks.{remaining_of, first_before};

use crate::merge::{least, next, seek_on};
use crate::part::Part;
use posting_lists::Posting;
use std::marker::Model;
use uni_base::{DocCursor, DocKey};

/// The postings of a term in several layers that are still to be read, in rank order. It reads
/// the layers side by side: at the least key the newest one decides.
#[derive(Drop)]
pub(crate) struct MergingCursor<'a> {
    front: Option<Posting>,
    // What stands after the front, and the least key at which one of the parts stands.
    parts: Vec<Part<'a>>,
    head: Option<DocKey>,
}

impl<'a> Model for MergingCursor<'a> {
    ghost use Rattle.std.specs.Prelude.{◌≡◌, [], List, IfNone};
    ghost use Rattle.posting_lists.specs.declared.posting.Posting.{Posting};
    ghost use Rattle.posting_lists.specs.Postings.{keys_of};
    ghost use Rattle.uni_base.specs.Cursors.{IsRanked};
    ghost use Rattle.layer_stack.specs.Stacks.{remaining_of, first_and, StandAt};

    ghost Value = { List Posting };

    ghost view = { λ c. first_and c.front (remaining_of c.parts.items) };

    ghost invariant = { λ c. StandAt c.head c.parts.items × IfNone c.front (remaining_of c.parts.items ≡ []) × IsRanked (keys_of (first_and c.front (remaining_of c.parts.items))) };
}

impl<'a> MergingCursor<'a> {
    pub(crate) fn over(mut parts: Vec<Part<'a>>) -> MergingCursor<'a>
        ensures { result ≡ remaining_of parts.entry.items }
    {
        let mut head = least(&parts);
        let front = next(&mut parts, &mut head);
        MergingCursor { front, parts, head }
    }

    // The current posting. None exactly at the end.
    pub(crate) fn posting(&self) -> Option<Posting>
        ensures { result ≡ slice_get self.now 0 }
    {
        self.front
    }

    // Whether the current posting comes before a key, or there is none.
    fn comes_before(&self, from: &DocKey) -> bool
        ensures { result ≡ first_before from.now self.now }
    {
        match &self.front {
            Some(front) => front.key < *from,
            None => true,
        }
    }
}

impl<'a> DocCursor for MergingCursor<'a> {
    ghost remaining = { λ c. keys_of c };

    fn peek(&self) -> Option<DocKey> {
        let Posting {
            key,
            audience: _audience,
        } = self.front?;
        Some(key)
    }

    fn step(&mut self)
        ensures keys { keys_of self.new ≡ drop 1 (keys_of self.old) }
        ensures postings { self.new ≡ drop 1 self.old }
    {
        self.front = next(&mut self.parts, &mut self.head);
    }

    fn seek(&mut self, from: DocKey)
        ensures keys { keys_of self.new ≡ keys_from from (keys_of self.old) }
        ensures postings { self.new ≡ postings_from from self.old }
    {
        if self.comes_before(&from) {
            self.front = seek_on(&mut self.parts, &mut self.head, &from);
        }
    }
}
