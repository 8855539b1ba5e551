ghost use Rattle.std.specs.Prelude.{◌≡◌, ◌≤◌, ◌<◌, ◌+◌, ◌-◌, ◌*◌, length, take, drop, map, slice_get};
ghost use Rattle.std.specs.Option.{option_map};
ghost use Rattle.posting_lists.specs.Postings.{keys_of, section, postings_from};
ghost use Rattle.posting_lists.specs.Search.{most_comparisons};
ghost use Rattle.uni_base.specs.Cursors.{IsRanked, keys_from};

use crate::{Posting, PostingColumns};
use std::marker::{Brand, Model};
use std::sync::ledger::{Blank, Ledger};
use uni_base::{Audience, DocCursor, DocKey, Steps};

/// The postings of a list that are still to be read, in rank order.
#[derive(Drop)]
pub struct ListCursor<'a> {
    columns: &'a PostingColumns,
    at: usize,
    end: usize,
}

impl<'a> Model for ListCursor<'a> {
    ghost use Rattle.std.specs.Prelude.{◌≤◌, List, length};
    ghost use Rattle.posting_lists.specs.declared.posting.Posting.{Posting};
    ghost use Rattle.posting_lists.specs.Postings.{keys_of, section};
    ghost use Rattle.uni_base.specs.Cursors.{IsRanked};

    ghost Value = { List Posting };

    ghost view = { λ c. section c.at c.end c.columns.now };

    ghost invariant = { λ c. (c.at ≤ c.end) × (c.end ≤ length c.columns.now) × IsRanked (keys_of (section c.at c.end c.columns.now)) };
}

impl<'a> ListCursor<'a> {
    pub(crate) fn over(columns: &'a PostingColumns, at: usize, end: usize) -> ListCursor<'a>
        requires within { (at ≤ end) × (end ≤ length columns.now) }
        requires ranked { IsRanked (keys_of (section at end columns.now)) }
        ensures { result ≡ section at end columns.now }
    {
        ListCursor { columns, at, end }
    }

    /// The current posting. None exactly at the end.
    pub fn posting(&self) -> Option<Posting>
        ensures first { result ≡ slice_get self.now 0 }
        ensures ranked { IsRanked (keys_of self.now) }
    {
        if self.at < self.end {
            Some(self.columns.posting(self.at))
        } else {
            None
        }
    }

    /// The audience of the current posting. None exactly at the end.
    pub fn audience(&self) -> Option<Audience>
        ensures { result ≡ option_map (λ p. p.audience) (slice_get self.now 0) }
    {
        Some(self.posting()?.audience)
    }

    /// As `seek`, and counts each comparison of two keys as one step.
    pub fn seek_counted<L: Ledger>(&mut self, from: DocKey, steps: &mut Steps<L>)
        ensures left { self.new ≡ postings_from from self.old }
        ensures within { length self.new ≤ length self.old }
        ensures few { steps.new ≤ steps.old + most_comparisons (length self.old - length self.new) }
    {
        self.at = self.columns.place_from(self.at, self.end, &from, steps);
    }

    fn seek_over<L: Ledger>(&mut self, from: DocKey, blank: Blank)
        requires name { blank.name ≡ L.name }
        requires parts { (blank.parts ≡ L.parts) × (0 < blank.parts) }
        ensures { self.new ≡ postings_from from self.old }
    {
        self.seek_counted(from, &mut Steps::<L>::new(blank));
    }
}

impl<'a> DocCursor for ListCursor<'a> {
    ghost remaining = { λ c. keys_of c };

    fn peek(&self) -> Option<DocKey> {
        if self.at < self.end {
            Some(self.columns.key(self.at))
        } else {
            None
        }
    }

    fn step(&mut self)
        ensures keys { keys_of self.new ≡ drop 1 (keys_of self.old) }
        ensures postings { self.new ≡ drop 1 self.old }
    {
        if self.at < self.end {
            self.at += 1;
        }
    }

    fn seek(&mut self, from: DocKey)
        ensures keys { keys_of self.new ≡ keys_from from (keys_of self.old) }
        ensures postings { self.new ≡ postings_from from self.old }
    {
        self.seek_over::<Brand>(from, Blank::new(1));
    }
}
