ghost use Rattle.std.specs.Prelude.{◌≡◌, ◌≤◌, drop, length, map, slice_get};
ghost use Rattle.posting_lists.specs.Postings.{keys_of};
ghost use Rattle.shard_eval.specs.Found.{hit_keys};
ghost use Rattle.uni_base.specs.Cursors.{IsRanked, is_before, keys_from};

use layer_stack::StackCursor;
use lineage_tree::RawHit;
use prefix_terms::PrefixCursor;
use set_cursors::OrCursor;
use std::marker::Model;
use uni_base::{DocCursor, DocKey};

/// Hits of an operand that are still to be read. Contracts see their keys.
#[derive(Drop)]
pub(crate) struct HitCursor<'a> {
    hits: &'a [RawHit],
}

impl<'a> Model for HitCursor<'a> {
    ghost use Rattle.std.specs.Prelude.{List};
    ghost use Rattle.shard_eval.specs.Found.{hit_keys};
    ghost use Rattle.uni_base.specs.Cursors.{IsRanked};
    ghost use Rattle.uni_base.specs.declared.entity.DocKey.{DocKey};

    ghost Value = { List DocKey };

    ghost view = { λ c. hit_keys c.hits.now };

    ghost invariant = { λ c. IsRanked (hit_keys c.hits.now) };
}

impl<'a> HitCursor<'a> {
    pub(crate) fn over(hits: &'a [RawHit]) -> HitCursor<'a>
        requires { IsRanked (hit_keys hits.now) }
        ensures { result ≡ hit_keys hits.now }
    {
        HitCursor { hits }
    }
}

impl<'a> DocCursor for HitCursor<'a> {
    ghost remaining = { λ c. c };

    fn peek(&self) -> Option<DocKey> {
        Some(self.hits.first()?.key)
    }

    fn step(&mut self) {
        if !self.hits.is_empty() {
            self.hits = &self.hits[1..];
        }
    }

    fn seek(&mut self, from: DocKey) {
        let passed = count_before(self.hits, &from);
        self.hits = &self.hits[passed..];
    }
}

// How many hits come before a key.
fn count_before(hits: &[RawHit], key: &DocKey) -> usize
    requires { IsRanked (hit_keys hits.now) }
    ensures within { result ≤ length hits.now }
    ensures value { keys_from key.now (hit_keys hits.now) ≡ drop result (hit_keys hits.now) }
{
    hits.partition_point(|hit| comes_before(hit, key))
}

fn comes_before(hit: &RawHit, key: &DocKey) -> bool
    ensures { result ≡ is_before hit.now.key key.now }
{
    hit.key < *key
}

/// An operand of a list: the postings of a term, of a prefix term or of any of some terms, or hits.
#[derive(Drop)]
pub(crate) enum Operand<'a> {
    Term(StackCursor<'a>),
    Prefix(PrefixCursor<'a>),
    Any(OrCursor<StackCursor<'a>>),
    Hits(HitCursor<'a>),
}

impl<'a> DocCursor for Operand<'a> {
    ghost use Rattle.shard_eval.specs.Operands.{keys_in};

    ghost remaining = { keys_in };

    fn peek(&self) -> Option<DocKey> {
        match self {
            Operand::Term(cursor) => cursor.peek(),
            Operand::Prefix(cursor) => cursor.peek(),
            Operand::Any(cursor) => cursor.peek(),
            Operand::Hits(cursor) => cursor.peek(),
        }
    }

    fn step(&mut self) {
        match self {
            Operand::Term(cursor) => cursor.step(),
            Operand::Prefix(cursor) => cursor.step(),
            Operand::Any(cursor) => cursor.step(),
            Operand::Hits(cursor) => cursor.step(),
        }
    }

    fn seek(&mut self, from: DocKey) {
        match self {
            Operand::Term(cursor) => cursor.seek(from),
            Operand::Prefix(cursor) => cursor.seek(from),
            Operand::Any(cursor) => cursor.seek(from),
            Operand::Hits(cursor) => cursor.seek(from),
        }
    }
}

/// A side of a difference: the first operand, or all others.
#[derive(Drop)]
pub(crate) enum Side<'a> {
    First(Operand<'a>),
    Others(OrCursor<Operand<'a>>),
}

impl<'a> DocCursor for Side<'a> {
    ghost use Rattle.shard_eval.specs.Operands.{keys_of_side};

    ghost remaining = { keys_of_side };

    fn peek(&self) -> Option<DocKey> {
        match self {
            Side::First(operand) => operand.peek(),
            Side::Others(operands) => operands.peek(),
        }
    }

    fn step(&mut self) {
        match self {
            Side::First(operand) => operand.step(),
            Side::Others(operands) => operands.step(),
        }
    }

    fn seek(&mut self, from: DocKey) {
        match self {
            Side::First(operand) => operand.seek(from),
            Side::Others(operands) => operands.seek(from),
        }
    }
}
