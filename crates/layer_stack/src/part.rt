ghost use Rattle.std.specs.Prelude.{◌≡◌, ◌==◌, ◌&&◌, length, [], cond, None, not, map};
ghost use Rattle.uni_base.specs.Cursors.{IsRanked, is_before, is_less};
ghost use Rattle.uni_base.specs.RankOrder.{doc_cmp};
ghost use Rattle.uni_base.specs.KeySets.{has_key};
ghost use Rattle.std.specs.FinMap.{find};
ghost use Rattle.std.specs.Ordering.{is_eq};
ghost use Rattle.posting_lists.specs.Postings.{keys_of};
ghost use Rattle.layer_base.specs.Lookups.{either};
ghost use Rattle.layer_stack.specs.Postings.{postings_of};
ghost use Rattle.layer_stack.specs.Stacks.{StandsFrom, has_nothing, part_where, stands_at, entry_of, head_of, lesser};

use crate::TermKey;
use crate::rows::Rows;
use posting_lists::ListCursor;
use std::marker::Model;
use uni_base::{Audience, DocCursor, DocKey};

/// What one layer has under a term: the keys that it deletes, and the postings that it puts.
#[derive(Drop)]
pub(crate) struct Part<'a> {
    deletes: &'a [DocKey],
    puts: ListCursor<'a>,
}

impl<'a> Model for Part<'a> {
    ghost use Rattle.uni_base.specs.Cursors.{IsRanked};
    ghost use Rattle.layer_stack.specs.Stacks.{PartValue};

    ghost Value = { PartValue };

    ghost view = { λ p. (p.deletes.now, p.puts) };

    ghost invariant = { λ p. IsRanked p.deletes.now };
}

impl<'a> Part<'a> {
    pub(crate) fn new(deletes: &'a [DocKey], puts: ListCursor<'a>) -> Part<'a>
        requires { IsRanked deletes.now }
        ensures { result ≡ (deletes.now, puts.entry) }
    {
        Part { deletes, puts }
    }

    pub(crate) fn is_empty(&self) -> bool
        ensures { result ≡ ((length self.now.0 == 0) && (length self.now.1 == 0)) }
    {
        self.deletes.is_empty() && self.puts.peek().is_none()
    }

    // Its postings alone.
    pub(crate) fn into_list(self) -> ListCursor<'a>
        ensures list { result ≡ self.entry.1 }
        ensures ranked { IsRanked (keys_of self.entry.1) }
    {
        let _ranked = self.puts.peek();
        self.puts
    }

    // Its postings, with nothing deleted.
    fn puts_alone(self) -> Part<'a>
        ensures { result ≡ ([], self.entry.1) }
    {
        Part {
            deletes: &[],
            puts: self.puts,
        }
    }

    // The key of the first posting.
    pub(crate) fn head(&self) -> Option<DocKey>
        ensures head { result ≡ head_of self.now }
        ensures ranked { IsRanked (keys_of self.now.1) }
    {
        self.puts.peek()
    }

    // The answer at a key, given that of the older layers. It passes the posting there.
    pub(crate) fn take(&mut self, older: Option<Audience>, key: &DocKey) -> Option<Audience>
        requires { StandsFrom key.now self.old }
        ensures answer { result ≡ either (find doc_cmp key.now (map entry_of self.old.1)) (cond (has_key self.old.0 key.now) None older) }
        ensures passed { self.new ≡ part_where (is_before key.now) self.old }
    {
        if self.stands_at(key) {
            let audience = self.puts.audience();
            self.puts.step();
            audience
        } else if holds(self.deletes, key) {
            None
        } else {
            older
        }
    }

    fn stands_at(&self, key: &DocKey) -> bool
        ensures at { result ≡ stands_at key.now self.now.1 }
        ensures ranked { IsRanked (keys_of self.now.1) }
    {
        match self.puts.peek() {
            Some(head) => is_same(&head, key),
            None => false,
        }
    }

    // Passes the postings before a key.
    pub(crate) fn seek(&mut self, from: DocKey)
        ensures { self.new ≡ part_where (λ k. not (is_before k from)) self.old }
    {
        self.puts.seek(from);
    }
}

// What a layer puts under a term, given what its own rows have there: what they put, or, where they have
// nothing, what its base puts.
pub(crate) fn over_base<'a>(part: Part<'a>, base: &'a Rows, term: &TermKey) -> Part<'a>
    ensures { result ≡ ([], cond (has_nothing part.entry) (postings_of term.now base.now.puts) part.entry.1) }
{
    let part = if part.is_empty() {
        base.part(term)
    } else {
        part
    };
    part.puts_alone()
}

// Whether keys in rank order have a key, which it finds by halving.
fn holds(keys: &[DocKey], key: &DocKey) -> bool
    requires { IsRanked keys.now }
    ensures { result ≡ has_key keys.now key.now }
{
    match keys.binary_search(key) {
        Ok(_) => true,
        Err(_) => false,
    }
}

fn is_same(key: &DocKey, other: &DocKey) -> bool
    ensures { result ≡ is_eq (doc_cmp key.now other.now) }
{
    key == other
}

// The lesser of two keys that may be missing.
pub(crate) fn lesser(least: Option<DocKey>, head: Option<DocKey>) -> Option<DocKey>
    ensures { result ≡ lesser least head }
{
    match (least, head) {
        (None, head) => head,
        (least, None) => least,
        (Some(least), Some(head)) => Some(if least < head { least } else { head }),
    }
}
