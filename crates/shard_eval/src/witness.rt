//! The trees of what an operand finds, taken in rank order.
ghost use Rattle.std.specs.Prelude.{◌≡◌, IfOk};
ghost use Rattle.std.specs.Option.{option_map};
ghost use Rattle.lineage_tree.specs.Tree.{tree_of};
ghost use Rattle.shard_eval.specs.Found.{first_at, found_all, found_from, found_keys, hit_keys, tree_at, KeepsLater};
ghost use Rattle.shard_eval.specs.Witnesses.{found_in, found_postings};
ghost use Rattle.uni_base.specs.Cursors.{IsRanked};

use crate::any::any_at;
use crate::leaf::Leaf;
use crate::prefix::PrefixWitness;
use layer_stack::StackCursor;
use lineage_tree::{Lineage, RawHit};
use std::alloc::{AllocError, Global};
use std::collections::VecDeque;
use uni_base::{DocCursor, DocKey};

/// The postings of a term that are still to come.
#[derive(Drop)]
pub(crate) struct Postings<'a> {
    pub leaf: Leaf,
    pub cursor: StackCursor<'a>,
}

impl<'a> Postings<'a> {
    // The tree of a posting at a key. What stands before it is passed.
    fn tree_at(&mut self, alloc: Global, key: DocKey) -> Result<Option<Lineage>, AllocError>
        ensures tree { IfOk result (λ tree. option_map tree_of tree ≡ tree_at (found_postings self.old) key) }
        ensures rest { KeepsLater key (found_postings self.old) (found_postings self.new) }
    {
        self.pass_before(&key);
        self.tree_here(alloc, &key)
    }

    /// Passes what stands before a key.
    pub(crate) fn pass_before(&mut self, key: &DocKey)
        ensures rest { found_postings self.new ≡ found_from key.now (found_postings self.old) }
        ensures ranked { IsRanked (found_keys (found_postings self.old)) }
    {
        let _ranked = self.cursor.peek();
        self.cursor.seek(*key);
    }

    /// The tree of the first posting, if it is at a key.
    pub(crate) fn tree_here(
        &self,
        alloc: Global,
        key: &DocKey,
    ) -> Result<Option<Lineage>, AllocError>
        ensures { IfOk result (λ tree. option_map tree_of tree ≡ first_at key.now (found_postings self.now)) }
    {
        match self.cursor.posting() {
            Some(posting) if posting.key == *key => Ok(Some(self.leaf.tree(alloc, posting)?)),
            _ => Ok(None),
        }
    }
}

/// What an operand finds and is still to come: the postings of a term, of a prefix term or of any of some terms, or
/// hits.
#[derive(Drop)]
pub(crate) enum Witness<'a> {
    Term(Postings<'a>),
    Prefix(PrefixWitness<'a>),
    Any(Vec<Postings<'a>>),
    Hits(VecDeque<RawHit>),
}

impl<'a> Witness<'a> {
    /// The tree of an entity, if the operand has it. What stands before it is passed.
    pub(crate) fn tree_at(
        &mut self,
        alloc: Global,
        key: DocKey,
    ) -> Result<Option<Lineage>, AllocError>
        requires { IsRanked (found_keys (found_in self.old)) }
        ensures tree { IfOk result (λ tree. option_map tree_of tree ≡ tree_at (found_in self.old) key) }
        ensures rest { KeepsLater key (found_in self.old) (found_in self.new) }
    {
        match self {
            Witness::Term(postings) => postings.tree_at(alloc, key),
            Witness::Prefix(postings) => postings.tree_at(alloc, key),
            Witness::Any(terms) => any_at(alloc, terms, key),
            Witness::Hits(hits) => Ok(hit_at(hits, key)),
        }
    }
}

// The tree of a hit, which is taken away. The hits before it are passed.
fn hit_at(hits: &mut VecDeque<RawHit>, key: DocKey) -> Option<Lineage>
    requires { IsRanked (hit_keys hits.old.items) }
    ensures tree { option_map tree_of result ≡ tree_at (found_all hits.old.items) key }
    ensures rest { KeepsLater key (found_all hits.old.items) (found_all hits.new.items) }
{
    pass_before(hits, &key);
    match hits.front() {
        Some(hit) if hit.key == key => Some(hits.pop_front()?.lineage),
        _ => None,
    }
}

// Passes the hits before a key.
fn pass_before(hits: &mut VecDeque<RawHit>, key: &DocKey)
    requires { IsRanked (hit_keys hits.old.items) }
    ensures { found_all hits.new.items ≡ found_from key.now (found_all hits.old.items) }
{
    while let Some(hit) = hits.front() {
        if hit.key >= *key {
            return;
        }
        hits.pop_front();
    }
}
