//! What a prefix term and a join find.
ghost use Rattle.std.specs.Prelude.{◌≡◌, All, IfOk, map};
ghost use Rattle.layer_base.specs.Layers.{stack_table};
ghost use Rattle.posting_lists.specs.Postings.{keys_of};
ghost use Rattle.shard_eval.specs.Found.{found_all, found_term};
ghost use Rattle.shard_eval.specs.Grouped.{found_any};
ghost use Rattle.shard_eval.specs.Kept.{up_to};
ghost use Rattle.shard_eval.specs.Reached.{found_listed};
ghost use Rattle.shard_eval.specs.Resolution.{found_joined, found_listing, found_prefix, leaf_from, leaf_of, listing_of};
ghost use Rattle.uni_base.specs.Cursors.{IsRanked};
ghost use Rattle.uni_base.specs.declared.edge.Key.TheVariants.{Word as WordKey};

use crate::grouped::grouped_hits;
use crate::leaf::Leaf;
use crate::reached::{Listed, reached_by, reached_in};
use crate::{InnerHit, ListedHit};
use layer_stack::Stack;
use lineage_tree::HitRows;
use prefix_terms::{PrefixCursor, prefix_cursor};
use std::alloc::{AllocError, Global};
use uni_base::{Key, Rows, Word, WordList};

/// The first hits of a prefix term, as many as the limit says, or all.
pub(crate) fn prefix_hits(
    alloc: Global,
    stack: &Stack,
    type_no: u16,
    from: &Word,
    limit: Option<u32>,
) -> Result<HitRows, AllocError>
    ensures { IfOk result (λ hits. found_all hits ≡ up_to limit (found_any (found_prefix (stack_table stack.now.0) type_no from.now))) }
{
    let words = words_of(alloc, &prefix_cursor(alloc, stack, type_no, from)?)?;
    let leaves = word_leaves(alloc, type_no, words.as_slice())?;
    any_hits(alloc, stack, leaves.as_slice(), limit)
}

/// The first hits of a join by index edges.
pub(crate) fn joined_hits(
    alloc: Global,
    stack: &Stack,
    type_no: u16,
    inner: &[InnerHit],
    limit: Option<u32>,
) -> Result<HitRows, AllocError>
    ensures { IfOk result (λ hits. found_all hits ≡ up_to limit (found_any (found_joined (stack_table stack.now.0) type_no inner.now))) }
{
    let leaves = inner_leaves(alloc, type_no, inner)?;
    any_hits(alloc, stack, leaves.as_slice(), limit)
}

/// The first hits of a join by forward edges.
pub(crate) fn listed_hits(
    alloc: Global,
    type_no: u16,
    inner: &[ListedHit],
    limit: Option<u32>,
) -> Result<HitRows, AllocError>
    requires { All (λ listing. IsRanked (keys_of listing.rows)) (map listing_of inner.now) }
    ensures { IfOk result (λ hits. found_all hits ≡ up_to limit (found_any (map (found_listing type_no) (map listing_of inner.now)))) }
{
    let lists = listed_lists(alloc, type_no, inner)?;
    let reached = reached_in(alloc, lists.as_slice(), limit)?;
    grouped_hits(alloc, reached.as_slice(), limit)
}

// The first hits of any of several terms.
fn any_hits(
    alloc: Global,
    stack: &Stack,
    leaves: &[Leaf],
    limit: Option<u32>,
) -> Result<HitRows, AllocError>
    ensures { IfOk result (λ hits. found_all hits ≡ up_to limit (found_any (map (found_term (stack_table stack.now.0)) leaves.now))) }
{
    let reached = reached_by(alloc, stack, leaves, limit)?;
    grouped_hits(alloc, reached.as_slice(), limit)
}

fn word_leaves(alloc: Global, type_no: u16, words: &[Word]) -> Result<Rows<Leaf>, AllocError>
    ensures { IfOk result (λ leaves. leaves ≡ map (λ word. leaf_of type_no (WordKey word)) words.now) }
{
    let mut leaves = Rows::new(alloc);
    for word in words {
        leaves.push(Leaf::of(type_no, Key::Word(*word)))?;
    }
    Ok(leaves)
}

fn words_of(alloc: Global, postings: &PrefixCursor<'_>) -> Result<WordList, AllocError>
    ensures { IfOk result (λ words. words ≡ postings.now.words) }
{
    let mut words = WordList::new(alloc);
    for i in 0..postings.words() {
        words.push(postings.word(i))?;
    }
    Ok(words)
}

fn inner_leaves(alloc: Global, type_no: u16, inner: &[InnerHit]) -> Result<Rows<Leaf>, AllocError>
    ensures { IfOk result (λ leaves. leaves ≡ map (leaf_from type_no) inner.now) }
{
    let mut leaves = Rows::new(alloc);
    for hit in inner {
        let key = Key::Id(hit.key.id);
        let led = Some(hit.entry);
        leaves.push(Leaf { type_no, key, led })?;
    }
    Ok(leaves)
}

fn leaf_from(type_no: u16, hit: &InnerHit) -> Leaf
    ensures { result ≡ leaf_from type_no hit.now }
{
    Leaf {
        type_no,
        key: Key::Id(hit.key.id),
        led: Some(hit.entry),
    }
}

fn listed_lists<'a>(
    alloc: Global,
    type_no: u16,
    inner: &'a [ListedHit],
) -> Result<Rows<Listed<'a>>, AllocError>
    ensures { IfOk result (λ lists. map found_listed lists ≡ map (found_listing type_no) (map listing_of inner.now)) }
{
    let mut lists = Rows::new(alloc);
    for listed in inner {
        let leaf = leaf_from(type_no, &listed.hit);
        let rows = listed.rows.as_slice();
        lists.push(Listed { leaf, rows })?;
    }
    Ok(lists)
}
