//! Hits of what several terms lead to: one for each entity, by any of the edges to it.
ghost use Rattle.std.specs.Prelude.{◌≡◌, IfOk, map};
ghost use Rattle.lineage_tree.specs.Tree.{any_of, forest_of, tree_of};
ghost use Rattle.shard_eval.specs.Found.{found_all};
ghost use Rattle.shard_eval.specs.Grouped.{grouped, run_length, Rises};
ghost use Rattle.shard_eval.specs.Kept.{up_to};
ghost use Rattle.shard_eval.specs.Reached.{found_place, found_reached};

use crate::kept::is_full;
use crate::reached::Reached;
use lineage_tree::{HitRows, Lineage, RawHit};
use std::alloc::{AllocError, Global};
use uni_base::{DocKey, Rows};

/// Where a posting stands in rank order.
#[derive(Clone, Copy)]
pub(crate) struct Place<'a, 'b> {
    key: DocKey,
    reached: &'a Reached<'b>,
}

/// The first hits by postings that stand in any order, as many as the limit says, or all. The trees of a hit
/// are in the order of its postings.
pub(crate) fn grouped_hits(
    alloc: Global,
    reached: &[Reached<'_>],
    limit: Option<u32>,
) -> Result<HitRows, AllocError>
    ensures { IfOk result (λ hits. found_all hits ≡ up_to limit (grouped (map found_reached reached.now))) }
{
    let mut places = places_of(alloc, reached)?.into_vec();
    places.sort_by_key(|place| place.key)?;
    hits_in(alloc, places.as_slice(), limit)
}

fn places_of<'a, 'b>(
    alloc: Global,
    rows: &'a [Reached<'b>],
) -> Result<Rows<Place<'a, 'b>>, AllocError>
    ensures { IfOk result (λ places. map found_place places ≡ map found_reached rows.now) }
{
    let mut places = Rows::new(alloc);
    for reached in rows {
        let key = reached.posting.key;
        places.push(Place { key, reached })?;
    }
    Ok(places)
}

// The first hits by postings in rank order.
fn hits_in(
    alloc: Global,
    places: &[Place<'_, '_>],
    limit: Option<u32>,
) -> Result<HitRows, AllocError>
    requires { Rises (map found_place places.now) }
    ensures { IfOk result (λ hits. found_all hits ≡ up_to limit (grouped (map found_place places.now))) }
{
    let mut hits = HitRows::new(alloc);
    let mut from = 0;
    while from < places.len() {
        if is_full(hits.len(), limit) {
            break;
        }
        let (_, rest) = places.split_at(from);
        let key = places[from].key;
        let count = run_length(rest, &key);
        let (run, _) = rest.split_at(count);
        let lineage = any_tree(alloc, run)?;
        hits.push(RawHit { key, lineage })?;
        from += count;
    }
    Ok(hits)
}

// How many postings from the first on are of a key.
fn run_length(places: &[Place<'_, '_>], key: &DocKey) -> usize
    ensures { result ≡ run_length key.now (map found_place places.now) }
{
    for i in 0..places.len() {
        if places[i].key != *key {
            return i;
        }
    }
    places.len()
}

// Any of the trees of postings.
fn any_tree(alloc: Global, places: &[Place<'_, '_>]) -> Result<Lineage, AllocError>
    ensures { IfOk result (λ tree. tree_of tree ≡ any_of (forest_of (map (λ p. (found_place p).tree) places.now))) }
{
    let mut trees = Vec::new(alloc);
    for place in places {
        let Reached { leaf, posting } = *place.reached;
        trees.push(leaf.tree(alloc, posting)?)?;
    }
    Ok(Lineage::AnyOf(trees))
}
