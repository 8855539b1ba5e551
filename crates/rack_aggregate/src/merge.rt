ghost use Rattle.std.specs.Prelude.{◌≡◌, IfOk, map, take};
ghost use Rattle.std.specs.List.{AllByRecursion, flat_map};
ghost use Rattle.uni_base.specs.Cursors.{IsRanked};
ghost use Rattle.uni_table.specs.Ranked.{in_rank_order};
ghost use Rattle.rack_aggregate.specs.Merged.{AreApart, all_hits, hits_in_rank_order, keys_of};

use lineage_tree::{HitRows, RawHit};
use std::alloc::{AllocError, Global};

/// The first hits of several parts in rank order, as many as the limit says. Each part is in rank order,
/// and no key is in two parts.
pub fn merge_top(alloc: Global, parts: Vec<HitRows>, limit: u32) -> Result<HitRows, AllocError>
    requires ranked { AllByRecursion (λ part. IsRanked (keys_of part)) parts.items }
    requires apart { AreApart (map keys_of parts.items) }
    ensures hits { IfOk result (λ hits. hits ≡ take limit (hits_in_rank_order (all_hits parts.items))) }
    ensures keys { IfOk result (λ hits. keys_of hits ≡ take limit (in_rank_order (flat_map keys_of parts.items))) }
{
    let mut hits = in_order(alloc, parts)?;
    hits.truncate(limit as usize);
    Ok(HitRows::from_vec(hits))
}

// All hits in rank order, by a sort that merges runs, as each part is one. Those of one part alone are in order as they
// stand.
fn in_order(alloc: Global, parts: Vec<HitRows>) -> Result<Vec<RawHit>, AllocError>
    requires ranked { AllByRecursion (λ part. IsRanked (keys_of part)) parts.items }
    requires apart { AreApart (map keys_of parts.items) }
    ensures { IfOk result (λ hits. hits.items ≡ hits_in_rank_order (all_hits parts.items)) }
{
    let is_alone = parts.len() == 1;
    let mut hits = all_in(alloc, parts)?;
    if is_alone {
        return Ok(hits);
    }
    hits.sort_by_key(|hit| hit.key)?;
    Ok(hits)
}

// The hits of all parts, part by part.
fn all_in(alloc: Global, parts: Vec<HitRows>) -> Result<Vec<RawHit>, AllocError>
    ensures { IfOk result (λ hits. hits.items ≡ all_hits parts.items) }
{
    let mut hits = Vec::new(alloc);
    for part in parts {
        hits.append(&mut part.into_vec())?;
    }
    Ok(hits)
}
