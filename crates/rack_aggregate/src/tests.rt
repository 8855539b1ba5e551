ghost use Rattle.std.specs.Prelude.{◌≡◌, ◌+◌, ◌≤◌, ◌<◌, [], ◌∷◌, IfOk, map};
ghost use Rattle.std.specs.List.{AllByRecursion};
ghost use Rattle.uni_base.specs.Cursors.{IsRanked};
ghost use Rattle.rack_aggregate.specs.Merged.{AreApart, keys_of};

use crate::verticals::{Merges, first_by};
use crate::{first_of_racks, merge_top, run_racks};
use lineage_tree::{HitRows, Lineage, RawHit};
use std::alloc::{AllocError, Global};
use std::sync::atomic::{AtomicU32, Ordering};
use std::test::Fail;
use std::thread::Threads;
use uni_base::{DocKey, EntityId, Rank};

// A hit whose tree is the entry with the number of its id.
fn hit(rank: u32, id: u32) -> RawHit
    requires { 0 < id }
    ensures { result.key ≡ record { rank = record { 0 = rank }; id = id } }
{
    let key = DocKey {
        rank: Rank(rank),
        id: EntityId::new(id as u64).unwrap(),
    };
    RawHit {
        key,
        lineage: Lineage::Entry(id),
    }
}

fn pair(alloc: Global, first: RawHit, second: RawHit) -> Result<HitRows, AllocError>
    ensures { IfOk result (λ part. part ≡ first ∷ second ∷ []) }
{
    let mut part = HitRows::new(alloc);
    part.push(first)?;
    part.push(second)?;
    Ok(part)
}

fn one_part(alloc: Global) -> Result<Vec<HitRows>, AllocError>
    ensures ranked { IfOk result (λ parts. AllByRecursion (λ part. IsRanked (keys_of part)) parts.items) }
    ensures apart { IfOk result (λ parts. AreApart (map keys_of parts.items)) }
{
    let mut parts = Vec::new(alloc);
    parts.push(pair(alloc, hit(9, 4), hit(5, 2))?)?;
    Ok(parts)
}

fn three_parts(alloc: Global) -> Result<Vec<HitRows>, AllocError>
    ensures ranked { IfOk result (λ parts. AllByRecursion (λ part. IsRanked (keys_of part)) parts.items) }
    ensures apart { IfOk result (λ parts. AreApart (map keys_of parts.items)) }
{
    let mut parts = Vec::new(alloc);
    parts.push(pair(alloc, hit(9, 4), hit(5, 2))?)?;
    parts.push(pair(alloc, hit(7, 3), hit(5, 1))?)?;
    parts.push(pair(alloc, hit(8, 6), hit(5, 5))?)?;
    Ok(parts)
}

// The ids of the hits that have their own trees.
fn ids_of(alloc: Global, hits: &HitRows) -> Result<Vec<u64>, AllocError> {
    let mut ids = Vec::new(alloc);
    for hit in hits.as_slice() {
        let id = hit.key.id.get();
        if matches!(&hit.lineage, Lineage::Entry(entry) if *entry as u64 == id) {
            ids.push(id)?;
        }
    }
    Ok(ids)
}

#[test]
fn first_hits_of_parts(rt: HostRuntime) -> Result<(), Fail> {
    let alloc = rt.alloc();
    let none = merge_top(alloc, Vec::new(alloc), 9)?;
    assert!(rt; none.is_empty());
    let all = merge_top(alloc, three_parts(alloc)?, 9)?;
    assert_eq!(rt;
        ids_of(alloc, &all)?.as_slice(),
        [4_u64, 6, 3, 1, 2, 5].as_slice()
    );
    let some = merge_top(alloc, three_parts(alloc)?, 4)?;
    assert_eq!(rt;
        ids_of(alloc, &some)?.as_slice(),
        [4_u64, 6, 3, 1].as_slice()
    );
    let first = merge_top(alloc, three_parts(alloc)?, 1)?;
    assert_eq!(rt; ids_of(alloc, &first)?.as_slice(), [4_u64].as_slice());
    assert!(rt; merge_top(alloc, three_parts(alloc)?, 0)?.is_empty());
    let alone = merge_top(alloc, one_part(alloc)?, 9)?;
    assert_eq!(rt; ids_of(alloc, &alone)?.as_slice(), [4_u64, 2].as_slice());
    let one = merge_top(alloc, one_part(alloc)?, 1)?;
    assert_eq!(rt; ids_of(alloc, &one)?.as_slice(), [4_u64].as_slice());
    Ok(())
}

// A part with one hit, whose id tells the shard.
fn part_of(alloc: Global, shard: u32) -> Result<HitRows, AllocError> {
    let mut part = HitRows::new(alloc);
    part.push(hit(7, shard.saturating_add(1)))?;
    Ok(part)
}

#[test]
fn each_part_is_of_its_shard(rt: HostRuntime) -> Result<(), Fail> {
    let alloc = rt.alloc();
    for workers in [1_u32, 2, 5, 64] {
        for shards in [0_u32, 1, 9, 64] {
            let parts = run_racks(
                &rt,
                alloc,
                workers,
                shards,
                &|shard: u32| part_of(alloc, shard),
            )?;
            assert_eq!(rt; parts.len(), shards as usize);
            for (i, part) in parts.iter().enumerate() {
                let ids = ids_of(alloc, part)?;
                assert_eq!(rt; ids.as_slice(), [i as u64 + 1].as_slice());
            }
        }
    }
    Ok(())
}

// Merges by `merge_top`, and counts how often.
#[derive(Drop)]
struct Counted {
    merges: AtomicU32,
}

impl Merges for Counted {
    fn first_of(
        &self,
        alloc: Global,
        parts: Vec<HitRows>,
        limit: u32,
    ) -> Result<HitRows, AllocError> {
        self.merges.fetch_add(1, Ordering::Relaxed);
        merge_top(alloc, parts, limit)
    }
}

// A part with one hit, which comes before those of earlier shards.
fn later_first(alloc: Global, shard: u32) -> Result<HitRows, AllocError>
    requires { shard < 64 }
    ensures { IfOk result (λ part. keys_of part ≡ record { rank = record { 0 = shard }; id = shard + 1 } ∷ []) }
{
    let mut part = HitRows::new(alloc);
    part.push(hit(shard, shard + 1))?;
    Ok(part)
}

// How often the hits of so many shards are merged.
fn merges_of(
    rt: &(impl Threads + Sync),
    alloc: Global,
    workers: u32,
    shards: u32,
) -> Result<u32, AllocError>
    requires workers { 1 ≤ workers }
    requires shards { shards ≤ 64 }
{
    let counted = Counted {
        merges: AtomicU32::new(0),
    };
    let _ = first_by(
        rt,
        alloc,
        workers,
        shards,
        9,
        &|shard: u32| later_first(alloc, shard),
        &counted,
    )?;
    Ok(counted.merges.load(Ordering::Relaxed))
}

// Whether the first nine hits of so many shards are those of the last shards.
fn is_last_first(
    rt: &(impl Threads + Sync),
    alloc: Global,
    workers: u32,
    shards: u32,
) -> Result<bool, AllocError>
    requires workers { 1 ≤ workers }
    requires shards { shards ≤ 64 }
{
    let hits = first_of_racks(
        rt,
        alloc,
        workers,
        shards,
        9,
        &|shard: u32| later_first(alloc, shard),
    )?;
    let last = (0..shards).rev().take(9);
    Ok(hits.as_slice().iter().map(|hit| hit.key.rank.0).eq(last))
}

#[test]
fn racks_are_merged_before_the_vertical(rt: HostRuntime) -> Result<(), Fail> {
    let alloc = rt.alloc();
    for workers in [1_u32, 2, 5, 64] {
        for (shards, merges) in [
            (0_u32, 1_u32),
            (1, 1),
            (8, 1),
            (9, 3),
            (16, 3),
            (20, 4),
            (64, 9),
        ] {
            assert_eq!(rt; merges_of(&rt, alloc, workers, shards)?, merges);
            assert!(rt; is_last_first(&rt, alloc, workers, shards)?);
        }
    }
    Ok(())
}
