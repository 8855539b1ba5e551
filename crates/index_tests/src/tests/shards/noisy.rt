//! Lists of commands in no order, by layers.
use super::layered::LayeredShard;
use super::nothing;
use crate::tests::is_put;
use crate::tests::noise::{Noise, any_line};
use std::alloc::Global;
use std::test::Fail;
use uni_table::Table;

// Puts up to 29 lines, of which some are refused.
fn batch(alloc: Global, table: &mut Table, noise: &mut Noise) -> Option<()> {
    for _ in 0..noise.below(30) {
        let line = any_line(alloc, noise)?;
        is_put(table, line.as_slice());
    }
    Some(())
}

// How many of the first layers are to be replaced: one, all or some.
fn count(noise: &mut Noise, layers: usize) -> Option<usize> {
    match noise.below(3) {
        0 => Some(1),
        1 => Some(layers),
        _ if layers > 0 => Some(noise.below(layers as u64) as usize + 1),
        _ => None,
    }
}

// Whether a shard reads the same with its first layers replaced by one. Then it may keep the one.
fn is_front_read(
    alloc: Global,
    shard: &mut LayeredShard,
    table: &Table,
    noise: &mut Noise,
) -> Option<bool> {
    let count = count(noise, shard.index().layers())?;
    let is_read = shard.is_front_read(alloc, table, count)?;
    if noise.below(4) == 0 {
        shard.shorten(alloc, count)?;
    }
    Some(is_read)
}

// Whether a shard reads like one that no layers lead to, after a publish.
fn is_publish_read(
    alloc: Global,
    shard: &mut LayeredShard,
    table: &mut Table,
    noise: &mut Noise,
) -> Option<bool> {
    batch(alloc, table, noise)?;
    shard.publish(alloc, table)?;
    Some(shard.is_read(alloc, table)? && is_front_read(alloc, shard, table, noise)?)
}

// Whether it does after each of ten publishes.
fn is_list_read(alloc: Global, table: &mut Table, case: u64, number: u16) -> Option<bool> {
    let mut noise = Noise { state: case };
    let mut shard = LayeredShard::new(alloc, number)?;
    for _ in 0..10 {
        if !is_publish_read(alloc, &mut shard, table, &mut noise)? {
            return Some(false);
        }
    }
    Some(true)
}

// 300 lists of ten batches, over a shard: ranks change, users and photos go and may come back as the
// other, edges end, and photos show nobody any more. Fails at the first list that is read otherwise.
fn follow_lists(alloc: Global, number: u16) -> Result<(), Fail> {
    for case in 0..300u64 {
        let mut table = nothing(alloc)?;
        if is_list_read(alloc, &mut table, case, number) != Some(true) {
            return Err(Fail::new(case));
        }
    }
    Ok(())
}

#[test]
fn even_users_by_layers(rt: HostRuntime) -> Result<(), Fail> {
    follow_lists(rt.alloc(), 0)
}

#[test]
fn odd_users_by_layers(rt: HostRuntime) -> Result<(), Fail> {
    follow_lists(rt.alloc(), 1)
}

#[test]
fn photos_by_layers(rt: HostRuntime) -> Result<(), Fail> {
    follow_lists(rt.alloc(), 2)
}
