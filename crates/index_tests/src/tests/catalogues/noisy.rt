//! Journals in no order, with compactions in between.
use super::Opened;
use super::scripts::is_newest_read;
use crate::tests::noise::{Noise, any_line};
use std::alloc::Global;
use std::sync::Wait;
use std::test::Fail;
use uni_base::Limits;

// Puts up to 11 lines, of which some are refused.
fn batch(alloc: Global, opened: &mut Opened, noise: &mut Noise) -> Option<()> {
    for _ in 0..noise.below(12) {
        let line = any_line(alloc, noise)?;
        opened.is_put(line.as_slice());
    }
    Some(())
}

// The vertical, shard and replica of a stack, by its number among all five.
fn stack_place(number: u64) -> (u16, u32, u32) {
    if number < 4 {
        (0, (number / 2) as u32, (number % 2) as u32)
    } else {
        (1, 0, 0)
    }
}

// Publishes a batch, and then may compact a stack, which covers all that was published then. The newest version reads
// like one that no layers lead to.
fn is_published_well<R: Wait>(
    rt: &R,
    alloc: Global,
    opened: &mut Opened,
    noise: &mut Noise,
) -> Option<bool> {
    batch(alloc, opened, noise)?;
    let number = opened.publish(rt)?.ok()?;
    if noise.below(2) == 0 {
        let (vertical, shard, replica) = stack_place(noise.below(5));
        if opened.compact(rt, vertical, shard, replica)? != number {
            return Some(false);
        }
    }
    let made = opened.pin(rt)?.version().publishes();
    Some(made == number && is_newest_read(rt, alloc, opened)?)
}

// A journal of ten batches.
fn is_journal_read<R: Wait>(rt: &R, alloc: Global, seed: u64) -> Option<bool> {
    let mut opened = Opened::new(rt, alloc, Limits::standard())?;
    let mut noise = Noise { state: seed };
    for _ in 0..10 {
        if !is_published_well(rt, alloc, &mut opened, &mut noise)? {
            return Some(false);
        }
    }
    Some(true)
}

#[test]
fn journals_in_no_order(rt: HostRuntime) -> Result<(), Fail> {
    for seed in 0..50 {
        if is_journal_read(&rt, rt.alloc(), seed) != Some(true) {
            return Err(Fail::new(seed));
        }
    }
    Ok(())
}
