//! The service that measures itself, against the same script answered line by line.
ghost use Rattle.std.specs.Prelude.{◌≤◌};

use super::{roomy, text, whole};
use bench_script::bench_script;
use std::alloc::Global;
use std::sync::Wait;
use std::test::Fail;
use std::thread::Threads;
use uni_base::{Limits, Text};
use unicorn_round::{OpenGate, Status, TurnChooser, bench, run_plain};

// What the text of answers comes to, read off its lines: the publishes, the replies, the hits, and the sum of the
// hits' ids.
fn counted(told: &str) -> Result<(u64, u64, u64, u64), Fail> {
    let (mut publishes, mut asks, mut hits, mut sum) = (0_u64, 0_u64, 0_u64, 0_u64);
    for line in told.lines() {
        if line.starts_with("published ") {
            publishes = publishes.wrapping_add(1);
        } else if line.starts_with("reply ") {
            asks = asks.wrapping_add(1);
        } else if line.starts_with("hit ") {
            hits = hits.wrapping_add(1);
            let id = line.split(' ').nth(1).ok_or("no id")?;
            sum = sum.wrapping_add(id.parse::<u64>().unwrap_or(0));
        }
    }
    Ok((publishes, asks, hits, sum))
}

// The summary of the script of a seed and so many people, which is answered line by line.
fn expected(alloc: Global, seed: u32, people: u32) -> Result<Text, Fail>
    requires seed { (1 ≤ seed) × (seed ≤ 2147483646) }
    requires people { (2 ≤ people) × (people ≤ 100000) }
{
    let mut source = whole(alloc, bench_script(alloc, seed, people)?)?;
    let mut sink = roomy(alloc)?;
    let ended = run_plain(alloc, Limits::standard(), &mut source, &mut sink);
    if ended != Status::Done {
        return Err("not done".into());
    }
    let (publishes, asks, hits, sum) = counted(str::from_utf8(sink.bytes()).unwrap_or(""))?;
    let line = format!(in alloc;
        "bench people {people} publishes {publishes} asks {asks} hits {hits} sum {sum}|"
    )?;
    text(alloc, &[line.as_bytes()])
}

// Whether `bench` writes that summary, with so many workers.
fn is_measured<R: Threads + Wait + Sync>(
    rt: &R,
    alloc: Global,
    seed: u32,
    people: u32,
    workers: u32,
) -> Result<bool, Fail>
    requires seed { (1 ≤ seed) × (seed ≤ 2147483646) }
    requires people { (2 ≤ people) × (people ≤ 100000) }
    requires workers { (1 ≤ workers) × (workers ≤ 64) }
{
    let want = expected(alloc, seed, people)?;
    let mut sink = roomy(alloc)?;
    let ended = bench(
        rt,
        alloc,
        seed,
        people,
        workers,
        &mut sink,
        &TurnChooser,
        &OpenGate,
    );
    Ok(ended == Status::Done && sink.bytes() == want.as_slice())
}

#[test]
fn bench_counts_what_plain_answers(rt: HostRuntime) -> Result<(), Fail> {
    let alloc = rt.alloc();
    assert!(rt; is_measured(&rt, alloc, 1, 2, 1)?);
    assert!(rt; is_measured(&rt, alloc, 1, 3, 4)?);
    assert!(rt; is_measured(&rt, alloc, 2147483646, 3, 1)?);
    assert!(rt; is_measured(&rt, alloc, 2147483646, 1000, 4)?);
    Ok(())
}

#[test]
fn one_seed_has_one_summary(rt: HostRuntime) -> Result<(), Fail> {
    let alloc = rt.alloc();
    let mut sinks = [roomy(alloc)?, roomy(alloc)?];
    for sink in &mut sinks {
        let ended = bench(&rt, alloc, 1, 1000, 4, sink, &TurnChooser, &OpenGate);
        assert_eq!(rt; ended, Status::Done);
    }
    assert_eq!(rt; sinks[0].bytes(), sinks[1].bytes());
    Ok(())
}
