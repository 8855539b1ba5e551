//! Scripts at random, over the whole language in both formats. What a service answers is judged.
use super::draws::{Draws, fill, filled};
use super::judge::{Verdict, judge};
use super::queries::query;
use super::{CREWS, GRAPH, add, served};
use std::alloc::Global;
use std::str;
use std::sync::Wait;
use std::test::Fail;
use std::thread::Threads;
use uni_base::{MemorySink, Text};
use unicorn_round::{FirstChooser, OpenGate, TurnChooser};

// How many scripts a test tries. The ten tests try 500.
const SCRIPTS: u64 = 50;

fn ask(alloc: Global, draws: &mut Draws, format: u64, script: &mut Text) -> Result<(), Fail> {
    let session = if draws.one_in(3) {
        draws.up_to(64)
    } else {
        draws.up_to(4)
    };
    let limit = if draws.one_in(8) {
        5_000
    } else {
        draws.up_to(6)
    };
    let numbers = [draws.up_to(9), session, limit];
    fill(alloc, script, b"ask % % % ", &numbers)?;
    let query = query(alloc, draws, format)?;
    script.extend_from_slice(query.as_slice())?;
    script.push(b'\n')?;
    Ok(())
}

const EDGES: [&[u8]; 6] = [
    b"edge friend % % ",
    b"edge friend % % ",
    b"edge lives rome % ",
    b"edge lives roma % ",
    b"edge tagged % 10% ",
    b"edge blocked % % ",
];

const AUDIENCES: [&[u8]; 7] = [
    b"public",
    b"public",
    b"public",
    b"only",
    b"in:friend:%",
    b"in:lives:rome",
    b"in:lives:oslo",
];

fn edge(alloc: Global, draws: &mut Draws, format: u64, script: &mut Text) -> Result<(), Fail> {
    if draws.one_in(5) {
        fill(
            alloc,
            script,
            b"edge shows 10% % ",
            &[draws.up_to(3), draws.up_to(9)],
        )?;
    } else {
        let form = draws.part_of(&EDGES);
        let target = if form.ends_with(b"10% ") {
            draws.up_to(3)
        } else {
            draws.up_to(9)
        };
        let numbers = if form.starts_with(b"edge lives") {
            [target, 0]
        } else {
            [draws.up_to(9), target]
        };
        fill(alloc, script, form, &numbers)?;
    }
    let audience = draws.part_of(&AUDIENCES);
    fill(alloc, script, audience, &[draws.up_to(8)])?;
    if format == 2 && draws.one_in(3) {
        fill(alloc, script, b" until %", &[draws.up_to(12)])?;
    }
    script.push(b'\n')?;
    Ok(())
}

const CUTS: [&[u8]; 4] = [
    b"cut friend % %|",
    b"cut blocked % %|",
    b"cut shows 10% %|",
    b"cut tagged % 101|",
];

const COMPACTIONS: [&[u8]; 2] = [b"compact user % %|", b"compact photo 0 0|"];

// Lines that are not taken, or that are skipped.
const OTHERS: [&[u8]; 22] = [
    b"|",
    b"# a comment|",
    b"publish now|",
    b"go |",
    b"entity user 0 5|",
    b"entity user 101 5|",
    b"entity town 1 5|",
    b"gone 77|",
    b"edge frend 1 2 public|",
    b"edge friend 1 99 public|",
    b"edge friend 1 2 in:shows:102|",
    b"edge friend 1 4 public until 0|",
    b"compact user 9 0|",
    b"compact town 0 0|",
    b"ask|",
    b"ask 0 1 10 friend:1|",
    b"ask 9 65 10 friend:1|",
    b"ask 9 1 50001 friend:1|",
    b"ask 9 1 10 (and friend:1|",
    b"ask 9 1 10 frend:1|",
    b"ask 9 1 10 (extract friend: friend:1)|",
    b"ask 9 1 10 (and friend:1 tagged:1)|",
];

// Adds a line. Some scripts publish more than others.
fn line(
    alloc: Global,
    draws: &mut Draws,
    format: u64,
    busy: bool,
    script: &mut Text,
) -> Result<(), Fail> {
    let small = [draws.up_to(9), draws.up_to(9)];
    match draws.below(100) {
        0..=44 => ask(alloc, draws, format, script),
        45..=51 => fill(
            alloc,
            script,
            b"entity user % %|",
            &[draws.up_to(9), draws.below(99)],
        ),
        52..=54 => fill(alloc, script, b"entity photo 10% %|", &small),
        55..=57 => fill(alloc, script, b"gone %|", &small),
        58..=69 => edge(alloc, draws, format, script),
        70..=72 => fill(alloc, script, draws.part_of(&CUTS), &small),
        73..=82 => fill(alloc, script, b"publish|", &[]),
        83..=84 if busy => add(script, b"publish|publish|publish|publish|"),
        83..=88 => {
            let form = draws.part_of(&COMPACTIONS);
            fill(alloc, script, form, &[draws.below(2), draws.below(2)])
        }
        89..=90 => fill(alloc, script, b"stats|", &[]),
        91..=94 => fill(alloc, script, b"go|", &[]),
        _ => add(script, draws.part_of(&OTHERS)),
    }
}

const MORE_EDGES: [&[u8]; 6] = [
    b"edge friend % % public|",
    b"edge friend % % public|",
    b"edge friend % % public|",
    b"edge tagged % 10% public|",
    b"edge shows 10% % public|",
    b"edge lives roma % public|",
];

// Adds edges to the graph, so that most queries have hits. Some of them are refused.
fn add_edges(alloc: Global, draws: &mut Draws, script: &mut Text) -> Result<(), Fail> {
    for _ in 0..24 {
        let form = draws.part_of(&MORE_EDGES);
        let few = if form.starts_with(b"edge shows") {
            2
        } else {
            6
        };
        let most = if form.ends_with(b"10% public|") { 2 } else { 6 };
        fill(alloc, script, form, &[draws.up_to(few), draws.up_to(most)])?;
    }
    add(script, b"publish|")
}

// A script of a seed: the graph with more edges, and twenty to sixty lines.
fn script(alloc: Global, seed: u64) -> Result<Text, Fail> {
    let mut draws = Draws::of(seed);
    let format = draws.up_to(2);
    let sizes = [format, draws.up_to(3), draws.up_to(4)];
    let mut script = filled(alloc, b"unicorn %|vertical user % %|", &sizes)?;
    add(&mut script, GRAPH)?;
    add_edges(alloc, &mut draws, &mut script)?;
    let busy = draws.one_in(3);
    for _ in 0..draws.below(41).saturating_add(20) {
        line(alloc, &mut draws, format, busy, &mut script)?;
    }
    Ok(script)
}

// Serves a script, with the first replicas or with each in turn.
fn answer<R: Threads + Wait + Sync>(
    rt: &R,
    alloc: Global,
    script: &[u8],
    workers: u32,
    in_turn: bool,
) -> Result<MemorySink, Fail> {
    if in_turn {
        served(rt, alloc, script, workers, &TurnChooser, &OpenGate)
    } else {
        served(rt, alloc, script, workers, &FirstChooser, &OpenGate)
    }
}

// Judges what a service answers to the script of a seed. Fails with the seed where that is wrong.
fn is_right<R: Threads + Wait + Sync>(
    rt: &R,
    alloc: Global,
    seed: u64,
    workers: u32,
) -> Result<(), Fail> {
    let script = script(alloc, seed)?;
    let in_turn = seed.wrapping_add(workers as u64) % 3 != 1;
    let sink = answer(rt, alloc, script.as_slice(), workers, in_turn)?;
    let verdict = judge(alloc, script.as_slice(), sink.bytes())?;
    if verdict != Verdict::Right {
        return Err(Fail::new(seed));
    }
    Ok(())
}

// Judges the scripts of a test, each with every number of workers.
fn are_right<R: Threads + Wait + Sync>(rt: &R, alloc: Global, test: u64) -> Result<(), Fail> {
    for i in 0..SCRIPTS {
        let seed = test.wrapping_mul(SCRIPTS).wrapping_add(i);
        for workers in CREWS {
            is_right(rt, alloc, seed, workers)?;
        }
    }
    Ok(())
}

#[test]
fn first_scripts(rt: HostRuntime) -> Result<(), Fail> {
    are_right(&rt, rt.alloc(), 0)
}

#[test]
fn second_scripts(rt: HostRuntime) -> Result<(), Fail> {
    are_right(&rt, rt.alloc(), 1)
}

#[test]
fn third_scripts(rt: HostRuntime) -> Result<(), Fail> {
    are_right(&rt, rt.alloc(), 2)
}

#[test]
fn fourth_scripts(rt: HostRuntime) -> Result<(), Fail> {
    are_right(&rt, rt.alloc(), 3)
}

#[test]
fn fifth_scripts(rt: HostRuntime) -> Result<(), Fail> {
    are_right(&rt, rt.alloc(), 4)
}

#[test]
fn sixth_scripts(rt: HostRuntime) -> Result<(), Fail> {
    are_right(&rt, rt.alloc(), 5)
}

#[test]
fn seventh_scripts(rt: HostRuntime) -> Result<(), Fail> {
    are_right(&rt, rt.alloc(), 6)
}

#[test]
fn eighth_scripts(rt: HostRuntime) -> Result<(), Fail> {
    are_right(&rt, rt.alloc(), 7)
}

#[test]
fn ninth_scripts(rt: HostRuntime) -> Result<(), Fail> {
    are_right(&rt, rt.alloc(), 8)
}

#[test]
fn tenth_scripts(rt: HostRuntime) -> Result<(), Fail> {
    are_right(&rt, rt.alloc(), 9)
}
