//! A script of many sessions: 5,000 questions, 200 publishes, and compactions of every stack.
use super::judge::{Verdict, judge};
use super::{FIRST, GRAPH, Mode, add, served, text};
use std::alloc::Global;
use std::sync::Wait;
use std::test::Fail;
use std::thread::Threads;
use uni_base::{MemorySink, Text};
use unicorn_round::{FirstChooser, OpenGate, TurnChooser};

const ROUNDS: u64 = 10;

// The questions of a round.
const QUESTIONS: u64 = 500;

// How often each number of workers serves the script.
const TIMES: u64 = 10;

const QUERIES: [&[u8]; 8] = [
    b"friend:1|",
    b"lives:rome|",
    b"(and friend:1 lives:rome)|",
    b"(or friend:1 lives:rome)|",
    b"(weak-and (term friend:1 :optional-hits 1) lives:rome)|",
    b"(strong-or friend:1 (term lives:rome :optional-weight 1/2))|",
    b"(apply tagged: friend:1)|",
    b"(extract shows: (apply tagged: friend:1))|",
];

// What is changed before a publish.
const CHANGES: [&[u8]; 10] = [
    b"entity user 5 95|",
    b"cut friend 1 2|",
    b"entity user 5 5|edge blocked 3 9 public|",
    b"edge friend 1 2 public|",
    b"gone 6|",
    b"entity user 6 75|edge lives rome 6 only|",
    b"edge friend 1 6 in:lives:rome|",
    b"cut blocked 3 9|edge tagged 6 101 public|",
    b"edge shows 101 3 public|",
    b"cut shows 101 3|cut tagged 6 101|",
];

const STACKS: [&[u8]; 5] = [
    b"compact user 0 0|",
    b"compact user 0 1|",
    b"compact user 1 0|",
    b"compact user 1 1|",
    b"compact photo 0 0|",
];

// One of some parts, by a number.
fn part_of(parts: &[&'static [u8]], number: u64) -> &'static [u8] {
    let place = number.checked_rem(parts.len() as u64).unwrap_or(0);
    match parts.get(usize::try_from(place).unwrap_or(0)) {
        Some(part) => part,
        None => b"",
    }
}

// A question by its number. Viewers and sessions come in turn.
fn add_question(alloc: Global, script: &mut Text, number: u64) -> Result<(), Fail> {
    let viewer = (number % 7).saturating_add(1);
    let session = (number % 64).saturating_add(1);
    let front = format!(in alloc; "ask {viewer} {session} 10 ")?;
    script.extend_from_slice(front.as_bytes())?;
    add(script, part_of(&QUERIES, number / 3))
}

// A round: twenty publishes and ten compactions among the questions.
fn add_round(alloc: Global, script: &mut Text, round: u64) -> Result<(), Fail> {
    for i in 0..QUESTIONS {
        add_question(alloc, script, round.wrapping_mul(QUESTIONS).wrapping_add(i))?;
        if i % 25 == 12 {
            add(script, part_of(&CHANGES, i / 25))?;
            add(script, b"publish|")?;
        }
        if i % 50 == 30 {
            add(script, part_of(&STACKS, i / 50))?;
        }
    }
    add(script, b"stats|go|")
}

fn script(alloc: Global) -> Result<Text, Fail> {
    let mut script = text(alloc, &[FIRST, GRAPH])?;
    for round in 0..ROUNDS {
        add_round(alloc, &mut script, round)?;
    }
    Ok(script)
}

fn answer<R: Threads + Wait + Sync>(
    rt: &R,
    alloc: Global,
    script: &[u8],
    mode: Mode,
) -> Result<MemorySink, Fail> {
    match mode {
        Mode::First => served(rt, alloc, script, 4, &FirstChooser, &OpenGate),
        _ => served(rt, alloc, script, 64, &TurnChooser, &OpenGate),
    }
}

fn is_right<R: Threads + Wait + Sync>(
    rt: &R,
    alloc: Global,
    script: &[u8],
    mode: Mode,
) -> Result<(), Fail> {
    let sink = answer(rt, alloc, script, mode)?;
    let verdict = judge(alloc, script, sink.bytes())?;
    if verdict != Verdict::Right {
        return Err("an answer is wrong")?;
    }
    Ok(())
}

#[test]
fn many_sessions_of_four_workers(rt: HostRuntime) -> Result<(), Fail> {
    let script = script(rt.alloc())?;
    for _ in 0..TIMES {
        is_right(&rt, rt.alloc(), script.as_slice(), Mode::First)?;
    }
    Ok(())
}

#[test]
fn many_sessions_of_all_workers(rt: HostRuntime) -> Result<(), Fail> {
    let script = script(rt.alloc())?;
    for _ in 0..TIMES {
        is_right(&rt, rt.alloc(), script.as_slice(), Mode::InTurn)?;
    }
    Ok(())
}
