//! Versions, and the stacks that they are kept in.
use super::judge::{Verdict, judge};
use super::{
    CREWS, FIRST, GRAPH, PUBLISHED, are_answered, are_answered_in_line, is_answered, rows, served,
    text,
};
use std::alloc::Global;
use std::sync::Wait;
use std::test::Fail;
use std::thread::Threads;
use uni_base::{Limits, Text, cut_at};
use unicorn_round::{FirstChooser, OpenGate, TurnChooser};

// A rank that changes, and an entity that goes.
const CHANGES: &[u8] = b"\
    entity user 5 95|publish|go|ask 9 1 10 friend:1|=\
    published 34 2|\
    reply 36 at 2 hits 3|hit 5 via friend:1>5|hit 2 via friend:1>2|hit 3 via friend:1>3|;\
    gone 3|publish|gone 3|publish|go|ask 9 1 10 friend:1|=\
    published 34 2|published 36 3|\
    reply 38 at 3 hits 2|hit 2 via friend:1>2|hit 5 via friend:1>5|";

// A stack that is compacted between two publishes, line by line.
const COMPACTED: &[u8] = b"\
    publish|compact user 0 1|publish|stats|go|=\
    published 33 2|compacted 34 2|published 35 3|\
    stats 36 at 3 stacks 5|stack user 0 0 layers 4|stack user 0 1 layers 2|\
    stack user 1 0 layers 4|stack user 1 1 layers 4|stack photo 0 0 layers 4|";

// Stacks, and those that are tidied at their round's end.
const STACKS: &[u8] = b"\
    publish|stats|go|=\
    published 33 2|stats 34 at 2 stacks 5|stack user 0 0 layers 3|stack user 0 1 layers 3|\
    stack user 1 0 layers 3|stack user 1 1 layers 3|stack photo 0 0 layers 3|;\
    publish|publish|publish|publish|publish|publish|publish|stats|go|=\
    published 33 2|published 34 3|published 35 4|published 36 5|published 37 6|published 38 7|\
    published 39 8|\
    stats 40 at 8 stacks 5|stack user 0 0 layers 1|stack user 0 1 layers 9|\
    stack user 1 0 layers 1|stack user 1 1 layers 9|stack photo 0 0 layers 1|\
    tidied user 0 0 8|tidied user 1 0 8|tidied photo 0 0 8|";

// Twenty questions of four sessions beside three publishes that change a rank, and then questions
// alone, line by line.
const BESIDE: &[u8] = b"\
    ask 9 1 10 friend:1|ask 9 2 10 friend:1|ask 9 3 10 friend:1|ask 9 4 10 friend:1|\
    ask 9 1 10 friend:1|entity user 5 95|publish|ask 9 2 10 friend:1|ask 9 3 10 friend:1|\
    ask 9 4 10 friend:1|ask 9 1 10 friend:1|ask 9 2 10 friend:1|entity user 5 5|publish|\
    ask 9 3 10 friend:1|ask 9 4 10 friend:1|ask 9 1 10 friend:1|ask 9 2 10 friend:1|\
    ask 9 3 10 friend:1|entity user 5 70|publish|ask 9 4 10 friend:1|ask 9 1 10 friend:1|\
    ask 9 2 10 friend:1|ask 9 3 10 friend:1|ask 9 4 10 friend:1|go|ask 9 1 10 friend:1|\
    ask 9 2 10 friend:1|ask 9 3 10 friend:1|ask 9 4 10 friend:1|=\
    reply 33 at 1 hits 3|hit 2 via friend:1>2|hit 3 via friend:1>3|hit 5 via friend:1>5|\
    reply 34 at 1 hits 3|hit 2 via friend:1>2|hit 3 via friend:1>3|hit 5 via friend:1>5|\
    reply 35 at 1 hits 3|hit 2 via friend:1>2|hit 3 via friend:1>3|hit 5 via friend:1>5|\
    reply 36 at 1 hits 3|hit 2 via friend:1>2|hit 3 via friend:1>3|hit 5 via friend:1>5|\
    reply 37 at 1 hits 3|hit 2 via friend:1>2|hit 3 via friend:1>3|hit 5 via friend:1>5|\
    published 39 2|\
    reply 40 at 2 hits 3|hit 5 via friend:1>5|hit 2 via friend:1>2|hit 3 via friend:1>3|\
    reply 41 at 2 hits 3|hit 5 via friend:1>5|hit 2 via friend:1>2|hit 3 via friend:1>3|\
    reply 42 at 2 hits 3|hit 5 via friend:1>5|hit 2 via friend:1>2|hit 3 via friend:1>3|\
    reply 43 at 2 hits 3|hit 5 via friend:1>5|hit 2 via friend:1>2|hit 3 via friend:1>3|\
    reply 44 at 2 hits 3|hit 5 via friend:1>5|hit 2 via friend:1>2|hit 3 via friend:1>3|\
    published 46 3|\
    reply 47 at 3 hits 3|hit 2 via friend:1>2|hit 3 via friend:1>3|hit 5 via friend:1>5|\
    reply 48 at 3 hits 3|hit 2 via friend:1>2|hit 3 via friend:1>3|hit 5 via friend:1>5|\
    reply 49 at 3 hits 3|hit 2 via friend:1>2|hit 3 via friend:1>3|hit 5 via friend:1>5|\
    reply 50 at 3 hits 3|hit 2 via friend:1>2|hit 3 via friend:1>3|hit 5 via friend:1>5|\
    reply 51 at 3 hits 3|hit 2 via friend:1>2|hit 3 via friend:1>3|hit 5 via friend:1>5|\
    published 53 4|\
    reply 54 at 4 hits 3|hit 2 via friend:1>2|hit 3 via friend:1>3|hit 5 via friend:1>5|\
    reply 55 at 4 hits 3|hit 2 via friend:1>2|hit 3 via friend:1>3|hit 5 via friend:1>5|\
    reply 56 at 4 hits 3|hit 2 via friend:1>2|hit 3 via friend:1>3|hit 5 via friend:1>5|\
    reply 57 at 4 hits 3|hit 2 via friend:1>2|hit 3 via friend:1>3|hit 5 via friend:1>5|\
    reply 58 at 4 hits 3|hit 2 via friend:1>2|hit 3 via friend:1>3|hit 5 via friend:1>5|\
    reply 60 at 4 hits 3|hit 2 via friend:1>2|hit 3 via friend:1>3|hit 5 via friend:1>5|\
    reply 61 at 4 hits 3|hit 2 via friend:1>2|hit 3 via friend:1>3|hit 5 via friend:1>5|\
    reply 62 at 4 hits 3|hit 2 via friend:1>2|hit 3 via friend:1>3|hit 5 via friend:1>5|\
    reply 63 at 4 hits 3|hit 2 via friend:1>2|hit 3 via friend:1>3|hit 5 via friend:1>5|";

// What a compaction beside two publishes may cover, and the layers of its stack then.
const COVERED: &[u8] = b"\
    1=3|;\
    2=2|;\
    3=1|";

// The hits of a question before user 5 rises and after it falls again, and between.
const RESTED: &[u8] = b"hit 2 via friend:1>2|hit 3 via friend:1>3|hit 5 via friend:1>5|";

const RISEN: &[u8] = b"hit 5 via friend:1>5|hit 2 via friend:1>2|hit 3 via friend:1>3|";

// Whether an output is what may answer the compaction.
fn is_compacted(alloc: Global, output: &[u8]) -> Result<bool, Fail> {
    for row in rows(alloc, COVERED)?.as_slice() {
        let (covered, layers) = cut_at(row.as_slice(), b'=').ok_or("no row")?;
        let parts = [
            PUBLISHED,
            b"published 33 2|compacted 34 ",
            covered,
            b"|published 35 3|stats 36 at 3 stacks 5|stack user 0 0 layers 4|",
            b"stack user 0 1 layers ",
            layers,
            b"stack user 1 0 layers 4|stack user 1 1 layers 4|stack photo 0 0 layers 4|",
        ];
        if output == text(alloc, &parts)?.as_slice() {
            return Ok(true);
        }
    }
    Ok(false)
}

// Whether the hits behind a reply are those of its number: user 5 has risen at 2 alone.
fn has_hits_of_its_number(alloc: Global, reply: &[u8], hits: &[u8]) -> Result<bool, Fail> {
    let at_two = reply.ends_with(b" at 2 hits 3");
    let want = text(alloc, &[if at_two { RISEN } else { RESTED }])?;
    Ok(hits.starts_with(want.as_slice()))
}

// Looks at each reply of an output, and answers how many there are.
fn replies_with_their_hits(alloc: Global, output: &[u8]) -> Result<u64, Fail> {
    let mut count: u64 = 0;
    let mut left = output;
    for _ in 0..output.len() {
        let Some((line, rest)) = cut_at(left, b'\n') else {
            break;
        };
        if line.starts_with(b"reply ") {
            if !has_hits_of_its_number(alloc, line, rest)? {
                Err("a reply with other hits")?;
            }
            count = count.saturating_add(1);
        }
        left = rest;
    }
    Ok(count)
}

// The lines of a row of a table, behind the graph.
fn script_of(alloc: Global, table: &[u8]) -> Result<Text, Fail> {
    let (lines, _) = cut_at(table, b'=').ok_or("no row")?;
    text(alloc, &[FIRST, GRAPH, lines])
}

// Four replicas of one shard, which are due one round after the other.
const REPLICAS: &[u8] = b"\
    unicorn 1|vertical user 1 4|begin|\
    entity user 1 5|publish|publish|publish|publish|publish|publish|publish|publish|go|\
    publish|go|publish|go|publish|stats|go|";

const TIDIED: &[u8] = b"\
    published 5 1|published 6 2|published 7 3|published 8 4|\
    published 9 5|published 10 6|published 11 7|published 12 8|tidied user 0 0 8|\
    published 14 9|tidied user 0 1 9|published 16 10|tidied user 0 2 10|\
    published 18 11|stats 19 at 11 stacks 4|\
    stack user 0 0 layers 4|stack user 0 1 layers 3|stack user 0 2 layers 2|\
    stack user 0 3 layers 1|tidied user 0 3 11|";

#[test]
fn replicas_are_tidied_one_by_one(rt: HostRuntime) -> Result<(), Fail> {
    is_answered(
        &rt,
        rt.alloc(),
        Limits::standard(),
        &[REPLICAS],
        &[TIDIED],
        0,
    )
}

#[test]
fn versions_and_their_stacks(rt: HostRuntime) -> Result<(), Fail> {
    are_answered(&rt, rt.alloc(), Limits::standard(), FIRST, CHANGES)?;
    are_answered(&rt, rt.alloc(), Limits::standard(), FIRST, STACKS)?;
    are_answered_in_line(&rt, rt.alloc(), FIRST, BESIDE)?;
    are_answered_in_line(&rt, rt.alloc(), FIRST, COMPACTED)
}

// Whether the compaction covers what it may, and the whole answer is right.
fn is_compacted_well<R: Threads + Wait + Sync>(
    rt: &R,
    alloc: Global,
    script: &[u8],
    workers: u32,
) -> Result<bool, Fail> {
    let sink = served(rt, alloc, script, workers, &TurnChooser, &OpenGate)?;
    let output = sink.bytes();
    Ok(is_compacted(alloc, output)? && judge(alloc, script, output)? == Verdict::Right)
}

// The compaction covers one, two or three publishes.
#[test]
fn a_compaction_beside_publishes(rt: HostRuntime) -> Result<(), Fail> {
    let alloc = rt.alloc();
    let script = script_of(alloc, COMPACTED)?;
    for workers in CREWS {
        if !is_compacted_well(&rt, alloc, script.as_slice(), workers)? {
            return Err(Fail::new(workers));
        }
    }
    Ok(())
}

// Whether a service of so many workers answers a script with a text.
fn is_served<R: Threads + Wait + Sync>(
    rt: &R,
    alloc: Global,
    script: &[u8],
    workers: u32,
    want: &[u8],
) -> Result<bool, Fail> {
    let sink = served(rt, alloc, script, workers, &FirstChooser, &OpenGate)?;
    Ok(sink.bytes() == want)
}

// Whether a row's lines are answered as it says. Fails at the first number of workers by which they are not.
fn are_tidied<R: Threads + Wait + Sync>(rt: &R, alloc: Global, row: &[u8]) -> Result<(), Fail> {
    let (_, want) = cut_at(row, b'=').ok_or("no row")?;
    let script = script_of(alloc, row)?;
    let want = text(alloc, &[PUBLISHED, want])?;
    for workers in CREWS {
        if !is_served(rt, alloc, script.as_slice(), workers, want.as_slice())? {
            return Err(Fail::new(workers));
        }
    }
    Ok(())
}

// Where nobody asks and nobody compacts, there is one answer.
#[test]
fn stacks_are_tidied(rt: HostRuntime) -> Result<(), Fail> {
    let rows = rows(rt.alloc(), STACKS)?;
    for row in rows.as_slice() {
        are_tidied(&rt, rt.alloc(), row.as_slice())?;
    }
    Ok(())
}

// Whether the replies have their hits, and the whole answer is right.
fn have_their_hits<R: Threads + Wait + Sync>(
    rt: &R,
    alloc: Global,
    script: &[u8],
    workers: u32,
) -> Result<bool, Fail> {
    let sink = served(rt, alloc, script, workers, &TurnChooser, &OpenGate)?;
    let output = sink.bytes();
    let hits = replies_with_their_hits(alloc, output)?;
    Ok(hits == 24 && judge(alloc, script, output)? == Verdict::Right)
}

// Each reply has the hits of the number that it states, in the last round that of all publishes.
#[test]
fn questions_beside_publishes(rt: HostRuntime) -> Result<(), Fail> {
    let alloc = rt.alloc();
    let script = script_of(alloc, BESIDE)?;
    for workers in CREWS {
        for _ in 0..20 {
            if !have_their_hits(&rt, alloc, script.as_slice(), workers)? {
                return Err(Fail::new(workers));
            }
        }
    }
    Ok(())
}
