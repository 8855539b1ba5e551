//! Scripts with the texts that answer them, as they were worked out by hand.
ghost use Rattle.uni_base.specs.StandardLimits.{IsWithinStandard};

use std::alloc::Global;
use std::sync::Wait;
use std::test::Fail;
use std::thread::Threads;
use uni_base::{Limits, MemorySink, MemorySource, Rows, Text, cut_at};
use unicorn_round::{
    Chooser, FirstChooser, Gate, OpenGate, Status, TurnChooser, run_plain, serve_rounds,
};

mod bench;
mod draws;
mod faults;
mod forms;
mod gates;
mod judge;
mod judge_stacks;
mod limits;
mod many;
mod modes;
mod operators;
mod queries;
mod random;
mod second_format;
mod versions;
mod viewers;

// The first two lines of a script, in which a bar stands for each LF.
const FIRST: &[u8] = b"unicorn 1|vertical user 2 2|";

const SECOND: &[u8] = b"unicorn 2|vertical user 2 2|";

// All users in one shard.
const ONE_SHARD: &[u8] = b"unicorn 1|vertical user 1 2|";

// The lines 3 to 32: photos in one shard; friends, where users live, the photos that they are
// tagged in, the users whom a photo shows, and those whom a user blocks. Eight entities and twelve
// edges are published.
const GRAPH: &[u8] = b"\
    vertical photo 1 1|\
    type friend user user both index|type lives word user target index|\
    type tagged user photo source index|type shows photo user source forward|\
    type blocked user user source index|deny blocked|begin|\
    entity user 1 50|entity user 2 90|entity user 3 90|\
    entity user 4 10|entity user 5 70|entity user 6 60|\
    entity photo 101 5|entity photo 102 9|\
    edge friend 1 2 public|edge friend 1 3 public|edge friend 1 5 public|\
    edge lives rome 2 public|edge lives rome 4 public|edge lives rome 5 public|\
    edge lives rome 6 public|\
    edge tagged 2 101 public|edge tagged 3 102 public|edge tagged 5 102 public|\
    edge shows 102 4 public|edge shows 102 1 public|\
    publish|go|";

const PUBLISHED: &[u8] = b"published 31 1|";

// A question on line 33, with its answer.
const QUESTION: &[u8] = b"ask 9 1 10 friend:1|";

const REPLY: &[u8] =
    b"reply 33 at 1 hits 3|hit 2 via friend:1>2|hit 3 via friend:1>3|hit 5 via friend:1>5|";

// How a script is answered: as a service that reads the first replica or each in turn, or line by
// line.
#[derive(Clone, Copy, Debug)]
enum Mode {
    First,
    InTurn,
    Plain,
}

const MODES: [Mode; 3] = [Mode::First, Mode::InTurn, Mode::Plain];

// The bytes of an output as text.
fn shown(text: &[u8]) -> &str {
    str::from_utf8(text).unwrap_or("")
}

// Answers a script. Fails with what is answered where that is another text, or the status has another number.
fn ends<R: Threads + Wait + Sync>(
    rt: &R,
    alloc: Global,
    mode: Mode,
    limits: Limits,
    source: &mut MemorySource,
    sink: &mut MemorySink,
    want: (&[u8], u8),
) -> Result<(), Fail>
    requires { IsWithinStandard limits }
{
    let ended = match mode {
        Mode::First => serve_rounds(rt, alloc, limits, 1, source, sink, &FirstChooser, &OpenGate),
        Mode::InTurn => serve_rounds(rt, alloc, limits, 4, source, sink, &TurnChooser, &OpenGate),
        Mode::Plain => run_plain(alloc, limits, source, sink),
    };
    let (text, status) = want;
    if sink.bytes() != text || ended.number() != status {
        return Err(Fail::new(shown(sink.bytes())));
    }
    Ok(())
}

// Adds a part to a text. A bar stands for an LF.
fn add(text: &mut Text, part: &[u8]) -> Result<(), Fail> {
    for byte in part {
        text.push(if *byte == b'|' { b'\n' } else { *byte })?;
    }
    Ok(())
}

fn text(alloc: Global, parts: &[&[u8]]) -> Result<Text, Fail> {
    let mut text = Rows::new(alloc);
    for part in parts {
        add(&mut text, part)?;
    }
    Ok(text)
}

// A source of one piece, no read of which fails.
fn whole(alloc: Global, text: Text) -> Result<MemorySource, Fail> {
    let mut pieces = Vec::new(alloc);
    pieces.push(text)?;
    Ok(MemorySource::new(pieces, Vec::new(alloc)))
}

// A sink that takes what it is offered.
fn roomy(alloc: Global) -> Result<MemorySink, Fail> {
    Ok(MemorySink::new(alloc, 65_536, 65_536, Vec::new(alloc))?)
}

// The rows of a table, between which a semicolon stands.
fn rows(alloc: Global, table: &[u8]) -> Result<Vec<Text>, Fail> {
    let mut rows = Vec::new(alloc);
    let mut row = Rows::new(alloc);
    for byte in table {
        if *byte == b';' {
            rows.push(row)?;
            row = Rows::new(alloc);
        } else {
            row.push(*byte)?;
        }
    }
    rows.push(row)?;
    Ok(rows)
}

// Answers the parts of a script in each mode.
fn is_answered<R: Threads + Wait + Sync>(
    rt: &R,
    alloc: Global,
    limits: Limits,
    script: &[&[u8]],
    want: &[&[u8]],
    status: u8,
) -> Result<(), Fail>
    requires { IsWithinStandard limits }
{
    let want = text(alloc, want)?;
    let script = text(alloc, script)?;
    for mode in MODES {
        ends_whole(
            rt,
            alloc,
            mode,
            limits,
            script.as_slice(),
            (want.as_slice(), status),
        )?;
    }
    Ok(())
}

// Answers a script in one piece, with room for all.
fn ends_whole<R: Threads + Wait + Sync>(
    rt: &R,
    alloc: Global,
    mode: Mode,
    limits: Limits,
    script: &[u8],
    want: (&[u8], u8),
) -> Result<(), Fail>
    requires { IsWithinStandard limits }
{
    let mut source = piece(alloc, script)?;
    let mut sink = roomy(alloc)?;
    ends(rt, alloc, mode, limits, &mut source, &mut sink, want)
}

// Answers each row of a table: lines and, after a sign of equality, the text that answers them.
// They follow the graph and its answer.
fn are_answered<R: Threads + Wait + Sync>(
    rt: &R,
    alloc: Global,
    limits: Limits,
    front: &[u8],
    table: &[u8],
) -> Result<(), Fail>
    requires { IsWithinStandard limits }
{
    for row in rows(alloc, table)?.as_slice() {
        let (lines, want) = cut_at(row.as_slice(), b'=').ok_or("no row")?;
        is_answered(
            rt,
            alloc,
            limits,
            &[front, GRAPH, lines],
            &[PUBLISHED, want],
            0,
        )?;
    }
    Ok(())
}

// Answers each row of a table line by line.
fn are_answered_in_line<R: Threads + Wait + Sync>(
    rt: &R,
    alloc: Global,
    front: &[u8],
    table: &[u8],
) -> Result<(), Fail> {
    for row in rows(alloc, table)?.as_slice() {
        is_answered_in_line(rt, alloc, front, row.as_slice())?;
    }
    Ok(())
}

fn is_answered_in_line<R: Threads + Wait + Sync>(
    rt: &R,
    alloc: Global,
    front: &[u8],
    row: &[u8],
) -> Result<(), Fail> {
    let (lines, want) = cut_at(row, b'=').ok_or("no row")?;
    let want = text(alloc, &[PUBLISHED, want])?;
    let script = text(alloc, &[front, GRAPH, lines])?;
    ends_whole(
        rt,
        alloc,
        Mode::Plain,
        Limits::standard(),
        script.as_slice(),
        (want.as_slice(), 0),
    )
}

// The numbers of workers that a service is tried with.
const CREWS: [u32; 3] = [1, 4, 64];

// More bytes than any answer of these tests has.
const ROOM: usize = 4_194_304;

// A script in one piece, as it is.
fn piece(alloc: Global, script: &[u8]) -> Result<MemorySource, Fail> {
    let mut text = Rows::new(alloc);
    text.extend_from_slice(script)?;
    whole(alloc, text)
}

// What a service of one, four or else 64 workers answers to a script.
fn served<R: Threads + Wait + Sync, C: Chooser + Sync, G: Gate + Sync>(
    rt: &R,
    alloc: Global,
    script: &[u8],
    workers: u32,
    chooser: &C,
    gate: &G,
) -> Result<MemorySink, Fail> {
    let limits = Limits::standard();
    let mut source = piece(alloc, script)?;
    let mut sink = MemorySink::new(alloc, ROOM, ROOM, Vec::new(alloc))?;
    let ended = match workers {
        1 => serve_rounds(rt, alloc, limits, 1, &mut source, &mut sink, chooser, gate),
        4 => serve_rounds(rt, alloc, limits, 4, &mut source, &mut sink, chooser, gate),
        _ => serve_rounds(rt, alloc, limits, 64, &mut source, &mut sink, chooser, gate),
    };
    if ended != Status::Done {
        return Err("a script was not served to its end")?;
    }
    if finds_no_memory(sink.bytes()) {
        return Err("a line or a stack found no memory")?;
    }
    Ok(sink)
}

// What answers a script line by line.
fn plainly(alloc: Global, script: &[u8]) -> Result<MemorySink, Fail> {
    let mut source = piece(alloc, script)?;
    let mut sink = MemorySink::new(alloc, ROOM, ROOM, Vec::new(alloc))?;
    if run_plain(alloc, Limits::standard(), &mut source, &mut sink) != Status::Done {
        return Err("a script was not answered to its end")?;
    }
    if finds_no_memory(sink.bytes()) {
        return Err("a line or a stack found no memory")?;
    }
    Ok(sink)
}

// Whether an output says of a line or of a stack that it found no memory. These tests have enough of it.
fn finds_no_memory(output: &[u8]) -> bool {
    output.split(|byte| *byte == b'\n').any(|line| line.starts_with(b"memory ")
        || line.starts_with(b"untidied "))
}
