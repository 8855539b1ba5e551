//! Reads and writes that fail, each in its turn.
ghost use Rattle.std.specs.Prelude.{◌<◌};

use super::{
    FIRST, GRAPH, MODES, Mode, PUBLISHED, QUESTION, REPLY, add, ends, piece, roomy, rows, text,
};
use std::alloc::Global;
use std::sync::Wait;
use std::test::Fail;
use std::thread::Threads;
use uni_base::{Limits, MemorySink, MemorySource, Rows, Text, cut_at};

// The rounds of a script, the first one with the header, each with its text. The last one has no
// `go`.
const ROUNDS: &[u8] = b"\
    unicorn 1|vertical user 1 1|type friend user user both index|begin|\
    entity user 1 2|edge friend 1 1 public|publish|go|=\
    published 7 1|;\
    ask 1 1 9 friend:1|go|=\
    reply 9 at 1 hits 1|hit 1 via friend:1>1|;\
    cut friend 1 1|publish|=\
    published 12 2|";

// The script of the rounds, and their text.
fn rounds(alloc: Global) -> Result<(Text, Text), Fail> {
    let mut script = Rows::new(alloc);
    let mut answers = Rows::new(alloc);
    for round in rows(alloc, ROUNDS)?.as_slice() {
        let (lines, text) = cut_at(round.as_slice(), b'=').ok_or("no round")?;
        add(&mut script, lines)?;
        add(&mut answers, text)?;
    }
    Ok((script, answers))
}

// The text of the rounds whose `go` is among so many bytes of the script, and where its end was
// read also that of the last one.
fn closed(alloc: Global, bytes: usize, ended: bool) -> Result<Text, Fail> {
    let mut script = Rows::new(alloc);
    let mut answers = Rows::new(alloc);
    for round in rows(alloc, ROUNDS)?.as_slice() {
        let (lines, text) = cut_at(round.as_slice(), b'=').ok_or("no round")?;
        add(&mut script, lines)?;
        if script.len() <= bytes && (ended || lines.ends_with(b"go|")) {
            add(&mut answers, text)?;
        }
    }
    Ok(answers)
}

// What so many writes take, each at most so many bytes of the text of one round.
fn taken(alloc: Global, most: usize, writes: usize) -> Result<Text, Fail>
    requires { 0 < most }
{
    let mut taken = Rows::new(alloc);
    let mut left = writes;
    for round in rows(alloc, ROUNDS)?.as_slice() {
        let (_, text) = cut_at(round.as_slice(), b'=').ok_or("no round")?;
        for piece in text.chunks(most) {
            if left == 0 {
                return Ok(taken);
            }
            add(&mut taken, piece)?;
            left -= 1;
        }
    }
    Ok(taken)
}

// A text in pieces of so many bytes.
fn pieces(alloc: Global, text: &[u8], size: usize) -> Result<Vec<Text>, Fail>
    requires { 0 < size }
{
    let mut pieces = Vec::new(alloc);
    for part in text.chunks(size) {
        let mut piece = Rows::new(alloc);
        piece.extend_from_slice(part)?;
        pieces.push(piece)?;
    }
    Ok(pieces)
}

// The graph and a question, each in a piece. A read of a number fails.
fn two_pieces(alloc: Global, fails: u64) -> Result<MemorySource, Fail> {
    let mut pieces = Vec::new(alloc);
    pieces.push(text(alloc, &[FIRST, GRAPH])?)?;
    pieces.push(text(alloc, &[QUESTION])?)?;
    Ok(MemorySource::new(pieces, vec![in alloc; fails]?))
}

// A sink that takes so many bytes in a write. A write of a number fails.
fn failing(alloc: Global, most: usize, fails: u64) -> Result<MemorySink, Fail>
    requires { 0 < most }
{
    Ok(MemorySink::new(alloc, 65_536, most, vec![in alloc; fails]?)?)
}

// Answers a script in pieces of so many bytes, the read after some of them failing.
fn read_fails<R: Threads + Wait + Sync>(
    rt: &R,
    alloc: Global,
    mode: Mode,
    script: &[u8],
    size: usize,
    before: usize,
    want: (&[u8], u8),
) -> Result<(), Fail>
    requires { 0 < size }
{
    let parts = pieces(alloc, script, size)?;
    let fails = vec![in alloc; (before as u64).saturating_add(1)]?;
    let mut source = MemorySource::new(parts, fails);
    let mut sink = roomy(alloc)?;
    ends(
        rt,
        alloc,
        mode,
        Limits::standard(),
        &mut source,
        &mut sink,
        want,
    )
}

// A read of each number fails; the last one finds the end.
fn reads_fail<R: Threads + Wait + Sync>(
    rt: &R,
    alloc: Global,
    mode: Mode,
    size: usize,
) -> Result<(), Fail>
    requires { 0 < size }
{
    let (script, _) = rounds(alloc)?;
    let reads = script.len().div_ceil(size).saturating_add(1);
    for before in 0..=reads {
        let ended = before == reads;
        let text = closed(alloc, before.saturating_mul(size), ended)?;
        let want = (text.as_slice(), if ended { 0 } else { 4 });
        read_fails(rt, alloc, mode, script.as_slice(), size, before, want)?;
    }
    Ok(())
}

// A write of each number fails. With room for all of a round there are three writes.
fn writes_fail<R: Threads + Wait + Sync>(
    rt: &R,
    alloc: Global,
    mode: Mode,
    most: usize,
) -> Result<(), Fail>
    requires { 0 < most }
{
    let (script, answers) = rounds(alloc)?;
    for before in 0..72 {
        let text = taken(alloc, most, before)?;
        let faults = if text.len() == answers.len() { 0 } else { 1 };
        let want = (text.as_slice(), if faults == 0 { 0 } else { 5 });
        let mut sink = failing(alloc, most, before as u64 + 1)?;
        write_fails(rt, alloc, mode, script.as_slice(), &mut sink, want)?;
        if sink.faults() != faults {
            return Err(Fail::new(before));
        }
    }
    Ok(())
}

// Answers a script whose write of a number fails.
fn write_fails<R: Threads + Wait + Sync>(
    rt: &R,
    alloc: Global,
    mode: Mode,
    script: &[u8],
    sink: &mut MemorySink,
    want: (&[u8], u8),
) -> Result<(), Fail> {
    let mut source = piece(alloc, script)?;
    ends(rt, alloc, mode, Limits::standard(), &mut source, sink, want)
}

#[test]
fn each_read_and_write_fails_in_turn(rt: HostRuntime) -> Result<(), Fail> {
    for mode in MODES {
        for bytes in [1, 7, 100, 65_536] {
            reads_fail(&rt, rt.alloc(), mode, bytes)?;
            writes_fail(&rt, rt.alloc(), mode, bytes)?;
        }
    }
    Ok(())
}

// Answers the graph and a question in two pieces, a read of a number failing.
fn ends_at_read<R: Threads + Wait + Sync>(
    rt: &R,
    alloc: Global,
    mode: Mode,
    fails: u64,
    want: (&[u8], u8),
) -> Result<(), Fail> {
    let mut source = two_pieces(alloc, fails)?;
    let mut sink = roomy(alloc)?;
    ends(
        rt,
        alloc,
        mode,
        Limits::standard(),
        &mut source,
        &mut sink,
        want,
    )
}

// The third read, which finds the end, fails or not.
#[test]
fn the_end_cannot_be_read(rt: HostRuntime) -> Result<(), Fail> {
    let first = text(rt.alloc(), &[PUBLISHED])?;
    let both = text(rt.alloc(), &[PUBLISHED, REPLY])?;
    for mode in MODES {
        ends_at_read(&rt, rt.alloc(), mode, 3, (first.as_slice(), 4))?;
        ends_at_read(&rt, rt.alloc(), mode, 4, (both.as_slice(), 0))?;
    }
    Ok(())
}

// The second write fails, and nothing is read after it: the second read would fail too.
fn ends_at_write<R: Threads + Wait + Sync>(rt: &R, alloc: Global, mode: Mode) -> Result<(), Fail> {
    let mut source = two_pieces(alloc, 2)?;
    let mut sink = failing(alloc, 10, 2)?;
    ends(
        rt,
        alloc,
        mode,
        Limits::standard(),
        &mut source,
        &mut sink,
        (b"published ", 5),
    )?;
    if source.faults() != 0 {
        return Err("a read after the fault")?;
    }
    Ok(())
}

// Where each of two rounds with answers is taken in one piece, there is no third write that could fail; a
// round without answers is not offered.
fn takes_rounds<R: Threads + Wait + Sync>(
    rt: &R,
    alloc: Global,
    mode: Mode,
    script: &[u8],
    want: &[u8],
) -> Result<(), Fail> {
    let mut sink = failing(alloc, 65_536, 3)?;
    write_fails(rt, alloc, mode, script, &mut sink, (want, 0))
}

#[test]
fn writes_of_whole_rounds(rt: HostRuntime) -> Result<(), Fail> {
    let more = [FIRST, GRAPH, b"go|# nothing|go|", QUESTION, b"go|gone 77|"];
    let reply =
        b"reply 36 at 1 hits 3|hit 2 via friend:1>2|hit 3 via friend:1>3|hit 5 via friend:1>5|";
    let script = text(rt.alloc(), &more)?;
    let both = text(rt.alloc(), &[PUBLISHED, reply])?;
    for mode in MODES {
        ends_at_write(&rt, rt.alloc(), mode)?;
        takes_rounds(&rt, rt.alloc(), mode, script.as_slice(), both.as_slice())?;
    }
    Ok(())
}
