//! What `check` writes, and the program over its words.
use super::{FIRST, GRAPH, PUBLISHED, QUESTION, REPLY, roomy, text, whole};
use std::alloc::Global;
use std::sync::Wait;
use std::test::Fail;
use std::thread::Threads;
use uni_base::Limits;
use unicorn_round::{OpenGate, Status, TurnChooser, check_script, run};

// Lines 33 to 43, of which the table refuses some and takes three.
const CHANGES: &[u8] = b"\
    edge friend 1 99 public|edge friend 99 1 public|edge frend 1 2 public|\
    edge friend 1 2 in:shows:102|entity photo 1 5|entity user 0 5|\
    edge friend rome 2 public|cut friend 1 99|gone 77|compact user 2 0|publish|";

const REFUSED: &[u8] = b"\
    refused 33 14|refused 34 13|refused 35 12|refused 36 15|refused 37 16|\
    refused 38 11|refused 39 13|refused 42 12|checked 43 lines|";

// Queries, some of them at fault, and stacks.
const QUERIES: &[u8] = b"ask 9 1 10 friend:1|ask 9 1 0 friend:1|ask 9 1 10 frend:1|stats|";

const FAULTS: &[u8] = b"error 34 63|error 35 41 1|checked 36 lines|";

const USAGE: &[u8] = b"usage: unicorn MODE [--workers N] [--seed N] [--people N]|";

// Whether `check` writes a text for lines after the graph.
fn is_checked(alloc: Global, lines: &[u8], want: &[u8]) -> Result<bool, Fail> {
    let mut source = whole(alloc, text(alloc, &[FIRST, GRAPH, lines])?)?;
    let mut sink = roomy(alloc)?;
    let ended = check_script(alloc, Limits::standard(), &mut source, &mut sink);
    Ok(ended == Status::Done && sink.bytes() == text(alloc, &[want])?.as_slice())
}

fn words_of(alloc: Global, line: &str) -> Result<Vec<String>, Fail> {
    let mut words = Vec::new(alloc);
    for word in line.split(' ') {
        words.push(String::from_str(alloc, word)?)?;
    }
    Ok(words)
}

// Whether the program over a line of words answers the question with a text and a status.
fn is_run<R: Threads + Wait + Sync>(
    rt: &R,
    alloc: Global,
    line: &str,
    want: &[&[u8]],
    status: Status,
) -> Result<bool, Fail> {
    let words = words_of(alloc, line)?;
    let mut source = whole(alloc, text(alloc, &[FIRST, GRAPH, QUESTION])?)?;
    let mut sink = roomy(alloc)?;
    let ended = run(
        rt,
        alloc,
        words.as_slice(),
        &mut source,
        &mut sink,
        &TurnChooser,
        &OpenGate,
    );
    Ok(ended == status && sink.bytes() == text(alloc, want)?.as_slice())
}

#[test]
fn checks(rt: HostRuntime) -> Result<(), Fail> {
    assert!(rt; is_checked(rt.alloc(), CHANGES, REFUSED)?);
    assert!(rt; is_checked(rt.alloc(), QUERIES, FAULTS)?);
    Ok(())
}

// Whether the program over a line of words is done, with a text.
fn is_done<R: Threads + Wait + Sync>(
    rt: &R,
    alloc: Global,
    line: &str,
    want: &[&[u8]],
) -> Result<bool, Fail> {
    is_run(rt, alloc, line, want, Status::Done)
}

#[test]
fn words(rt: HostRuntime) -> Result<(), Fail> {
    let alloc = rt.alloc();
    let answers: [&[u8]; 2] = [PUBLISHED, REPLY];
    assert!(rt; is_done(&rt, alloc, "unicorn serve --workers 2", &answers)?);
    assert!(rt; is_done(&rt, alloc, "unicorn plain", &answers)?);
    assert!(rt; is_done(&rt, alloc, "unicorn check", &[b"checked 33 lines|"])?);
    Ok(())
}

#[test]
fn words_of_other_scripts(rt: HostRuntime) -> Result<(), Fail> {
    let alloc = rt.alloc();
    let summary: &[u8] = b"bench people 2 publishes 11 asks 99 hits 132 sum 198|";
    assert!(rt; is_done(&rt, alloc, "unicorn bench --people 2", &[summary])?);
    assert!(rt; is_run(&rt, alloc, "unicorn dance", &[USAGE], Status::Usage)?);
    Ok(())
}
