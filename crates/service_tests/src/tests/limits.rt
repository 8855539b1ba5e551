//! Limits that are smaller than the standard ones, and lines that are longer than any.
use super::{FIRST, GRAPH, PUBLISHED, QUESTION, REPLY, add, are_answered, is_answered, text};
use std::test::Fail;
use uni_base::Limits;

// One question too many, and one after it.
const QUESTIONS: &[u8] = b"\
    ask 9 1 10 friend:1|ask 9 1 10 friend:1|ask 9 1 10 friend:1|ask 9 1 10 friend:1|\
    ask 9 1 10 friend:1|ask 9 1 10 friend:1|ask 9 1 10 friend:1|ask 9 1 10 friend:1|\
    ask 9 1 10 friend:1|ask 9 1 10 friend:1|ask 9 1 10 friend:1|ask 9 1 10 friend:1|\
    ask 9 1 10 friend:1|ask 9 1 10 friend:1|ask 9 1 10 friend:1|ask 9 1 10 friend:1|\
    ask 9 1 10 friend:1|ask 9 1 10 friend:1|ask 9 1 10 friend:1|ask 9 1 10 friend:1|\
    ask 9 1 10 friend:1|ask 9 1 10 friend:1|ask 9 1 10 friend:1|=\
    reply 33 at 1 hits 3|hit 2 via friend:1>2|hit 3 via friend:1>3|hit 5 via friend:1>5|\
    reply 34 at 1 hits 3|hit 2 via friend:1>2|hit 3 via friend:1>3|hit 5 via friend:1>5|\
    reply 35 at 1 hits 3|hit 2 via friend:1>2|hit 3 via friend:1>3|hit 5 via friend:1>5|\
    reply 36 at 1 hits 3|hit 2 via friend:1>2|hit 3 via friend:1>3|hit 5 via friend:1>5|\
    reply 37 at 1 hits 3|hit 2 via friend:1>2|hit 3 via friend:1>3|hit 5 via friend:1>5|\
    reply 38 at 1 hits 3|hit 2 via friend:1>2|hit 3 via friend:1>3|hit 5 via friend:1>5|\
    reply 39 at 1 hits 3|hit 2 via friend:1>2|hit 3 via friend:1>3|hit 5 via friend:1>5|\
    reply 40 at 1 hits 3|hit 2 via friend:1>2|hit 3 via friend:1>3|hit 5 via friend:1>5|\
    reply 41 at 1 hits 3|hit 2 via friend:1>2|hit 3 via friend:1>3|hit 5 via friend:1>5|\
    reply 42 at 1 hits 3|hit 2 via friend:1>2|hit 3 via friend:1>3|hit 5 via friend:1>5|\
    reply 43 at 1 hits 3|hit 2 via friend:1>2|hit 3 via friend:1>3|hit 5 via friend:1>5|\
    reply 44 at 1 hits 3|hit 2 via friend:1>2|hit 3 via friend:1>3|hit 5 via friend:1>5|\
    reply 45 at 1 hits 3|hit 2 via friend:1>2|hit 3 via friend:1>3|hit 5 via friend:1>5|\
    reply 46 at 1 hits 3|hit 2 via friend:1>2|hit 3 via friend:1>3|hit 5 via friend:1>5|\
    reply 47 at 1 hits 3|hit 2 via friend:1>2|hit 3 via friend:1>3|hit 5 via friend:1>5|\
    reply 48 at 1 hits 3|hit 2 via friend:1>2|hit 3 via friend:1>3|hit 5 via friend:1>5|\
    reply 49 at 1 hits 3|hit 2 via friend:1>2|hit 3 via friend:1>3|hit 5 via friend:1>5|\
    reply 50 at 1 hits 3|hit 2 via friend:1>2|hit 3 via friend:1>3|hit 5 via friend:1>5|\
    reply 51 at 1 hits 3|hit 2 via friend:1>2|hit 3 via friend:1>3|hit 5 via friend:1>5|\
    reply 52 at 1 hits 3|hit 2 via friend:1>2|hit 3 via friend:1>3|hit 5 via friend:1>5|\
    reply 53 at 1 hits 3|hit 2 via friend:1>2|hit 3 via friend:1>3|hit 5 via friend:1>5|\
    error 54 65|";

// Lines up to the limit of a round, then one too many, which is too long too, and one after it.
const LONG_AND_MANY: &[u8] = b"\
    gone 77|gone 77|gone 77|gone 77|gone 77|gone 77|gone 77|gone 77|gone 77|gone 77|gone 77|\
    gone 77|gone 77|gone 77|gone 77|gone 77|gone 77|gone 77|gone 77|gone 77|gone 77|\
    ask 9 1 10 (or friend:1 lives:rome tagged|stats|=error 54 64|";

// An id that is known may change its rank in a full table.
#[test]
fn tables_have_limits(rt: HostRuntime) -> Result<(), Fail> {
    let entities = Limits {
        entities: 8,
        ..Limits::standard()
    };
    let rows = b"entity user 7 80|entity user 1 51|=refused 33 18|";
    are_answered(&rt, rt.alloc(), entities, FIRST, rows)?;
    let edges = Limits {
        edges: 12,
        ..Limits::standard()
    };
    let rows = b"edge friend 2 3 public|=refused 33 18|";
    are_answered(&rt, rt.alloc(), edges, FIRST, rows)?;
    let forward = Limits {
        forward: 2,
        ..Limits::standard()
    };
    let rows = b"edge shows 102 5 public|=refused 33 17|";
    are_answered(&rt, rt.alloc(), forward, FIRST, rows)?;
    let publishes = Limits {
        publishes: 1,
        ..Limits::standard()
    };
    are_answered(
        &rt,
        rt.alloc(),
        publishes,
        FIRST,
        b"publish|=refused 33 51|",
    )
}

#[test]
fn lines_and_rounds_have_limits(rt: HostRuntime) -> Result<(), Fail> {
    let line = Limits {
        line: 40,
        ..Limits::standard()
    };
    // 41 bytes, and 40
    let rows = b"\
        ask 9 1 10 (or friend:1 lives:rome tagged|=error 33 64|;\
        ask 9 1 10 (or friend:1 lives:rome tagge|=error 33 31 25|";
    are_answered(&rt, rt.alloc(), line, FIRST, rows)?;
    let nodes = Limits {
        nodes: 3,
        ..Limits::standard()
    };
    let rows = b"ask 9 1 10 (or friend:1 friend:2 friend:3)|=error 33 38 23|";
    are_answered(&rt, rt.alloc(), nodes, FIRST, rows)?;
    let round = Limits {
        round: 21,
        ..Limits::standard()
    };
    are_answered(&rt, rt.alloc(), round, FIRST, QUESTIONS)?;
    let both = Limits { line: 40, ..round };
    are_answered(&rt, rt.alloc(), both, FIRST, LONG_AND_MANY)
}

// The script has 705 bytes.
#[test]
fn scripts_have_a_limit(rt: HostRuntime) -> Result<(), Fail> {
    let parts = [FIRST, GRAPH, QUESTION];
    let enough = Limits {
        script: 705,
        ..Limits::standard()
    };
    is_answered(&rt, rt.alloc(), enough, &parts, &[PUBLISHED, REPLY], 0)?;
    let short = Limits {
        script: 704,
        ..Limits::standard()
    };
    is_answered(&rt, rt.alloc(), short, &parts, &[PUBLISHED], 6)?;
    // the header alone is longer
    let shorter = Limits {
        script: 100,
        ..Limits::standard()
    };
    is_answered(&rt, rt.alloc(), shorter, &parts, &[], 6)?;
    // where the input ends within a line, that line has no form
    let cut = [FIRST, GRAPH.strip_suffix(b"ish|go|").ok_or("no publish")?];
    is_answered(&rt, rt.alloc(), enough, &cut, &[b"refused 31 11|"], 0)
}

// Queries that open far more than they may.
#[test]
fn long_queries(rt: HostRuntime) -> Result<(), Fail> {
    for (part, times, want) in [
        (b"(".as_slice(), 60_000, b"error 33 34 2|".as_slice()),
        (b"(or ".as_slice(), 10_000, b"error 33 37 129|".as_slice()),
    ] {
        let mut line = text(rt.alloc(), &[b"ask 9 1 10 "])?;
        for _ in 0..times {
            add(&mut line, part)?;
        }
        let script = [FIRST, GRAPH, line.as_slice()];
        is_answered(
            &rt,
            rt.alloc(),
            Limits::standard(),
            &script,
            &[PUBLISHED, want],
            0,
        )?;
    }
    Ok(())
}
