//! Lines of every form, and headers, that are refused.
use super::{FIRST, are_answered, is_answered, rows};
use std::test::Fail;
use uni_base::{Limits, cut_at};

// The fields of an `ask`, the first one that is refused.
const FIELDS: &[u8] = b"\
    ask 9 1 0 friend:1|=error 33 63|;\
    ask 9 1 5001 friend:1|=error 33 63|;\
    ask 9 65 10 friend:1|=error 33 62|;\
    ask 0 1 10 friend:1|=error 33 61|;\
    ask|=error 33 61|";

// Texts that are no query, with the column of the fault.
const QUERIES: &[u8] = b"\
    ask 9 1 10 (and friend:1 Rome)|=error 33 31 15|;\
    ask 9 1 10 (and friend:1 rome)|=error 33 31 15|;\
    ask 9 1 10 (and friend:1|=error 33 32 14|;\
    ask 9 1 10 |=error 33 32 1|;\
    ask 9 1 10 friend:1 friend:2|=error 33 33 10|;\
    ask 9 1 10 (frend 1)|=error 33 34 2|;\
    ask 9 1 10 ()|=error 33 34 2|;\
    ask 9 1 10 (and)|=error 33 35 5|;\
    ask 9 1 10 (difference friend:1)|=error 33 35 21|;\
    ask 9 1 10 (and (term friend:1 :optional-hits 1) lives:rome)|=error 33 36 21|;\
    ask 9 1 10 (apply tagged: friend:1 :limit 0)|=error 33 36 32|;\
    ask 9 1 10 (or (or (or (or (or (or (or (or (or (or (or (or (or (or (or (or \
    (or (or (or (or (or (or (or (or (or (or (or (or (or (or (or (or (or friend:1\
    )))))))))))))))))))))))))))))))))|=error 33 37 129|";

// Queries that have no vertical.
const TYPES: &[u8] = b"\
    ask 9 1 10 frend:1|=error 33 41 1|;\
    ask 9 1 10 friend:rome|=error 33 42 1|;\
    ask 9 1 10 shows:102|=error 33 43 1|;\
    ask 9 1 10 (extract friend: friend:1)|=error 33 44 10|;\
    ask 9 1 10 (and friend:1 tagged:1)|=error 33 45 15|;\
    ask 9 1 10 (apply friend: tagged:2)|=error 33 46 8|;\
    ask 9 1 10 (apply friend: (apply friend: (apply friend: (apply friend: (apply friend: \
    friend:1)))))|=error 33 47 61|";

// Changes that are refused, beside two that change nothing. What was published before stands.
const CHANGES: &[u8] = b"\
    edge friend 1 99 public|edge friend 99 1 public|edge frend 1 2 public|\
    edge friend 1 2 in:shows:102|entity photo 1 5|entity user 0 5|edge friend rome 2 public|\
    cut friend 1 99|gone 77|compact user 2 0|publish|go|ask 9 1 10 friend:1|=\
    refused 33 14|refused 34 13|refused 35 12|refused 36 15|refused 37 16|refused 38 11|\
    refused 39 13|refused 42 12|published 43 2|\
    reply 45 at 2 hits 3|hit 2 via friend:1>2|hit 3 via friend:1>3|hit 5 via friend:1>5|";

// Whole scripts.
const HEADERS: &[u8] = b"\
    =schema 1 8|;\
    unicorn 3|=schema 1 1|;\
    unicorn 1|vertical user 0 1|=schema 2 4|;\
    unicorn 1|vertical word 1 1|=schema 2 2|;\
    unicorn 1|vertical user 1 1|type lives word user both index|=schema 3 5|;\
    unicorn 1|vertical user 1 1|type lives word town target index|=schema 3 3|;\
    unicorn 1|vertical user 1 1|deny blocked|=schema 3 7|;\
    unicorn 1|vertical user 1 1|=schema 3 8|";

#[test]
fn lines_are_refused(rt: HostRuntime) -> Result<(), Fail> {
    are_answered(&rt, rt.alloc(), Limits::standard(), FIRST, FIELDS)?;
    are_answered(&rt, rt.alloc(), Limits::standard(), FIRST, QUERIES)?;
    are_answered(&rt, rt.alloc(), Limits::standard(), FIRST, TYPES)?;
    are_answered(&rt, rt.alloc(), Limits::standard(), FIRST, CHANGES)
}

#[test]
fn headers_are_refused(rt: HostRuntime) -> Result<(), Fail> {
    for row in rows(rt.alloc(), HEADERS)?.as_slice() {
        let (script, want) = cut_at(row.as_slice(), b'=').ok_or("no row")?;
        is_answered(&rt, rt.alloc(), Limits::standard(), &[script], &[want], 3)?;
    }
    Ok(())
}
