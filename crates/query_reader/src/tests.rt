//! Texts with their first faults, and texts with the prints of their queries.
ghost use Rattle.query_tree.specs.Dialects.{IsFormat};
ghost use Rattle.uni_base.specs.StandardLimits.{IsWithinStandard};

use crate::token::Token;
use crate::{TokenKind, read_query, tokens};
use query_tree::{QueryRefusal, print_query};
use std::alloc::{AllocError, Global};
use std::process::Abort;
use std::test::Fail;
use uni_base::{Limits, Rows, Text, cut_at, read_between};

// In which formats, a code, a column, and a text whose first fault they are. A bar parts the rows.
const FAULTS: &[u8] =
    b"12 31 15 (and friend:1 Rome)|12 31 15 (and friend:1 rome)|12 32 14 (and friend:1|12 32 1 |12 33 10 friend:1 friend:2|12 34 2 (frend 1)|12 34 2 ()|12 35 5 (and)|12 35 21 (difference friend:1)|12 36 21 (and (term friend:1 :optional-hits 1) lives:rome)|12 36 32 (apply tagged: friend:1 :limit 0)|12 37 129 (or (or (or (or (or (or (or (or (or (or (or (or (or (or (or (or (or (or (or (or (or (or (or (or (or (or (or (or (or (or (or (or (or friend:1)))))))))))))))))))))))))))))))))";

// More of them, where a part of a query is missing or one too many.
const MORE_FAULTS: &[u8] =
    b"12 31 1 lives:*|12 31 1 lives:rom**|12 36 27 (strong-or (term friend:1 :optional-hits 1))|12 32 4    |12 31 1 \xc3\xa9|12 31 6 (and friend:\xc3\xa9 a:1)|12 31 10 (and a:1 \xe2\x80\x83)|12 31 1 a:1\tb:1|12 31 1 )|12 31 1 :limit|12 33 4 a:1)|12 32 2 (|12 34 2 ((|12 34 2 (foo|12 35 6 (term)|12 32 6 (term|12 31 7 (term a)|12 32 10 (term a:1|12 35 11 (term a:1 b:2)|12 31 11 (term a:1 7)|12 35 21 (difference a:1 b:1 c:1)|12 35 21 (difference a:1 b:1 (or c:1))|12 31 9 (or a:1 5)|12 36 10 (and a:1 :limit 3)|12 36 10 (and a:1 :optional-hits 1)|12 35 11 (weak-and :optional-hits 1 a:1)|12 35 7 (apply)|12 35 8 (apply :limit 5 a: b:1)|12 31 8 (apply 5 b:1)|12 35 10 (apply a:)|12 31 11 (apply a: 5)|12 35 15 (apply a: b:1 c:1)|12 31 15 (apply a: b:1 c)|12 32 21 (apply a: b:1 :limit|12 36 21 (apply a: b:1 :limit)|12 36 22 (apply a: b:1 :limit 5001)|12 31 22 (apply a: b:1 :limit 01)|12 36 24 (apply a: b:1 :limit 5 :limit 5)|12 36 24 (apply a: b:1 :limit 5 c:1)|12 36 15 (apply a: b:1 :optional-hits 5)|12 36 15 (apply a: b:1 :unknown 5)|12 36 36 (weak-and (term a:1 :optional-hits 1000001) b:1)|12 36 39 (strong-or (term a:1 :optional-weight 0/1) b:1)|12 36 39 (strong-or (term a:1 :optional-weight 2/1) b:1)|12 36 39 (strong-or (term a:1 :optional-weight 1/1001) b:1)|12 36 39 (strong-or (term a:1 :optional-weight 1/0) b:1)|12 36 39 (strong-or (term a:1 :optional-weight 1) b:1)|12 36 43 (strong-or (term a:1 :optional-weight 1/2 :optional-weight 1/2) b:1)";

// Texts that one format refuses.
const FORMATS: &[u8] =
    b"1 36 26 (weak-and (term friend:1 :optional-weight 1/2) lives:rome)|1 31 1 lives:rom*|1 31 21 (and friend:1 (term lives:rom*))|2 31 1 lives:rom*a|2 31 1 lives*|2 31 1 Lives:rom*|2 31 1 lives:aaaaaaaaaaaaaaaaaaaaaaaaaaaaaaaaa*|2 31 8 (apply lives:rom* friend:1)|2 35 18 (term lives:rom* lives:os*)|2 35 21 (difference a:1 b:1 c:1*)|2 35 21 (apply friend: a:1* b:1*)|2 33 12 lives:rom* lives:rom*|2 36 42 (weak-and (term a:1 :optional-weight 1/2 :optional-hits 1))|2 36 38 (weak-and (term a:1 :optional-hits 0 :optional-weight 1/2))|2 36 39 (weak-and (term a:1* :optional-weight 3/2))|2 36 23 (strong-or (term a:1* :optional-hits 1))";

// In which formats, a text, and the print of its query.
const PRINTS: &[u8] =
    b"12 friend:1=friend:1|12   friend:1  =friend:1|12 (term friend:1)=friend:1|12 ( and friend:1  lives:rome )=(and friend:1 lives:rome)|12 (difference(term friend:1)lives:rome)=(difference friend:1 lives:rome)|12 (or friend:1 lives:rome)=(or friend:1 lives:rome)|12 (weak-and (term friend:1 :optional-hits 1) lives:rome)=(weak-and (term friend:1 :optional-hits 1) lives:rome)|12 (weak-and (term a:1 :optional-hits 1000000) (or b:1 :optional-hits 0))=(weak-and (term a:1 :optional-hits 1000000) (or b:1 :optional-hits 0))|12 (strong-or friend:1 (term lives:rome :optional-weight 1/2))=(strong-or friend:1 (term lives:rome :optional-weight 1/2))|12 (strong-or (term a:1 :optional-weight 1000/1000))=(strong-or (term a:1 :optional-weight 1000/1000))|12 (strong-or (term a:1 :optional-weight 1/1000) (or b:1 :optional-weight 2/4))=(strong-or (term a:1 :optional-weight 1/1000) (or b:1 :optional-weight 2/4))|12 (apply tagged: friend:1)=(apply tagged: friend:1)|12 (apply tagged: friend:1 :limit 1)=(apply tagged: friend:1 :limit 1)|12 (apply tagged: friend:1 :limit 1000)=(apply tagged: friend:1)|12 (apply tagged: friend:1 :limit 5000)=(apply tagged: friend:1 :limit 5000)|12 (extract shows: (apply tagged: friend:1))=(extract shows: (apply tagged: friend:1))|12 (weak-and (apply a: b:1 :optional-hits 3 :limit 5) c:1)=(weak-and (apply a: b:1 :limit 5 :optional-hits 3) c:1)|12 (strong-or (extract a: b:1 :limit 5 :optional-weight 1/3))=(strong-or (extract a: b:1 :limit 5 :optional-weight 1/3))|12 (and (weak-and (term friend:1 :optional-hits 1) lives:rome) (or lives:oslo))=(and (weak-and (term friend:1 :optional-hits 1) lives:rome) (or lives:oslo))|12 (difference friend:1 (apply tagged: friend:1 :limit 1))=(difference friend:1 (apply tagged: friend:1 :limit 1))|12 (or term:and or:1)=(or term:and or:1)|12 (apply x: (term a:-_9))=(apply x: a:-_9)";

// The last one has each operator, option and leaf once.
const PRINTS_2: &[u8] =
    b"2 lives:rom*=lives:rom*|2 (term lives:os*)=lives:os*|2 friend:1*=friend:1*|2 (weak-and (term friend:1 :optional-weight 1/2) lives:rome)=(weak-and (term friend:1 :optional-weight 1/2) lives:rome)|2 (weak-and (term friend:1 :optional-weight 2/3) lives:rome)=(weak-and (term friend:1 :optional-weight 2/3) lives:rome)|2 (weak-and (term friend:1 :optional-weight 1/1) (or lives:r* :optional-hits 2))=(weak-and (term friend:1 :optional-weight 1/1) (or lives:r* :optional-hits 2))|2 (and (or friend:1) (difference lives:rom* friend:2) (weak-and (term friend:3 :optional-hits 1) (term lives:o* :optional-weight 1/2)) (strong-or (apply friend: friend:4 :limit 7 :optional-weight 2/3) (extract shows: tagged:5)))=(and (or friend:1) (difference lives:rom* friend:2) (weak-and (term friend:3 :optional-hits 1) (term lives:o* :optional-weight 1/2)) (strong-or (apply friend: friend:4 :limit 7 :optional-weight 2/3) (extract shows: tagged:5)))";

// Whether a fault is a text's first one in a format.
fn is_fault(alloc: Global, limits: &Limits, format: u32, text: &[u8], fault: (u64, u64)) -> bool
    requires limits { IsWithinStandard limits.now }
    requires format { IsFormat format }
{
    if text.len() > 100_000 {
        return false;
    }
    match read_query(alloc, limits, format, text) {
        Err(QueryRefusal::Fault { code, column }) => (code as u64, column as u64) == fault,
        _ => false,
    }
}

// Whether a text is read, and its query has a print.
fn is_printed(alloc: Global, limits: &Limits, format: u32, text: &[u8], print: &[u8]) -> bool
    requires limits { IsWithinStandard limits.now }
    requires format { IsFormat format }
{
    if text.len() > 100_000 {
        return false;
    }
    let Ok(query) = read_query(alloc, limits, format, text) else {
        return false;
    };
    match print_query(alloc, &query) {
        Ok(text) => text.as_slice() == print,
        Err(_) => false,
    }
}

// Whether a row with a fault is true in its formats.
fn has_fault(alloc: Global, limits: &Limits, row: &[u8]) -> Option<bool>
    requires { IsWithinStandard limits.now }
{
    let (formats, row) = cut_at(row, b' ')?;
    let (code, row) = cut_at(row, b' ')?;
    let (column, text) = cut_at(row, b' ')?;
    let fault = (read_between(code, 1, 99)?, read_between(column, 1, 99_999)?);
    let first = formats == b"2".as_slice() || is_fault(alloc, limits, 1, text, fault);
    let second = formats == b"1".as_slice() || is_fault(alloc, limits, 2, text, fault);
    Some(first && second)
}

// Whether a text is read as its print, and the print as itself.
fn is_read(alloc: Global, limits: &Limits, format: u32, text: &[u8], print: &[u8]) -> bool
    requires limits { IsWithinStandard limits.now }
    requires format { IsFormat format }
{
    is_printed(alloc, limits, format, text, print)
        && is_printed(alloc, limits, format, print, print)
}

// Whether a row with a print is true in its formats.
fn has_print(alloc: Global, limits: &Limits, row: &[u8]) -> Option<bool>
    requires { IsWithinStandard limits.now }
{
    let (formats, row) = cut_at(row, b' ')?;
    let (text, print) = cut_at(row, b'=')?;
    let first = formats == b"2".as_slice() || is_read(alloc, limits, 1, text, print);
    Some(first && is_read(alloc, limits, 2, text, print))
}

fn have_faults(rt: &impl Abort, alloc: Global, limits: &Limits, rows: &[u8])
    requires { IsWithinStandard limits.now }
{
    for (number, row) in rows.split(|byte| *byte == b'|').enumerate() {
        assert!(rt; has_fault(alloc, limits, row) == Some(true), "at {number}");
    }
}

fn have_prints(rt: &impl Abort, alloc: Global, limits: &Limits, rows: &[u8])
    requires { IsWithinStandard limits.now }
{
    for (number, row) in rows.split(|byte| *byte == b'|').enumerate() {
        assert!(rt; has_print(alloc, limits, row) == Some(true), "at {number}");
    }
}

#[test]
fn faults(rt: HostRuntime) -> Result<(), Fail> {
    have_faults(&rt, rt.alloc(), &Limits::standard(), FAULTS);
    Ok(())
}

#[test]
fn more_faults(rt: HostRuntime) -> Result<(), Fail> {
    have_faults(&rt, rt.alloc(), &Limits::standard(), MORE_FAULTS);
    Ok(())
}

#[test]
fn faults_of_a_format(rt: HostRuntime) -> Result<(), Fail> {
    have_faults(&rt, rt.alloc(), &Limits::standard(), FORMATS);
    Ok(())
}

#[test]
fn prints(rt: HostRuntime) -> Result<(), Fail> {
    have_prints(&rt, rt.alloc(), &Limits::standard(), PRINTS);
    Ok(())
}

#[test]
fn prints_of_the_second_format(rt: HostRuntime) -> Result<(), Fail> {
    have_prints(&rt, rt.alloc(), &Limits::standard(), PRINTS_2);
    Ok(())
}

// Three nodes at the most. A join without a limit has the greatest, where that is below the default.
fn small() -> Limits
    ensures { IsWithinStandard result }
{
    Limits {
        nodes: 3,
        join_limit: 5,
        ..Limits::standard()
    }
}

const SMALL_FAULTS: &[u8] =
    b"12 38 23 (or friend:1 friend:2 friend:3)|12 36 22 (apply a: b:1 :limit 6)";

const SMALL_PRINTS: &[u8] =
    b"12 (or friend:1 friend:2)=(or friend:1 friend:2)|12 (apply a: b:1)=(apply a: b:1 :limit 5)|12 (apply a: b:1 :limit 5)=(apply a: b:1 :limit 5)|12 (apply a: b:1 :limit 4)=(apply a: b:1 :limit 4)";

#[test]
fn small_limits(rt: HostRuntime) -> Result<(), Fail> {
    have_faults(&rt, rt.alloc(), &small(), SMALL_FAULTS);
    have_prints(&rt, rt.alloc(), &small(), SMALL_PRINTS);
    Ok(())
}

// Adds a part so many times.
fn add(text: &mut Text, part: &[u8], times: usize) -> Result<(), AllocError> {
    for _ in 0..times {
        text.extend_from_slice(part)?;
    }
    Ok(())
}

// The front, then a part so many times, then the back.
fn repeated(
    alloc: Global,
    front: &[u8],
    part: &[u8],
    times: usize,
    back: &[u8],
) -> Result<Text, AllocError> {
    let mut text = Rows::new(alloc);
    text.extend_from_slice(front)?;
    add(&mut text, part, times)?;
    text.extend_from_slice(back)?;
    Ok(text)
}

// Whether a text of repeated parts has a fault, or is read where the code is 0.
fn is_found(
    alloc: Global,
    text: Result<Text, AllocError>,
    fault: (u64, u64),
) -> Result<bool, Fail> {
    let text = text?;
    let limits = Limits::standard();
    if fault.0 == 0 {
        return Ok(is_whole(alloc, &limits, text.as_slice()));
    }
    Ok(is_fault(alloc, &limits, 1, text.as_slice(), fault))
}

// Whether a text is read.
fn is_whole(alloc: Global, limits: &Limits, text: &[u8]) -> bool
    requires { IsWithinStandard limits.now }
{
    text.len() <= 100_000 && read_query(alloc, limits, 1, text).is_ok()
}

// Lists of 63 operands each, then more, and then so many operands.
fn nodes(alloc: Global, lists: usize, more: &[u8], operands: usize) -> Result<Text, AllocError> {
    let list = repeated(alloc, b" (or", b" a:1", 63, b")")?;
    let all = repeated(alloc, b"(or", list.as_slice(), lists, more)?;
    repeated(alloc, all.as_slice(), b" a:1", operands, b")")
}

#[test]
fn limits_of_a_query(rt: HostRuntime) -> Result<(), Fail> {
    let alloc = rt.alloc();
    let deepest = repeated(alloc, b"", b"(or ", 32, DEEPEST);
    assert!(rt; is_found(alloc, deepest, (0, 0))?);
    let most = repeated(alloc, b"(or", b" a:1", 64, b")");
    assert!(rt; is_found(alloc, most, (0, 0))?);
    let more = repeated(alloc, b"(or", b" a:1", 65, b")");
    assert!(rt; is_found(alloc, more, (35, 261))?);
    Ok(())
}

// The end of a query that opens 32 lists.
const DEEPEST: &[u8] = b"friend:1))))))))))))))))))))))))))))))))";

#[test]
fn nodes_of_a_query(rt: HostRuntime) -> Result<(), Fail> {
    let alloc = rt.alloc();
    let most = nodes(alloc, 3, b" (or a:1 a:1)", 60);
    assert!(rt; is_found(alloc, most, (0, 0))?);
    let more = nodes(alloc, 3, b" (or a:1 a:1 a:1)", 60);
    assert!(rt; is_found(alloc, more, (38, 1029))?);
    let more = nodes(alloc, 4, b"", 0);
    assert!(rt; is_found(alloc, more, (38, 1028))?);
    Ok(())
}

#[test]
fn hostile_texts(rt: HostRuntime) -> Result<(), Fail> {
    let alloc = rt.alloc();
    let parentheses = repeated(alloc, b"", b"(", 60_000, b"");
    assert!(rt; is_found(alloc, parentheses, (34, 2))?);
    let lists = repeated(alloc, b"", b"(or ", 10_000, b"");
    assert!(rt; is_found(alloc, lists, (37, 129))?);
    let words = repeated(alloc, b"", b"a", 60_000, b"");
    assert!(rt; is_found(alloc, words, (31, 1))?);
    Ok(())
}

// A text with one token of each kind, where each begins and where it ends.
const TOKENS: &[u8] = b" (and a: :b 10 1/2)c:d e:f*";

const PLACES: &[u8] = b"1 2|2 5|6 8|9 11|12 14|15 18|18 19|19 22|23 27";

const KINDS: [TokenKind; 9] = [
    TokenKind::Left,
    TokenKind::Name,
    TokenKind::Prefix,
    TokenKind::Option,
    TokenKind::Number,
    TokenKind::Fraction,
    TokenKind::Right,
    TokenKind::Term,
    TokenKind::Stem,
];

// Whether a token stands at a place.
fn is_at(token: &Token, place: &[u8]) -> Option<bool> {
    let (from, to) = cut_at(place, b' ')?;
    let from = read_between(from, 0, 99)?;
    let to = read_between(to, 0, 99)?;
    Some(token.from as u64 == from && token.to as u64 == to)
}

#[test]
fn tokens_of_a_text(rt: HostRuntime) -> Result<(), Fail> {
    let list = tokens(rt.alloc(), 2, TOKENS)?;
    assert_eq!(rt; list.len(), 9);
    let places = PLACES.split(|byte| *byte == b'|');
    for ((token, place), kind) in list.as_slice().iter().zip(places).zip(KINDS.iter()) {
        assert!(rt; token.kind == *kind && is_at(token, place) == Some(true));
    }
    Ok(())
}
