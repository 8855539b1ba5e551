//! A judge of what a service answers, from outside: by the script and the output alone. It reads
//! the numbers off the output, sees that they may stand there, and has the lines answered once
//! more, line by line, in an order in which that gives these numbers. Stacks it counts by itself.
use super::judge_stacks::astray;
use super::{FIRST, GRAPH, plainly, rows, text};
use std::alloc::Global;
use std::test::Fail;
use uni_base::{Rows, Text, cut_at};

/// What a judge finds, with the number of a line of the script.
#[derive(Clone, Copy, Debug, PartialEq, Eq)]
pub(crate) enum Verdict {
    Right,
    /// The output has a line that is no part of an answer.
    Stray,
    /// The number of an answer is none of those of its round.
    Outside(u64),
    /// The number of an answer is below an earlier one of its session or stack.
    Falls(u64),
    /// Line by line there is another answer, or a stack is not as the numbers before have it.
    Differs(u64),
}

const ASK: &[u8] = b"ask";

pub(super) const BEGIN: &[u8] = b"begin";

pub(super) const GO: &[u8] = b"go";

const NOTHING: &[u8] = b"";

// Where an answer stands among the lines of an output.
#[derive(Clone, Copy, Debug)]
pub(super) struct Part {
    pub(super) from: usize,
    pub(super) count: usize,
}

// The lines of a script and of an output, and which of these answer each of those. One part more
// answers the end of the script.
#[derive(Drop)]
pub(super) struct Reading<'a> {
    pub(super) lines: Vec<&'a [u8]>,
    pub(super) answers: Vec<&'a [u8]>,
    pub(super) parts: Vec<Part>,
}

// The last number of a session, or of a stack.
#[derive(Clone, Copy, Debug)]
struct Seen<'a> {
    who: &'a [u8],
    number: u64,
}

/// Judges an output of a service over a script.
pub(crate) fn judge(alloc: Global, script: &[u8], output: &[u8]) -> Result<Verdict, Fail> {
    let Some(reading) = read(alloc, script, output)? else {
        return Ok(Verdict::Stray);
    };
    let verdict = law(alloc, &reading)?;
    if verdict != Verdict::Right {
        return Ok(verdict);
    }
    if let Some(place) = astray(alloc, &reading)? {
        return Ok(Verdict::Differs(place));
    }
    replay(alloc, &reading)
}

// The lines of a text. Behind the last LF there is none.
fn lines_of(alloc: Global, text: &[u8]) -> Result<Vec<&[u8]>, Fail> {
    let mut lines = Vec::new(alloc);
    for line in text.split(|byte| *byte == b'\n') {
        lines.push(line)?;
    }
    if lines.as_slice().last().is_some_and(|line| line.is_empty()) {
        lines.pop();
    }
    Ok(lines)
}

// The word at a place of a line, counted from 0.
pub(super) fn word(line: &[u8], place: usize) -> &[u8] {
    for (i, word) in line.split(|byte| *byte == b' ').enumerate() {
        if i == place {
            return word;
        }
    }
    NOTHING
}

pub(super) fn number(text: &[u8]) -> Option<u64> {
    if text.is_empty() {
        return None;
    }
    let mut value: u64 = 0;
    for byte in text {
        if !byte.is_ascii_digit() {
            return None;
        }
        let digit = byte.wrapping_sub(b'0') as u64;
        value = value.checked_mul(10)?.checked_add(digit)?;
    }
    Some(value)
}

// Reads which lines of an output answer each line of a script. None where there are others.
fn read<'a>(
    alloc: Global,
    script: &'a [u8],
    output: &'a [u8],
) -> Result<Option<Reading<'a>>, Fail> {
    let lines = lines_of(alloc, script)?;
    let answers = lines_of(alloc, output)?;
    let mut parts = Vec::new(alloc);
    let mut from: usize = 0;
    let mut begun = false;
    for (i, line) in lines.iter().enumerate() {
        let place = (i as u64).saturating_add(1);
        let Some(count) = answer_of(answers.as_slice(), from, line, place, begun) else {
            return Ok(None);
        };
        parts.push(Part { from, count })?;
        from = from.saturating_add(count);
        begun = begun || *line == BEGIN;
    }
    let count = tidied_at(answers.as_slice(), from);
    parts.push(Part { from, count })?;
    if from.saturating_add(count) != answers.len() {
        return Ok(None);
    }
    Ok(Some(Reading {
        lines,
        answers,
        parts,
    }))
}

// How many lines answer a line, from a place on. None where rows are missing, or too many.
fn answer_of(
    answers: &[&[u8]],
    from: usize,
    line: &[u8],
    place: u64,
    begun: bool,
) -> Option<usize> {
    if !begun || line.is_empty() || line.starts_with(b"#") {
        return Some(0);
    }
    if line == GO {
        return Some(tidied_at(answers, from));
    }
    let Some(head) = answers.get(from) else {
        return Some(0);
    };
    if number(word(head, 1)) != Some(place) {
        return Some(0);
    }
    let rows = rows_at(answers, from.saturating_add(1));
    if rows_of(head) != Some(rows as u64) {
        return None;
    }
    Some(rows.saturating_add(1))
}

// How many rows the first line of an answer announces.
fn rows_of(head: &[u8]) -> Option<u64> {
    let first = word(head, 0);
    if first == b"reply".as_slice() || first == b"stats".as_slice() {
        number(word(head, 5))
    } else {
        Some(0)
    }
}

// How many rows of an answer stand from a place on.
fn rows_at(answers: &[&[u8]], from: usize) -> usize {
    let mut count: usize = 0;
    for i in from..answers.len() {
        let line = line_at(answers, i);
        if !(line.starts_with(b"hit ") || line.starts_with(b"stack ")) {
            break;
        }
        count = count.saturating_add(1);
    }
    count
}

// How many lines of stacks that were tidied stand from a place on.
fn tidied_at(answers: &[&[u8]], from: usize) -> usize {
    let mut count: usize = 0;
    for i in from..answers.len() {
        if !line_at(answers, i).starts_with(b"tidied ") {
            break;
        }
        count = count.saturating_add(1);
    }
    count
}

// The first line of what answers a line.
pub(super) fn head<'a>(reading: &Reading<'a>, line: usize) -> &'a [u8] {
    match reading.parts.as_slice().get(line) {
        Some(part) if part.count > 0 => line_at(reading.answers.as_slice(), part.from),
        _ => NOTHING,
    }
}

pub(super) fn line_at<'a>(lines: &[&'a [u8]], place: usize) -> &'a [u8] {
    match lines.get(place) {
        Some(line) => line,
        None => NOTHING,
    }
}

// The number of publishes that an answer states to be of.
pub(super) fn stated(head: &[u8]) -> Option<u64> {
    let first = word(head, 0);
    if first == b"reply".as_slice() {
        number(word(head, 3))
    } else if first == b"compacted".as_slice() {
        number(word(head, 2))
    } else {
        None
    }
}

pub(super) fn is_published(head: &[u8]) -> bool {
    head.starts_with(b"published ")
}

// How many publishes were made before each round, and in the end. The header counts as a round.
fn made_before_rounds(alloc: Global, reading: &Reading<'_>) -> Result<Vec<u64>, Fail> {
    let mut made = Vec::new(alloc);
    let mut count: u64 = 0;
    made.push(0)?;
    for (i, line) in reading.lines.iter().enumerate() {
        if is_published(head(reading, i)) {
            count = count.saturating_add(1);
        }
        if *line == BEGIN || *line == GO {
            made.push(count)?;
        }
    }
    made.push(count)?;
    Ok(made)
}

// Whether each number is one of its round, and none of a session or of a stack falls.
fn law(alloc: Global, reading: &Reading<'_>) -> Result<Verdict, Fail> {
    let made = made_before_rounds(alloc, reading)?;
    let mut seen = Vec::new(alloc);
    let mut round: usize = 0;
    for (i, line) in reading.lines.iter().enumerate() {
        if let Some(number) = stated(head(reading, i)) {
            let place = (i as u64).saturating_add(1);
            if !is_between(made.as_slice(), round, number) {
                return Ok(Verdict::Outside(place));
            }
            if !rises(&mut seen, asker(line), number)? {
                return Ok(Verdict::Falls(place));
            }
        }
        if *line == BEGIN || *line == GO {
            round = round.saturating_add(1);
        }
    }
    Ok(Verdict::Right)
}

fn is_between(made: &[u64], round: usize, number: u64) -> bool {
    match (made.get(round), made.get(round.saturating_add(1))) {
        (Some(low), Some(high)) => *low <= number && number <= *high,
        _ => false,
    }
}

// The session of an `ask`, or the stack of another line.
fn asker(line: &[u8]) -> &[u8] {
    if word(line, 0) == ASK {
        word(line, 2)
    } else {
        line
    }
}

// Takes a number, and answers whether none before it was above.
fn rises<'a>(seen: &mut Vec<Seen<'a>>, who: &'a [u8], number: u64) -> Result<bool, Fail> {
    for one in seen.iter_mut() {
        if one.who == who {
            let rises = one.number <= number;
            one.number = number;
            return Ok(rises);
        }
    }
    seen.push(Seen { who, number })?;
    Ok(true)
}

// The lines in the order in which they are answered once more: in each round what states a number
// behind so many publishes, and what shows the stacks at the end.
fn order(alloc: Global, reading: &Reading<'_>) -> Result<Vec<(u64, u64, u64, usize)>, Fail> {
    let mut order = Vec::new(alloc);
    let mut round: u64 = 0;
    let mut made: u64 = 0;
    for (i, line) in reading.lines.iter().enumerate() {
        let head = head(reading, i);
        let ends = *line == BEGIN || *line == GO;
        let (number, step) = if ends {
            (u64::MAX, 3)
        } else if word(head, 0) == b"stats".as_slice() {
            (u64::MAX, 2)
        } else {
            match stated(head) {
                Some(number) => (number, 0),
                None => (made, 1),
            }
        };
        order.push((round, number, step, i))?;
        if is_published(head) {
            made = made.saturating_add(1);
        }
        if ends {
            round = round.saturating_add(1);
        }
    }
    order.sort()?;
    Ok(order)
}

// Has the lines answered line by line in that order, and compares answer by answer.
fn replay(alloc: Global, reading: &Reading<'_>) -> Result<Verdict, Fail> {
    let order = order(alloc, reading)?;
    let mut script = Rows::new(alloc);
    for (_, _, _, line) in order.as_slice() {
        script.extend_from_slice(line_at(reading.lines.as_slice(), *line))?;
        script.push(b'\n')?;
    }
    let sink = plainly(alloc, script.as_slice())?;
    let Some(again) = read(alloc, script.as_slice(), sink.bytes())? else {
        return Ok(Verdict::Stray);
    };
    for (i, (_, _, _, line)) in order.as_slice().iter().enumerate() {
        if !is_same(reading, *line, &again, i) {
            return Ok(Verdict::Differs((*line as u64).saturating_add(1)));
        }
    }
    let end = reading.lines.len();
    if !is_same(reading, end, &again, end) {
        return Ok(Verdict::Differs((end as u64).saturating_add(1)));
    }
    Ok(Verdict::Right)
}

// Whether two lines have the same answer, but for their numbers.
fn is_same(one: &Reading<'_>, line: usize, other: &Reading<'_>, place: usize) -> bool {
    let (Some(part), Some(again)) = (
        one.parts.as_slice().get(line),
        other.parts.as_slice().get(place),
    ) else {
        return false;
    };
    if part.count != again.count {
        return false;
    }
    for i in 0..part.count {
        let left = line_at(one.answers.as_slice(), part.from.saturating_add(i));
        let right = line_at(other.answers.as_slice(), again.from.saturating_add(i));
        let same = if i == 0 {
            is_same_head(left, right)
        } else {
            left == right
        };
        if !same {
            return false;
        }
    }
    true
}

// Whether two lines are the same but for a number behind their first words.
fn is_same_head(left: &[u8], right: &[u8]) -> bool {
    word(left, 0) == word(right, 0) && behind_number(left) == behind_number(right)
}

// What stands behind the first word of a line, and behind the number that follows it.
fn behind_number(line: &[u8]) -> &[u8] {
    let Some((_, rest)) = cut_at(line, b' ') else {
        return NOTHING;
    };
    match cut_at(rest, b' ') {
        Some((second, others)) if number(second).is_some() => others,
        _ => rest,
    }
}

// Two rounds behind the graph. The first one makes the versions 2 to 9, and its stacks are tidied.
const ROUNDS: &[u8] = b"\
    ask 9 1 10 friend:1|entity user 5 95|publish|ask 9 1 10 friend:1|ask 9 2 10 lives:rome|\
    publish|publish|publish|publish|publish|publish|publish|compact user 0 0|stats|go|\
    ask 9 1 10 friend:1|compact user 0 0|";

// Parts of the output of the rounds, each with what is put in its place.
const FORGED: &[u8] = b"\
    reply 48 at 9 =reply 48 at 8 ;\
    compacted 49 9=compacted 49 10;\
    reply 33 at 1 hits 3|hit 2 via friend:1>2|hit 3 via friend:1>3|hit 5 via friend:1>5|=\
    reply 33 at 3 hits 3|hit 5 via friend:1>5|hit 2 via friend:1>2|hit 3 via friend:1>3|;\
    reply 36 at 2 hits 3|hit 5 via friend:1>5|hit 2 via friend:1>2|hit 3 via friend:1>3|\
    reply 37 at 2 hits 4|hit 5 via lives:rome>5|hit 2 via lives:rome>2|\
    hit 6 via lives:rome>6|hit 4 via lives:rome>4|=\
    reply 36 at 2 hits 4|hit 5 via lives:rome>5|hit 2 via lives:rome>2|\
    hit 6 via lives:rome>6|hit 4 via lives:rome>4|\
    reply 37 at 2 hits 3|hit 5 via friend:1>5|hit 2 via friend:1>2|hit 3 via friend:1>3|;\
    published 38 3|published 39 4|=published 39 4|published 38 3|;\
    hits 3|hit 2 via friend:1>2|hit 3 via friend:1>3|hit 5 via friend:1>5|published=\
    hits 3|hit 2 via friend:1>2|hit 3 via friend:1>3|published;\
    hits 3|hit 2 via friend:1>2|hit 3 via friend:1>3|hit 5 via friend:1>5|published=\
    hits 2|hit 2 via friend:1>2|hit 3 via friend:1>3|published;\
    hit 6 via lives:rome>6|hit 4=hit 4 via lives:rome>6|hit 6;\
    reply 37 at 2 hits 4|hit 5=reply 37 at 1 hits 4|hit 5;\
    tidied photo 0 0 9|=;\
    tidied user 1 0 9|=untidied user 1 0|;\
    stack user 0 0 layers 1|=stack user 0 0 layers 2|;\
    published 44 9|=memory 44|;\
    reply 48=reply 47";

// What a judge finds in each of these.
const FOUND: [Verdict; 14] = [
    Verdict::Outside(48),
    Verdict::Outside(49),
    Verdict::Falls(36),
    Verdict::Differs(36),
    Verdict::Stray,
    Verdict::Stray,
    Verdict::Differs(33),
    Verdict::Differs(37),
    Verdict::Differs(37),
    Verdict::Differs(47),
    Verdict::Stray,
    Verdict::Differs(46),
    Verdict::Outside(45),
    Verdict::Stray,
];

// A text with another part in the first place of a part.
fn forged(alloc: Global, whole: &[u8], part: &[u8], other: &[u8]) -> Result<Text, Fail> {
    let mut made = Rows::new(alloc);
    for (at, byte) in whole.iter().enumerate() {
        let rest = whole.get(at..).ok_or("no rest")?;
        if let Some(behind) = rest.strip_prefix(part) {
            made.extend_from_slice(other)?;
            made.extend_from_slice(behind)?;
            return Ok(made);
        }
        made.push(*byte)?;
    }
    Err("nothing to forge")?
}

// An output with the forgery of a row: a part, a sign of equality, and what is in its place.
fn forged_by(alloc: Global, output: &[u8], row: &[u8]) -> Result<Text, Fail> {
    let (part, other) = cut_at(row, b'=').ok_or("no row")?;
    let part = text(alloc, &[part])?;
    let other = text(alloc, &[other])?;
    forged(alloc, output, part.as_slice(), other.as_slice())
}

// Fails at the number of the first forgery that is not found to be what it is.
fn are_found(alloc: Global, script: &[u8], output: &[u8]) -> Result<(), Fail> {
    let forgeries = rows(alloc, FORGED)?;
    for (number, row) in forgeries.iter().enumerate() {
        let made = forged_by(alloc, output, row.as_slice())?;
        let verdict = judge(alloc, script, made.as_slice())?;
        if FOUND.get(number) != Some(&verdict) {
            return Err(Fail::new(number));
        }
    }
    Ok(())
}

#[test]
fn forged_outputs_are_refused(rt: HostRuntime) -> Result<(), Fail> {
    let alloc = rt.alloc();
    let script = text(alloc, &[FIRST, GRAPH, ROUNDS])?;
    let sink = plainly(alloc, script.as_slice())?;
    let verdict = judge(alloc, script.as_slice(), sink.bytes())?;
    assert!(rt; verdict == Verdict::Right);
    are_found(alloc, script.as_slice(), sink.bytes())
}
