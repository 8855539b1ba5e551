//! What a judge says of stacks: how many layers each has, and which are tidied at a round's end. It counts by
//! itself, from the script's verticals and the numbers that the output states.
use super::judge::{BEGIN, GO, Part, Reading, head, is_published, line_at, number, stated, word};
use std::alloc::{AllocError, Global};
use std::test::Fail;

// A stack, and how many publishes it covers.
#[derive(Clone, Copy, Debug)]
struct Stack<'a> {
    vertical: &'a [u8],
    shard: u64,
    replica: u64,
    covers: u64,
}

impl<'a> Stack<'a> {
    fn layers(&self, made: u64) -> u64 {
        made.saturating_add(1).saturating_sub(self.covers)
    }

    fn is_due(&self, made: u64) -> bool {
        self.layers(made) > self.replica.saturating_add(8)
    }

    // Whether the words of a line behind the first name it.
    fn is_named(&self, line: &[u8]) -> bool {
        word(line, 1) == self.vertical
            && number(word(line, 2)) == Some(self.shard)
            && number(word(line, 3)) == Some(self.replica)
    }

    fn is_tidied_by(&self, line: &[u8], made: u64) -> bool {
        line.starts_with(b"tidied ") && self.is_named(line) && number(word(line, 4)) == Some(made)
    }

    fn is_shown_by(&self, line: &[u8], made: u64) -> bool {
        self.is_named(line) && number(word(line, 5)) == Some(self.layers(made))
    }
}

/// The first line of a script at which a stack is not as the numbers before have it.
pub(super) fn astray(alloc: Global, reading: &Reading<'_>) -> Result<Option<u64>, Fail> {
    let mut stacks = stacks_of(alloc, reading.lines.as_slice())?;
    let mut made: u64 = 0;
    let mut from: usize = 0;
    for i in 0..reading.parts.len() {
        let line = line_at(reading.lines.as_slice(), i);
        let answer = head(reading, i);
        if is_published(answer) {
            made = made.saturating_add(1);
        }
        cover(&mut stacks, line, answer);
        if line == BEGIN || line == GO || i == reading.lines.len() {
            let place = end(reading, &mut stacks, from, i, made);
            if place.is_some() {
                return Ok(place);
            }
            from = i.saturating_add(1);
        }
    }
    Ok(None)
}

// The stacks of the verticals that a header declares.
fn stacks_of<'a>(alloc: Global, lines: &[&'a [u8]]) -> Result<Vec<Stack<'a>>, AllocError> {
    let mut stacks = Vec::new(alloc);
    for line in lines {
        if *line == BEGIN {
            break;
        }
        if line.starts_with(b"vertical ") {
            add_vertical(&mut stacks, line)?;
        }
    }
    Ok(stacks)
}

fn add_vertical<'a>(stacks: &mut Vec<Stack<'a>>, line: &'a [u8]) -> Result<(), AllocError> {
    let replicas = number(word(line, 3)).unwrap_or(0);
    for shard in 0..number(word(line, 2)).unwrap_or(0) {
        add_shard(stacks, word(line, 1), shard, replicas)?;
    }
    Ok(())
}

fn add_shard<'a>(
    stacks: &mut Vec<Stack<'a>>,
    vertical: &'a [u8],
    shard: u64,
    replicas: u64,
) -> Result<(), AllocError> {
    for replica in 0..replicas {
        stacks.push(Stack {
            vertical,
            shard,
            replica,
            covers: 0,
        })?;
    }
    Ok(())
}

// The stack that a line compacts covers what its answer states.
fn cover(stacks: &mut [Stack<'_>], line: &[u8], answer: &[u8]) {
    if !answer.starts_with(b"compacted ") {
        return;
    }
    for stack in stacks.iter_mut() {
        if stack.is_named(line) {
            stack.covers = stated(answer).unwrap_or(0);
        }
    }
}

// The end of a round whose lines go from a place up to another: first the stacks that are due, then what its
// lines show of all.
fn end(
    reading: &Reading<'_>,
    stacks: &mut [Stack<'_>],
    from: usize,
    to: usize,
    made: u64,
) -> Option<u64> {
    if !are_tidied(reading, stacks, to, made) {
        return Some((to as u64).saturating_add(1));
    }
    for i in from..to {
        if head(reading, i).starts_with(b"stats ") && !are_shown(reading, stacks, i, made) {
            return Some((i as u64).saturating_add(1));
        }
    }
    None
}

// Whether what answers a round's end tidies the stacks that are due, and no others. They cover all then.
fn are_tidied(reading: &Reading<'_>, stacks: &mut [Stack<'_>], to: usize, made: u64) -> bool {
    let Some(part) = reading.parts.get(to) else {
        return false;
    };
    let mut place = part.from;
    for stack in stacks.iter_mut() {
        if stack.is_due(made) {
            if !stack.is_tidied_by(line_at(reading.answers.as_slice(), place), made) {
                return false;
            }
            stack.covers = made;
            place = place.saturating_add(1);
        }
    }
    place == past(part)
}

// Whether the answer of a line shows each stack with its layers.
fn are_shown(reading: &Reading<'_>, stacks: &[Stack<'_>], line: usize, made: u64) -> bool {
    let Some(part) = reading.parts.get(line) else {
        return false;
    };
    let mut place = part.from;
    for stack in stacks {
        place = place.saturating_add(1);
        if !stack.is_shown_by(line_at(reading.answers.as_slice(), place), made) {
            return false;
        }
    }
    place.saturating_add(1) == past(part)
}

// The place behind an answer.
fn past(part: &Part) -> usize {
    part.from.saturating_add(part.count)
}
