//! Merges of the first layers of a stack, of postings and of forward records.
ghost use Rattle.std.specs.Prelude.{◌≤◌, length};

use super::{entity, items};
use forward_data::{ForwardDelta, ForwardLayer, ForwardStack};
use layer_merge::{merge_forward, merge_front};
use layer_stack::{Delta, Layer, Stack, TermKey};
use posting_lists::Posting;
use std::alloc::Global;
use std::sync::Arc;
use std::test::Fail;
use uni_base::{Audience, DocKey, Key, Rank, cut_at};

fn term() -> Result<TermKey, Fail> {
    Ok(TermKey {
        type_no: 3,
        key: Key::Id(entity(1)?),
    })
}

// The keys below 5 turn round.
fn key(n: u64) -> Result<DocKey, Fail> {
    Ok(DocKey {
        rank: Rank(7),
        id: entity(n % 5 + 1)?,
    })
}

// A layer that deletes a key, and puts another one for everybody or for nobody.
fn layer(alloc: Global, n: u64) -> Result<Arc<Layer>, Fail> {
    let audience = if n % 2 == 0 {
        Audience::Public
    } else {
        Audience::Only
    };
    let deleted = key(n)?;
    let key = key(n % 5 * 3)?;
    let term = term()?;
    changing(alloc, &term, deleted, Posting { key, audience })
}

fn changing(
    alloc: Global,
    term: &TermKey,
    deleted: DocKey,
    put: Posting,
) -> Result<Arc<Layer>, Fail> {
    let mut delta = Delta::new(alloc);
    change(&mut delta, term, deleted, put)?;
    built(alloc, delta)
}

fn change(delta: &mut Delta, term: &TermKey, deleted: DocKey, put: Posting) -> Result<(), Fail> {
    delta.delete(*term, deleted)?;
    delta.put(*term, put)?;
    Ok(())
}

fn built(alloc: Global, delta: Delta) -> Result<Arc<Layer>, Fail> {
    let layer = Layer::build(alloc, delta)?;
    Ok(Arc::new(alloc, layer)?)
}

fn pushed(stack: &Stack, layer: Arc<Layer>) -> Result<Stack, Fail> {
    let mut next = stack.roomy(1)?;
    next.push_reserved(layer);
    Ok(next)
}

fn nine_layers(alloc: Global) -> Result<Stack, Fail> {
    let mut stack = Stack::of(alloc, layer(alloc, 0)?)?;
    for n in 1..9 {
        stack = pushed(&stack, layer(alloc, n)?)?;
    }
    Ok(stack)
}

// The stack with its first layers merged into one.
fn merged(alloc: Global, stack: &Stack, count: usize) -> Result<Stack, Fail> {
    let count = count.min(stack.layers());
    let mut merged = front(alloc, stack, count)?;
    for i in count..stack.layers() {
        merged = pushed(&merged, Arc::try_clone(stack.layer(i))?)?;
    }
    Ok(merged)
}

// The first layers of a stack merged, alone.
fn front(alloc: Global, stack: &Stack, count: usize) -> Result<Stack, Fail>
    requires { count ≤ length stack.now.0 }
{
    let front = merge_front(alloc, stack, count)?;
    let front = Arc::new(alloc, front)?;
    Ok(Stack::of(alloc, front)?)
}

// Whether a key is answered as before once so many layers are merged.
fn is_read_as_before(alloc: Global, stack: &Stack, count: usize, n: u64) -> Result<bool, Fail> {
    let term = term()?;
    let key = key(n)?;
    let merged = merged(alloc, stack, count)?;
    let layers = 10_usize.saturating_sub(count);
    Ok(merged.layers() == layers && merged.find(&term, key) == stack.find(&term, key))
}

// The first key that is answered otherwise once some layers are merged, and how many these are.
fn read_otherwise(alloc: Global, stack: &Stack) -> Result<Option<(u64, usize)>, Fail> {
    for n in 0..5 {
        for count in [1, 4, 9] {
            if !is_read_as_before(alloc, stack, count, n)? {
                return Ok(Some((n, count)));
            }
        }
    }
    Ok(None)
}

// How many of the keys have a posting.
fn found(stack: &Stack) -> Result<u64, Fail> {
    let term = term()?;
    let mut found = 0_u64;
    for n in 0..5 {
        if stack.find(&term, key(n)?).is_some() {
            found = found.saturating_add(1);
        }
    }
    Ok(found)
}

// How many postings all layers have as one.
fn entries_merged(alloc: Global, stack: &Stack) -> Result<u64, Fail> {
    let one = merge_front(alloc, stack, stack.layers())?;
    Ok(one.entries())
}

#[test]
fn a_merged_stack_is_read_as_before(rt: HostRuntime) -> Result<(), Fail> {
    let stack = nine_layers(rt.alloc())?;
    match read_otherwise(rt.alloc(), &stack)? {
        Some((n, _)) => Err(Fail::new(n)),
        None => Ok(()),
    }
}

#[test]
fn a_merged_stack_has_what_stands(rt: HostRuntime) -> Result<(), Fail> {
    let stack = nine_layers(rt.alloc())?;
    assert!(rt; found(&stack)? == 3 && entries_merged(rt.alloc(), &stack)? == 3);
    Ok(())
}

// A layer with the records of two entities.
fn records(alloc: Global, first: &[u64], second: &[u64]) -> Result<Arc<ForwardLayer>, Fail> {
    let mut delta = ForwardDelta::new(alloc);
    replace(alloc, &mut delta, 8, second)?;
    replace(alloc, &mut delta, 5, first)?;
    let layer = ForwardLayer::build(delta)?;
    Ok(Arc::new(alloc, layer)?)
}

// Replaces a record, whose edges are for the members of a circle of entity 3.
fn replace(alloc: Global, delta: &mut ForwardDelta, id: u64, targets: &[u64]) -> Result<(), Fail> {
    let owner = Key::Id(entity(3)?);
    let id = entity(id)?;
    let items = items(alloc, &owner, targets)?;
    delta.replace(2, id, items)?;
    Ok(())
}

// Two layers, of which the second one removes a record and replaces the other.
fn two_layers(alloc: Global) -> Result<ForwardStack, Fail> {
    let base = records(alloc, &[1, 2, 3], &[4])?;
    let stack = ForwardStack::of(alloc, base)?;
    let layer = records(alloc, &[], &[6, 7])?;
    with_records(&stack, layer)
}

fn with_records(stack: &ForwardStack, layer: Arc<ForwardLayer>) -> Result<ForwardStack, Fail> {
    let mut next = stack.roomy(1)?;
    next.push_reserved(layer);
    Ok(next)
}

// How many records there are once so many layers are one, and how many edges the two have then.
fn lengths(alloc: Global, stack: &ForwardStack, count: usize) -> Result<(u64, usize, usize), Fail> {
    let first = entity(5)?;
    let second = entity(8)?;
    let front = merge_forward(alloc, stack, stack.layers().min(count))?;
    let entries = front.entries();
    let front = Arc::new(alloc, front)?;
    let merged = ForwardStack::of(alloc, front)?;
    Ok((
        entries,
        merged.lookup(2, first).len(),
        merged.lookup(2, second).len(),
    ))
}

#[test]
fn merged_records_are_read_as_before(rt: HostRuntime) -> Result<(), Fail> {
    let stack = two_layers(rt.alloc())?;
    for (count, want) in [(1, (2, 3, 1)), (2, (1, 0, 2))] {
        if lengths(rt.alloc(), &stack, count)? != want {
            return Err(Fail::new(count));
        }
    }
    Ok(())
}

// A layer with many more records beside the two.
fn wide_records(alloc: Global) -> Result<Arc<ForwardLayer>, Fail> {
    let mut delta = ForwardDelta::new(alloc);
    for id in 100..140 {
        replace(alloc, &mut delta, id, &[1, 2])?;
    }
    replace(alloc, &mut delta, 8, &[4])?;
    let layer = ForwardLayer::build(delta)?;
    Ok(Arc::new(alloc, layer)?)
}

// A stack with one more layer, as one layer.
fn records_merged_with(
    alloc: Global,
    stack: &ForwardStack,
    layer: Arc<ForwardLayer>,
) -> Result<ForwardStack, Fail> {
    let next = with_records(stack, layer)?;
    let front = merge_forward(alloc, &next, next.layers())?;
    let front = Arc::new(alloc, front)?;
    Ok(ForwardStack::of(alloc, front)?)
}

// What the records of two entities are replaced by, each a digit for a target, with a bar between them,
// and how many records there are then.
const REPLACED: &[(&[u8], u64)] = &[
    (b"1|", 41),
    (b"|67", 41),
    (b"|", 40),
    (b"9|2", 42),
    (b"123|2", 42),
];

// A layer that replaces the records of the two entities so.
fn replacing(alloc: Global, first: &[u8], second: &[u8]) -> Result<Arc<ForwardLayer>, Fail> {
    let mut delta = ForwardDelta::new(alloc);
    replace(alloc, &mut delta, 5, targets(alloc, first)?.as_slice())?;
    replace(alloc, &mut delta, 8, targets(alloc, second)?.as_slice())?;
    let layer = ForwardLayer::build(delta)?;
    Ok(Arc::new(alloc, layer)?)
}

fn targets(alloc: Global, digits: &[u8]) -> Result<Vec<u64>, Fail> {
    let mut targets = Vec::new(alloc);
    for digit in digits {
        targets.push((*digit % 16) as u64)?;
    }
    Ok(targets)
}

// The first row at which merged records are not as they were replaced.
fn replaced_otherwise(alloc: Global) -> Result<Option<u64>, Fail> {
    let mut stack = ForwardStack::of(alloc, wide_records(alloc)?)?;
    let mut row = 0_u64;
    for (digits, entries) in REPLACED {
        let (first, second) = cut_at(digits, b'|').ok_or("no bar")?;
        stack = records_merged_with(alloc, &stack, replacing(alloc, first, second)?)?;
        if lengths(alloc, &stack, 1)? != (*entries, first.len(), second.len()) {
            return Ok(Some(row));
        }
        row = row.saturating_add(1);
    }
    Ok(None)
}

#[test]
fn merged_records_are_shared(rt: HostRuntime) -> Result<(), Fail> {
    match replaced_otherwise(rt.alloc())? {
        Some(row) => Err(Fail::new(row)),
        None => Ok(()),
    }
}
