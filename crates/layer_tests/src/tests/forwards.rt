//! Forward records through layers.
use super::{entity, items};
use forward_data::{ForwardDelta, ForwardItems, ForwardLayer, ForwardStack};
use std::alloc::Global;
use std::sync::Arc;
use std::test::Fail;
use uni_base::{EntityId, Key};

// A stack with one layer more, which replaces the record of an entity.
fn replaced(
    alloc: Global,
    stack: &ForwardStack,
    id: EntityId,
    items: ForwardItems,
) -> Result<ForwardStack, Fail> {
    let mut delta = ForwardDelta::new(alloc);
    delta.replace(2, id, items)?;
    let layer = Arc::new(alloc, ForwardLayer::build(delta)?)?;
    let mut next = stack.roomy(1)?;
    next.push_reserved(layer);
    Ok(next)
}

// How many edges the record has after each of two lists in turn.
fn lengths(alloc: Global, first: &[u64], second: &[u64]) -> Result<(usize, usize), Fail> {
    let id = entity(5)?;
    let stack = listed_alone(alloc, id, first)?;
    let before = stack.lookup(2, id).len();
    Ok((before, length_after(alloc, &stack, id, second)?))
}

fn listed_alone(alloc: Global, id: EntityId, targets: &[u64]) -> Result<ForwardStack, Fail> {
    let empty = empty(alloc)?;
    listed(alloc, &empty, id, targets)
}

// How many edges an entity's record has once another list replaces it.
fn length_after(
    alloc: Global,
    stack: &ForwardStack,
    id: EntityId,
    targets: &[u64],
) -> Result<usize, Fail> {
    let next = listed(alloc, stack, id, targets)?;
    Ok(next.lookup(2, id).len())
}

fn empty(alloc: Global) -> Result<ForwardStack, Fail> {
    let base = ForwardLayer::build(ForwardDelta::new(alloc))?;
    let base = Arc::new(alloc, base)?;
    Ok(ForwardStack::of(alloc, base)?)
}

// A stack with one layer more, in which an entity has edges to these targets.
fn listed(
    alloc: Global,
    stack: &ForwardStack,
    id: EntityId,
    targets: &[u64],
) -> Result<ForwardStack, Fail> {
    let owner = Key::Id(entity(3)?);
    let items = items(alloc, &owner, targets)?;
    replaced(alloc, stack, id, items)
}

#[test]
fn the_newest_record_counts(rt: HostRuntime) -> Result<(), Fail> {
    assert!(rt; lengths(rt.alloc(), &[1, 2, 3], &[7])? == (3, 1));
    assert!(rt; lengths(rt.alloc(), &[1], &[])? == (1, 0));
    Ok(())
}
