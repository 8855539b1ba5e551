use crate::{Lineage, LineageBook};
use std::test::Fail;
use uni_base::{Audience, EdgeRef, EntityId, Held, Key};

fn held(target: u64, audience: Audience) -> Option<Held> {
    let target = EntityId::new(target)?;
    let edge = EdgeRef {
        type_no: 0,
        key: Key::Id(target),
        target,
    };
    Some(Held { edge, audience })
}

#[test]
fn a_chain_of_entries_is_judged(rt: HostRuntime) -> Result<(), Fail> {
    let alloc = rt.alloc();
    let mut book = LineageBook::new(alloc);
    assert!(rt; book.is_empty());
    let shown = held(2, Audience::Public).ok_or("no edge")?;
    let mut last = book.push(Lineage::Edge(shown))?;
    for _ in 0..999_u32 {
        last = book.push(Lineage::Entry(last))?;
    }
    assert_eq!(rt; book.len(), 1000);
    let judge = |held: &Held| held.audience == Audience::Public;
    let verdicts = book.judge(alloc, &judge)?;
    let tree = Lineage::Entry(last);
    assert!(rt; verdicts.get(last));
    assert!(rt; tree.holds(&verdicts, &judge));
    let edges = tree
        .first(alloc, &book, &verdicts, &judge)?
        .ok_or("no list")?;
    assert_eq!(rt; edges.as_slice(), [shown.edge].as_slice());
    Ok(())
}

#[test]
fn the_first_list_that_is_accepted_whole(rt: HostRuntime) -> Result<(), Fail> {
    let alloc = rt.alloc();
    let book = LineageBook::new(alloc);
    let shown = held(2, Audience::Public).ok_or("no edge")?;
    let hidden = held(3, Audience::Only).ok_or("no edge")?;
    let judge = |held: &Held| held.audience == Audience::Public;
    let verdicts = book.judge(alloc, &judge)?;
    let mut first = Vec::new(alloc);
    first.push(Lineage::Edge(shown))?;
    first.push(Lineage::Edge(hidden))?;
    let mut second = Vec::new(alloc);
    second.push(Lineage::Edge(shown))?;
    second.push(Lineage::AllOf(Vec::new(alloc)))?;
    let mut members = Vec::new(alloc);
    members.push(Lineage::AllOf(first))?;
    members.push(Lineage::AnyOf(Vec::new(alloc)))?;
    members.push(Lineage::AllOf(second))?;
    let tree = Lineage::AnyOf(members);
    assert!(rt; tree.holds(&verdicts, &judge));
    let edges = tree
        .first(alloc, &book, &verdicts, &judge)?
        .ok_or("no list")?;
    assert_eq!(rt; edges.as_slice(), [shown.edge].as_slice());
    Ok(())
}

#[test]
fn trees_without_members(rt: HostRuntime) -> Result<(), Fail> {
    let alloc = rt.alloc();
    let book = LineageBook::new(alloc);
    let judge = |held: &Held| held.audience == Audience::Public;
    let verdicts = book.judge(alloc, &judge)?;
    let any = Lineage::AnyOf(Vec::new(alloc));
    assert!(rt; !any.holds(&verdicts, &judge));
    assert!(rt; any.first(alloc, &book, &verdicts, &judge)?.is_none());
    let all = Lineage::AllOf(Vec::new(alloc));
    assert!(rt; all.holds(&verdicts, &judge));
    let edges = all
        .first(alloc, &book, &verdicts, &judge)?
        .ok_or("no list")?;
    assert!(rt; edges.as_slice().is_empty());
    Ok(())
}
