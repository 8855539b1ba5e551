//! Queries over a shard of ten postings, in one layer and in three.
ghost use Rattle.std.specs.Prelude.{◌≡◌, All, IfOk, IfSome, map};
ghost use Rattle.shard_eval.specs.Kept.{IsShare};
ghost use Rattle.shard_eval.specs.Resolution.{nodes_of, operand_of, resolution, AreReady, IsReady};

use forward_data::{ForwardDelta, ForwardLayer};
use layer_stack::{Delta, Layer, TermKey};
use lineage_tree::HitRows;
use posting_lists::Posting;
use query_tree::{ListKind, Mark};
use shard_eval::{InnerHit, Resolved, ResolvedOperand, eval_shard};
use shard_index::{EntityDelta, EntityLayer, ShardIndex, ShardLayer};
use std::alloc::{AllocError, Global};
use std::sync::Arc;
use std::test::Fail;
use uni_base::{Audience, DocKey, Fields, Key, Rank, Word, cut_at, read_between, read_id};

// Friends of user 1 and of user 2, and who lives in Rome and in Roma: type, key, rank and id.
const ROWS: &[u8] =
    b"0 1 90 2,0 1 90 3,0 1 70 5,0 2 70 5,0 2 50 1,1 rome 90 2,1 rome 70 5,1 rome 60 6,1 rome 10 4,1 roma 90 3";

// The same in layers, the oldest first, which bars part. A row that begins with a minus deletes.
const LAYERS: &[u8] =
    b"0 1 90 2,0 1 70 5,1 rome 90 2,1 rome 60 6,1 roma 90 3,1 romeo 70 5,1 rome 95 5\
|0 1 90 3,0 2 70 5,1 rome 70 5,-1 romeo 70 5,-1 rome 95 5,1 romano 10 4\
|0 2 50 1,1 rome 10 4,-1 romano 10 4";

fn number(text: &[u8]) -> Option<u16> {
    Some(read_between(text, 0, 65_535)? as u16)
}

fn key(text: &[u8]) -> Option<Key> {
    match read_id(text) {
        Some(id) => Some(Key::Id(id)),
        None => Some(Key::Word(Word::read(text)?)),
    }
}

fn doc_key(rank: &[u8], id: &[u8]) -> Option<DocKey> {
    Some(DocKey {
        rank: Rank(number(rank)? as u32),
        id: read_id(id)?,
    })
}

// Puts the posting of a row, or deletes it.
fn put(delta: &mut Delta, row: &[u8]) -> Option<()> {
    let mut fields = Fields::of(row.strip_prefix(b"-").unwrap_or(row));
    let term = TermKey {
        type_no: number(fields.next()?)?,
        key: key(fields.next()?)?,
    };
    let key = doc_key(fields.next()?, fields.next()?)?;
    if row.starts_with(b"-") {
        return delta.delete(term, key).ok();
    }
    let audience = Audience::Public;
    delta.put(term, Posting { key, audience }).ok()
}

fn postings(alloc: Global, rows: &[u8]) -> Result<Layer, Fail> {
    let mut delta = Delta::new(alloc);
    for row in rows.split(|byte| *byte == b',') {
        put(&mut delta, row).ok_or("no row")?;
    }
    Ok(Layer::build(alloc, delta)?)
}

fn layer(alloc: Global, rows: &[u8]) -> Result<ShardLayer, Fail> {
    let entities = Arc::new(alloc, EntityLayer::build(EntityDelta::new(alloc))?)?;
    let postings = Arc::new(alloc, postings(alloc, rows)?)?;
    let forward = Arc::new(alloc, ForwardLayer::build(ForwardDelta::new(alloc))?)?;
    Ok(ShardLayer::join(entities, postings, forward))
}

// The index of layers, the oldest first, with a bar between any two.
fn index(alloc: Global, layers: &[u8]) -> Result<ShardIndex, Fail> {
    let mut index = ShardIndex::of(alloc, ShardLayer::empty(alloc)?)?;
    for rows in layers.split(|byte| *byte == b'|') {
        index = index.roomy(1)?;
        index.push_layer_reserved(layer(alloc, rows)?);
    }
    Ok(index)
}

// Whether hits are of some entities in order, which commas part.
fn are_of(hits: &HitRows, ids: &[u8]) -> bool {
    let mut rest = ids;
    for hit in hits.as_slice() {
        let (id, others) = cut_at(rest, b',').unwrap_or((rest, b""));
        if read_id(id) != Some(hit.key.id) {
            return false;
        }
        rest = others;
    }
    rest.is_empty()
}

// The mark of the first operand of a list.
fn mark(kind: ListKind) -> Mark
    ensures { IsShare result }
{
    match kind {
        ListKind::WeakAnd => Mark::Hits(1),
        ListKind::StrongOr => Mark::Weight(1, 1),
        ListKind::And | ListKind::Or | ListKind::Difference => Mark::Plain,
    }
}

fn friends(id: &[u8]) -> Option<Resolved>
    ensures { IfSome result (λ query. IsReady (resolution query)) }
{
    let key = key(id)?;
    Some(Resolved::Term { type_no: 0, key })
}

fn live_in(from: &[u8]) -> Option<Resolved>
    ensures { IfSome result (λ query. IsReady (resolution query)) }
{
    let from = Word::read(from)?;
    Some(Resolved::Prefix { type_no: 1, from })
}

fn two(
    alloc: Global,
    first: Resolved,
    mark: Mark,
    second: Resolved,
) -> Result<Vec<ResolvedOperand>, AllocError>
    requires first { IsReady (resolution first) }
    requires mark { IsShare mark }
    requires second { IsReady (resolution second) }
    ensures { IfOk result (λ operands. AreReady (nodes_of (map operand_of operands.items))) }
{
    let mut operands = Vec::new(alloc);
    operands.push(ResolvedOperand { node: first, mark })?;
    operands.push(ResolvedOperand {
        node: second,
        mark: Mark::Plain,
    })?;
    Ok(operands)
}

// Friends of user 1, and with `both` also those of user 2.
fn friends_of(alloc: Global, both: bool) -> Result<Resolved, Fail>
    ensures { IfOk result (λ query. IsReady (resolution query)) }
{
    let first = friends(b"1").ok_or("no term")?;
    if !both {
        return Ok(first);
    }
    let second = friends(b"2").ok_or("no term")?;
    Ok(Resolved::Or(two(alloc, first, Mark::Plain, second)?))
}

// Friends of user 1, or of users 1 and 2, with those who live in Rome or Roma, under an operator.
fn listed(alloc: Global, kind: ListKind, both: bool) -> Result<Resolved, Fail>
    ensures { IfOk result (λ query. IsReady (resolution query)) }
{
    let first = friends_of(alloc, both)?;
    let second = live_in(b"rom").ok_or("no term")?;
    let operands = two(alloc, first, mark(kind), second)?;
    Ok(match kind {
        ListKind::And => Resolved::And(operands),
        ListKind::Or => Resolved::Or(operands),
        ListKind::Difference => Resolved::Difference(operands),
        ListKind::WeakAnd => Resolved::WeakAnd(operands),
        ListKind::StrongOr => Resolved::StrongOr(operands),
    })
}

// Whether a list over these layers has the hits of these ids.
fn is_found(
    alloc: Global,
    layers: &[u8],
    kind: ListKind,
    both: bool,
    ids: &[u8],
) -> Result<bool, Fail> {
    let query = listed(alloc, kind, both)?;
    let index = index(alloc, layers)?;
    let hits = eval_shard(alloc, &index, &query, 9)?;
    Ok(are_of(&hits, ids))
}

// Fails where a list has other hits, over one layer or over three.
fn finds(alloc: Global, kind: ListKind, both: bool, ids: &[u8]) -> Result<(), Fail> {
    if !is_found(alloc, ROWS, kind, both, ids)? {
        return Err("over one layer")?;
    }
    if !is_found(alloc, LAYERS, kind, both, ids)? {
        return Err("over three")?;
    }
    Ok(())
}

#[test]
fn lists(rt: HostRuntime) -> Result<(), Fail> {
    finds(rt.alloc(), ListKind::And, false, b"2,3,5")?;
    finds(rt.alloc(), ListKind::Or, false, b"2,3,5,6,4")?;
    finds(rt.alloc(), ListKind::Difference, false, b"")?;
    finds(rt.alloc(), ListKind::WeakAnd, false, b"2,3,5,6")?;
    finds(rt.alloc(), ListKind::StrongOr, false, b"2,3,5")
}

#[test]
fn lists_over_any_of_two_terms(rt: HostRuntime) -> Result<(), Fail> {
    finds(rt.alloc(), ListKind::And, true, b"2,3,5")?;
    finds(rt.alloc(), ListKind::Or, true, b"2,3,5,6,1,4")?;
    finds(rt.alloc(), ListKind::Difference, true, b"1")?;
    finds(rt.alloc(), ListKind::WeakAnd, true, b"2,3,5,6")?;
    finds(rt.alloc(), ListKind::StrongOr, true, b"2,3,5,1")
}

fn inner(rank: &[u8], id: &[u8], entry: u32) -> Option<InnerHit> {
    let key = doc_key(rank, id)?;
    Some(InnerHit { key, entry })
}

fn friends_of_friends(alloc: Global) -> Result<Resolved, Fail>
    ensures { IfOk result (λ query. IsReady (resolution query)) }
{
    let mut hits = Vec::new(alloc);
    hits.push(inner(b"90", b"2", 0).ok_or("no hit")?)?;
    hits.push(inner(b"50", b"1", 1).ok_or("no hit")?)?;
    Ok(Resolved::Joined {
        type_no: 0,
        inner: hits,
    })
}

// Whether the join has the hits of these ids, of so many at most.
fn is_joined(alloc: Global, limit: u32, ids: &[u8]) -> Result<bool, Fail> {
    let index = index(alloc, LAYERS)?;
    let query = friends_of_friends(alloc)?;
    let hits = eval_shard(alloc, &index, &query, limit)?;
    Ok(are_of(&hits, ids))
}

#[test]
fn a_join(rt: HostRuntime) -> Result<(), Fail> {
    assert!(rt; is_joined(rt.alloc(), 9, b"2,3,5,1")?);
    assert!(rt; is_joined(rt.alloc(), 2, b"2,3")?);
    Ok(())
}
