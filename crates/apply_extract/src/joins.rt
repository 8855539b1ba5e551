//! The joins of a query, answered over all shards from the inside out.
ghost use Rattle.std.specs.Prelude.{◌≡◌, IfOk, map};
ghost use Rattle.apply_extract.specs.Answered.{answered_in, operand_in, AreReadyIn, IsReadyIn};
ghost use Rattle.apply_extract.specs.Asking.{GivesFirst, MayAsk};
ghost use Rattle.apply_extract.specs.Conditions.{AreTyped, IsAsked, IsStanding, IsTyped};
ghost use Rattle.apply_extract.specs.Hits.{AreAnswered, AreCut, AreInner, IsAnswered, OfEachTable};
ghost use Rattle.query_check.specs.Plan.{list_plan, operands_seen, plans_of, seen, seen_list, seen_node};
ghost use Rattle.shard_index.specs.Places.{shards_in};

use crate::answered::{Answered, AnsweredOperand};
use crate::leads::led_from;
use crate::notes::note_hits;
use lineage_tree::{HitRows, LineageBook};
use query_check::{Checked, CheckedNode, CheckedOperand};
use query_tree::ListKind;
use rack_aggregate::merge_top;
use shard_eval::InnerHit;
use shard_index::Version;
use std::alloc::{AllocError, Global};

/// The first hits of a query over all shards, as many as the limit says, each with its tree. The trees of
/// inner hits go into the book.
#[cycle(joins)]
pub(crate) fn first_hits<A: Fn(u16, Answered, u32) -> Result<Vec<HitRows>, AllocError>>(
    alloc: Global,
    version: &Version,
    ask: &A,
    query: &Checked,
    limit: u32,
    book: &mut LineageBook,
) -> Result<HitRows, AllocError>
    requires may { MayAsk version.now (A.pre ask.now) }
    requires gives { GivesFirst version.now (A.post ask.now) }
    requires standing { IsStanding version.now }
    requires typed { IsAsked version.now.schema (seen query.now) }
    ensures { IfOk result (λ hits. OfEachTable version.now (AreCut version.now.schema (seen query.now).stated.plan limit book.old book.new hits)) }
{
    let verticals = version.schema().verticals();
    prove!(query.vertical < verticals);
    let answered = answer_joins(alloc, version, ask, query.vertical, &query.node, book)?;
    let parts = ask(query.vertical, answered, limit)?;
    merge_top(alloc, parts, limit)
}

// A node whose joins are answered, with hits in a vertical.
#[cycle(joins)]
fn answer_joins<A: Fn(u16, Answered, u32) -> Result<Vec<HitRows>, AllocError>>(
    alloc: Global,
    version: &Version,
    ask: &A,
    vertical: u16,
    node: &CheckedNode,
    book: &mut LineageBook,
) -> Result<Answered, AllocError>
    requires may { MayAsk version.now (A.pre ask.now) }
    requires gives { GivesFirst version.now (A.post ask.now) }
    requires standing { IsStanding version.now }
    requires typed { IsTyped version.now.schema vertical (seen_node node.now) }
    ensures ready { IfOk result (λ answered. IsReadyIn (shards_in version.now.schema vertical) (answered_in answered)) }
    ensures is { IfOk result (λ answered. OfEachTable version.now
        (IsAnswered version.now.schema (seen_node node.now).plan (shards_in version.now.schema vertical) book.old book.new (answered_in answered))) }
{
    match node {
        CheckedNode::Term { type_no, key } => Ok(Answered::Term {
            type_no: *type_no,
            key: *key,
        }),
        CheckedNode::Prefix { type_no, from } => Ok(Answered::Prefix {
            type_no: *type_no,
            from: *from,
        }),
        CheckedNode::And(operands) => {
            answer_list(alloc, version, ask, vertical, ListKind::And, operands, book)
        }
        CheckedNode::Or(operands) => {
            answer_list(alloc, version, ask, vertical, ListKind::Or, operands, book)
        }
        CheckedNode::Difference(operands) => {
            answer_list(
                alloc,
                version,
                ask,
                vertical,
                ListKind::Difference,
                operands,
                book,
            )
        }
        CheckedNode::WeakAnd(operands) => {
            answer_list(
                alloc,
                version,
                ask,
                vertical,
                ListKind::WeakAnd,
                operands,
                book,
            )
        }
        CheckedNode::StrongOr(operands) => {
            answer_list(
                alloc,
                version,
                ask,
                vertical,
                ListKind::StrongOr,
                operands,
                book,
            )
        }
        CheckedNode::Apply {
            type_no,
            limit,
            node,
        } => {
            let inner = inner_hits(alloc, version, ask, node, *limit, book)?;
            Ok(Answered::Joined {
                type_no: *type_no,
                inner,
            })
        }
        CheckedNode::Extract {
            type_no,
            limit,
            node,
        } => {
            let verticals = version.schema().verticals();
            prove!(vertical < verticals);
            let inner = inner_hits(alloc, version, ask, node, *limit, book)?;
            let inner = led_from(alloc, version, *type_no, node.vertical, vertical, &inner)?;
            Ok(Answered::Listed {
                type_no: *type_no,
                inner,
            })
        }
    }
}

// Operands under their operator.
#[cycle(joins)]
fn answer_list<A: Fn(u16, Answered, u32) -> Result<Vec<HitRows>, AllocError>>(
    alloc: Global,
    version: &Version,
    ask: &A,
    vertical: u16,
    kind: ListKind,
    operands: &Vec<CheckedOperand>,
    book: &mut LineageBook,
) -> Result<Answered, AllocError>
    requires may { MayAsk version.now (A.pre ask.now) }
    requires gives { GivesFirst version.now (A.post ask.now) }
    requires standing { IsStanding version.now }
    requires typed { IsTyped version.now.schema vertical (seen_list kind (operands_seen operands.now.items)) }
    ensures ready { IfOk result (λ answered. IsReadyIn (shards_in version.now.schema vertical) (answered_in answered)) }
    ensures is { IfOk result (λ answered. OfEachTable version.now
        (IsAnswered version.now.schema (list_plan kind (plans_of (operands_seen operands.now.items))) (shards_in version.now.schema vertical) book.old book.new (answered_in answered))) }
{
    let operands = answer_operands(alloc, version, ask, vertical, operands, book)?;
    Ok(Answered::List { kind, operands })
}

// The operands of a list, one after the other.
#[cycle(joins)]
fn answer_operands<A: Fn(u16, Answered, u32) -> Result<Vec<HitRows>, AllocError>>(
    alloc: Global,
    version: &Version,
    ask: &A,
    vertical: u16,
    operands: &Vec<CheckedOperand>,
    book: &mut LineageBook,
) -> Result<Vec<AnsweredOperand>, AllocError>
    requires may { MayAsk version.now (A.pre ask.now) }
    requires gives { GivesFirst version.now (A.post ask.now) }
    requires standing { IsStanding version.now }
    requires typed { AreTyped version.now.schema vertical (operands_seen operands.now.items) }
    ensures ready { IfOk result (λ found. AreReadyIn (shards_in version.now.schema vertical) (map operand_in found.items)) }
    ensures are { IfOk result (λ found. OfEachTable version.now
        (AreAnswered version.now.schema (plans_of (operands_seen operands.now.items)) (shards_in version.now.schema vertical) book.old book.new (map operand_in found.items))) }
{
    let mut found = Vec::new(alloc);
    for operand in operands {
        let node = answer_joins(alloc, version, ask, vertical, &operand.node, book)?;
        found.push(AnsweredOperand {
            node,
            mark: operand.mark,
        })?;
    }
    Ok(found)
}

// The first hits of the inner query of a join, each with the number of its entry in the book.
#[cycle(joins)]
fn inner_hits<A: Fn(u16, Answered, u32) -> Result<Vec<HitRows>, AllocError>>(
    alloc: Global,
    version: &Version,
    ask: &A,
    query: &Checked,
    limit: u32,
    book: &mut LineageBook,
) -> Result<Vec<InnerHit>, AllocError>
    requires may { MayAsk version.now (A.pre ask.now) }
    requires gives { GivesFirst version.now (A.post ask.now) }
    requires standing { IsStanding version.now }
    requires typed { IsAsked version.now.schema (seen query.now) }
    ensures { IfOk result (λ inner. OfEachTable version.now (AreInner version.now.schema (seen query.now).stated.plan limit book.old book.new inner.items)) }
{
    let hits = first_hits(alloc, version, ask, query, limit, book)?;
    note_hits(alloc, hits, book)
}
