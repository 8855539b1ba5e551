//! A query whose joins are answered, as one shard is asked it.
ghost use Rattle.std.specs.Prelude.{◌≡◌, IfOk, map};
ghost use Rattle.apply_extract.specs.Answered.{answered_in, in_place, listing_in, operand_in};
ghost use Rattle.shard_eval.specs.Resolution.{listing_of, list_node, nodes_of, operand_of, resolution};

use crate::answered::{Answered, AnsweredOperand, Led};
use posting_lists::Posting;
use query_tree::ListKind;
use shard_eval::{InnerHit, ListedHit, Resolved, ResolvedOperand};
use std::alloc::{AllocError, Global};

/// The query of one shard.
#[cycle(in_shard)]
pub(crate) fn in_shard(alloc: Global, query: &Answered, shard: u32) -> Result<Resolved, AllocError>
    ensures { IfOk result (λ resolved. resolution resolved ≡ answered_in query.now shard) }
{
    match query {
        Answered::Term { type_no, key } => Ok(Resolved::Term {
            type_no: *type_no,
            key: *key,
        }),
        Answered::Prefix { type_no, from } => Ok(Resolved::Prefix {
            type_no: *type_no,
            from: *from,
        }),
        Answered::List { kind, operands } => {
            let operands = operands_in_shard(alloc, operands, shard)?;
            Ok(list_of(*kind, operands))
        }
        Answered::Joined { type_no, inner } => Ok(Resolved::Joined {
            type_no: *type_no,
            inner: copied(inner)?,
        }),
        Answered::Listed { type_no, inner } => Ok(Resolved::Listed {
            type_no: *type_no,
            inner: listed_in_shard(alloc, inner, shard)?,
        }),
    }
}

#[cycle(in_shard)]
fn operands_in_shard(
    alloc: Global,
    operands: &Vec<AnsweredOperand>,
    shard: u32,
) -> Result<Vec<ResolvedOperand>, AllocError>
    ensures { IfOk result (λ found. map operand_of found.items ≡ map (in_place shard) (map operand_in operands.now.items)) }
{
    let mut found = Vec::new(alloc);
    for operand in operands {
        let node = in_shard(alloc, &operand.node, shard)?;
        found.push(ResolvedOperand {
            node,
            mark: operand.mark,
        })?;
    }
    Ok(found)
}

// Operands under their operator.
fn list_of(kind: ListKind, operands: Vec<ResolvedOperand>) -> Resolved
    ensures { resolution result ≡ list_node kind (nodes_of (map operand_of operands.items)) }
{
    match kind {
        ListKind::And => Resolved::And(operands),
        ListKind::Or => Resolved::Or(operands),
        ListKind::Difference => Resolved::Difference(operands),
        ListKind::WeakAnd => Resolved::WeakAnd(operands),
        ListKind::StrongOr => Resolved::StrongOr(operands),
    }
}

fn copied(inner: &Vec<InnerHit>) -> Result<Vec<InnerHit>, AllocError>
    ensures { IfOk result (λ copy. copy.items ≡ inner.now.items) }
{
    inner.clone()
}

// Inner hits with those of their edges that lead into the shard.
fn listed_in_shard(
    alloc: Global,
    inner: &Vec<Led>,
    shard: u32,
) -> Result<Vec<ListedHit>, AllocError>
    ensures { IfOk result (λ listed. map listing_of listed.items ≡ map (listing_in shard) inner.now.items) }
{
    let mut listed = Vec::new(alloc);
    for led in inner {
        let rows = rows_in_shard(alloc, led, shard)?;
        listed.push(ListedHit { hit: led.hit, rows })?;
    }
    Ok(listed)
}

fn rows_in_shard(alloc: Global, led: &Led, shard: u32) -> Result<Vec<Posting>, AllocError>
    ensures { IfOk result (λ rows. rows.items ≡ (listing_in shard led.now).rows) }
{
    match led.rows.get(shard as usize) {
        Some(rows) => rows.clone(),
        None => Ok(Vec::new(alloc)),
    }
}
