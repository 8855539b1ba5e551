//! What a shard has of a query, node by node.
ghost use Rattle.std.specs.Prelude.{◌≡◌, IfOk, map};
ghost use Rattle.layer_base.specs.Layers.{stack_table};
ghost use Rattle.shard_eval.specs.Found.{found_all};
ghost use Rattle.shard_eval.specs.Kept.{up_to};
ghost use Rattle.shard_eval.specs.Resolution.{all_found, found, marks_of, nodes_of, operand_of, resolution, AreReady, IsReady};
ghost use Rattle.shard_eval.specs.Resolution.Resolution.{list_node};
ghost use Rattle.shard_eval.specs.Sources.{found_by, found_lists, source_marks};

use crate::any::few_terms;
use crate::joins::{joined_hits, listed_hits, prefix_hits};
use crate::leaf::Leaf;
use crate::list::list_hits;
use crate::source::{Source, prefix_source};
use crate::terms::term_hits;
use crate::{Resolved, ResolvedOperand};
use layer_stack::Stack;
use lineage_tree::HitRows;
use query_tree::{ListKind, Mark};
use std::alloc::{AllocError, Global};

/// The first hits of a query in a shard, as many as the limit says, or all.
#[cycle(eval)]
pub(crate) fn eval(
    alloc: Global,
    stack: &Stack,
    query: &Resolved,
    limit: Option<u32>,
) -> Result<HitRows, AllocError>
    requires { IsReady (resolution query.now) }
    ensures { IfOk result (λ hits. found_all hits ≡ up_to limit (found (stack_table stack.now.0) (resolution query.now))) }
{
    match query {
        Resolved::Term { type_no, key } => {
            let leaf = Leaf::of(*type_no, *key);
            term_hits(alloc, stack, &leaf, limit)
        }
        Resolved::Prefix { type_no, from } => { prefix_hits(alloc, stack, *type_no, from, limit) }
        Resolved::And(operands) => eval_list(alloc, stack, ListKind::And, operands, limit),
        Resolved::Or(operands) => eval_list(alloc, stack, ListKind::Or, operands, limit),
        Resolved::Difference(operands) => {
            eval_list(alloc, stack, ListKind::Difference, operands, limit)
        }
        Resolved::WeakAnd(operands) => eval_list(alloc, stack, ListKind::WeakAnd, operands, limit),
        Resolved::StrongOr(operands) => {
            eval_list(alloc, stack, ListKind::StrongOr, operands, limit)
        }
        Resolved::Joined { type_no, inner } => {
            joined_hits(alloc, stack, *type_no, inner.as_slice(), limit)
        }
        Resolved::Listed { type_no, inner } => {
            listed_hits(alloc, *type_no, inner.as_slice(), limit)
        }
    }
}

#[cycle(eval)]
fn eval_list(
    alloc: Global,
    stack: &Stack,
    kind: ListKind,
    operands: &Vec<ResolvedOperand>,
    limit: Option<u32>,
) -> Result<HitRows, AllocError>
    requires { AreReady (nodes_of (map operand_of operands.now.items)) }
    ensures { IfOk result (λ hits. found_all hits ≡ up_to limit
        (found (stack_table stack.now.0) (list_node kind (nodes_of (map operand_of operands.now.items))))) }
{
    let sources = sources(alloc, stack, operands)?;
    list_hits(alloc, stack, kind, sources, limit)
}

// The operands of a list: terms, prefix terms of few words and any of a few terms as they are, and all hits of any
// other node.
#[cycle(eval)]
fn sources(
    alloc: Global,
    stack: &Stack,
    operands: &Vec<ResolvedOperand>,
) -> Result<Vec<(Source, Mark)>, AllocError>
    requires { AreReady (nodes_of (map operand_of operands.now.items)) }
    ensures lists { IfOk result (λ sources. found_lists (stack_table stack.now.0) sources.items
        ≡ all_found (stack_table stack.now.0) (nodes_of (map operand_of operands.now.items))) }
    ensures marks { IfOk result (λ sources. source_marks sources.items ≡ marks_of (nodes_of (map operand_of operands.now.items))) }
{
    let mut sources = Vec::new(alloc);
    for operand in operands {
        let source = source(alloc, stack, &operand.node)?;
        sources.push((source, operand.mark))?;
    }
    Ok(sources)
}

#[cycle(eval)]
fn source(alloc: Global, stack: &Stack, node: &Resolved) -> Result<Source, AllocError>
    requires { IsReady (resolution node.now) }
    ensures { IfOk result (λ source. found_by (stack_table stack.now.0) source ≡ found (stack_table stack.now.0) (resolution node.now)) }
{
    match node {
        Resolved::Term { type_no, key } => Ok(Source::Term(Leaf::of(*type_no, *key))),
        Resolved::Prefix { type_no, from } => prefix_source(alloc, stack, *type_no, from),
        Resolved::Or(operands) => match few_terms(alloc, operands)? {
            Some(leaves) => Ok(Source::Any(leaves)),
            None => Ok(Source::Hits(eval(alloc, stack, node, None)?)),
        },
        _ => Ok(Source::Hits(eval(alloc, stack, node, None)?)),
    }
}
