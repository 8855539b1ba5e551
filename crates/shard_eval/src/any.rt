//! An operand that is any of a few terms. It is read term by term, so that the trees of what is kept alone are made.
ghost use Rattle.std.specs.Prelude.{◌≡◌, IfOk, IfSome, map};
ghost use Rattle.std.specs.List.{filter_map};
ghost use Rattle.std.specs.Option.{option_map};
ghost use Rattle.layer_base.specs.Layers.{stack_table};
ghost use Rattle.layer_stack.specs.Postings.{PostingTable};
ghost use Rattle.lineage_tree.specs.Tree.{tree_of};
ghost use Rattle.posting_lists.specs.Postings.{keys_of};
ghost use Rattle.shard_eval.specs.Found.{first_at, found_from, found_keys, found_term, tree_at, KeepsLater};
ghost use Rattle.shard_eval.specs.Grouped.{found_any};
ghost use Rattle.shard_eval.specs.Resolution.{all_found, found, nodes_of, operand_of, resolution};
ghost use Rattle.shard_eval.specs.Sources.{AreRanked};
ghost use Rattle.shard_eval.specs.Witnesses.{found_postings};

use crate::leaf::Leaf;
use crate::witness::Postings;
use crate::{Resolved, ResolvedOperand};
use layer_stack::{Stack, StackCursor};
use lineage_tree::Lineage;
use std::alloc::{AllocError, Global};
use uni_base::DocKey;

// The most terms that are read side by side. Each move looks at all of them, so with more it is dearer than to sort
// once what they lead to.
const FEW_TERMS: usize = 64;

/// The terms that the operands of a list are, where they are few. None where one is something else.
pub(crate) fn few_terms(
    alloc: Global,
    operands: &Vec<ResolvedOperand>,
) -> Result<Option<Vec<Leaf>>, AllocError>
    ensures { IfOk result (λ found. IfSome found (λ leaves. (table : PostingTable) → all_found table (nodes_of (map operand_of operands.now.items)) ≡ map (found_term table) leaves.items)) }
{
    if operands.len() > FEW_TERMS {
        return Ok(None);
    }
    let mut leaves = Vec::new(alloc);
    for operand in operands {
        let Some(leaf) = leaf_of(&operand.node) else {
            return Ok(None);
        };
        leaves.push(leaf)?;
    }
    Ok(Some(leaves))
}

// The term that a node is, if it is one.
fn leaf_of(node: &Resolved) -> Option<Leaf>
    ensures { IfSome result (λ leaf. (table : PostingTable) → found table (resolution node.now) ≡ found_term table leaf) }
{
    match node {
        Resolved::Term { type_no, key } => Some(Leaf::of(*type_no, *key)),
        _ => None,
    }
}

/// Cursors over the postings of terms.
pub(crate) fn cursors_of<'a>(
    alloc: Global,
    stack: &'a Stack,
    leaves: &[Leaf],
) -> Result<Vec<StackCursor<'a>>, AllocError>
    ensures { IfOk result (λ cursors. map keys_of cursors.items ≡ map found_keys (map (found_term (stack_table stack.now.0)) leaves.now)) }
{
    let mut cursors = Vec::with_capacity(alloc, leaves.len())?;
    for leaf in leaves {
        cursors.push(stack.cursor(alloc, &leaf.term())?)?;
    }
    Ok(cursors)
}

/// The postings of terms, of which none is read.
pub(crate) fn postings_of<'a>(
    alloc: Global,
    stack: &'a Stack,
    leaves: &[Leaf],
) -> Result<Vec<Postings<'a>>, AllocError>
    ensures { IfOk result (λ terms. map found_postings terms.items ≡ map (found_term (stack_table stack.now.0)) leaves.now) }
{
    let mut terms = Vec::with_capacity(alloc, leaves.len())?;
    for leaf in leaves {
        let cursor = stack.cursor(alloc, &leaf.term())?;
        let leaf = *leaf;
        terms.push(Postings { leaf, cursor })?;
    }
    Ok(terms)
}

/// The tree of an entity, if some term leads to it. What stands before it is passed.
pub(crate) fn any_at(
    alloc: Global,
    terms: &mut Vec<Postings<'_>>,
    key: DocKey,
) -> Result<Option<Lineage>, AllocError>
    ensures tree { IfOk result (λ tree. option_map tree_of tree ≡ tree_at (found_any (map found_postings terms.old.items)) key) }
    ensures rest { KeepsLater key (found_any (map found_postings terms.old.items)) (found_any (map found_postings terms.new.items)) }
{
    pass_before(terms, &key);
    let trees = trees_here(alloc, terms.as_slice(), &key)?;
    if trees.is_empty() {
        return Ok(None);
    }
    Ok(Some(Lineage::AnyOf(trees)))
}

// Passes what stands before a key under each term.
fn pass_before(terms: &mut Vec<Postings<'_>>, key: &DocKey)
    ensures rest { map found_postings terms.new.items ≡ map (found_from key.now) (map found_postings terms.old.items) }
    ensures ranked { AreRanked (map found_postings terms.old.items) }
{
    for i in 0..terms.len() {
        terms[i].pass_before(key);
    }
}

// The trees of the first postings, of those that are at a key.
fn trees_here(
    alloc: Global,
    terms: &[Postings<'_>],
    key: &DocKey,
) -> Result<Vec<Lineage>, AllocError>
    ensures { IfOk result (λ trees. map tree_of trees.items ≡ filter_map (first_at key.now) (map found_postings terms.now)) }
{
    let mut trees = Vec::new(alloc);
    for term in terms {
        if let Some(tree) = term.tree_here(alloc, key)? {
            trees.push(tree)?;
        }
    }
    Ok(trees)
}
