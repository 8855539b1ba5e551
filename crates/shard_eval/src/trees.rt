//! The trees of keys, under all operands that have them.
ghost use Rattle.std.specs.Prelude.{◌≡◌, IfOk, map};
ghost use Rattle.std.specs.Option.{option_map};
ghost use Rattle.lineage_tree.specs.Tree.{tree_of};
ghost use Rattle.shard_eval.specs.Found.{found_all, found_keys};
ghost use Rattle.shard_eval.specs.Kept.{first_tree, tree_by};
ghost use Rattle.shard_eval.specs.Rows.{and_tree, found_rows, keys_of_rows, row_of, rows_of, with_found};
ghost use Rattle.shard_eval.specs.Witnesses.{found_in};
ghost use Rattle.uni_base.specs.Cursors.{IsRanked};

use crate::witness::Witness;
use lineage_tree::{HitRows, Lineage, RawHit};
use query_tree::ListKind;
use std::alloc::{AllocError, Global};
use std::collections::VecDeque;
use uni_base::{DocKey, DocList};

/// A key with its trees under the operands that have it, in their order.
#[derive(Drop)]
pub(crate) struct TreeRow {
    pub key: DocKey,
    pub trees: Vec<Lineage>,
}

/// Rows of keys without trees.
pub(crate) fn bare_rows(alloc: Global, keys: &DocList) -> Result<Vec<TreeRow>, AllocError>
    ensures { IfOk result (λ rows. map row_of rows.items ≡ rows_of keys.now) }
{
    let mut rows = Vec::new(alloc);
    for key in keys.as_slice() {
        let trees = Vec::new(alloc);
        rows.push(TreeRow { key: *key, trees })?;
    }
    Ok(rows)
}

/// The rows with the trees of one more operand.
pub(crate) fn with_trees(
    alloc: Global,
    witness: &mut Witness<'_>,
    rows: Vec<TreeRow>,
) -> Result<Vec<TreeRow>, AllocError>
    requires witness { IsRanked (found_keys (found_in witness.old)) }
    requires rows { IsRanked (keys_of_rows (map row_of rows.items)) }
    ensures { IfOk result (λ grown. map row_of grown.items ≡ map (with_found (found_in witness.old)) (map row_of rows.items)) }
{
    let mut grown = Vec::new(alloc);
    for row in rows {
        let tree = witness.tree_at(alloc, row.key)?;
        grown.push(row.and(tree)?)?;
    }
    Ok(grown)
}

impl TreeRow {
    // The row with one tree more, if there is one.
    fn and(self, tree: Option<Lineage>) -> Result<TreeRow, AllocError>
        ensures { IfOk result (λ row. row_of row ≡ and_tree (row_of self) (option_map tree_of tree)) }
    {
        let TreeRow { key, mut trees } = self;
        if let Some(tree) = tree {
            trees.push(tree)?;
        }
        Ok(TreeRow { key, trees })
    }
}

/// The rows as hits of an operator.
pub(crate) fn hits_of(
    alloc: Global,
    kind: ListKind,
    rows: Vec<TreeRow>,
) -> Result<HitRows, AllocError>
    ensures { IfOk result (λ hits. found_all hits ≡ found_rows kind (map row_of rows.items)) }
{
    let mut hits = HitRows::new(alloc);
    for row in rows {
        let TreeRow { key, trees } = row;
        let lineage = tree_by(kind, trees);
        hits.push(RawHit { key, lineage })?;
    }
    Ok(hits)
}

// The tree of the trees under the operands that have a key.
fn tree_by(kind: ListKind, trees: Vec<Lineage>) -> Lineage
    ensures { tree_of result ≡ tree_by kind (map tree_of trees.items) }
{
    match kind {
        ListKind::And | ListKind::WeakAnd => Lineage::AllOf(trees),
        ListKind::Or | ListKind::StrongOr => Lineage::AnyOf(trees),
        ListKind::Difference => first_tree(trees),
    }
}

// The first of some trees.
fn first_tree(trees: Vec<Lineage>) -> Lineage
    ensures { tree_of result ≡ first_tree (map tree_of trees.items) }
{
    let mut trees = VecDeque::from(trees);
    match trees.pop_front() {
        Some(tree) => tree,
        None => Lineage::AnyOf(Vec::from(trees)),
    }
}
