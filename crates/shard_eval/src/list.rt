//! What an operator over operands finds.
ghost use Rattle.std.specs.Prelude.{◌≡◌, All, IfOk, map};
ghost use Rattle.layer_base.specs.Layers.{stack_table};
ghost use Rattle.shard_eval.specs.Found.{found_all, found_keys};
ghost use Rattle.shard_eval.specs.Kept.{found_list, up_to, IsShare};
ghost use Rattle.shard_eval.specs.Rows.{keys_of_rows, row_of, with_all, with_found};
ghost use Rattle.shard_eval.specs.Sources.{found_by, found_lists, source_marks, AreRanked};
ghost use Rattle.uni_base.specs.Cursors.{IsRanked};

use crate::kept::kept_keys;
use crate::source::{Source, operands};
use crate::trees::{TreeRow, bare_rows, hits_of, with_trees};
use layer_stack::Stack;
use lineage_tree::HitRows;
use query_tree::{ListKind, Mark};
use std::alloc::{AllocError, Global};
use uni_base::DocList;

/// The first hits of an operator over operands, as many as the limit says, or all. First come the keys that
/// it keeps, and then their trees.
pub(crate) fn list_hits(
    alloc: Global,
    stack: &Stack,
    kind: ListKind,
    sources: Vec<(Source, Mark)>,
    limit: Option<u32>,
) -> Result<HitRows, AllocError>
    requires shares { All IsShare (source_marks sources.items) }
    requires ranked { AreRanked (found_lists (stack_table stack.now.0) sources.items) }
    ensures { IfOk result (λ hits. found_all hits ≡ up_to limit
        (found_list kind (source_marks sources.items) (found_lists (stack_table stack.now.0) sources.items))) }
{
    let operands = operands(alloc, stack, sources.as_slice())?;
    let keys = kept_keys(alloc, kind, operands, limit)?;
    let rows = tree_rows(alloc, stack, sources, &keys)?;
    hits_of(alloc, kind, rows)
}

// Keys with their trees under all operands that have them.
fn tree_rows(
    alloc: Global,
    stack: &Stack,
    sources: Vec<(Source, Mark)>,
    keys: &DocList,
) -> Result<Vec<TreeRow>, AllocError>
    requires ranked { AreRanked (found_lists (stack_table stack.now.0) sources.items) }
    requires keys { IsRanked keys.now }
    ensures { IfOk result (λ rows. map row_of rows.items ≡ with_all (found_lists (stack_table stack.now.0) sources.items) keys.now) }
{
    let mut rows = bare_rows(alloc, keys)?;
    for (source, _) in sources {
        rows = with_source(alloc, stack, source, rows)?;
    }
    Ok(rows)
}

// The rows with the trees of one operand more.
fn with_source(
    alloc: Global,
    stack: &Stack,
    source: Source,
    rows: Vec<TreeRow>,
) -> Result<Vec<TreeRow>, AllocError>
    requires source { IsRanked (found_keys (found_by (stack_table stack.now.0) source)) }
    requires rows { IsRanked (keys_of_rows (map row_of rows.items)) }
    ensures { IfOk result (λ grown. map row_of grown.items ≡ map (with_found (found_by (stack_table stack.now.0) source)) (map row_of rows.items)) }
{
    let mut witness = source.witness(alloc, stack)?;
    with_trees(alloc, &mut witness, rows)
}
