//! Hits by the postings of one term.
ghost use Rattle.std.specs.Prelude.{◌≡◌, IfOk};
ghost use Rattle.layer_base.specs.Layers.{stack_table};
ghost use Rattle.shard_eval.specs.Found.{found_all, found_of, found_posting, found_term};
ghost use Rattle.shard_eval.specs.Kept.{up_to};

use crate::kept::is_full;
use crate::leaf::Leaf;
use layer_stack::Stack;
use lineage_tree::{HitRows, RawHit};
use posting_lists::Posting;
use std::alloc::{AllocError, Global};
use uni_base::DocCursor;

/// The first postings of a term as hits.
pub(crate) fn term_hits(
    alloc: Global,
    stack: &Stack,
    leaf: &Leaf,
    limit: Option<u32>,
) -> Result<HitRows, AllocError>
    ensures { IfOk result (λ hits. found_all hits ≡ up_to limit (found_term (stack_table stack.now.0) leaf.now)) }
{
    let mut cursor = stack.cursor(alloc, &leaf.term())?;
    let mut hits = HitRows::new(alloc);
    while let Some(posting) = cursor.posting() {
        if is_full(hits.len(), limit) {
            break;
        }
        hits.push(posting_hit(alloc, leaf, posting)?)?;
        cursor.step();
    }
    Ok(hits)
}

fn posting_hit(alloc: Global, leaf: &Leaf, posting: Posting) -> Result<RawHit, AllocError>
    ensures { IfOk result (λ hit. found_of hit ≡ found_posting leaf.now posting) }
{
    let key = posting.key;
    let lineage = leaf.tree(alloc, posting)?;
    Ok(RawHit { key, lineage })
}
