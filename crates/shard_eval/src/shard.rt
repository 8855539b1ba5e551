ghost use Rattle.std.specs.Prelude.{◌≡◌, IfOk, take};
ghost use Rattle.shard_eval.specs.Found.{found_all};
ghost use Rattle.shard_eval.specs.Resolution.{found, resolution, IsReady};
ghost use Rattle.shard_index.specs.Rows.{stack_rows};

use crate::Resolved;
use crate::eval::eval;
use lineage_tree::HitRows;
use shard_index::ShardIndex;
use std::alloc::{AllocError, Global};

/// The first hits of a query in a shard, as many as the limit says, each with the tree of its lineages.
pub fn eval_shard(
    alloc: Global,
    shard: &ShardIndex,
    query: &Resolved,
    limit: u32,
) -> Result<HitRows, AllocError>
    requires { IsReady (resolution query.now) }
    ensures { IfOk result (λ hits. found_all hits ≡ take limit (found (stack_rows shard.now.0).postings (resolution query.now))) }
{
    eval(alloc, shard.postings(), query, Some(limit))
}
