//! Laws about the rows of shards, each the contract of a function that does nothing.
ghost use Rattle.shard_index.specs.Laws.{RowsAreExact, StacksAddUp};

/// The rows of a shard have exactly the entities, the edges, the postings and the records of the shard
/// of a table.
#[tactic(auto, using(crate::proofs::Exact::rows_are_exact))]
pub fn rows_are_exact()
    ensures { RowsAreExact }
{}

/// Stacks of layers stand for rows that add up, layer by layer.
#[tactic(auto, using(crate::proofs::Exact::stacks_add_up))]
pub fn stacks_add_up()
    ensures { StacksAddUp }
{}
