//! What follows from the definitions, as contracts of functions without a body.
ghost use Rattle.shard_eval.specs.Laws.{FindsWhatIsMeant, JoinsAreSmall, TreesAreExact};

/// The tree of an entity under a plan stands for exactly its lineages over the table, in their order.
pub fn trees_are_exact()
    ensures { TreesAreExact }
{}

/// What a shard of a table finds of a query is what the query means there.
pub fn finds_what_is_meant()
    ensures { FindsWhatIsMeant }
{}

/// The tree of a hit of a join has at most three nodes for each edge that joins it, and one.
#[tactic(auto, using(crate::proofs::SmallJoins::joins_are_small))]
pub fn joins_are_small()
    ensures { JoinsAreSmall }
{}
