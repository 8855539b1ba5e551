//! Worked queries with their texts, nodes and depths, the contract of a function that does nothing.
ghost use Rattle.query_tree.specs.Examples.{WorkedQueries};

/// Queries of every kind, from `friend:1` on.
#[tactic(auto, using(crate::proofs::Worked::worked_queries))]
pub fn worked_queries()
    ensures { WorkedQueries }
{}
