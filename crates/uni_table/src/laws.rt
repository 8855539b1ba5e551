//! Laws about the definitions, each the contract of a function that does nothing.
ghost use Rattle.uni_table.specs.Laws.{TablesAreKept, RankedIsExact, ShardsPart, ReachedIsExact, TouchingIsExact, EndsPass};

/// Whatever commands make, each edge has an entity at each end that is to be one, the rows stand in
/// order, each key once, and no type and key has more forward edges than it may.
#[tactic(auto, using(crate::proofs::Steps::tables_are_kept))]
pub fn tables_are_kept()
    ensures { TablesAreKept }
{}

/// The list of a vertical is in rank order, lacks no entity of it and has no other.
#[tactic(auto, using(crate::proofs::Exact::ranked_is_exact))]
pub fn ranked_is_exact()
    ensures { RankedIsExact }
{}

/// The list of a shard is that of its vertical without the entities of other shards.
#[tactic(auto, using(crate::proofs::Sharded::shards_part))]
pub fn shards_part()
    ensures { ShardsPart }
{}

/// The list of a type and key is in rank order, lacks no edge of theirs and has no other.
#[tactic(auto, using(crate::proofs::Exact::reached_is_exact))]
pub fn reached_is_exact()
    ensures { ReachedIsExact }
{}

/// The list of an id is in the table's order, lacks no edge that leaves or reaches it and has no other.
#[tactic(auto, using(crate::proofs::TouchLaws::touching_is_exact))]
pub fn touching_is_exact()
    ensures { TouchingIsExact }
{}

/// An edge is gone from the publish on that ends it, and without ends nothing is.
#[tactic(auto, using(crate::proofs::EndLaws::ends_pass))]
pub fn ends_pass()
    ensures { EndsPass }
{}
