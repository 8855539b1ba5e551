//! Laws about the definitions, each the contract of a function that does nothing.
ghost use Rattle.uni_base.specs.declared.entity.DocKey.{DocKey};
ghost use Rattle.uni_meaning.specs.Laws.{FirstIsFirst, FirstIsShown, HitsHaveLineages, LightWalk, LineagesAreExact, LineagesStand, PrefixIsOr, PrefixKeysRise, PrefixesSpelledOut, RepliesBegin, ShardsMakeNoDifference};

/// What is shown is the first lineage whose edges are all authorised; so something is shown exactly where
/// there is one.
#[tactic(auto, using(crate::proofs::Firsts::first_is_first))]
pub fn first_is_first()
    ensures { FirstIsFirst }
{}

/// Something is shown of a hit exactly where some one lineage of it has authorised edges alone.
#[tactic(auto, using(crate::proofs::FirstIsShown::first_is_shown))]
pub fn first_is_shown()
    ensures { FirstIsShown }
{}

/// The list of lineages has exactly the lineages.
#[tactic(auto, using(crate::proofs::Exact::lineages_are_exact))]
pub fn lineages_are_exact()
    ensures { LineagesAreExact }
{}

/// Every edge of a lineage is an edge of the table.
#[tactic(auto, using(crate::proofs::Stands::lineages_stand))]
pub fn lineages_stand()
    ensures { LineagesStand }
{}

/// Every hit of a typed query has a lineage, over a table that keeps what tables keep.
#[tactic(auto, using(crate::proofs::Led::hits_have_lineages))]
pub fn hits_have_lineages()
    ensures { HitsHaveLineages }
{}

/// Replies to typed queries without quotas are the same whatever the number of shards.
#[tactic(auto, using(crate::proofs::Unsharded::shards_make_no_difference))]
pub fn shards_make_no_difference()
    ensures { ShardsMakeNoDifference }
{}

/// A reply at a limit begins the reply at any greater one.
#[tactic(auto, using(crate::proofs::Begins::replies_begin))]
pub fn replies_begin()
    ensures { RepliesBegin }
{}

/// A prefix term is the `or` of the terms of its keys.
#[tactic(auto, using(crate::proofs::Prefixed::prefix_is_or))]
pub fn prefix_is_or()
    ensures { PrefixIsOr }
{}

/// The keys of a prefix rise strictly by their bytes, in a table that keeps what tables keep.
#[tactic(auto, using(crate::proofs::PrefixOrder::prefix_keys_rise))]
pub fn prefix_keys_rise()
    ensures { PrefixKeysRise }
{}

/// A query means the same with its prefix terms spelled out, each as the `or` of the terms of its keys, at any
/// depth.
#[tactic(auto, using(crate::proofs::SpelledOut::prefixes_spelled_out))]
pub fn prefixes_spelled_out()
    ensures { PrefixesSpelledOut }
{}

/// For operands without a weight `weak-and` goes by counts alone, whatever was kept before.
#[tactic(auto, using(crate::proofs::Light::light_walk))]
pub fn light_walk()
    ensures { LightWalk DocKey }
{}
