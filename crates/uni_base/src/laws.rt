//! Laws about lines and about the walks, each the contract of a function that does nothing. Those on walks hold
//! of entities of any type `K`.
ghost use Rattle.uni_base.specs.Lines.{LinesAreRead};
ghost use Rattle.uni_base.specs.WalkLaws.{WeakWalkIsExact, StrongWalkIsExact, WeakWalkIsAnd, StrongWalkIsOr, WeakWalkGoesByCounts, WalksPassOthers};

/// The bytes of lines are read as those lines again, where none of them holds an LF.
#[tactic(auto, using(crate::proofs::LineLaws::lines_are_read))]
pub fn lines_are_read()
    ensures { LinesAreRead }
{}

/// A weak walk keeps exactly each entity that some operand has and with which all quotas still hold, where
/// no weight is above the whole; and they hold of each beginning of what it keeps.
#[tactic(auto, using(crate::proofs::WalkLaws::weak_exact))]
pub fn weak_walk_is_exact<K>()
    ensures { WeakWalkIsExact K }
{}

/// A strong walk keeps exactly each entity that some operand has and with which every weighted operand
/// still has its share; and each has its share of each beginning of what the walk keeps.
#[tactic(auto, using(crate::proofs::WalkLaws::strong_exact))]
pub fn strong_walk_is_exact<K>()
    ensures { StrongWalkIsExact K }
{}

/// A weak walk without marks keeps what all operands have.
#[tactic(auto, using(crate::proofs::WalkLaws::weak_is_and))]
pub fn weak_walk_is_and<K>()
    ensures { WeakWalkIsAnd K }
{}

/// A strong walk without weights keeps what some operand has.
#[tactic(auto, using(crate::proofs::WalkLaws::strong_is_or))]
pub fn strong_walk_is_or<K>()
    ensures { StrongWalkIsOr K }
{}

/// Without weights a weak walk goes by its counts alone.
#[tactic(auto, using(crate::proofs::WalkLaws::weak_by_counts))]
pub fn weak_walk_goes_by_counts<K>()
    ensures { WeakWalkGoesByCounts K }
{}

/// Walks pass what no operand has.
#[tactic(auto, using(crate::proofs::WalkLaws::walks_pass_others))]
pub fn walks_pass_others<K>()
    ensures { WalksPassOthers K }
{}
