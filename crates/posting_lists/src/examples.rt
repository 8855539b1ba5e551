//! The bound on comparisons at some numbers of postings passed.
ghost use Rattle.std.specs.Prelude.{◌≡◌, ◌≤◌, ◌<◌};
ghost use Rattle.posting_lists.specs.Search.{most_comparisons};

/// A seek that passes nothing, one over a whole block, and any over a list of a million.
#[tactic(auto, using(crate::proofs::Bounds::at_nothing, crate::proofs::Bounds::over_a_block, crate::proofs::Bounds::within_a_million))]
pub fn bounds_of_seeks(passed: u64)
    ensures nothing { most_comparisons 0 ≡ 16 }
    ensures block { most_comparisons 128 ≡ 32 }
    ensures million { passed < 1000000 → most_comparisons passed ≤ 56 }
{}
