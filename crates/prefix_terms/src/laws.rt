//! What prefix terms are, as the contract of a function that does nothing.
ghost use Rattle.prefix_terms.specs.Laws.{PrefixTermsAreExact};

/// The keys of a prefix term are exactly the words that begin so and have a posting of the type, and its
/// postings are exactly theirs.
#[tactic(auto, using(crate::proofs::Exact::prefix_terms_are_exact))]
pub fn prefix_terms_are_exact()
    ensures { PrefixTermsAreExact }
{}
