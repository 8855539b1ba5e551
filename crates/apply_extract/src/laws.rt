//! What follows from the definitions, as contracts of functions without a body.
ghost use Rattle.apply_extract.specs.Laws.{WithinHasShares};

/// The weights of a query that was read are shares, and so are those of what it is under a schema.
#[tactic(auto, using(crate::proofs::Shares::within_has_shares))]
pub fn within_has_shares()
    ensures { WithinHasShares }
{}
