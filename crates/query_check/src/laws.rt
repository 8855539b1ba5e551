//! Laws about definitions, each the contract of a function that does nothing.
ghost use Rattle.query_check.specs.Laws.{FaultsStandIn, TypedIsDeclared, TypesIgnoreColumns};

/// Queries that are equal but for columns are the same, or have faults with the same code.
#[tactic(auto, using(crate::proofs::Columns::types_ignore_columns))]
pub fn types_ignore_columns()
    ensures { TypesIgnoreColumns }
{}

/// What a query is found to be is declared, and of the vertical that is stated with it.
#[tactic(auto, using(crate::proofs::Declares::typed_is_declared))]
pub fn typed_is_declared()
    ensures { TypedIsDeclared }
{}

/// The first fault of a query has a code of types, and stands at one of its nodes or at the type of a join.
#[tactic(auto, using(crate::proofs::Places::faults_stand_in))]
pub fn faults_stand_in()
    ensures { FaultsStandIn }
{}
