//! Worked queries with what they are and with their faults, each the contract of a function that does
//! nothing.
ghost use Rattle.query_check.specs.Examples.{WorkedFaults, WorkedPlans};

/// Queries of every kind, from `friend:1` on.
#[tactic(auto, using(crate::proofs::Worked::worked_plans))]
pub fn worked_plans()
    ensures { WorkedPlans }
{}

/// First faults, of every code.
#[tactic(auto, using(crate::proofs::Worked::worked_faults))]
pub fn worked_faults()
    ensures { WorkedFaults }
{}
