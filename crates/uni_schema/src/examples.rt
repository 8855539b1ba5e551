//! Worked headers, by computation.
ghost use Rattle.uni_schema.specs.Examples.{WorkedHeaders};

/// Headers that are refused, each at its first line that breaks a rule, and two that are not.
#[tactic(auto, using(crate::proofs::Worked::worked_headers))]
pub fn worked_headers()
    ensures { WorkedHeaders }
{}
