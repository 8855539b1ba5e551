//! Worked texts with their queries and faults, each the contract of a function that does nothing.
ghost use Rattle.query_reader.specs.Examples.{WorkedCodes, WorkedFaults, WorkedFormats, WorkedQueries};

/// First faults, from `(and friend:1 Rome)` on.
#[tactic(auto, using(crate::proofs::Worked::worked_faults))]
pub fn worked_faults()
    ensures { WorkedFaults }
{}

/// First faults by which the formats differ, and some that both have.
#[tactic(auto, using(crate::proofs::Worked::worked_formats))]
pub fn worked_formats()
    ensures { WorkedFormats }
{}

/// Queries with their columns, from `friend:1` on.
#[tactic(auto, using(crate::proofs::Worked::worked_queries))]
pub fn worked_queries()
    ensures { WorkedQueries }
{}

/// Codes of tokens by what is written before them.
#[tactic(auto, using(crate::proofs::Worked::worked_codes))]
pub fn worked_codes()
    ensures { WorkedCodes }
{}
