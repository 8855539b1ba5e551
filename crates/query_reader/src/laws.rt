//! Laws about definitions, each the contract of a function that does nothing.
ghost use Rattle.query_reader.specs.FaultCodes.{FaultHasItsCode};
ghost use Rattle.query_reader.specs.FirstFault.{FaultIsFirst};
ghost use Rattle.query_reader.specs.Near.{FaultsAreNear};
ghost use Rattle.query_reader.specs.PrintLaws.{PrintIsRead};
ghost use Rattle.query_reader.specs.Spans.{TokensAreRuns};
ghost use Rattle.query_reader.specs.TextLaws.{OneQueryOrFault, SecondHasFirst, SpelledIsWithin};

/// Every text has exactly one query or exactly one fault, and never both.
#[tactic(auto, using(crate::proofs::TextLaws::query_or_fault))]
pub fn one_query_or_fault()
    ensures { OneQueryOrFault }
{}

/// The tokens of a text are its atoms, each as long as it goes, and its parentheses; the fault of a
/// text with an atom in no form stands at the first one.
#[tactic(auto, using(crate::proofs::Runs::tokens_are_runs))]
pub fn tokens_are_runs()
    ensures { TokensAreRuns }
{}

/// The first fault stands where no query goes on, though one begins with what stands before it.
#[tactic(auto, using(crate::proofs::FirstFault::fault_is_first))]
pub fn fault_is_first()
    ensures { FaultIsFirst }
{}

/// The first fault stands at the first token that has a code after what is written before it, and has
/// that code; or at the end with 32.
#[tactic(auto, using(crate::proofs::FaultCodes::fault_has_its_code))]
pub fn fault_has_its_code()
    ensures { FaultHasItsCode }
{}

/// The first fault has a code of the grammar and stands in the text or right after it; what is read of a
/// text stands in it, with all its nodes.
#[tactic(auto, using(crate::proofs::Near::faults_are_near))]
pub fn faults_are_near()
    ensures { FaultsAreNear }
{}

/// What a text spells is within the dialect: its names, its options, its size and its depth.
#[tactic(auto, using(crate::proofs::SpelledWithin::spelled_is_within))]
pub fn spelled_is_within()
    ensures { SpelledIsWithin }
{}

/// A text that spells a query in format 1 spells it in format 2 too.
#[tactic(auto, using(crate::proofs::Formats::second_has_first))]
pub fn second_has_first()
    ensures { SecondHasFirst }
{}

/// The print of a query within a dialect is read as that query, equal but for columns.
#[tactic(auto, using(crate::proofs::PrintRead::print_read))]
pub fn print_is_read()
    ensures { PrintIsRead }
{}
