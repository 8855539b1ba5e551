//! Worked rounds, by computation on the definitions.
ghost use Rattle.unicorn_round.specs.Example.{WorkedBench, WorkedRounds};

/// Publishes, a compaction, stacks that are shown and stacks that are tidied, answered byte by byte.
#[tactic(auto, using(crate::proofs::Worked::worked_rounds))]
pub fn worked_rounds()
    ensures { WorkedRounds }
{}

/// The script of two people, made from a seed, read, and answered line by line by the plain definitions of the operators,
/// down to the line that counts what it was answered.
#[tactic(auto, using(crate::proofs::Worked::worked_bench))]
pub fn worked_bench()
    ensures { WorkedBench }
{}
