//! Worked lines, by computation.
ghost use Rattle.feed_reader.specs.Examples.{WorkedLines};

/// Lines of each form, and lines at fault, in both formats.
#[tactic(auto, using(crate::proofs::Worked::worked_lines))]
pub fn worked_lines()
    ensures { WorkedLines }
{}
