//! Laws about definitions, each the contract of a function that does nothing of its own.
ghost use Rattle.script_rounds.specs.Laws.{NumbersRise, PartsByText, StacksByText, WordsAreUnbroken};

/// The entries of a script have line numbers that rise.
#[tactic(auto, using(crate::proofs::Numbering::numbers_rise))]
pub fn numbers_rise()
    ensures { NumbersRise }
{}

/// Words and names hold no LF, nor does any word in a change that a line is.
pub fn words_are_unbroken()
    ensures { WordsAreUnbroken }
{
    feed_reader::laws::lines_by_text();
}

/// The parts of an `ask` by its text.
#[tactic(auto, using(crate::proofs::ByText::parts_by_text))]
pub fn parts_by_text()
    ensures { PartsByText }
{}

/// The stack of a `compact` by its text.
#[tactic(auto, using(crate::proofs::ByText::stacks_by_text))]
pub fn stacks_by_text()
    ensures { StacksByText }
{}
