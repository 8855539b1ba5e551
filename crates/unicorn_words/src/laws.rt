//! Worked command lines, and a law, each the contract of a function that does nothing.
ghost use Rattle.std.specs.Prelude.{◌≡◌, [], false};
ghost use Rattle.unicorn_words.specs.Asked.{AskForOne};
ghost use Rattle.unicorn_words.specs.CommandLine.{is_taken};
ghost use Rattle.unicorn_words.specs.Lines.{RefusedLines, WorkedLines};

/// Lines that are taken, with what they ask for.
#[tactic(auto, using(crate::proofs::Worked::worked_lines))]
pub fn worked_lines()
    ensures { WorkedLines }
{}

/// Lines that are not.
#[tactic(auto, using(crate::proofs::Worked::refused_lines))]
pub fn refused_lines()
    ensures { RefusedLines }
{}

/// A list without any word, not even the program's name, is not taken.
#[tactic(auto, using(crate::proofs::Worked::nothing_is_refused))]
pub fn nothing_is_refused()
    ensures { is_taken [] ≡ false }
{}

/// The same words never ask for two different settings.
#[tactic(auto, using(crate::proofs::Asked::ask_for_one))]
pub fn ask_for_one()
    ensures { AskForOne }
{}
