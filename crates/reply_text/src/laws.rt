//! Laws about definitions, each the contract of a function that does nothing.
ghost use Rattle.reply_text.specs.Laws.{HeadsByText, HeadsLead, LinesAreUnbroken};

/// Answers of one text say the same in their first lines.
#[tactic(auto, using(crate::proofs::Told::heads_by_text))]
pub fn heads_by_text()
    ensures { HeadsByText }
{}

/// The first line of an answer is known by its first word.
#[tactic(auto, using(crate::proofs::Leading::heads_lead))]
pub fn heads_lead()
    ensures { HeadsLead }
{}

/// No line of an answer holds an LF, where no word in it does.
#[tactic(auto, using(crate::proofs::Unbroken::lines_are_unbroken))]
pub fn lines_are_unbroken()
    ensures { LinesAreUnbroken }
{}
