//! Laws about definitions, each the contract of a function that does nothing.
ghost use Rattle.uni_schema.specs.Header.{OpenedIsSchema};
ghost use Rattle.uni_schema.specs.HeaderText.{LinesByText, OpensByText};
ghost use Rattle.uni_schema.specs.Print.{PrintIsRead};

/// What is read off a line of a header is exactly what it says by its text.
#[tactic(auto, using(crate::proofs::Texts::lines_by_text))]
pub fn lines_by_text()
    ensures { LinesByText }
{}

/// The lines of a script open with a whole header, which they spell, or with the first line that
/// breaks a rule, and never with anything else.
#[tactic(auto, using(crate::proofs::Openings::opens_by_text))]
pub fn opens_by_text()
    ensures { OpensByText }
{}

/// What the lines of a script open with keeps what every schema keeps.
#[tactic(auto, using(crate::proofs::Opened::opened_is_schema))]
pub fn opened_is_schema()
    ensures { OpenedIsSchema }
{}

/// The text of a schema is read, line by line, as that schema again, under the standard limit of a line.
#[tactic(auto, using(crate::proofs::PrintLaws::print_is_read))]
pub fn print_is_read()
    ensures { PrintIsRead }
{}
