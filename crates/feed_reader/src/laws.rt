//! Laws about the definitions, each the contract of a function that does nothing.
ghost use Rattle.feed_reader.specs.Printing.{ReadIsPrinted, TextIsRead};
ghost use Rattle.feed_reader.specs.Reading.{LinesByText};

/// What is read off a line, field by field, is exactly what the line reads as by its text.
#[tactic(auto, using(crate::proofs::Texts::lines_by_text))]
pub fn lines_by_text()
    ensures { LinesByText }
{}

/// The text of a line is read as that line again.
#[tactic(auto, using(crate::proofs::Printed::text_is_read))]
pub fn text_is_read()
    ensures { TextIsRead }
{}

/// The line that was read off a text has that text.
#[tactic(auto, using(crate::proofs::Printed::read_is_printed))]
pub fn read_is_printed()
    ensures { ReadIsPrinted }
{}
