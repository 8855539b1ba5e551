ghost use Rattle.std.specs.Prelude.{◌≡◌, ◌++◌, OnErr, OnOk};
ghost use Rattle.reply_text.specs.Lines.{text_of};
ghost use Rattle.reply_text.specs.Printed.{answer_lines};

use crate::Answer;
use crate::further::add_further;
use crate::head::add_head;
use std::alloc::{AllocError, Global};
use uni_base::Text;
use uni_schema::Schema;

/// Adds the lines of an answer at the end of `out`, each with its LF. They are made apart and added at
/// once, so where there is no memory `out` stays as it was. A type or a vertical that is not declared has
/// no name, and is printed as nothing.
pub fn write_answer(
    alloc: Global,
    schema: &Schema,
    answer: &Answer,
    out: &mut Text,
) -> Result<(), AllocError>
    ensures ok { OnOk result (out.new ≡ out.old ++ text_of (answer_lines schema.now answer.now)) }
    ensures err { OnErr result (out.new ≡ out.old) }
{
    let mut text = Text::new(alloc);
    add_head(&mut text, schema, answer)?;
    text.push(b'\n')?;
    add_further(&mut text, schema, answer)?;
    out.extend_from_slice(text.as_slice())
}
