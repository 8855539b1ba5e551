ghost use Rattle.std.specs.Prelude.{◌≡◌, ◌++◌, ◌∷◌, [], map, OnOk};
ghost use Rattle.reply_text.specs.Lines.{text_of};
ghost use Rattle.reply_text.specs.Printed.{further_lines, hit_line, stack_line};

use crate::edge::add_edges;
use crate::field::{add_field, add_number, add_stack};
use crate::{Answer, StackRow};
use std::alloc::AllocError;
use uni_base::Text;
use uni_meaning::Hit;
use uni_schema::Schema;

/// Adds the lines of an answer that follow its first, each with its LF.
pub(crate) fn add_further(
    text: &mut Text,
    schema: &Schema,
    answer: &Answer,
) -> Result<(), AllocError>
    ensures { OnOk result (text.new ≡ text.old ++ text_of (further_lines schema.now answer.now)) }
{
    match answer {
        Answer::Reply(_, reply) => add_hits(text, schema, reply.hits.as_slice()),
        Answer::Stats(_, _, stacks) => add_rows(text, schema, stacks.as_slice()),
        _ => Ok(()),
    }
}

fn add_hits(text: &mut Text, schema: &Schema, hits: &[Hit]) -> Result<(), AllocError>
    ensures { OnOk result (text.new ≡ text.old ++ text_of (map (hit_line schema.now) hits.now)) }
{
    for hit in hits {
        add_hit(text, schema, hit)?;
    }
    Ok(())
}

// `hit ID via EDGE EDGE ..`
fn add_hit(text: &mut Text, schema: &Schema, hit: &Hit) -> Result<(), AllocError>
    ensures { OnOk result (text.new ≡ text.old ++ text_of (hit_line schema.now hit.now ∷ [])) }
{
    text.extend_from_slice(b"hit")?;
    add_number(text, hit.key.id.get())?;
    add_field(text, b"via")?;
    add_edges(text, schema, hit.lineage.as_slice())?;
    text.push(b'\n')
}

fn add_rows(text: &mut Text, schema: &Schema, rows: &[StackRow]) -> Result<(), AllocError>
    ensures { OnOk result (text.new ≡ text.old ++ text_of (map (stack_line schema.now) rows.now)) }
{
    for row in rows {
        add_row(text, schema, row)?;
    }
    Ok(())
}

// `stack VERTICAL SHARD REPLICA layers N`
fn add_row(text: &mut Text, schema: &Schema, row: &StackRow) -> Result<(), AllocError>
    ensures { OnOk result (text.new ≡ text.old ++ text_of (stack_line schema.now row.now ∷ [])) }
{
    add_stack(text, b"stack", schema, row.vertical, row.shard, row.replica)?;
    add_field(text, b"layers")?;
    add_number(text, row.layers)?;
    text.push(b'\n')
}
