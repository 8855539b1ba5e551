ghost use Rattle.std.specs.Prelude.{◌≡◌, ◌++◌, OnOk};
ghost use Rattle.reply_text.specs.Printed.{edge_text, edges_text, key_text, type_name};

use crate::field::add_digits;
use std::alloc::AllocError;
use uni_base::{EdgeRef, Key, Text};
use uni_schema::Schema;

/// Adds edges, with a space before each.
pub(crate) fn add_edges(
    text: &mut Text,
    schema: &Schema,
    edges: &[EdgeRef],
) -> Result<(), AllocError>
    ensures { OnOk result (text.new ≡ text.old ++ edges_text schema.now edges.now) }
{
    for edge in edges {
        text.push(b' ')?;
        add_edge(text, schema, edge)?;
    }
    Ok(())
}

// `TYPE:KEY>TARGET`
fn add_edge(text: &mut Text, schema: &Schema, edge: &EdgeRef) -> Result<(), AllocError>
    ensures { OnOk result (text.new ≡ text.old ++ edge_text schema.now edge.now) }
{
    add_type(text, schema, edge.type_no)?;
    text.push(b':')?;
    add_key(text, &edge.key)?;
    text.push(b'>')?;
    add_digits(text, edge.target.get())
}

// The name of a type.
fn add_type(text: &mut Text, schema: &Schema, type_no: u16) -> Result<(), AllocError>
    ensures { OnOk result (text.new ≡ text.old ++ type_name schema.now type_no) }
{
    if type_no < schema.types() {
        text.extend_from_slice(schema.type_def(type_no).name.bytes())
    } else {
        Ok(())
    }
}

fn add_key(text: &mut Text, key: &Key) -> Result<(), AllocError>
    ensures { OnOk result (text.new ≡ text.old ++ key_text key.now) }
{
    match key {
        Key::Id(id) => add_digits(text, id.get()),
        Key::Word(word) => text.extend_from_slice(word.bytes()),
    }
}
