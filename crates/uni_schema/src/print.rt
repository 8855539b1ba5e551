ghost use Rattle.std.specs.Prelude.{◌≡◌, ◌++◌, ◌∷◌, [], ◌<◌, true, length, map, OnOk, IfOk};
ghost use Rattle.std.specs.Fmt.{decimal};
ghost use Rattle.uni_schema.specs.Schema.{is_type, starts_below};
ghost use Rattle.uni_schema.specs.HeaderText.{owner_word, store_word};
ghost use Rattle.uni_base.specs.Lines.{lined};
ghost use Rattle.uni_schema.specs.Print.{format_line, vertical_line, type_line, deny_line, deny_lines, source_name, header_text};

use crate::{Origin, Owner, Schema, Store, TypeDef, VerticalDef};
use itoa::Buffer;
use std::alloc::{AllocError, Global};
use uni_base::{Rows, Text};

/// The text of a header that declares a schema, each line with its LF. Its lines are read as that
/// schema again, under the standard limits.
pub fn print_header(alloc: Global, schema: &Schema) -> Result<Text, AllocError>
    ensures { IfOk result (λ text. text ≡ header_text schema.now) }
{
    let mut text = Rows::new(alloc);
    add_format(&mut text, schema.format())?;
    add_verticals(&mut text, schema)?;
    add_types(&mut text, schema)?;
    add_denials(&mut text, schema)?;
    text.extend_from_slice(b"begin\n")?;
    Ok(text)
}

// Adds a space and a field.
fn add_field(text: &mut Text, field: &[u8]) -> Result<(), AllocError>
    ensures { OnOk result (text.new ≡ text.old ++ 32 ∷ field.now) }
{
    text.push(b' ')?;
    text.extend_from_slice(field)
}

// Adds a space and a number.
fn add_number(text: &mut Text, number: u32) -> Result<(), AllocError>
    ensures { OnOk result (text.new ≡ text.old ++ 32 ∷ decimal number) }
{
    let mut buffer = Buffer::new();
    add_field(text, buffer.format(number).as_bytes())
}

// `unicorn FORMAT`
fn add_format(text: &mut Text, format: u32) -> Result<(), AllocError>
    ensures { OnOk result (text.new ≡ text.old ++ lined (format_line format ∷ [])) }
{
    text.extend_from_slice(b"unicorn")?;
    add_number(text, format)?;
    text.push(b'\n')
}

// `vertical NAME SHARDS REPLICAS`
fn add_vertical(text: &mut Text, vertical: &VerticalDef) -> Result<(), AllocError>
    ensures { OnOk result (text.new ≡ text.old ++ lined (vertical_line vertical.now ∷ [])) }
{
    text.extend_from_slice(b"vertical")?;
    add_field(text, vertical.name.bytes())?;
    add_number(text, vertical.shards)?;
    add_number(text, vertical.replicas)?;
    text.push(b'\n')
}

fn add_verticals(text: &mut Text, schema: &Schema) -> Result<(), AllocError>
    ensures { OnOk result (text.new ≡ text.old ++ lined (map vertical_line schema.now.verticals)) }
{
    for no in 0..schema.verticals() {
        add_vertical(text, schema.vertical(no))?;
    }
    Ok(())
}

// `type NAME SOURCE TARGET OWNER STORE`
#[tactic(auto, using(crate::proofs::PrintLaws::type_starts, crate::proofs::PrintLaws::type_target))]
fn add_type(text: &mut Text, schema: &Schema, type_def: &TypeDef) -> Result<(), AllocError>
    requires { is_type (length schema.now.verticals) type_def.now ≡ true }
    ensures { OnOk result (text.new ≡ text.old ++ lined (type_line schema.now type_def.now ∷ [])) }
{
    text.extend_from_slice(b"type")?;
    add_field(text, type_def.name.bytes())?;
    add_field(text, source_name(schema, &type_def.origin))?;
    add_field(text, schema.vertical(type_def.target).name.bytes())?;
    add_field(text, owner_word(type_def.owner))?;
    add_field(text, store_word(type_def.store))?;
    text.push(b'\n')
}

fn add_types(text: &mut Text, schema: &Schema) -> Result<(), AllocError>
    ensures { OnOk result (text.new ≡ text.old ++ lined (map (type_line schema.now) schema.now.types)) }
{
    for no in 0..schema.types() {
        add_type(text, schema, schema.type_def(no))?;
    }
    Ok(())
}

// `deny NAME`, where a type denies
fn add_denial(text: &mut Text, type_def: &TypeDef) -> Result<(), AllocError>
    ensures { OnOk result (text.new ≡ text.old ++ lined (deny_lines (type_def.now ∷ []))) }
{
    if !type_def.deny {
        return Ok(());
    }
    text.extend_from_slice(b"deny")?;
    add_field(text, type_def.name.bytes())?;
    text.push(b'\n')
}

fn add_denials(text: &mut Text, schema: &Schema) -> Result<(), AllocError>
    ensures { OnOk result (text.new ≡ text.old ++ lined (deny_lines schema.now.types)) }
{
    for no in 0..schema.types() {
        add_denial(text, schema.type_def(no))?;
    }
    Ok(())
}

// The name of what edges start at.
fn source_name<'a>(schema: &'a Schema, origin: &Origin) -> &'a [u8]
    requires { starts_below (length schema.now.verticals) origin.now ≡ true }
    ensures { result.now ≡ source_name schema.now origin.now }
{
    match origin {
        Origin::Vertical(no) => schema.vertical(*no).name.bytes(),
        Origin::Words => b"word",
    }
}

fn owner_word(owner: Owner) -> &'static [u8]
    ensures { result.now ≡ owner_word owner }
{
    match owner {
        Owner::Source => b"source",
        Owner::Target => b"target",
        Owner::Both => b"both",
    }
}

fn store_word(store: Store) -> &'static [u8]
    ensures { result.now ≡ store_word store }
{
    match store {
        Store::Index => b"index",
        Store::Forward => b"forward",
    }
}
