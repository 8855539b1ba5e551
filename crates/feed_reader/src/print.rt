ghost use Rattle.std.specs.Prelude.{◌≡◌, ◌++◌, ◌∷◌, Ok, OnOk, IfOk};
ghost use Rattle.std.specs.Fmt.{decimal};
ghost use Rattle.feed_reader.specs.Printing.{FitsFields, HasUntil, HasWord, LineFits, LineIsDeclared, audience_written, command_written, line_text, until_of};
ghost use Rattle.feed_reader.specs.FeedText.{audience_text, until_fields, written_text};
ghost use Rattle.feed_reader.specs.Parts.{with_spaces};
ghost use Rattle.feed_reader.specs.Reading.{feed_line_of};
ghost use Rattle.uni_table.specs.Commands.{IsDeclared, IsDeclaredAudience};

use crate::FeedLine;
use itoa::Buffer;
use std::alloc::{AllocError, Global};
use uni_base::{Rows, Text};
use uni_schema::Schema;
use uni_table::{AudienceText, Command};

/// The text of a line of a feed under a schema, without an LF. It is read as that line again. An edge has
/// no end, or in format 2 one of at most 1,048,576.
pub fn print_feed_line(alloc: Global, schema: &Schema, line: &FeedLine) -> Result<Text, AllocError>
    requires declared { LineIsDeclared schema.now line.now }
    requires until { HasUntil schema.now line.now }
    ensures text { IfOk result (λ text. text ≡ line_text schema.now line.now) }
    ensures again { IfOk result (λ text. feed_line_of schema.now text ≡ Ok line.now) }
{
    // Every schema tells its names apart, so that the text names what the line does.
    let _format = schema.format();
    let mut text = Rows::new(alloc);
    add_line(&mut text, schema, line)?;
    Ok(text)
}

// Adds the text of a line.
fn add_line(text: &mut Text, schema: &Schema, line: &FeedLine) -> Result<(), AllocError>
    requires { LineIsDeclared schema.now line.now }
    ensures text { OnOk result (text.new ≡ text.old ++ line_text schema.now line.now) }
    ensures fits { OnOk result (LineFits line.now) }
{
    match line {
        FeedLine::Change(command) => add_command(text, schema, command),
        FeedLine::Publish => text.extend_from_slice(b"publish"),
    }
}

// Adds the text of a change.
fn add_command(text: &mut Text, schema: &Schema, command: &Command) -> Result<(), AllocError>
    requires { IsDeclared schema.now command.now }
    ensures text { OnOk result
        (text.new ≡ text.old ++ written_text (command_written schema.now command.now)) }
    ensures fits { OnOk result (FitsFields command.now) }
{
    match command {
        Command::Entity { vertical, id, rank } => {
            text.extend_from_slice(b"entity")?;
            add_field(text, schema.vertical(*vertical).name.bytes())?;
            add_number(text, id.get())?;
            add_number(text, rank.0 as u64)
        }
        Command::Gone { id } => {
            text.extend_from_slice(b"gone")?;
            add_number(text, id.get())
        }
        Command::Edge {
            type_no,
            key,
            target,
            audience,
            until,
        } => {
            text.extend_from_slice(b"edge")?;
            add_field(text, schema.type_def(*type_no).name.bytes())?;
            add_field(text, key.bytes())?;
            add_number(text, target.get())?;
            add_audience(text, schema, audience)?;
            add_until(text, *until)
        }
        Command::Cut {
            type_no,
            key,
            target,
        } => {
            text.extend_from_slice(b"cut")?;
            add_field(text, schema.type_def(*type_no).name.bytes())?;
            add_field(text, key.bytes())?;
            add_number(text, target.get())
        }
    }
}

// Adds a space and an audience.
fn add_audience(text: &mut Text, schema: &Schema, audience: &AudienceText) -> Result<(), AllocError>
    requires { IsDeclaredAudience schema.now audience.now }
    ensures text { OnOk result
        (text.new ≡ text.old ++ 32 ∷ audience_text (audience_written schema.now audience.now)) }
    ensures word { OnOk result (HasWord audience.now) }
{
    match audience {
        AudienceText::Public => add_field(text, b"public"),
        AudienceText::Only => add_field(text, b"only"),
        AudienceText::Circle(type_no, key) => {
            add_field(text, b"in:")?;
            text.extend_from_slice(schema.type_def(*type_no).name.bytes())?;
            text.push(b':')?;
            text.extend_from_slice(key.bytes())
        }
    }
}

// Adds the end of an edge, if it has one.
fn add_until(text: &mut Text, until: u64) -> Result<(), AllocError>
    ensures { OnOk result (text.new ≡ text.old ++ with_spaces (until_fields (until_of until))) }
{
    if until == 0 {
        return Ok(());
    }
    add_field(text, b"until")?;
    add_number(text, until)
}

// Adds a space and a field.
fn add_field(text: &mut Text, field: &[u8]) -> Result<(), AllocError>
    ensures { OnOk result (text.new ≡ text.old ++ 32 ∷ field.now) }
{
    text.push(b' ')?;
    text.extend_from_slice(field)
}

// Adds a space and a number.
fn add_number(text: &mut Text, number: u64) -> Result<(), AllocError>
    ensures { OnOk result (text.new ≡ text.old ++ 32 ∷ decimal number) }
{
    let mut buffer = Buffer::new();
    add_field(text, buffer.format(number).as_bytes())
}
