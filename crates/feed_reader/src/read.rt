ghost use Rattle.std.specs.Prelude.{◌≡◌, ◌↔◌, Result, IfOk};
ghost use Rattle.feed_reader.specs.FeedText.{ReadsAs};
ghost use Rattle.feed_reader.specs.Printing.{HasUntil, LineIsDeclared};
ghost use Rattle.feed_reader.specs.Names.{AreOf};
ghost use Rattle.feed_reader.specs.Reading.{answer, cut_in, edge_in, entity_in, feed_line_of, gone_in, written_in};
ghost use Rattle.feed_reader.specs.declared.line.FeedLine.{FeedLine};
ghost use Rattle.feed_reader.specs.declared.fault.LineFault.{LineFault};

use crate::audience::{read_audience, read_until};
use crate::fields::LineFields;
use crate::{FeedLine, LastNames, LineFault};
use uni_base::Rank;
use uni_schema::Schema;
use uni_table::Command;

/// Reads a line of a feed, without its LF. A line that is the text of one gives that; one that is the text
/// of one but for a name that is not declared is `UnknownName`; and any other line is `BadLine`. Takes no
/// memory.
pub fn read_feed_line(schema: &Schema, line: &[u8]) -> Result<FeedLine, LineFault>
    ensures exact { (read : Result FeedLine LineFault)
        → (result ≡ read) ↔ ReadsAs schema.now line.now read }
    ensures line { result ≡ feed_line_of schema.now line.now }
    ensures declared { IfOk result (LineIsDeclared schema.now) }
    ensures until { IfOk result (HasUntil schema.now) }
{
    read_next_feed_line(schema, &mut LastNames::new(), line)
}

/// Reads a line of a feed as `read_feed_line` does, where names that were found last are not looked up again.
pub fn read_next_feed_line(
    schema: &Schema,
    names: &mut LastNames,
    line: &[u8],
) -> Result<FeedLine, LineFault>
    requires { AreOf schema.now names.old }
    ensures exact { (read : Result FeedLine LineFault)
        → (result ≡ read) ↔ ReadsAs schema.now line.now read }
    ensures line { result ≡ feed_line_of schema.now line.now }
    ensures declared { IfOk result (LineIsDeclared schema.now) }
    ensures until { IfOk result (HasUntil schema.now) }
    ensures names { AreOf schema.now names.new }
{
    let mut fields = LineFields::of(line);
    if fields.take_word(b"edge") {
        return read_edge(schema, names, fields);
    }
    if fields.take_word(b"entity") {
        return read_entity(schema, names, fields);
    }
    if fields.take_word(b"cut") {
        return read_cut(schema, names, fields);
    }
    if fields.take_word(b"gone") {
        return read_gone(schema, fields);
    }
    if fields.take_word(b"publish") {
        fields.end()?;
        return Ok(FeedLine::Publish);
    }
    Err(LineFault::BadLine)
}

// `entity VERTICAL ID RANK`, after its first word
fn read_entity(
    schema: &Schema,
    names: &mut LastNames,
    mut fields: LineFields<'_>,
) -> Result<FeedLine, LineFault>
    requires { AreOf schema.now names.old }
    ensures line { result ≡ answer schema.now (entity_in fields.entry) }
    ensures declared { IfOk result (LineIsDeclared schema.now) }
    ensures until { IfOk result (HasUntil schema.now) }
    ensures names { AreOf schema.now names.new }
{
    let vertical = names.vertical_no(schema, &mut fields)?;
    let id = fields.id()?;
    let rank = fields.number(0, u32::MAX as u64)?;
    fields.end()?;
    let vertical = vertical.ok_or(LineFault::UnknownName)?;
    Ok(FeedLine::Change(Command::Entity {
        vertical,
        id,
        rank: Rank(rank as u32),
    }))
}

// `gone ID`, after its first word
fn read_gone(schema: &Schema, mut fields: LineFields<'_>) -> Result<FeedLine, LineFault>
    ensures line { result ≡ answer schema.now (gone_in fields.entry) }
    ensures declared { IfOk result (LineIsDeclared schema.now) }
    ensures until { IfOk result (HasUntil schema.now) }
{
    let id = fields.id()?;
    fields.end()?;
    Ok(FeedLine::Change(Command::Gone { id }))
}

// `edge TYPE KEY TARGET AUDIENCE`, in format 2 also with `until PUBLISH`, after its first word
fn read_edge(
    schema: &Schema,
    names: &mut LastNames,
    mut fields: LineFields<'_>,
) -> Result<FeedLine, LineFault>
    requires { AreOf schema.now names.old }
    ensures line { result ≡ answer schema.now (edge_in schema.now.format fields.entry) }
    ensures declared { IfOk result (LineIsDeclared schema.now) }
    ensures until { IfOk result (HasUntil schema.now) }
    ensures names { AreOf schema.now names.new }
{
    let type_no = names.type_no(schema, &mut fields)?;
    let key = fields.word()?;
    let target = fields.id()?;
    let audience = read_audience(schema, names, &mut fields)?;
    let until = read_until(schema, &mut fields)?;
    let type_no = type_no.ok_or(LineFault::UnknownName)?;
    let audience = audience.ok_or(LineFault::UnknownName)?;
    Ok(FeedLine::Change(Command::Edge {
        type_no,
        key,
        target,
        audience,
        until,
    }))
}

// `cut TYPE KEY TARGET`, after its first word
fn read_cut(
    schema: &Schema,
    names: &mut LastNames,
    mut fields: LineFields<'_>,
) -> Result<FeedLine, LineFault>
    requires { AreOf schema.now names.old }
    ensures line { result ≡ answer schema.now (cut_in fields.entry) }
    ensures declared { IfOk result (LineIsDeclared schema.now) }
    ensures until { IfOk result (HasUntil schema.now) }
    ensures names { AreOf schema.now names.new }
{
    let type_no = names.type_no(schema, &mut fields)?;
    let key = fields.word()?;
    let target = fields.id()?;
    fields.end()?;
    let type_no = type_no.ok_or(LineFault::UnknownName)?;
    Ok(FeedLine::Change(Command::Cut {
        type_no,
        key,
        target,
    }))
}
