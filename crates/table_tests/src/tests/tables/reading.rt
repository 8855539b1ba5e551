//! Changes of a table as a step writes them.
ghost use Rattle.std.specs.Prelude.{◌<◌, IfSome, length};
ghost use Rattle.uni_table.specs.Commands.{IsDeclared, IsDeclaredAudience};

use uni_base::{EntityId, Fields, Rank, Word, cut_at, read_between, read_id};
use uni_schema::Schema;
use uni_table::{AudienceText, Command, Table};

// The text before the first of a byte, and what is after it.
pub(super) fn part(text: &[u8], byte: u8) -> (&[u8], &[u8]) {
    cut_at(text, byte).unwrap_or((text, b""))
}

pub(super) fn number(fields: &mut Fields<'_>) -> Option<u64> {
    read_between(fields.next()?, 0, u64::MAX)
}

pub(super) fn id(fields: &mut Fields<'_>) -> Option<EntityId> {
    read_id(fields.next()?)
}

fn word(fields: &mut Fields<'_>) -> Option<Word> {
    Word::read(fields.next()?)
}

fn rank(fields: &mut Fields<'_>) -> Option<Rank> {
    Some(Rank(read_between(fields.next()?, 0, 4_294_967_295)? as u32))
}

// The number of a vertical that is declared.
pub(super) fn vertical(schema: &Schema, text: &[u8]) -> Option<u16>
    ensures { IfSome result (λ number. number < length schema.now.verticals) }
{
    let number = read_between(text, 0, 65_535)? as u16;
    if number < schema.verticals() {
        Some(number)
    } else {
        None
    }
}

// The number of a type that is declared.
fn type_no(schema: &Schema, text: &[u8]) -> Option<u16>
    ensures { IfSome result (λ number. number < length schema.now.types) }
{
    let number = read_between(text, 0, 65_535)? as u16;
    if number < schema.types() {
        Some(number)
    } else {
        None
    }
}

// Everybody, the owners alone, or a circle: `TYPE:KEY`.
fn audience(schema: &Schema, text: &[u8], everybody: AudienceText) -> Option<AudienceText>
    requires { IsDeclaredAudience schema.now everybody }
    ensures { IfSome result (IsDeclaredAudience schema.now) }
{
    if text == b"public".as_slice() {
        return Some(everybody);
    }
    if text == b"only".as_slice() {
        return Some(AudienceText::Only);
    }
    let (circle, key) = cut_at(text, b':')?;
    Some(AudienceText::Circle(type_no(schema, circle)?, Word::read(key)?))
}

// A vertical, an id and a rank.
fn entity(schema: &Schema, fields: &mut Fields<'_>) -> Option<Command>
    ensures { IfSome result (IsDeclared schema.now) }
{
    Some(Command::Entity {
        vertical: vertical(schema, fields.next()?)?,
        id: id(fields)?,
        rank: rank(fields)?,
    })
}

// A type, a key, a target, an audience and an end.
fn edge(schema: &Schema, fields: &mut Fields<'_>, everybody: AudienceText) -> Option<Command>
    requires { IsDeclaredAudience schema.now everybody }
    ensures { IfSome result (IsDeclared schema.now) }
{
    Some(Command::Edge {
        type_no: type_no(schema, fields.next()?)?,
        key: word(fields)?,
        target: id(fields)?,
        audience: audience(schema, fields.next()?, everybody)?,
        until: number(fields)?,
    })
}

// A type, a key and a target.
fn cut(schema: &Schema, fields: &mut Fields<'_>) -> Option<Command>
    ensures { IfSome result (IsDeclared schema.now) }
{
    Some(Command::Cut {
        type_no: type_no(schema, fields.next()?)?,
        key: word(fields)?,
        target: id(fields)?,
    })
}

// A command by its kind and what follows. Verticals and types are numbers.
fn command(
    schema: &Schema,
    kind: &[u8],
    fields: &mut Fields<'_>,
    everybody: AudienceText,
) -> Option<Command>
    requires { IsDeclaredAudience schema.now everybody }
    ensures { IfSome result (IsDeclared schema.now) }
{
    if kind == b"entity".as_slice() {
        entity(schema, fields)
    } else if kind == b"gone".as_slice() {
        Some(Command::Gone { id: id(fields)? })
    } else if kind == b"edge".as_slice() {
        edge(schema, fields, everybody)
    } else if kind == b"cut".as_slice() {
        cut(schema, fields)
    } else {
        None
    }
}

// Takes a command. The code of its refusal, or 0. The audience of everybody is named here, since the proof of
// this function needs the type of audiences among its own.
fn put(table: &mut Table, kind: &[u8], fields: &mut Fields<'_>) -> Option<u32> {
    let everybody = AudienceText::Public;
    let command = command(table.schema(), kind, fields, everybody)?;
    match table.put(&command) {
        Ok(()) => Some(0),
        Err(refusal) => refusal.code(),
    }
}

// Whether a change goes as it is to: `begin`, `end PUBLISH`, a command that is taken, or
// `refused CODE COMMAND`.
pub(super) fn changes(table: &mut Table, change: &[u8]) -> Option<bool> {
    let mut fields = Fields::of(change);
    let kind = fields.next()?;
    if kind == b"begin".as_slice() {
        table.begin_batch();
        Some(true)
    } else if kind == b"end".as_slice() {
        table.end(number(&mut fields)?);
        Some(true)
    } else if kind == b"refused".as_slice() {
        let code = number(&mut fields)?;
        let kind = fields.next()?;
        Some(put(table, kind, &mut fields)? as u64 == code)
    } else {
        Some(put(table, kind, &mut fields)? == 0)
    }
}
