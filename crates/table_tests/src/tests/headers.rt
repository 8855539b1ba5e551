//! Headers, and what is answered at their first line that is refused.
ghost use Rattle.std.specs.Prelude.{◌≤◌};

use std::alloc::Global;
use std::test::Fail;
use uni_base::{EdgeRef, EntityId, Key, Limits, Rows, Text, Word, cut_at, read_number};
use uni_schema::{HeaderReader, Origin, Owner, Schema, SchemaRefusal, Store, print_header};

// What a text opens with, whose lines end at bars: a schema, or the line and the code of a refusal, which is none
// where there was no memory. Where the lines end before `begin`, that is the line after them, with code 8.
fn open(alloc: Global, text: &[u8]) -> Result<Schema, (u64, Option<u32>)> {
    let mut reader = HeaderReader::new(alloc, Limits::standard());
    let mut line_no = 1;
    for line in text.split(|byte| *byte == b'|') {
        if line_no == u64::MAX {
            break;
        }
        match reader.take(line_no, line) {
            Ok(true) => return Ok(reader.schema()),
            Ok(false) => (),
            Err(refusal) => return Err((line_no, refusal.code())),
        }
        line_no += 1;
    }
    Err((line_no, SchemaRefusal::NoBegin(line_no).code()))
}

// The line and the code at which a text is refused, or 0 and 0.
fn refused(alloc: Global, text: &[u8]) -> (u64, Option<u32>) {
    match open(alloc, text) {
        Ok(_) => (0, Some(0)),
        Err(refused) => refused,
    }
}

const FIRST: &str = "unicorn 1";

const USER: &str = "vertical user 1 1";

// Headers, each with the line and the code at which it is refused, or 0 and 0. A bar stands for a line
// break, and a semicolon ends a row.
const ROWS: &[u8] =
    b"unicorn 1 =1 1;unicorn 1\r=1 1;vertical user 1 1=1 1;unicorn 1|vertical user 64 4|begin=0 0;unicorn 1|vertical user 65 1=2 4;unicorn 1|vertical user 1 5=2 4;unicorn 1|vertical user 01 1=2 1;unicorn 1|vertical user 1 1|vertical user 1 1=3 2;unicorn 1|vertical user 1 1|type lives word user target forward=3 5;unicorn 1|vertical user 1 1|type lives word word both index=3 3;unicorn 1|vertical user 1 1|type lives word user target index|deny lives=4 7";

// A row's header, line and code.
fn row_of(row: &[u8]) -> Option<(&[u8], u128, u128)> {
    let (text, answer) = cut_at(row, b'=')?;
    let (line, code) = cut_at(answer, b' ')?;
    Some((text, read_number(line)?, read_number(code)?))
}

// Further such headers.
const MORE_ROWS: &[u8] =
    b"unicorn 1|vertical user 1 0=2 4;unicorn 1|vertical user 99999999999999999999 1=2 4;unicorn 1|vertical user 999999999999999999999 1=2 1;unicorn 1|vertical aaaaaaaabbbbbbbbccccccccdddddddd 1 1|begin=0 0;unicorn 1|vertical aaaaaaaabbbbbbbbccccccccdddddddde 1 1=2 1;unicorn 1|vertical user 1 1|type user user user both index|begin=0 0;unicorn 1|vertical user 1 1|type shows user user both forward|deny shows=4 7;unicorn 1|vertical user 1 1|type blocked user user source index|deny blocked|deny blocked=5 7";

// Fails at the number of the first row whose header is refused otherwise.
fn refuses(alloc: Global, rows: &[u8]) -> Result<(), Fail> {
    for (number, row) in rows.split(|byte| *byte == b';').enumerate() {
        let (text, line, code) = row_of(row).ok_or("no row")?;
        let (at, found) = refused(alloc, text);
        if at as u128 != line || found.map(u128::from) != Some(code) {
            return Err(Fail::new(number));
        }
    }
    Ok(())
}

#[test]
fn the_first_broken_rule_refuses(rt: HostRuntime) -> Result<(), Fail> {
    refuses(rt.alloc(), ROWS)?;
    refuses(rt.alloc(), MORE_ROWS)
}

// At which line, from 0 on, a header is refused that has one line too many of a kind, and how.
fn refused_at(alloc: Global, kind: u32, may_be: u64) -> Result<Option<(u64, SchemaRefusal)>, Fail>
    requires { may_be ≤ 256 }
{
    let mut reader = HeaderReader::new(alloc, Limits::standard());
    for n in 0..1000_u64 {
        let line = line_of(alloc, kind, may_be, n)?;
        match reader.take(n + 1, line.as_bytes()) {
            Ok(true) => return Ok(None),
            Ok(false) => (),
            Err(refusal) => return Ok(Some((n, refusal))),
        }
    }
    Ok(None)
}

// One line more than there may be of each kind, after so many that may be.
#[test]
fn each_kind_of_line_has_a_limit(rt: HostRuntime) -> Result<(), Fail> {
    for (kind, may_be, at) in [(0, 16, 18), (1, 256, 258), (2, 8, 19)] {
        let refused = refused_at(rt.alloc(), kind, may_be)?;
        if refused != Some((at, SchemaRefusal::TooMany(at + 1))) {
            return Err(Fail::new(kind));
        }
    }
    Ok(())
}

// Line n, from 0 on, of a header that has one line too many of a kind: verticals, types or deny lines.
fn line_of(alloc: Global, kind: u32, may_be: u64, n: u64) -> Result<String, Fail>
    requires { may_be ≤ 256 }
{
    Ok(match (n, kind) {
        (0, _) => String::from_str(alloc, FIRST)?,
        (1, 0) => String::from_str(alloc, "# verticals")?,
        (1, _) => String::from_str(alloc, USER)?,
        (_, 0) => format!(in alloc; "vertical v{n} 1 1")?,
        (_, 1) => format!(in alloc; "type t{n} user user both index")?,
        _ => {
            if n < 2 + 9 {
                format!(in alloc; "type t{n} user user both index")?
            } else {
                let no = n - 9;
                format!(in alloc; "deny t{no}")?
            }
        }
    })
}

// What the first line is taken as, a byte and so many others after it.
fn first_line(alloc: Global, first: u8, others: u32) -> Result<Result<bool, SchemaRefusal>, Fail> {
    let mut line = Vec::new(alloc);
    line.push(first)?;
    for _ in 0..others {
        line.push(b'x')?;
    }
    let mut reader = HeaderReader::new(alloc, Limits::standard());
    Ok(reader.take(1, line.as_slice()))
}

// A line that is as long as a line may be, and one that is longer.
#[test]
fn a_header_line_may_be_too_long(rt: HostRuntime) -> Result<(), Fail> {
    for others in [65_535, 65_536] {
        let comment = first_line(rt.alloc(), b'#', others)?;
        let other = first_line(rt.alloc(), b'x', others)?;
        if comment != Ok(false) || other != Err(SchemaRefusal::BadLine(1)) {
            return Err(Fail::new(others));
        }
    }
    Ok(())
}

// A header with two verticals and four types.
const PEOPLE: &[u8] =
    b"unicorn 2|vertical user 2 2|vertical photo 1 1|type friend user user both index|type lives word user target index|type shows photo user source forward|type blocked user user source index|deny blocked|begin";

fn people(alloc: Global) -> Result<Schema, Fail> {
    match open(alloc, PEOPLE) {
        Ok(schema) => Ok(schema),
        Err(_) => Err("refused")?,
    }
}

// Its lines, each with an LF.
fn people_lines(alloc: Global) -> Result<Text, Fail> {
    let mut lines = Rows::new(alloc);
    for byte in PEOPLE {
        lines.push(if *byte == b'|' { b'\n' } else { *byte })?;
    }
    lines.push(b'\n')?;
    Ok(lines)
}

// Whether the print of its schema has these lines.
fn is_printed(alloc: Global, schema: &Schema) -> Result<bool, Fail> {
    let lines = people_lines(alloc)?;
    let print = print_header(alloc, schema)?;
    Ok(print.as_slice() == lines.as_slice())
}

// The print of that header has its lines, in the order in which a print has them.
#[test]
fn a_print_has_the_lines_of_its_header(rt: HostRuntime) -> Result<(), Fail> {
    let schema = people(rt.alloc())?;
    assert!(rt; is_printed(rt.alloc(), &schema)?);
    Ok(())
}

// Whether names have their numbers. That of a type is none of a vertical.
fn has_names(schema: &Schema) -> Option<bool> {
    let photo = Word::read(b"photo")?;
    let shows = Word::read(b"shows")?;
    Some(
        schema.format() == 2
            && schema.vertical_no(&photo) == Some(1)
            && schema.vertical_no(&shows).is_none()
            && schema.type_no(&shows) == Some(2),
    )
}

#[test]
fn names_have_numbers(rt: HostRuntime) -> Result<(), Fail> {
    let schema = people(rt.alloc())?;
    assert!(rt; has_names(&schema) == Some(true));
    Ok(())
}

// Whether the types are as their lines say.
fn has_types(schema: &Schema) -> bool {
    if schema.types() != 4 {
        return false;
    }
    let shows = schema.type_def(2);
    let blocked = schema.type_def(3);
    shows.origin == Origin::Vertical(1)
        && shows.target == 0
        && shows.owner == Owner::Source
        && shows.store == Store::Forward
        && !shows.deny
        && blocked.deny
}

#[test]
fn types_are_as_their_lines_say(rt: HostRuntime) -> Result<(), Fail> {
    let schema = people(rt.alloc())?;
    assert!(rt; has_types(&schema));
    Ok(())
}

// Whether a user's friendship with itself is owned by it at both ends, and stands in shard 1.
fn is_owned(schema: &Schema, user: EntityId) -> bool {
    if schema.types() != 4 || schema.verticals() != 2 {
        return false;
    }
    let edge = EdgeRef {
        type_no: 0,
        key: Key::Id(user),
        target: user,
    };
    let owners = schema.owners(&edge);
    schema.shard_of(0, user) == 1 && owners.first == Some(user) && owners.second == Some(user)
}

#[test]
fn edges_have_owners_and_shards(rt: HostRuntime) -> Result<(), Fail> {
    let schema = people(rt.alloc())?;
    let five = EntityId::new(5).ok_or("no id")?;
    assert!(rt; is_owned(&schema, five));
    Ok(())
}
