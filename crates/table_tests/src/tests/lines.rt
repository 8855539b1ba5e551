//! Lines of each form and lines of none, in both formats.
ghost use Rattle.feed_reader.specs.Names.{AreOf};

use super::schema;
use feed_reader::{
    FeedLine, LastNames, LineFault, print_feed_line, read_feed_line, read_next_feed_line,
};
use std::alloc::Global;
use std::test::Fail;
use uni_base::{cut_at, read_number};
use uni_schema::Schema;

// Users and photos: friends, where users live, the photos that they are tagged in, the users whom a photo
// shows, and whom a user has blocked.
const HEADER: &[u8] =
    b"vertical user 2 2|vertical photo 1 1|type friend user user both index|type lives word user target index|type tagged user photo source index|type shows photo user source forward|type blocked user user source index|deny blocked|begin";

// Lines, each with its code in format 1 and in format 2, where 0 is that of a line that is read. A semicolon
// ends a row.
static ROWS: [&[u8]; 6] = [
    b"entity user 1 50=0 0;entity user 9999999999999999999 0=0 0;entity user 10000000000000000000 1=0 0;entity user 18446744073709551615 4294967295=0 0;entity user 18446744073709551616 1=11 11;entity user 100000000000000000000 1=11 11;entity user 1 4294967296=11 11;entity user 0 5=11 11;entity user 01 5=11 11;entity user 1 05=11 11;entity user 1=11 11;entity user 1 5 =11 11;entity user 1 5 6=11 11;entity  user 1 5=11 11; entity user 1 5=11 11;entity User 1 5=11 11;entity 1user 1 5=11 11;entity user: 1 5=11 11;entity user 1 5\r=11 11;entity\tuser 1 5=11 11;Entity user 1 5=11 11;entity town 1 5=12 12;entity friend 1 5=12 12;entity town 0 5=11 11;entity =11 11",
    b"gone 77=0 0;gone 0=11 11;gone=11 11;gone =11 11;gone 1 2=11 11;gone +1=11 11;gone 1x=11 11;publish=0 0;publish =11 11;publish 1=11 11;publis=11 11;go=11 11;stats=11 11;compact user 0 0=11 11;ask 9 1 10 friend:1=11 11;=11 11;# gone 1=11 11",
    b"cut friend 1 99=0 0;cut lives rome 2=0 0;cut frend 1 99=12 12;cut friend 1 0=11 11;cut frend 1 099=11 11;cut friend 1 99 public=11 11;cut friend 1=11 11;cut friend Rome 1=11 11",
    b"edge friend 1 2 public=0 0;edge friend 01 2 public=0 0;edge friend rome 2 only=0 0;edge friend abcdefghijklmnopqrstuvwxyz-_0123 2 only=0 0;edge friend abcdefghijklmnopqrstuvwxyz-_01234 2 only=11 11;edge friend 1 02 public=11 11;edge friend 1 2=11 11;edge friend 1 2 =11 11;edge user 1 2 public=12 12;edge frend Rome 2 public=11 11;edge friend 1 2 publicly=11 11;edge friend 1: 2 public=11 11;edge friend 1A 2 public=11 11;edge friend  2 public=11 11;edge friend 1 2 Only=11 11",
    b"edge friend 1 2 in:shows:102=0 0;edge friend 1 2 in:lives:rome=0 0;edge friend 1 2 in:frend:1=12 12;edge frend 1 2 in:frend:1=12 12;edge friend 1 2 in:user:1=12 12;edge friend 1 2 in:friend:=11 11;edge friend 1 2 in::1=11 11;edge friend 1 2 in:friend=11 11;edge friend 1 2 in:friend 1=11 11;edge friend 1 2 in:Friend:1=11 11;edge friend 1 2 in:abcdefghijklmnopqrstuvwxyz-_01234:1=11 11;edge friend 1 2 in:abcdefghijklmnopqrstuvwxyz-_0123:1=12 12;edge friend 1 2 in:frend:1:2=11 11;edge friend 1 2 in:1:1=11 11;edge friend 1 2 on:friend:1=11 11;edge frend 1 2 in:friend:A=11 11",
    b"edge friend 1 2 public until 1=11 0;edge friend 1 2 only until 1048576=11 0;edge friend 1 2 in:shows:102 until 7=11 0;edge friend 1 2 public until 1048577=11 11;edge friend 1 2 public until 0=11 11;edge friend 1 2 public until 01=11 11;edge friend 1 2 public until=11 11;edge friend 1 2 public until =11 11;edge friend 1 2 public until 1 2=11 11;edge friend 1 2 public after 1=11 11;edge frend 1 2 public until 1=11 12;edge friend 1 2 in:frend:1 until 1=11 12;edge frend 1 2 public until 0=11 11;edge frend 1 2 public until 1048577=11 11;edge frend 1 2 public until 01=11 11;cut friend 1 2 until 1=11 11",
];

// The code of a line, with the names that were found before. A line that is read is printed as it was.
fn code(alloc: Global, schema: &Schema, names: &mut LastNames, line: &[u8]) -> Result<u32, Fail>
    requires { AreOf schema.now names.old }
    ensures { AreOf schema.now names.new }
{
    match read_next_feed_line(schema, names, line) {
        Ok(read) => {
            let text = print_feed_line(alloc, schema, &read)?;
            if text.as_slice() != line {
                return Err("another text")?;
            }
            Ok(0)
        }
        Err(fault) => Ok(fault.code()),
    }
}

// A row's line and its codes.
fn row_of(row: &[u8]) -> Option<(&[u8], u128, u128)> {
    let (line, codes) = cut_at(row, b'=')?;
    let (first, second) = cut_at(codes, b' ')?;
    Some((line, read_number(first)?, read_number(second)?))
}

// Fails at the number of the first row that is not so.
fn have_codes(alloc: Global, first: &Schema, second: &Schema, rows: &[u8]) -> Result<(), Fail> {
    let mut first_names = LastNames::new();
    let mut second_names = LastNames::new();
    for (number, row) in rows.split(|byte| *byte == b';').enumerate() {
        let (line, in_first, in_second) = row_of(row).ok_or("no row")?;
        let read_first = code(alloc, first, &mut first_names, line)?;
        let read_second = code(alloc, second, &mut second_names, line)?;
        if read_first as u128 != in_first || read_second as u128 != in_second {
            return Err(Fail::new(number));
        }
    }
    Ok(())
}

fn all_have_codes(alloc: Global, first: &Schema, second: &Schema) -> Result<(), Fail> {
    for rows in ROWS.iter() {
        have_codes(alloc, first, second, rows)?;
    }
    Ok(())
}

#[test]
fn a_line_is_read_or_has_its_fault(rt: HostRuntime) -> Result<(), Fail> {
    let first = schema(rt.alloc(), b"unicorn 1", HEADER).ok_or("no schema")?;
    let second = schema(rt.alloc(), b"unicorn 2", HEADER).ok_or("no schema")?;
    all_have_codes(rt.alloc(), &first, &second)
}

// Whether the first call reads lines, with no names found before.
fn are_read_alone(schema: &Schema) -> bool {
    read_feed_line(schema, b"publish") == Ok(FeedLine::Publish)
        && read_feed_line(schema, b"gone 0") == Err(LineFault::BadLine)
        && read_feed_line(schema, b"cut frend 1 2") == Err(LineFault::UnknownName)
}

#[test]
fn a_line_is_read_alone(rt: HostRuntime) -> Result<(), Fail> {
    let schema = schema(rt.alloc(), b"unicorn 1", HEADER).ok_or("no schema")?;
    assert!(rt; are_read_alone(&schema));
    Ok(())
}
