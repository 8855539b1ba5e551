//! A small schema, with the rows and the changes of tables.
use feed_reader::{FeedLine, read_feed_line};
use std::alloc::Global;
use uni_base::{Limits, cut_at};
use uni_schema::{HeaderReader, Schema};
use uni_table::Table;

mod alike;
mod batches;
mod catalogues;
mod noise;
mod shards;
mod workers;

// Users in two shards of two replicas and photos in one: friends, where users live, the photos that they are
// tagged in, the users whom a photo shows, and those whom a user has blocked. A bar ends a line.
const HEADER: &[u8] =
    b"unicorn 2|vertical user 2 2|vertical photo 1 1|type friend user user both index|type lives word user target index|type tagged user photo source index|type shows photo user source forward|type blocked user user source index|deny blocked|begin";

// Eight entities, and twelve edges.
const ROWS: &[u8] =
    b"entity user 1 50|entity user 2 90|entity user 3 90|entity user 4 10|entity user 5 70|entity user 6 60|entity photo 101 5|entity photo 102 9|edge friend 1 2 public|edge friend 1 3 public|edge friend 1 5 public|edge lives rome 2 public|edge lives rome 4 public|edge lives rome 5 public|edge lives rome 6 public|edge tagged 2 101 public|edge tagged 3 102 public|edge tagged 5 102 public|edge shows 102 4 public|edge shows 102 1 public";

// The schema of a header.
fn schema(alloc: Global, header: &[u8]) -> Option<Schema> {
    let mut reader = HeaderReader::new(alloc, Limits::standard());
    let mut rest = header;
    for line_no in 1..=20 {
        let (line, others) = cut_at(rest, b'|').unwrap_or((rest, b""));
        match reader.take(line_no, line) {
            Ok(true) => return Some(reader.schema()),
            Ok(false) => rest = others,
            Err(_) => return None,
        }
    }
    None
}

// Whether a line is a change that the table takes.
fn is_put(table: &mut Table, line: &[u8]) -> bool {
    let Ok(FeedLine::Change(command)) = read_feed_line(table.schema(), line) else {
        return false;
    };
    table.put(&command).is_ok()
}
