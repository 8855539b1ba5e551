//! Headers, tables, commands, lines and scripts, and a schema for them.
use std::alloc::Global;
use uni_base::{Limits, cut_at};
use uni_schema::{HeaderReader, Schema};

mod commands;
mod headers;
mod lines;
mod scripts;
mod tables;

// The schema of a header: its first line, and the others, of which bars end each but the last.
fn schema(alloc: Global, first: &[u8], header: &[u8]) -> Option<Schema> {
    let mut reader = HeaderReader::new(alloc, Limits::standard());
    let mut line = first;
    let mut rest = header;
    for line_no in 1..=20 {
        match reader.take(line_no, line) {
            Ok(true) => return Some(reader.schema()),
            Ok(false) => {
                let (next, others) = cut_at(rest, b'|').unwrap_or((rest, b""));
                line = next;
                rest = others;
            }
            Err(_) => return None,
        }
    }
    None
}
