//! Versions that are rebuilt from the changes of their publishes.
use crate::tests::{HEADER, is_put, schema};
use shard_index::Version;
use std::alloc::Global;
use std::sync::Arc;
use uni_base::Limits;
use uni_table::Table;

// The changes of a publish, which bars part: ranks that say its number, an edge that comes and goes, and one
// that ends two publishes later.
pub(super) fn changes(alloc: Global, number: u64) -> Option<String> {
    let end = number.checked_add(2)?;
    let friend = if number.is_multiple_of(2) {
        "cut friend 1 2"
    } else {
        "edge friend 1 2 public"
    };
    let changes = format!(in alloc;
        "entity user 2 {number}|entity user 1 {number}|{friend}|edge lives rome 1 public until {end}"
    );
    changes.ok()
}

// A table to which the changes of so many publishes were put.
#[derive(Drop)]
pub(super) struct Rebuilt {
    table: Table,
    publishes: u64,
}

impl Rebuilt {
    pub(super) fn new(alloc: Global) -> Option<Rebuilt> {
        let schema = Arc::new(alloc, schema(alloc, HEADER)?).ok()?;
        Some(Rebuilt {
            table: Table::new(alloc, schema, Limits::standard()),
            publishes: 0,
        })
    }

    fn publish(&mut self, alloc: Global, number: u64) -> Option<()> {
        let changes = changes(alloc, number)?;
        for line in changes.as_bytes().split(|byte| *byte == b'|') {
            if !is_put(&mut self.table, line) {
                return None;
            }
        }
        self.table.end(number);
        self.table.begin_batch();
        self.publishes = number;
        Some(())
    }

    // The version of a number, which is none before the last one that was asked for.
    pub(super) fn version(&mut self, alloc: Global, number: u64) -> Option<Version> {
        for before in self.publishes..number {
            self.publish(alloc, before + 1)?;
        }
        Version::of_table(alloc, &self.table, number).ok()
    }
}
