//! What a table lists of a batch, beside what a step says.
use super::listing::{is_audience, is_edge};
use super::reading::{number, part};
use uni_base::{Fields, read_between, read_id};
use uni_table::{EdgeChange, EdgeRow, EntityChange, EntityRow, Table};

// Whether an entity is `VERTICAL/RANK`, or `-` for none.
fn is_entity_row(row: Option<EntityRow>, text: &[u8]) -> bool {
    match row {
        Some(row) => {
            let (vertical, rank) = part(text, b'/');
            read_between(vertical, 0, 65_535) == Some(row.vertical as u64)
                && read_between(rank, 0, 4_294_967_295) == Some(row.rank.0 as u64)
        }
        None => text == b"-".as_slice(),
    }
}

// Whether an edge is `AUDIENCE END`, or `-` for none.
fn is_edge_row(row: Option<EdgeRow>, text: &[u8]) -> bool {
    match row {
        Some(row) => {
            let (audience, rest) = part(text, b' ');
            is_audience(&row.audience, audience) && number(&mut Fields::of(rest)) == Some(row.end)
        }
        None => text == b"-".as_slice(),
    }
}

// Whether a change of an entity is `ID:BEFORE>AFTER`.
fn is_entity_change(change: &EntityChange, text: &[u8]) -> bool {
    let (id, rows) = part(text, b':');
    let (before, after) = part(rows, b'>');
    read_id(id) == Some(change.id)
        && is_entity_row(change.before, before)
        && is_entity_row(change.after, after)
}

// Whether a change of an edge is `EDGE:BEFORE>AFTER`.
fn is_edge_change(change: &EdgeChange, text: &[u8]) -> bool {
    let (edge, rows) = part(text, b':');
    let (before, after) = part(rows, b'>');
    is_edge(&change.edge, edge)
        && is_edge_row(change.before, before)
        && is_edge_row(change.after, after)
}

// Whether changes of entities are some in order, which commas part.
fn are_entity_changes(changes: &[EntityChange], texts: &[u8]) -> bool {
    let mut rest = texts;
    for change in changes {
        let (text, others) = part(rest, b',');
        if !is_entity_change(change, text) {
            return false;
        }
        rest = others;
    }
    rest.is_empty()
}

// Whether the entities that the batch changed are some.
pub(super) fn has_entity_changes(table: &Table, texts: &[u8]) -> Option<bool> {
    let changes = table.changed_entities().ok()?;
    Some(are_entity_changes(changes.as_slice(), texts))
}

// Whether all entities, as changes of ids that were none, are some.
pub(super) fn has_everyone(table: &Table, texts: &[u8]) -> Option<bool> {
    let changes = table.all_entities().ok()?;
    Some(are_entity_changes(changes.as_slice(), texts))
}

// Whether the edges that the batch changed, or the rank of whose target it changed, are some in order,
// which commas part.
pub(super) fn has_edge_changes(table: &Table, texts: &[u8]) -> Option<bool> {
    let changed = table.changed_edges().ok()?;
    let changes = changed.part(0, changed.len()).ok()?;
    let mut rest = texts;
    for change in changes.as_slice() {
        let (text, others) = part(rest, b',');
        if !is_edge_change(change, text) {
            return Some(false);
        }
        rest = others;
    }
    Some(rest.is_empty())
}
