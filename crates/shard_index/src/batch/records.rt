//! What a batch changed of a forward record.
ghost use Rattle.std.specs.Prelude.{◌≡◌, ◌<◌, length, map, IfOk, IfSome, OnOk};
ghost use Rattle.uni_table.specs.TableState.{IsKept};
ghost use Rattle.shard_index.specs.ChangedRows.{same_audiences, audience_of, changed_key, replacing_new, latest, items_of, is_record, target_row, row_item};

use crate::batch::postings::same_audience;
use forward_data::{ForwardDelta, ForwardItem, ForwardItems, RecordKey};
use layer_base::last_words;
use std::alloc::{AllocError, Global};
use uni_base::{Audience, EntityId, Held, Key};
use uni_table::{EdgeChange, EdgeRow, Table};

/// Notes the record of a forward edge that changed, as it is now, unless it is the last one that was
/// replaced. The changes are in the order of edges, so each record is read once.
pub(super) fn note_record(
    alloc: Global,
    table: &Table,
    change: &EdgeChange,
    records: &mut ForwardDelta,
    last: &mut Option<RecordKey>,
) -> Result<(), AllocError>
    requires declared { change.now.edge.type_no < length table.now.schema.types }
    requires kept { IsKept table.now.schema table.now.limits table.now.contents }
    ensures records { OnOk result (records.new ≡ replacing_new table.now.contents records.old last.old (changed_key change.now)) }
    ensures last { OnOk result (last.new ≡ latest last.old (changed_key change.now)) }
{
    let Some(key) = changed_key(change) else {
        return Ok(());
    };
    if is_record(&key, last) {
        return Ok(());
    }
    let items = items_of(alloc, table, &key)?;
    records.replace(key.type_no, key.id, items)?;
    *last = Some(key);
    Ok(())
}

// Whether a key is that of a record.
fn is_record(key: &RecordKey, last: &Option<RecordKey>) -> bool
    ensures { result ≡ is_record key.now last.now }
{
    match last {
        Some(other) => key.cmp(other).is_eq(),
        None => false,
    }
}

// The record that changes with a forward edge.
fn changed_key(change: &EdgeChange) -> Option<RecordKey>
    ensures is { result ≡ changed_key change.now }
    ensures type_no { IfSome result (λ k. k.type_no ≡ change.now.edge.type_no) }
{
    if same_audiences(&change.before, &change.after) {
        return None;
    }
    let Key::Id(id) = change.edge.key else {
        return None;
    };
    Some(RecordKey {
        type_no: change.edge.type_no,
        id,
    })
}

// Whether the audiences of two rows are the same.
fn same_audiences(one: &Option<EdgeRow>, other: &Option<EdgeRow>) -> bool
    ensures { result ≡ same_audiences (audience_of one.now) (audience_of other.now) }
{
    match (one, other) {
        (None, None) => true,
        (Some(one), Some(other)) => same_audience(&one.audience, &other.audience),
        _ => false,
    }
}

// The edges that the table has of a record, in the order of their targets.
fn items_of(alloc: Global, table: &Table, key: &RecordKey) -> Result<ForwardItems, AllocError>
    requires declared { key.now.type_no < length table.now.schema.types }
    requires kept { IsKept table.now.schema table.now.limits table.now.contents }
    ensures { IfOk result (λ items. items ≡ items_of table.now.contents key.now) }
{
    let reached = table.reached(key.type_no, &Key::Id(key.id))?;
    let targets = target_rows(alloc, reached.as_slice())?;
    let rows = last_words(targets)?;
    items(alloc, rows.as_slice())
}

// Edges by their targets, each with its audience.
fn target_rows(alloc: Global, held: &[Held]) -> Result<Vec<(EntityId, Audience)>, AllocError>
    ensures { IfOk result (λ rows. rows.items ≡ map target_row held.now) }
{
    let mut rows = Vec::new(alloc);
    for edge in held {
        rows.push((edge.edge.target, edge.audience))?;
    }
    Ok(rows)
}

// The edges of a record.
fn items(alloc: Global, rows: &[(EntityId, Audience)]) -> Result<ForwardItems, AllocError>
    ensures { IfOk result (λ items. items ≡ map row_item rows.now) }
{
    let mut items = ForwardItems::new(alloc);
    for (target, audience) in rows {
        items.push(ForwardItem {
            target: *target,
            audience: *audience,
        })?;
    }
    Ok(items)
}
