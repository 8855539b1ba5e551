//! All edges of a table, as they are noted of its shards.
ghost use Rattle.std.specs.Prelude.{◌≡◌, ◌<◌, ◌≤◌, Some, [], ◌∷◌, length, map, OnOk};
ghost use Rattle.std.specs.List.{All};
ghost use Rattle.uni_schema.specs.Schema.{type_at};
ghost use Rattle.uni_schema.specs.declared.schema.Store.TheVariants.{Index, Forward};
ghost use Rattle.uni_table.specs.Sources.{AreSources, AreTargets};
ghost use Rattle.uni_table.specs.TableState.{IsKept};
ghost use Rattle.shard_index.specs.Batches.{all_shards};
ghost use Rattle.shard_index.specs.FullEdges.{change_to, IsTargetOf, NotesSources};
ghost use Rattle.shard_index.specs.Numbers.{AreFirsts};
ghost use Rattle.shard_index.specs.Notes.{NotesEdges};

use crate::batch::edges::note_kept;
use crate::batch::notes::ShardNotes;
use crate::batch::numbers::{keeper_no, shard_no};
use layer_stack::TermKey;
use posting_lists::Posting;
use std::alloc::{AllocError, Global};
use uni_base::EdgeRef;
use uni_schema::{Store, TypeDef};
use uni_table::{EdgeChange, EdgeRow, EdgeSources, Source, Table, Target, TargetList};

/// Notes the edges of the types and keys from one place up to another, each in the shard that keeps it: type by type
/// and key by key, and there in rank order.
pub(super) fn note_sources(
    alloc: Global,
    table: &Table,
    firsts: &[usize],
    sources: &EdgeSources<'_>,
    from: usize,
    to: usize,
    notes: &mut [ShardNotes],
) -> Result<(), AllocError>
    requires within { (from ≤ to) × (to ≤ length sources.now.sources) }
    requires sources { AreSources (length table.now.schema.types) table.now.contents sources.now }
    requires firsts { AreFirsts table.now.schema firsts.now }
    requires count { length notes.old ≡ length (all_shards table.now.schema) }
    requires kept { IsKept table.now.schema table.now.limits table.now.contents }
    ensures count { length notes.new ≡ length notes.old }
    ensures noted { OnOk result (NotesSources table.now sources.now.sources from to notes.old notes.new) }
{
    let mut list = TargetList::new(alloc);
    for at in from..to {
        sources.read(at, &mut list)?;
        let source = sources.source(at);
        note_source(alloc, table, firsts, &source, list.as_slice(), notes)?;
    }
    Ok(())
}

// Notes the edges of a type and key, each in the shard that keeps it.
fn note_source(
    alloc: Global,
    table: &Table,
    firsts: &[usize],
    source: &Source,
    targets: &[Target],
    notes: &mut [ShardNotes],
) -> Result<(), AllocError>
    requires declared { source.now.type_no < length table.now.schema.types }
    requires targets { All (IsTargetOf table.now.contents source.now) targets.now }
    requires firsts { AreFirsts table.now.schema firsts.now }
    requires count { length notes.old ≡ length (all_shards table.now.schema) }
    requires kept { IsKept table.now.schema table.now.limits table.now.contents }
    ensures count { length notes.new ≡ length notes.old }
    ensures noted { OnOk result (NotesEdges table.now (map (change_to table.now.contents source.now) targets.now) notes.old notes.new) }
{
    let type_def = table.schema().type_def(source.type_no);
    for target in targets {
        note_target(alloc, table, firsts, type_def, source, target, notes)?;
    }
    Ok(())
}

// Notes an edge in the shard that keeps it.
fn note_target(
    alloc: Global,
    table: &Table,
    firsts: &[usize],
    type_def: &TypeDef,
    source: &Source,
    target: &Target,
    notes: &mut [ShardNotes],
) -> Result<(), AllocError>
    requires declared { type_at table.now.schema source.now.type_no ≡ Some type_def.now }
    requires target { IsTargetOf table.now.contents source.now target.now }
    requires firsts { AreFirsts table.now.schema firsts.now }
    requires count { length notes.old ≡ length (all_shards table.now.schema) }
    requires kept { IsKept table.now.schema table.now.limits table.now.contents }
    ensures count { length notes.new ≡ length notes.old }
    ensures noted { OnOk result (NotesEdges table.now (change_to table.now.contents source.now target.now ∷ []) notes.old notes.new) }
{
    match type_def.store {
        Store::Index => note_posting_to(table, firsts, type_def, source, target, notes),
        Store::Forward => note_edge_to(alloc, table, firsts, type_def, source, target, notes),
    }
}

// Notes an edge of an index type in the shard of its target.
fn note_posting_to(
    table: &Table,
    firsts: &[usize],
    type_def: &TypeDef,
    source: &Source,
    target: &Target,
    notes: &mut [ShardNotes],
) -> Result<(), AllocError>
    requires declared { type_at table.now.schema source.now.type_no ≡ Some type_def.now }
    requires store { type_def.now.store ≡ Index }
    requires target { IsTargetOf table.now.contents source.now target.now }
    requires firsts { AreFirsts table.now.schema firsts.now }
    requires count { length notes.old ≡ length (all_shards table.now.schema) }
    ensures count { length notes.new ≡ length notes.old }
    ensures noted { OnOk result (NotesEdges table.now (change_to table.now.contents source.now target.now ∷ []) notes.old notes.new) }
{
    if let Some(number) = shard_no(table.schema(), firsts, type_def.target, target.doc.id) {
        let key = source.key;
        let term = TermKey {
            type_no: source.type_no,
            key,
        };
        let posting = Posting {
            key: target.doc,
            audience: target.audience,
        };
        notes[number].postings.put(term, posting)?;
    }
    Ok(())
}

// Notes an edge of a forward type in the shard of its source.
fn note_edge_to(
    alloc: Global,
    table: &Table,
    firsts: &[usize],
    type_def: &TypeDef,
    source: &Source,
    target: &Target,
    notes: &mut [ShardNotes],
) -> Result<(), AllocError>
    requires declared { type_at table.now.schema source.now.type_no ≡ Some type_def.now }
    requires store { type_def.now.store ≡ Forward }
    requires target { IsTargetOf table.now.contents source.now target.now }
    requires firsts { AreFirsts table.now.schema firsts.now }
    requires count { length notes.old ≡ length (all_shards table.now.schema) }
    requires kept { IsKept table.now.schema table.now.limits table.now.contents }
    ensures count { length notes.new ≡ length notes.old }
    ensures noted { OnOk result (NotesEdges table.now (change_to table.now.contents source.now target.now ∷ []) notes.old notes.new) }
{
    let key = source.key;
    let edge = EdgeRef {
        type_no: source.type_no,
        key,
        target: target.doc.id,
    };
    if let Some(number) = keeper_no(table.schema(), firsts, type_def, &edge) {
        // Which record it is rests on no end.
        let change = EdgeChange {
            edge,
            before: None,
            after: Some(EdgeRow {
                audience: target.audience,
                end: 0,
            }),
            rank_before: None,
            rank_after: None,
        };
        note_kept(alloc, table, Store::Forward, &change, &mut notes[number])?;
    }
    Ok(())
}
