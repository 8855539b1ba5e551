//! The edges of a batch are noted by several threads at once.
ghost use Rattle.std.specs.Prelude.{◌≡◌, ◌<◌, ◌≤◌, length, IfOk, OnOk};
ghost use Rattle.std.specs.List.{All};
ghost use Rattle.std.specs.Thread.{IsSync};
ghost use Rattle.shard_index.specs.Batches.{all_shards};
ghost use Rattle.shard_index.specs.BatchEdges.{AreBlank, AreOfBatch, IsKeptThroughout, NotesRun, run_length};
ghost use Rattle.shard_index.specs.Numbers.{AreFirsts};

use crate::batch::batch_edges::BatchEdges;
use crate::batch::notes::{ShardNotes, append_notes, empty_notes};
use fork_join::fork_both;
use std::alloc::{AllocError, Global};
use std::mem;
use std::thread::Threads;
use uni_table::Table;

/// Fewer than these are not parted.
const LEAST: usize = 1_024;

/// Blank notes of all shards for each worker but one, if there is enough to part. They are made by the caller, and
/// not where they are filled, since what a thread has freed of its own stays with it.
pub(super) fn spare_notes(
    alloc: Global,
    table: &Table,
    firsts: &[usize],
    edges: &BatchEdges<'_>,
    workers: u32,
) -> Result<Vec<Vec<ShardNotes>>, AllocError>
    requires { AreFirsts table.now.schema firsts.now }
    ensures { IfOk result (λ spare. All (AreBlank table.now) spare.items) }
{
    let mut spare = Vec::new(alloc);
    if edges.len() < LEAST {
        return Ok(spare);
    }
    let (terms, postings) = edges.room(table, edges.len() / workers.max(1) as usize);
    for _ in 1..workers {
        spare.push(empty_notes(alloc, table.schema(), firsts, terms, postings)?)?;
    }
    Ok(spare)
}

/// Notes the edges of a batch from one place up to another, by at most one thread more than there are spare notes.
/// What each thread but one notes is noted in some of these, and added in the end. Where a thread can't be started,
/// the caller does its work.
#[cycle(halves)]
pub(super) fn note_among<R: Threads + Sync>(
    rt: &R,
    alloc: Global,
    table: &Table,
    firsts: &[usize],
    edges: &BatchEdges<'_>,
    from: usize,
    to: usize,
    notes: &mut [ShardNotes],
    spare: &mut [Vec<ShardNotes>],
) -> Result<(), AllocError>
    requires within { (from ≤ to) × (to ≤ run_length edges.now) }
    requires edges { AreOfBatch table.now edges.now }
    requires firsts { AreFirsts table.now.schema firsts.now }
    requires count { length notes.old ≡ length (all_shards table.now.schema) }
    requires spare { All (AreBlank table.now) spare.old }
    requires kept { IsKeptThroughout table.now }
    ensures count { length notes.new ≡ length notes.old }
    ensures noted { OnOk result (NotesRun table.now edges.now from to notes.old notes.new) }
{
    let count = to - from;
    if count < LEAST {
        return edges.note(alloc, table, firsts, from, to, notes);
    }
    let few = spare.len() / 2;
    let (front, rest) = spare.split_at_mut(few);
    let Some((later, back)) = rest.split_first_mut() else {
        return edges.note(alloc, table, firsts, from, to, notes);
    };
    let middle = from + count / 2;
    let (done, also) = note_both(
        rt, alloc, table, firsts, edges, from, middle, to, notes, front, later, back,
    );
    done?;
    also?;
    append_notes(notes, mem::replace(later, Vec::new(alloc)))
}

// Notes those of both halves at the same time, the second apart.
#[cycle(halves)]
fn note_both<R: Threads + Sync>(
    rt: &R,
    alloc: Global,
    table: &Table,
    firsts: &[usize],
    edges: &BatchEdges<'_>,
    from: usize,
    middle: usize,
    to: usize,
    notes: &mut [ShardNotes],
    front: &mut [Vec<ShardNotes>],
    later: &mut [ShardNotes],
    back: &mut [Vec<ShardNotes>],
) -> (Result<(), AllocError>, Result<(), AllocError>)
    requires within { (from < middle) × (middle < to) × (to ≤ run_length edges.now) }
    requires edges { AreOfBatch table.now edges.now }
    requires firsts { AreFirsts table.now.schema firsts.now }
    requires count { length notes.old ≡ length (all_shards table.now.schema) }
    requires front { All (AreBlank table.now) front.old }
    requires later { length later.old ≡ length (all_shards table.now.schema) }
    requires back { All (AreBlank table.now) back.old }
    requires kept { IsKeptThroughout table.now }
    ensures count { length notes.new ≡ length notes.old }
    ensures later_count { length later.new ≡ length later.old }
    ensures front { OnOk result.0 (NotesRun table.now edges.now from middle notes.old notes.new) }
    ensures back { OnOk result.1 (NotesRun table.now edges.now middle to later.old later.new) }
{
    fork_both(
        rt,
        &mut || -> Result<(), AllocError>
            requires sync { IsSync R.row }
            requires within { (from ≤ middle) × (middle ≤ run_length edges.now) }
            requires edges { AreOfBatch table.now edges.now }
            requires firsts { AreFirsts table.now.schema firsts.now }
            requires count { length notes.now ≡ length (all_shards table.now.schema) }
            requires spare { All (AreBlank table.now) front.now }
            requires kept { IsKeptThroughout table.now }
            ensures count { length notes.exit.now ≡ length notes.entry.now }
            ensures noted { OnOk result (NotesRun table.entry.now edges.entry.now from middle notes.entry.now notes.exit.now) }
        { note_among(rt, alloc, table, firsts, edges, from, middle, notes, front) },
        &mut || -> Result<(), AllocError>
            requires sync { IsSync R.row }
            requires within { (middle ≤ to) × (to ≤ run_length edges.now) }
            requires edges { AreOfBatch table.now edges.now }
            requires firsts { AreFirsts table.now.schema firsts.now }
            requires count { length later.now ≡ length (all_shards table.now.schema) }
            requires spare { All (AreBlank table.now) back.now }
            requires kept { IsKeptThroughout table.now }
            ensures count { length later.exit.now ≡ length later.entry.now }
            ensures noted { OnOk result (NotesRun table.entry.now edges.entry.now middle to later.entry.now later.exit.now) }
        { note_among(rt, alloc, table, firsts, edges, middle, to, later, back) },
    )
}
