//! Tables of a few lines, and questions that are asked of their versions in every way.
ghost use Rattle.std.specs.Prelude.{◌≡◌, ◌<◌, IfSome};
ghost use Rattle.apply_extract.specs.Conditions.{IsAsked, IsStanding};
ghost use Rattle.query_check.specs.Plan.{seen};

use crate::tests::schema;
use apply_extract::{answer, answer_here};
use query_check::{Checked, check};
use query_reader::read_query;
use rack_aggregate::OpenGate;
use replica_pick::{Chooser, FirstChooser, TurnChooser};
use shard_index::Version;
use std::alloc::Global;
use std::sync::{Arc, Wait};
use std::test::Fail;
use std::thread::Threads;
use uni_base::{EntityId, Limits, cut_at, read_between, read_id};
use uni_meaning::{Hit, Reply, plain_answer};
use uni_schema::Schema;
use uni_table::Table;

// Always the last replica.
struct LastChooser;

impl Chooser for LastChooser {
    fn pick(&self, _vertical: u16, _shard: u32, _turn: u64, replicas: u32) -> u32 {
        replicas - 1
    }
}

/// A table without rows.
pub(super) fn nothing(alloc: Global, header: &[u8]) -> Result<Table, Fail> {
    let Some(schema) = schema(alloc, header) else {
        return Err("no header")?;
    };
    Ok(Table::new(alloc, Arc::new(alloc, schema)?, Limits::standard()))
}

/// The version of a table.
pub(super) fn version_of(alloc: Global, table: &Table) -> Option<Version>
    ensures standing { IfSome result (λ version. IsStanding version) }
    ensures same { IfSome result (λ version. version.schema ≡ table.now.schema) }
{
    // `schema` says that the table keeps what tables keep.
    let _ = table.schema();
    match Version::of_table(alloc, table, 1) {
        Ok(version) => Some(version),
        Err(_) => None,
    }
}

// The query of a text under a schema.
fn query(alloc: Global, schema: &Schema, text: &[u8]) -> Option<Checked>
    ensures { IfSome result (λ query. IsAsked schema.now (seen query)) }
{
    // The weights of a query that was read are shares.
    apply_extract::laws::within_has_shares();
    let limits = Limits::standard();
    if text.len() > 4096 {
        return None;
    }
    let Ok(query) = read_query(alloc, &limits, 2, text) else {
        return None;
    };
    let Ok(query) = check(alloc, schema, &limits, &query) else {
        return None;
    };
    Some(query)
}

// Whether two hits are of one entity, by the same edges.
fn is_same(hit: &Hit, other: &Hit) -> bool {
    hit.key == other.key && hit.lineage.as_slice() == other.lineage.as_slice()
}

// Whether two replies are the same.
fn are_same(reply: &Reply, other: &Reply) -> bool {
    let hits = reply.hits.as_slice();
    let others = other.hits.as_slice();
    reply.publishes == other.publishes
        && hits.len() == others.len()
        && hits
            .iter()
            .zip(others)
            .all(|(hit, other)| is_same(hit, other))
}

/// A question: who asks, for how many hits, and what.
#[derive(Drop)]
pub(super) struct Question<'a> {
    pub viewer: EntityId,
    pub limit: u32,
    pub text: &'a [u8],
}

/// Reads `VIEWER LIMIT QUERY`.
pub(super) fn read_question(text: &[u8]) -> Option<Question<'_>> {
    let (viewer, rest) = cut_at(text, b' ')?;
    let (limit, text) = cut_at(rest, b' ')?;
    Some(Question {
        viewer: read_id(viewer)?,
        limit: read_between(limit, 1, 5000)? as u32,
        text,
    })
}

// Whether a query has a reply on one thread, whichever replicas are read.
fn is_replied_here(
    alloc: Global,
    version: &Version,
    query: &Checked,
    question: &Question<'_>,
    due: &Reply,
) -> Option<bool>
    requires standing { IsStanding version.now }
    requires typed { IsAsked version.now.schema (seen query.now) }
{
    let Question { viewer, limit, .. } = question;
    let first = answer_here(alloc, version, query, *viewer, *limit, 33, &FirstChooser).ok()?;
    let turn = answer_here(alloc, version, query, *viewer, *limit, 33, &TurnChooser).ok()?;
    let last = answer_here(alloc, version, query, *viewer, *limit, 34, &LastChooser).ok()?;
    Some(are_same(due, &first) && are_same(due, &turn) && are_same(due, &last))
}

// Whether it has it by so many workers, where replicas are chosen so.
fn is_replied_by<C: Chooser + Sync>(
    rt: &(impl Threads + Wait + Sync),
    alloc: Global,
    workers: u32,
    version: &Version,
    query: &Checked,
    question: &Question<'_>,
    due: &Reply,
    chooser: &C,
) -> Option<bool>
    requires standing { IsStanding version.now }
    requires typed { IsAsked version.now.schema (seen query.now) }
{
    let Question { viewer, limit, .. } = question;
    let reply = answer(
        rt, alloc, version, query, *viewer, *limit, 33, workers, chooser, &OpenGate,
    );
    Some(are_same(due, &reply.ok()?))
}

// Whether it has it by so many workers, whichever replicas are read.
fn is_replied_by_all(
    rt: &(impl Threads + Wait + Sync),
    alloc: Global,
    workers: u32,
    version: &Version,
    query: &Checked,
    question: &Question<'_>,
    due: &Reply,
) -> Option<bool>
    requires standing { IsStanding version.now }
    requires typed { IsAsked version.now.schema (seen query.now) }
{
    let first = is_replied_by(
        rt,
        alloc,
        workers,
        version,
        query,
        question,
        due,
        &FirstChooser,
    )?;
    let turn = is_replied_by(
        rt,
        alloc,
        workers,
        version,
        query,
        question,
        due,
        &TurnChooser,
    )?;
    let last = is_replied_by(
        rt,
        alloc,
        workers,
        version,
        query,
        question,
        due,
        &LastChooser,
    )?;
    Some(first && turn && last)
}

/// Whether a question has one and the same reply of a table by the definitions, and of its version on one
/// thread and by so many workers.
pub(super) fn is_answered(
    rt: &(impl Threads + Wait + Sync),
    alloc: Global,
    workers: &[u32],
    table: &Table,
    version: &Version,
    question: &Question<'_>,
) -> Option<bool>
    requires standing { IsStanding version.now }
    requires same { version.now.schema ≡ table.now.schema }
{
    let query = query(alloc, version.schema(), question.text)?;
    let due = plain_answer(alloc, table, 1, &query, question.viewer, question.limit).ok()?;
    for workers in workers {
        if !is_replied_by_all(rt, alloc, *workers, version, &query, question, &due)? {
            return Some(false);
        }
    }
    is_replied_here(alloc, version, &query, question, &due)
}
