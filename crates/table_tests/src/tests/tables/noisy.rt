//! Batches in no order, and what a table lists of them beside what it held before.
ghost use Rattle.std.specs.Prelude.{◌<◌, IfSome, length};
ghost use Rattle.uni_table.specs.Commands.{IsDeclared, IsDeclaredAudience};

use uni_base::{EdgeRef, EntityId, Key, Rank, Word};
use uni_schema::Schema;
use uni_table::{AudienceText, Command, EdgeChange, EdgeRow, EntityChange, Table};

// How many ids there are.
const IDS: u64 = 6;

// The greatest end that an edge has.
const LAST_END: u64 = 4;

// The types whose edges are put: friends, and the photos that users are tagged in.
const TYPES: [u16; 2] = [0, 2];

// Numbers in no order, the same at each run.
#[derive(Drop)]
pub(super) struct Noise {
    pub state: u64,
}

impl Noise {
    fn below(&mut self, n: u64) -> u64
        requires { 0 < n }
        ensures { result < n }
    {
        self.state = self
            .state
            .wrapping_mul(6_364_136_223_846_793_005)
            .wrapping_add(1_442_695_040_888_963_407);
        (self.state >> 33) % n
    }
}

fn id(noise: &mut Noise) -> Option<EntityId> {
    EntityId::new(noise.below(IDS) + 1)
}

// An id as text.
fn word(noise: &mut Noise) -> Option<Word> {
    Word::read(&[b'1' + noise.below(IDS) as u8])
}

fn type_no(schema: &Schema, noise: &mut Noise) -> Option<u16>
    ensures { IfSome result (λ number. number < length schema.now.types) }
{
    let number = TYPES[noise.below(2) as usize];
    if number < schema.types() {
        Some(number)
    } else {
        None
    }
}

fn entity(schema: &Schema, noise: &mut Noise) -> Option<Command>
    ensures { IfSome result (IsDeclared schema.now) }
{
    let vertical = noise.below(2) as u16;
    if vertical >= schema.verticals() {
        return None;
    }
    Some(Command::Entity {
        vertical,
        id: id(noise)?,
        rank: Rank(noise.below(3) as u32),
    })
}

// Everybody, the owners alone, or the friends of an id.
fn audience(schema: &Schema, noise: &mut Noise, everybody: AudienceText) -> Option<AudienceText>
    requires { IsDeclaredAudience schema.now everybody }
    ensures { IfSome result (IsDeclaredAudience schema.now) }
{
    match noise.below(3) {
        0 => Some(everybody),
        1 => Some(AudienceText::Only),
        _ => Some(AudienceText::Circle(type_no(schema, noise)?, word(noise)?)),
    }
}

fn edge(schema: &Schema, noise: &mut Noise, everybody: AudienceText) -> Option<Command>
    requires { IsDeclaredAudience schema.now everybody }
    ensures { IfSome result (IsDeclared schema.now) }
{
    Some(Command::Edge {
        type_no: type_no(schema, noise)?,
        key: word(noise)?,
        target: id(noise)?,
        audience: audience(schema, noise, everybody)?,
        until: noise.below(LAST_END + 1),
    })
}

fn cut(schema: &Schema, noise: &mut Noise) -> Option<Command>
    ensures { IfSome result (IsDeclared schema.now) }
{
    Some(Command::Cut {
        type_no: type_no(schema, noise)?,
        key: word(noise)?,
        target: id(noise)?,
    })
}

fn command(schema: &Schema, noise: &mut Noise, everybody: AudienceText) -> Option<Command>
    requires { IsDeclaredAudience schema.now everybody }
    ensures { IfSome result (IsDeclared schema.now) }
{
    match noise.below(12) {
        0 => Some(Command::Gone { id: id(noise)? }),
        1 | 2 => cut(schema, noise),
        3 | 4 | 5 => entity(schema, noise),
        _ => edge(schema, noise, everybody),
    }
}

// Puts a command, which may be refused.
fn put(table: &mut Table, noise: &mut Noise) -> Option<()> {
    let everybody = AudienceText::Public;
    let command = command(table.schema(), noise, everybody)?;
    let _ = table.put(&command);
    Some(())
}

// A batch of up to 11 commands, before which edges may end.
fn batch(table: &mut Table, noise: &mut Noise) -> Option<()> {
    if noise.below(4) == 0 {
        table.end(noise.below(LAST_END + 1));
    }
    for _ in 0..noise.below(12) {
        put(table, noise)?;
    }
    Some(())
}

// Whether the entities that a table lists are those that differ from another table's, by id.
fn are_entities(before: &Table, table: &Table) -> Option<bool> {
    let changes = table.changed_entities().ok()?;
    let mut at = 0usize;
    for number in 1..=IDS {
        let id = EntityId::new(number)?;
        let change = EntityChange {
            id,
            before: before.entity(id),
            after: table.entity(id),
        };
        if change.before != change.after {
            if !changes.get(at).is_some_and(|listed| *listed == change) {
                return Some(false);
            }
            at = at.saturating_add(1);
        }
    }
    Some(at == changes.len())
}

// Whether an edge ends at a publish or before it.
fn is_ending(table: &Table, edge: &EdgeRef, publish: u64) -> Option<bool> {
    for ending in table.ending(publish).ok()?.as_slice() {
        if *ending == *edge {
            return Some(true);
        }
    }
    Some(false)
}

// The number of the publish that ends an edge, or 0.
fn end_of(table: &Table, edge: &EdgeRef) -> Option<u64> {
    for publish in 1..=LAST_END {
        if is_ending(table, edge, publish)? {
            return Some(publish);
        }
    }
    Some(0)
}

fn row_of(table: &Table, edge: &EdgeRef) -> Option<Option<EdgeRow>> {
    let Some(audience) = table.audience(edge) else {
        return Some(None);
    };
    let end = end_of(table, edge)?;
    Some(Some(EdgeRow { audience, end }))
}

fn rank_of(table: &Table, id: EntityId) -> Option<Rank> {
    Some(table.entity(id)?.rank)
}

// The change of an edge from one table to the next, if it differs or leads to an id with another rank.
fn change_of(before: &Table, table: &Table, edge: EdgeRef) -> Option<Option<EdgeChange>> {
    let change = EdgeChange {
        edge,
        before: row_of(before, &edge)?,
        after: row_of(table, &edge)?,
        rank_before: rank_of(before, edge.target),
        rank_after: rank_of(table, edge.target),
    };
    let has_moved = change.rank_before != change.rank_after;
    if change.before != change.after || (change.after.is_some() && has_moved) {
        Some(Some(change))
    } else {
        Some(None)
    }
}

// The place after the changes of the edges of a type and key, if these stand from a place on.
fn place_after(
    before: &Table,
    table: &Table,
    changes: &[EdgeChange],
    at: usize,
    type_no: u16,
    key: Key,
) -> Option<usize> {
    let mut at = at;
    for number in 1..=IDS {
        let target = EntityId::new(number)?;
        let edge = EdgeRef {
            type_no,
            key,
            target,
        };
        if let Some(change) = change_of(before, table, edge)? {
            if *changes.get(at)? != change {
                return None;
            }
            at = at.saturating_add(1);
        }
    }
    Some(at)
}

// Whether the edges that a table lists are those that differ from another table's or lead to an id with
// another rank, by type number, key and target.
fn are_edges(before: &Table, table: &Table) -> Option<bool> {
    let changed = table.changed_edges().ok()?;
    let changes = changed.part(0, changed.len()).ok()?;
    let mut at = 0;
    for type_no in TYPES {
        for number in 1..=IDS {
            let key = Key::Id(EntityId::new(number)?);
            at = place_after(before, table, changes.as_slice(), at, type_no, key)?;
        }
    }
    Some(at == changes.len())
}

// Whether a table lists a batch as it differs from a copy from before.
pub(super) fn is_listed(table: &mut Table, noise: &mut Noise) -> Option<bool> {
    let before = table.copy().ok()?;
    table.begin_batch();
    let is_made = batch(table, noise).is_some();
    Some(is_made && are_changes(&before, table) == Some(true))
}

// Whether a table lists what differs from a copy from before.
fn are_changes(before: &Table, table: &Table) -> Option<bool> {
    Some(are_entities(before, table)? && are_edges(before, table)?)
}
