//! A feeder, a compactor and three sessions at once.
ghost use Rattle.std.specs.Prelude.{◌≡◌};
ghost use Rattle.turn_lock.specs.Seats.{SeatRests, seat_turns};
ghost use Rattle.version_catalog.specs.Seats.{IsFeederOf, IsCompactorOf, IsSessionOf, settings_of};

use super::rebuilt::{Rebuilt, changes};
use super::{MANY, Opened, is_put};
use crate::tests::alike::are_alike;
use std::alloc::Global;
use std::sync::Wait;
use std::test::Fail;
use std::thread::{Threads, join};
use uni_base::Limits;
use uni_schema::Schema;
use version_catalog::{Catalogue, Compactor, Feeder, Pinned, Session};

// How often the feeder publishes.
const PUBLISHES: u64 = 200;

// Whether lines, which bars part, are changes that the feeder of a catalogue takes.
fn are_put(catalogue: &Catalogue, feeder: &mut Feeder, lines: &[u8]) -> bool
    requires { IsFeederOf catalogue.now feeder.old }
    ensures { IsFeederOf catalogue.now feeder.new }
{
    let mut are_put = true;
    for line in lines.split(|byte| *byte == b'|') {
        are_put &= is_put(catalogue, feeder, line);
    }
    are_put
}

// Whether the changes of a publish are taken, and then published by its number.
fn is_published<R: Wait>(
    rt: &R,
    alloc: Global,
    catalogue: &Catalogue,
    feeder: &mut Feeder,
    number: u64,
) -> Option<bool>
    requires { IsFeederOf catalogue.now feeder.old }
    ensures { IsFeederOf catalogue.now feeder.new }
{
    let changes = changes(alloc, number)?;
    if !are_put(catalogue, feeder, changes.as_bytes()) {
        return Some(false);
    }
    if feeder.turns() >= MANY {
        return None;
    }
    Some(catalogue.publish(rt, feeder) == Ok(number))
}

fn feed<R: Wait>(rt: &R, alloc: Global, catalogue: &Catalogue, mut feeder: Feeder) -> bool
    requires { IsFeederOf catalogue.now feeder }
{
    let mut is_well = true;
    for number in 1..=PUBLISHES {
        is_well &= is_published(rt, alloc, catalogue, &mut feeder, number) == Some(true);
    }
    is_well
}

// Compacts a stack, if there is such a one, and says how many publishes its layer covers.
fn covered<R: Wait>(
    rt: &R,
    catalogue: &Catalogue,
    compactor: &mut Compactor,
    schema: &Schema,
    replica: u32,
) -> Option<u64>
    requires of { IsCompactorOf catalogue.now compactor.old }
    requires schema { schema.now ≡ (settings_of catalogue.now).schema }
    ensures { IsCompactorOf catalogue.now compactor.new }
{
    if compactor.turns() >= MANY || schema.verticals() == 0 {
        return None;
    }
    let declared = schema.vertical(0);
    if 1 >= declared.shards || replica >= declared.replicas {
        return None;
    }
    catalogue.compact(rt, compactor, 0, 1, replica).ok()
}

// Compacts until all is published. The numbers never fall.
fn compact_all<R: Wait>(
    rt: &R,
    catalogue: &Catalogue,
    mut compactor: Compactor,
    schema: &Schema,
) -> bool
    requires of { IsCompactorOf catalogue.now compactor }
    requires schema { schema.now ≡ (settings_of catalogue.now).schema }
{
    let mut rises = true;
    let mut last = 0;
    for turn in 0..MANY {
        let Some(covers) = covered(rt, catalogue, &mut compactor, schema, (turn % 2) as u32) else {
            return false;
        };
        rises &= last <= covers;
        last = covers;
        if last == PUBLISHES {
            return rises;
        }
    }
    false
}

// Whether a pinned version reads as the one that is rebuilt for its number.
fn is_rebuilt(alloc: Global, pinned: &Pinned, rebuilt: &mut Rebuilt) -> Option<bool> {
    let version = rebuilt.version(alloc, pinned.version().publishes())?;
    are_alike(alloc, pinned.version(), &version)
}

// Pins until all is published. The numbers never fall.
fn watch<R: Wait>(
    rt: &R,
    alloc: Global,
    catalogue: &Catalogue,
    mut session: Session,
) -> Option<bool>
    requires { IsSessionOf catalogue.now session × SeatRests session × (seat_turns session ≡ 0) }
{
    let mut rebuilt = Rebuilt::new(alloc)?;
    let mut is_well = true;
    let mut last = 0;
    for _taken in 0..MANY {
        let pinned = catalogue.pin(rt, &mut session).ok()?;
        let number = pinned.version().publishes();
        is_well &= last <= number && is_rebuilt(alloc, &pinned, &mut rebuilt)?;
        last = number;
        if last == PUBLISHES {
            return Some(is_well);
        }
    }
    None
}

fn watch_two<R: Threads + Wait + Sync>(
    rt: &R,
    alloc: Global,
    catalogue: &Catalogue,
    first: Session,
    second: Session,
) -> bool
    requires first { IsSessionOf catalogue.now first × SeatRests first × (seat_turns first ≡ 0) }
    requires second { IsSessionOf catalogue.now second × SeatRests second × (seat_turns second ≡ 0) }
{
    let (one, two) = join(
        rt,
        || -> Option<bool>
            requires { IsSessionOf catalogue.now first × SeatRests first × (seat_turns first ≡ 0) }
        { watch(rt, alloc, catalogue, first) },
        || -> Option<bool>
            requires { IsSessionOf catalogue.now second × SeatRests second × (seat_turns second ≡ 0) }
        { watch(rt, alloc, catalogue, second) },
    );
    one == Some(true) && two == Some(true)
}

fn compact_and_watch<R: Threads + Wait + Sync>(
    rt: &R,
    alloc: Global,
    catalogue: &Catalogue,
    compactor: Compactor,
    schema: &Schema,
    session: Session,
) -> bool
    requires compactor { IsCompactorOf catalogue.now compactor }
    requires schema { schema.now ≡ (settings_of catalogue.now).schema }
    requires session { IsSessionOf catalogue.now session × SeatRests session × (seat_turns session ≡ 0) }
{
    let (compacts, watched) = join(
        rt,
        || -> bool
            requires { IsCompactorOf catalogue.now compactor × (schema.now ≡ (settings_of catalogue.now).schema) }
        { compact_all(rt, catalogue, compactor, schema) },
        || -> Option<bool>
            requires { IsSessionOf catalogue.now session × SeatRests session × (seat_turns session ≡ 0) }
        { watch(rt, alloc, catalogue, session) },
    );
    compacts && watched == Some(true)
}

// What a compactor and three sessions do at once.
fn others<R: Threads + Wait + Sync>(
    rt: &R,
    alloc: Global,
    catalogue: &Catalogue,
    compactor: Compactor,
    schema: &Schema,
    first: Session,
    second: Session,
    third: Session,
) -> bool
    requires compactor { IsCompactorOf catalogue.now compactor }
    requires schema { schema.now ≡ (settings_of catalogue.now).schema }
    requires first { IsSessionOf catalogue.now first × SeatRests first × (seat_turns first ≡ 0) }
    requires second { IsSessionOf catalogue.now second × SeatRests second × (seat_turns second ≡ 0) }
    requires third { IsSessionOf catalogue.now third × SeatRests third × (seat_turns third ≡ 0) }
{
    let (one, two) = join(
        rt,
        || -> bool
            requires { IsCompactorOf catalogue.now compactor × (schema.now ≡ (settings_of catalogue.now).schema) × IsSessionOf catalogue.now first × SeatRests first × (seat_turns first ≡ 0) }
        { compact_and_watch(rt, alloc, catalogue, compactor, schema, first) },
        || -> bool
            requires { IsSessionOf catalogue.now second × SeatRests second × (seat_turns second ≡ 0) × IsSessionOf catalogue.now third × SeatRests third × (seat_turns third ≡ 0) }
        { watch_two(rt, alloc, catalogue, second, third) },
    );
    one && two
}

#[test]
fn all_at_once(rt: HostRuntime) -> Result<(), Fail> {
    let alloc = rt.alloc();
    let opened = Opened::new(&rt, alloc, Limits::standard()).ok_or("no catalogue")?;
    let Opened {
        catalogue,
        mut feeder,
        compactor,
        session: _,
    } = opened;
    if feeder.sessions() > 1 {
        return Err("too many sessions")?;
    }
    let first = catalogue.session(&mut feeder);
    let second = catalogue.session(&mut feeder);
    let third = catalogue.session(&mut feeder);
    let shared = &catalogue;
    let schema = feeder.table().schema().clone()?;
    let of_all: &Schema = &schema;
    let (feeds, others) = join(
        &rt,
        || feed(&rt, alloc, shared, feeder),
        || others(&rt, alloc, shared, compactor, of_all, first, second, third),
    );
    assert!(rt; feeds && others);
    Ok(())
}
