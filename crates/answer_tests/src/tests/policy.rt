//! Who may see the edges of a small table, worked out by hand.
use super::{HEADER, ROWS, is_put, schema};
use shard_index::Version;
use std::alloc::Global;
use std::sync::Arc;
use std::test::Fail;
use uni_base::{Audience, EdgeRef, Fields, Held, Key, Limits, Word, cut_at, read_between, read_id};
use uni_table::Table;
use viewer_policy::authorised;

// The header without the line that denies. Friends (type 0) are owned by both, where a user lives (1) by the
// user, the photos that users are tagged in (2) by the users, and the users whom a photo shows (3) by the photo.
// Blocking (4) denies.
const NO_DENY: &[u8] =
    b"unicorn 2|vertical user 2 2|vertical photo 1 1|type friend user user both index|type lives word user target index|type tagged user photo source index|type shows photo user source forward|type blocked user user source index|begin";

// User 3 blocks user 6, and user 2 blocks user 5.
const BLOCKED: &[u8] = b"edge blocked 3 6 public|edge blocked 2 5 public";

// An edge as type, key, target and audience, then those who may see it, then those who may not. An
// owner may see it, whatever its audience.
const OWNERS: &[u8] =
    b"0 1 2 only/1 2/3 4 5 9;1 rome 4 only/4/1 2 9;2 3 102 only/3/102 1 9;3 102 4 only/102/4 1 9;0 1 3 public/1 2 3 4 5 9/6";

// An owner who denies counts more than an audience, and less than another owner. It is the source that
// denies, in either place of an owner, and only an owner's word counts.
const DENIED: &[u8] =
    b"0 1 2 public/1 2 6 9/5;2 3 102 public/1 2 5/6;2 6 101 public/3 9/;0 3 6 only/3 6/1 2;0 6 1 public/3 9/;1 rome 3 1:rome/2 4 5/6 1;1 rome 2 1:rome/4 6/5 1;2 1 101 0:1/2 3 5/6 4";

// Circles of either store, whose members are in either shard: the friends of user 1, those who live in
// Rome, and those whom photo 102 shows. A circle that leads nowhere has no members.
const CIRCLES: &[u8] =
    b"2 4 101 0:1/4 2 3 5/1 6 9 101;2 4 101 1:rome/2 4 5 6/1 3 9;3 102 4 3:102/102 4 1/2 3 5 6;2 4 101 3:101/4/1 2 5;2 4 101 3:rome/4/1 2;2 4 101 1:oslo/4/2 5;2 4 101 7:1/4/1 2 3;2 4 101 2:5/4 102/101 5";

// Of an edge of a type that is not declared nobody is an owner.
const UNKNOWN: &[u8] = b"9 1 2 only//1 2 3;9 1 2 public/1 5 9/;9 1 2 1:rome/2 6/1";

// Where no type denies, that a user blocks another is an edge as any, and whom it blocks sees what others see.
const UNDENIED: &[u8] =
    b"0 1 2 public/1 2 5 6 9/;2 3 102 public/1 2 5 6/;0 3 6 only/3 6/1 2;1 rome 2 1:rome/2 4 5 6/1;4 3 6 only/3/6 1";

// Before the first publish nobody denies, and circles have no members.
const NOTHING: &[u8] = b"0 1 2 only/1 2/3;0 1 2 public/5 9/;2 4 101 1:rome/4/2 6";

// The small table with these two rows, as a version.
fn small(alloc: Global, header: &[u8]) -> Result<Version, Fail> {
    let schema = schema(alloc, header).ok_or("no header")?;
    let schema = Arc::new(alloc, schema)?;
    let mut table = Table::new(alloc, schema, Limits::standard());
    if !are_put(&mut table, ROWS) || !are_put(&mut table, BLOCKED) {
        return Err("a row is refused")?;
    }
    Ok(Version::of_table(alloc, &table, 1)?)
}

fn are_put(table: &mut Table, rows: &[u8]) -> bool {
    for line in rows.split(|byte| *byte == b'|') {
        if !is_put(table, line) {
            return false;
        }
    }
    true
}

fn number(text: &[u8]) -> Option<u16> {
    Some(read_between(text, 0, 65_535)? as u16)
}

// An id, or a word that spells none.
fn key(text: &[u8]) -> Option<Key> {
    match read_id(text) {
        Some(id) => Some(Key::Id(id)),
        None => Some(Key::Word(Word::read(text)?)),
    }
}

// `public`, `only`, or a circle: its type and key, with a colon between them.
fn audience(text: &[u8]) -> Option<Audience> {
    match cut_at(text, b':') {
        Some((type_no, of)) => Some(Audience::Circle(number(type_no)?, key(of)?)),
        None if text == b"public".as_slice() => Some(Audience::Public),
        None => Some(Audience::Only),
    }
}

// Whether all of some viewers may see an edge, or none of them.
fn are_told(version: &Version, held: &Held, viewers: &[u8], may: bool) -> bool {
    if viewers.is_empty() {
        return true;
    }
    for viewer in viewers.split(|byte| *byte == b' ') {
        let Some(viewer) = read_id(viewer) else {
            return false;
        };
        if authorised(version, viewer, held) != may {
            return false;
        }
    }
    true
}

// Whether those may see an edge who are before a slash, and those may not who are after it.
fn is_told(version: &Version, held: &Held, viewers: &[u8]) -> bool {
    let (those, others) = cut_at(viewers, b'/').unwrap_or((viewers, b""));
    are_told(version, held, those, true) && are_told(version, held, others, false)
}

// Whether it is as a step says: an edge as its type, key, target and audience, and the viewers.
fn is_met(version: &Version, step: &[u8]) -> Option<bool> {
    let (text, viewers) = cut_at(step, b'/')?;
    let mut fields = Fields::of(text);
    let type_no = number(fields.next()?)?;
    let key = key(fields.next()?)?;
    let target = read_id(fields.next()?)?;
    let audience = audience(fields.next()?)?;
    let held = Held {
        edge: EdgeRef {
            type_no,
            key,
            target,
        },
        audience,
    };
    Some(is_told(version, &held, viewers))
}

// Looks at the edges of steps, which semicolons part. Fails at the number of the first whose edge is told
// otherwise.
fn follow(version: &Version, steps: &[u8]) -> Result<(), Fail> {
    for (number, step) in steps.split(|byte| *byte == b';').enumerate() {
        if is_met(version, step) != Some(true) {
            return Err(Fail::new(number));
        }
    }
    Ok(())
}

#[test]
fn an_owner_sees_its_edges(rt: HostRuntime) -> Result<(), Fail> {
    let version = small(rt.alloc(), HEADER)?;
    follow(&version, OWNERS)
}

#[test]
fn a_denial_comes_before_the_audience(rt: HostRuntime) -> Result<(), Fail> {
    let version = small(rt.alloc(), HEADER)?;
    follow(&version, DENIED)
}

#[test]
fn a_circle_admits_its_members(rt: HostRuntime) -> Result<(), Fail> {
    let version = small(rt.alloc(), HEADER)?;
    follow(&version, CIRCLES)?;
    follow(&version, UNKNOWN)
}

#[test]
fn an_empty_version_denies_nobody(rt: HostRuntime) -> Result<(), Fail> {
    let alloc = rt.alloc();
    let schema = schema(alloc, HEADER).ok_or("no header")?;
    let version = Version::empty(alloc, Arc::new(alloc, schema)?)?;
    follow(&version, NOTHING)
}

#[test]
fn without_such_a_type_nobody_denies(rt: HostRuntime) -> Result<(), Fail> {
    let version = small(rt.alloc(), NO_DENY)?;
    follow(&version, UNDENIED)
}
