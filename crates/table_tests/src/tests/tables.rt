//! Small tables, and what is listed of them after each change.
use super::schema;
use listing::lists;
use noisy::{Noise, is_listed};
use reading::{changes, part};
use sources::has_sources;
use std::alloc::Global;
use std::sync::Arc;
use std::test::Fail;
use uni_base::{EntityId, Limits, Rank, Word, cut_at};
use uni_table::{AudienceText, Command, Table};

mod changed;
mod listing;
mod noisy;
mod reading;
mod sources;

// After the first line: users in two shards and photos in one: friends, where users live, the photos that they are tagged in,
// and the users whom a photo shows. A bar ends a line.
const HEADER: &[u8] =
    b"vertical user 2 2|vertical photo 1 1|type friend user user both index|type lives word user target index|type tagged user photo source index|type shows photo user source forward|begin";

// Whether a step is as it is to be: a change, or what is listed, `=` and its rows.
fn is_met(table: &mut Table, step: &[u8]) -> bool {
    let met = match cut_at(step, b'=') {
        Some((of, texts)) => lists(table, of, texts),
        None => changes(table, step),
    };
    met == Some(true)
}

// Makes steps, which semicolons part, up to the first that is not as it is to be, and gives its number.
fn wrong_step(table: &mut Table, steps: &[u8]) -> Option<usize> {
    for (number, step) in steps.split(|byte| *byte == b';').enumerate() {
        if !is_met(table, step) {
            return Some(number);
        }
    }
    None
}

// Makes steps. Fails at the number of the first that is not as it is to be.
fn follow(table: &mut Table, steps: &[u8]) -> Result<(), Fail> {
    match wrong_step(table, steps) {
        Some(number) => Err(Fail::new(number)),
        None => Ok(()),
    }
}

// A table of six users, two photos, and twelve edges.
const ROWS: &[u8] =
    b"entity 0 1 50;entity 0 2 90;entity 0 3 90;entity 0 4 10;entity 0 5 70;entity 0 6 60;entity 1 101 5;entity 1 102 9;edge 0 1 5 public 0;edge 0 1 3 public 0;edge 0 1 2 public 0;edge 1 rome 6 public 0;edge 1 rome 2 public 0;edge 1 rome 5 public 0;edge 1 rome 4 public 0;edge 2 5 102 public 0;edge 2 2 101 public 0;edge 2 3 102 public 0;edge 3 102 4 public 0;edge 3 102 1 public 0";

const LISTS: &[u8] =
    b"counts=8 12;friends 1=0 1 2,0 1 3,0 1 5;ranked 0 0=2,6,4;ranked 0 1=3,5,1;ranked 1 0=102,101;touching 3=0 1 3,2 3 102;kept 1 0=2 2 101,2 3 102,2 5 102,3 102 1,3 102 4;kept 0 1=0 1 3,0 1 5,1 rome 5;kept 0 0=0 1 2,1 rome 2,1 rome 4,1 rome 6;everyone=1:->0/50,2:->0/90,3:->0/90,4:->0/10,5:->0/70,6:->0/60,101:->1/5,102:->1/9";

// Where the edges of the small table start, each with what its edges lead to.
const SOURCES: &[u8] = b"0 1:2 3 5,1 rome:2 5 6 4,2 2:101,2 3:102,2 5:102,3 102:1 4";

// A rank moves, one user goes, an edge is cut, and one is put at a new start.
const STARTS: &[u8] =
    b"entity 0 5 95;gone 6;cut 2 2 101;edge 0 4 4 only 0;edge 1 rome 1 0:5 0;everyone=1:->0/50,2:->0/90,3:->0/90,4:->0/10,5:->0/95,101:->1/5,102:->1/9";

const STARTED: &[u8] = b"0 1:5 2 3,0 4:4,1 rome:5 2 1 4,2 2:,2 3:102,2 5:102,3 102:1 4";

// A rank moves, an edge to its own source is put, users go, and what is not there is cut. Then a user that
// is gone is a photo.
const CHANGES: &[u8] =
    b"entity 0 5 95;edge 0 4 4 public 0;gone 3;gone 3;gone 77;cut 0 rome 2;cut 0 1 99;counts=7 11;friends 1=0 1 5,0 1 2;touching 4=0 4 4,1 rome 4,3 102 4;gone 4;entity 1 4 1;counts=7 8;ranked 1 0=102,101,4";

const REFUSALS: &[u8] =
    b"refused 14 edge 0 1 99 public 0;refused 13 edge 0 99 1 public 0;refused 13 edge 0 99 99 3:102 0;refused 14 edge 0 1 99 3:102 0;refused 15 edge 0 1 2 3:102 0;refused 15 edge 0 1 2 0:rome 0;refused 16 entity 1 1 5;refused 13 edge 0 rome 2 public 0;refused 17 edge 3 102 5 public 0;edge 3 102 4 only 0;refused 18 entity 0 7 80;entity 0 1 51;refused 18 edge 0 2 3 public 0;edge 0 1 2 only 0;cut 3 102 1;edge 3 102 5 public 0;counts=8 12";

// The second edge's end is taken away, and the last one's is moved.
const ENDS: &[u8] =
    b"edge 0 1 4 public 3;edge 0 1 2 public 2;edge 0 1 2 public 0;edge 0 1 6 public 1;edge 0 2 6 public 1048576;edge 0 2 5 public 2;edge 0 2 5 public 3;ending 0=;ending 1=0 1 6;ending 2=0 1 6;ending 3=0 1 6,0 1 4,0 2 5;end 2;friends 1=0 1 2,0 1 3,0 1 5,0 1 4;end 3;friends 1=0 1 2,0 1 3,0 1 5;ending 1048576=0 2 6;counts=8 13";

const COPIED: &[u8] = b"counts=8 12;friends 1=0 1 2,0 1 3,0 1 5;audience 0 1 2=public";

// An edge that was cut is put again, with a circle.
const CUT: &[u8] = b"cut 0 1 2;edge 0 1 2 0:5 0;cut 0 1 3;counts=8 11;audience 0 1 2=0:5";

// Before the first batch begins, all that stands is new.
const BEGUN: &[u8] =
    b"entity 0 1 50;entity 1 7 2;edge 0 1 1 only 0;edge 2 1 7 0:1 3;cut 0 1 1;entities changed=1:->0/50,7:->1/2;edges changed=2 1 7:->0:1 3;begin;entities changed=;edges changed=;begin;entities changed=;edges changed=";

// A user's rank changes, and with it the edges that lead there; then it changes back. After the next batch
// has begun nothing is listed.
const MOVED: &[u8] =
    b"edge 0 5 1 public 0;begin;entity 0 5 95;entities changed=5:0/70>0/95;edges changed=0 1 5:public 0>public 0,1 rome 5:public 0>public 0;entity 0 5 70;entities changed=;edges changed=;entity 0 5 95;begin;entities changed=;edges changed=;entity 0 5 95;entities changed=;edges changed=;entity 0 5 70;entities changed=5:0/95>0/70;begin;refused 14 edge 0 1 99 public 0;entities changed=;edges changed=";

// An edge that is cut and put again, with the same row and with others.
const PUT_AGAIN: &[u8] =
    b"begin;cut 0 1 2;edges changed=0 1 2:public 0>-;edge 0 1 2 public 0;edges changed=;cut 0 1 2;edge 0 1 2 only 0;edges changed=0 1 2:public 0>only 0;edge 0 1 2 0:5 7;edges changed=0 1 2:public 0>0:5 7;entities changed=;begin;edges changed=;cut 0 1 2;edge 0 1 2 0:5 7;edges changed=;edge 0 1 2 0:3 7;edges changed=0 1 2:0:5 7>0:3 7;edge 0 1 2 0:5 8;edges changed=0 1 2:0:5 7>0:5 8;edge 0 2 4 only 0;edges changed=0 1 2:0:5 7>0:5 8,0 2 4:->only 0;cut 0 2 4;edge 0 1 2 0:5 7;edges changed=";

// A user goes, is added as a photo, and then as it was, with one of its edges.
const ELSEWHERE: &[u8] =
    b"begin;gone 4;entities changed=4:0/10>-;edges changed=1 rome 4:public 0>-,3 102 4:public 0>-;entity 1 4 10;entities changed=4:0/10>1/10;edge 2 1 4 public 0;edges changed=1 rome 4:public 0>-,2 1 4:->public 0,3 102 4:public 0>-;gone 4;entity 0 4 10;edge 1 rome 4 public 0;entities changed=;edges changed=3 102 4:public 0>-;entity 0 4 11;entities changed=4:0/10>0/11;edges changed=1 rome 4:public 0>public 0,3 102 4:public 0>-";

// Ends come, and one is put off.
const ENDED: &[u8] =
    b"edge 0 1 4 public 2;edge 0 1 2 only 3;begin;end 2;entities changed=;edges changed=0 1 4:public 2>-;end 3;edges changed=0 1 2:only 3>-,0 1 4:public 2>-;begin;edges changed=;edge 0 1 3 public 9;edges changed=0 1 3:public 0>public 9;begin;end 8;edges changed=;end 9;edges changed=0 1 3:public 9>-";

fn empty(alloc: Global, limits: Limits) -> Result<Table, Fail> {
    let schema = schema(alloc, b"unicorn 2", HEADER).ok_or("no schema")?;
    Ok(Table::new(alloc, Arc::new(alloc, schema)?, limits))
}

fn small(alloc: Global, limits: Limits) -> Result<Table, Fail> {
    let mut table = empty(alloc, limits)?;
    follow(&mut table, ROWS)?;
    Ok(table)
}

// Makes steps over the small table.
fn follow_small(alloc: Global, limits: Limits, steps: &[u8]) -> Result<(), Fail> {
    let mut table = small(alloc, limits)?;
    follow(&mut table, steps)
}

// Makes steps over the small table, and then others over a copy of what it was before.
fn follow_beside(alloc: Global, steps: &[u8], copied: &[u8]) -> Result<(), Fail> {
    let mut table = small(alloc, Limits::standard())?;
    beside(&mut table, steps, copied)
}

fn beside(table: &mut Table, steps: &[u8], copied: &[u8]) -> Result<(), Fail> {
    let mut copy = table.copy()?;
    follow(table, steps)?;
    follow(&mut copy, copied)
}

// Limits that the small table fills.
fn tight() -> Limits {
    Limits {
        entities: 8,
        edges: 12,
        forward: 2,
        ..Limits::standard()
    }
}

const PHOTO: &[u8] = b"entity 1 100 1";

const FULL: &[u8] = b"refused 17 edge 3 100 65 public 0;edge 3 100 64 only 9;counts=66 64";

// Makes steps over the small table, and looks at where its edges start then.
fn start_after(alloc: Global, steps: &[u8], sources: &[u8]) -> Result<(), Fail> {
    let mut table = small(alloc, Limits::standard())?;
    follow(&mut table, steps)?;
    match has_sources(alloc, &table, sources)? {
        true => Ok(()),
        false => Err(Fail::from("other sources")),
    }
}

#[test]
fn sources_with_their_targets(rt: HostRuntime) -> Result<(), Fail> {
    start_after(rt.alloc(), LISTS, SOURCES)?;
    start_after(rt.alloc(), STARTS, STARTED)
}

#[test]
fn lists_of_a_small_table(rt: HostRuntime) -> Result<(), Fail> {
    follow_small(rt.alloc(), Limits::standard(), LISTS)
}

#[test]
fn changes_of_a_small_table(rt: HostRuntime) -> Result<(), Fail> {
    follow_small(rt.alloc(), Limits::standard(), CHANGES)
}

#[test]
fn refusals_by_their_first_reason(rt: HostRuntime) -> Result<(), Fail> {
    follow_small(rt.alloc(), tight(), REFUSALS)
}

#[test]
fn ends_come_by_their_number(rt: HostRuntime) -> Result<(), Fail> {
    follow_small(rt.alloc(), Limits::standard(), ENDS)
}

#[test]
fn a_copy_stays_as_it_is(rt: HostRuntime) -> Result<(), Fail> {
    follow_beside(rt.alloc(), CUT, COPIED)
}

#[test]
fn a_batch_of_nothing_lists_nothing(rt: HostRuntime) -> Result<(), Fail> {
    let mut table = empty(rt.alloc(), Limits::standard())?;
    follow(&mut table, BEGUN)
}

#[test]
fn a_rank_lists_what_leads_there(rt: HostRuntime) -> Result<(), Fail> {
    follow_small(rt.alloc(), Limits::standard(), MOVED)
}

#[test]
fn an_edge_is_put_again(rt: HostRuntime) -> Result<(), Fail> {
    follow_small(rt.alloc(), Limits::standard(), PUT_AGAIN)
}

#[test]
fn a_user_is_added_elsewhere(rt: HostRuntime) -> Result<(), Fail> {
    follow_small(rt.alloc(), Limits::standard(), ELSEWHERE)
}

#[test]
fn edges_that_ended_are_listed(rt: HostRuntime) -> Result<(), Fail> {
    follow_small(rt.alloc(), Limits::standard(), ENDED)
}

// Of batches in no order each row is listed that differs from a copy from before, and no other. Fails at the
// number of the first of which that is not so.
fn are_listed(alloc: Global, batches: u64) -> Result<(), Fail> {
    let mut table = empty(alloc, Limits::standard())?;
    let mut noise = Noise { state: 1 };
    for number in 0..batches {
        if is_listed(&mut table, &mut noise) != Some(true) {
            return Err(Fail::new(number));
        }
    }
    Ok(())
}

#[test]
fn noisy_batches_are_listed(rt: HostRuntime) -> Result<(), Fail> {
    are_listed(rt.alloc(), 200)
}

// Adds a user, and the edge by which photo 100 shows that user. Whether the edge is taken.
fn shows(table: &mut Table, user: u64) -> Option<bool> {
    let id = EntityId::new(user)?;
    if table.schema().verticals() == 0 {
        return None;
    }
    let user = Command::Entity {
        vertical: 0,
        id,
        rank: Rank(1),
    };
    table.put(&user).ok()?;
    if table.schema().types() <= 3 {
        return None;
    }
    let shown = Command::Edge {
        type_no: 3,
        key: Word::read(b"100")?,
        target: id,
        audience: AudienceText::Public,
        until: 0,
    };
    Some(table.put(&shown).is_ok())
}

// Whether photo 100 can show 64 users and no more.
fn shows_sixty_four(table: &mut Table) -> bool {
    for user in 1..=64 {
        if shows(table, user) != Some(true) {
            return false;
        }
    }
    shows(table, 65) == Some(false)
}

// Whether, once it does, it shows no other one, but one of them again.
fn is_full(table: &mut Table) -> bool {
    wrong_step(table, PHOTO).is_none()
        && shows_sixty_four(table)
        && wrong_step(table, FULL).is_none()
}

#[test]
fn sixty_four_forward_edges(rt: HostRuntime) -> Result<(), Fail> {
    let mut table = empty(rt.alloc(), Limits::standard())?;
    assert!(rt; is_full(&mut table));
    Ok(())
}
