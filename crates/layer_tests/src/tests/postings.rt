//! Posting lists: cursors, and seeks.
ghost use Rattle.std.specs.Prelude.{◌≡◌, ◌<◌, ◌-◌, true, length, get_or, IfOk};
ghost use Rattle.std.specs.Bool.{OnTrue};
ghost use Rattle.posting_lists.specs.Postings.{keys_of};
ghost use Rattle.posting_lists.specs.declared.posting.Posting.{Posting as Row};
ghost use Rattle.uni_base.specs.Cursors.{IsRanked, is_before};

use super::entity;
use posting_lists::{Posting, PostingList, PostingRows};
use std::alloc::Global;
use std::test::Fail;
use uni_base::{Audience, DocCursor, DocKey, Key, Rank, Rows};

// The i-th key of the lists below: ranks fall, so that keys rise in rank order.
fn key(i: u32) -> Result<DocKey, Fail> {
    Ok(DocKey {
        rank: Rank(2_000_000u32.saturating_sub(i)),
        id: entity(u64::from(i) + 1)?,
    })
}

// Three circles of the owner take turns with the two other audiences.
fn audience(owner: &Key, i: u32) -> Audience {
    match i % 5 {
        0 => Audience::Public,
        1 => Audience::Only,
        turn => Audience::Circle(turn as u16, *owner),
    }
}

fn posting(owner: &Key, i: u32) -> Result<Posting, Fail> {
    Ok(Posting {
        key: key(i)?,
        audience: audience(owner, i),
    })
}

fn rows(alloc: Global, owner: &Key, count: u32) -> Result<PostingRows, Fail>
    ensures { IfOk result (λ rows. IsRanked (keys_of rows)) }
{
    let mut rows = Rows::new(alloc);
    fill(&mut rows, owner, count)?;
    Ok(rows)
}

fn fill(rows: &mut PostingRows, owner: &Key, count: u32) -> Result<(), Fail>
    requires { IsRanked (keys_of rows.old) }
    ensures { IsRanked (keys_of rows.new) }
{
    for i in 0..count {
        let audience = audience(owner, i);
        let key = key(i)?;
        push_last(rows, Posting { key, audience })?;
    }
    Ok(())
}

// Adds a posting whose key comes after those of all rows, and passes over any other.
fn push_last(rows: &mut PostingRows, posting: Posting) -> Result<(), Fail>
    requires { IsRanked (keys_of rows.old) }
    ensures { IsRanked (keys_of rows.new) }
{
    if comes_last(rows.as_slice(), &posting) {
        rows.push(posting)?;
    }
    Ok(())
}

fn comes_last(rows: &[Posting], posting: &Posting) -> bool
    ensures { OnTrue result ((d : Row) → 0 < length rows.now → is_before (get_or rows.now (length rows.now - 1) d).key posting.now.key ≡ true) }
{
    match rows {
        [] => true,
        [.., last] => last.key < posting.key,
    }
}

fn list(alloc: Global, owner: &Key, count: u32) -> Result<PostingList, Fail> {
    let rows = rows(alloc, owner, count)?;
    Ok(PostingList::build(alloc, rows)?)
}

// Whether a cursor that is sought to two places of a list of so many, and past its ends, stands at the later
// of both, with that posting's audience.
fn is_sought(
    list: &PostingList,
    owner: &Key,
    count: u32,
    from: u32,
    to: u32,
) -> Result<bool, Fail> {
    let mut cursor = list.cursor();
    cursor.seek(key(from)?);
    cursor.seek(key(to)?);
    let place = from.max(to);
    let want = if place < count {
        Some(posting(owner, place)?)
    } else {
        None
    };
    Ok(cursor.posting() == want)
}

// The first two places of a list of so many of which that is not so.
fn not_sought(alloc: Global, owner: &Key, count: u32) -> Result<Option<(u32, u32)>, Fail> {
    let list = list(alloc, owner, count)?;
    if list.len() != count as usize {
        return Ok(Some((count, count)));
    }
    not_sought_in(&list, owner, count)
}

fn not_sought_in(list: &PostingList, owner: &Key, count: u32) -> Result<Option<(u32, u32)>, Fail> {
    for from in 0..=count {
        for to in 0..=count {
            if !is_sought(list, owner, count, from, to)? {
                return Ok(Some((from, to)));
            }
        }
    }
    Ok(None)
}

#[test]
fn a_seek_from_every_key_to_every_key(rt: HostRuntime) -> Result<(), Fail> {
    let owner = Key::Id(entity(7)?);
    for count in [0, 1, 127, 128, 129, 256] {
        if not_sought(rt.alloc(), &owner, count)?.is_some() {
            return Err(Fail::new(count));
        }
    }
    Ok(())
}

// The first place of a list of so many at which it is not read as it was put. Past its end nothing is read.
fn misread(list: &PostingList, owner: &Key, count: u32) -> Result<Option<u32>, Fail> {
    let mut cursor = list.cursor();
    for i in 0..count {
        if cursor.peek() != Some(key(i)?) || cursor.audience() != Some(audience(owner, i)) {
            return Ok(Some(i));
        }
        cursor.step();
    }
    cursor.step();
    let is_read = cursor.peek().is_some() || cursor.audience().is_some();
    Ok(if is_read { Some(count) } else { None })
}

#[test]
fn a_list_is_read_to_its_end(rt: HostRuntime) -> Result<(), Fail> {
    let owner = Key::Id(entity(7)?);
    let list = list(rt.alloc(), &owner, 300)?;
    assert!(rt; misread(&list, &owner, 300)?.is_none());
    Ok(())
}

// The first of some seeks that leads to another place than it is to.
fn missed(list: &PostingList, owner: &Key) -> Result<Option<u32>, Fail> {
    let mut cursor = list.cursor();
    for (to, want) in [(0, 0), (129, 129), (5, 129), (999_999, 999_999)] {
        cursor.seek(key(to)?);
        if cursor.posting() != Some(posting(owner, want)?) {
            return Ok(Some(to));
        }
    }
    Ok(None)
}

#[test]
fn seeks_in_a_list_of_a_million(rt: HostRuntime) -> Result<(), Fail> {
    let owner = Key::Id(entity(7)?);
    let list = list(rt.alloc(), &owner, 1_000_000)?;
    assert!(rt; missed(&list, &owner)?.is_none());
    Ok(())
}
