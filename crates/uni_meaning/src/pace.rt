//! The walks of `weak-and` and `strong-or`.
ghost use Rattle.std.specs.Prelude.{◌≡◌, ◌<◌, ◌≤◌, ◌+◌, ◌^◌, All, IfOk, OnOk, if◌then◌else◌, length};
ghost use Rattle.uni_base.specs.Walks.{has_share, lets_pass, share_of};
ghost use Rattle.uni_meaning.specs.Hits.{quota_of};
ghost use Rattle.uni_meaning.specs.Standings.{row_at};
ghost use Rattle.uni_meaning.specs.Walking.{advanced, allows, before_all, counted, counted_from, entered, fresh_counters, pace_keeps, pace_of, walk_standings};

use crate::column::{Column, any_found, hit_by};
use crate::place::Place;
use crate::standing::Standing;
use query_tree::{ListKind, Mark};
use std::alloc::{AllocError, Global};

/// An operand's mark as it stands in a walk, and how many of the kept entities the operand has.
#[derive(Clone, Copy)]
pub(crate) struct Counter {
    pub mark: Mark,
    pub own: u64,
}

/// How far a walk is: the shard that it is in, how many entities it keeps there, and the operands.
#[derive(Drop)]
pub(crate) struct Pace {
    pub here: Option<u32>,
    pub kept: u64,
    pub counters: Vec<Counter>,
}

/// How entities stand under a walk, by how they stand under its operands. The walk begins anew in each
/// shard.
pub(crate) fn under_walk(
    alloc: Global,
    kind: ListKind,
    columns: &[Column],
    places: &[Place],
) -> Result<Vec<Standing>, AllocError>
    requires { All (λ c. length c.standings.items ≡ length places.now) columns.now }
    ensures { IfOk result (λ standings. standings.items ≡ walk_standings kind columns.now before_all 0 places.now) }
{
    let mut pace = Pace {
        here: None,
        kept: 0,
        counters: Vec::new(alloc),
    };
    let mut standings = Vec::new(alloc);
    for (i, place) in places.iter().enumerate() {
        pace.enter(place.shard, columns)?;
        let standing = if pace.takes(kind, columns, i) {
            hit_by(alloc, kind, columns, i)?
        } else {
            Standing::Missed
        };
        standings.push(standing)?;
    }
    Ok(standings)
}

impl Pace {
    // Goes on in a shard. In another one than before the walk begins anew.
    fn enter(&mut self, shard: u32, columns: &[Column]) -> Result<(), AllocError>
        ensures entered { OnOk result (pace_of self.new ≡ entered (fresh_counters columns.now) shard (pace_of self.old)) }
    {
        if self.here == Some(shard) {
            return Ok(());
        }
        self.here = Some(shard);
        self.kept = 0;
        self.counters.clear();
        for column in columns {
            self.counters.push(Counter {
                mark: column.mark,
                own: 0,
            })?;
        }
        Ok(())
    }

    // Whether the walk keeps the entity at a place, which then counts.
    fn takes(&mut self, kind: ListKind, columns: &[Column], i: usize) -> bool
        requires within { All (λ c. i < length c.standings.items) columns.now }
        requires count { length self.old.counters.items ≡ length columns.now }
        requires owns { All (λ c. c.own ≤ self.old.kept) self.old.counters.items }
        requires fits { self.old.kept < 2 ^ 63 }
        ensures kept { result ≡ pace_keeps kind (pace_of self.old) (row_at columns.now i) }
        ensures pace { pace_of self.new ≡ (if result then advanced (row_at columns.now i) (pace_of self.old) else pace_of self.old) }
    {
        if !self.keeps(kind, columns, i) {
            return false;
        }
        self.kept += 1;
        count(&mut self.counters, columns, i);
        true
    }

    // Whether some operand has the entity at a place and the quotas of all let it be kept.
    fn keeps(&self, kind: ListKind, columns: &[Column], i: usize) -> bool
        requires within { All (λ c. i < length c.standings.items) columns.now }
        requires count { length self.now.counters.items ≡ length columns.now }
        requires owns { All (λ c. c.own ≤ self.now.kept) self.now.counters.items }
        requires fits { self.now.kept < 2 ^ 63 }
        ensures { result ≡ pace_keeps kind (pace_of self.now) (row_at columns.now i) }
    {
        if !any_found(columns, i) {
            return false;
        }
        for j in 0..self.counters.len() {
            let has = columns[j].standings[i].is_found();
            if !self.counters[j].allows(kind, self.kept, has) {
                return false;
            }
        }
        true
    }
}

impl Counter {
    // Whether one entity more may be kept, which the operand has or not.
    fn allows(self, kind: ListKind, kept: u64, has: bool) -> bool
        requires { self.own < 2 ^ 63 }
        ensures { result ≡ allows kind kept (quota_of self.mark) self.own has }
    {
        match kind {
            ListKind::StrongOr => self.has_share(kept, self.own + u64::from(has)),
            _ => has || self.lets_pass(kept),
        }
    }

    // Whether an entity may be kept that the operand lacks.
    fn lets_pass(self, kept: u64) -> bool
        ensures { result ≡ lets_pass kept (quota_of self.mark) self.own }
    {
        match self.mark {
            Mark::Plain => false,
            Mark::Hits(left) => left > 0,
            Mark::Weight(n, d) => share_of(kept, n, d) <= u128::from(self.own),
        }
    }

    // Whether the operand has its share, so many of its own being kept.
    fn has_share(self, kept: u64, own: u64) -> bool
        ensures { result ≡ has_share (kept + 1) (quota_of self.mark) own }
    {
        match self.mark {
            Mark::Plain | Mark::Hits(_) => true,
            Mark::Weight(n, d) => share_of(kept, n, d) <= u128::from(own),
        }
    }

    // The operand once an entity is kept, which it has or not.
    fn counted(self, has: bool) -> Counter
        requires { self.own < 2 ^ 63 }
        ensures { result ≡ counted has self }
    {
        match (has, self.mark) {
            (true, _) => Counter {
                mark: self.mark,
                own: self.own + 1,
            },
            (false, Mark::Hits(left)) => Counter {
                mark: Mark::Hits(left.saturating_sub(1)),
                own: self.own,
            },
            (false, _) => self,
        }
    }
}

// Counts the entity at a place, which is kept.
fn count(counters: &mut Vec<Counter>, columns: &[Column], i: usize)
    requires within { All (λ c. i < length c.standings.items) columns.now }
    requires count { length counters.old.items ≡ length columns.now }
    requires fits { All (λ c. c.own < 2 ^ 63) counters.old.items }
    ensures { counters.new.items ≡ counted_from 0 (row_at columns.now i) counters.old.items }
{
    for j in 0..counters.len() {
        let counter = counters[j];
        counters[j] = counter.counted(columns[j].standings[i].is_found());
    }
}

// The share n/d of one more than are kept, rounded down.
fn share_of(kept: u64, n: u32, d: u32) -> u128
    ensures { result ≡ share_of (kept + 1) n d }
{
    ((u128::from(kept) + 1) * u128::from(n))
        .checked_div(u128::from(d))
        .unwrap_or(0)
}
