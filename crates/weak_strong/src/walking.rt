ghost use Rattle.std.specs.Prelude.{◌≡◌, ◌+◌, ◌-◌, ◌<◌, ◌≤◌, ◌^◌, [], ◌∷◌, ◌++◌, All, OnOk, Some, drop, length, map, slice_get, slice_index_or, true};
ghost use Rattle.std.specs.Bool.{OnTrue};
ghost use Rattle.set_cursors.specs.Passed.{HavePassed};
ghost use Rattle.uni_base.specs.Cursors.{IsRanked, keys_from};
ghost use Rattle.uni_base.specs.KeySets.{has_first, united, KeepsKeys};
ghost use Rattle.uni_base.specs.Walks.{walked};
ghost use Rattle.weak_strong.specs.Marks.{counter_of, quota_of};
ghost use Rattle.weak_strong.specs.Places.{place_of};
ghost use Rattle.weak_strong.specs.Rules.{keeps_by, needs_all, walkers};
ghost use Rattle.weak_strong.specs.Walking.{HasSettled, IsCounted, walk_of};
ghost use Rattle.uni_base.specs.declared.entity.DocKey.{DocKey as Keys};

use crate::WeakMark;
use crate::rule::{Counter, Rule};
use set_cursors::{OperatorCursor, OrCursor};
use std::alloc::{AllocError, Global};
use std::marker::Model;
use uni_base::{DocCursor, DocKey};

// How many keys are kept with one more. No more are kept than stand up to it in rank order, so the number
// fits.
fn next(kept: u128, _key: DocKey) -> u128
    requires { kept ≤ place_of _key }
    ensures value { result ≡ kept + 1 }
    ensures fits { result ≤ 2 ^ 96 }
    ensures rank { _key.rank.0 < 2 ^ 32 }
    ensures id { _key.id < 2 ^ 64 }
{
    kept + 1
}

// Whether the walk keeps the first of the candidates; `next` keys are kept with it.
fn is_kept<C: DocCursor>(
    rule: Rule,
    candidates: &OrCursor<C>,
    counters: &[Counter],
    next: u128,
) -> bool
    requires next { next ≤ 2 ^ 97 }
    requires count { length counters.now ≡ length candidates.now }
    requires owns { All (λ counter. counter.own < next) counters.now }
    ensures { (k : Keys) → slice_get (united (map C.remaining candidates.now)) 0 ≡ Some k
        → result ≡ keeps_by rule (next - 1) (walkers (map C.remaining candidates.now) (map counter_of counters.now)) k }
{
    for (i, counter) in counters.iter().enumerate() {
        if !rule.allows(next, candidates.matches(i), counter) {
            return false;
        }
    }
    true
}

// Counts the first of the candidates, which is kept.
fn count<C: DocCursor>(candidates: &OrCursor<C>, counters: &mut Vec<Counter>, next: u128)
    requires next { next ≤ 2 ^ 96 }
    requires count { length counters.old.items ≡ length candidates.now }
    requires owns { All (λ counter. counter.own < next) counters.old.items }
    ensures count { length counters.new.items ≡ length candidates.now }
    ensures owns { All (λ counter. counter.own ≤ next) counters.new.items }
    ensures walked { (k : Keys) → slice_get (united (map C.remaining candidates.now)) 0 ≡ Some k
        → walkers (map C.remaining candidates.now) (map counter_of counters.new.items)
        ≡ map (walked k) (walkers (map C.remaining candidates.now) (map counter_of counters.old.items)) }
{
    for i in 0..counters.len() {
        let counter = counters[i];
        counters[i] = counter.count(candidates.matches(i));
    }
}

// Passes candidates up to the first that the walk keeps, one after the other.
fn pass_refused<C: DocCursor>(
    rule: Rule,
    candidates: &mut OrCursor<C>,
    counters: &[Counter],
    kept: u128,
) -> Option<DocKey>
    requires { IsCounted (map C.remaining candidates.old) (map counter_of counters.now) kept }
    ensures { let olds = map C.remaining candidates.old in let news = map C.remaining candidates.new in
        HasSettled rule (map counter_of counters.now) kept olds news result }
{
    while let Some(key) = candidates.peek() {
        if is_kept(rule, candidates, counters, next(kept, key)) {
            return candidates.peek();
        }
        candidates.step();
    }
    None
}

// Moves the candidates to the first that the walk keeps. Where it keeps what all operands have, they leap.
fn settle<C: DocCursor>(
    rule: Rule,
    candidates: &mut OrCursor<C>,
    counters: &[Counter],
    kept: u128,
) -> Option<DocKey>
    requires { IsCounted (map C.remaining candidates.old) (map counter_of counters.now) kept }
    ensures { let olds = map C.remaining candidates.old in let news = map C.remaining candidates.new in
        HasSettled rule (map counter_of counters.now) kept olds news result }
{
    if rule.needs_all(counters) {
        candidates.leap()
    } else {
        pass_refused(rule, candidates, counters, kept)
    }
}

// A walk along the keys of several operands, which stands at a key that it keeps. Contracts see it as its
// rule, its operands, their quotas with how many of the kept keys they have, and how many are kept.
#[derive(Drop)]
pub(crate) struct Walking<C: DocCursor> {
    rule: Rule,
    candidates: OrCursor<C>,
    counters: Vec<Counter>,
    kept: u128,
    at: Option<DocKey>,
}

impl<C: DocCursor> Model for Walking<C> {
    ghost use Rattle.std.specs.Prelude.{ℕ, List, map};
    ghost use Rattle.uni_base.specs.Walks.{Quota};
    ghost use Rattle.weak_strong.specs.declared.rule.Rule.{Rule as Rules};
    ghost use Rattle.weak_strong.specs.Marks.{counter_of};
    ghost use Rattle.weak_strong.specs.Walking.{IsWalking};

    ghost Value = { Rules × List C × List (Quota × ℕ) × ℕ };

    ghost view = { λ w. (w.rule, w.candidates, map counter_of w.counters.items, w.kept) };

    ghost invariant = { λ w. IsWalking w.rule (map C.remaining w.candidates) (map counter_of w.counters.items) w.kept w.at };
}

impl<C: DocCursor> Walking<C> {
    pub(crate) fn new(rule: Rule, operands: Vec<C>, counters: Vec<Counter>) -> Walking<C>
        requires count { length counters.items ≡ length operands.items }
        requires fresh { All (λ counter. counter.own ≡ 0) counters.items }
        ensures rule { result.0 ≡ rule }
        ensures walk { walk_of rule (map C.remaining result.1) result.2 result.3
            ≡ walk_of rule (map C.remaining operands.items) (map counter_of counters.items) 0 }
        ensures operands { KeepsKeys (walk_of rule (map C.remaining result.1) result.2 result.3)
            (map C.remaining operands.items) (map C.remaining result.1) }
        ensures passed { HavePassed (walk_of rule (map C.remaining result.1) result.2 result.3)
            (map C.remaining operands.items) (map C.remaining result.1) }
    {
        let mut candidates = OrCursor::new(operands);
        let at = settle(rule, &mut candidates, counters.as_slice(), 0);
        Walking {
            rule,
            candidates,
            counters,
            kept: 0,
            at,
        }
    }

    pub(crate) fn peek(&self) -> Option<DocKey>
        ensures first { result ≡ slice_get (walk_of self.now.0 (map C.remaining self.now.1) self.now.2 self.now.3) 0 }
        ensures ranked { IsRanked (walk_of self.now.0 (map C.remaining self.now.1) self.now.2 self.now.3) }
        ensures stands { let lists = map C.remaining self.now.1 in
            HavePassed (walk_of self.now.0 lists self.now.2 self.now.3) lists lists }
    {
        self.at
    }

    pub(crate) fn matches(&self, i: usize) -> bool
        requires { i < length self.now.1 }
        ensures holds { let lists = map C.remaining self.now.1 in
            result ≡ has_first (slice_index_or lists i []) (walk_of self.now.0 lists self.now.2 self.now.3) }
        ensures current { let lists = map C.remaining self.now.1 in
            OnTrue result (slice_get (slice_index_or lists i []) 0 ≡ slice_get (walk_of self.now.0 lists self.now.2 self.now.3) 0) }
    {
        self.at.is_some() && self.candidates.matches(i)
    }

    pub(crate) fn operand(&self, i: usize) -> &C
        requires { i < length self.now.1 }
        ensures { slice_get self.now.1 i ≡ Some result.now }
    {
        self.candidates.operand(i)
    }

    pub(crate) fn step(&mut self)
        ensures rule { self.new.0 ≡ self.old.0 }
        ensures walk { walk_of self.old.0 (map C.remaining self.new.1) self.new.2 self.new.3
            ≡ drop 1 (walk_of self.old.0 (map C.remaining self.old.1) self.old.2 self.old.3) }
        ensures operands { KeepsKeys (walk_of self.old.0 (map C.remaining self.new.1) self.new.2 self.new.3)
            (map C.remaining self.old.1) (map C.remaining self.new.1) }
        ensures passed { HavePassed (walk_of self.old.0 (map C.remaining self.new.1) self.new.2 self.new.3)
            (map C.remaining self.old.1) (map C.remaining self.new.1) }
    {
        if let Some(key) = self.at {
            let kept = next(self.kept, key);
            count(&self.candidates, &mut self.counters, kept);
            self.kept = kept;
            self.candidates.step();
            self.at = settle(
                self.rule,
                &mut self.candidates,
                self.counters.as_slice(),
                kept,
            );
        }
    }

    // Whether what is left is what all operands have.
    fn needs_all(&self) -> bool
        ensures { result ≡ needs_all self.now.0 self.now.2 }
    {
        self.rule.needs_all(self.counters.as_slice())
    }

    // Leaps to a key, where what is left is what all operands have. Nothing goes by what is passed.
    fn leap(&mut self, from: DocKey)
        requires { needs_all self.old.0 self.old.2 ≡ true }
        ensures rule { self.new.0 ≡ self.old.0 }
        ensures walk { walk_of self.old.0 (map C.remaining self.new.1) self.new.2 self.new.3
            ≡ keys_from from (walk_of self.old.0 (map C.remaining self.old.1) self.old.2 self.old.3) }
        ensures operands { KeepsKeys (walk_of self.old.0 (map C.remaining self.new.1) self.new.2 self.new.3)
            (map C.remaining self.old.1) (map C.remaining self.new.1) }
        ensures passed { HavePassed (walk_of self.old.0 (map C.remaining self.new.1) self.new.2 self.new.3)
            (map C.remaining self.old.1) (map C.remaining self.new.1) }
    {
        self.candidates.seek(from);
        self.at = self.candidates.leap();
    }

    // Walks up to a key: what is passed is counted, as long as something goes by it.
    pub(crate) fn seek(&mut self, from: DocKey)
        ensures rule { self.new.0 ≡ self.old.0 }
        ensures walk { walk_of self.old.0 (map C.remaining self.new.1) self.new.2 self.new.3
            ≡ keys_from from (walk_of self.old.0 (map C.remaining self.old.1) self.old.2 self.old.3) }
        ensures operands { KeepsKeys (walk_of self.old.0 (map C.remaining self.new.1) self.new.2 self.new.3)
            (map C.remaining self.old.1) (map C.remaining self.new.1) }
        ensures passed { HavePassed (walk_of self.old.0 (map C.remaining self.new.1) self.new.2 self.new.3)
            (map C.remaining self.old.1) (map C.remaining self.new.1) }
    {
        while let Some(key) = self.peek() {
            if key.cmp(&from).is_ge() {
                return;
            }
            if self.needs_all() {
                return self.leap(from);
            }
            self.step();
        }
    }
}

// Operands with the counters that they begin with.
#[derive(Drop)]
pub(crate) struct Parts<C> {
    cursors: Vec<C>,
    counters: Vec<Counter>,
}

impl<C> Model for Parts<C> {
    ghost use Rattle.std.specs.Prelude.{◌≡◌, List, All, length, map};
    ghost use Rattle.uni_base.specs.Walks.{Quota};
    ghost use Rattle.weak_strong.specs.Marks.{quota_of};

    ghost Value = { List C × List Quota };

    ghost view = { λ p. (p.cursors.items, map (λ counter. quota_of counter.mark) p.counters.items) };

    ghost invariant = { λ p. (length p.counters.items ≡ length p.cursors.items) × All (λ counter. counter.own ≡ 0) p.counters.items };
}

impl<C: Drop> Parts<C> {
    pub(crate) fn new(alloc: Global) -> Parts<C>
        ensures { result ≡ ([], []) }
    {
        Parts {
            cursors: Vec::new(alloc),
            counters: Vec::new(alloc),
        }
    }

    pub(crate) fn push(&mut self, cursor: C, mark: Option<WeakMark>) -> Result<(), AllocError>
        ensures { OnOk result (self.new ≡ (self.old.0 ++ cursor ∷ [], self.old.1 ++ quota_of mark ∷ [])) }
    {
        self.counters.push(Counter { mark, own: 0 })?;
        if let Err(failed) = self.cursors.push(cursor) {
            self.counters.pop();
            return Err(AllocError::from(failed));
        }
        Ok(())
    }

    pub(crate) fn into_both(self) -> (Vec<C>, Vec<Counter>)
        ensures cursors { result.0.items ≡ self.0 }
        ensures counters { map counter_of result.1.items ≡ map (λ quota. (quota, 0)) self.1 }
        ensures count { length result.1.items ≡ length result.0.items }
        ensures fresh { All (λ counter. counter.own ≡ 0) result.1.items }
    {
        let Parts { cursors, counters } = self;
        (cursors, counters)
    }
}
