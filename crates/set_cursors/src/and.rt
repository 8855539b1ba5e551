ghost use Rattle.std.specs.Prelude.{◌≡◌, ◌+◌, ◌<◌, ◌≤◌, List, [], drop, length, map, slice_get, slice_index_or, Some};
ghost use Rattle.std.specs.Bool.{OnTrue};
ghost use Rattle.set_cursors.specs.Filters.{common};
ghost use Rattle.set_cursors.specs.Moves.{AreFew};
ghost use Rattle.set_cursors.specs.Passed.{HasMoved};
ghost use Rattle.uni_base.specs.Cursors.{IsRanked, keys_from};
ghost use Rattle.uni_base.specs.KeySets.{has_first, KeepsKeys};

use crate::OperatorCursor;
use crate::leap::{leap, pass_first, seek_first};
use crate::operands::is_at;
use std::marker::{Brand, Model};
use std::sync::ledger::{Blank, Ledger};
use uni_base::{DocCursor, DocKey, Steps};

/// A cursor over the keys that all operands have. Contracts see it as its operands. A step steps the first
/// operand; else an operand is moved by a seek alone, where it is before a key that
/// is tried, so at most once for each such key.
#[derive(Drop)]
pub struct AndCursor<C: DocCursor> {
    operands: Vec<C>,
    // the first common key
    first: Option<DocKey>,
}

impl<C: DocCursor> Model for AndCursor<C> {
    ghost use Rattle.std.specs.Prelude.{List, map};
    ghost use Rattle.set_cursors.specs.Leaps.{StandsAt};

    ghost Value = { List C };

    ghost view = { λ c. c.operands.items };

    ghost invariant = { λ c. StandsAt c.first (map C.remaining c.operands.items) };
}

impl<C: DocCursor> AndCursor<C> {
    /// The cursor over these operands, each moved to the first key that all have. It is at its end where
    /// there is no operand.
    pub fn new(operands: Vec<C>) -> AndCursor<C>
        ensures { let olds = map C.remaining operands.items in HasMoved common (common olds) olds (map C.remaining result) }
    {
        AndCursor::new_over::<Brand>(operands, Blank::new(1))
    }

    fn new_over<L: Ledger>(operands: Vec<C>, blank: Blank) -> AndCursor<C>
        requires name { blank.name ≡ L.name }
        requires parts { (blank.parts ≡ L.parts) × (0 < blank.parts) }
        ensures { let olds = map C.remaining operands.items in HasMoved common (common olds) olds (map C.remaining result) }
    {
        AndCursor::new_counted(operands, &mut Steps::<L>::new(blank))
    }

    /// As `new`, and counts each seek of an operand as one step.
    pub fn new_counted<L: Ledger>(operands: Vec<C>, moves: &mut Steps<L>) -> AndCursor<C>
        ensures moved { let olds = map C.remaining operands.items in HasMoved common (common olds) olds (map C.remaining result) }
        ensures few { AreFew moves.old moves.new (map C.remaining operands.items) (map C.remaining result) }
        ensures unmoved { moves.new ≤ moves.old → map C.remaining result ≡ map C.remaining operands.items }
    {
        let mut operands = operands;
        let first = leap(&mut operands, moves);
        AndCursor { operands, first }
    }

    /// As `step`, and counts each step and each seek of an operand as one step. There is one move, and then
    /// no more than the operand that passes the fewest keys allows.
    pub fn step_counted<L: Ledger>(&mut self, moves: &mut Steps<L>)
        ensures moved { let olds = map C.remaining self.old in
            HasMoved common (drop 1 (common olds)) olds (map C.remaining self.new) }
        ensures few { AreFew (moves.old + 1) moves.new (map C.remaining self.old) (map C.remaining self.new) }
        ensures unmoved { moves.new ≤ moves.old → map C.remaining self.new ≡ map C.remaining self.old }
    {
        if let Some(key) = self.first {
            pass_first(&mut self.operands, &key, moves);
            self.first = leap(&mut self.operands, moves);
        }
    }

    fn step_over<L: Ledger>(&mut self, blank: Blank)
        requires name { blank.name ≡ L.name }
        requires parts { (blank.parts ≡ L.parts) × (0 < blank.parts) }
        ensures { let olds = map C.remaining self.old in HasMoved common (drop 1 (common olds)) olds (map C.remaining self.new) }
    {
        self.step_counted(&mut Steps::<L>::new(blank));
    }

    /// As `seek`, and counts each seek of an operand as one step. There is one move, and then no more than the
    /// operand that passes the fewest keys allows.
    pub fn seek_counted<L: Ledger>(&mut self, from: DocKey, moves: &mut Steps<L>)
        ensures moved { let olds = map C.remaining self.old in
            HasMoved common (keys_from from (common olds)) olds (map C.remaining self.new) }
        ensures few { AreFew (moves.old + 1) moves.new (map C.remaining self.old) (map C.remaining self.new) }
        ensures unmoved { moves.new ≤ moves.old → map C.remaining self.new ≡ map C.remaining self.old }
    {
        seek_first(&mut self.operands, &from, moves);
        self.first = leap(&mut self.operands, moves);
    }

    fn seek_over<L: Ledger>(&mut self, from: DocKey, blank: Blank)
        requires name { blank.name ≡ L.name }
        requires parts { (blank.parts ≡ L.parts) × (0 < blank.parts) }
        ensures { let olds = map C.remaining self.old in
            HasMoved common (keys_from from (common olds)) olds (map C.remaining self.new) }
    {
        self.seek_counted(from, &mut Steps::<L>::new(blank));
    }
}

impl<C: DocCursor> DocCursor for AndCursor<C> {
    ghost use Rattle.std.specs.Prelude.{map};
    ghost use Rattle.set_cursors.specs.Filters.{common};

    ghost remaining = { λ operands. common (map C.remaining operands) };

    fn peek(&self) -> Option<DocKey> {
        self.first
    }

    fn step(&mut self)
        ensures { let olds = map C.remaining self.old in
            HasMoved common (drop 1 (common olds)) olds (map C.remaining self.new) }
    {
        self.step_over::<Brand>(Blank::new(1));
    }

    fn seek(&mut self, from: DocKey)
        ensures { let olds = map C.remaining self.old in
            HasMoved common (keys_from from (common olds)) olds (map C.remaining self.new) }
    {
        self.seek_over::<Brand>(from, Blank::new(1));
    }
}

impl<C: DocCursor> OperatorCursor for AndCursor<C> {
    type Operand = C;

    ghost operands = { λ operands. operands };

    fn matches(&self, i: usize) -> bool {
        match self.first {
            Some(key) => is_at(&self.operands[i], key),
            None => false,
        }
    }

    fn operand(&self, i: usize) -> &C {
        &self.operands[i]
    }
}
