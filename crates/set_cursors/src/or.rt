ghost use Rattle.std.specs.Prelude.{◌≡◌, ◌<◌, ℕ, List, [], drop, false, length, map, slice_get, slice_index_or, Some, true};
ghost use Rattle.std.specs.Bool.{OnTrue};
ghost use Rattle.set_cursors.specs.Filters.{common};
ghost use Rattle.set_cursors.specs.Passed.{HasMoved};
ghost use Rattle.uni_base.specs.declared.entity.DocKey.{DocKey as Keys};
ghost use Rattle.uni_base.specs.Cursors.{IsRanked, keys_from};
ghost use Rattle.uni_base.specs.KeySets.{has_first, has_key, united, KeepsKeys};

use crate::OperatorCursor;
use crate::leap::leap;
use crate::operands::{first_of, is_at, pass_all, seek_all};
use std::marker::{Brand, Model};
use std::sync::ledger::{Blank, Ledger};
use uni_base::{DocCursor, DocKey, Steps};

/// A cursor over the keys that some operand has. Contracts see it as its operands. A step moves only the
/// operands that have the current key.
#[derive(Drop)]
pub struct OrCursor<C: DocCursor> {
    operands: Vec<C>,
    // the first of all keys
    first: Option<DocKey>,
}

impl<C: DocCursor> Model for OrCursor<C> {
    ghost use Rattle.std.specs.Prelude.{◌≡◌, List, map, slice_get};
    ghost use Rattle.uni_base.specs.KeySets.{united};

    ghost Value = { List C };

    ghost view = { λ c. c.operands.items };

    ghost invariant = { λ c. c.first ≡ slice_get (united (map C.remaining c.operands.items)) 0 };
}

impl<C: DocCursor> OrCursor<C> {
    /// The cursor over these operands. It is at its end where there is none.
    pub fn new(operands: Vec<C>) -> OrCursor<C>
        ensures { result ≡ operands.items }
    {
        let first = first_of(operands.as_slice());
        OrCursor { operands, first }
    }

    /// Moves on by seeks, as an `AndCursor` does, to the first key that all operands have, and gives it. Where
    /// there is none, the cursor is at some key that is left, or at its end.
    pub fn leap(&mut self) -> Option<DocKey>
        ensures first { result ≡ slice_get (common (map C.remaining self.old)) 0 }
        ensures stands { (k : Keys) → result ≡ Some k → slice_get (united (map C.remaining self.new)) 0 ≡ Some k }
        ensures moved { let olds = map C.remaining self.old in HasMoved common (common olds) olds (map C.remaining self.new) }
        ensures within { (k : Keys) → has_key (united (map C.remaining self.new)) k ≡ true
            → has_key (united (map C.remaining self.old)) k ≡ true }
    {
        self.leap_over::<Brand>(Blank::new(1))
    }

    fn leap_over<L: Ledger>(&mut self, blank: Blank) -> Option<DocKey>
        requires name { blank.name ≡ L.name }
        requires parts { (blank.parts ≡ L.parts) × (0 < blank.parts) }
        ensures first { result ≡ slice_get (common (map C.remaining self.old)) 0 }
        ensures stands { (k : Keys) → result ≡ Some k → slice_get (united (map C.remaining self.new)) 0 ≡ Some k }
        ensures moved { let olds = map C.remaining self.old in HasMoved common (common olds) olds (map C.remaining self.new) }
        ensures within { (k : Keys) → has_key (united (map C.remaining self.new)) k ≡ true
            → has_key (united (map C.remaining self.old)) k ≡ true }
    {
        let found = leap(&mut self.operands, &mut Steps::<L>::new(blank));
        self.first = first_of(self.operands.as_slice());
        found
    }
}

impl<C: DocCursor> DocCursor for OrCursor<C> {
    ghost use Rattle.std.specs.Prelude.{map};
    ghost use Rattle.uni_base.specs.KeySets.{united};

    ghost remaining = { λ operands. united (map C.remaining operands) };

    fn peek(&self) -> Option<DocKey> {
        self.first
    }

    fn step(&mut self)
        ensures moved { let olds = map C.remaining self.old in HasMoved united (drop 1 (united olds)) olds (map C.remaining self.new) }
        ensures others { let lists = map C.remaining self.old in (i : ℕ) → has_first (slice_index_or lists i []) (united lists) ≡ false
            → slice_get self.new i ≡ slice_get self.old i }
    {
        if let Some(key) = self.first {
            pass_all(&mut self.operands, &key);
            self.first = first_of(self.operands.as_slice());
        }
    }

    fn seek(&mut self, from: DocKey)
        ensures { let olds = map C.remaining self.old in HasMoved united (keys_from from (united olds)) olds (map C.remaining self.new) }
    {
        seek_all(&mut self.operands, &from);
        self.first = first_of(self.operands.as_slice());
    }
}

impl<C: DocCursor> OperatorCursor for OrCursor<C> {
    type Operand = C;

    ghost operands = { λ operands. operands };

    fn matches(&self, i: usize) -> bool {
        match self.first {
            Some(key) => is_at(&self.operands[i], key),
            None => false,
        }
    }

    fn operand(&self, i: usize) -> &C {
        &self.operands[i]
    }
}
