ghost use Rattle.std.specs.Prelude.{◌≡◌, ◌<◌, ◌==◌, [], ◌∷◌, drop, if◌then◌else◌, slice_get, slice_index_or};
ghost use Rattle.std.specs.Bool.{OnTrue};
ghost use Rattle.set_cursors.specs.Differences.{IsClear};
ghost use Rattle.set_cursors.specs.Filters.{difference};
ghost use Rattle.set_cursors.specs.Passed.{HavePassed};
ghost use Rattle.uni_base.specs.Cursors.{IsRanked, keys_from};
ghost use Rattle.uni_base.specs.KeySets.{has_first, has_key, KeepsKeys};

use crate::OperatorCursor;
use crate::operands::is_at;
use std::marker::Model;
use uni_base::{DocCursor, DocKey};

/// A cursor over the keys that its first operand has and its second lacks. Contracts see it as the pair
/// of its operands.
#[derive(Drop)]
pub struct DifferenceCursor<C: DocCursor> {
    first: C,
    second: C,
}

impl<C: DocCursor> Model for DifferenceCursor<C> {
    ghost use Rattle.set_cursors.specs.Differences.{IsClear};

    ghost Value = { C × C };

    ghost view = { λ c. (c.first, c.second) };

    ghost invariant = { λ c. IsClear (C.remaining c.first) (C.remaining c.second) };
}

// Moves an operand on to a key, and tells whether it has it.
fn seek_has<C: DocCursor>(operand: &mut C, key: &DocKey) -> bool
    ensures moves { C.remaining operand.new ≡ keys_from key.now (C.remaining operand.old) }
    ensures value { result ≡ has_key (C.remaining operand.old) key.now }
{
    operand.seek(*key);
    is_at(operand, *key)
}

// Moves the first operand to its first key that the second lacks.
fn skip<C: DocCursor>(first: &mut C, second: &mut C)
    ensures clear { IsClear (C.remaining first.new) (C.remaining second.new) }
    ensures keys { difference (C.remaining first.new) (C.remaining second.new)
        ≡ difference (C.remaining first.old) (C.remaining second.old) }
    ensures operands { let olds = C.remaining first.old ∷ C.remaining second.old ∷ [] in
        let news = C.remaining first.new ∷ C.remaining second.new ∷ [] in
        KeepsKeys (difference (C.remaining first.new) (C.remaining second.new)) olds news }
    ensures passed { let olds = C.remaining first.old ∷ C.remaining second.old ∷ [] in
        let news = C.remaining first.new ∷ C.remaining second.new ∷ [] in
        HavePassed (difference (C.remaining first.new) (C.remaining second.new)) olds news }
{
    while let Some(key) = first.peek() {
        if !seek_has(second, &key) {
            return;
        }
        first.step();
    }
}

impl<C: DocCursor> DifferenceCursor<C> {
    /// The cursor over these operands, both moved on to the first key.
    pub fn new(first: C, second: C) -> DifferenceCursor<C>
        ensures keys { difference (C.remaining result.0) (C.remaining result.1)
            ≡ difference (C.remaining first) (C.remaining second) }
        ensures operands { let olds = C.remaining first ∷ C.remaining second ∷ [] in
            let news = C.remaining result.0 ∷ C.remaining result.1 ∷ [] in
            KeepsKeys (difference (C.remaining result.0) (C.remaining result.1)) olds news }
        ensures passed { let olds = C.remaining first ∷ C.remaining second ∷ [] in
            let news = C.remaining result.0 ∷ C.remaining result.1 ∷ [] in
            HavePassed (difference (C.remaining result.0) (C.remaining result.1)) olds news }
    {
        let mut first = first;
        let mut second = second;
        skip(&mut first, &mut second);
        DifferenceCursor { first, second }
    }
}

impl<C: DocCursor> DocCursor for DifferenceCursor<C> {
    ghost use Rattle.set_cursors.specs.Filters.{difference};

    ghost remaining = { λ operands. difference (C.remaining operands.0) (C.remaining operands.1) };

    fn peek(&self) -> Option<DocKey> {
        self.first.peek()
    }

    fn step(&mut self)
        ensures after { difference (C.remaining self.new.0) (C.remaining self.new.1)
            ≡ drop 1 (difference (C.remaining self.old.0) (C.remaining self.old.1)) }
        ensures operands { let olds = C.remaining self.old.0 ∷ C.remaining self.old.1 ∷ [] in
            let news = C.remaining self.new.0 ∷ C.remaining self.new.1 ∷ [] in
            KeepsKeys (difference (C.remaining self.new.0) (C.remaining self.new.1)) olds news }
        ensures passed { let olds = C.remaining self.old.0 ∷ C.remaining self.old.1 ∷ [] in
            let news = C.remaining self.new.0 ∷ C.remaining self.new.1 ∷ [] in
            HavePassed (difference (C.remaining self.new.0) (C.remaining self.new.1)) olds news }
    {
        if self.first.peek().is_some() {
            self.first.step();
            skip(&mut self.first, &mut self.second);
        }
    }

    fn seek(&mut self, from: DocKey)
        ensures after { difference (C.remaining self.new.0) (C.remaining self.new.1)
            ≡ keys_from from (difference (C.remaining self.old.0) (C.remaining self.old.1)) }
        ensures operands { let olds = C.remaining self.old.0 ∷ C.remaining self.old.1 ∷ [] in
            let news = C.remaining self.new.0 ∷ C.remaining self.new.1 ∷ [] in
            KeepsKeys (difference (C.remaining self.new.0) (C.remaining self.new.1)) olds news }
        ensures passed { let olds = C.remaining self.old.0 ∷ C.remaining self.old.1 ∷ [] in
            let news = C.remaining self.new.0 ∷ C.remaining self.new.1 ∷ [] in
            HavePassed (difference (C.remaining self.new.0) (C.remaining self.new.1)) olds news }
    {
        self.first.seek(from);
        skip(&mut self.first, &mut self.second);
    }
}

impl<C: DocCursor> OperatorCursor for DifferenceCursor<C> {
    ghost use Rattle.std.specs.Prelude.{[], ◌∷◌};

    type Operand = C;

    ghost operands = { λ operands. operands.0 ∷ operands.1 ∷ [] };

    // the first operand has each key, and the second has none
    fn matches(&self, i: usize) -> bool {
        i == 0 && self.first.peek().is_some()
    }

    fn operand(&self, i: usize) -> &C {
        if i == 0 { &self.first } else { &self.second }
    }
}
