ghost use Rattle.std.specs.Prelude.{◌≡◌, ◌<◌, IfOk, Some, [], drop, length, map, slice_get, slice_index_or};
ghost use Rattle.std.specs.Bool.{OnTrue};
ghost use Rattle.set_cursors.specs.Passed.{HavePassed};
ghost use Rattle.uni_base.specs.Cursors.{IsRanked, keys_from};
ghost use Rattle.uni_base.specs.KeySets.{has_first, KeepsKeys};
ghost use Rattle.weak_strong.specs.Walking.{walk_of};

use crate::Walk;
use crate::walking::{Parts, Walking};
use set_cursors::OperatorCursor;
use std::alloc::{AllocError, Global};
use std::marker::{Model, PhantomData};
use uni_base::{DocCursor, DocKey};

/// A cursor over the keys that a walk keeps of its operands. Contracts see it as its operands, their quotas
/// with how many of the kept keys they have, and how many are kept. A seek walks, since what is passed counts.
/// Once a weak walk has used up every count and none is weighted, it leaps as an `AndCursor` does, and what a
/// seek passes is no longer counted, since nothing goes by it.
#[derive(Drop)]
pub struct QuotaCursor<W: Walk, C: DocCursor> {
    walking: Walking<C>,
    walk: PhantomData<W>,
}

impl<W: Walk, C: DocCursor> Model for QuotaCursor<W, C> {
    ghost use Rattle.std.specs.Prelude.{◌≡◌, ℕ, List};
    ghost use Rattle.uni_base.specs.Walks.{Quota};

    ghost Value = { List C × List (Quota × ℕ) × ℕ };

    ghost view = { λ c. (c.walking.1, c.walking.2, c.walking.3) };

    ghost invariant = { λ c. c.walking.0 ≡ W.rule };
}

impl<W: Walk, C: DocCursor + Drop> QuotaCursor<W, C> {
    /// The cursor over these operands with their marks. It is at its end where there is none. Only here is
    /// memory asked for.
    pub fn new(alloc: Global, operands: Vec<(C, W::Mark)>) -> Result<QuotaCursor<W, C>, AllocError>
        ensures keys { IfOk result (λ c. let lists = map (λ o. C.remaining o.0) operands.items in
            walk_of W.rule (map C.remaining c.0) c.1 c.2 ≡ walk_of W.rule lists (map (λ o. (W.quota o.1, 0)) operands.items) 0) }
        ensures operands { IfOk result (λ c. let lists = map (λ o. C.remaining o.0) operands.items in
            KeepsKeys (walk_of W.rule (map C.remaining c.0) c.1 c.2) lists (map C.remaining c.0)) }
        ensures passed { IfOk result (λ c. let lists = map (λ o. C.remaining o.0) operands.items in
            HavePassed (walk_of W.rule (map C.remaining c.0) c.1 c.2) lists (map C.remaining c.0)) }
    {
        let mut parts = Parts::new(alloc);
        for (cursor, mark) in operands {
            parts.push(cursor, W::mark(mark))?;
        }
        let (cursors, counters) = parts.into_both();
        Ok(QuotaCursor {
            walking: Walking::new(W::rule(), cursors, counters),
            walk: PhantomData,
        })
    }
}

impl<W: Walk, C: DocCursor> DocCursor for QuotaCursor<W, C> {
    ghost use Rattle.std.specs.Prelude.{map};
    ghost use Rattle.weak_strong.specs.Walking.{walk_of};

    ghost remaining = { λ c. walk_of W.rule (map C.remaining c.0) c.1 c.2 };

    fn peek(&self) -> Option<DocKey> {
        self.walking.peek()
    }

    fn step(&mut self)
        ensures after { walk_of W.rule (map C.remaining self.new.0) self.new.1 self.new.2
            ≡ drop 1 (walk_of W.rule (map C.remaining self.old.0) self.old.1 self.old.2) }
        ensures operands { KeepsKeys (walk_of W.rule (map C.remaining self.new.0) self.new.1 self.new.2)
            (map C.remaining self.old.0) (map C.remaining self.new.0) }
        ensures passed { HavePassed (walk_of W.rule (map C.remaining self.new.0) self.new.1 self.new.2)
            (map C.remaining self.old.0) (map C.remaining self.new.0) }
    {
        self.walking.step();
    }

    fn seek(&mut self, from: DocKey)
        ensures after { walk_of W.rule (map C.remaining self.new.0) self.new.1 self.new.2
            ≡ keys_from from (walk_of W.rule (map C.remaining self.old.0) self.old.1 self.old.2) }
        ensures operands { KeepsKeys (walk_of W.rule (map C.remaining self.new.0) self.new.1 self.new.2)
            (map C.remaining self.old.0) (map C.remaining self.new.0) }
        ensures passed { HavePassed (walk_of W.rule (map C.remaining self.new.0) self.new.1 self.new.2)
            (map C.remaining self.old.0) (map C.remaining self.new.0) }
    {
        self.walking.seek(from);
    }
}

impl<W: Walk, C: DocCursor> OperatorCursor for QuotaCursor<W, C> {
    type Operand = C;

    ghost operands = { λ c. c.0 };

    fn matches(&self, i: usize) -> bool {
        self.walking.matches(i)
    }

    fn operand(&self, i: usize) -> &C {
        self.walking.operand(i)
    }
}
