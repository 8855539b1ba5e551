ghost use Rattle.std.specs.Prelude.{◌≡◌, ◌+◌, ◌<◌, ◌≤◌, Some, false, map, not, slice_get, slice_index_or, vec_len};
ghost use Rattle.set_cursors.specs.Leaps.{HasNoCommonBefore, HasReached, IsAsked, StandsAt, first_filtered};
ghost use Rattle.uni_base.specs.Cursors.{IsRanked, is_before, keys_from};
ghost use Rattle.uni_base.specs.declared.entity.DocKey.{DocKey as Keys};
ghost use Rattle.uni_base.specs.RankOrder.{doc_cmp};
ghost use Rattle.std.specs.Ordering.{is_eq};

use crate::operands::pass;
use std::sync::ledger::Ledger;
use uni_base::{DocCursor, DocKey, Steps};

// Moves an operand that is before a key on to it, and gives the key that it is then at. One that is not is
// left as it is.
fn ask<C: DocCursor, L: Ledger>(
    operand: &mut C,
    key: &DocKey,
    moves: &mut Steps<L>,
) -> Option<DocKey>
    ensures moves { C.remaining operand.new ≡ keys_from key.now (C.remaining operand.old) }
    ensures at { result ≡ slice_get (C.remaining operand.new) 0 }
    ensures ranked { IsRanked (C.remaining operand.new) }
    ensures few { moves.new ≤ moves.old + 1 }
    ensures rises { moves.old ≤ moves.new }
    ensures unmoved { moves.new ≤ moves.old → C.remaining operand.new ≡ C.remaining operand.old }
{
    if !is_behind(operand, key) {
        return operand.peek();
    }
    moves.tick();
    operand.seek(*key);
    operand.peek()
}

// Whether an operand is at a key before one.
fn is_behind<C: DocCursor>(operand: &C, key: &DocKey) -> bool
    ensures ranked { IsRanked (C.remaining operand.now) }
    ensures not { result ≡ false → C.remaining operand.now ≡ keys_from key.now (C.remaining operand.now) }
{
    match operand.peek() {
        Some(at) => at.cmp(key).is_lt(),
        None => false,
    }
}

// Passes a key in the first operand, where all operands are at it.
pub(crate) fn pass_first<C: DocCursor, L: Ledger>(
    operands: &mut Vec<C>,
    key: &DocKey,
    moves: &mut Steps<L>,
)
    requires { StandsAt (Some key.now) (map C.remaining operands.old.items) }
    ensures moves { map C.remaining operands.new.items
        ≡ first_filtered (λ k. not (is_eq (doc_cmp key.now k))) (map C.remaining operands.old.items) }
    ensures counted { moves.new ≡ moves.old + 1 }
{
    moves.tick();
    pass(&mut operands[0], *key);
}

// Passes the keys before one in the first operand.
pub(crate) fn seek_first<C: DocCursor, L: Ledger>(
    operands: &mut Vec<C>,
    from: &DocKey,
    moves: &mut Steps<L>,
)
    ensures moves { map C.remaining operands.new.items
        ≡ first_filtered (λ k. not (is_before k from.now)) (map C.remaining operands.old.items) }
    ensures counted { moves.new ≡ moves.old + 1 }
{
    moves.tick();
    if let Some(first) = operands.first_mut() {
        first.seek(*from);
    }
}

// Asks one operand after the other about a key, or about the later one that the last was found to be at.
// Gives the key that is reached, or none where an operand is at its end.
fn ask_all<C: DocCursor, L: Ledger>(
    operands: &mut Vec<C>,
    key: &DocKey,
    moves: &mut Steps<L>,
) -> Option<DocKey>
    requires some { 0 < vec_len operands.old }
    requires bounds { HasNoCommonBefore key.now (map C.remaining operands.old.items) }
    ensures asked { let olds = map C.remaining operands.old.items in let news = map C.remaining operands.new.items in
        IsAsked key.now result olds news }
    ensures few { moves.new ≤ moves.old + vec_len operands.old }
    ensures rises { moves.old ≤ moves.new }
    ensures unmoved { moves.new ≤ moves.old → map C.remaining operands.new.items ≡ map C.remaining operands.old.items }
{
    let mut latest = *key;
    for i in 0..operands.len() {
        latest = ask(&mut operands[i], &latest, moves)?;
    }
    Some(latest)
}

// Moves the operands to the first key that all of them have. An operand is moved by a seek alone, where it is
// before a key that is tried, so at most once for each such key.
pub(crate) fn leap<C: DocCursor, L: Ledger>(
    operands: &mut Vec<C>,
    moves: &mut Steps<L>,
) -> Option<DocKey>
    ensures { let olds = map C.remaining operands.old.items in let news = map C.remaining operands.new.items in
        HasReached result moves.old moves.new olds news }
{
    let mut key = operands.first()?.peek()?;
    loop {
        let at = ask_all(operands, &key, moves)?;
        if at.cmp(&key).is_eq() {
            return Some(at);
        }
        key = at;
    }
}
