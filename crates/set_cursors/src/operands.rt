ghost use Rattle.std.specs.Prelude.{◌≡◌, ℕ, [], false, map, slice_get, slice_index_or};
ghost use Rattle.set_cursors.specs.Firsts.{is_first, sooner_of, HasNoneBefore};
ghost use Rattle.uni_base.specs.Cursors.{keys_from, IsRanked};
ghost use Rattle.uni_base.specs.KeySets.{united, without};

use uni_base::{DocCursor, DocKey};

// The sooner of two keys.
fn sooner(a: Option<DocKey>, b: Option<DocKey>) -> Option<DocKey>
    ensures { result ≡ sooner_of a b }
{
    match (a, b) {
        (None, key) | (key, None) => key,
        (Some(a), Some(b)) => Some(if b.cmp(&a).is_lt() { b } else { a }),
    }
}

// The first key that some operand has.
pub(crate) fn first_of<C: DocCursor>(operands: &[C]) -> Option<DocKey>
    ensures { result ≡ slice_get (united (map C.remaining operands.now)) 0 }
{
    let mut first = None;
    for operand in operands {
        first = sooner(first, operand.peek());
    }
    first
}

// Whether an operand is at a key.
pub(crate) fn is_at<C: DocCursor>(operand: &C, key: DocKey) -> bool
    ensures value { result ≡ is_first key (C.remaining operand.now) }
    ensures ranked { IsRanked (C.remaining operand.now) }
{
    match operand.peek() {
        Some(at) => at.cmp(&key).is_eq(),
        None => false,
    }
}

// Passes a key, if the operand has it, where the operand has none before it.
pub(crate) fn pass<C: DocCursor>(operand: &mut C, key: DocKey)
    requires { HasNoneBefore key (C.remaining operand.old) }
    ensures passes { C.remaining operand.new ≡ without key (C.remaining operand.old) }
    ensures stays { is_first key (C.remaining operand.old) ≡ false → operand.new ≡ operand.old }
{
    if is_at(operand, key) {
        operand.step();
    }
}

// Passes a key in the operands that have it, where none has one before it.
pub(crate) fn pass_all<C: DocCursor>(operands: &mut Vec<C>, key: &DocKey)
    requires { (i : ℕ) → HasNoneBefore key.now (slice_index_or (map C.remaining operands.old.items) i []) }
    ensures passes { map C.remaining operands.new.items ≡ map (without key.now) (map C.remaining operands.old.items) }
    ensures stays { (i : ℕ) → is_first key.now (slice_index_or (map C.remaining operands.old.items) i []) ≡ false
        → slice_get operands.new.items i ≡ slice_get operands.old.items i }
{
    for i in 0..operands.len() {
        pass(&mut operands[i], *key);
    }
}

// Passes the keys before one in all operands.
pub(crate) fn seek_all<C: DocCursor>(operands: &mut Vec<C>, from: &DocKey)
    ensures { map C.remaining operands.new.items ≡ map (keys_from from.now) (map C.remaining operands.old.items) }
{
    for i in 0..operands.len() {
        operands[i].seek(*from);
    }
}
