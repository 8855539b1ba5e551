ghost use Rattle.std.specs.Prelude.{◌≡◌, ◌≤◌, ◌<◌, ◌+◌, ◌-◌, ◌*◌, ◌/◌, true, false, length};
ghost use Rattle.posting_lists.specs.Search.{RisesWithin, AllBefore, NoneBefore, HasLasts, IsFirstFrom, digits, most_comparisons};
ghost use Rattle.uni_base.specs.Cursors.{is_before};

use std::sync::ledger::Ledger;
use uni_base::{DocKey, Steps};

/// How many keys share an entry of the skip table.
pub(crate) const BLOCK: usize = 128;

// Whether a key comes before another in rank order. All comparisons of a seek are made here, and
// each is one step.
fn comes_before<L: Ledger>(key: &DocKey, other: &DocKey, steps: &mut Steps<L>) -> bool
    ensures answer { result ≡ is_before key.now other.now }
    ensures counted { steps.new ≡ steps.old + 1 }
{
    steps.tick();
    key < other
}

// The first place from `low` to `high` whose key does not come before a given one, by halving.
fn halve<L: Ledger>(
    keys: &[DocKey],
    low: usize,
    high: usize,
    from: &DocKey,
    steps: &mut Steps<L>,
) -> usize
    requires within { (low ≤ high) × (high ≤ length keys.now) }
    requires rises { RisesWithin keys.now low high }
    ensures found { IsFirstFrom from.now keys.now low high result }
    ensures counted { steps.new ≤ steps.old + digits (high - low) }
{
    let mut at = low;
    let mut end = high;
    while at < end {
        let middle = at + (end - at) / 2;
        if comes_before(&keys[middle], from, steps) {
            at = middle + 1;
        } else {
            end = middle;
        }
    }
    at
}

// The same where the key at `low` is known to come before the given one: strides that double, and
// then halving within the last stride.
fn gallop<L: Ledger>(
    keys: &[DocKey],
    low: usize,
    high: usize,
    from: &DocKey,
    steps: &mut Steps<L>,
) -> usize
    requires within { (low < high) × (high ≤ length keys.now) }
    requires rises { RisesWithin keys.now low high }
    requires first { AllBefore from.now keys.now low (low + 1) }
    ensures found { IsFirstFrom from.now keys.now low high result }
    ensures passed { low < result }
    ensures counted { steps.new ≤ steps.old + 2 * digits (result - low) }
{
    let mut at = low;
    let mut stride = 1;
    while stride < high - at && comes_before(&keys[at + stride], from, steps) {
        at += stride;
        stride *= 2;
    }
    halve(keys, at + 1, high.min(at + stride), from, steps)
}

// The first place from `at` to `end` whose key does not come before a given one, over keys with
// a skip table: strides over whole blocks, and then halving within one.
pub(crate) fn place_from<L: Ledger>(
    keys: &[DocKey],
    lasts: &[DocKey],
    at: usize,
    end: usize,
    from: &DocKey,
    steps: &mut Steps<L>,
) -> usize
    requires within { (at ≤ end) × (end ≤ length keys.now) }
    requires lasts { HasLasts keys.now lasts.now }
    requires rises { RisesWithin keys.now at end }
    ensures found { IsFirstFrom from.now keys.now at end result }
    ensures counted { steps.new ≤ steps.old + most_comparisons (result - at) }
{
    if at >= end || !comes_before(&keys[at], from, steps) {
        return at;
    }
    let block = block_from(keys, lasts, at, end, from, steps);
    let low = at.max(BLOCK * block);
    let high = end.min(BLOCK * block + BLOCK);
    halve(keys, low, high, from, steps)
}

// The first block at or after that of `at` that ends past `end`, or whose last key does not come
// before a given one.
fn block_from<L: Ledger>(
    keys: &[DocKey],
    lasts: &[DocKey],
    at: usize,
    end: usize,
    from: &DocKey,
    steps: &mut Steps<L>,
) -> usize
    requires within { (at < end) × (end ≤ length keys.now) }
    requires lasts { HasLasts keys.now lasts.now }
    requires rises { RisesWithin keys.now at end }
    ensures above { at / 128 ≤ result }
    ensures below { result ≤ end / 128 }
    ensures passed { AllBefore from.now keys.now at (128 * result) }
    ensures left { NoneBefore from.now keys.now (128 * result + 128) end }
    ensures counted { steps.new ≤ steps.old + (2 * digits (result - at / 128) + 1) }
{
    let block = at / BLOCK;
    let whole = end / BLOCK;
    if block < whole && comes_before(&lasts[block], from, steps) {
        gallop(lasts, block, whole, from, steps)
    } else {
        block
    }
}
