//! The oldest layers of a stack as one that shares the records of the oldest, where few changed.
ghost use Rattle.std.specs.Prelude.{◌≡◌, ◌≤◌, ◌^◌, T, take, length, IfOk, IsTrue};
ghost use Rattle.std.specs.FinMap as finite;
ghost use Rattle.std.specs.FinMap.{is_sorted};
ghost use Rattle.forward_data.specs.Combined.{AreAlone, IsPatch};
ghost use Rattle.forward_data.specs.Records.{AreFull, record_cmp, records_of};

use crate::combine::first_hints;
use crate::rows::RecordRows;
use crate::{ForwardDelta, ForwardItem, ForwardItems, ForwardLayer, ForwardStack, RecordKey};
use std::alloc::{AllocError, Global};
use std::sync::Arc;
use uni_base::Rows;

/// A patch has at most one key for so many records of its base.
const BASE_TO_PATCH: usize = 4;

/// How many records a base, and a patch, has at most.
const MOST_ROWS: usize = 1 << 61;

// What the first layers of a stack stand for, as one layer. At each key that is not among the
// changed ones, that is what the base has.
pub(crate) fn merged(
    alloc: Global,
    stack: &ForwardStack,
    count: usize,
    changed: &[(RecordKey, ())],
    base: &Arc<RecordRows>,
) -> Result<ForwardLayer, AllocError>
    requires count { count ≤ length stack.now.0 }
    requires sorted { T (is_sorted record_cmp changed.now) }
    requires alone { AreAlone changed.now base.now.value (take count stack.now.0) }
    ensures { IfOk result (λ layer. layer ≡ records_of (take count stack.now.0)) }
{
    if may_share(base, changed.len()) {
        let delta = patch(alloc, stack, count, changed)?;
        let rows = RecordRows::build(delta)?;
        if rows.len() > MOST_ROWS {
            return Err(AllocError);
        }
        let rows = Arc::new(alloc, rows)?;
        return Ok(ForwardLayer::over(rows, base.clone()?));
    }
    let delta = base.combined(alloc, stack, count, changed)?;
    ForwardLayer::build(delta)
}

// Whether a layer with so many rows of its own may share the rows of a base.
fn may_share(base: &RecordRows, keys: usize) -> bool
    ensures full { IsTrue result → AreFull base.now }
    ensures few { IsTrue result → finite.len base.now ≤ 2 ^ 61 }
{
    let len = base.len();
    if keys > len / BASE_TO_PATCH || len > MOST_ROWS {
        return false;
    }
    base.is_full()
}

// The records that the first layers of a stack stand for at some keys, empty where there is none.
fn patch(
    alloc: Global,
    stack: &ForwardStack,
    count: usize,
    keys: &[(RecordKey, ())],
) -> Result<ForwardDelta, AllocError>
    requires { count ≤ length stack.now.0 }
    ensures { IfOk result (IsPatch keys.now (take count stack.now.0)) }
{
    let mut delta = ForwardDelta::new(alloc);
    let mut hints = first_hints(alloc, count)?;
    for (key, _nothing) in keys {
        let items = stack.front_lookup(&mut hints, key);
        delta.replace(key.type_no, key.id, copy_of(alloc, items)?)?;
    }
    Ok(delta)
}

fn copy_of(alloc: Global, items: &[ForwardItem]) -> Result<ForwardItems, AllocError>
    ensures { IfOk result (λ copy. copy ≡ items.now) }
{
    let mut copy = Rows::new(alloc);
    copy.extend_from_slice(items)?;
    Ok(copy)
}
