//! The oldest layers of a stack as one. The records that the newer ones of them leave alone are
//! copied from the oldest, and only the others are looked up in all.
ghost use Rattle.std.specs.Prelude.{◌≡◌, ◌≤◌, ◌<◌, T, cond, take, drop, length, IfOk, OnOk};
ghost use Rattle.std.specs.FinMap.{is_sorted};
ghost use Rattle.forward_data.specs.Records.{record_cmp, record_of, records_of};
ghost use Rattle.forward_data.specs.Combined.{AreChanged, StandAlone, is_among, putting_record, putting_records};

use crate::rows::left_by;
use crate::{ForwardDelta, ForwardItem, ForwardItems, ForwardStack, RecordKey};
use layer_base::{first_after, last_words, look_up_near};
use std::alloc::{AllocError, Global};

// The keys at which layers after the oldest one, up to a count, have a record: in order, each once.
pub(crate) fn changed_keys(
    alloc: Global,
    stack: &ForwardStack,
    count: usize,
) -> Result<Vec<(RecordKey, ())>, AllocError>
    requires { (0 < count) × (count ≤ length stack.now.0) }
    ensures { IfOk result (λ keys. AreChanged (drop 1 (take count stack.now.0)) keys.items) }
{
    let mut log = Vec::new(alloc);
    for i in 1..count {
        stack.layer(i).note_keys(&mut log)?;
    }
    last_words(log)
}

// Puts the records that the first layers of a stack stand for. The rows are the records of the
// oldest one, which stand alone where their keys are not among the changed ones.
pub(crate) fn combined(
    alloc: Global,
    stack: &ForwardStack,
    count: usize,
    changed: &[(RecordKey, ())],
    rows: &[(RecordKey, ForwardItems)],
) -> Result<ForwardDelta, AllocError>
    requires count { count ≤ length stack.now.0 }
    requires sorted { T (is_sorted record_cmp changed.now) }
    requires alone { StandAlone changed.now rows.now (take count stack.now.0) }
    ensures { IfOk result (λ delta. delta ≡ records_of (take count stack.now.0)) }
{
    let mut delta = ForwardDelta::new(alloc);
    let mut hints = first_hints(alloc, count)?;
    let mut at = 0;
    for (key, items) in rows {
        let to = first_after(changed, at, key);
        put_records(alloc, &mut delta, stack, &mut hints, &changed[at..to])?;
        put_unchanged(alloc, &mut delta, changed, at, key, items.as_slice())?;
        at = to;
    }
    put_records(
        alloc,
        &mut delta,
        stack,
        &mut hints,
        &changed[at..changed.len()],
    )?;
    Ok(delta)
}

// A hint for each of so many layers, at its first record.
pub(crate) fn first_hints(alloc: Global, count: usize) -> Result<Vec<usize>, AllocError>
    ensures { IfOk result (λ hints. length hints.items ≡ count) }
{
    let mut hints = Vec::with_capacity(alloc, count)?;
    for _i in 0..count {
        hints.push(0)?;
    }
    Ok(hints)
}

// Puts the records that the first layers of a stack have at some keys. There is a hint for each of
// the layers.
fn put_records(
    alloc: Global,
    delta: &mut ForwardDelta,
    stack: &ForwardStack,
    hints: &mut [usize],
    keys: &[(RecordKey, ())],
) -> Result<(), AllocError>
    requires { length hints.old ≤ length stack.now.0 }
    ensures records { OnOk result (delta.new ≡ putting_records (take (length hints.old) stack.now.0) keys.now delta.old) }
    ensures hints { length hints.new ≡ length hints.old }
{
    for (key, _nothing) in keys {
        put_record(alloc, delta, key, stack.front_lookup(hints, key))?;
    }
    Ok(())
}

// Puts a record, unless its key is among the changed ones, where the search for it begins at a hint.
fn put_unchanged(
    alloc: Global,
    delta: &mut ForwardDelta,
    changed: &[(RecordKey, ())],
    mut hint: usize,
    key: &RecordKey,
    items: &[ForwardItem],
) -> Result<(), AllocError>
    requires { T (is_sorted record_cmp changed.now) }
    ensures { OnOk result (delta.new ≡ cond (is_among key.now changed.now) delta.old (putting_record key.now items.now delta.old)) }
{
    if look_up_near(changed, &mut hint, key).is_some() {
        return Ok(());
    }
    put_record(alloc, delta, key, items)
}

// Puts a copy of a record, if it is not empty.
fn put_record(
    alloc: Global,
    delta: &mut ForwardDelta,
    key: &RecordKey,
    items: &[ForwardItem],
) -> Result<(), AllocError>
    ensures { OnOk result (delta.new ≡ putting_record key.now items.now delta.old) }
{
    match left_by(alloc, items)? {
        Some(copy) => delta.replace(key.type_no, key.id, copy),
        None => Ok(()),
    }
}
