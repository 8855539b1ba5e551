ghost use Rattle.std.specs.Prelude.{◌≡◌, ◌<◌, ◌≤◌, ◌+◌, ◌++◌, ◌^◌, T, length, map, take, IfOk, IsTrue, OnOk, All};
ghost use Rattle.std.specs.FinMap as finite;
ghost use Rattle.std.specs.FinMap.{is_sorted};
ghost use Rattle.std.specs.Option.{option_map};
ghost use Rattle.layer_base.specs.Among.{bare};
ghost use Rattle.forward_data.specs.Combined.{AreAlone, are_kept, counted};
ghost use Rattle.forward_data.specs.Records.{AreFull, left_by, record_cmp, records_of, records_over};

use crate::combine::combined;
use crate::{ForwardDelta, ForwardItem, ForwardItems, ForwardStack, RecordKey};
use layer_base::{last_words, look_up, look_up_near};
use std::alloc::{AllocError, Global};
use std::marker::Model;
use uni_base::Rows;

/// Records in the order of their keys.
#[derive(Drop)]
pub(crate) struct RecordRows {
    rows: Vec<(RecordKey, ForwardItems)>,
    // Whether none of them is empty.
    is_full: bool,
}

impl Model for RecordRows {
    ghost use Rattle.std.specs.Prelude.{T, IsTrue};
    ghost use Rattle.std.specs.Coded.{codes};
    ghost use Rattle.std.specs.FinMap as finite;
    ghost use Rattle.forward_data.specs.Combined.{are_kept};
    ghost use Rattle.forward_data.specs.Records.{Records, record_cmp};

    ghost Value = { Records };

    ghost coded = { Prim.hlevel (codes, finite.code) };

    ghost view = { λ l. finite.from_sorted l.rows.items };

    ghost invariant = { λ l. T (finite.is_sorted record_cmp l.rows.items) × (IsTrue l.is_full → are_kept l.rows.items) };
}

impl RecordRows {
    // The rows of some records.
    pub(crate) fn build(delta: ForwardDelta) -> Result<RecordRows, AllocError>
        ensures { IfOk result (λ rows. rows ≡ delta) }
    {
        let ForwardDelta { log } = delta;
        let rows = last_words(log)?;
        let is_full = are_kept(&rows);
        Ok(RecordRows { rows, is_full })
    }

    // Whether none of the records is empty.
    pub(crate) fn is_full(&self) -> bool
        ensures { IsTrue result → AreFull self.now }
    {
        self.is_full
    }

    // How many records there are.
    pub(crate) fn len(&self) -> usize
        ensures len { result ≡ finite.len self.now }
        ensures few { result < 2 ^ 63 }
    {
        self.rows.len()
    }

    // How many there are over a base, without empty ones in the rows.
    pub(crate) fn entries_over(&self, base: &RecordRows) -> u64
        requires { finite.len base.now + finite.len self.now < 2 ^ 63 }
        ensures entries { result ≡ finite.len (records_over base.now self.now) }
        ensures few { result < 2 ^ 63 }
    {
        let mut count = base.len() as u64;
        for (key, items) in &self.rows {
            count = counted(base.record(key).is_some(), items, count);
        }
        count
    }

    // Adds the keys of its records to a list.
    pub(crate) fn note_keys(&self, keys: &mut Vec<(RecordKey, ())>) -> Result<(), AllocError>
        ensures { OnOk result (keys.new.items ≡ keys.old.items ++ map bare (finite.entries self.now)) }
    {
        note_rows(keys, &self.rows)
    }

    // Puts the records that the first layers of a stack stand for. At each key that is not among the
    // changed ones, that is what the rows have.
    pub(crate) fn combined(
        &self,
        alloc: Global,
        stack: &ForwardStack,
        count: usize,
        changed: &[(RecordKey, ())],
    ) -> Result<ForwardDelta, AllocError>
        requires count { count ≤ length stack.now.0 }
        requires sorted { T (is_sorted record_cmp changed.now) }
        requires alone { AreAlone changed.now self.now (take count stack.now.0) }
        ensures { IfOk result (λ delta. delta ≡ records_of (take count stack.now.0)) }
    {
        combined(alloc, stack, count, changed, &self.rows)
    }

    // The record at a key, which may be empty. None exactly where there is none.
    pub(crate) fn record(&self, key: &RecordKey) -> Option<&ForwardItems>
        ensures { option_map (λ r. r.now) result ≡ finite.get self.now key.now }
    {
        look_up(&self.rows, key)
    }

    // The same, by a search that begins at a hint. Keys that are asked for in their order are found
    // at once.
    pub(crate) fn record_near(&self, hint: &mut usize, key: &RecordKey) -> Option<&ForwardItems>
        ensures { option_map (λ r. r.now) result ≡ finite.get self.now key.now }
    {
        look_up_near(&self.rows, hint, key)
    }
}

// How many records there are after one is replaced, which is known or not, among so many.
fn counted(is_known: bool, items: &ForwardItems, count: u64) -> u64
    requires known { IsTrue is_known → 0 < count }
    requires few { count < u64.MAX }
    ensures { result ≡ counted is_known items.now count }
{
    match (is_known, items.is_empty()) {
        (true, true) => count - 1,
        (false, false) => count + 1,
        _ => count,
    }
}

// Whether none of the records is empty.
fn are_kept(rows: &[(RecordKey, ForwardItems)]) -> bool
    ensures { IsTrue result → are_kept rows.now }
{
    for (_key, items) in rows {
        if items.is_empty() {
            return false;
        }
    }
    true
}

// A record, if it is not empty.
pub(crate) fn full(items: &ForwardItems) -> Option<&ForwardItems>
    ensures { option_map (λ r. r.now) result ≡ left_by items.now }
{
    if items.is_empty() { None } else { Some(items) }
}

fn note_rows(
    keys: &mut Vec<(RecordKey, ())>,
    rows: &[(RecordKey, ForwardItems)],
) -> Result<(), AllocError>
    ensures { OnOk result (keys.new.items ≡ keys.old.items ++ map bare rows.now) }
{
    for (key, _items) in rows {
        keys.push((*key, ()))?;
    }
    Ok(())
}

// A copy of a record that is not empty.
pub(crate) fn left_by(
    alloc: Global,
    items: &[ForwardItem],
) -> Result<Option<ForwardItems>, AllocError>
    ensures { IfOk result (λ left. left ≡ left_by items.now) }
{
    if items.is_empty() {
        return Ok(None);
    }
    let mut copy = Rows::new(alloc);
    copy.extend_from_slice(items)?;
    Ok(Some(copy))
}
