ghost use Rattle.std.specs.Prelude.{◌≡◌, ◌<◌, ◌≤◌, ◌+◌, ◌^◌, Some, is_some, false, length, take, drop, OnOk, OnErr, IfOk};
ghost use Rattle.std.specs.List.{slice_get};
ghost use Rattle.std.specs.FinMap as finite;
ghost use Rattle.layer_base.specs.Layers.{put_all};
ghost use Rattle.std.specs.Option.{option_map};
ghost use Rattle.forward_data.specs.Combined.{AreChanged, is_among};
ghost use Rattle.forward_data.specs.Records.{record_key, records_over, records_of, under};

use crate::patch::merged;
use crate::rows::{RecordRows, full};
use crate::{ForwardItems, ForwardStack, RecordKey};
use layer_base::last_words;
use std::alloc::{AllocError, Global};
use std::marker::Model;
use std::sync::Arc;
use uni_base::EntityId;

/// The records of a layer as they come in.
#[derive(Drop)]
pub struct ForwardDelta {
    pub(crate) log: Vec<(RecordKey, ForwardItems)>,
}

impl Model for ForwardDelta {
    ghost use Rattle.std.specs.Coded.{codes};
    ghost use Rattle.std.specs.FinMap as finite;
    ghost use Rattle.layer_base.specs.Layers.{from_log};
    ghost use Rattle.forward_data.specs.Records.{Records};

    ghost Value = { Records };

    ghost coded = { Prim.hlevel (codes, finite.code) };

    ghost view = { λ d. from_log d.log.items };
}

impl ForwardDelta {
    /// No records.
    pub fn new(alloc: Global) -> ForwardDelta
        ensures { result ≡ finite.empty }
    {
        ForwardDelta {
            log: Vec::new(alloc),
        }
    }

    /// Replaces a record whole; an empty list removes it. A second list for the same record
    /// replaces the first. A delta that finds no memory stays as it was.
    pub fn replace(
        &mut self,
        type_no: u16,
        id: EntityId,
        items: ForwardItems,
    ) -> Result<(), AllocError>
        ensures ok { OnOk result (self.new ≡ finite.insert self.old (record_key type_no id) items) }
        ensures err { OnErr result (self.new ≡ self.old) }
    {
        self.log.push((RecordKey { type_no, id }, items))?;
        Ok(())
    }

    /// Adds the records of another one, which come later.
    pub fn append(&mut self, later: ForwardDelta) -> Result<(), AllocError>
        ensures { OnOk result (self.new ≡ put_all (finite.entries later) self.old) }
    {
        let ForwardDelta { mut log } = later;
        self.log.append(&mut log)?;
        Ok(())
    }
}

/// A layer of a stack of records. A merged layer may share most of its records with the one that it is
/// made of: it has rows of its own at the keys that changed since, and a base at all others.
#[derive(Drop)]
pub struct ForwardLayer {
    rows: Arc<RecordRows>,
    // What stands at the keys that the rows leave alone.
    base: Option<Arc<RecordRows>>,
}

impl Model for ForwardLayer {
    ghost use Rattle.std.specs.Option.{option_map};
    ghost use Rattle.std.specs.Coded.{codes};
    ghost use Rattle.std.specs.FinMap as finite;
    ghost use Rattle.std.specs.Prelude.{◌<◌, ◌+◌, ◌^◌, IfSome};
    ghost use Rattle.forward_data.specs.Combined.{layer_of};
    ghost use Rattle.forward_data.specs.Records.{Records};

    ghost Value = { Records };

    ghost coded = { Prim.hlevel (codes, finite.code) };

    ghost view = { λ l. layer_of l.rows.value (option_map (λ b. b.value) l.base) };

    ghost invariant = { λ l. IfSome l.base (λ b. finite.len b.value + finite.len l.rows.value < 2 ^ 63) };
}

impl ForwardLayer {
    /// The layer of some records.
    pub fn build(delta: ForwardDelta) -> Result<ForwardLayer, AllocError>
        ensures { IfOk result (λ layer. layer ≡ delta) }
    {
        let alloc = *delta.log.allocator();
        let rows = RecordRows::build(delta)?;
        let rows = Arc::new(alloc, rows)?;
        Ok(ForwardLayer { rows, base: None })
    }

    // The layer of rows over a base.
    pub(crate) fn over(rows: Arc<RecordRows>, base: Arc<RecordRows>) -> ForwardLayer
        requires { finite.len base.value + finite.len rows.value < 2 ^ 63 }
        ensures { result ≡ records_over base.value rows.value }
    {
        ForwardLayer {
            rows,
            base: Some(base),
        }
    }

    /// The number of its records.
    pub fn entries(&self) -> u64
        ensures entries { result ≡ finite.len self.now }
        ensures few { result < 2 ^ 63 }
    {
        match &self.base {
            Some(base) => self.rows.entries_over(base),
            None => self.rows.len() as u64,
        }
    }

    // Adds the keys of its records to a list, and maybe others.
    pub(crate) fn note_keys(&self, keys: &mut Vec<(RecordKey, ())>) -> Result<(), AllocError>
        ensures { OnOk result ((k : RecordKey) → is_among k keys.new.items ≡ false → (is_among k keys.old.items ≡ false) × (is_some (finite.get self.now k) ≡ false)) }
    {
        self.rows.note_keys(keys)?;
        if let Some(base) = &self.base {
            base.note_keys(keys)?;
        }
        Ok(())
    }

    // What the first layers of a stack stand for, of which this is the oldest one, as one layer. Under
    // any other key than the changed ones the newer ones of them have no record.
    pub(crate) fn combined(
        &self,
        alloc: Global,
        stack: &ForwardStack,
        count: usize,
        changed: Vec<(RecordKey, ())>,
    ) -> Result<ForwardLayer, AllocError>
        requires oldest { slice_get stack.now.0 0 ≡ Some self.now }
        requires count { (0 < count) × (count ≤ length stack.now.0) }
        requires changed { AreChanged (drop 1 (take count stack.now.0)) changed.items }
        ensures { IfOk result (λ layer. layer ≡ records_of (take count stack.now.0)) }
    {
        match &self.base {
            Some(base) => {
                let mut keys = changed;
                self.rows.note_keys(&mut keys)?;
                let keys = last_words(keys)?;
                merged(alloc, stack, count, &keys, base)
            }
            None => merged(alloc, stack, count, &changed, &self.rows),
        }
    }

    // Its record, which may be empty. None exactly where it says nothing of the record.
    pub(crate) fn record(&self, key: &RecordKey) -> Option<&ForwardItems>
        ensures { option_map (λ r. r.now) result ≡ finite.get self.now key.now }
    {
        let own = self.rows.record(key);
        match &self.base {
            Some(base) => over(own, base, key),
            None => own,
        }
    }

    // The same, by a search that begins at a hint. Keys that are asked for in their order are found
    // at once among its own rows.
    pub(crate) fn record_near(&self, hint: &mut usize, key: &RecordKey) -> Option<&ForwardItems>
        ensures { option_map (λ r. r.now) result ≡ finite.get self.now key.now }
    {
        let own = self.rows.record_near(hint, key);
        match &self.base {
            Some(base) => over(own, base, key),
            None => own,
        }
    }
}

// The record at a key, given what a layer's own rows have there, which lie over a base.
fn over<'a>(
    own: Option<&'a ForwardItems>,
    base: &'a RecordRows,
    key: &RecordKey,
) -> Option<&'a ForwardItems>
    ensures { option_map (λ r. r.now) result ≡ under (option_map (λ r. r.now) own.entry) (finite.get base.now key.now) }
{
    match own {
        Some(items) => full(items),
        None => base.record(key),
    }
}
