ghost use Rattle.std.specs.Prelude.{◌≡◌, ◌+◌, ◌≤◌, ◌<◌, ◌++◌, ◌∷◌, [], length, take, Some, IfOk};
ghost use Rattle.std.specs.List.{slice_get};
ghost use Rattle.std.specs.Option.{option_map, unwrap_or};
ghost use Rattle.forward_data.specs.Records.{record_key, record_of, records_of};

use crate::combine::changed_keys;
use crate::{ForwardDelta, ForwardItem, ForwardItems, ForwardLayer, RecordKey};
use layer_base::SharedLayers;
use std::alloc::{AllocError, Global};
use std::marker::Model;
use std::sync::Arc;
use uni_base::EntityId;

/// Layers of records, the oldest first, which other stacks may share. Contracts see the layers,
/// and how many more it has room for.
#[derive(Drop)]
pub struct ForwardStack {
    layers: SharedLayers<ForwardLayer>,
}

impl Model for ForwardStack {
    ghost use Rattle.std.specs.Prelude.{List, ℕ};
    ghost use Rattle.std.specs.Coded.{codes};
    ghost use Rattle.std.specs.FinMap as finite;
    ghost use Rattle.forward_data.specs.Records.{Records};

    ghost Value = { List Records × ℕ };

    ghost coded = { Prim.hlevel (codes, finite.code) };

    ghost view = { λ s. s.layers };
}

impl ForwardStack {
    /// A stack of one layer.
    pub fn of(alloc: Global, base: Arc<ForwardLayer>) -> Result<ForwardStack, AllocError>
        ensures { IfOk result (λ stack. stack.0 ≡ base.value ∷ []) }
    {
        let layers = SharedLayers::of(alloc, base)?;
        Ok(ForwardStack { layers })
    }

    /// How many layers it has.
    pub fn layers(&self) -> usize
        ensures { result ≡ length self.now.0 }
    {
        self.layers.layers()
    }

    /// The layer at a place, the oldest being 0.
    pub fn layer(&self, i: usize) -> &Arc<ForwardLayer>
        requires { i < length self.now.0 }
        ensures { slice_get self.now.0 i ≡ Some result.now.value }
    {
        self.layers.layer(i)
    }

    /// An equal stack with room for at least so many layers more.
    pub fn roomy(&self, extra: usize) -> Result<ForwardStack, AllocError>
        ensures layers { IfOk result (λ stack. stack.0 ≡ self.now.0) }
        ensures room { IfOk result (λ stack. extra ≤ stack.1) }
    {
        let layers = self.layers.roomy(extra)?;
        Ok(ForwardStack { layers })
    }

    /// Adds a layer above all others, for which there is room.
    pub fn push_reserved(&mut self, layer: Arc<ForwardLayer>)
        requires { 0 < self.old.1 }
        ensures layers { self.new.0 ≡ self.old.0 ++ layer.value ∷ [] }
        ensures room { self.new.1 + 1 ≡ self.old.1 }
    {
        self.layers.push_reserved(layer);
    }

    /// The newest record, empty where there is none.
    pub fn lookup(&self, type_no: u16, id: EntityId) -> &[ForwardItem]
        ensures { result.now ≡ record_of (record_key type_no id) self.now.0 }
    {
        let key = RecordKey { type_no, id };
        let mut newest: &[ForwardItem] = &[];
        for i in 0..self.layers() {
            newest = newer(newest, self.layer(i).record(&key));
        }
        newest
    }

    // The newest record in the first layers, empty where there is none. There is a hint for each of
    // the layers, at which its search begins.
    pub(crate) fn front_lookup(&self, hints: &mut [usize], key: &RecordKey) -> &[ForwardItem]
        requires { length hints.old ≤ length self.now.0 }
        ensures record { result.now ≡ record_of key.now (take (length hints.old) self.now.0) }
        ensures hints { length hints.new ≡ length hints.old }
    {
        let mut newest: &[ForwardItem] = &[];
        for i in 0..hints.len() {
            newest = newer(newest, self.layer(i).record_near(&mut hints[i], key));
        }
        newest
    }

    /// The first `count` layers, the oldest ones, as one layer without empty records.
    pub fn combined(&self, alloc: Global, count: usize) -> Result<ForwardLayer, AllocError>
        requires { count ≤ length self.now.0 }
        ensures { IfOk result (λ layer. layer ≡ records_of (take count self.now.0)) }
    {
        if count == 0 {
            return ForwardLayer::build(ForwardDelta::new(alloc));
        }
        let changed = changed_keys(alloc, self, count)?;
        self.layer(0).combined(alloc, self, count, changed)
    }
}

// What a layer says of a record, or else the older record.
fn newer<'a>(older: &'a [ForwardItem], said: Option<&'a ForwardItems>) -> &'a [ForwardItem]
    ensures { result.now ≡ unwrap_or (option_map (λ r. r.now) said.entry) older.now }
{
    match said {
        Some(items) => items.as_slice(),
        None => older,
    }
}
