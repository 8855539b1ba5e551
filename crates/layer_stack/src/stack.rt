ghost use Rattle.std.specs.Prelude.{◌≡◌, ◌+◌, ◌≤◌, ◌<◌, ◌++◌, ◌∷◌, [], length, take, Some, IfOk};
ghost use Rattle.std.specs.List.{slice_get};
ghost use Rattle.std.specs.FinMap as finite;
ghost use Rattle.layer_base.specs.Layers.{stack_table};
ghost use Rattle.layer_stack.specs.Postings.{postings_of, place_of, putting_all};

use crate::combine::Changed;
use crate::parts::Parts;
use crate::{Delta, Layer, StackCursor, TermKey};
use layer_base::SharedLayers;
use std::alloc::{AllocError, Global};
use std::marker::Model;
use std::sync::Arc;
use uni_base::{Audience, DocKey};

/// Layers of postings, the oldest first, which other stacks may share. Contracts see the layers,
/// and how many more it has room for.
#[derive(Drop)]
pub struct Stack {
    layers: SharedLayers<Layer>,
}

impl Model for Stack {
    ghost use Rattle.std.specs.Prelude.{List, ℕ};
    ghost use Rattle.std.specs.Coded.{codes};
    ghost use Rattle.std.specs.FinMap as finite;
    ghost use Rattle.layer_stack.specs.Postings.{PostingChanges};

    ghost Value = { List PostingChanges × ℕ };

    ghost coded = { Prim.hlevel (codes, finite.code) };

    ghost view = { λ s. s.layers };
}

impl Stack {
    /// A stack of one layer.
    pub fn of(alloc: Global, base: Arc<Layer>) -> Result<Stack, AllocError>
        ensures { IfOk result (λ stack. stack.0 ≡ base.value ∷ []) }
    {
        let layers = SharedLayers::of(alloc, base)?;
        Ok(Stack { layers })
    }

    /// How many layers it has.
    pub fn layers(&self) -> usize
        ensures { result ≡ length self.now.0 }
    {
        self.layers.layers()
    }

    /// The layer at a place, the oldest being 0.
    pub fn layer(&self, i: usize) -> &Arc<Layer>
        requires { i < length self.now.0 }
        ensures { slice_get self.now.0 i ≡ Some result.now.value }
    {
        self.layers.layer(i)
    }

    /// An equal stack with room for at least so many layers more.
    pub fn roomy(&self, extra: usize) -> Result<Stack, AllocError>
        ensures layers { IfOk result (λ stack. stack.0 ≡ self.now.0) }
        ensures room { IfOk result (λ stack. extra ≤ stack.1) }
    {
        let layers = self.layers.roomy(extra)?;
        Ok(Stack { layers })
    }

    /// Adds a layer above all others, for which there is room.
    pub fn push_reserved(&mut self, layer: Arc<Layer>)
        requires { 0 < self.old.1 }
        ensures layers { self.new.0 ≡ self.old.0 ++ layer.value ∷ [] }
        ensures room { self.new.1 + 1 ≡ self.old.1 }
    {
        self.layers.push_reserved(layer);
    }

    /// The postings of a term, in rank order.
    pub fn cursor(&self, alloc: Global, term: &TermKey) -> Result<StackCursor<'_>, AllocError>
        ensures { IfOk result (λ cursor. cursor ≡ postings_of term.now (stack_table self.now.0)) }
    {
        let mut parts = Parts::new(alloc);
        for i in 0..self.layers() {
            parts.add(self.layer(i).part(term))?;
        }
        StackCursor::over(parts)
    }

    /// The audience of the posting of a term at a key. None exactly where the table has none.
    pub fn find(&self, term: &TermKey, key: DocKey) -> Option<Audience>
        ensures { result ≡ finite.get (stack_table self.now.0) (place_of term.now key) }
    {
        let mut answer = None;
        for i in 0..self.layers() {
            let mut part = self.layer(i).part(term);
            part.seek(key);
            answer = part.take(answer, &key);
        }
        answer
    }

    /// The first `count` layers, the oldest ones, as one layer that deletes nothing.
    pub fn combined(&self, alloc: Global, count: usize) -> Result<Layer, AllocError>
        requires { count ≤ length self.now.0 }
        ensures { IfOk result (λ layer. layer ≡ putting_all (stack_table (take count self.now.0))) }
    {
        if count == 0 {
            return Layer::build(alloc, Delta::new(alloc));
        }
        let changed = Changed::of(alloc, self, count)?;
        self.layer(0).combined(alloc, self, count, changed)
    }
}
