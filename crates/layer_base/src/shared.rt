ghost use Rattle.std.specs.Prelude.{◌≡◌, ◌+◌, ◌≤◌, ◌<◌, ◌++◌, ◌∷◌, [], length, Some, slice_get, IfOk};
ghost use Rattle.layer_base.specs.Shared.{layers_of};

use crate::blocks::{BLOCK, Block, freeze, references};
use std::alloc::{AllocError, Global};
use std::marker::Model;
use std::sync::Arc;

/// Layers, oldest first, which other stacks may share. Contracts see the layers, and how many
/// more it has room for.
#[derive(Drop)]
pub struct SharedLayers<T: Drop> {
    // Blocks of 64 layers, and then the newest ones.
    blocks: Vec<Arc<Block<T>>>,
    recent: Vec<Arc<T>>,
}

impl<T: Drop> Model for SharedLayers<T> {
    ghost use Rattle.std.specs.Prelude.{◌-◌, List, ℕ};
    ghost use Rattle.std.specs.Vec.{vec_len, vec_capacity};
    ghost use Rattle.layer_base.specs.Shared.{layers_of, values, AreWhole};

    ghost Value = { List T × ℕ };

    ghost view = { λ s. (layers_of (values s.blocks.items) s.recent.items, vec_capacity s.recent - vec_len s.recent) };

    ghost invariant = { λ s. AreWhole (values s.blocks.items) };
}

impl<T: Drop> SharedLayers<T> {
    /// A stack of one layer.
    pub fn of(alloc: Global, base: Arc<T>) -> Result<SharedLayers<T>, AllocError>
        ensures { IfOk result (λ stack. stack.0 ≡ base.value ∷ []) }
    {
        let mut recent = Vec::new(alloc);
        recent.push(base)?;
        Ok(SharedLayers {
            blocks: Vec::new(alloc),
            recent,
        })
    }

    /// How many layers it has.
    pub fn layers(&self) -> usize
        ensures { result ≡ length self.now.0 }
    {
        BLOCK * self.blocks.len() + self.recent.len()
    }

    /// The layer at a place, the oldest being 0.
    pub fn layer(&self, i: usize) -> &Arc<T>
        requires { i < length self.now.0 }
        ensures { slice_get self.now.0 i ≡ Some result.now.value }
    {
        let block = i / BLOCK;
        if block < self.blocks.len() {
            &self.blocks[block][i % BLOCK]
        } else {
            &self.recent[i - BLOCK * self.blocks.len()]
        }
    }

    /// An equal stack with room for at least so many layers more. It copies one reference for each
    /// block and each of the newest layers.
    pub fn roomy(&self, extra: usize) -> Result<SharedLayers<T>, AllocError>
        ensures layers { IfOk result (λ stack. stack.0 ≡ self.now.0) }
        ensures room { IfOk result (λ stack. extra ≤ stack.1) }
    {
        let alloc = *self.recent.allocator();
        let mut blocks = references(alloc, &self.blocks)?;
        freeze(alloc, &mut blocks, &self.recent)?;
        let whole = self.recent.len() / BLOCK;
        let mut recent = references(alloc, &self.recent[BLOCK * whole..])?;
        recent.reserve(extra)?;
        Ok(SharedLayers { blocks, recent })
    }

    /// Adds a layer above all others, for which there is room.
    pub fn push_reserved(&mut self, layer: Arc<T>)
        requires { 0 < self.old.1 }
        ensures layers { self.new.0 ≡ self.old.0 ++ layer.value ∷ [] }
        ensures room { self.new.1 + 1 ≡ self.old.1 }
    {
        self.recent.push_reserved(layer);
    }
}
