ghost use Rattle.std.specs.Prelude.{◌≡◌, ◌*◌, ◌/◌, ◌++◌, take, length, IfOk, OnOk};
ghost use Rattle.layer_base.specs.Shared.{values, layers_in, AreWhole};

use std::alloc::{AllocError, Global};
use std::sync::Arc;

/// How many layers a block has that stacks share.
pub(crate) const BLOCK: usize = 64;

/// How many blocks a stack has at most.
const MOST_BLOCKS: usize = 1 << 50;

/// Layers that all stacks with the block share.
pub(crate) type Block<T> = Vec<Arc<T>>;

// References to the same values.
pub(crate) fn references<T: Drop>(
    alloc: Global,
    items: &[Arc<T>],
) -> Result<Vec<Arc<T>>, AllocError>
    ensures { IfOk result (λ copies. values copies.items ≡ values items.now) }
{
    let mut copies = Vec::with_capacity(alloc, items.len())?;
    for item in items {
        copies.push(Arc::try_clone(item)?)?;
    }
    Ok(copies)
}

// Adds to blocks of layers one for each 64 of some more layers, as long as there are so many.
pub(crate) fn freeze<T: Drop>(
    alloc: Global,
    blocks: &mut Vec<Arc<Block<T>>>,
    recent: &[Arc<T>],
) -> Result<(), AllocError>
    requires { AreWhole (values blocks.old.items) }
    ensures layers { OnOk result (layers_in (values blocks.new.items) ≡ layers_in (values blocks.old.items) ++ take (64 * (length recent.now / 64)) (values recent.now)) }
    ensures whole { OnOk result (AreWhole (values blocks.new.items)) }
{
    for n in 0..recent.len() / BLOCK {
        if blocks.len() >= MOST_BLOCKS {
            return Err(AllocError);
        }
        let block = references(alloc, &recent[BLOCK * n..BLOCK * n + BLOCK])?;
        blocks.push(Arc::new(alloc, block)?)?;
    }
    Ok(())
}
