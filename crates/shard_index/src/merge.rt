ghost use Rattle.std.specs.Prelude.{◌≡◌, ◌≤◌, length, take, IfOk};
ghost use Rattle.layer_base.specs.Layers.{stack_table};
ghost use Rattle.shard_index.specs.Entities.{putting_entities};

use crate::EntityLayer;
use layer_base::{SharedLayers, rows_left};
use std::alloc::{AllocError, Global};

// The first layers of a stack of entities as one layer that removes none.
pub(crate) fn merge_front(
    alloc: Global,
    layers: &SharedLayers<EntityLayer>,
    count: usize,
) -> Result<EntityLayer, AllocError>
    requires { count ≤ length layers.now.0 }
    ensures { IfOk result (λ layer. layer ≡ putting_entities (stack_table (take count layers.now.0))) }
{
    let mut log = Vec::new(alloc);
    for i in 0..count {
        layers.layer(i).log_changes(&mut log)?;
    }
    EntityLayer::of_rows(alloc, rows_left(alloc, log)?)
}
