ghost use Rattle.std.specs.Prelude.{◌≡◌};
ghost use Rattle.std.specs.FinMap as finite;
ghost use Rattle.layer_base.specs.Layers.{stack_table};

use crate::EntityLayer;
use layer_base::SharedLayers;
use uni_base::{EntityId, Rank};

// The rank of an entity in a stack of layers.
pub(crate) fn rank_in(layers: &SharedLayers<EntityLayer>, id: EntityId) -> Option<Rank>
    ensures { result ≡ finite.get (stack_table layers.now.0) id }
{
    let mut rank = None;
    for i in 0..layers.layers() {
        rank = layers.layer(i).over(rank, id);
    }
    rank
}
