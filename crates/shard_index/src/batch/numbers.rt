//! The numbers of shards among those of all verticals.
ghost use Rattle.std.specs.Prelude.{◌≡◌, ◌<◌, length, slice_get, IfOk, IfSome};
ghost use Rattle.std.specs.Option.{option_and_then};
ghost use Rattle.shard_index.specs.Batches.{all_shards};
ghost use Rattle.shard_index.specs.Numbers.{AreFirsts, shard_for, shard_keeping};

use std::alloc::{AllocError, Global};
use uni_base::{EdgeRef, EntityId, Key};
use uni_schema::{Origin, Schema, Store, TypeDef};

/// The number of the first shard of each vertical, and at the end how many shards there are.
pub(crate) fn first_shards(alloc: Global, schema: &Schema) -> Result<Vec<usize>, AllocError>
    ensures { IfOk result (λ firsts. AreFirsts schema.now firsts.items) }
{
    let mut firsts = Vec::with_capacity(alloc, schema.verticals() as usize + 1)?;
    let mut count = 0;
    firsts.push(count)?;
    for vertical in 0..schema.verticals() {
        count += schema.vertical(vertical).shards as usize;
        firsts.push(count)?;
    }
    Ok(firsts)
}

/// The number of the shard of an id in a vertical, if there is such a vertical.
pub(super) fn shard_no(
    schema: &Schema,
    firsts: &[usize],
    vertical: u16,
    id: EntityId,
) -> Option<usize>
    requires { AreFirsts schema.now firsts.now }
    ensures at { option_and_then (slice_get (all_shards schema.now)) result ≡ shard_for schema.now vertical id }
    ensures within { IfSome result (λ number. number < length (all_shards schema.now)) }
{
    if vertical >= schema.verticals() {
        return None;
    }
    let shard = schema.shard_of(vertical, id);
    Some(firsts[vertical as usize] + shard as usize)
}

/// The number of the shard that keeps an edge of a type, if one does.
pub(super) fn keeper_no(
    schema: &Schema,
    firsts: &[usize],
    type_def: &TypeDef,
    edge: &EdgeRef,
) -> Option<usize>
    requires { AreFirsts schema.now firsts.now }
    ensures at { option_and_then (slice_get (all_shards schema.now)) result ≡ shard_keeping schema.now type_def.now edge.now }
    ensures within { IfSome result (λ number. number < length (all_shards schema.now)) }
{
    if type_def.store == Store::Index {
        return shard_no(schema, firsts, type_def.target, edge.target);
    }
    let Origin::Vertical(vertical) = type_def.origin else {
        return None;
    };
    let Key::Id(id) = edge.key else {
        return None;
    };
    shard_no(schema, firsts, vertical, id)
}
