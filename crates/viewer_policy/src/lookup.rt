//! Whether a version has an edge.
ghost use Rattle.std.specs.Prelude.{◌≡◌, ◌==◌, ◌<◌, true, length};
ghost use Rattle.std.specs.List.{list_any};
ghost use Rattle.std.specs.List.Sorted.{IsStrictlySortedBy};
ghost use Rattle.std.specs.Ordering.{nat_cmp};
ghost use Rattle.uni_base.specs.declared.limits.Limits.{Limits};
ghost use Rattle.uni_base.specs.declared.edge.Key.TheVariants.{Id};
ghost use Rattle.uni_schema.specs.Schema.{IsSchema};
ghost use Rattle.uni_table.specs.Contents.{Contents, has_edge};
ghost use Rattle.uni_table.specs.Shards.{is_forward_type};
ghost use Rattle.shard_index.specs.Laws.{edge_to, leads_to};
ghost use Rattle.viewer_policy.specs.Judged.{StandsFor, targets};

use forward_data::ForwardItem;
use shard_index::Version;
use uni_base::{EdgeRef, EntityId, Key};
use uni_schema::{Origin, Store};

// Whether an edge of a type and key leads to an entity: an index edge is looked for in the shard of
// its target, a forward edge in the record of its source.
pub(crate) fn reaches(version: &Version, type_no: u16, key: &Key, target: EntityId) -> bool
    ensures { (limits : Limits) (table : Contents) → StandsFor version.now limits table → result ≡ has_edge table (edge_to type_no key.now target) }
{
    let schema = version.schema();
    if type_no >= schema.types() {
        return false;
    }
    let type_def = schema.type_def(type_no);
    match type_def.store {
        Store::Index => is_indexed(version, type_def.target, type_no, key, target),
        Store::Forward => {
            let Origin::Vertical(vertical) = type_def.origin else {
                return false;
            };
            let Key::Id(source) = key else {
                return false;
            };
            is_recorded(version, vertical, type_no, *source, target)
        }
    }
}

// Whether an index edge leads to an entity.
fn is_indexed(version: &Version, vertical: u16, type_no: u16, key: &Key, target: EntityId) -> bool
    requires schema { IsSchema version.now.schema }
    requires within { vertical < length version.now.schema.verticals }
    requires leads { leads_to version.now.schema vertical type_no ≡ true }
    ensures { (limits : Limits) (table : Contents) → StandsFor version.now limits table → result ≡ has_edge table (edge_to type_no key.now target) }
{
    let shard = version.schema().shard_of(vertical, target);
    let edge = EdgeRef {
        type_no,
        key: *key,
        target,
    };
    version.shard(vertical, shard, 0).has_edge(&edge)
}

// Whether a forward edge leads from one entity to another.
fn is_recorded(
    version: &Version,
    vertical: u16,
    type_no: u16,
    source: EntityId,
    target: EntityId,
) -> bool
    requires schema { IsSchema version.now.schema }
    requires within { vertical < length version.now.schema.verticals }
    requires starts { is_forward_type version.now.schema vertical type_no ≡ true }
    ensures { (limits : Limits) (table : Contents) → StandsFor version.now limits table → result ≡ has_edge table (edge_to type_no (Id source) target) }
{
    let shard = version.schema().shard_of(vertical, source);
    leads(
        version.shard(vertical, shard, 0).forward(type_no, source),
        target,
    )
}

// Whether one of the edges of a record leads to an entity, which it finds by halving.
fn leads(items: &[ForwardItem], target: EntityId) -> bool
    ensures { IsStrictlySortedBy nat_cmp (targets items.now) → result ≡ list_any (λ item. item.target == target) items.now }
{
    match items.binary_search_by(|item| item.target.cmp(&target)) {
        Ok(_) => true,
        Err(_) => false,
    }
}
