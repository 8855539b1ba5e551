//! The forward edges of an entity, parted by the shards that they lead into.
ghost use Rattle.std.specs.Prelude.{◌≡◌, ◌<◌, true, length, map, Some, All, IfOk, OnOk};
ghost use Rattle.std.specs.List.{filter_map};
ghost use Rattle.uni_base.specs.declared.entity.DocKey.{DocKey};
ghost use Rattle.uni_base.specs.declared.limits.Limits.{Limits};
ghost use Rattle.uni_base.specs.Cursors.{IsRanked};
ghost use Rattle.uni_schema.specs.Schema.{IsSchema, shard_of};
ghost use Rattle.uni_schema.specs.declared.schema.Origin.TheVariants.{Vertical};
ghost use Rattle.uni_schema.specs.declared.schema.Store.TheVariants.{Forward};
ghost use Rattle.uni_table.specs.Contents.{Contents};
ghost use Rattle.uni_table.specs.Shards.{is_forward_type};
ghost use Rattle.query_check.specs.Verticals.{IsType};
ghost use Rattle.uni_meaning.specs.Hits.{shards_of};
ghost use Rattle.posting_lists.specs.declared.posting.Posting.{Posting};
ghost use Rattle.posting_lists.specs.Postings.{keys_of};
ghost use Rattle.shard_index.specs.Laws.{rank_in_shard};
ghost use Rattle.apply_extract.specs.Split.{empty_lists_of, lists_of, with_item};
ghost use Rattle.viewer_policy.specs.Judged.{StandsFor};
ghost use Rattle.apply_extract.specs.Edges.{AreInOrder, edges_by_shard, posting_in, postings_by_shard, record_items};

use forward_data::ForwardItem;
use posting_lists::Posting;
use shard_index::Version;
use std::alloc::{AllocError, Global};
use uni_base::{DocKey, EntityId, Rank};
use uni_schema::Schema;

/// The forward edges of a type from an entity of its source vertical, as postings: for each shard of its
/// target vertical those that lead into it, in rank order. They are read from the first replicas.
pub(crate) fn edges_from(
    alloc: Global,
    version: &Version,
    type_no: u16,
    source: u16,
    target: u16,
    id: EntityId,
) -> Result<Vec<Vec<Posting>>, AllocError>
    requires schema { IsSchema version.now.schema }
    requires source { source < length version.now.schema.verticals }
    requires target { target < length version.now.schema.verticals }
    ensures count { IfOk result (λ lists. length lists.items ≡ shards_of version.now.schema target) }
    ensures ranked { IfOk result (λ lists. All (λ list. IsRanked (keys_of list.items)) lists.items) }
    ensures edges { IfOk result (λ lists. (limits : Limits) (table : Contents) → StandsFor version.now limits table
        → IsType version.now.schema type_no Forward (Vertical source) target
        → (y : DocKey) → y.id ≡ id → lists_of lists.items ≡ edges_by_shard version.now.schema table type_no y) }
{
    let schema = version.schema();
    let items = items_from(version, type_no, source, id);
    let postings = in_rank_order(postings_of(alloc, version, target, items)?);
    by_shard(alloc, schema, target, postings.as_slice())
}

// The record of a type and an entity.
fn items_from(version: &Version, type_no: u16, source: u16, id: EntityId) -> &[ForwardItem]
    requires schema { IsSchema version.now.schema }
    requires source { source < length version.now.schema.verticals }
    ensures { (limits : Limits) (table : Contents) → StandsFor version.now limits table
        → is_forward_type version.now.schema source type_no ≡ true → result.now ≡ record_items table type_no id }
{
    let shard = version.schema().shard_of(source, id);
    version.shard(source, shard, 0).forward(type_no, id)
}

// The edges of a record as postings, where their targets have ranks.
fn postings_of(
    alloc: Global,
    version: &Version,
    target: u16,
    items: &[ForwardItem],
) -> Result<Vec<Posting>, AllocError>
    requires schema { IsSchema version.now.schema }
    requires target { target < length version.now.schema.verticals }
    ensures { IfOk result (λ postings. (limits : Limits) (table : Contents) → StandsFor version.now limits table
        → postings.items ≡ filter_map (posting_in version.now.schema table target) items.now) }
{
    let mut postings = Vec::new(alloc);
    for item in items {
        if let Some(posting) = posting_of(version, target, item) {
            postings.push(posting)?;
        }
    }
    Ok(postings)
}

// The posting of an edge, if its target has a rank.
fn posting_of(version: &Version, target: u16, item: &ForwardItem) -> Option<Posting>
    requires schema { IsSchema version.now.schema }
    requires target { target < length version.now.schema.verticals }
    ensures { (limits : Limits) (table : Contents) → StandsFor version.now limits table
        → result ≡ posting_in version.now.schema table target item.now }
{
    let rank = rank_of(version, target, item.target)?;
    let key = DocKey {
        rank,
        id: item.target,
    };
    Some(Posting {
        key,
        audience: item.audience,
    })
}

// The rank of an entity of a vertical, which its shard tells.
fn rank_of(version: &Version, vertical: u16, id: EntityId) -> Option<Rank>
    requires schema { IsSchema version.now.schema }
    requires vertical { vertical < length version.now.schema.verticals }
    ensures { (limits : Limits) (table : Contents) → StandsFor version.now limits table
        → result ≡ rank_in_shard version.now.schema table vertical (shard_of version.now.schema vertical id) id }
{
    let shard = version.schema().shard_of(vertical, id);
    version.shard(vertical, shard, 0).rank_of(id)
}

// Postings in rank order, one at each key.
fn in_rank_order(mut postings: Vec<Posting>) -> Vec<Posting>
    ensures { AreInOrder postings.items result.items }
{
    postings.sort_unstable_by_key(|posting| posting.key);
    postings.dedup_by(|one, other| one.key == other.key);
    postings
}

// Postings by the shards of a vertical, in the order that they are in.
fn by_shard(
    alloc: Global,
    schema: &Schema,
    target: u16,
    postings: &[Posting],
) -> Result<Vec<Vec<Posting>>, AllocError>
    requires schema { IsSchema schema.now }
    requires target { target < length schema.now.verticals }
    ensures { IfOk result (λ lists. lists_of lists.items ≡ postings_by_shard schema.now target postings.now) }
{
    let mut lists = empty_lists(alloc, schema.vertical(target).shards)?;
    for posting in postings {
        let shard = schema.shard_of(target, posting.key.id);
        add_to(&mut lists, shard, *posting)?;
    }
    Ok(lists)
}

// So many empty lists.
fn empty_lists(alloc: Global, count: u32) -> Result<Vec<Vec<Posting>>, AllocError>
    ensures { IfOk result (λ lists. lists_of lists.items ≡ empty_lists_of count) }
{
    let mut lists = Vec::new(alloc);
    for _ in 0..count {
        lists.push(Vec::new(alloc))?;
    }
    Ok(lists)
}

// Adds an item to the list at a place.
fn add_to<T: Drop>(lists: &mut Vec<Vec<T>>, at: u32, item: T) -> Result<(), AllocError>
    requires { at < length lists.old.items }
    ensures { OnOk result (lists_of lists.new.items ≡ with_item (lists_of lists.old.items) (Some at) item) }
{
    lists[at as usize].push(item)?;
    Ok(())
}
