//! The entities among the rows.
ghost use Rattle.std.specs.Prelude.{◌≡◌, ℕ, ◌+◌, ◌^◌, ◌<◌, ◌≤◌, ◌++◌, None, Some, length, map, filter, slice_get, IfOk, OnOk, OnErr, IsPermutation};
ghost use Rattle.std.specs.Map.{keys_of};
ghost use Rattle.std.specs.Option.{option_map_or, option_to_list};
ghost use Rattle.uni_table.specs.Ranked.{doc_of, is_of_shard};
ghost use Rattle.indexmap.specs.Layout.{set_value_at};
ghost use Rattle.chained_rows.specs.Counts.{one_if};
ghost use Rattle.uni_table.specs.Contents.{entity_at, with_entity, without_row};
ghost use Rattle.uni_table.specs.declared.graph.numbers.Node.{Node};
ghost use Rattle.uni_table.specs.GraphRows.{contents_of, published_of, written_entity, is_same_entity, with_entity_row, is_entity, member_of, IsRows};

use super::rows::Rows;
use super::short_node::ShortNode;
use super::touched::note_touched;
use crate::EntityRow;
use indexmap::IndexMap;
use std::alloc::{AllocError, Global};
use uni_base::{DocKey, EntityId};
use uni_schema::Schema;

/// A count of rows that live, after one of them was and is live or not.
pub(super) fn recount(count: u64, was: bool, is: bool) -> u64
    requires counted { one_if was ≤ count }
    requires few { count < 2 ^ 63 }
    ensures { result + one_if was ≡ count + one_if is }
{
    count + u64::from(is) - u64::from(was)
}

/// 1 for a row that lives, and 0 for one that does not.
pub(super) fn as_count(live: bool) -> u64
    ensures { result ≡ one_if live }
{
    u64::from(live)
}

// Writes the entity of an id, which the batch touches, or that it is none, and answers whether it was one.
fn write_row(ids: &mut IndexMap<EntityId, ShortNode>, index: usize, row: Option<EntityRow>) -> bool
    requires { index < length ids.old.entries }
    ensures entries { (id : ℕ) (node : Node) → slice_get ids.old.entries index ≡ Some (id, node) → ids.new.entries ≡ set_value_at ids.old.entries index (written_entity node row) }
    ensures was { (id : ℕ) (node : Node) → slice_get ids.old.entries index ≡ Some (id, node) → result ≡ is_entity node }
{
    match ids.get_index_mut(index) {
        Some(node) => {
            let was = node.row().is_some();
            node.write(row);
            was
        }
        None => false,
    }
}

impl Rows {
    /// The entity of an id. None where there is none.
    pub fn entity(&self, id: EntityId) -> Option<EntityRow>
        requires { IsRows self.now }
        ensures { result ≡ entity_at (contents_of self.now) id }
    {
        match self.id_index(id) {
            Some(number) => self.entity_at(number),
            None => None,
        }
    }

    /// The entity of a number. None where there is none.
    pub fn entity_at(&self, number: usize) -> Option<EntityRow>
        ensures { result ≡ option_map_or (λ e. e.1.row) (slice_get self.now.ids.entries number) None }
    {
        match self.ids.get_index(number) {
            Some((_, node)) => node.row(),
            None => None,
        }
    }

    // Whether the batch has not touched an id.
    fn is_untouched_id(&self, index: usize) -> bool
        requires { index < length self.now.ids.entries }
        ensures { (id : ℕ) (node : Node) → slice_get self.now.ids.entries index ≡ Some (id, node) → result ≡ is_same_entity node.before }
    {
        match self.ids.get_index(index) {
            Some((_, node)) => node.before().is_same(),
            None => false,
        }
    }

    // Writes the entity of an id, or that it is none.
    fn set_entity(&mut self, index: usize, row: Option<EntityRow>)
        requires kept { IsRows self.old }
        requires index { index < length self.old.ids.entries }
        ensures kept { IsRows self.new }
        ensures published { published_of self.new ≡ published_of self.old }
        ensures set { (id : ℕ) → slice_get (keys_of self.old.ids.entries) index ≡ Some id → contents_of self.new ≡ with_entity_row (contents_of self.old) id row }
    {
        let is_first = self.is_untouched_id(index);
        note_touched(&mut self.touched_ids, index, is_first);
        let was = write_row(&mut self.ids, index, row);
        self.entity_count = recount(self.entity_count, was, row.is_some());
    }

    /// Puts an entity, or another row in place of the one that it has.
    pub fn put_entity(&mut self, id: EntityId, row: EntityRow) -> Result<(), AllocError>
        requires { IsRows self.old }
        ensures kept { IsRows self.new }
        ensures published { published_of self.new ≡ published_of self.old }
        ensures ok { OnOk result (contents_of self.new ≡ with_entity (contents_of self.old) id row) }
        ensures err { OnErr result (contents_of self.new ≡ contents_of self.old) }
    {
        let index = self.id_no(id)?;
        self.set_entity(index as usize, Some(row));
        Ok(())
    }

    /// Takes an entity out, and no edge.
    pub fn remove_entity(&mut self, id: EntityId)
        requires { IsRows self.old }
        ensures kept { IsRows self.new }
        ensures published { published_of self.new ≡ published_of self.old }
        ensures removed { contents_of self.new ≡ without_row (contents_of self.old) id }
    {
        if let Some(index) = self.id_index(id) {
            self.set_entity(index, None);
        }
    }

    // Adds the place in rank order of an id to a list, if it is an entity of a shard.
    fn add_member(
        schema: &Schema,
        vertical: u16,
        shard: u32,
        id: EntityId,
        row: Option<EntityRow>,
        docs: &mut Vec<DocKey>,
    ) -> Result<(), AllocError>
        requires { vertical < length schema.now.verticals }
        ensures { OnOk result (docs.new.items ≡ docs.old.items ++ option_to_list (member_of schema.now vertical shard (id, row))) }
    {
        let Some(row) = row else {
            return Ok(());
        };
        if row.vertical == vertical && schema.shard_of(vertical, id) == shard {
            docs.push(DocKey { rank: row.rank, id })?;
        }
        Ok(())
    }

    /// The entities of a shard of a vertical, in some order.
    pub fn members(
        &self,
        alloc: Global,
        schema: &Schema,
        vertical: u16,
        shard: u32,
    ) -> Result<Vec<DocKey>, AllocError>
        requires kept { IsRows self.now }
        requires vertical { vertical < length schema.now.verticals }
        ensures { IfOk result (λ docs. IsPermutation (map doc_of (filter (is_of_shard schema.now vertical shard) (contents_of self.now).entities)) docs.items) }
    {
        let mut docs = Vec::new(alloc);
        for (id, node) in &self.ids {
            Rows::add_member(schema, vertical, shard, *id, node.row(), &mut docs)?;
        }
        Ok(docs)
    }
}
