//! Which ids and ranks differ from what they were at the last publish, by their places.
ghost use Rattle.std.specs.Prelude.{◌≡◌, ◌++◌, ◌∷◌, [], IfOk, OnOk};
ghost use Rattle.std.specs.List.{filter_map};
ghost use Rattle.std.specs.Option.{option_to_list};
ghost use Rattle.uni_table.specs.Changes.{HasEntityChanges};
ghost use Rattle.uni_table.specs.Contents.{empty};
ghost use Rattle.uni_table.specs.GraphChanges.{entity_change_at, put_at, ranks_at};
ghost use Rattle.uni_table.specs.GraphRows.{contents_of, published_of, IsRows};

use super::affected::push_some;
use super::numbers::Ranks;
use super::rows::Rows;
use crate::EntityChange;
use std::alloc::{AllocError, Global};

/// Adds an item to a list.
pub(super) fn push<T: Drop>(items: &mut Vec<T>, item: T) -> Result<(), AllocError>
    ensures { OnOk result (items.new.items ≡ items.old.items ++ item ∷ []) }
{
    items.push(item)?;
    Ok(())
}

impl Rows {
    // Adds the change of the id at a place to a list, if it differs.
    fn add_entity_change(
        &self,
        place: usize,
        changes: &mut Vec<EntityChange>,
    ) -> Result<(), AllocError>
        ensures { OnOk result (changes.new.items ≡ changes.old.items ++ option_to_list (entity_change_at self.now place)) }
    {
        let Some((id, node)) = self.ids.get_index(place) else {
            return Ok(());
        };
        let node = node.node();
        if !node.is_changed() {
            return Ok(());
        }
        changes.push(EntityChange {
            id: *id,
            before: node.row_before(),
            after: node.row,
        })?;
        Ok(())
    }

    // The id of a number as a change of one that was none, if it is an entity.
    fn entity_put(&self, number: usize) -> Option<EntityChange>
        ensures { result ≡ put_at self.now number }
    {
        let (id, node) = self.ids.get_index(number)?;
        let row = node.row()?;
        Some(EntityChange {
            id: *id,
            before: None,
            after: Some(row),
        })
    }

    /// All entities, each as a change of an id that was none, in some order.
    pub fn all_entities(&self, alloc: Global) -> Result<Vec<EntityChange>, AllocError>
        requires { IsRows self.now }
        ensures { IfOk result (λ changes. HasEntityChanges empty (contents_of self.now) changes.items) }
    {
        let mut changes = Vec::with_capacity(alloc, self.ids.len())?;
        for number in 0..self.ids.len() {
            push_some(&mut changes, self.entity_put(number))?;
        }
        Ok(changes)
    }

    // The changes of the ids at places, those that differ.
    fn entity_changes_at(
        &self,
        alloc: Global,
        places: &[u32],
    ) -> Result<Vec<EntityChange>, AllocError>
        ensures { IfOk result (λ changes. changes.items ≡ filter_map (entity_change_at self.now) places.now) }
    {
        let mut changes = Vec::new(alloc);
        for place in places {
            let place = *place;
            self.add_entity_change(place as usize, &mut changes)?;
        }
        Ok(changes)
    }

    /// The changes of the ids that differ, in some order.
    pub fn entity_changes(&self, alloc: Global) -> Result<Vec<EntityChange>, AllocError>
        requires { IsRows self.now }
        ensures { IfOk result (λ changes. HasEntityChanges (published_of self.now) (contents_of self.now) changes.items) }
    {
        self.entity_changes_at(alloc, self.touched_ids.as_slice())
    }

    /// The ranks of the id of a number at the last publish and now.
    pub fn ranks_at(&self, number: usize) -> Ranks
        ensures { result ≡ ranks_at self.now number }
    {
        match self.ids.get_index(number) {
            Some((_, node)) => node.node().ranks(),
            None => Ranks::none(),
        }
    }
}
