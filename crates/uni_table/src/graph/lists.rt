//! Lists of the edges that reach an id, and of those of a type and key, and their removal.
ghost use Rattle.std.specs.Prelude.{◌≡◌, map, filter, OnOk};
ghost use Rattle.uni_table.specs.Added.{Adds};
ghost use Rattle.uni_table.specs.Contents.{reaches, starts_at, without_from, without_into};
ghost use Rattle.uni_table.specs.GraphRows.{contents_of, published_of, IsRows};
ghost use Rattle.uni_table.specs.Lists.{held_of};

use super::numbers::Side;
use super::rows::Rows;
use std::alloc::AllocError;
use uni_base::{EntityId, Held, Key};

impl Rows {
    /// Adds the edges of a type and key to a list, in some order.
    pub fn add_from(&self, type_no: u16, key: &Key, held: &mut Vec<Held>) -> Result<(), AllocError>
        requires { IsRows self.now }
        ensures { OnOk result (Adds held.old.items held.new.items (map held_of (filter (λ e. starts_at type_no key.now e.0) (contents_of self.now).edges))) }
    {
        match self.source_index(type_no, key) {
            Some(index) => self.add_at(Side::Source, index, held),
            None => Ok(()),
        }
    }

    /// Adds the edges that reach an id to a list, in some order.
    pub fn add_into(&self, id: EntityId, held: &mut Vec<Held>) -> Result<(), AllocError>
        requires { IsRows self.now }
        ensures { OnOk result (Adds held.old.items held.new.items (map held_of (filter (λ e. reaches id e.0) (contents_of self.now).edges))) }
    {
        match self.id_index(id) {
            Some(index) => self.add_at(Side::Target, index, held),
            None => Ok(()),
        }
    }

    /// Takes out the edges of a type and key.
    pub fn remove_from(&mut self, type_no: u16, key: &Key)
        requires { IsRows self.old }
        ensures kept { IsRows self.new }
        ensures published { published_of self.new ≡ published_of self.old }
        ensures removed { contents_of self.new ≡ without_from (contents_of self.old) type_no key.now }
    {
        if let Some(index) = self.source_index(type_no, key) {
            self.remove_at(Side::Source, index);
        }
    }

    /// Takes out the edges that reach an id.
    pub fn remove_into(&mut self, id: EntityId)
        requires { IsRows self.old }
        ensures kept { IsRows self.new }
        ensures published { published_of self.new ≡ published_of self.old }
        ensures removed { contents_of self.new ≡ without_into (contents_of self.old) id }
    {
        if let Some(index) = self.id_index(id) {
            self.remove_at(Side::Target, index);
        }
    }
}
