ghost use Rattle.std.specs.Prelude.{◌≡◌, ◌<◌, ◌⊎◌, ◌==◌, ◌&&◌, not, None, Some, length, map, filter, IfOk, IfErr, OnOk, OnErr, IsPermutation};
ghost use Rattle.uni_table.specs.Added.{Adds};
ghost use Rattle.uni_table.specs.Changes.{AreEdgeChanges, HasEntityChanges};
ghost use Rattle.uni_table.specs.Sources.{AreSources};

mod affected;
mod batches;
pub mod changed_edges;
mod changes;
mod edge_copies;
mod edges;
mod ends;
mod entities;
mod found;
mod lists;
pub mod numbers;
mod order;
mod refuses;
mod rows;
mod short_node;
mod short_slot;
mod short_source;
pub mod sources;
mod touched;
mod walks;

use crate::{EdgeRow, EntityChange, EntityRow, FeedRefusal};
use changed_edges::ChangedEdges;
use rows::Rows;
use sources::EdgeSources;
use std::alloc::{AllocError, Global};
use std::marker::Model;
use uni_base::{Audience, DocKey, EdgeRef, EntityId, Held, Key, Limits};
use uni_schema::{Schema, TypeDef};

/// Entities by id and edges by type, key and target, with the edges of each type and key, those that
/// reach each id, and those that end. Contracts see both as ordered maps, as they are and as they were when
/// the last batch ended.
#[derive(Drop)]
pub(crate) struct Graph {
    rows: Rows,
    published_entities: u64,
}

impl Model for Graph {
    ghost use Rattle.std.specs.Prelude.{◌≡◌, length};
    ghost use Rattle.uni_table.specs.GraphRows.{contents_of, published_of, IsRows};
    ghost use Rattle.uni_table.specs.GraphState.{GraphState};

    ghost Value = { GraphState };

    ghost view = { λ g. record { contents = contents_of g.rows; published = published_of g.rows } };

    ghost invariant = { λ g. IsRows g.rows × (g.published_entities ≡ length (published_of g.rows).entities) };
}

/// An edge with the number of the publish that ends it, by the number first.
#[derive(Clone, Copy, Debug, PartialEq, Eq, PartialOrd, Ord)]
pub(crate) struct Ending {
    pub end: u64,
    pub edge: EdgeRef,
}

impl Graph {
    ghost use Rattle.uni_table.specs.Commands.{next_edge, refuses_edge};
    ghost use Rattle.uni_table.specs.Contents.{empty, entity_at, edge_at, starts_at, reaches, has_ended, with_entity, without_row, without_edge, without_from, without_into, ended};
    ghost use Rattle.uni_table.specs.Lists.{held_of, ending_of};
    ghost use Rattle.uni_table.specs.Ranked.{doc_of, is_of_shard};

    /// Nothing.
    pub fn new(alloc: Global) -> Graph
        ensures { result ≡ record { contents = empty; published = empty } }
    {
        Graph {
            rows: Rows::new(alloc),
            published_entities: 0,
        }
    }

    /// The entity of an id. None where there is none.
    pub fn entity(&self, id: EntityId) -> Option<EntityRow>
        ensures { result ≡ entity_at self.now.contents id }
    {
        self.rows.entity(id)
    }

    /// The row of an edge. None where there is none.
    pub fn edge(&self, edge: &EdgeRef) -> Option<EdgeRow>
        ensures { result ≡ edge_at self.now.contents edge.now }
    {
        self.rows.edge(edge)
    }

    /// How many entities there are.
    pub fn entities(&self) -> u64
        ensures { result ≡ length self.now.contents.entities }
    {
        self.rows.entity_count
    }

    /// How many entities there were as the last batch ended.
    pub fn published_entities(&self) -> u64
        ensures { result ≡ length self.now.published.entities }
    {
        self.published_entities
    }

    /// How many edges there are.
    pub fn edges(&self) -> u64
        ensures { result ≡ length self.now.contents.edges }
    {
        self.rows.count_edges()
    }

    /// Makes room for so many edges more. Where there is no memory for it, they make it as they come.
    pub fn reserve_edges(&mut self, edges: usize)
        ensures { self.new ≡ self.old }
    {
        self.rows.reserve_edges(edges);
    }

    /// Puts an entity, or another row in place of the one that it has.
    pub fn put_entity(&mut self, id: EntityId, row: EntityRow) -> Result<(), AllocError>
        ensures ok { OnOk result (self.new ≡ record self.old { contents = with_entity self.old.contents id row }) }
        ensures err { OnErr result (self.new ≡ self.old) }
    {
        self.rows.put_entity(id, row)
    }

    /// Puts an edge of a type, or another row in place of the one that it has, or says why not. The edge and
    /// its two ends are looked for once.
    pub fn put_edge(
        &mut self,
        limits: &Limits,
        type_def: &TypeDef,
        edge: &EdgeRef,
        audience: &Option<Audience>,
        end: u64,
    ) -> Result<(), FeedRefusal>
        ensures taken { OnOk result (refuses_edge limits.now self.old.contents type_def.now edge.now audience.now ≡ None) }
        ensures ok { OnOk result (self.new ≡ record self.old { contents = next_edge self.old.contents end (Some edge.now) audience.now }) }
        ensures refused { IfErr result (λ refusal. (refusal ≡ FeedRefusal.Memory)
            ⊎ (refuses_edge limits.now self.old.contents type_def.now edge.now audience.now ≡ Some refusal)) }
        ensures err { OnErr result (self.new ≡ self.old) }
    {
        self.rows.put_edge(limits, type_def, edge, audience, end)
    }

    /// Takes an entity out, and no edge.
    pub fn remove_entity(&mut self, id: EntityId)
        ensures { self.new ≡ record self.old { contents = without_row self.old.contents id } }
    {
        self.rows.remove_entity(id);
    }

    /// Takes an edge out.
    pub fn remove_edge(&mut self, edge: &EdgeRef)
        ensures { self.new ≡ record self.old { contents = without_edge self.old.contents edge.now } }
    {
        self.rows.remove_edge(edge);
    }

    /// Takes out the edges of a type and key.
    pub fn remove_from(&mut self, type_no: u16, key: &Key)
        ensures { self.new ≡ record self.old { contents = without_from self.old.contents type_no key.now } }
    {
        self.rows.remove_from(type_no, key);
    }

    /// Takes out the edges that reach an id.
    pub fn remove_into(&mut self, id: EntityId)
        ensures { self.new ≡ record self.old { contents = without_into self.old.contents id } }
    {
        self.rows.remove_into(id);
    }

    /// Takes out the edges that end at a publish or before it.
    pub fn end(&mut self, publish: u64)
        ensures { self.new ≡ record self.old { contents = ended self.old.contents publish } }
    {
        self.rows.end(publish);
    }

    /// Adds the edges of a type and key to a list, in some order.
    pub fn add_from(&self, type_no: u16, key: &Key, held: &mut Vec<Held>) -> Result<(), AllocError>
        ensures { OnOk result (Adds held.old.items held.new.items (map held_of (filter (λ e. starts_at type_no key.now e.0) self.now.contents.edges))) }
    {
        self.rows.add_from(type_no, key, held)
    }

    /// Adds the edges that reach an id to a list, in some order.
    pub fn add_into(&self, id: EntityId, held: &mut Vec<Held>) -> Result<(), AllocError>
        ensures { OnOk result (Adds held.old.items held.new.items (map held_of (filter (λ e. reaches id e.0) self.now.contents.edges))) }
    {
        self.rows.add_into(id, held)
    }

    /// The edges that end at a publish or before it, in some order.
    pub fn ending(&self, alloc: Global, publish: u64) -> Result<Vec<Ending>, AllocError>
        ensures { IfOk result (λ endings. IsPermutation (map ending_of (filter (λ e. has_ended publish e.1) self.now.contents.edges)) endings.items) }
    {
        self.rows.ending(alloc, publish)
    }

    /// The entities of a shard of a vertical, in some order.
    pub fn members(
        &self,
        alloc: Global,
        schema: &Schema,
        vertical: u16,
        shard: u32,
    ) -> Result<Vec<DocKey>, AllocError>
        requires { vertical < length schema.now.verticals }
        ensures { IfOk result (λ docs. IsPermutation (map doc_of (filter (is_of_shard schema.now vertical shard) self.now.contents.entities)) docs.items) }
    {
        self.rows.members(alloc, schema, vertical, shard)
    }

    /// All entities, each as a change of an id that was none, in some order.
    pub fn all_entities(&self, alloc: Global) -> Result<Vec<EntityChange>, AllocError>
        ensures { IfOk result (λ changes. HasEntityChanges empty self.now.contents changes.items) }
    {
        self.rows.all_entities(alloc)
    }

    /// The types and keys below a number of types at which edges start, or started, in their order.
    pub fn edge_sources(&self, alloc: Global, types: u16) -> Result<EdgeSources<'_>, AllocError>
        ensures { IfOk result (AreSources types self.now.contents) }
    {
        self.rows.edge_sources(alloc, types)
    }

    /// The entities that differ from what they were as the last batch ended, in some order.
    pub fn entity_changes(&self, alloc: Global) -> Result<Vec<EntityChange>, AllocError>
        ensures { IfOk result (λ changes. HasEntityChanges self.now.published self.now.contents changes.items) }
    {
        self.rows.entity_changes(alloc)
    }

    /// The edges that differ from what they were then, or lead to an entity with another rank, by type
    /// number, key and target.
    pub fn edge_changes(&self, alloc: Global) -> Result<ChangedEdges<'_>, AllocError>
        ensures { IfOk result (AreEdgeChanges self.now.published self.now.contents) }
    {
        self.rows.edge_changes(alloc)
    }

    /// Begins the next batch: what it holds now is what it held as the last one ended.
    pub fn begin_batch(&mut self)
        ensures { self.new ≡ record self.old { published = self.old.contents } }
    {
        self.published_entities = self.rows.entity_count;
        self.rows.begin_batch();
    }

    /// A copy of all rows.
    pub fn copy(&self) -> Result<Graph, AllocError>
        ensures { IfOk result (λ copy. copy ≡ self.now) }
    {
        Ok(Graph {
            rows: self.rows.copy()?,
            published_entities: self.published_entities,
        })
    }
}
