ghost use Rattle.std.specs.Prelude.{◌≡◌, ◌⊎◌, None, Some, length, OnOk, OnErr, IfOk, IfErr};

use crate::graph::Graph;
use crate::{Command, EntityRow, FeedRefusal};
use std::alloc::{AllocError, Global};
use std::marker::Model;
use std::sync::Arc;
use uni_base::{Audience, EdgeRef, EntityId, Limits};
use uni_schema::Schema;

mod changes;
mod circles;
mod gone;
mod lists;
mod put;
pub mod reached;
mod refuses;
mod shards;

/// The entities and edges after some commands, under a schema and limits.
#[derive(Drop)]
pub struct Table {
    alloc: Global,
    schema: Arc<Schema>,
    limits: Limits,
    graph: Graph,
}

impl Model for Table {
    ghost use Rattle.std.specs.Arc.{arc_value};
    ghost use Rattle.uni_table.specs.TableState.{TableState, AreKept};

    ghost Value = { TableState };

    ghost view = { λ t. record { schema = arc_value t.schema; limits = t.limits; contents = t.graph.contents; published = t.graph.published } };

    ghost invariant = { λ t. AreKept (arc_value t.schema) t.limits t.graph };
}

impl Table {
    ghost use Rattle.std.specs.Arc.{arc_value};
    ghost use Rattle.uni_table.specs.Contents.{empty, entity_at, audience_at, ended};
    ghost use Rattle.uni_table.specs.Commands.{next, refuses, IsDeclared};
    ghost use Rattle.uni_table.specs.TableState.{IsKept};

    /// The empty table.
    pub fn new(alloc: Global, schema: Arc<Schema>, limits: Limits) -> Table
        ensures { result ≡ record { schema = arc_value schema; limits = limits; contents = empty; published = empty } }
    {
        Table {
            alloc,
            schema,
            limits,
            graph: Graph::new(alloc),
        }
    }

    /// Makes room for so many edges more, so that none of these that is put has to make it. Where there is no memory
    /// for it, each makes it as it comes.
    pub fn reserve_edges(&mut self, edges: usize)
        ensures { self.new ≡ self.old }
    {
        self.graph.reserve_edges(edges);
    }

    /// Takes a command, or says why not. After a refusal the table is as before. An entity that goes
    /// costs its edges, and any other command a constant number of look-ups; a forward edge that is new
    /// costs those of its type and key besides.
    pub fn put(&mut self, command: &Command) -> Result<(), FeedRefusal>
        requires { IsDeclared self.old.schema command.now }
        ensures taken { OnOk result (refuses self.old.schema self.old.limits self.old.contents command.now ≡ None) }
        ensures ok { OnOk result (self.new ≡ record self.old { contents = next self.old.schema self.old.contents command.now }) }
        ensures refused { IfErr result (λ refusal. (refusal ≡ FeedRefusal.Memory)
            ⊎ (refuses self.old.schema self.old.limits self.old.contents command.now ≡ Some refusal)) }
        ensures err { OnErr result (self.new ≡ self.old) }
    {
        match *command {
            Command::Entity { vertical, id, rank } => self.put_entity(vertical, id, rank),
            Command::Gone { id } => {
                self.gone(id);
                Ok(())
            }
            Command::Edge {
                type_no,
                key,
                target,
                audience,
                until,
            } => self.put_edge(type_no, &key, target, audience, until),
            Command::Cut {
                type_no,
                key,
                target,
            } => {
                self.cut(type_no, &key, target);
                Ok(())
            }
        }
    }

    /// Takes out the edges that end at a publish or before it. It costs these edges, and takes no
    /// memory.
    pub fn end(&mut self, publish: u64)
        ensures { self.new ≡ record self.old { contents = ended self.old.contents publish } }
    {
        self.graph.end(publish);
    }

    /// Begins the next batch: what the table holds now is what it held as the last one ended. It costs the
    /// rows that the batch touched, and takes no memory.
    pub fn begin_batch(&mut self)
        ensures { self.new ≡ record self.old { published = self.old.contents } }
    {
        self.graph.begin_batch();
    }

    /// A table with the same rows, schema and limits.
    pub fn copy(&self) -> Result<Table, AllocError>
        ensures { IfOk result (λ copy. copy ≡ self.now) }
    {
        Ok(Table {
            alloc: self.alloc,
            schema: self.schema.clone()?,
            limits: self.limits,
            graph: self.graph.copy()?,
        })
    }

    /// The entity of an id. None where there is none.
    pub fn entity(&self, id: EntityId) -> Option<EntityRow>
        ensures { result ≡ entity_at self.now.contents id }
    {
        self.graph.entity(id)
    }

    /// The audience of an edge. None where there is no such edge.
    pub fn audience(&self, edge: &EdgeRef) -> Option<Audience>
        ensures { result ≡ audience_at self.now.contents edge.now }
    {
        Some(self.graph.edge(edge)?.audience)
    }

    /// How many entities there are.
    pub fn entities(&self) -> u64
        ensures { result ≡ length self.now.contents.entities }
    {
        self.graph.entities()
    }

    /// How many entities there were as the last batch ended.
    pub fn published_entities(&self) -> u64
        ensures { result ≡ length self.now.published.entities }
    {
        self.graph.published_entities()
    }

    /// How many edges there are.
    pub fn edges(&self) -> u64
        ensures { result ≡ length self.now.contents.edges }
    {
        self.graph.edges()
    }

    /// The schema that the table was made with. Every table keeps what `IsKept` says.
    pub fn schema(&self) -> &Arc<Schema>
        ensures schema { arc_value result.now ≡ self.now.schema }
        ensures kept { IsKept self.now.schema self.now.limits self.now.contents }
        ensures published_kept { IsKept self.now.schema self.now.limits self.now.published }
    {
        &self.schema
    }
}
