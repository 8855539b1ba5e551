ghost use Rattle.std.specs.Prelude.{◌≡◌, ◌<◌, length, map, filter, IfOk, OnOk};
ghost use Rattle.uni_table.specs.Added.{Adds};
ghost use Rattle.uni_table.specs.Lists.{held_of};
ghost use Rattle.uni_table.specs.Shards.{AreApart, AreDeclared, reaches_any, leaves_forward, leaves_any_forward, is_indexed, is_forward_type};

use crate::Table;
use crate::graph::Graph;
use crate::table::lists::in_order;
use std::alloc::AllocError;
use uni_base::{DocKey, EntityId, Held, HeldList, Key};
use uni_schema::{Origin, Schema, Store};

impl Table {
    ghost use Rattle.uni_table.specs.Lists.{shard_edges};

    /// The edges that are kept in a shard of a vertical, by type number, key and target: an index edge in
    /// the shard of its target, a forward edge in that of its source. It costs one pass over the ids, what
    /// reaches the shard's entities and the forward edges that leave them, and a sort.
    pub fn shard_edges(&self, vertical: u16, shard: u32) -> Result<HeldList, AllocError>
        requires { vertical < length self.now.schema.verticals }
        ensures { IfOk result (λ held. held ≡ shard_edges self.now.schema self.now.contents vertical shard) }
    {
        let docs = self
            .graph
            .members(self.alloc, &self.schema, vertical, shard)?;
        let mut reaching = Vec::new(self.alloc);
        add_reaching(&self.graph, docs.as_slice(), &mut reaching)?;
        let mut held = Vec::new(self.alloc);
        add_indexed(&self.schema, reaching.as_slice(), &mut held)?;
        add_forward(
            &self.graph,
            &self.schema,
            vertical,
            docs.as_slice(),
            &mut held,
        )?;
        Ok(in_order(held))
    }
}

// Adds the edges that reach entities, each of which is there once.
fn add_reaching(graph: &Graph, docs: &[DocKey], held: &mut Vec<Held>) -> Result<(), AllocError>
    requires { AreApart docs.now }
    ensures { OnOk result (Adds held.old.items held.new.items (map held_of (filter (λ e. reaches_any docs.now e.0) graph.now.contents.edges))) }
{
    for doc in docs {
        graph.add_into(doc.id, held)?;
    }
    Ok(())
}

// Adds the index edges of some edges.
fn add_indexed(schema: &Schema, edges: &[Held], held: &mut Vec<Held>) -> Result<(), AllocError>
    requires { AreDeclared schema.now edges.now }
    ensures { OnOk result (Adds held.old.items held.new.items (filter (is_indexed schema.now) edges.now)) }
{
    for edge in edges {
        if is_indexed(schema, edge) {
            held.push(*edge)?;
        }
    }
    Ok(())
}

// Adds the forward edges that leave entities of a vertical, each of which is there once.
fn add_forward(
    graph: &Graph,
    schema: &Schema,
    vertical: u16,
    docs: &[DocKey],
    held: &mut Vec<Held>,
) -> Result<(), AllocError>
    requires { AreApart docs.now }
    ensures { OnOk result (Adds held.old.items held.new.items (map held_of (filter (λ e. leaves_any_forward schema.now vertical docs.now e.0) graph.now.contents.edges))) }
{
    for doc in docs {
        add_forward_of(graph, schema, vertical, doc.id, held)?;
    }
    Ok(())
}

// Adds the forward edges that leave an entity of a vertical.
fn add_forward_of(
    graph: &Graph,
    schema: &Schema,
    vertical: u16,
    id: EntityId,
    held: &mut Vec<Held>,
) -> Result<(), AllocError>
    ensures { OnOk result (Adds held.old.items held.new.items (map held_of (filter (λ e. leaves_forward schema.now vertical id e.0) graph.now.contents.edges))) }
{
    for type_no in 0..schema.types() {
        if is_forward_type(schema, vertical, type_no) {
            graph.add_from(type_no, &Key::Id(id), held)?;
        }
    }
    Ok(())
}

// Whether a type is a forward one from a vertical.
fn is_forward_type(schema: &Schema, vertical: u16, type_no: u16) -> bool
    requires { type_no < length schema.now.types }
    ensures { result ≡ is_forward_type schema.now vertical type_no }
{
    let type_def = schema.type_def(type_no);
    type_def.store != Store::Index && type_def.origin == Origin::Vertical(vertical)
}

// Whether an edge is of an index type.
fn is_indexed(schema: &Schema, edge: &Held) -> bool
    requires { edge.now.edge.type_no < length schema.now.types }
    ensures { result ≡ is_indexed schema.now edge.now }
{
    schema.type_def(edge.edge.type_no).store == Store::Index
}
