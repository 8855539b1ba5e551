ghost use Rattle.std.specs.Prelude.{◌≡◌, ◌+◌, ◌≤◌, ◌<◌, ◌++◌, ◌∷◌, [], length, map, take, drop, Some, IfOk};
ghost use Rattle.std.specs.List.{slice_get};
ghost use Rattle.std.specs.Option.{option_map};
ghost use Rattle.std.specs.FinMap as finite;
ghost use Rattle.layer_base.specs.Layers.{stack_table};
ghost use Rattle.forward_data.specs.Records.{record_key};
ghost use Rattle.shard_index.specs.Entities.{putting_entities};
ghost use Rattle.shard_index.specs.Rows.{stack_rows, entries, term_postings, record_at, has_edge};
ghost use Rattle.shard_index.specs.Rows.{front_entities, entities_behind, posting_layers, record_layers};

use crate::merge::merge_front;
use crate::ranks::rank_in;
use crate::{EntityLayer, ShardLayer};
use forward_data::{ForwardItem, ForwardStack};
use layer_base::SharedLayers;
use layer_stack::{Stack, StackCursor, TermKey};
use std::alloc::{AllocError, Global};
use std::marker::Model;
use std::sync::Arc;
use uni_base::{DocKey, EdgeRef, EntityId, Rank};

/// The postings of a term in a shard that are still to be read, in rank order.
pub type TermCursor<'a> = StackCursor<'a>;

/// The index of a shard: layers, the oldest first, which other indexes may share. Contracts see the
/// layers, and how many more it has room for.
#[derive(Drop)]
pub struct ShardIndex {
    entities: SharedLayers<EntityLayer>,
    postings: Stack,
    forward: ForwardStack,
}

impl Model for ShardIndex {
    ghost use Rattle.std.specs.Prelude.{List, ℕ};
    ghost use Rattle.std.specs.Coded.{codes};
    ghost use Rattle.std.specs.FinMap as finite;
    ghost use Rattle.shard_index.specs.Rows.{ShardChanges};
    ghost use Rattle.shard_index.specs.Joined.{joined_stack, AreAsLong};

    ghost Value = { List ShardChanges × ℕ };

    ghost coded = { Prim.hlevel (codes, finite.code) };

    ghost view = { λ s. joined_stack s.entities s.postings s.forward };

    ghost invariant = { λ s. AreAsLong s.entities.0 s.postings.0 s.forward.0 };
}

impl ShardIndex {
    /// An index of one layer.
    pub fn of(alloc: Global, base: ShardLayer) -> Result<ShardIndex, AllocError>
        ensures { IfOk result (λ index. index.0 ≡ base ∷ []) }
    {
        let ShardLayer {
            entities,
            postings,
            forward,
        } = base;
        Ok(ShardIndex {
            entities: SharedLayers::of(alloc, entities)?,
            postings: Stack::of(alloc, postings)?,
            forward: ForwardStack::of(alloc, forward)?,
        })
    }

    /// How many layers it has.
    pub fn layers(&self) -> usize
        ensures { result ≡ length self.now.0 }
    {
        self.entities.layers()
    }

    /// The number of the entries of the layer at a place, the oldest being 0.
    pub fn layer_entries(&self, i: usize) -> u64
        requires { i < length self.now.0 }
        ensures { option_map entries (slice_get self.now.0 i) ≡ Some result }
    {
        self.entities.layer(i).entries()
            + self.postings.layer(i).entries()
            + self.forward.layer(i).entries()
    }

    /// The rank of an entity. None exactly where the shard has no such entity.
    pub fn rank_of(&self, id: EntityId) -> Option<Rank>
        ensures { result ≡ finite.get (stack_rows self.now.0).entities id }
    {
        rank_in(&self.entities, id)
    }

    /// Whether there is an edge, of those of index types whose target lies in the shard.
    pub fn has_edge(&self, edge: &EdgeRef) -> bool
        ensures { result ≡ has_edge (stack_rows self.now.0) edge.now }
    {
        let Some(rank) = self.rank_of(edge.target) else {
            return false;
        };
        let term = TermKey {
            type_no: edge.type_no,
            key: edge.key,
        };
        let key = DocKey {
            rank,
            id: edge.target,
        };
        self.postings.find(&term, key).is_some()
    }

    /// The postings of a term, in rank order.
    pub fn term_cursor(&self, alloc: Global, term: &TermKey) -> Result<TermCursor<'_>, AllocError>
        ensures { IfOk result (λ cursor. cursor ≡ term_postings (stack_rows self.now.0) term.now) }
    {
        self.postings.cursor(alloc, term)
    }

    /// The forward edges of a type that start at an entity, in the order of their targets; empty
    /// where there are none.
    pub fn forward(&self, type_no: u16, id: EntityId) -> &[ForwardItem]
        ensures { result.now ≡ record_at (stack_rows self.now.0) (record_key type_no id) }
    {
        self.forward.lookup(type_no, id)
    }

    /// Its stack of postings.
    pub fn postings(&self) -> &Stack
        ensures { result.now.0 ≡ posting_layers self.now.0 }
    {
        &self.postings
    }

    /// Its stack of forward records.
    pub fn forward_stack(&self) -> &ForwardStack
        ensures { result.now.0 ≡ record_layers self.now.0 }
    {
        &self.forward
    }

    /// An equal index with room for at least so many layers more.
    pub fn roomy(&self, extra: usize) -> Result<ShardIndex, AllocError>
        ensures layers { IfOk result (λ index. index.0 ≡ self.now.0) }
        ensures room { IfOk result (λ index. extra ≤ index.1) }
    {
        Ok(ShardIndex {
            entities: self.entities.roomy(extra)?,
            postings: self.postings.roomy(extra)?,
            forward: self.forward.roomy(extra)?,
        })
    }

    /// Adds a layer above all others, for which there is room. It takes no memory.
    pub fn push_layer_reserved(&mut self, layer: ShardLayer)
        requires { 0 < self.old.1 }
        ensures layers { self.new.0 ≡ self.old.0 ++ layer ∷ [] }
        ensures room { self.new.1 + 1 ≡ self.old.1 }
    {
        let ShardLayer {
            entities,
            postings,
            forward,
        } = layer;
        self.entities.push_reserved(entities);
        self.postings.push_reserved(postings);
        self.forward.push_reserved(forward);
    }

    /// The index with its first `count` layers, the oldest ones, replaced by one.
    pub fn with_front(
        &self,
        alloc: Global,
        count: usize,
        layer: ShardLayer,
    ) -> Result<ShardIndex, AllocError>
        requires { count ≤ length self.now.0 }
        ensures { IfOk result (λ index. index.0 ≡ layer ∷ drop count self.now.0) }
    {
        let mut index = ShardIndex::of(alloc, layer)?.roomy(self.layers() - count)?;
        for i in count..self.layers() {
            index.push_layer_reserved(self.layer(i)?);
        }
        Ok(index)
    }

    /// The entities of the first `count` layers, the oldest ones, as one layer that removes none.
    pub fn merge_entities(&self, alloc: Global, count: usize) -> Result<EntityLayer, AllocError>
        requires { count ≤ length self.now.0 }
        ensures merged { IfOk result (λ layer. layer ≡ putting_entities (front_entities count self.now.0)) }
        ensures removals { IfOk result (λ layer. layer.deletes ≡ finite.empty) }
        ensures same { IfOk result (λ layer. entities_behind layer count self.now.0 ≡ (stack_rows self.now.0).entities) }
    {
        merge_front(alloc, &self.entities, count)
    }

    /// The layer at a place, counted from 0, over the same three parts.
    pub fn layer(&self, i: usize) -> Result<ShardLayer, AllocError>
        requires { i < length self.now.0 }
        ensures { IfOk result (λ layer. slice_get self.now.0 i ≡ Some layer) }
    {
        let entities = Arc::try_clone(self.entities.layer(i))?;
        let postings = Arc::try_clone(self.postings.layer(i))?;
        let forward = Arc::try_clone(self.forward.layer(i))?;
        Ok(ShardLayer::join(entities, postings, forward))
    }
}
