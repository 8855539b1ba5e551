ghost use Rattle.std.specs.Prelude.{◌≡◌, IfOk};
ghost use Rattle.std.specs.Arc.{arc_value};
ghost use Rattle.std.specs.FinMap as finite;
ghost use Rattle.layer_stack.specs.Postings.{no_changes};
ghost use Rattle.shard_index.specs.Entities.{no_entities};
ghost use Rattle.shard_index.specs.Rows.{layer_of, empty_layer, entries};

use crate::{EntityDelta, EntityLayer};
use forward_data::{ForwardDelta, ForwardLayer};
use layer_stack::{Delta, Layer};
use std::alloc::{AllocError, Global};
use std::marker::Model;
use std::sync::Arc;

/// One layer of a shard: its entities, its postings and its forward records, each of which other
/// layers and stacks may share.
#[derive(Drop)]
pub struct ShardLayer {
    pub(crate) entities: Arc<EntityLayer>,
    pub(crate) postings: Arc<Layer>,
    pub(crate) forward: Arc<ForwardLayer>,
}

impl Model for ShardLayer {
    ghost use Rattle.std.specs.Coded.{codes};
    ghost use Rattle.std.specs.FinMap as finite;
    ghost use Rattle.shard_index.specs.Rows.{ShardChanges, layer_of};

    ghost Value = { ShardChanges };

    ghost coded = { Prim.hlevel (codes, finite.code) };

    ghost view = { λ l. layer_of l.entities.value l.postings.value l.forward.value };
}

impl ShardLayer {
    /// The layer of three parts.
    pub fn join(
        entities: Arc<EntityLayer>,
        postings: Arc<Layer>,
        forward: Arc<ForwardLayer>,
    ) -> ShardLayer
        ensures { result ≡ layer_of entities.value postings.value forward.value }
    {
        ShardLayer {
            entities,
            postings,
            forward,
        }
    }

    /// The layer that changes nothing.
    pub fn empty(alloc: Global) -> Result<ShardLayer, AllocError>
        ensures { IfOk result (λ layer. layer ≡ empty_layer) }
    {
        let entities = EntityLayer::build(EntityDelta::new(alloc))?;
        let postings = Layer::build(alloc, Delta::new(alloc))?;
        let forward = ForwardLayer::build(ForwardDelta::new(alloc))?;
        Ok(ShardLayer::join(
            Arc::new(alloc, entities)?,
            Arc::new(alloc, postings)?,
            Arc::new(alloc, forward)?,
        ))
    }

    // The layer of three parts. For a part without entries it shares that of an empty layer.
    pub(crate) fn of_parts(
        alloc: Global,
        entities: EntityLayer,
        postings: Layer,
        forward: ForwardLayer,
        empty: &ShardLayer,
    ) -> Result<ShardLayer, AllocError>
        requires { empty.now ≡ empty_layer }
        ensures { IfOk result (λ layer. layer ≡ layer_of entities postings forward) }
    {
        Ok(ShardLayer {
            entities: entities_part(alloc, entities, &empty.entities)?,
            postings: postings_part(alloc, postings, &empty.postings)?,
            forward: forward_part(alloc, forward, &empty.forward)?,
        })
    }

    /// An equal layer over the same three parts.
    pub fn share(&self) -> Result<ShardLayer, AllocError>
        ensures { IfOk result (λ layer. layer ≡ self.now) }
    {
        Ok(ShardLayer {
            entities: Arc::try_clone(&self.entities)?,
            postings: Arc::try_clone(&self.postings)?,
            forward: Arc::try_clone(&self.forward)?,
        })
    }

    /// The number of the entries of its three parts.
    pub fn entries(&self) -> u64
        ensures { result ≡ entries self.now }
    {
        self.entities.entries() + self.postings.entries() + self.forward.entries()
    }
}

// Entities of a layer: the empty ones, shared, where there are no entries.
fn entities_part(
    alloc: Global,
    part: EntityLayer,
    empty: &Arc<EntityLayer>,
) -> Result<Arc<EntityLayer>, AllocError>
    requires { arc_value empty.now ≡ no_entities }
    ensures { IfOk result (λ shared. arc_value shared ≡ part) }
{
    if part.entries() == 0 {
        return Ok(Arc::try_clone(empty)?);
    }
    Ok(Arc::new(alloc, part)?)
}

// Postings of a layer: the empty ones, shared, where there are no entries.
fn postings_part(alloc: Global, part: Layer, empty: &Arc<Layer>) -> Result<Arc<Layer>, AllocError>
    requires { arc_value empty.now ≡ no_changes }
    ensures { IfOk result (λ shared. arc_value shared ≡ part) }
{
    if part.entries() == 0 {
        return Ok(Arc::try_clone(empty)?);
    }
    Ok(Arc::new(alloc, part)?)
}

// Forward records of a layer: the empty ones, shared, where there are none.
fn forward_part(
    alloc: Global,
    part: ForwardLayer,
    empty: &Arc<ForwardLayer>,
) -> Result<Arc<ForwardLayer>, AllocError>
    requires { arc_value empty.now ≡ finite.empty }
    ensures { IfOk result (λ shared. arc_value shared ≡ part) }
{
    if part.entries() == 0 {
        return Ok(Arc::try_clone(empty)?);
    }
    Ok(Arc::new(alloc, part)?)
}
