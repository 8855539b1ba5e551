ghost use Rattle.std.specs.Prelude.{◌≡◌, Some, slice_get, IfOk};
ghost use Rattle.std.specs.Arc.{arc_value};
ghost use Rattle.uni_table.specs.Contents.{empty};
ghost use Rattle.shard_index.specs.Places.{IsStack, stack_no};
ghost use Rattle.shard_index.specs.Versions.{AreStacks, Stands, StandsAt, first_version, version_of, layers_of};

use crate::places::{stack_count, stack_no};
use crate::stacks::{add_stacks, table_stacks};
use crate::{ShardIndex, ShardLayer};
use std::alloc::{AllocError, Global};
use std::marker::Model;
use std::sync::Arc;
use uni_schema::Schema;
use uni_table::Table;

/// The indexes of all shards after some publishes: one stack for each replica of each shard, and
/// those of one shard stand for the same rows.
#[derive(Drop)]
pub struct Version {
    schema: Arc<Schema>,
    publishes: u64,
    stacks: Vec<ShardIndex>,
}

impl Model for Version {
    ghost use Rattle.std.specs.Arc.{arc_value};
    ghost use Rattle.std.specs.Coded.{codes};
    ghost use Rattle.std.specs.FinMap as finite;
    ghost use Rattle.shard_index.specs.Versions.{VersionState, AreStacks, layers_of};

    ghost Value = { VersionState };

    ghost coded = { Prim.hlevel (codes, finite.code) };

    ghost view = { λ v. record { schema = arc_value v.schema; publishes = v.publishes; stacks = layers_of v.stacks.items } };

    ghost invariant = { λ v. AreStacks (arc_value v.schema) (layers_of v.stacks.items) };
}

impl Version {
    /// The version without publishes: each stack is one empty layer.
    pub fn empty(alloc: Global, schema: Arc<Schema>) -> Result<Version, AllocError>
        ensures is { IfOk result (λ version. version ≡ first_version (arc_value schema)) }
        ensures stands { IfOk result (λ version. Stands version empty) }
    {
        let base = ShardLayer::empty(alloc)?;
        let count = stack_count(&schema);
        let mut stacks = Vec::new(alloc);
        add_stacks(alloc, &base, count, &mut stacks)?;
        Ok(Version {
            schema,
            publishes: 0,
            stacks,
        })
    }

    /// The version of a table after so many publishes: each stack is one layer, which the replicas
    /// of a shard share.
    pub fn of_table(alloc: Global, table: &Table, publishes: u64) -> Result<Version, AllocError>
        ensures schema { IfOk result (λ version. version.schema ≡ table.now.schema) }
        ensures publishes { IfOk result (λ version. version.publishes ≡ publishes) }
        ensures stands { IfOk result (λ version. Stands version table.now.contents) }
    {
        let schema = table.schema().clone()?;
        let stacks = table_stacks(alloc, table)?;
        Ok(Version {
            schema,
            publishes,
            stacks,
        })
    }

    /// The version of the same schema with these stacks, in order of vertical, shard and replica.
    pub fn with_stacks(
        &self,
        publishes: u64,
        stacks: Vec<ShardIndex>,
    ) -> Result<Version, AllocError>
        requires { AreStacks self.now.schema (layers_of stacks.items) }
        ensures { IfOk result (λ version. version ≡ version_of self.now.schema publishes stacks.items) }
    {
        let schema = self.schema.clone()?;
        Ok(Version {
            schema,
            publishes,
            stacks,
        })
    }

    /// How many publishes it is after.
    pub fn publishes(&self) -> u64
        ensures { result ≡ self.now.publishes }
    {
        self.publishes
    }

    pub fn schema(&self) -> &Schema
        ensures { result.now ≡ self.now.schema }
    {
        &self.schema
    }

    /// All stacks, in order of vertical, shard and replica.
    pub fn stacks(&self) -> &[ShardIndex]
        ensures stacks { layers_of result.now ≡ self.now.stacks }
        ensures kept { AreStacks self.now.schema self.now.stacks }
    {
        &self.stacks
    }

    /// The stack of a replica of a shard.
    pub fn shard(&self, vertical: u16, shard: u32, replica: u32) -> &ShardIndex
        requires { IsStack self.now.schema vertical shard replica }
        ensures at { slice_get self.now.stacks (stack_no self.now.schema vertical shard replica) ≡ Some result.now.0 }
        ensures rows { StandsAt self.now result.now.0 vertical shard }
    {
        &self.stacks[stack_no(&self.schema, vertical, shard, replica)]
    }
}
