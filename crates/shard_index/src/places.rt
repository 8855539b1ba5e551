ghost use Rattle.std.specs.Prelude.{◌≡◌, ◌*◌, ◌≤◌, ◌<◌, length};
ghost use Rattle.shard_index.specs.Places.{IsStack, stacks_before, stack_count, stack_no};

use uni_schema::Schema;

// How many stacks the verticals before a number have.
fn stacks_before(schema: &Schema, vertical: u16) -> usize
    requires { vertical ≤ length schema.now.verticals }
    ensures count { result ≡ stacks_before schema.now vertical }
    ensures few { result ≤ 256 * vertical }
{
    let mut count = 0;
    for no in 0..vertical {
        let declared = schema.vertical(no);
        count += declared.shards as usize * declared.replicas as usize;
    }
    count
}

// How many stacks a schema has.
pub(crate) fn stack_count(schema: &Schema) -> usize
    ensures { result ≡ stack_count schema.now }
{
    stacks_before(schema, schema.verticals())
}

/// The number of a stack of a version, in order of vertical, shard and replica, from 0 on.
pub fn stack_no(schema: &Schema, vertical: u16, shard: u32, replica: u32) -> usize
    requires { IsStack schema.now vertical shard replica }
    ensures no { result ≡ stack_no schema.now vertical shard replica }
    ensures within { result < stack_count schema.now }
{
    let replicas = schema.vertical(vertical).replicas;
    stacks_before(schema, vertical) + shard as usize * replicas as usize + replica as usize
}
