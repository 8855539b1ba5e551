//! Posting lists, stacks, forward records, merges and terms of a prefix, and what their tests share.
ghost use Rattle.std.specs.Prelude.{◌<◌};

use forward_data::{ForwardItem, ForwardItems};
use std::alloc::Global;
use std::test::Fail;
use uni_base::{Audience, EntityId, Key, Rows};

mod forwards;
mod merges;
mod postings;
mod prefixes;
mod stacks;

// Numbers in no order, the same at each run.
#[derive(Drop)]
struct Noise {
    state: u64,
}

impl Noise {
    fn below(&mut self, n: u64) -> u64
        requires { 0 < n }
        ensures { result < n }
    {
        self.state = self
            .state
            .wrapping_mul(6_364_136_223_846_793_005)
            .wrapping_add(1_442_695_040_888_963_407);
        (self.state >> 33) % n
    }
}

fn entity(n: u64) -> Result<EntityId, Fail> {
    Ok(EntityId::new(n).ok_or("no entity has the number 0")?)
}

// Edges to these targets, for the members of a circle of an owner.
fn items(alloc: Global, owner: &Key, targets: &[u64]) -> Result<ForwardItems, Fail> {
    let mut items = Rows::new(alloc);
    for number in targets {
        let target = entity(*number)?;
        let audience = Audience::Circle(4, *owner);
        items.push(ForwardItem { target, audience })?;
    }
    Ok(items)
}
