ghost use Rattle.std.specs.Prelude.{◌≡◌, ◌<◌, ◌++◌, IfOk, OnOk, length, map};
ghost use Rattle.uni_meaning.specs.Standings.{places_of};

use crate::view::View;
use std::alloc::AllocError;
use uni_base::DocKey;

/// An entity with the shard that it is in.
#[derive(Clone, Copy)]
pub(crate) struct Place {
    pub doc: DocKey,
    pub shard: u32,
}

impl<'t> View<'t> {
    /// The entities of a vertical, shard after shard, each shard's in rank order.
    pub fn places(&self, vertical: u16) -> Result<Vec<Place>, AllocError>
        requires { vertical < length self.now.schema.verticals }
        ensures { IfOk result (λ places. places.items ≡ places_of self.now.schema self.now.contents vertical) }
    {
        let mut places = Vec::new(self.alloc);
        for shard in 0..self.table.schema().vertical(vertical).shards {
            let docs = self.table.ranked(vertical, shard)?;
            add_places(docs.as_slice(), shard, &mut places)?;
        }
        Ok(places)
    }
}

// Adds the entities of a shard.
fn add_places(docs: &[DocKey], shard: u32, places: &mut Vec<Place>) -> Result<(), AllocError>
    ensures { OnOk result (places.new.items ≡ places.old.items ++ map (λ x. record { doc = x; shard = shard }) docs.now) }
{
    for doc in docs {
        places.push(Place { doc: *doc, shard })?;
    }
    Ok(())
}
