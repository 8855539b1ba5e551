//! Inner hits with the forward edges that lead from them.
ghost use Rattle.std.specs.Prelude.{◌≡◌, ◌<◌, All, IfOk, length, map};
ghost use Rattle.apply_extract.specs.Answered.{hits_led, AreListed, IsLedRanked};
ghost use Rattle.apply_extract.specs.Hits.{OfEachTable};
ghost use Rattle.query_check.specs.Verticals.{IsType};
ghost use Rattle.shard_index.specs.Places.{shards_in};
ghost use Rattle.uni_schema.specs.Schema.{IsSchema};
ghost use Rattle.uni_schema.specs.declared.schema.Origin.TheVariants.{Vertical};
ghost use Rattle.uni_schema.specs.declared.schema.Store.TheVariants.{Forward};

use crate::answered::Led;
use crate::edges::edges_from;
use shard_eval::InnerHit;
use shard_index::Version;
use std::alloc::{AllocError, Global};

/// Inner hits of a source vertical, each with its edges of a forward type by the shards of the target vertical
/// that they lead into.
pub(crate) fn led_from(
    alloc: Global,
    version: &Version,
    type_no: u16,
    source: u16,
    target: u16,
    inner: &[InnerHit],
) -> Result<Vec<Led>, AllocError>
    requires schema { IsSchema version.now.schema }
    requires source { source < length version.now.schema.verticals }
    requires target { target < length version.now.schema.verticals }
    ensures hits { IfOk result (λ led. hits_led led.items ≡ inner.now) }
    ensures ranked { IfOk result (λ led. All IsLedRanked led.items) }
    ensures edges { IfOk result (λ led. IsType version.now.schema type_no Forward (Vertical source) target
        → OfEachTable version.now (AreListed version.now.schema type_no (shards_in version.now.schema target) led.items)) }
{
    let mut led = Vec::new(alloc);
    for hit in inner {
        let rows = edges_from(alloc, version, type_no, source, target, hit.key.id)?;
        led.push(Led { hit: *hit, rows })?;
    }
    Ok(led)
}
