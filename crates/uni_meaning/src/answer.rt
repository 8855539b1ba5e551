ghost use Rattle.std.specs.Prelude.{◌≡◌, IfOk};
ghost use Rattle.query_check.specs.Plan.{inner_of, stated_of};
ghost use Rattle.query_check.specs.Verticals.{AreStated, IsOf};
ghost use Rattle.std.specs.List.{filter_map};
ghost use Rattle.uni_meaning.specs.Replies.{reply_of};
ghost use Rattle.uni_meaning.specs.Standings.{shown_member};

use crate::cut::Member;
use crate::view::{View, denials};
use crate::{Hit, HitList, Reply};
use query_check::Checked;
use std::alloc::{AllocError, Global};
use uni_base::EntityId;
use uni_table::Table;

/// Answers a query over a table: a term by the edges of its key, any other query entity by entity.
pub fn plain_answer(
    alloc: Global,
    table: &Table,
    publishes: u64,
    query: &Checked,
    viewer: EntityId,
    limit: u32,
) -> Result<Reply, AllocError>
    requires typed { IsOf table.now.schema (stated_of query.now).plan (stated_of query.now).vertical }
    requires inner { AreStated table.now.schema (inner_of query.now) }
    ensures { IfOk result (λ reply. reply ≡ reply_of table.now.schema table.now.contents publishes (stated_of query.now).plan viewer limit) }
{
    let denials = denials(alloc, table.schema())?;
    let view = View {
        alloc,
        table,
        viewer,
        denials: denials.as_slice(),
    };
    let members = view.cut(query, limit)?;
    let hits = shown_hits(alloc, members)?;
    Ok(Reply { publishes, hits })
}

// The members of a cut of which edges are shown.
fn shown_hits(alloc: Global, members: Vec<Member>) -> Result<HitList, AllocError>
    ensures { IfOk result (λ hits. hits ≡ filter_map shown_member members.items) }
{
    let mut hits = HitList::new(alloc);
    for member in members {
        let Member { key, lineage } = member;
        if let Some(lineage) = lineage {
            hits.push(Hit { key, lineage })?;
        }
    }
    Ok(hits)
}
