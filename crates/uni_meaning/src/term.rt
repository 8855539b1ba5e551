//! The first hits of a term, by the edges of its key.
ghost use Rattle.std.specs.Prelude.{◌≡◌, ◌<◌, IfOk, length};
ghost use Rattle.std.specs.List.{filter_map};
ghost use Rattle.query_check.specs.Plan.Plan.{term_plan};
ghost use Rattle.query_check.specs.Verticals.{IsOf};
ghost use Rattle.uni_meaning.specs.Hits.{cut, target_of};
ghost use Rattle.uni_meaning.specs.Viewed.{IsViewed};
ghost use Rattle.uni_meaning.specs.Standings.{led_member, members_of};

use crate::cut::Member;
use crate::view::View;
use std::alloc::AllocError;
use uni_base::{DocKey, EdgeRef, EntityId, Held, Key};

impl<'t> View<'t> {
    /// The first hits of a term in rank order over all shards, as many as the limit says. It costs the
    /// edges of the type and key, and a sort.
    pub fn term_cut(&self, type_no: u16, key: &Key, limit: u32) -> Result<Vec<Member>, AllocError>
        requires view { IsViewed self.now }
        requires typed { IsOf self.now.schema (term_plan type_no key.now) (target_of self.now.schema type_no) }
        ensures { IfOk result (λ members. members.items ≡ members_of self.now (term_plan type_no key.now)
            (cut self.now.schema self.now.contents (term_plan type_no key.now) limit)) }
    {
        let reached = self.table.reached(type_no, key)?;
        let most = (limit as usize).min(reached.len());
        self.led_members(type_no, key, &reached.as_slice()[..most])
    }

    // The entities that edges of a type and key lead to.
    fn led_members(
        &self,
        type_no: u16,
        key: &Key,
        reached: &[Held],
    ) -> Result<Vec<Member>, AllocError>
        requires { type_no < length self.now.schema.types }
        ensures { IfOk result (λ members. members.items ≡ filter_map (λ held. led_member self.now type_no key.now held.edge.target) reached.now) }
    {
        let mut members = Vec::new(self.alloc);
        for held in reached {
            if let Some(member) = self.led_member(type_no, key, held.edge.target)? {
                members.push(member)?;
            }
        }
        Ok(members)
    }

    // The entity of an id, with the edge of a type and key to it, if the viewer may see that.
    fn led_member(
        &self,
        type_no: u16,
        key: &Key,
        id: EntityId,
    ) -> Result<Option<Member>, AllocError>
        requires { type_no < length self.now.schema.types }
        ensures { IfOk result (λ member. member ≡ led_member self.now type_no key.now id) }
    {
        let Some(row) = self.table.entity(id) else {
            return Ok(None);
        };
        let edge = EdgeRef {
            type_no,
            key: *key,
            target: id,
        };
        let standing = self.by_edge(edge, &[])?;
        Ok(Some(Member {
            key: DocKey { rank: row.rank, id },
            lineage: standing.shown(self.alloc)?,
        }))
    }
}
