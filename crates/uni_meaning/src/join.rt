//! How entities stand under joins.
ghost use Rattle.std.specs.Prelude.{◌≡◌, ◌<◌, ◌==◌, ℕ, IfOk, OnOk, if◌then◌else◌, length, map};
ghost use Rattle.uni_table.specs.Ranked.{reached_of};
ghost use Rattle.uni_base.specs.declared.edge.Key.TheVariants.{Id};
ghost use Rattle.uni_meaning.specs.Standings.{arrival, by_member, either, first_of, gathered_at, is_shown, under_join};

use crate::cut::Member;
use crate::place::Place;
use crate::standing::Standing;
use crate::view::View;
use std::alloc::AllocError;
use std::collections::BTreeMap;
use uni_base::{EdgeRef, EntityId, Key};

impl<'t> View<'t> {
    /// How entities stand under a join of a type, by the members of its cut. It costs the edges of the
    /// type that lead from the members, and one look-up an entity.
    pub fn under_join(
        &self,
        type_no: u16,
        members: &[Member],
        places: &[Place],
    ) -> Result<Vec<Standing>, AllocError>
        requires { type_no < length self.now.schema.types }
        ensures { IfOk result (λ standings. standings.items ≡ map (λ p. under_join self.now type_no members.now p.doc) places.now) }
    {
        let mut gathered = BTreeMap::new(self.alloc);
        for member in members {
            self.gather(type_no, member, &mut gathered)?;
        }
        let mut standings = Vec::new(self.alloc);
        for place in places {
            let standing = match gathered.get(&place.doc.id) {
                Some(standing) => standing.copy(self.alloc)?,
                None => Standing::Missed,
            };
            standings.push(standing)?;
        }
        Ok(standings)
    }

    // Adds what the edges from a member bring to their targets. What was shown before stays.
    fn gather(
        &self,
        type_no: u16,
        member: &Member,
        gathered: &mut BTreeMap<EntityId, Standing>,
    ) -> Result<(), AllocError>
        requires { type_no < length self.now.schema.types }
        ensures { OnOk result ((id : ℕ) → gathered_at gathered.new.entries id
            ≡ either (gathered_at gathered.old.entries id) (first_of (map (arrival self.now member.now id) (reached_of self.now.schema self.now.contents type_no (Id member.now.key.id))))) }
    {
        let reached = self.table.reached(type_no, &Key::Id(member.key.id))?;
        for held in reached.as_slice() {
            if !is_shown(gathered, held.edge.target) {
                let standing = self.by_member(held.edge, member)?;
                put(gathered, held.edge.target, standing)?;
            }
        }
        Ok(())
    }

    // How the target of an edge from a member stands.
    fn by_member(&self, edge: EdgeRef, member: &Member) -> Result<Standing, AllocError>
        requires { edge.type_no < length self.now.schema.types }
        ensures { IfOk result (λ standing. standing ≡ by_member self.now edge member.now.lineage) }
    {
        match &member.lineage {
            Some(rest) => self.by_edge(edge, rest.as_slice()),
            None => Ok(Standing::Hidden),
        }
    }
}

// Sets how an id stands.
fn put(
    gathered: &mut BTreeMap<EntityId, Standing>,
    id: EntityId,
    standing: Standing,
) -> Result<(), AllocError>
    ensures { OnOk result ((other : ℕ) → gathered_at gathered.new.entries other
        ≡ (if id == other then standing else gathered_at gathered.old.entries other)) }
{
    gathered.insert(id, standing)?;
    Ok(())
}

// Whether edges are shown of an id already.
fn is_shown(gathered: &BTreeMap<EntityId, Standing>, id: EntityId) -> bool
    ensures { result ≡ is_shown (gathered_at gathered.now.entries id) }
{
    match gathered.get(&id) {
        Some(Standing::Shown(_)) => true,
        _ => false,
    }
}
