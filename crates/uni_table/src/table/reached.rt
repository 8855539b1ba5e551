ghost use Rattle.std.specs.Prelude.{◌≡◌, ◌<◌, length, map, IfOk};
ghost use Rattle.std.specs.List.{filter_map};

use crate::Table;
use std::alloc::AllocError;
use uni_base::{Audience, DocKey, EdgeRef, EntityId, Held, HeldList, Key};

/// What an edge of some type and key leads to, with the edge's audience.
#[derive(Clone, Copy, Debug, PartialEq, Eq)]
pub struct Target {
    pub doc: DocKey,
    pub audience: Audience,
}

impl Table {
    ghost use Rattle.uni_table.specs.Ranked.{doc_at, reached_of};
    ghost use Rattle.uni_table.specs.Targets.{target_of, held_to};

    /// The edges of a type and key, their targets in rank order. It costs what it lists and a sort.
    pub fn reached(&self, type_no: u16, key: &Key) -> Result<HeldList, AllocError>
        requires { type_no < length self.now.schema.types }
        ensures { IfOk result (λ held. held ≡ reached_of self.now.schema self.now.contents type_no key.now) }
    {
        let mut held = Vec::new(self.alloc);
        self.graph.add_from(type_no, key, &mut held)?;
        let mut targets = self.targets(held.as_slice())?;
        targets.sort_unstable_by_key(|target| target.doc);
        self.held(type_no, key, targets.as_slice())
    }

    // What edges lead to, where it is an entity.
    fn targets(&self, held: &[Held]) -> Result<Vec<Target>, AllocError>
        ensures { IfOk result (λ targets. targets.items ≡ filter_map (target_of self.now.contents) held.now) }
    {
        let mut targets = Vec::new(self.alloc);
        for held in held {
            if let Some(doc) = self.doc_key(held.edge.target) {
                targets.push(Target {
                    doc,
                    audience: held.audience,
                })?;
            }
        }
        Ok(targets)
    }

    // The key of an entity in rank order. None where there is no such entity.
    fn doc_key(&self, id: EntityId) -> Option<DocKey>
        ensures { result ≡ doc_at self.now.contents id }
    {
        let row = self.entity(id)?;
        Some(DocKey { rank: row.rank, id })
    }

    // The edges of a type and key to targets.
    fn held(&self, type_no: u16, key: &Key, targets: &[Target]) -> Result<HeldList, AllocError>
        ensures { IfOk result (λ held. held ≡ map (held_to type_no key.now) targets.now) }
    {
        let mut held = HeldList::new(self.alloc);
        for target in targets {
            held.push(Held {
                edge: EdgeRef {
                    type_no,
                    key: *key,
                    target: target.doc.id,
                },
                audience: target.audience,
            })?;
        }
        Ok(held)
    }
}
