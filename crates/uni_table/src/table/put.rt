ghost use Rattle.std.specs.Prelude.{◌≡◌, ◌<◌, ◌⊎◌, None, Some, length, OnOk, OnErr, IfErr};
ghost use Rattle.uni_table.specs.declared.command.Command.TheVariants.{Entity, Edge, Cut};

use crate::table::circles::audience_of;
use crate::{AudienceText, EntityRow, FeedRefusal, Table};
use uni_base::{EdgeRef, EntityId, Rank, Word};

impl Table {
    ghost use Rattle.uni_table.specs.Commands.{next, refuses, IsDeclaredAudience};

    pub(crate) fn put_entity(
        &mut self,
        vertical: u16,
        id: EntityId,
        rank: Rank,
    ) -> Result<(), FeedRefusal>
        ensures taken { OnOk result (refuses self.old.schema self.old.limits self.old.contents (Entity vertical id rank) ≡ None) }
        ensures ok { OnOk result (self.new ≡ record self.old { contents = next self.old.schema self.old.contents (Entity vertical id rank) }) }
        ensures refused { IfErr result (λ refusal. (refusal ≡ FeedRefusal.Memory)
            ⊎ (refuses self.old.schema self.old.limits self.old.contents (Entity vertical id rank) ≡ Some refusal)) }
        ensures err { OnErr result (self.new ≡ self.old) }
    {
        if let Some(refusal) = self.refuses_entity(vertical, id) {
            return Err(refusal);
        }
        let Ok(()) = self.graph.put_entity(id, EntityRow { vertical, rank }) else {
            return Err(FeedRefusal::Memory);
        };
        Ok(())
    }

    pub(crate) fn put_edge(
        &mut self,
        type_no: u16,
        text: &Word,
        target: EntityId,
        audience: AudienceText,
        until: u64,
    ) -> Result<(), FeedRefusal>
        requires declared { type_no < length self.old.schema.types }
        requires circle { IsDeclaredAudience self.old.schema audience }
        ensures taken { OnOk result (refuses self.old.schema self.old.limits self.old.contents (Edge type_no text.now target audience until) ≡ None) }
        ensures ok { OnOk result (self.new ≡ record self.old { contents = next self.old.schema self.old.contents (Edge type_no text.now target audience until) }) }
        ensures refused { IfErr result (λ refusal. (refusal ≡ FeedRefusal.Memory)
            ⊎ (refuses self.old.schema self.old.limits self.old.contents (Edge type_no text.now target audience until) ≡ Some refusal)) }
        ensures err { OnErr result (self.new ≡ self.old) }
    {
        let type_def = self.schema.type_def(type_no);
        let Some(key) = self.schema.key_of(type_no, text) else {
            return Err(FeedRefusal::NoSource);
        };
        let edge = EdgeRef {
            type_no,
            key,
            target,
        };
        let audience = audience_of(&self.schema, audience);
        self.graph
            .put_edge(&self.limits, type_def, &edge, &audience, until)
    }

    pub(crate) fn cut(&mut self, type_no: u16, text: &Word, target: EntityId)
        requires { type_no < length self.old.schema.types }
        ensures { self.new ≡ record self.old { contents = next self.old.schema self.old.contents (Cut type_no text.now target) } }
    {
        if let Some(key) = self.schema.key_of(type_no, text) {
            self.graph.remove_edge(&EdgeRef {
                type_no,
                key,
                target,
            });
        }
    }
}
