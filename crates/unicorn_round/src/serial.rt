ghost use Rattle.std.specs.Prelude.{ℕ, ◌≡◌, ◌<◌, ◌≤◌, ◌+◌, ◌++◌, ◌∷◌, ◌⊎◌, [], None, Some, All, IfOk, IfErr, OnOk, OnErr, option_to_list};
ghost use Rattle.std.specs.Arc.{arc_value};
ghost use Rattle.query_check.specs.Plan.{stated_of};
ghost use Rattle.script_rounds.specs.Entries.{Entry, IsItemOf, ask, change, compact, publish};
ghost use Rattle.script_rounds.specs.Fits.{IsQuery, ItemFits};
ghost use Rattle.script_rounds.specs.Terms.{under};
ghost use Rattle.uni_base.specs.StandardLimits.{IsWithinStandard};
ghost use Rattle.uni_table.specs.Commands.{IsDeclared, next, refuses};
ghost use Rattle.uni_table.specs.Contents.{ended};
ghost use Rattle.uni_table.specs.Journals.{after_commands};
ghost use Rattle.unicorn_round.specs.Answers.{Standing};
ghost use Rattle.unicorn_round.specs.SerialState.{Answered, IsPending, StandsFor, opening_serial};
ghost use Rattle.unicorn_round.specs.Stacks.{covering};

mod round;

use crate::answering::Answering;
use crate::refusal::{PublishRefusal, TOO_MANY_PUBLISHES};
use crate::stacks::Stacks;
use packed_command::PackedCommand;
use query_check::Checked;
use reply_text::{Answer, StackRows};
use script_rounds::{Item, ItemList};
use std::alloc::{AllocError, Global};
use std::marker::Model;
use std::sync::Arc;
use uni_base::{EntityId, Limits, Text};
use uni_meaning::plain_answer;
use uni_schema::Schema;
use uni_table::{Command, FeedRefusal, Table};

/// Answers lines one after the other, each query at the last version. What is pending stays apart from
/// that version. A publish takes the pending commands into it one by one, or makes it a copy of what is
/// pending where its commands are as many as all that were published before, so that no publish costs more
/// than its commands.
#[derive(Drop)]
pub(crate) struct Serial {
    alloc: Global,
    limits: Limits,
    pending: Table,
    batch: Vec<PackedCommand>,
    published: Table,
    publishes: u64,
    // How many commands were published.
    taken: u64,
    stacks: Stacks,
}

impl Model for Serial {
    ghost use Rattle.std.specs.Prelude.{◌≡◌, ◌≤◌, All};
    ghost use Rattle.script_rounds.specs.Terms.{under};
    ghost use Rattle.uni_base.specs.StandardLimits.{IsWithinStandard};
    ghost use Rattle.uni_table.specs.Commands.{IsDeclared};
    ghost use Rattle.unicorn_round.specs.SerialState.{SerialState};

    ghost Value = { SerialState };

    ghost view = { λ s. record {
      terms = under s.limits s.pending.schema;
      pending = s.pending.contents;
      batch = s.batch.items;
      published = s.published.contents;
      publishes = s.publishes;
      covers = s.stacks;
    } };

    ghost invariant = { λ s. (s.pending.limits ≡ s.limits) × (s.published.limits ≡ s.limits) × (s.published.schema ≡ s.pending.schema)
        × All (IsDeclared s.pending.schema) s.batch.items × IsWithinStandard s.limits × (s.publishes ≤ s.limits.publishes) };
}

impl Serial {
    /// Nothing published, and nothing pending.
    pub(crate) fn new(
        alloc: Global,
        limits: Limits,
        schema: Arc<Schema>,
    ) -> Result<Serial, AllocError>
        requires { IsWithinStandard limits }
        ensures { IfOk result (λ serial. serial ≡ opening_serial (under limits (arc_value schema))) }
    {
        let stacks = Stacks::open(alloc, &schema)?;
        let shared = schema.clone()?;
        Ok(Serial {
            alloc,
            limits,
            pending: Table::new(alloc, shared, limits),
            batch: Vec::new(alloc),
            published: Table::new(alloc, schema, limits),
            publishes: 0,
            taken: 0,
            stacks,
        })
    }

    /// Answers a line that counts, if it has an answer. The stacks that `stats` shows are those at its
    /// round's end, and are filled in there.
    pub(crate) fn answer(&mut self, item: &Item) -> Result<Option<Answer>, AllocError>
        requires { ItemFits self.old.terms item.now }
        ensures terms { self.new.terms ≡ self.old.terms }
        ensures answered { IfOk result (λ answer. (entry : Entry) → (s : Standing) → IsItemOf entry item.now → StandsFor self.old s
            → Answered self.old.terms s entry self.new (option_to_list answer)) }
    {
        Ok(match item {
            Item::Change(line, command) => self.change(*line, &command.command()),
            Item::Publish(line) => Some(self.publish(*line)?),
            Item::Ask {
                line,
                session: _,
                viewer,
                limit,
                query,
            } => Some(self.ask(*line, *viewer, *limit, query)),
            Item::Compact(line, vertical, shard, replica) => {
                Some(self.compact(*line, *vertical, *shard, *replica))
            }
            Item::Stats(line) => Some(Answer::Stats(*line, 0, StackRows::new(self.alloc))),
            Item::Refused(line, code) => Some(Answer::Refused(*line, *code)),
            Item::Fault(line, code) => Some(Answer::Fault(*line, *code)),
            Item::QueryFault(line, code, column) => Some(Answer::QueryFault(*line, *code, *column)),
            Item::Memory(line) => Some(Answer::Memory(*line)),
        })
    }

    // A change that is refused has no effect, nor has one that finds no memory.
    fn change(&mut self, line: u64, command: &Command) -> Option<Answer>
        requires { IsDeclared self.old.terms.schema command.now }
        ensures terms { self.new.terms ≡ self.old.terms }
        ensures answered { (s : Standing) → StandsFor self.old s → Answered self.old.terms s (change line command.now) self.new (option_to_list result) }
    {
        match self.put(command) {
            Ok(()) => None,
            Err(refusal) => Some(match refusal.code() {
                Some(code) => Answer::Refused(line, code),
                None => Answer::Memory(line),
            }),
        }
    }

    // A change joins what is pending.
    fn put(&mut self, command: &Command) -> Result<(), FeedRefusal>
        requires { IsDeclared self.old.terms.schema command.now }
        ensures taken { OnOk result (refuses self.old.terms.schema self.old.terms.limits self.old.pending command.now ≡ None) }
        ensures ok { OnOk result (self.new ≡ record self.old {
          pending = next self.old.terms.schema self.old.pending command.now;
          batch = self.old.batch ++ command.now ∷ [];
        }) }
        ensures refused { IfErr result (λ refusal. (refusal ≡ FeedRefusal.Memory)
            ⊎ (refuses self.old.terms.schema self.old.terms.limits self.old.pending command.now ≡ Some refusal)) }
        ensures err { OnErr result (self.new ≡ self.old) }
    {
        let packed = PackedCommand::of(self.alloc, command)?;
        if add(&mut self.batch, packed).is_err() {
            return Err(FeedRefusal::Memory);
        }
        let put = self.pending.put(command);
        if put.is_err() {
            let _refused = self.batch.pop();
        }
        put
    }

    // A publish at the limit has no effect.
    fn publish(&mut self, line: u64) -> Result<Answer, AllocError>
        ensures terms { self.new.terms ≡ self.old.terms }
        ensures answered { IfOk result (λ answer. (s : Standing) → StandsFor self.old s → Answered self.old.terms s (publish line) self.new (answer ∷ [])) }
    {
        match self.make_version() {
            Ok(number) => Ok(Answer::Published(line, number)),
            Err(PublishRefusal::TooMany) => Ok(Answer::Refused(line, TOO_MANY_PUBLISHES)),
            Err(PublishRefusal::Memory) => Err(AllocError),
        }
    }

    // What is pending becomes a version, without the edges that end at its number. At the limit nothing
    // changes.
    fn make_version(&mut self) -> Result<u64, PublishRefusal>
        ensures terms { self.new.terms ≡ self.old.terms }
        ensures fewer { OnOk result (self.old.publishes < self.old.terms.limits.publishes) }
        ensures next { IfOk result (λ number. number ≡ self.old.publishes + 1) }
        ensures ok { OnOk result (IsPending self.old → self.new ≡ record self.old {
          pending = ended self.old.pending (self.old.publishes + 1);
          batch = [];
          published = ended (after_commands self.old.terms.schema self.old.published self.old.batch) (self.old.publishes + 1);
          publishes = self.old.publishes + 1;
        }) }
        ensures refused { IfErr result (λ refusal. (refusal ≡ PublishRefusal.Memory)
            ⊎ ((self.old.terms.limits.publishes ≤ self.old.publishes) × (self.new ≡ self.old))) }
    {
        if self.publishes >= self.limits.publishes {
            return Err(PublishRefusal::TooMany);
        }
        if self.publish_pending().is_err() {
            return Err(PublishRefusal::Memory);
        }
        self.publishes += 1;
        self.published.end(self.publishes);
        self.pending.end(self.publishes);
        self.taken = self.taken.saturating_add(self.batch.len() as u64);
        self.batch.clear();
        Ok(self.publishes)
    }

    // The last version has the pending commands too. It is copied from what is pending where these are
    // many: a table has no more rows, gone or not, than a few for each command.
    fn publish_pending(&mut self) -> Result<(), AllocError>
        ensures ok { OnOk result (IsPending self.old
            → self.new ≡ record self.old { published = after_commands self.old.terms.schema self.old.published self.old.batch }) }
        ensures kept { (self.new.terms ≡ self.old.terms) × (self.new.publishes ≡ self.old.publishes) }
    {
        if (self.batch.len() as u64) < self.taken {
            put_all(&mut self.published, self.batch.as_slice())
        } else {
            self.published = self.pending.copy()?;
            Ok(())
        }
    }

    // A query is answered over the last version.
    fn ask(&self, line: u64, viewer: EntityId, limit: u32, query: &Checked) -> Answer
        requires { IsQuery self.now.terms query.now }
        ensures { (session : ℕ) → (s : Standing) → StandsFor self.now s
            → Answered self.now.terms s (ask line session viewer limit (stated_of query.now).plan) self.now (result ∷ []) }
    {
        let table = self.version();
        match plain_answer(self.alloc, table, self.publishes, query, viewer, limit) {
            Ok(reply) => Answer::Reply(line, reply),
            Err(_) => Answer::Memory(line),
        }
    }

    // The table of the last version.
    fn version(&self) -> &Table
        ensures contents { result.now.contents ≡ self.now.published }
        ensures schema { result.now.schema ≡ self.now.terms.schema }
        ensures limits { result.now.limits ≡ self.now.terms.limits }
    {
        &self.published
    }

    // A stack that is compacted covers what was published so far.
    fn compact(&mut self, line: u64, vertical: u16, shard: u32, replica: u32) -> Answer
        ensures terms { self.new.terms ≡ self.old.terms }
        ensures answered { (s : Standing) → StandsFor self.old s → Answered self.old.terms s (compact line vertical shard replica) self.new (result ∷ []) }
    {
        self.stacks.cover(vertical, shard, replica, self.publishes);
        Answer::Compacted(line, self.publishes)
    }
}

impl Answering for Serial {
    ghost use Rattle.unicorn_round.specs.Answerer.{Always};
    ghost use Rattle.unicorn_round.specs.Modes.{AnswersPlainly, nothing_more};
    ghost use Rattle.unicorn_round.specs.SerialState.{SerialStands, serial_terms};
    ghost use Rattle.unicorn_round.specs.SerialLaws.{plain_claimed, plain_nothing};

    ghost terms = { serial_terms };

    ghost ready = { Always };

    ghost stands = { SerialStands };

    ghost claims = { AnswersPlainly };

    ghost closing = { nothing_more };

    fn close(&self, _lines: u64) -> Result<Text, AllocError> {
        Ok(Text::new(self.alloc))
    }

    ghost claimed = { plain_claimed };

    ghost nothing = { plain_nothing };
}

// An item at the end of others.
fn add<T: Drop>(items: &mut Vec<T>, item: T) -> Result<(), AllocError>
    ensures ok { OnOk result (items.new.items ≡ items.old.items ++ item ∷ []) }
    ensures err { OnErr result (items.new.items ≡ items.old.items) }
{
    items.push(item)?;
    Ok(())
}

// Commands are put into a table, one after the other.
fn put_all(table: &mut Table, commands: &[PackedCommand]) -> Result<(), AllocError>
    requires { All (IsDeclared table.old.schema) commands.now }
    ensures kept { (table.new.schema ≡ table.old.schema) × (table.new.limits ≡ table.old.limits) }
    ensures ok { OnOk result (table.new ≡ record table.old { contents = after_commands table.old.schema table.old.contents commands.now }) }
{
    for command in commands {
        if table.put(&command.command()).is_err() {
            return Err(AllocError);
        }
    }
    Ok(())
}
