ghost use Rattle.std.specs.Prelude.{◌≡◌, ◌⊎◌, ◌≤◌, true, [], ◌∷◌, ◌++◌, length, None, Some, OnOk, OnErr, IfErr};
ghost use Rattle.uni_table.specs.Commands.{IsDeclared, refuses, next};
ghost use Rattle.uni_table.specs.Journals.{fold_of, after_commands, accepts_commands};
ghost use Rattle.turn_lock.specs.Seats.{writer_seen, writer_made, WriterRests};
ghost use Rattle.version_catalog.specs.Journals.{batches};

use crate::{Batch, CatalogueState};
use turn_lock::WriterSeat;
use uni_table::{Command, FeedRefusal, Table};

/// The one seat of a catalogue that publishes, with its table and the commands that it has accepted since
/// it last did.
#[derive(Drop)]
pub struct Feeder {
    pub(crate) seat: WriterSeat<CatalogueState>,
    pub(crate) table: Table,
    pub(crate) batch: Batch,
    pub(crate) publishes: u64,
    ghost rests: { WriterRests seat },
    ghost made: { 1 ≤ writer_made seat },
    ghost counted: { publishes ≡ length (batches (writer_seen seat)) },
    ghost published: { table.published ≡ fold_of table.schema (batches (writer_seen seat)) },
    ghost contents: { table.contents ≡ after_commands table.schema table.published batch },
    ghost accepted: { accepts_commands table.schema table.limits table.published batch ≡ true },
}

impl Feeder {
    ghost use Rattle.version_catalog.specs.Seats.{feeder_table, feeder_batch, feeder_journal, feeder_turns, feeder_sessions, IsFeederOf, KeepsSeat};
    ghost use Rattle.version_catalog.specs.declared.catalogue.Catalogue.{Catalogue};

    /// Makes room in its table for so many edges more. Where there is no memory for it, each that is put makes it as
    /// it comes.
    pub fn reserve_edges(&mut self, edges: usize)
        ensures { self.new ≡ self.old }
    {
        self.table.reserve_edges(edges);
    }

    /// Takes a command as its table does, which then joins the batch. After a refusal table and batch are
    /// as before.
    pub fn put(&mut self, command: &Command) -> Result<(), FeedRefusal>
        requires { IsDeclared (feeder_table self.old).schema command.now }
        ensures taken { OnOk result (refuses (feeder_table self.old).schema (feeder_table self.old).limits (feeder_table self.old).contents command.now ≡ None) }
        ensures ok { OnOk result (feeder_table self.new ≡ record (feeder_table self.old) { contents = next (feeder_table self.old).schema (feeder_table self.old).contents command.now }) }
        ensures joins { OnOk result (feeder_batch self.new ≡ feeder_batch self.old ++ command.now ∷ []) }
        ensures refused { IfErr result (λ refusal. (refusal ≡ FeedRefusal.Memory)
            ⊎ (refuses (feeder_table self.old).schema (feeder_table self.old).limits (feeder_table self.old).contents command.now ≡ Some refusal)) }
        ensures err { OnErr result ((feeder_table self.new ≡ feeder_table self.old) × (feeder_batch self.new ≡ feeder_batch self.old)) }
        ensures seat { KeepsSeat self.old self.new }
        ensures of { (catalogue : Catalogue) → IsFeederOf catalogue self.old → IsFeederOf catalogue self.new }
    {
        add(&mut self.table, &mut self.batch, command)
    }

    /// The table: that of the journal, with the commands of the batch.
    pub fn table(&self) -> &Table
        ensures table { result.now ≡ feeder_table self.now }
        ensures published { (feeder_table self.now).published ≡ fold_of (feeder_table self.now).schema (feeder_journal self.now) }
        ensures contents { (feeder_table self.now).contents ≡ after_commands (feeder_table self.now).schema (feeder_table self.now).published (feeder_batch self.now) }
        ensures accepted { accepts_commands (feeder_table self.now).schema (feeder_table self.now).limits (feeder_table self.now).published (feeder_batch self.now) ≡ true }
    {
        &self.table
    }

    /// How many publishes were made.
    pub fn publishes(&self) -> u64
        ensures { result ≡ length (feeder_journal self.now) }
    {
        self.publishes
    }

    /// How many sessions were made.
    pub fn sessions(&self) -> u32
        ensures { result ≡ feeder_sessions self.now }
    {
        self.seat.made() - 1
    }

    /// How many turns its seat has taken.
    pub fn turns(&self) -> u64
        ensures { result ≡ feeder_turns self.now }
    {
        self.seat.turns()
    }
}

// A command that the table takes joins the batch.
fn add(table: &mut Table, batch: &mut Batch, command: &Command) -> Result<(), FeedRefusal>
    requires { IsDeclared table.old.schema command.now }
    ensures taken { OnOk result (refuses table.old.schema table.old.limits table.old.contents command.now ≡ None) }
    ensures ok { OnOk result (table.new ≡ record table.old { contents = next table.old.schema table.old.contents command.now }) }
    ensures joins { OnOk result (batch.new ≡ batch.old ++ command.now ∷ []) }
    ensures refused { IfErr result (λ refusal. (refusal ≡ FeedRefusal.Memory) ⊎ (refuses table.old.schema table.old.limits table.old.contents command.now ≡ Some refusal)) }
    ensures err { OnErr result ((table.new ≡ table.old) × (batch.new ≡ batch.old)) }
{
    table.put(command)?;
    batch.push(*command);
    Ok(())
}
