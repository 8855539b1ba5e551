//! A catalogue is opened, and sessions are made.
ghost use Rattle.std.specs.Prelude.{◌≡◌};
ghost use Rattle.twin_list.specs.Halves.{list_id};

use crate::{Batch, CatalogueState, Compactor, Entry, Feeder, Install, Session, Settings};
use std::alloc::{AllocError, Global};
use std::sync::{Arc, Wait};
use turn_lock::TurnLock;
use twin_list::TwinList;
use uni_base::Limits;
use uni_schema::Schema;
use uni_table::Table;

/// Versions under a lock. Threads share it by reference, each by a seat of its own.
#[derive(Drop)]
pub struct Catalogue {
    pub(crate) alloc: Global,
    pub(crate) lock: TurnLock<CatalogueState>,
    pub(crate) settings: Settings,
    pub(crate) installs: TwinList<Install>,
    ghost told: { settings.installs ≡ list_id installs },
}

impl Catalogue {
    ghost use Rattle.std.specs.Prelude.{◌≡◌, ◌+◌, ◌<◌, [], IfOk};
    ghost use Rattle.std.specs.Arc.{arc_value};
    ghost use Rattle.uni_table.specs.Contents.{empty};
    ghost use Rattle.turn_lock.specs.Seats.{SeatRests, seat_turns};
    ghost use Rattle.version_catalog.specs.Seats.{settings_of, feeder_table, feeder_batch, feeder_journal, feeder_turns, feeder_sessions, IsFeederOf, session_journal, IsSessionOf, compactor_journal, compactor_installs, compactor_turns, IsCompactorOf};

    /// A catalogue without publishes, with its feeder and its compactor. It takes one turn of the feeder.
    pub fn new<R: Wait>(
        rt: &R,
        alloc: Global,
        schema: Arc<Schema>,
        limits: Limits,
    ) -> Result<(Catalogue, Feeder, Compactor), AllocError>
        ensures settings { IfOk result (λ t. ((settings_of t.0).schema ≡ arc_value schema) × ((settings_of t.0).limits ≡ limits)) }
        ensures feeder { IfOk result (λ t. IsFeederOf t.0 t.1) }
        ensures compactor { IfOk result (λ t. IsCompactorOf t.0 t.2) }
        ensures journals { IfOk result (λ t. (feeder_journal t.1 ≡ []) × (compactor_journal t.2 ≡ [])) }
        ensures installs { IfOk result (λ t. compactor_installs t.2 ≡ []) }
        ensures table { IfOk result (λ t. feeder_table t.1 ≡ record { schema = arc_value schema; limits = limits; contents = empty; published = empty }) }
        ensures batch { IfOk result (λ t. feeder_batch t.1 ≡ []) }
        ensures counts { IfOk result (λ t. (feeder_turns t.1 ≡ 1) × (feeder_sessions t.1 ≡ 0) × (compactor_turns t.2 ≡ 0)) }
    {
        let (installs, mine, other) = TwinList::new(alloc)?;
        let entry = Entry::Opening(Settings::new(schema.clone()?, limits, &installs));
        let settings = Settings::new(schema, limits, &installs);
        let table = Table::new(alloc, settings.schema().clone()?, limits);
        let opening = CatalogueState::opening(alloc, &settings, Some(other))?;
        let unopened = CatalogueState::opening(alloc, &settings, None)?;
        let (lock, mut seat) = TurnLock::new(alloc, unopened)?;
        let mut turn = lock.enter_writer(rt, &mut seat);
        turn.value = opening;
        lock.leave_with_entry(&mut seat, turn, &entry);
        let compactor = Compactor {
            seat: lock.seat(&mut seat),
            half: mine,
        };
        let feeder = Feeder {
            seat,
            table,
            batch: Batch::new(),
            publishes: 0,
        };
        let catalogue = Catalogue {
            alloc,
            lock,
            settings,
            installs,
        };
        Ok((catalogue, feeder, compactor))
    }

    /// A new session, which has seen what the feeder has.
    pub fn session(&self, feeder: &mut Feeder) -> Session
        requires of { IsFeederOf self.now feeder.old }
        requires few { feeder_sessions feeder.old < 126 }
        ensures of { IsSessionOf self.now result }
        ensures rests { SeatRests result }
        ensures turns { seat_turns result ≡ 0 }
        ensures journal { session_journal result ≡ feeder_journal feeder.old }
        ensures feeder { IsFeederOf self.now feeder.new }
        ensures sessions { feeder_sessions feeder.new ≡ feeder_sessions feeder.old + 1 }
        ensures kept { (feeder_journal feeder.new ≡ feeder_journal feeder.old) × (feeder_turns feeder.new ≡ feeder_turns feeder.old) × (feeder_table feeder.new ≡ feeder_table feeder.old) × (feeder_batch feeder.new ≡ feeder_batch feeder.old) }
    {
        self.lock.seat(&mut feeder.seat)
    }
}
