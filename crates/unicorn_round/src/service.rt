//! A script is served over versions: the feeder, the compactor and the sessions of a catalogue work on the lines
//! of each round at once.
ghost use Rattle.std.specs.Prelude.{◌≡◌, ◌≤◌, IfOk};
ghost use Rattle.std.specs.Arc.{arc_value};
ghost use Rattle.script_rounds.specs.Terms.{under};
ghost use Rattle.uni_base.specs.StandardLimits.{IsWithinStandard};
ghost use Rattle.unicorn_round.specs.Answerer.{HasAnswered, IsOpened, MayAnswer};
ghost use Rattle.unicorn_round.specs.Service.{AreNew, IsReady, ServesMore, ServiceStands, service_terms};
ghost use Rattle.version_catalog.specs.Seats.{IsFeederOf, feeder_batch, feeder_journal, feeder_sessions, feeder_table, feeder_turns};

use crate::answering::Answering;
use crate::merge::text_of_answers;
use crate::parts::Parts;
use crate::round::run_round;
use crate::tidy::end_round;
use rack_aggregate::Gate;
use replica_pick::Chooser;
use reply_text::AnswerList;
use script_rounds::ItemList;
use std::alloc::{AllocError, Global};
use std::sync::{Arc, Wait};
use std::thread::Threads;
use uni_base::{Limits, Text};
use uni_schema::Schema;
use version_catalog::{Catalogue, Compactor, Feeder, Session};

/// A catalogue with a seat for each task.
#[derive(Drop)]
pub(crate) struct Service {
    alloc: Global,
    catalogue: Catalogue,
    feeder: Feeder,
    compactor: Compactor,
    sessions: Vec<Session>,
}

impl Service {
    /// Nothing published, and nothing pending.
    pub(crate) fn open<R: Wait>(
        rt: &R,
        alloc: Global,
        limits: Limits,
        schema: Arc<Schema>,
    ) -> Result<Service, AllocError>
        requires { IsWithinStandard limits }
        ensures { IfOk result (IsOpened service_terms IsReady ServiceStands (under limits (arc_value schema))) }
    {
        let (catalogue, mut feeder, compactor) = Catalogue::new(rt, alloc, schema, limits)?;
        let sessions = new_sessions(alloc, &catalogue, &mut feeder, limits.sessions)?;
        Ok(Service {
            alloc,
            catalogue,
            feeder,
            compactor,
            sessions,
        })
    }

    /// Serves a round: the service after it, and the text that answers it.
    pub(crate) fn serve<R: Threads + Wait + Sync, C: Chooser + Sync, G: Gate + Sync>(
        self,
        rt: &R,
        items: ItemList,
        workers: u32,
        chooser: &C,
        gate: &G,
    ) -> Result<(Service, Text), AllocError>
        requires workers { 1 ≤ workers }
        requires may { MayAnswer service_terms IsReady ServiceStands self items }
        ensures { IfOk result (λ t. HasAnswered service_terms IsReady ServiceStands self items t.0 t.1) }
    {
        let alloc = self.alloc;
        let (service, said) = self.answer(rt, items, workers, chooser, gate)?;
        let text = text_of_answers(alloc, service.feeder.table().schema(), said.as_slice())?;
        Ok((service, text))
    }

    /// Serves a round: the service after it, and its answers.
    pub(crate) fn answer<R: Threads + Wait + Sync, C: Chooser + Sync, G: Gate + Sync>(
        self,
        rt: &R,
        items: ItemList,
        workers: u32,
        chooser: &C,
        gate: &G,
    ) -> Result<(Service, AnswerList), AllocError>
        requires workers { 1 ≤ workers }
        requires may { MayAnswer service_terms IsReady ServiceStands self items }
        ensures { IfOk result (λ t. ServesMore self items t.0 t.1) }
    {
        let Service {
            alloc,
            catalogue,
            mut feeder,
            mut compactor,
            mut sessions,
        } = self;
        apply_extract::laws::within_has_shares();
        let parts = Parts::of(alloc, items, sessions.len() as u64)?;
        let answers = run_round(
            rt,
            alloc,
            &catalogue,
            &mut feeder,
            &mut compactor,
            sessions.as_mut_slice(),
            &parts,
            workers,
            chooser,
            gate,
        )?;
        let said = end_round(
            rt,
            alloc,
            &catalogue,
            &mut feeder,
            &mut compactor,
            parts,
            answers,
            workers,
            gate,
        )?;
        let service = Service {
            alloc,
            catalogue,
            feeder,
            compactor,
            sessions,
        };
        Ok((service, said))
    }
}

// New sessions, so many.
fn new_sessions(
    alloc: Global,
    catalogue: &Catalogue,
    feeder: &mut Feeder,
    count: u64,
) -> Result<Vec<Session>, AllocError>
    requires feeder { IsFeederOf catalogue.now feeder.old }
    requires none { feeder_sessions feeder.old ≡ 0 }
    requires few { count ≤ 64 }
    ensures feeder { IsFeederOf catalogue.now feeder.new }
    ensures kept { (feeder_journal feeder.new ≡ feeder_journal feeder.old) × (feeder_turns feeder.new ≡ feeder_turns feeder.old)
        × (feeder_table feeder.new ≡ feeder_table feeder.old) × (feeder_batch feeder.new ≡ feeder_batch feeder.old) }
    ensures sessions { IfOk result (λ sessions. AreNew catalogue.now count sessions.items) }
{
    let mut sessions = Vec::new(alloc);
    for _ in 0..count {
        sessions.push(catalogue.session(feeder))?;
    }
    Ok(sessions)
}

impl Answering for Service {
    ghost use Rattle.unicorn_round.specs.Modes.{Serves, nothing_more};
    ghost use Rattle.unicorn_round.specs.ServedLaws.{serves_nothing};
    ghost use Rattle.unicorn_round.specs.Service.{IsReady, ServiceStands, service_terms};
    ghost use Rattle.unicorn_round.specs.ServiceLaws.{service_claims};

    ghost terms = { service_terms };

    ghost ready = { IsReady };

    ghost stands = { ServiceStands };

    ghost claims = { Serves };

    ghost closing = { nothing_more };

    fn close(&self, _lines: u64) -> Result<Text, AllocError> {
        Ok(Text::new(self.alloc))
    }

    ghost claimed = { service_claims };

    ghost nothing = { serves_nothing };
}
