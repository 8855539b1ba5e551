ghost use Rattle.std.specs.Prelude.{◌≤◌, IfOk};
ghost use Rattle.std.specs.Arc.{arc_value};
ghost use Rattle.std.specs.Thread.{IsSync};
ghost use Rattle.script_rounds.specs.Terms.{under};
ghost use Rattle.uni_base.specs.StandardLimits.{IsWithinStandard};
ghost use Rattle.unicorn_round.specs.Answerer.{Always, HasAnswered, IsOpened, MayAnswer};
ghost use Rattle.unicorn_round.specs.CheckState.{CheckStands, check_terms};
ghost use Rattle.unicorn_round.specs.Checking.{checked_line};
ghost use Rattle.unicorn_round.specs.Completeness.{Completes};
ghost use Rattle.unicorn_round.specs.Modes.{AnswersPlainly, Checks, Serves, nothing_more};
ghost use Rattle.unicorn_round.specs.Outcome.{Ran};
ghost use Rattle.unicorn_round.specs.Service.{IsReady, ServiceStands, service_terms};
ghost use Rattle.unicorn_round.specs.SerialState.{SerialStands, serial_terms};
ghost use Rattle.unicorn_round.specs.Statuses.{ReadFaultsFit, WriteFaultsFit};

use crate::checker::Checker;
use crate::script::answer_script;
use crate::serial::Serial;
use crate::service::Service;
use crate::status::Status;
use rack_aggregate::Gate;
use replica_pick::Chooser;
use script_rounds::ItemList;
use std::alloc::{AllocError, Global};
use std::sync::{Arc, Wait};
use std::thread::Threads;
use uni_base::{Limits, Sink, Source, Text};
use uni_schema::Schema;

/// Answers a script: the mode `serve`. The lines of a round are worked on at once: by the feeder, the compactor, and
/// the sessions among so many workers. Replicas are chosen by the chooser, and the gate is told of each point.
#[allow(clippy::too_many_arguments)]
pub fn serve_rounds<R, S, K, C, G>(
    rt: &R,
    alloc: Global,
    limits: Limits,
    workers: u32,
    source: &mut S,
    sink: &mut K,
    chooser: &C,
    gate: &G,
) -> Status
where
    R: Threads + Wait + Sync,
    S: Source,
    K: Sink,
    C: Chooser + Sync,
    G: Gate + Sync,
    requires workers { (1 ≤ workers) × (workers ≤ 64) }
    requires standard { IsWithinStandard limits }
    ensures ran { Ran limits Serves nothing_more (S.left source.old) (S.left source.new) (K.taken sink.old) (K.taken sink.new) result }
    ensures reads { ReadFaultsFit result (S.faults source.old) (S.faults source.new) }
    ensures writes { WriteFaultsFit result (K.faults sink.old) (K.faults sink.new) }

    // A script within its limit under a header without fault, and no failed read or write: then all is
    // answered, unless it runs out of memory.
    ensures complete { Completes limits (S.left source.old) (S.faults source.old) (S.faults source.new) (K.faults sink.old) (K.faults sink.new) result }
{
    answer_script(
        alloc,
        limits,
        source,
        sink,
        &|schema: Arc<Schema>| -> Result<Service, AllocError>
            requires standard { IsWithinStandard limits }
            ensures { IfOk result (IsOpened service_terms IsReady ServiceStands (under limits (arc_value schema))) }
        { Service::open(rt, alloc, limits, schema) },
        &|service: Service, items: ItemList| -> Result<(Service, Text), AllocError>
            requires sync { IsSync R.row × IsSync C.row × IsSync G.row }
            requires workers { 1 ≤ workers }
            requires may { MayAnswer service_terms IsReady ServiceStands service items }
            ensures { IfOk result (λ t. HasAnswered service_terms IsReady ServiceStands service items t.0 t.1) }
        { service.serve(rt, items, workers, chooser, gate) },
    )
}

/// Answers a script line by line, each query at the publishes made before its line: the mode `plain`.
pub fn run_plain<S: Source, K: Sink>(
    alloc: Global,
    limits: Limits,
    source: &mut S,
    sink: &mut K,
) -> Status
    requires { IsWithinStandard limits }
    ensures ran { Ran limits AnswersPlainly nothing_more (S.left source.old) (S.left source.new) (K.taken sink.old) (K.taken sink.new) result }
    ensures reads { ReadFaultsFit result (S.faults source.old) (S.faults source.new) }
    ensures writes { WriteFaultsFit result (K.faults sink.old) (K.faults sink.new) }
    ensures complete { Completes limits (S.left source.old) (S.faults source.old) (S.faults source.new) (K.faults sink.old) (K.faults sink.new) result }
{
    answer_script(
        alloc,
        limits,
        source,
        sink,
        &|schema: Arc<Schema>| -> Result<Serial, AllocError>
            requires { IsWithinStandard limits }
            ensures { IfOk result (IsOpened serial_terms Always SerialStands (under limits (arc_value schema))) }
        { Serial::new(alloc, limits, schema) },
        &|serial: Serial, items: ItemList| -> Result<(Serial, Text), AllocError>
            requires { MayAnswer serial_terms Always SerialStands serial items }
            ensures { IfOk result (λ t. HasAnswered serial_terms Always SerialStands serial items t.0 t.1) }
        { serial.answer_round(items) },
    )
}

/// Says what is wrong with the lines of a script, and how many lines it has: the mode `check`.
pub fn check_script<S: Source, K: Sink>(
    alloc: Global,
    limits: Limits,
    source: &mut S,
    sink: &mut K,
) -> Status
    requires { IsWithinStandard limits }
    ensures ran { Ran limits Checks checked_line (S.left source.old) (S.left source.new) (K.taken sink.old) (K.taken sink.new) result }
    ensures reads { ReadFaultsFit result (S.faults source.old) (S.faults source.new) }
    ensures writes { WriteFaultsFit result (K.faults sink.old) (K.faults sink.new) }
    ensures complete { Completes limits (S.left source.old) (S.faults source.old) (S.faults source.new) (K.faults sink.old) (K.faults sink.new) result }
{
    answer_script(
        alloc,
        limits,
        source,
        sink,
        &|schema: Arc<Schema>| -> Result<Checker, AllocError>
            requires { IsWithinStandard limits }
            ensures { IfOk result (IsOpened check_terms Always CheckStands (under limits (arc_value schema))) }
        { Ok(Checker::new(alloc, limits, schema)) },
        &|checker: Checker, items: ItemList| -> Result<(Checker, Text), AllocError>
            requires { MayAnswer check_terms Always CheckStands checker items }
            ensures { IfOk result (λ t. HasAnswered check_terms Always CheckStands checker items t.0 t.1) }
        { checker.answer_round(items) },
    )
}
