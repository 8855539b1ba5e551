//! The service measures itself: it serves a script that is made from a seed, and tells what the answers come to.
ghost use Rattle.std.specs.Prelude.{◌≡◌, ◌≤◌, IfOk};
ghost use Rattle.std.specs.Arc.{arc_value};
ghost use Rattle.std.specs.Thread.{IsSync};
ghost use Rattle.bench_script.specs.BenchScript.{bench_text};
ghost use Rattle.script_rounds.specs.Rounds.{script_of};
ghost use Rattle.script_rounds.specs.Terms.{under};
ghost use Rattle.uni_base.specs.StandardLimits.{IsWithinStandard, standard_limits};
ghost use Rattle.unicorn_round.specs.Answerer.{HasAnswered, IsOpened, MayAnswer};
ghost use Rattle.unicorn_round.specs.Bench.{BenchEnds, CounterStands, IsCounting, counter_terms};
ghost use Rattle.unicorn_round.specs.Counts.{counts_of_script};
ghost use Rattle.unicorn_round.specs.Statuses.{WriteFaultsFit};

use crate::counter::Counter;
use crate::counts::Counts;
use crate::laws::counts_agree;
use crate::script::answer_rounds;
use crate::status::Status;
use crate::write::write_all;
use bench_script::{ScriptSource, bench_script};
use rack_aggregate::Gate;
use replica_pick::Chooser;
use script_rounds::ItemList;
use std::alloc::{AllocError, Global};
use std::sync::{Arc, Wait};
use std::thread::Threads;
use uni_base::{Limits, Sink, SureSink, Text};
use uni_schema::Schema;

/// Serves the script of a seed and so many people from memory, and writes what its answers come to: the mode
/// `bench`. The script goes through the same reader, rounds and versions as any other.
#[allow(clippy::too_many_arguments)]
pub fn bench<R, K, C, G>(
    rt: &R,
    alloc: Global,
    seed: u32,
    people: u32,
    workers: u32,
    sink: &mut K,
    chooser: &C,
    gate: &G,
) -> Status
where
    R: Threads + Wait + Sync,
    K: Sink,
    C: Chooser + Sync,
    G: Gate + Sync,
    requires seed { (1 ≤ seed) × (seed ≤ 2147483646) }
    requires people { (2 ≤ people) × (people ≤ 100000) }
    requires workers { (1 ≤ workers) × (workers ≤ 64) }
    ensures ends { BenchEnds seed people (K.taken sink.old) (K.taken sink.new) result }
    ensures writes { WriteFaultsFit result (K.faults sink.old) (K.faults sink.new) }
{
    let Ok(counts) = count_script(rt, alloc, seed, people, workers, chooser, gate) else {
        return Status::Memory;
    };
    let Ok(text) = counts.summary(alloc, people) else {
        return Status::Memory;
    };
    match write_all(sink, text.as_slice()) {
        Ok(()) => Status::Done,
        Err(_) => Status::WriteFault,
    }
}

// A source over the script.
fn script_source(alloc: Global, seed: u32, people: u32) -> Result<ScriptSource, AllocError>
    requires seed { (1 ≤ seed) × (seed ≤ 2147483646) }
    requires people { (2 ≤ people) × (people ≤ 100000) }
    ensures { IfOk result (λ source. source ≡ bench_text seed people) }
{
    let text = bench_script(alloc, seed, people)?;
    ScriptSource::of(alloc, text.as_slice())
}

// What the answers of the script come to.
fn count_script<R, C, G>(
    rt: &R,
    alloc: Global,
    seed: u32,
    people: u32,
    workers: u32,
    chooser: &C,
    gate: &G,
) -> Result<Counts, AllocError>
where
    R: Threads + Wait + Sync,
    C: Chooser + Sync,
    G: Gate + Sync,
    requires seed { (1 ≤ seed) × (seed ≤ 2147483646) }
    requires people { (2 ≤ people) × (people ≤ 100000) }
    requires workers { (1 ≤ workers) × (workers ≤ 64) }
    ensures { IfOk result (λ counts. counts ≡ counts_of_script (script_of standard_limits (bench_text seed people))) }
{
    counts_agree();
    let limits = Limits::standard();
    let mut source = script_source(alloc, seed, people)?;
    let mut sink = SureSink::new();
    let counted = answer_rounds(
        alloc,
        limits,
        &mut source,
        &mut sink,
        &|schema: Arc<Schema>| -> Result<Counter, AllocError>
            requires standard { IsWithinStandard limits }
            ensures { IfOk result (IsOpened counter_terms IsCounting CounterStands (under limits (arc_value schema))) }
        { Counter::open(rt, alloc, limits, schema) },
        &|counter: Counter, items: ItemList| -> Result<(Counter, Text), AllocError>
            requires sync { IsSync R.row × IsSync C.row × IsSync G.row }
            requires workers { 1 ≤ workers }
            requires may { MayAnswer counter_terms IsCounting CounterStands counter items }
            ensures { IfOk result (λ t. HasAnswered counter_terms IsCounting CounterStands counter items t.0 t.1) }
        { counter.count(rt, items, workers, chooser, gate) },
    );
    match counted {
        Ok((counter, _)) => Ok(counter.counts),
        Err(_) => Err(AllocError),
    }
}
