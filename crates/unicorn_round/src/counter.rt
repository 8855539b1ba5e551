//! A script is served, and its answers are counted in place of being written.
ghost use Rattle.std.specs.Prelude.{◌≡◌, ◌≤◌, IfOk};
ghost use Rattle.std.specs.Arc.{arc_value};
ghost use Rattle.std.specs.List.{list_any};
ghost use Rattle.script_rounds.specs.Terms.{under};
ghost use Rattle.uni_base.specs.StandardLimits.{IsWithinStandard};
ghost use Rattle.unicorn_round.specs.Answerer.{HasAnswered, IsOpened, MayAnswer};
ghost use Rattle.unicorn_round.specs.Bench.{CounterStands, IsCounting, counter_terms, is_mixed, may_ask, publishes};

use crate::answering::Answering;
use crate::counts::{Counts, any_lacks};
use crate::service::Service;
use rack_aggregate::Gate;
use replica_pick::Chooser;
use script_rounds::{Item, ItemList};
use std::alloc::{AllocError, Global};
use std::sync::{Arc, Wait};
use std::thread::Threads;
use uni_base::{Limits, Text};
use uni_schema::Schema;

/// A service, and what its answers so far come to.
#[derive(Drop)]
pub(crate) struct Counter {
    pub service: Service,
    pub counts: Counts,
    pub alloc: Global,
}

impl Counter {
    /// Nothing published, and nothing counted.
    pub(crate) fn open<R: Wait>(
        rt: &R,
        alloc: Global,
        limits: Limits,
        schema: Arc<Schema>,
    ) -> Result<Counter, AllocError>
        requires { IsWithinStandard limits }
        ensures { IfOk result (IsOpened counter_terms IsCounting CounterStands (under limits (arc_value schema))) }
    {
        let service = Service::open(rt, alloc, limits, schema)?;
        let counts = Counts::none();
        Ok(Counter {
            service,
            counts,
            alloc,
        })
    }

    /// Serves a round and counts its answers. A round whose answers depend on how it runs, since it both publishes
    /// and asks, is not counted, nor is one in which a line ran out of memory: both end as being out of memory does.
    pub(crate) fn count<R: Threads + Wait + Sync, C: Chooser + Sync, G: Gate + Sync>(
        self,
        rt: &R,
        items: ItemList,
        workers: u32,
        chooser: &C,
        gate: &G,
    ) -> Result<(Counter, Text), AllocError>
        requires workers { 1 ≤ workers }
        requires may { MayAnswer counter_terms IsCounting CounterStands self items }
        ensures { IfOk result (λ t. HasAnswered counter_terms IsCounting CounterStands self items t.0 t.1) }
    {
        let Counter {
            service,
            counts,
            alloc,
        } = self;
        if is_mixed(items.as_slice()) {
            return Err(AllocError);
        }
        let (service, said) = service.answer(rt, items, workers, chooser, gate)?;
        if any_lacks(said.as_slice()) {
            return Err(AllocError);
        }
        let counts = counts.with(said.as_slice())?;
        let counter = Counter {
            service,
            counts,
            alloc,
        };
        Ok((counter, Text::new(alloc)))
    }
}

// Whether the items of a round may both publish and ask.
fn is_mixed(items: &[Item]) -> bool
    ensures { result ≡ is_mixed items.now }
{
    any_publishes(items) && any_asks(items)
}

fn any_publishes(items: &[Item]) -> bool
    ensures { result ≡ list_any publishes items.now }
{
    items.iter().any(publishes)
}

fn any_asks(items: &[Item]) -> bool
    ensures { result ≡ list_any may_ask items.now }
{
    items.iter().any(may_ask)
}

fn publishes(item: &Item) -> bool
    ensures { result ≡ publishes item.now }
{
    matches!(item, Item::Publish(_))
}

fn may_ask(item: &Item) -> bool
    ensures { result ≡ may_ask item.now }
{
    matches!(item, Item::Ask { .. } | Item::Memory(_))
}

impl Answering for Counter {
    ghost use Rattle.unicorn_round.specs.Bench.{CounterStands, IsCounting, SaysNothing, counter_terms};
    ghost use Rattle.unicorn_round.specs.BenchLaws.{counter_says_nothing, nothing_said};
    ghost use Rattle.unicorn_round.specs.Modes.{nothing_more};

    ghost terms = { counter_terms };

    ghost ready = { IsCounting };

    ghost stands = { CounterStands };

    ghost claims = { SaysNothing };

    ghost closing = { nothing_more };

    fn close(&self, _lines: u64) -> Result<Text, AllocError> {
        Ok(Text::new(self.alloc))
    }

    ghost claimed = { counter_says_nothing };

    ghost nothing = { nothing_said };
}
