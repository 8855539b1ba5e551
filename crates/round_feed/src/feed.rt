ghost use Rattle.std.specs.Prelude.{IfOk, Some, length};
ghost use Rattle.script_rounds.specs.Entries.{change, publish};
ghost use Rattle.std.specs.List.{AllByRecursion};
ghost use Rattle.round_feed.specs.Fits.{FeedFits};
ghost use Rattle.uni_table.specs.Commands.{IsDeclared};
ghost use Rattle.shard_index.specs.Batches.{TakeOver, all_shards};
ghost use Rattle.version_catalog.specs.Layered.{MakesLayers};
ghost use Rattle.version_catalog.specs.Seats.{IsFeederOf, KeepsSeat, feeder_table};
ghost use Rattle.round_feed.specs.Fed.{IsFed, feed_entry};
ghost use Rattle.round_feed.specs.FedLine.{IsFedLine, feeder_terms};
ghost use Rattle.round_feed.specs.Seats.{HasFed, MayFeed, feed_of, terms_of};

use crate::answers::add_answer;
use rack_aggregate::{Gate, Point};
use reply_text::{Answer, AnswerList};
use script_rounds::{Item, ItemList};
use shard_index::{ShardLayer, batch_layers, batch_layers_by};
use std::alloc::{AllocError, Global};
use std::sync::Wait;
use std::thread::Threads;
use uni_table::{Command, Table};
use version_catalog::{Catalogue, Feeder, PublishRefusal};

// The code of a publish where as many were made as there may be.
const TOO_MANY_PUBLISHES: u32 = 51;

/// Takes the changes and publishes of a round in order, and passes over its other lines. A change that is
/// taken answers nothing. A line that finds no memory has no effect, and answers so.
pub fn feed_round<R: Wait, G: Gate>(
    rt: &R,
    alloc: Global,
    catalogue: &Catalogue,
    feeder: &mut Feeder,
    items: &ItemList,
    gate: &G,
) -> Result<AnswerList, AllocError>
    requires may { MayFeed catalogue.now (length items.now) feeder.old }
    requires fit { AllByRecursion (FeedFits (terms_of catalogue.now)) items.now }
    ensures taken { HasFed catalogue.now (length items.now) feeder.old feeder.new }
    ensures fed { IfOk result (λ answers. IsFed (terms_of catalogue.now) (feed_of feeder.old) items.now answers (feed_of feeder.new)) }
{
    let layers_of = |table: &Table| -> Result<Vec<ShardLayer>, AllocError>
        ensures { IfOk result (λ layers. TakeOver table.now (all_shards table.now.schema) layers.items) }
    { batch_layers(alloc, table) };
    feed_items(rt, alloc, catalogue, feeder, items, &layers_of, gate)
}

/// The same, where at most as many threads as there are workers go through the edges of a publish, for its layers. No
/// worker counts as one.
pub fn feed_round_by<R: Threads + Wait + Sync, G: Gate>(
    rt: &R,
    alloc: Global,
    catalogue: &Catalogue,
    feeder: &mut Feeder,
    items: &ItemList,
    workers: u32,
    gate: &G,
) -> Result<AnswerList, AllocError>
    requires may { MayFeed catalogue.now (length items.now) feeder.old }
    requires fit { AllByRecursion (FeedFits (terms_of catalogue.now)) items.now }
    ensures taken { HasFed catalogue.now (length items.now) feeder.old feeder.new }
    ensures fed { IfOk result (λ answers. IsFed (terms_of catalogue.now) (feed_of feeder.old) items.now answers (feed_of feeder.new)) }
{
    let layers_of = |table: &Table| -> Result<Vec<ShardLayer>, AllocError>
        ensures { IfOk result (λ layers. TakeOver table.now (all_shards table.now.schema) layers.items) }
    { batch_layers_by(rt, alloc, table, workers) };
    feed_items(rt, alloc, catalogue, feeder, items, &layers_of, gate)
}

// Takes the lines of a round, and publishes by layers that a closure makes.
fn feed_items<R: Wait, F: Fn(&Table) -> Result<Vec<ShardLayer>, AllocError>, G: Gate>(
    rt: &R,
    alloc: Global,
    catalogue: &Catalogue,
    feeder: &mut Feeder,
    items: &ItemList,
    layers_of: &F,
    gate: &G,
) -> Result<AnswerList, AllocError>
    requires may { MayFeed catalogue.now (length items.now) feeder.old }
    requires fit { AllByRecursion (FeedFits (terms_of catalogue.now)) items.now }
    requires callable { F.IsAlwaysCallable layers_of.now }
    requires layers { MakesLayers F.Fn layers_of.now }
    ensures taken { HasFed catalogue.now (length items.now) feeder.old feeder.new }
    ensures fed { IfOk result (λ answers. IsFed (terms_of catalogue.now) (feed_of feeder.old) items.now answers (feed_of feeder.new)) }
{
    feeder.reserve_edges(edges_in(items));
    let mut answers = AnswerList::new(alloc);
    for item in items.as_slice() {
        let answer = feed_line(rt, catalogue, feeder, item, layers_of, gate);
        add_answer(&mut answers, answer)?;
    }
    Ok(answers)
}

// How many edges changes put.
fn edges_in(round: &ItemList) -> usize {
    let mut edges = 0_usize;
    for item in round.as_slice() {
        if let Item::Change(_, command) = item
            && command.puts_edge()
        {
            edges = edges.saturating_add(1);
        }
    }
    edges
}

// Takes a line, if it is one of the feed.
fn feed_line<R: Wait, F: Fn(&Table) -> Result<Vec<ShardLayer>, AllocError>, G: Gate>(
    rt: &R,
    catalogue: &Catalogue,
    feeder: &mut Feeder,
    item: &Item,
    layers_of: &F,
    gate: &G,
) -> Option<Answer>
    requires may { MayFeed catalogue.now 1 feeder.old }
    requires fits { FeedFits (terms_of catalogue.now) item.now }
    requires callable { F.IsAlwaysCallable layers_of.now }
    requires layers { MakesLayers F.Fn layers_of.now }
    ensures taken { HasFed catalogue.now 1 feeder.old feeder.new }
    ensures fed { IsFedLine (terms_of catalogue.now) (feed_of feeder.old) (feed_entry item.now) result (feed_of feeder.new) }
{
    match item {
        Item::Change(line, command) => feed_change(feeder, *line, &command.command()),
        Item::Publish(line) => Some(feed_publish(rt, catalogue, feeder, *line, layers_of, gate)),
        _ => None,
    }
}

// A change that is refused has no effect, nor has one that finds no memory.
fn feed_change(feeder: &mut Feeder, line: u64, command: &Command) -> Option<Answer>
    requires { IsDeclared (feeder_table feeder.old).schema command.now }
    ensures fed { IsFedLine (feeder_terms feeder.old) (feed_of feeder.old) (Some (change line command.now)) result (feed_of feeder.new) }
    ensures seat { KeepsSeat feeder.old feeder.new }
    ensures of { (catalogue : Catalogue) → IsFeederOf catalogue feeder.old → IsFeederOf catalogue feeder.new }
{
    match feeder.put(command) {
        Ok(()) => None,
        Err(refusal) => Some(match refusal.code() {
            Some(code) => Answer::Refused(line, code),
            None => Answer::Memory(line),
        }),
    }
}

// A publish at the limit has no effect.
fn feed_publish<R: Wait, F: Fn(&Table) -> Result<Vec<ShardLayer>, AllocError>, G: Gate>(
    rt: &R,
    catalogue: &Catalogue,
    feeder: &mut Feeder,
    line: u64,
    layers_of: &F,
    gate: &G,
) -> Answer
    requires may { MayFeed catalogue.now 1 feeder.old }
    requires callable { F.IsAlwaysCallable layers_of.now }
    requires layers { MakesLayers F.Fn layers_of.now }
    ensures taken { HasFed catalogue.now 1 feeder.old feeder.new }
    ensures fed { IsFedLine (terms_of catalogue.now) (feed_of feeder.old) (Some (publish line)) (Some result) (feed_of feeder.new) }
{
    match catalogue.publish_with(rt, feeder, layers_of) {
        Ok(number) => {
            gate.at(rt, Point::Published(number));
            Answer::Published(line, number)
        }
        Err(PublishRefusal::TooMany(_)) => Answer::Refused(line, TOO_MANY_PUBLISHES),
        Err(PublishRefusal::Memory) => Answer::Memory(line),
    }
}
