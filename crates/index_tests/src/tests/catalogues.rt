//! A small catalogue, with a seat of each kind.
ghost use Rattle.std.specs.Prelude.{All, IfSome, IsTrue};
ghost use Rattle.turn_lock.specs.Seats.{SeatRests};
ghost use Rattle.version_catalog.specs.Bases.{IsStackId};
ghost use Rattle.version_catalog.specs.Seats.{IsFeederOf, IsCompactorOf, IsSessionOf};

use super::{HEADER, schema};
use feed_reader::{FeedLine, read_feed_line};
use std::alloc::Global;
use std::sync::{Arc, Wait};
use std::thread::Threads;
use uni_base::Limits;
use uni_schema::Schema;
use version_catalog::{Catalogue, Compactor, Feeder, Pinned, PublishRefusal, Session, StackId};

mod noisy;
mod rebuilt;
mod scripts;
mod threads;

// More turns than a test takes.
const MANY: u64 = 1_000_000;

// Whether a line is a change that the feeder of a catalogue takes.
fn is_put(_catalogue: &Catalogue, feeder: &mut Feeder, line: &[u8]) -> bool
    requires { IsFeederOf _catalogue.now feeder.old }
    ensures { IsFeederOf _catalogue.now feeder.new }
{
    let Ok(FeedLine::Change(command)) = read_feed_line(feeder.table().schema(), line) else {
        return false;
    };
    feeder.put(&command).is_ok()
}

// Whether a schema has a stack.
fn is_stack(schema: &Schema, stack: &StackId) -> bool
    ensures { IsTrue result → IsStackId schema.now stack.now }
{
    if stack.vertical >= schema.verticals() {
        return false;
    }
    let declared = schema.vertical(stack.vertical);
    stack.shard < declared.shards && stack.replica < declared.replicas
}

// All stacks of the catalogue.
fn all_stacks(alloc: Global, schema: &Schema) -> Option<Vec<StackId>>
    ensures { IfSome result (λ stacks. All (IsStackId schema.now) stacks.items) }
{
    let mut stacks = Vec::new(alloc);
    for number in 0..5_u32 {
        let stack = StackId {
            vertical: (number / 4) as u16,
            shard: number / 2 % 2,
            replica: number % 2,
        };
        if !is_stack(schema, &stack) {
            return None;
        }
        stacks.push(stack).ok()?;
    }
    Some(stacks)
}

// A catalogue with a seat of each kind.
#[derive(Drop)]
struct Opened {
    catalogue: Catalogue,
    feeder: Feeder,
    compactor: Compactor,
    session: Session,
    ghost feeds: { IsFeederOf catalogue feeder },
    ghost compacts: { IsCompactorOf catalogue compactor },
    ghost asks: { IsSessionOf catalogue session },
    ghost rests: { SeatRests session },
}

impl Opened {
    fn new<R: Wait>(rt: &R, alloc: Global, limits: Limits) -> Option<Opened> {
        let schema = Arc::new(alloc, schema(alloc, HEADER)?).ok()?;
        let (catalogue, mut feeder, compactor) = Catalogue::new(rt, alloc, schema, limits).ok()?;
        let session = catalogue.session(&mut feeder);
        Some(Opened {
            catalogue,
            feeder,
            compactor,
            session,
        })
    }

    // Whether a line is a change that the feeder takes.
    fn is_put(&mut self, line: &[u8]) -> bool {
        is_put(&self.catalogue, &mut self.feeder, line)
    }

    fn publish<R: Wait>(&mut self, rt: &R) -> Option<Result<u64, PublishRefusal>> {
        if self.feeder.turns() >= MANY {
            return None;
        }
        Some(self.catalogue.publish(rt, &mut self.feeder))
    }

    fn pin<R: Wait>(&mut self, rt: &R) -> Option<Pinned> {
        if self.session.turns() >= MANY {
            return None;
        }
        self.catalogue.pin(rt, &mut self.session).ok()
    }

    // What a compaction answers, if there is such a stack.
    fn compact<R: Wait>(&mut self, rt: &R, vertical: u16, shard: u32, replica: u32) -> Option<u64> {
        let schema = self.feeder.table().schema();
        if self.compactor.turns() >= MANY || vertical >= schema.verticals() {
            return None;
        }
        let declared = schema.vertical(vertical);
        if shard >= declared.shards || replica >= declared.replicas {
            return None;
        }
        self.catalogue
            .compact(rt, &mut self.compactor, vertical, shard, replica)
            .ok()
    }

    // The version after a compaction of all stacks by so many workers.
    fn compact_all<R: Threads + Wait + Sync>(
        &mut self,
        rt: &R,
        alloc: Global,
        workers: u32,
    ) -> Option<Pinned> {
        let stacks = all_stacks(alloc, self.feeder.table().schema())?;
        if self.compactor.turns() >= MANY || workers == 0 || stacks.len() > 5 {
            return None;
        }
        self.catalogue
            .compact_stacks(rt, &mut self.compactor, &stacks, workers)
            .ok()
    }
}
