//! What runs at once: a gate holds a run at two points until another point was reached, which a
//! run of one thread cannot do.
ghost use Rattle.std.specs.Prelude.{◌<◌};

use super::{FIRST, GRAPH, PUBLISHED, QUESTION, REPLY, ROOM, piece, text};
use std::alloc::Global;
use std::sync::Wait;
use std::sync::atomic::{AtomicBool, Ordering};
use std::test::Fail;
use std::thread;
use std::thread::Threads;
use uni_base::{Limits, MemorySink};
use unicorn_round::{Chooser, FirstChooser, Gate, Point, Status, serve_rounds};

// How often a hold looks at most.
const LOOKS: u32 = 10_000_000;

// A point, and whether a run reached it.
#[derive(Drop)]
struct Watch {
    point: Point,
    reached: AtomicBool,
}

impl Watch {
    fn on(point: Point) -> Watch {
        Watch {
            point,
            reached: AtomicBool::new(false),
        }
    }

    fn tell(&self, point: Point) {
        if self.point == point {
            self.reached.store(true, Ordering::SeqCst);
        }
    }

    fn is_reached(&self) -> bool {
        self.reached.load(Ordering::SeqCst)
    }

    // Looks until the point is reached, but not forever. Whether it was.
    fn is_met(&self) -> bool {
        for _ in 0..LOOKS {
            if self.is_reached() {
                return true;
            }
            thread::yield_now();
        }
        false
    }
}

// Holds a run at the first point until the second is reached, and there until the last is.
#[derive(Drop)]
struct Holds {
    first: Watch,
    second: Watch,
    last: Watch,
    first_met: AtomicBool,
    second_met: AtomicBool,
}

impl Holds {
    fn of(first: Point, second: Point, last: Point) -> Holds {
        Holds {
            first: Watch::on(first),
            second: Watch::on(second),
            last: Watch::on(last),
            first_met: AtomicBool::new(false),
            second_met: AtomicBool::new(false),
        }
    }

    // Whether both points were reached, and both holds ended in time.
    fn are_met(&self) -> bool {
        self.first.is_reached()
            && self.second.is_reached()
            && self.first_met.load(Ordering::SeqCst)
            && self.second_met.load(Ordering::SeqCst)
    }
}

impl Gate for Holds {
    fn at<R: Wait>(&self, _rt: &R, point: Point) {
        self.first.tell(point);
        self.second.tell(point);
        self.last.tell(point);
        if point == self.first.point && self.second.is_met() {
            self.first_met.store(true, Ordering::SeqCst);
        }
        if point == self.second.point && self.last.is_met() {
            self.second_met.store(true, Ordering::SeqCst);
        }
    }
}

// Chooses the first replica, and keeps whether line 33 asked for the two shards of users.
#[derive(Drop)]
struct Asked {
    shards: [AtomicBool; 2],
}

impl Asked {
    fn new() -> Asked {
        Asked {
            shards: [AtomicBool::new(false), AtomicBool::new(false)],
        }
    }

    fn both(&self) -> bool {
        self.shards[0].load(Ordering::SeqCst) && self.shards[1].load(Ordering::SeqCst)
    }
}

impl Chooser for Asked {
    fn pick(&self, vertical: u16, shard: u32, turn: u64, replicas: u32) -> u32
        requires { 0 < replicas }
        ensures { result < replicas }
    {
        if vertical == 0 && turn == 33 && shard < 2 {
            self.shards[shard as usize].store(true, Ordering::SeqCst);
        }
        0
    }
}

// What a service of two workers answers to the graph and some lines.
fn served_by_two<R: Threads + Wait + Sync, C: Chooser + Sync>(
    rt: &R,
    alloc: Global,
    lines: &[u8],
    chooser: &C,
    gate: &Holds,
) -> Result<MemorySink, Fail> {
    let script = text(alloc, &[FIRST, GRAPH, lines])?;
    let limits = Limits::standard();
    let mut source = piece(alloc, script.as_slice())?;
    let mut sink = MemorySink::new(alloc, ROOM, ROOM, Vec::new(alloc))?;
    let ended = serve_rounds(rt, alloc, limits, 2, &mut source, &mut sink, chooser, gate);
    if ended == Status::Done {
        Ok(sink)
    } else {
        Err("a script was not served to its end")?
    }
}

const HITS: &[u8] = b"hit 2 via friend:1>2|hit 3 via friend:1>3|hit 5 via friend:1>5|";

// A question is pinned while the feeder is between two publishes, which needs no lock then.
#[test]
fn publishes_beside_a_question(rt: HostRuntime) -> Result<(), Fail> {
    let alloc = rt.alloc();
    let gate = Holds::of(Point::Published(2), Point::Pinned(33), Point::Published(3));
    let lines = b"ask 9 1 10 friend:1|publish|publish|go|";
    let sink = served_by_two(&rt, alloc, lines, &FirstChooser, &gate)?;
    assert!(rt; gate.are_met());
    let ends = b"published 34 2|published 35 3|";
    let at_one = text(alloc, &[PUBLISHED, b"reply 33 at 1 hits 3|", HITS, ends])?;
    let at_two = text(alloc, &[PUBLISHED, b"reply 33 at 2 hits 3|", HITS, ends])?;
    assert!(rt; sink.bytes() == at_one.as_slice() || sink.bytes() == at_two.as_slice());
    Ok(())
}

// Both shards of a question are worked on at once.
#[test]
fn shards_beside_each_other(rt: HostRuntime) -> Result<(), Fail> {
    let alloc = rt.alloc();
    let first = Point::ShardStarted(33, 0, 0);
    let gate = Holds::of(first, Point::ShardStarted(33, 0, 1), first);
    let chooser = Asked::new();
    let sink = served_by_two(&rt, alloc, QUESTION, &chooser, &gate)?;
    assert!(rt; gate.are_met());
    assert!(rt; chooser.both());
    let want = text(alloc, &[PUBLISHED, REPLY])?;
    assert_eq!(rt; sink.bytes(), want.as_slice());
    Ok(())
}

// The questions of two sessions are worked on at once.
#[test]
fn sessions_beside_each_other(rt: HostRuntime) -> Result<(), Fail> {
    let alloc = rt.alloc();
    let first = Point::Pinned(33);
    let gate = Holds::of(first, Point::Pinned(34), first);
    let lines = b"ask 9 1 10 friend:1|ask 9 2 10 friend:1|";
    let sink = served_by_two(&rt, alloc, lines, &FirstChooser, &gate)?;
    assert!(rt; gate.are_met());
    let want = text(alloc, &[PUBLISHED, REPLY, b"reply 34 at 1 hits 3|", HITS])?;
    assert_eq!(rt; sink.bytes(), want.as_slice());
    Ok(())
}
