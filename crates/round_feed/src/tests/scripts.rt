//! Scripts, round by round.
ghost use Rattle.uni_base.specs.StandardLimits.{IsWithinStandard};

use super::{HEADER, Opened, add};
use rack_aggregate::{Gate, OpenGate, Point};
use std::alloc::Global;
use std::process::Abort;
use std::sync::Wait;
use std::sync::atomic::{AtomicU64, Ordering};
use std::test::Fail;
use uni_base::{Limits, Text, cut_at};

// Rounds with what is answered to them, and the layers after them. Changes that are taken answer nothing.
// An edge to no entity (14) and a photo with the id of a user (16) are refused, and have no effect; queries,
// `stats` and unrecognised lines are passed over. The second round compacts what the first has published,
// and the third stacks that are one layer already. The last round removes an entity twice, and its edge.
const ROUNDS: &[u8] = b"\
    entity user 1 50|entity user 2 90|edge friend 1 2 public|edge friend 1 5 public|publish|\
    entity photo 2 5|ask 1 1 10 friend:1|stats|shrug|publish|=\
    refused 10 14|published 11 1|refused 12 16|published 16 2|layers 3 3 3 3 3|;\
    compact user 0 1|publish|compact photo 0 0|compact user 0 1|compact user 2 0|entity user 5 1|=\
    compacted 18 2|compacted 20 2|compacted 21 2|published 19 3|layers 4 2 4 4 2|;\
    edge friend 1 5 public|compact user 1 0|compact user 1 1|compact user 0 0|compact user 0 1|publish|=\
    compacted 26 3|compacted 27 3|compacted 28 3|compacted 29 3|published 30 4|layers 2 2 2 2 3|;\
    stats|ask 1 1 10 friend:1|=layers 2 2 2 2 3|;\
    gone 5|gone 5|edge friend 1 5 public|=refused 37 14|layers 2 2 2 2 3|";

// Three publishes, of which two may be made: the third is refused (51), and what is pending stays.
const AT_THE_LIMIT: &[u8] = b"\
    publish|entity user 7 8|publish|entity user 6 8|publish|edge lives rome 6 public|compact user 0 0|=\
    compacted 13 0|published 7 1|published 9 2|refused 11 51|layers 3 3 3 3 3|;\
    publish|compact user 0 0|publish|=\
    compacted 16 2|refused 15 51|refused 17 51|layers 1 3 3 3 3|";

// Adds up the numbers of the versions that it is told of, and counts the stacks.
#[derive(Drop)]
struct Counts {
    published: AtomicU64,
    installed: AtomicU64,
}

impl Gate for Counts {
    fn at<R: Wait>(&self, _rt: &R, point: Point) {
        match point {
            Point::Published(number) => {
                let _before = self.published.fetch_add(number, Ordering::SeqCst);
            }
            Point::Installed(..) => {
                let _before = self.installed.fetch_add(1, Ordering::SeqCst);
            }
            _ => {}
        }
    }
}

// The rounds of a table.
fn script(alloc: Global, table: &[u8]) -> Result<Text, Fail> {
    let mut script = Text::new(alloc);
    add(&mut script, HEADER)?;
    for row in table.split(|byte| *byte == b';') {
        let (lines, _) = cut_at(row, b'=').ok_or("no answers")?;
        add(&mut script, lines)?;
        add(&mut script, b"go|")?;
    }
    Ok(script)
}

// Plays the rounds of a table, and compares what is answered.
fn follow<R: Wait + Abort, G: Gate>(
    rt: &R,
    alloc: Global,
    gate: &G,
    opened: &mut Opened,
    table: &[u8],
) -> Result<(), Fail> {
    for row in table.split(|byte| *byte == b';') {
        let (_, answers) = cut_at(row, b'=').ok_or("no answers")?;
        let mut want = Text::new(alloc);
        add(&mut want, answers)?;
        let told = opened.play(rt, alloc, gate)?;
        assert_eq!(rt; told.as_slice(), want.as_slice());
    }
    Ok(())
}

// Plays the rounds of a table under limits, and compares how many entities and edges the feeder's table has in
// the end.
fn follow_all<R: Wait + Abort, G: Gate>(
    rt: &R,
    alloc: Global,
    gate: &G,
    limits: Limits,
    table: &[u8],
    left: (u64, u64),
) -> Result<(), Fail>
    requires { IsWithinStandard limits }
{
    let mut opened = Opened::new(rt, alloc, limits, script(alloc, table)?)?;
    follow(rt, alloc, gate, &mut opened, table)?;
    let feeds = opened.feeder.table();
    assert!(rt; (feeds.entities(), feeds.edges()) == left);
    Ok(())
}

#[test]
fn rounds_in_order(rt: HostRuntime) -> Result<(), Fail> {
    let gate = Counts {
        published: AtomicU64::new(0),
        installed: AtomicU64::new(0),
    };
    follow_all(&rt, rt.alloc(), &gate, Limits::standard(), ROUNDS, (2, 1))?;
    assert_eq!(rt; gate.published.load(Ordering::SeqCst), 10);
    assert_eq!(rt; gate.installed.load(Ordering::SeqCst), 7);
    Ok(())
}

#[test]
fn publishes_at_the_limit(rt: HostRuntime) -> Result<(), Fail> {
    let mut limits = Limits::standard();
    limits.publishes = 2;
    follow_all(&rt, rt.alloc(), &OpenGate, limits, AT_THE_LIMIT, (2, 1))
}
