//! A counter whose history is its increments, and seats that watch it.
ghost use Rattle.std.specs.Prelude.{◌≡◌, ◌+◌, ◌^◌, ◌<◌, ◌≤◌, [], length, sum, IsTrue};
ghost use Rattle.turn_lock.specs.Seats.{IsSeatOf, IsWriterOf, IsTurnOfWriter, SeatRests, WriterRests, seat_seen, writer_seen, seat_turns, writer_turns, writer_made};

use crate::turns::{SERVING, TICKET};
use crate::{Recorded, Seat, Turn, TurnLock, WriterSeat};
use std::sync::Wait;
use std::test::Fail;
use std::thread::{Threads, join, sleep};
use std::time::{Clock, Duration};

/// A number whose history is what was added to it.
#[derive(Drop)]
struct Counter {
    count: u64,
    steps: u64,
}

impl Recorded for Counter {
    ghost use Rattle.std.specs.Prelude.{◌≡◌, length, sum};

    type Entry = u64;

    ghost stands_for = { λ c entries. (c.count ≡ sum entries) × (c.steps ≡ length entries) };
}

type Counting = TurnLock<Counter>;

// So many turns in a row does each of three seats take that wait for each other.
const TURNS: u64 = 2000;

// Takes turns, and says whether the number of entries never fell.
fn watch<R: Wait>(rt: &R, lock: &Counting, mut seat: Seat<Counter>) -> (bool, Seat<Counter>)
    requires of { IsSeatOf lock.now seat × SeatRests seat }
    requires few { seat_turns seat ≡ 0 }
    ensures of { IsSeatOf lock.now result.1 × SeatRests result.1 }
    ensures rises { IsTrue result.0 }
    ensures turns { seat_turns result.1 ≡ 100 }
{
    let mut last = 0;
    let mut rises = true;
    for taken in 0..100u64 {
        let steps = steps_seen(rt, lock, &mut seat);
        rises &= last <= steps && seat.turns() == taken + 1;
        last = steps;
    }
    (rises, seat)
}

// Adds 1, 2 and 3 in turn, a hundred entries in all.
fn count_up<R: Wait>(
    rt: &R,
    lock: &Counting,
    mut writer: WriterSeat<Counter>,
) -> WriterSeat<Counter>
    requires of { IsWriterOf lock.now writer × WriterRests writer }
    requires new { (writer_seen writer ≡ []) × (writer_turns writer ≡ 0) }
    ensures of { IsWriterOf lock.now result × WriterRests result }
    ensures made { writer_made result ≡ writer_made writer }
    ensures all { (length (writer_seen result) ≡ 100) × (writer_turns result ≡ 100) }
{
    for done in 0..100u64 {
        let mut turn = lock.enter_writer(rt, &mut writer);
        let more = done % 3 + 1;
        turn.value.count += more;
        turn.value.steps += 1;
        lock.leave_with_entry(&mut writer, turn, &more);
    }
    writer
}

// The number of entries that a seat sees in a turn: no fewer than it had seen.
fn steps_seen<R: Wait>(rt: &R, lock: &Counting, seat: &mut Seat<Counter>) -> u64
    requires of { IsSeatOf lock.now seat.old × SeatRests seat.old }
    requires few { seat_turns seat.old < 2 ^ 56 }
    ensures of { IsSeatOf lock.now seat.new × SeatRests seat.new }
    ensures turns { seat_turns seat.new ≡ seat_turns seat.old + 1 }
    ensures seen { (result ≡ length (seat_seen seat.new)) × (length (seat_seen seat.old) ≤ result) }
{
    let turn = lock.enter(rt, seat);
    let steps = turn.value.steps;
    lock.leave(seat, turn);
    steps
}

#[test]
fn one_counts_while_another_watches(rt: HostRuntime) -> Result<(), Fail> {
    let (lock, mut writer) = TurnLock::new(rt.alloc(), Counter { count: 0, steps: 0 })?;
    let seat = lock.seat(&mut writer);
    let shared = &lock;
    let (mut writer, (rises, mut seat)) = join(
        &rt,
        || count_up(&rt, shared, writer),
        || watch(&rt, shared, seat),
    );
    assert!(rt; rises && writer.made() == 1 && writer.turns() == 100);
    let note = lock.note(&mut seat);
    lock.meet_writer(&mut writer, note);
    let turn = lock.enter_writer(&rt, &mut writer);
    assert!(rt; turn.value.steps == 100 && turn.value.count == 199);
    lock.leave_writer(&mut writer, turn);
    Ok(())
}

// A seat that has met the writer's note sees no less than the writer had.
#[test]
fn a_seat_learns_by_a_note(rt: HostRuntime) -> Result<(), Fail> {
    let (lock, mut writer) = TurnLock::new(rt.alloc(), Counter { count: 0, steps: 0 })?;
    let mut first = lock.seat(&mut writer);
    let mut second = lock.seat(&mut writer);
    let mut writer = count_up(&rt, &lock, writer);
    let note = lock.note_writer(&mut writer);
    lock.meet(&mut first, note);
    let note = lock.note(&mut first);
    lock.meet(&mut second, note);
    assert!(rt; steps_seen(&rt, &lock, &mut second) == 100);
    assert!(rt; first.turns() == 0 && second.turns() == 1);
    Ok(())
}

// A turn of the writer, with one counted.
fn begin_to_count<R: Wait>(
    rt: &R,
    lock: &Counting,
    writer: &mut WriterSeat<Counter>,
) -> Turn<Counter>
    requires of { IsWriterOf lock.now writer.old × WriterRests writer.old }
    requires few { (length (writer_seen writer.old) < 9) × (sum (writer_seen writer.old) < 9) × (writer_turns writer.old < 9) }
    ensures of { IsWriterOf lock.now writer.new × IsTurnOfWriter result writer.new }
    ensures counts { (writer_turns writer.new ≡ writer_turns writer.old + 1) × (writer_made writer.new ≡ writer_made writer.old) }
    ensures seen { writer_seen writer.new ≡ writer_seen writer.old }
    ensures count { result.value.count ≡ sum (writer_seen writer.new) + 1 }
    ensures steps { result.value.steps ≡ length (writer_seen writer.new) + 1 }
{
    let mut turn = lock.enter_writer(rt, writer);
    turn.value.count += 1;
    turn.value.steps += 1;
    turn
}

// Returns when this many tickets more are drawn than turns have ended.
fn until_tickets<R: Wait>(rt: &R, lock: &Counting, out: u64) {
    let shared = &lock.table.shared;
    for _ in rt.forever() {
        if shared.peek(TICKET).saturating_sub(shared.peek(SERVING)) >= out {
            return;
        }
    }
    unreachable!()
}

// Adds an entry in a turn that ends when three seats wait for it, in all likelihood asleep. The one
// that slept first is woken once before its turn, so it sleeps behind the others again.
fn count_while_three_wait<R: Wait + Clock>(rt: &R, lock: &Counting, mut writer: WriterSeat<Counter>)
    requires of { IsWriterOf lock.now writer × WriterRests writer }
    requires few { (length (writer_seen writer) < 9) × (sum (writer_seen writer) < 9) × (writer_turns writer < 9) }
{
    let turn = begin_to_count(rt, lock, &mut writer);
    until_tickets(rt, lock, 4);
    sleep(rt, Duration::from_millis(50));
    lock.table.shared.wake_one(SERVING);
    sleep(rt, Duration::from_millis(50));
    lock.leave_with_entry(&mut writer, turn, &1);
}

// Takes turns once the writer has entered, and says how many entries the seat sees at last.
fn steps_after_the_writer<R: Wait>(rt: &R, lock: &Counting, mut seat: Seat<Counter>) -> u64
    requires { IsSeatOf lock.now seat × SeatRests seat × (seat_turns seat ≡ 0) }
{
    until_tickets(rt, lock, 1);
    let mut steps = 0;
    while seat.turns() < TURNS {
        steps = steps_seen(rt, lock, &mut seat);
    }
    steps
}

// Two seats take a turn at once, each after the writer has entered.
fn two_after_the_writer<R: Threads + Wait + Sync>(
    rt: &R,
    lock: &Counting,
    first: Seat<Counter>,
    second: Seat<Counter>,
) -> (u64, u64)
    requires first { IsSeatOf lock.now first × SeatRests first × (seat_turns first ≡ 0) }
    requires second { IsSeatOf lock.now second × SeatRests second × (seat_turns second ≡ 0) }
{
    join(
        rt,
        || -> u64
            requires { IsSeatOf lock.now first × SeatRests first × (seat_turns first ≡ 0) }
        { steps_after_the_writer(rt, lock, first) },
        || -> u64
            requires { IsSeatOf lock.now second × SeatRests second × (seat_turns second ≡ 0) }
        { steps_after_the_writer(rt, lock, second) },
    )
}

// Three seats take a turn at once, each after the writer has entered.
fn three_after_the_writer<R: Threads + Wait + Sync>(
    rt: &R,
    lock: &Counting,
    first: Seat<Counter>,
    second: Seat<Counter>,
    third: Seat<Counter>,
) -> (u64, (u64, u64))
    requires first { IsSeatOf lock.now first × SeatRests first × (seat_turns first ≡ 0) }
    requires second { IsSeatOf lock.now second × SeatRests second × (seat_turns second ≡ 0) }
    requires third { IsSeatOf lock.now third × SeatRests third × (seat_turns third ≡ 0) }
{
    join(
        rt,
        || -> u64
            requires { IsSeatOf lock.now first × SeatRests first × (seat_turns first ≡ 0) }
        { steps_after_the_writer(rt, lock, first) },
        || -> (u64, u64)
            requires { IsSeatOf lock.now second × SeatRests second × (seat_turns second ≡ 0) × IsSeatOf lock.now third × SeatRests third × (seat_turns third ≡ 0) }
        { two_after_the_writer(rt, lock, second, third) },
    )
}

// Three seats wait for the writer and for each other. This ends only where each that leaves wakes
// the one that is next, wherever among the sleepers that one is.
#[test]
fn all_that_wait_are_woken(rt: HostRuntime) -> Result<(), Fail> {
    let (lock, mut writer) = TurnLock::new(rt.alloc(), Counter { count: 0, steps: 0 })?;
    let first = lock.seat(&mut writer);
    let second = lock.seat(&mut writer);
    let third = lock.seat(&mut writer);
    // as many entries as turns, so that a seat which watched the number of entries would sleep on
    let turn = begin_to_count(&rt, &lock, &mut writer);
    lock.leave_with_entry(&mut writer, turn, &1);
    let shared = &lock;
    let ((), seen) = join(
        &rt,
        || count_while_three_wait(&rt, shared, writer),
        || three_after_the_writer(&rt, shared, first, second, third),
    );
    assert!(rt; seen == (2, (2, 2)));
    Ok(())
}
