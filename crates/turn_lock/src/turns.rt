//! Taking turns.
ghost use Rattle.std.specs.Prelude.{◌≡◌, ◌+◌, ◌^◌, ◌<◌, Bool, false, List, [], None};
ghost use mathlib.Core.List.{IsPrefix};
ghost use Rattle.turn_lock.specs.Places.{IsOf, seen, Rests, HoldsTurn, MayTurn};
ghost use Rattle.turn_lock.specs.Seats.{IsSeatOf, seat_seen, seat_turns, SeatRests, IsTurnOfSeat};
ghost use Rattle.turn_lock.specs.Steps.{Served, ended};
ghost use Rattle.turn_lock.specs.declared.law.Role.TheVariants.{Writes};
ghost use Rattle.turn_lock.specs.declared.law.Stage.TheVariants.{Waits};

use crate::law::Place;
use crate::lock::TurnLock;
use crate::plays::{Draw, End, Find, Look};
use crate::recorded::Recorded;
use crate::seats::{Seat, Turn};
use std::snapshot::Snapshot;
use std::sync::Wait;

/// The word that has the next ticket.
pub(crate) const TICKET: usize = 0;

/// The word that has the ticket that is served.
pub(crate) const SERVING: usize = 1;

/// The word that has the number of entries.
pub(crate) const COUNT: usize = 2;

impl<S: Recorded> TurnLock<S> {
    // Waits until the ticket is served.
    fn wait<R: Wait>(&self, rt: &R, place: &mut Place<S>, ticket: u64)
        requires of { IsOf self.now place.old }
        requires waits { place.old.me.0.stage ≡ Waits ticket }
        ensures of { (place.new.table_id ≡ place.old.table_id) × (place.new.id ≡ place.old.id) }
        ensures served { Served S.stands_for place.old.me ticket place.new.me }
    {
        let shared = &self.table.shared;
        for _ in rt.forever() {
            let serving = shared.load::<Find>(place, SERVING);
            if serving == ticket {
                return;
            }
            shared.park(rt, SERVING, (serving % (1 << 32)) as u32);
        }
        unreachable!()
    }

    // Draws a ticket, waits until it is served, and takes the value.
    pub(crate) fn take<R: Wait>(&self, rt: &R, place: &mut Place<S>) -> S
        requires of { IsOf self.now place.old }
        requires ready { Rests place.old × MayTurn place.old }
        ensures of { (place.new.table_id ≡ place.old.table_id) × (place.new.id ≡ place.old.id) }
        ensures turn { HoldsTurn place.new (seen place.new) false }
        ensures counts { (place.new.me.0.role ≡ place.old.me.0.role) × (place.new.me.0.made ≡ place.old.me.0.made) × (place.new.me.0.turns ≡ place.old.me.0.turns + 1) }
        ensures value { S.stands_for result (seen place.new) }
        ensures later { IsPrefix (seen place.old) (seen place.new) }
        ensures writer { place.old.me.0.role ≡ Writes → seen place.new ≡ seen place.old }
    {
        let ticket = self.table.shared.fetch_add::<Draw>(place, TICKET, 1);
        self.wait(rt, place, ticket);
        self.table.shared.load::<Look>(place, COUNT);
        self.table.shared.exchange(place, 0, None).unwrap()
    }

    // Gives the value back, and ends the turn.
    pub(crate) fn give_back(&self, place: &mut Place<S>, value: S)
        requires of { IsOf self.now place.old }
        requires turn { (list : List S.Entry) × (added : Bool) × HoldsTurn place.old list added × S.stands_for value list }
        ensures of { (place.new.table_id ≡ place.old.table_id) × (place.new.id ≡ place.old.id) }
        ensures ended { place.new.me ≡ (ended place.old.me.0, []) }
    {
        let shared = &self.table.shared;
        shared.exchange(place, 0, Some(value));
        shared.fetch_add::<End>(place, SERVING, 1);
        shared.wake_all(SERVING);
    }

    /// Waits for a turn of this seat, and takes the value out. The value stands for the list that the seat has then seen.
    pub fn enter<R: Wait>(&self, rt: &R, seat: &mut Seat<S>) -> Turn<S>
        requires of { IsSeatOf self.now seat.old }
        requires few { seat_turns seat.old < 2 ^ 56 }
        requires rests { SeatRests seat.old }
        ensures of { IsSeatOf self.now seat.new }
        ensures turns { seat_turns seat.new ≡ seat_turns seat.old + 1 }
        ensures turn { IsTurnOfSeat result seat.new }
        ensures value { S.stands_for result.value (seat_seen seat.new) }
        ensures later { IsPrefix (seat_seen seat.old) (seat_seen seat.new) }
    {
        let value = self.take(rt, &mut seat.place);
        seat.turns += 1;
        Turn {
            value,
            of: Snapshot::of(&seat.place),
        }
    }

    /// Gives the value back, which still stands for the list that it was entered with.
    pub fn leave(&self, seat: &mut Seat<S>, turn: Turn<S>)
        requires of { IsSeatOf self.now seat.old }
        requires turn { IsTurnOfSeat turn seat.old }
        requires value { S.stands_for turn.value (seat_seen seat.old) }
        ensures of { IsSeatOf self.now seat.new }
        ensures rests { SeatRests seat.new }
        ensures kept { (seat_turns seat.new ≡ seat_turns seat.old) × (seat_seen seat.new ≡ seat_seen seat.old) }
    {
        let Turn { value, of: _ } = turn;
        self.give_back(&mut seat.place, value);
    }
}
