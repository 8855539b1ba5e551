//! The tokens with which threads use a lock. A clause reads what they know by the words of `specs/Seats.antt`.
ghost use Rattle.std.specs.Prelude.{◌≡◌, ◌≤◌, []};
ghost use Rattle.turn_lock.specs.Steps.{reached};
ghost use Rattle.turn_lock.specs.declared.law.Role.TheVariants.{Carries, Sits, Writes};
ghost use Rattle.turn_lock.specs.declared.law.Stage.TheVariants.{Away};

use crate::law::Place;
use crate::recorded::Recorded;
use std::snapshot::Snapshot;

/// A seat that takes turns. It has seen a list of entries, which only grows.
#[derive(Drop)]
pub struct Seat<S: Recorded> {
    pub(crate) place: Place<S>,
    pub(crate) turns: u64,
    ghost role: { place.me.0.role ≡ Sits },
    ghost counted: { place.me.0.turns ≡ turns },
    ghost looked: { reached place.me.0.stage place.me.0.seen ≡ place.me.0.seen },
}

/// The one seat that may add entries, and that makes the other seats. The list that it has seen is the whole history.
#[derive(Drop)]
pub struct WriterSeat<S: Recorded> {
    pub(crate) place: Place<S>,
    pub(crate) made: u32,
    pub(crate) turns: u64,
    ghost role: { place.me.0.role ≡ Writes },
    ghost counted: { (place.me.0.turns ≡ turns) × (place.me.0.made ≡ made) × (made ≤ 127) },
    ghost looked: { reached place.me.0.stage place.me.0.seen ≡ place.me.0.seen },
}

/// What a seat has seen. It takes no turns.
#[derive(Drop)]
pub struct Note<S: Recorded> {
    pub(crate) place: Place<S>,
    ghost role: { place.me.0.role ≡ Carries },
    ghost rests: { (place.me.0.stage ≡ Away) × (place.me.1 ≡ []) },
}

/// The value, for one turn. It is not `Drop`: give it back by one of the calls that leave.
pub struct Turn<S: Recorded> {
    pub value: S,
    pub(crate) of: Snapshot<Place<S>>,
}

impl<S: Recorded> Seat<S> {
    ghost use Rattle.turn_lock.specs.Seats.{seat_turns};

    /// The turns that this seat has taken.
    pub fn turns(&self) -> u64
        ensures { result ≡ seat_turns self.now }
    {
        self.turns
    }
}

impl<S: Recorded> WriterSeat<S> {
    ghost use Rattle.turn_lock.specs.Seats.{writer_made, writer_turns};

    /// The seats that this one has made.
    pub fn made(&self) -> u32
        ensures { result ≡ writer_made self.now }
    {
        self.made
    }

    /// The turns that this seat has taken.
    pub fn turns(&self) -> u64
        ensures { result ≡ writer_turns self.now }
    {
        self.turns
    }
}
