//! The lock and its seats are made.
ghost use Rattle.std.specs.Prelude.{◌≡◌, ◌+◌, ◌<◌, [], IfOk};
ghost use Rattle.turn_lock.specs.Seats.{IsSeatOf, IsWriterOf, seat_seen, writer_seen, SeatRests, WriterRests, seat_turns, writer_turns, writer_made, IsSameWriter};

use crate::lock::TurnLock;
use crate::plays::NewSeat;
use crate::recorded::Recorded;
use crate::seats::{Seat, WriterSeat};
use atomic_table::Table;
use std::alloc::{AllocError, Global};

impl<S: Recorded> TurnLock<S> {
    /// The lock, and its writer's seat, from which all other seats come.
    pub fn new(alloc: Global, value: S) -> Result<(TurnLock<S>, WriterSeat<S>), AllocError>
        requires { S.stands_for value [] }
        ensures of { IfOk result (λ t. IsWriterOf t.0 t.1) }
        ensures seen { IfOk result (λ t. writer_seen t.1 ≡ []) }
        ensures rests { IfOk result (λ t. WriterRests t.1) }
        ensures counts { IfOk result (λ t. (writer_made t.1 ≡ 0) × (writer_turns t.1 ≡ 0)) }
    {
        let mut slots = Vec::with_capacity(alloc, 1)?;
        let Ok(()) = slots.push(Some(value)) else {
            return Err(AllocError);
        };
        let Ok((table, place)) = Table::new(alloc, &[0, 0, 0], slots, &()) else {
            return Err(AllocError);
        };
        Ok((
            TurnLock { table },
            WriterSeat {
                place,
                made: 0,
                turns: 0,
            },
        ))
    }

    /// A new seat, which has seen what the writer has.
    pub fn seat(&self, from: &mut WriterSeat<S>) -> Seat<S>
        requires of { IsWriterOf self.now from.old }
        requires few { writer_made from.old < 127 }
        ensures of { IsSeatOf self.now result }
        ensures seen { seat_seen result ≡ writer_seen from.old }
        ensures rests { SeatRests result }
        ensures turns { seat_turns result ≡ 0 }
        ensures made { writer_made from.new ≡ writer_made from.old + 1 }
        ensures kept { IsSameWriter from.old from.new × (writer_seen from.new ≡ writer_seen from.old) × (writer_turns from.new ≡ writer_turns from.old) }
    {
        let place = self.table.shared.split_seat::<NewSeat>(&mut from.place);
        from.made += 1;
        Seat { place, turns: 0 }
    }
}
