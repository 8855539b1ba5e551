ghost use Rattle.turn_lock.specs.Seats.{SeatRests};

use crate::{Install, Session};
use twin_list::Half;

/// The seat of a catalogue that compacts. It knows all installs, by a half of their list.
#[derive(Drop)]
pub struct Compactor {
    pub(crate) seat: Session,
    pub(crate) half: Half<Install>,
    ghost rests: { SeatRests seat },
}

impl Compactor {
    ghost use Rattle.std.specs.Prelude.{◌≡◌};
    ghost use Rattle.version_catalog.specs.Seats.{compactor_turns};

    /// How many turns its seat has taken.
    pub fn turns(&self) -> u64
        ensures { result ≡ compactor_turns self.now }
    {
        self.seat.turns()
    }
}
