//! Sessions pin the newest version.
use crate::{Catalogue, Pinned, Session};
use std::alloc::AllocError;
use std::sync::{Arc, Wait};

impl Catalogue {
    ghost use Rattle.std.specs.Prelude.{◌≡◌, ◌+◌, ◌^◌, ◌<◌, IfOk};
    ghost use mathlib.Core.List.{IsPrefix};
    ghost use Rattle.turn_lock.specs.Seats.{SeatRests, seat_turns};
    ghost use Rattle.version_catalog.specs.Seats.{settings_of, session_journal, IsSessionOf, IsVersionOf};

    /// The newest version, which has all that the session had seen. It costs a turn and a shared pointer.
    pub fn pin<R: Wait>(&self, rt: &R, session: &mut Session) -> Result<Pinned, AllocError>
        requires of { IsSessionOf self.now session.old }
        requires rests { SeatRests session.old }
        requires few { seat_turns session.old < 2 ^ 56 }
        ensures of { IsSessionOf self.now session.new }
        ensures rests { SeatRests session.new }
        ensures turns { seat_turns session.new ≡ seat_turns session.old + 1 }
        ensures later { IsPrefix (session_journal session.old) (session_journal session.new) }
        ensures is { IfOk result (IsVersionOf (settings_of self.now) (session_journal session.new)) }
    {
        let turn = self.lock.enter(rt, session);
        let version = Arc::try_clone(&turn.value.version);
        self.lock.leave(session, turn);
        Ok(Pinned::of(version?))
    }
}
