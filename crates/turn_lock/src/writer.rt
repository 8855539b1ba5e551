//! The writer's turns, in which the history grows.
ghost use Rattle.std.specs.Prelude.{◌≡◌, ◌+◌, ◌^◌, ◌<◌, [], ◌∷◌, ◌++◌, true, false, Some};
ghost use Rattle.turn_lock.specs.Places.{IsOf, seen, HoldsTurn};
ghost use Rattle.turn_lock.specs.Seats.{IsWriterOf, writer_seen, writer_turns, writer_made, WriterRests, IsTurnOfWriter};
ghost use Rattle.turn_lock.specs.declared.law.Role.TheVariants.{Writes};

use crate::law::Place;
use crate::lock::TurnLock;
use crate::plays::{Add, Says};
use crate::recorded::Recorded;
use crate::seats::{Turn, WriterSeat};
use crate::turns::COUNT;
use std::marker::Brand;
use std::snapshot::Snapshot;
use std::sync::Wait;

impl<S: Recorded> TurnLock<S> {
    // Counts the entry, which is the one that `N` says.
    fn count<N: Says<S::Entry>>(&self, place: &mut Place<S>, entry: &S::Entry)
        requires of { IsOf self.now place.old }
        requires writer { place.old.me.0.role ≡ Writes }
        requires turn { HoldsTurn place.old (seen place.old) false }
        requires said { N.said ≡ Some entry.now }
        ensures of { (place.new.table_id ≡ place.old.table_id) × (place.new.id ≡ place.old.id) }
        ensures turn { HoldsTurn place.new (seen place.new) true }
        ensures counts { (place.new.me.0.role ≡ place.old.me.0.role) × (place.new.me.0.made ≡ place.old.me.0.made) × (place.new.me.0.turns ≡ place.old.me.0.turns) }
        ensures seen { seen place.new ≡ seen place.old ++ entry.now ∷ [] }
    {
        self.table.shared.fetch_add::<Add<N>>(place, COUNT, 1);
    }

    /// Waits for a turn of the writer, and takes the value out. The value stands for the list that the writer has seen, the whole history.
    pub fn enter_writer<R: Wait>(&self, rt: &R, writer: &mut WriterSeat<S>) -> Turn<S>
        requires of { IsWriterOf self.now writer.old }
        requires few { writer_turns writer.old < 2 ^ 56 }
        requires rests { WriterRests writer.old }
        ensures of { IsWriterOf self.now writer.new }
        ensures counts { (writer_turns writer.new ≡ writer_turns writer.old + 1) × (writer_made writer.new ≡ writer_made writer.old) }
        ensures turn { IsTurnOfWriter result writer.new }
        ensures value { S.stands_for result.value (writer_seen writer.new) }
        ensures same { writer_seen writer.new ≡ writer_seen writer.old }
    {
        let value = self.take(rt, &mut writer.place);
        writer.turns += 1;
        Turn {
            value,
            of: Snapshot::of(&writer.place),
        }
    }

    /// Gives the value back, which still stands for the list that it was entered with.
    pub fn leave_writer(&self, writer: &mut WriterSeat<S>, turn: Turn<S>)
        requires of { IsWriterOf self.now writer.old }
        requires turn { IsTurnOfWriter turn writer.old }
        requires value { S.stands_for turn.value (writer_seen writer.old) }
        ensures of { IsWriterOf self.now writer.new }
        ensures rests { WriterRests writer.new }
        ensures counts { (writer_turns writer.new ≡ writer_turns writer.old) × (writer_made writer.new ≡ writer_made writer.old) }
        ensures same { writer_seen writer.new ≡ writer_seen writer.old }
    {
        let Turn { value, of: _ } = turn;
        self.give_back(&mut writer.place, value);
    }

    /// Adds the entry to the history, and gives the value back, which stands for the list that it was entered with, followed by the entry.
    pub fn leave_with_entry(&self, writer: &mut WriterSeat<S>, turn: Turn<S>, entry: &S::Entry)
        requires of { IsWriterOf self.now writer.old }
        requires turn { IsTurnOfWriter turn writer.old }
        requires value { S.stands_for turn.value (writer_seen writer.old ++ entry.now ∷ []) }
        ensures of { IsWriterOf self.now writer.new }
        ensures rests { WriterRests writer.new }
        ensures counts { (writer_turns writer.new ≡ writer_turns writer.old) × (writer_made writer.new ≡ writer_made writer.old) }
        ensures added { writer_seen writer.new ≡ writer_seen writer.old ++ entry.now ∷ [] }
    {
        let Turn { value, of: _ } = turn;
        self.count::<Brand>(&mut writer.place, entry);
        self.give_back(&mut writer.place, value);
    }
}
