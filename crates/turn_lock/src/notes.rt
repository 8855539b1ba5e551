//! Notes, by which a seat tells another what it has seen.
ghost use Rattle.std.specs.Prelude.{◌≡◌};
ghost use mathlib.Core.List.{IsPrefix};
ghost use Rattle.turn_lock.specs.Places.{IsOf, seen};
ghost use Rattle.turn_lock.specs.Seats.{IsSeatOf, IsWriterOf, IsNoteOf, seat_seen, writer_seen, note_seen, seat_turns, writer_turns, writer_made, IsSeatInTurn, IsSameSeat, IsSameWriter};
ghost use Rattle.turn_lock.specs.Steps.{looked, meets, longer};

use crate::law::Place;
use crate::lock::TurnLock;
use crate::plays::{Look, Meet, NewNote};
use crate::recorded::Recorded;
use crate::seats::{Note, Seat, WriterSeat};
use crate::turns::COUNT;

impl<S: Recorded> TurnLock<S> {
    // A note of what the place has seen.
    fn write_note(&self, place: &mut Place<S>) -> Note<S>
        requires of { IsOf self.now place.old }
        ensures of { IsNoteOf self.now result }
        ensures seen { note_seen result ≡ seen place.old }
        ensures kept { (place.new.table_id ≡ place.old.table_id) × (place.new.id ≡ place.old.id) × (place.new.me ≡ place.old.me) }
    {
        Note {
            place: self.table.shared.split_seat::<NewNote>(place),
        }
    }

    // Takes the note in, and looks at what was then seen.
    fn read_note(&self, place: &mut Place<S>, note: Note<S>)
        requires of { IsOf self.now place.old × IsNoteOf self.now note }
        ensures of { (place.new.table_id ≡ place.old.table_id) × (place.new.id ≡ place.old.id) }
        ensures met { place.new.me ≡ (looked (meets place.old.me.0 note.place.me.0), place.old.me.1) }
        ensures own { IsPrefix (seen place.old) (seen place.new) }
        ensures other { IsPrefix (note_seen note) (seen place.new) }
    {
        let Note { place: other } = note;
        self.table.shared.join_seat::<Meet>(place, other);
        self.table.shared.load::<Look>(place, COUNT);
    }

    /// A note of what the seat has seen, which may go to another thread.
    pub fn note(&self, seat: &mut Seat<S>) -> Note<S>
        requires of { IsSeatOf self.now seat.old }
        ensures of { IsNoteOf self.now result }
        ensures seen { note_seen result ≡ seat_seen seat.old }
        ensures kept { IsSameSeat seat.old seat.new × (seat_seen seat.new ≡ seat_seen seat.old) × (seat_turns seat.new ≡ seat_turns seat.old) }
    {
        self.write_note(&mut seat.place)
    }

    /// A note of what the writer has seen, which may go to another thread.
    pub fn note_writer(&self, writer: &mut WriterSeat<S>) -> Note<S>
        requires of { IsWriterOf self.now writer.old }
        ensures of { IsNoteOf self.now result }
        ensures seen { note_seen result ≡ writer_seen writer.old }
        ensures kept { IsSameWriter writer.old writer.new × (writer_seen writer.new ≡ writer_seen writer.old) }
        ensures counts { (writer_turns writer.new ≡ writer_turns writer.old) × (writer_made writer.new ≡ writer_made writer.old) }
    {
        self.write_note(&mut writer.place)
    }

    /// The seat has then seen the longer of the two lists, which begins with the other. In its turn
    /// its list stays as it was, since that is the whole history.
    pub fn meet(&self, seat: &mut Seat<S>, note: Note<S>)
        requires of { IsSeatOf self.now seat.old × IsNoteOf self.now note }
        ensures longer { seat_seen seat.new ≡ longer (seat_seen seat.old) (note_seen note) }
        ensures own { IsPrefix (seat_seen seat.old) (seat_seen seat.new) }
        ensures other { IsPrefix (note_seen note) (seat_seen seat.new) }
        ensures in_turn { IsSeatInTurn seat.old → seat_seen seat.new ≡ seat_seen seat.old }
        ensures kept { IsSameSeat seat.old seat.new × (seat_turns seat.new ≡ seat_turns seat.old) }
    {
        self.read_note(&mut seat.place, note);
    }

    /// The writer's list stays as it was, and begins with the note's.
    pub fn meet_writer(&self, writer: &mut WriterSeat<S>, note: Note<S>)
        requires of { IsWriterOf self.now writer.old × IsNoteOf self.now note }
        ensures same { writer_seen writer.new ≡ writer_seen writer.old }
        ensures other { IsPrefix (note_seen note) (writer_seen writer.old) }
        ensures kept { IsSameWriter writer.old writer.new }
        ensures counts { (writer_turns writer.new ≡ writer_turns writer.old) × (writer_made writer.new ≡ writer_made writer.old) }
    {
        self.read_note(&mut writer.place, note);
    }
}
