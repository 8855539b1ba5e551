//! Seats that tell each other what they have seen.
use crate::{CatalogueState, Compactor, Feeder, Note, Session};
use turn_lock::TurnLock;

/// A seat of a catalogue, whatever it is for.
pub trait Holder {
    ghost use Rattle.std.specs.Prelude.{◌≡◌, Bool, false, List, IsTrue};
    ghost use mathlib.Core.List.{IsPrefix};
    ghost use Rattle.atomic_table.specs.Seated.{TableId};
    ghost use Rattle.turn_lock.specs.Places.{lock_id};
    ghost use Rattle.turn_lock.specs.Seats.{IsNoteOf, note_seen};
    ghost use Rattle.turn_lock.specs.Steps.{longer};
    ghost use Rattle.version_catalog.specs.declared.entry.Entry.{Entry};

    /// Which lock it is at.
    ghost sits_at: { Self → TableId };

    /// What it has seen.
    ghost history: { Self → List Entry };

    /// Whether it is the seat that publishes.
    ghost writes: { Self → Bool };

    /// Only what it has seen may have changed.
    ghost same: { Self → Self → Type 0 };

    /// A note of what it has seen.
    fn note_on(&mut self, lock: &TurnLock<CatalogueState>) -> Note
        requires { sits_at self.old ≡ lock_id lock.now }
        ensures of { IsNoteOf lock.now result }
        ensures seen { note_seen result ≡ history self.old }
        ensures history { history self.new ≡ history self.old }
        ensures place { sits_at self.new ≡ sits_at self.old }
        ensures writes { writes self.new ≡ writes self.old }
        ensures same { same self.old self.new };

    /// It has then seen what the note has, too.
    fn meet_on(&mut self, lock: &TurnLock<CatalogueState>, note: Note)
        requires of { sits_at self.old ≡ lock_id lock.now }
        requires note { IsNoteOf lock.now note }
        ensures own { IsPrefix (history self.old) (history self.new) }
        ensures other { IsPrefix (note_seen note) (history self.new) }
        ensures writer { IsTrue (writes self.old) → history self.new ≡ history self.old }
        ensures longer { writes self.old ≡ false → history self.new ≡ longer (history self.old) (note_seen note) }
        ensures place { sits_at self.new ≡ sits_at self.old }
        ensures writes { writes self.new ≡ writes self.old }
        ensures same { same self.old self.new };
}

impl Holder for Session {
    ghost use Rattle.std.specs.Prelude.{false};
    ghost use Rattle.turn_lock.specs.Seats.{seat_lock, seat_seen};
    ghost use Rattle.version_catalog.specs.Seats.{IsSameSession};

    ghost sits_at = { λ s. seat_lock s };

    ghost history = { λ s. seat_seen s };

    ghost writes = { λ _. false };

    ghost same = { IsSameSession };

    fn note_on(&mut self, lock: &TurnLock<CatalogueState>) -> Note {
        lock.note(self)
    }

    fn meet_on(&mut self, lock: &TurnLock<CatalogueState>, note: Note) {
        lock.meet(self, note);
    }
}

impl Holder for Compactor {
    ghost use Rattle.std.specs.Prelude.{false};
    ghost use Rattle.turn_lock.specs.Seats.{seat_lock, seat_seen};
    ghost use Rattle.version_catalog.specs.Seats.{IsSameCompactor};

    ghost sits_at = { λ c. seat_lock c.seat };

    ghost history = { λ c. seat_seen c.seat };

    ghost writes = { λ _. false };

    ghost same = { IsSameCompactor };

    fn note_on(&mut self, lock: &TurnLock<CatalogueState>) -> Note {
        lock.note(&mut self.seat)
    }

    fn meet_on(&mut self, lock: &TurnLock<CatalogueState>, note: Note) {
        lock.meet(&mut self.seat, note);
    }
}

impl Holder for Feeder {
    ghost use Rattle.std.specs.Prelude.{true};
    ghost use Rattle.turn_lock.specs.Seats.{writer_lock, writer_seen};
    ghost use Rattle.version_catalog.specs.Seats.{IsSameFeeder};

    ghost sits_at = { λ f. writer_lock f.seat };

    ghost history = { λ f. writer_seen f.seat };

    ghost writes = { λ _. true };

    ghost same = { IsSameFeeder };

    fn note_on(&mut self, lock: &TurnLock<CatalogueState>) -> Note {
        lock.note_writer(&mut self.seat)
    }

    fn meet_on(&mut self, lock: &TurnLock<CatalogueState>, note: Note) {
        lock.meet_writer(&mut self.seat, note);
    }
}
