//! Notes, said by journals.
use crate::{Catalogue, Holder, Note};

impl Catalogue {
    ghost use Rattle.std.specs.Prelude.{◌≡◌, false, IsTrue};
    ghost use mathlib.Core.List.{IsPrefix};
    ghost use Rattle.turn_lock.specs.Steps.{longer};
    ghost use Rattle.version_catalog.specs.Journals.{batches};
    ghost use Rattle.version_catalog.specs.Seats.{IsSeenOf, IsNoteAt, note_journal};

    /// A note of what a seat has seen, which may go to another thread.
    pub fn note<H: Holder>(&self, of: &mut H) -> Note
        requires { IsSeenOf self.now (H.sits_at of.old) (H.history of.old) }
        ensures of { IsNoteAt self.now result }
        ensures journal { note_journal result ≡ batches (H.history of.old) }
        ensures seen { IsSeenOf self.now (H.sits_at of.new) (H.history of.new) }
        ensures kept { batches (H.history of.new) ≡ batches (H.history of.old) }
        ensures writes { H.writes of.new ≡ H.writes of.old }
        ensures same { H.same of.old of.new }
    {
        of.note_on(&self.lock)
    }

    /// The seat has then seen the longer of the two journals, which begins with the other. The feeder has
    /// always seen it.
    pub fn meet<H: Holder>(&self, by: &mut H, note: Note)
        requires of { IsSeenOf self.now (H.sits_at by.old) (H.history by.old) }
        requires note { IsNoteAt self.now note }
        ensures of { IsSeenOf self.now (H.sits_at by.new) (H.history by.new) }
        ensures own { IsPrefix (batches (H.history by.old)) (batches (H.history by.new)) }
        ensures other { IsPrefix (note_journal note) (batches (H.history by.new)) }
        ensures writer { IsTrue (H.writes by.old) → batches (H.history by.new) ≡ batches (H.history by.old) }
        ensures longer { H.writes by.old ≡ false → batches (H.history by.new) ≡ longer (batches (H.history by.old)) (note_journal note) }
        ensures writes { H.writes by.new ≡ H.writes by.old }
        ensures same { H.same by.old by.new }
    {
        by.meet_on(&self.lock, note);
    }
}
