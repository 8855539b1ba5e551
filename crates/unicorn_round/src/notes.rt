//! The seats of a round tell each other what they have seen, before it and after it.
ghost use Rattle.std.specs.List.{AllByRecursion, AllZip};
ghost use Rattle.std.specs.Prelude.{◌≡◌};
ghost use mathlib.Core.List.{IsPrefix};
ghost use Rattle.round_feed.specs.Seats.{HasCompacted};
ghost use Rattle.session_asks.specs.Seats.{HasTaken};
ghost use Rattle.unicorn_round.specs.Seats.{HasSpoken, IsResting};
ghost use Rattle.version_catalog.specs.Seats.{IsCompactorOf, IsFeederOf, compactor_installs, compactor_journal, feeder_journal, session_journal};

use version_catalog::{Catalogue, Compactor, Feeder, Session};

/// The sessions learn what the feeder has seen.
pub(crate) fn tell_sessions(catalogue: &Catalogue, feeder: &mut Feeder, sessions: &mut [Session])
    requires feeder { IsFeederOf catalogue.now feeder.old }
    requires sessions { AllByRecursion (IsResting catalogue.now) sessions.old }
    ensures feeder { HasSpoken catalogue.now feeder.old feeder.new }
    ensures sessions { AllZip (HasTaken catalogue.now 0) sessions.old sessions.new }
    ensures told { AllByRecursion (λ session. IsPrefix (feeder_journal feeder.old) (session_journal session)) sessions.new }
{
    let Some((first, others)) = sessions.split_first_mut() else {
        return;
    };
    tell_session(catalogue, feeder, first);
    tell_sessions(catalogue, feeder, others);
}

/// The feeder learns what the sessions have seen, which it has always seen.
pub(crate) fn hear_sessions(catalogue: &Catalogue, feeder: &mut Feeder, sessions: &mut [Session])
    requires feeder { IsFeederOf catalogue.now feeder.old }
    requires sessions { AllByRecursion (IsResting catalogue.now) sessions.old }
    ensures feeder { HasSpoken catalogue.now feeder.old feeder.new }
    ensures sessions { AllZip (HasTaken catalogue.now 0) sessions.old sessions.new }
    ensures heard { AllByRecursion (λ session. IsPrefix (session_journal session) (feeder_journal feeder.old)) sessions.old }
{
    let Some((first, others)) = sessions.split_first_mut() else {
        return;
    };
    hear_session(catalogue, feeder, first);
    hear_sessions(catalogue, feeder, others);
}

fn tell_session(catalogue: &Catalogue, feeder: &mut Feeder, session: &mut Session)
    requires feeder { IsFeederOf catalogue.now feeder.old }
    requires session { IsResting catalogue.now session.old }
    ensures feeder { HasSpoken catalogue.now feeder.old feeder.new }
    ensures session { HasTaken catalogue.now 0 session.old session.new }
    ensures told { IsPrefix (feeder_journal feeder.old) (session_journal session.new) }
{
    let note = catalogue.note(feeder);
    catalogue.meet(session, note);
}

fn hear_session(catalogue: &Catalogue, feeder: &mut Feeder, session: &mut Session)
    requires feeder { IsFeederOf catalogue.now feeder.old }
    requires session { IsResting catalogue.now session.old }
    ensures feeder { HasSpoken catalogue.now feeder.old feeder.new }
    ensures session { HasTaken catalogue.now 0 session.old session.new }
    ensures heard { IsPrefix (session_journal session.old) (feeder_journal feeder.old) }
{
    let note = catalogue.note(session);
    catalogue.meet(feeder, note);
}

/// The compactor learns what the feeder has seen.
pub(crate) fn tell_compactor(catalogue: &Catalogue, feeder: &mut Feeder, compactor: &mut Compactor)
    requires feeder { IsFeederOf catalogue.now feeder.old }
    requires compactor { IsCompactorOf catalogue.now compactor.old }
    ensures feeder { HasSpoken catalogue.now feeder.old feeder.new }
    ensures compactor { HasCompacted catalogue.now 0 compactor.old compactor.new }
    ensures told { IsPrefix (feeder_journal feeder.old) (compactor_journal compactor.new) }
    ensures kept { compactor_installs compactor.new ≡ compactor_installs compactor.old }
{
    let note = catalogue.note(feeder);
    catalogue.meet(compactor, note);
}

/// The feeder learns what the compactor has seen.
pub(crate) fn hear_compactor(catalogue: &Catalogue, feeder: &mut Feeder, compactor: &mut Compactor)
    requires feeder { IsFeederOf catalogue.now feeder.old }
    requires compactor { IsCompactorOf catalogue.now compactor.old }
    ensures feeder { HasSpoken catalogue.now feeder.old feeder.new }
    ensures compactor { HasCompacted catalogue.now 0 compactor.old compactor.new }
    ensures heard { IsPrefix (compactor_journal compactor.old) (feeder_journal feeder.old) }
    ensures kept { compactor_installs compactor.new ≡ compactor_installs compactor.old }
{
    let note = catalogue.note(compactor);
    catalogue.meet(feeder, note);
}
