//! Laws about definitions, each the contract of a function that does nothing.
ghost use Rattle.version_catalog.specs.Core.{IsCore, IsDetermined};
ghost use Rattle.version_catalog.specs.Tied.{TurnsAreSteps};

/// The core of versions, for every list of events and every type of batch.
#[tactic(auto, using(crate::proofs::CoreLemmas::core))]
pub fn every_run<B>()
    ensures { IsCore B }
{}

/// From each state each event leads on in one way, or is an install past the journal.
#[tactic(auto, using(crate::proofs::CoreLemmas::determined))]
pub fn one_step<B>()
    ensures { IsDetermined B }
{}

/// What turns do to the value under a catalogue's lock are steps of the core that it is tied to.
#[tactic(auto, using(crate::proofs::Tying::turns_are_steps))]
pub fn turns_are_steps()
    ensures { TurnsAreSteps }
{}
