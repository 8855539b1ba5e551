//! Short runs of the core, each the contract of a function that does nothing.
ghost use Rattle.std.specs.Prelude.{ℕ};
ghost use Rattle.version_catalog.specs.Core.{IsCore};
ghost use Rattle.version_catalog.specs.Examples.{LastPin, NoEarlyInstall, ShortRun};

use crate::laws;

/// Two publishes, a pin, two installs and a meet, and the state that they lead to.
#[tactic(auto, using(crate::proofs::ExampleRuns::short_run))]
pub fn short_run()
    ensures { ShortRun }
{}

/// A pin at its end.
#[tactic(auto, using(crate::proofs::ExampleRuns::last_pin))]
pub fn last_pin()
    ensures { LastPin }
{}

/// An install past the journal.
#[tactic(auto, using(crate::proofs::ExampleRuns::no_early_install))]
pub fn no_early_install()
    ensures { NoEarlyInstall }
{}

/// The core where batches are numbers, from the law over all types.
pub fn core_of_numbers()
    ensures { IsCore ℕ }
{
    laws::every_run::<u64>()
}
