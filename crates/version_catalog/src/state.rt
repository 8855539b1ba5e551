use crate::{Entry, Install, Settings};
use shard_index::Version;
use std::alloc::{AllocError, Global};
use std::sync::Arc;
use turn_lock::Recorded;
use twin_list::Half;
use uni_base::Limits;

/// The value under a catalogue's lock: the newest version, how many publishes the oldest layer of each of its
/// stacks covers, and one half of the list of installs, of which the compactor has the other.
#[derive(Drop)]
pub struct CatalogueState {
    pub(crate) version: Arc<Version>,
    pub(crate) limits: Limits,
    pub(crate) covered: Vec<u64>,
    pub(crate) half: Option<Half<Install>>,
}

impl Recorded for CatalogueState {
    ghost use Rattle.version_catalog.specs.States.{StandsFor};

    type Entry = Entry;

    ghost stands_for = { StandsFor };
}

impl CatalogueState {
    ghost use Rattle.std.specs.Prelude.{◌≡◌, [], IfOk};
    ghost use Rattle.version_catalog.specs.States.{StateStands, half_in, CoversNone};

    /// The value without publishes, and with a half.
    pub(crate) fn opening(
        alloc: Global,
        settings: &Settings,
        half: Option<Half<Install>>,
    ) -> Result<CatalogueState, AllocError>
        ensures stands { IfOk result (λ state. StateStands state settings.now []) }
        ensures half { IfOk result (λ state. half_in state ≡ half) }
        ensures none { IfOk result CoversNone }
    {
        let version = Version::empty(alloc, settings.schema().clone()?)?;
        let covered = vec![in alloc; 0; version.stacks().len()]?;
        Ok(CatalogueState {
            version: Arc::new(alloc, version)?,
            limits: *settings.limits(),
            covered,
            half,
        })
    }
}
