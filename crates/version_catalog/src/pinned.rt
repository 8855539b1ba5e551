ghost use Rattle.std.specs.Prelude.{◌≡◌};
ghost use Rattle.std.specs.Arc.{arc_value};

use shard_index::Version;
use std::marker::Model;
use std::sync::Arc;

/// A version that a session has pinned: it stays as it is, whatever is published or compacted.
#[derive(Drop)]
pub struct Pinned {
    version: Arc<Version>,
}

impl Model for Pinned {
    ghost use Rattle.std.specs.Arc.{arc_value};
    ghost use Rattle.std.specs.Coded.{codes};
    ghost use Rattle.std.specs.FinMap as finite;
    ghost use Rattle.shard_index.specs.Versions.{VersionState};

    ghost Value = { VersionState };

    ghost coded = { Prim.hlevel (codes, finite.code) };

    ghost view = { λ p. arc_value p.version };
}

impl Pinned {
    // The version is shared.
    pub(crate) fn of(version: Arc<Version>) -> Pinned
        ensures { result ≡ arc_value version }
    {
        Pinned { version }
    }

    pub fn version(&self) -> &Version
        ensures { result.now ≡ self.now }
    {
        &self.version
    }
}
