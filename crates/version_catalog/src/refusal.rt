use std::alloc::AllocError;
use thiserror::Error;

/// Why a publish is refused.
#[derive(Clone, Copy, Debug, PartialEq, Eq, Error)]
pub enum PublishRefusal {
    /// As many publishes as there may be were made, which is this many.
    #[error("{0} publishes were made, and there may be no more")]
    TooMany(u64),
    /// Memory ran out.
    #[error("memory ran out")]
    Memory,
}

impl From<AllocError> for PublishRefusal {
    ghost use Rattle.std.specs.Prelude.{◌≡◌};
    ghost use Rattle.version_catalog.specs.declared.refusal.PublishRefusal.{PublishRefusal};

    ghost from_gives = { λ _ refusal. refusal ≡ PublishRefusal.Memory };

    fn from(_: AllocError) -> PublishRefusal {
        PublishRefusal::Memory
    }
}
