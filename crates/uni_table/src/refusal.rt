ghost use Rattle.std.specs.Prelude.{◌≡◌};
ghost use Rattle.uni_table.specs.Refusals.{code_of};

use std::alloc::AllocError;
use thiserror::Error;

/// Why a command is refused.
#[derive(Clone, Copy, Debug, PartialEq, Eq, Error)]
pub enum FeedRefusal {
    /// The key spells no entity of the vertical that edges of the type start at.
    #[error("the source is no entity of the type's source vertical")]
    NoSource,
    /// The target is no entity of the type's target vertical.
    #[error("the target is no entity of the type's target vertical")]
    NoTarget,
    /// The circle is of a forward type, or its key spells no id where its type starts at entities.
    #[error("the audience names no circle")]
    UnknownCircle,
    /// The id is an entity of another vertical.
    #[error("the id is an entity of another vertical")]
    Elsewhere,
    /// The forward edge is new, and its type and key have as many as they may.
    #[error("the key has as many forward edges of the type as it may")]
    ForwardFull,
    /// The table has no room for a new row.
    #[error("the table is full")]
    TableFull,
    /// Memory ran out.
    #[error("memory ran out")]
    Memory,
}

impl FeedRefusal {
    /// The code that is printed for the refusal. Want of memory has none.
    pub fn code(self) -> Option<u32>
        ensures { result ≡ code_of self }
    {
        match self {
            FeedRefusal::NoSource => Some(13),
            FeedRefusal::NoTarget => Some(14),
            FeedRefusal::UnknownCircle => Some(15),
            FeedRefusal::Elsewhere => Some(16),
            FeedRefusal::ForwardFull => Some(17),
            FeedRefusal::TableFull => Some(18),
            FeedRefusal::Memory => None,
        }
    }
}

impl From<AllocError> for FeedRefusal {
    ghost use Rattle.std.specs.Prelude.{◌≡◌};
    ghost use Rattle.uni_table.specs.declared.refusal.FeedRefusal.{FeedRefusal};

    ghost from_gives = { λ _ refusal. refusal ≡ FeedRefusal.Memory };

    fn from(_: AllocError) -> FeedRefusal {
        FeedRefusal::Memory
    }
}
