ghost use Rattle.std.specs.Prelude.{◌≡◌};
ghost use Rattle.uni_schema.specs.Refusals.{code_of};

use std::alloc::AllocError;
use thiserror::Error;

/// Why a header is refused, with the number of the line that shows it.
#[derive(Clone, Copy, Debug, PartialEq, Eq, Error)]
pub enum SchemaRefusal {
    /// The line is no declaration, stands where it may not, or is too long.
    #[error("line {0} is no line of a header, or stands where it may not")]
    BadLine(u64),
    /// A vertical is named `word` or as an earlier one, or a type as an earlier one.
    #[error("line {0} names what has that name already")]
    NamedTwice(u64),
    /// The source or the target of a type is not declared.
    #[error("line {0} names a vertical that is not declared")]
    UnknownVertical(u64),
    /// Shards are not 1 to 64, or replicas not 1 to 4.
    #[error("line {0} has a number out of its range")]
    OutOfRange(u64),
    /// Edges that start at words are owned by their targets and kept in the index.
    #[error("line {0} has edges from words that are not their targets' or not in the index")]
    WordSource(u64),
    /// There is a 17th vertical, a 257th type or a 9th deny line.
    #[error("line {0} is one too many of its kind")]
    TooMany(u64),
    /// The type of a deny line is not declared, is a forward type, starts at words or denies already.
    #[error("line {0} denies by a type that cannot deny")]
    BadDeny(u64),
    /// The input ends before `begin`; the line is the number of lines plus 1.
    #[error("line {0} is missing: the header has no begin")]
    NoBegin(u64),
    /// Memory ran out.
    #[error("memory ran out")]
    Memory,
}

impl SchemaRefusal {
    /// The code that is printed for the refusal. Want of memory has none.
    pub fn code(self) -> Option<u32>
        ensures { result ≡ code_of self }
    {
        match self {
            SchemaRefusal::BadLine(_) => Some(1),
            SchemaRefusal::NamedTwice(_) => Some(2),
            SchemaRefusal::UnknownVertical(_) => Some(3),
            SchemaRefusal::OutOfRange(_) => Some(4),
            SchemaRefusal::WordSource(_) => Some(5),
            SchemaRefusal::TooMany(_) => Some(6),
            SchemaRefusal::BadDeny(_) => Some(7),
            SchemaRefusal::NoBegin(_) => Some(8),
            SchemaRefusal::Memory => None,
        }
    }
}

impl From<AllocError> for SchemaRefusal {
    ghost use Rattle.std.specs.Prelude.{◌≡◌};
    ghost use Rattle.uni_schema.specs.declared.refusal.SchemaRefusal.{SchemaRefusal};

    ghost from_gives = { λ _ refusal. refusal ≡ SchemaRefusal.Memory };

    fn from(_: AllocError) -> SchemaRefusal {
        SchemaRefusal::Memory
    }
}
