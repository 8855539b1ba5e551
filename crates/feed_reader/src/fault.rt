ghost use Rattle.std.specs.Prelude.{◌≡◌};
ghost use Rattle.feed_reader.specs.Refusals.{code_of};

use thiserror::Error;

/// Why a line is none of a feed.
#[derive(Clone, Copy, Debug, PartialEq, Eq, Error)]
pub enum LineFault {
    /// It has none of the forms.
    #[error("the line has no form")]
    BadLine,
    /// It has the form of a change, and names a vertical or a type that is not declared.
    #[error("the line names a vertical or a type that is not declared")]
    UnknownName,
}

impl LineFault {
    /// The code that is printed for the fault.
    pub fn code(self) -> u32
        ensures { result ≡ code_of self }
    {
        match self {
            LineFault::BadLine => 11,
            LineFault::UnknownName => 12,
        }
    }
}
