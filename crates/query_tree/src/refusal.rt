use thiserror::Error;

/// Why a query is not taken: the first fault of its text, or want of memory.
#[derive(Clone, Copy, Debug, PartialEq, Eq, Error)]
pub enum QueryRefusal {
    /// The fault's code, and the column, from 1 on, at which it stands.
    #[error("fault {code} at column {column}")]
    Fault { code: u32, column: u32 },
    #[error("memory ran out")]
    Memory,
}
