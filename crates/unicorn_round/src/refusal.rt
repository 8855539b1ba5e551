/// Why a publish is refused.
#[derive(Clone, Copy, Debug, PartialEq, Eq)]
pub(crate) enum PublishRefusal {
    /// As many were made as the limit allows.
    TooMany,
    /// Out of memory.
    Memory,
}

/// The code of a publish at the limit.
pub(crate) const TOO_MANY_PUBLISHES: u32 = 51;
