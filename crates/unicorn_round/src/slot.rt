/// A line of a round where its answers are put together: who answers it, or what its answer is.
#[derive(Clone, Copy)]
pub(crate) enum Slot {
    /// A change or a publish, with its number. The feeder may have no answer for it.
    Feed(u64),
    /// An `ask`, by the place of its session among all.
    Ask(usize),
    /// A `compact`.
    Compact,
    /// A `stats`, with its number.
    Stats(u64),
    /// A line that is refused: its number and code.
    Refused(u64, u32),
    /// A line at fault: its number and code.
    Fault(u64, u32),
    /// A query at fault: its line's number, its code and column.
    QueryFault(u64, u32, u32),
    /// A line whose query found no memory: its number.
    Memory(u64),
}
