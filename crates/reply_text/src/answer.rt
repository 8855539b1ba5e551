use uni_base::Rows;
use uni_meaning::Reply;

/// A stack as `stats` shows it: where it stands, and how many layers it has.
#[derive(Clone, Copy, Debug, PartialEq, Eq)]
pub struct StackRow {
    pub vertical: u16,
    pub shard: u32,
    pub replica: u32,
    pub layers: u64,
}

/// Stacks, each in a row of its own.
pub type StackRows = Rows<StackRow>;

/// What a line of a script is answered, with the line's number first, or what became of a stack at the
/// end of a round.
#[derive(Drop)]
pub enum Answer {
    /// A publish: how many there are with it.
    Published(u64, u64),
    /// A query: its reply.
    Reply(u64, Reply),
    /// A compaction: how many publishes its stack covers with it.
    Compacted(u64, u64),
    /// The stacks, after so many publishes.
    Stats(u64, u64, StackRows),
    /// A line that is refused: its code.
    Refused(u64, u32),
    /// A line at fault: its code.
    Fault(u64, u32),
    /// A query at fault: its code, and its column from 1 on.
    QueryFault(u64, u32, u32),
    /// There was no memory for the line, which had no effect.
    Memory(u64),
    /// A stack that was compacted: its vertical, shard and replica, and how many publishes it covers.
    Tidied(u16, u32, u32, u64),
    /// A stack that found no memory to be compacted, and is as before: its vertical, shard and replica.
    Untidied(u16, u32, u32),
}

/// Answers of lines.
pub type AnswerList = Rows<Answer>;
