ghost use Rattle.std.specs.Prelude.{◌≡◌};

use packed_command::PackedCommand;
use query_check::Checked;
use uni_base::{EntityId, Rows};

/// What a line of a round is that counts, with the line's number first. The fields of a query stand in such an
/// order that an item takes 40 bytes.
#[derive(Debug, Drop)]
pub enum Item {
    /// A change of the table.
    Change(u64, PackedCommand),
    /// The changes so far become a version.
    Publish(u64),
    /// A query, which a session asks for a viewer, for at most so many hits. It lies in a box, since few items
    /// are queries.
    Ask {
        line: u64,
        viewer: EntityId,
        session: u32,
        limit: u32,
        query: Box<Checked>,
    },
    /// The layers of a stack become one: its vertical, shard and replica.
    Compact(u64, u16, u32, u32),
    /// The stacks are shown.
    Stats(u64),
    /// A line of no form (11), or of one that names what is not declared (12).
    Refused(u64, u32),
    /// A line that is too long (64) or one too many (65), or an `ask` whose viewer (61), session (62) or
    /// limit (63) is none: its code.
    Fault(u64, u32),
    /// An `ask` whose query is at fault: the code, 31 to 38 or 41 to 47, and the column.
    QueryFault(u64, u32, u32),
    /// An `ask` whose query found no memory while it was read or typed.
    Memory(u64),
}

impl Item {
    ghost use Rattle.script_rounds.specs.RoundReads.{item_line};

    /// The number of its line.
    pub fn line(&self) -> u64
        ensures { result ≡ item_line self.now }
    {
        match self {
            Item::Change(line, _)
            | Item::Publish(line)
            | Item::Ask { line, .. }
            | Item::Compact(line, ..)
            | Item::Stats(line)
            | Item::Refused(line, _)
            | Item::Fault(line, _)
            | Item::QueryFault(line, ..)
            | Item::Memory(line) => *line,
        }
    }
}

/// The items of a round, in the order of their lines.
pub type ItemList = Rows<Item>;

/// The lines of a script up to a `go`, or to its end.
#[derive(Drop)]
pub struct Round {
    pub items: ItemList,
}

/// What a line of a round is.
#[derive(Debug, Drop)]
pub(crate) enum RoundLine {
    /// The round's end.
    Go,
    /// A line that is not answered.
    Skipped,
    /// A line that counts.
    Item(Item),
}
