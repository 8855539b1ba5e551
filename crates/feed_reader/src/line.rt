use uni_table::Command;

/// A line of a feed.
#[derive(Clone, Copy, Debug, PartialEq, Eq)]
pub enum FeedLine {
    /// A change of the table.
    Change(Command),
    /// The changes so far become a version.
    Publish,
}
