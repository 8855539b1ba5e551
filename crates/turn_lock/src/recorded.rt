//! Values with a history.
/// A value that stands for a list of entries, its history. It need not store that list.
pub trait Recorded: Drop {
    ghost use Rattle.std.specs.Prelude.{List};

    /// What the history is a list of.
    type Entry;

    /// Whether the value stands for these entries.
    ghost stands_for: { Self → List Self.Entry → Type 0 };
}
