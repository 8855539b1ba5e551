ghost use Rattle.std.specs.Prelude.{◌≡◌};
ghost use Rattle.query_tree.specs.Marks.{may_mark};

/// Whether a term names its key whole, or names the beginning of its keys.
#[derive(Clone, Copy, Debug, PartialEq, Eq)]
pub enum TermKind {
    Whole,
    Prefix,
}

/// The operators over a list of operands.
#[derive(Clone, Copy, Debug, PartialEq, Eq)]
pub enum ListKind {
    And,
    Or,
    Difference,
    WeakAnd,
    StrongOr,
}

/// The operators over the hits of one query.
#[derive(Clone, Copy, Debug, PartialEq, Eq)]
pub enum JoinKind {
    Apply,
    Extract,
}

/// The options by which an operand counts.
#[derive(Clone, Copy, Debug, PartialEq, Eq)]
pub enum MarkKind {
    Hits,
    Weight,
}

impl ListKind {
    /// Whether an operand may have the option, in a format.
    pub fn may_mark(self, format: u32, mark: MarkKind) -> bool
        ensures { result ≡ may_mark format self mark }
    {
        match (self, mark) {
            (ListKind::WeakAnd, MarkKind::Hits) | (ListKind::StrongOr, MarkKind::Weight) => true,
            (ListKind::WeakAnd, MarkKind::Weight) => format == 2,
            _ => false,
        }
    }
}
