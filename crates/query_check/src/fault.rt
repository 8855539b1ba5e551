//! The codes of a query's faults under a schema.

/// A type that is not declared.
pub const UNKNOWN_TYPE: u32 = 41;

/// A key that is none of its type's: no id where the edges start at entities, or a prefix there.
pub const KEY_KIND: u32 = 42;

/// A forward type in a term or in `apply`.
pub const NOT_INDEXED: u32 = 43;

/// An index type in `extract`.
pub const NOT_FORWARD: u32 = 44;

/// An operand of another vertical than the first one.
pub const VERTICAL_MISMATCH: u32 = 45;

/// A join through a type that does not start at the vertical of the inner query.
pub const APPLY_SOURCE: u32 = 46;

/// A join inside too many others.
pub const NESTED_JOINS: u32 = 47;
