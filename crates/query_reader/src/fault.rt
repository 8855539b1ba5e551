//! The codes of a query's faults.

/// An atom in no form, or a token where another kind is due.
pub const BAD_TOKEN: u32 = 31;

/// The text ends before the query does.
pub const UNCLOSED: u32 = 32;

/// More after the whole query.
pub const EXTRA: u32 = 33;

/// No operator after a parenthesis.
pub const UNKNOWN_OPERATOR: u32 = 34;

/// Too few or too many operands.
pub const OPERAND_COUNT: u32 = 35;

/// An option that may not stand there, that was given before, or whose value is not in its range.
pub const BAD_OPTION: u32 = 36;

/// Too many open parentheses.
pub const TOO_DEEP: u32 = 37;

/// Too many nodes.
pub const TOO_MANY_NODES: u32 = 38;
