//! The codes of lines at fault.

/// The viewer of an `ask` is no id.
pub const BAD_VIEWER: u32 = 61;

/// The session of an `ask` is no number of one.
pub const BAD_SESSION: u32 = 62;

/// The limit of an `ask` is no number of hits that it may want.
pub const BAD_LIMIT: u32 = 63;

/// A line is too long.
pub const LINE_TOO_LONG: u32 = 64;

/// A line is the first of its round that is one too many.
pub const TOO_MANY_LINES: u32 = 65;
