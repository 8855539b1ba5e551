use std::sync::Wait;

/// A moment of a run at which a gate is told where it is.
#[derive(Clone, Copy, Debug, PartialEq, Eq)]
pub enum Point {
    /// The query of a line has pinned its version.
    Pinned(u64),
    /// A version was published.
    Published(u64),
    /// A shard of a vertical begins to work on the query of a line.
    ShardStarted(u64, u16, u32),
    /// A compacted stack was installed, of a vertical, shard and replica.
    Installed(u16, u32, u32),
}

/// May hold a run at its points. Nothing is locked there, and no answer depends on it.
pub trait Gate {
    fn at<R: Wait>(&self, rt: &R, point: Point);
}

/// Lets everything pass at once.
#[derive(Clone, Copy, Debug)]
pub struct OpenGate;

impl Gate for OpenGate {
    fn at<R: Wait>(&self, _rt: &R, _point: Point) {}
}
