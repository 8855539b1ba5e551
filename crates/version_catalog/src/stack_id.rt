/// A stack of a catalogue: that of a replica of a shard of a vertical.
#[derive(Clone, Copy, Debug, PartialEq, Eq)]
pub struct StackId {
    pub vertical: u16,
    pub shard: u32,
    pub replica: u32,
}
