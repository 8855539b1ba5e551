use crate::{Batch, Settings};

/// An entry of a catalogue's history: that it was opened, or a batch that was published.
#[derive(Drop)]
pub enum Entry {
    Opening(Settings),
    Published(Batch),
}
