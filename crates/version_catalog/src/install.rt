use crate::StackId;

/// That a stack has one layer in place of those of its first publishes, so many.
#[derive(Clone, Copy, Debug, PartialEq, Eq)]
pub struct Install {
    pub stack: StackId,
    pub covers: u64,
}
