use crate::Fraction;

/// What an operand of a weak-and has to keep.
#[derive(Clone, Copy)]
pub enum WeakMark {
    /// So many hits may lack it.
    Hits(u32),
    /// At least this share of the hits has it.
    Weight(Fraction),
}
