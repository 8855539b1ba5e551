//! Cursors over what several cursors have: the keys that all of them have, that some of them has, or
//! that one has and another lacks.
#![tactic(auto)]

mod and;
mod difference;
mod leap;
mod operands;
mod operator;
mod or;

pub use and::AndCursor;
pub use difference::DifferenceCursor;
pub use operator::OperatorCursor;
pub use or::OrCursor;
