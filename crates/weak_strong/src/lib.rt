//! Cursors over what several cursors have, which keep quotas: along the keys in rank order, each is kept
//! or refused by what was kept before it.
#![tactic(auto)]

mod fraction;
mod mark;
mod quota;
mod rule;
mod walk;
mod walking;

pub use fraction::Fraction;
pub use mark::WeakMark;
pub use quota::QuotaCursor;
pub use rule::Rule;
pub use walk::{StrongWalk, Walk, WeakWalk};

/// A cursor over the keys that a weak walk keeps of its operands.
pub type WeakAndCursor<C> = QuotaCursor<WeakWalk, C>;

/// A cursor over the keys that a strong walk keeps of its operands.
pub type StrongOrCursor<C> = QuotaCursor<StrongWalk, C>;

#[cfg(test)]
mod tests;
