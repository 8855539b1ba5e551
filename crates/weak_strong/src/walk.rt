ghost use Rattle.std.specs.Prelude.{◌≡◌};
ghost use Rattle.uni_base.specs.Walks.{Quota};
ghost use Rattle.weak_strong.specs.declared.rule.Rule.{Rule as Rules};
ghost use Rattle.weak_strong.specs.declared.rule.Rule.TheVariants.{Weak, Strong};
ghost use Rattle.weak_strong.specs.Marks.{quota_of, strong_quota, weak_quota};

use crate::{Fraction, Rule, WeakMark};

/// A walk, and what its operands are marked with.
pub trait Walk {
    /// The mark of an operand.
    type Mark: Copy;

    /// The rule of the walk.
    ghost rule: { Rules };

    /// What a mark asks.
    ghost quota: { Self.Mark → Quota };

    fn rule() -> Rule
        ensures { result ≡ rule };

    /// The mark of an operand that has one, as a weak walk has it.
    fn mark(mark: Self::Mark) -> Option<WeakMark>
        ensures { quota_of result ≡ quota mark };
}

/// The weak walk: each operand is marked with the hits that may lack it, or the share of them that has it.
pub struct WeakWalk;

/// The strong walk: an operand may be marked with the share of the hits that has it.
pub struct StrongWalk;

impl Walk for WeakWalk {
    type Mark = WeakMark;

    ghost rule = { Weak };

    ghost quota = { weak_quota };

    fn rule() -> Rule {
        Rule::Weak
    }

    fn mark(mark: WeakMark) -> Option<WeakMark> {
        Some(mark)
    }
}

impl Walk for StrongWalk {
    type Mark = Option<Fraction>;

    ghost rule = { Strong };

    ghost quota = { strong_quota };

    fn rule() -> Rule {
        Rule::Strong
    }

    fn mark(mark: Option<Fraction>) -> Option<WeakMark> {
        mark.map(WeakMark::Weight)
    }
}
