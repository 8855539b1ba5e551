ghost use Rattle.std.specs.Prelude.{◌≡◌, ◌<◌, ◌≤◌, ◌^◌, ◌-◌, ◌+◌, map};
ghost use Rattle.uni_base.specs.WalkLaws.{is_bare};
ghost use Rattle.weak_strong.specs.Marks.{counter_of, quota_of};
ghost use Rattle.weak_strong.specs.Rules.{allows_by, counted, needs_all};
ghost use Rattle.weak_strong.specs.declared.rule.Rule.TheVariants.{Weak};

use crate::WeakMark;

/// Which walk is walked.
#[derive(Clone, Copy)]
pub enum Rule {
    /// Every operand has each hit, as far as its mark does not let it be absent.
    Weak,
    /// Some operand has each hit, and those with a weight have their share.
    Strong,
}

// What is left of an operand's mark, and how many of the kept keys it has.
#[derive(Clone, Copy)]
pub(crate) struct Counter {
    pub(crate) mark: Option<WeakMark>,
    pub(crate) own: u128,
}

impl Rule {
    // Whether an operand lets a key be kept, which it has or not; `next` keys are kept with it.
    pub(crate) fn allows(self, next: u128, has: bool, counter: &Counter) -> bool
        requires next { next ≤ 2 ^ 97 }
        requires own { counter.now.own < next }
        ensures { result ≡ allows_by self (next - 1) has (quota_of counter.now.mark) counter.now.own }
    {
        match self {
            Rule::Weak => {
                has || match counter.mark {
                    None => false,
                    Some(WeakMark::Hits(left)) => left > 0,
                    Some(WeakMark::Weight(fraction)) => fraction.of(next) <= counter.own,
                }
            }
            Rule::Strong => {
                let own = counter.own + u128::from(has);
                match counter.mark {
                    None | Some(WeakMark::Hits(_)) => true,
                    Some(WeakMark::Weight(fraction)) => fraction.of(next) <= own,
                }
            }
        }
    }
}

impl Rule {
    // Whether what is left of the walk is what all operands have: it is weak, and no operand may be without a
    // key any more.
    pub(crate) fn needs_all(self, counters: &[Counter]) -> bool
        ensures { result ≡ needs_all self (map counter_of counters.now) }
    {
        match self {
            Rule::Weak => all_bare(counters),
            Rule::Strong => false,
        }
    }
}

fn all_bare(counters: &[Counter]) -> bool
    ensures { result ≡ needs_all Weak (map counter_of counters.now) }
{
    for counter in counters {
        if !counter.is_bare() {
            return false;
        }
    }
    true
}

impl Counter {
    // Whether no key may be kept any more that the operand lacks, in a weak walk.
    pub(crate) fn is_bare(&self) -> bool
        ensures { result ≡ is_bare (quota_of self.now.mark) }
    {
        match self.mark {
            None => true,
            Some(WeakMark::Hits(left)) => left == 0,
            Some(WeakMark::Weight(_)) => false,
        }
    }

    // The counter once a key is kept, which the operand has or not.
    pub(crate) fn count(self, has: bool) -> Counter
        requires { self.own < 2 ^ 96 }
        ensures { counter_of result ≡ counted has (counter_of self) }
    {
        if has {
            return Counter {
                mark: self.mark,
                own: self.own + 1,
            };
        }
        let mark = match self.mark {
            Some(WeakMark::Hits(left)) => Some(WeakMark::Hits(left.saturating_sub(1))),
            other => other,
        };
        Counter {
            mark,
            own: self.own,
        }
    }
}
