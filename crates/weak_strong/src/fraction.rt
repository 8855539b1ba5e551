ghost use Rattle.std.specs.Prelude.{◌≡◌, ◌≤◌, ◌^◌};
ghost use Rattle.uni_base.specs.Walks.{share_of};

/// The share n/d of a number of hits: 1 <= n <= d <= 1000. It is not reduced.
#[derive(Clone, Copy)]
pub struct Fraction {
    pub n: u32,
    pub d: u32,
    ghost at_least_one: { 1 ≤ n },
    ghost at_most_whole: { n ≤ d },
    ghost small: { d ≤ 1000 },
}

impl Fraction {
    // The share of a number, rounded down.
    pub(crate) fn of(self, number: u128) -> u128
        requires { number ≤ 2 ^ 97 }
        ensures { result ≡ share_of number self.n self.d }
    {
        number * u128::from(self.n) / u128::from(self.d)
    }
}
