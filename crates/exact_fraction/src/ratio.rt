ghost use Rattle.std.specs.Prelude.{◌≡◌, ◌<◌, ◌↔◌, IsNone, IfSome};

use std::cmp::Ordering;

/// The exact number `num / den`, which is not reduced.
#[derive(Clone, Copy, Debug)]
pub struct Ratio {
    num: i128,
    den: u64,
    ghost positive: { 0 < den },
}

impl Ratio {
    ghost use Rattle.exact_fraction.specs.Number.{of_ℤ};
    ghost use Rattle.exact_fraction.specs.Ratio.{IsOrderOf, value_of_ratio};

    /// The number `num / den`, and `None` where `den` is 0.
    pub fn new(num: i128, den: u64) -> Option<Ratio>
        ensures zero { IsNone result ↔ (den ≡ 0) }
        ensures num { IfSome result (λ q. q.num ≡ num) }
        ensures den { IfSome result (λ q. q.den ≡ den) }
    {
        if den == 0 {
            return None;
        }
        Some(Ratio { num, den })
    }

    /// The number above the line, as [`Ratio::new`] was given it.
    pub fn num(self) -> i128
        ensures { result ≡ self.num }
    {
        self.num
    }

    /// The number below the line, as [`Ratio::new`] was given it: at least 1.
    pub fn den(self) -> u64
        ensures value { result ≡ self.den }
        ensures positive { 0 < result }
    {
        self.den
    }

    /// How the number compares with the whole number `b`.
    pub fn cmp_whole(self, b: i128) -> Ordering
        ensures { IsOrderOf result (value_of_ratio self) (of_ℤ b) }
    {
        // The product of `b` and `den` may have more than 128 bits.
        let den = i128::from(self.den);
        let whole_part = self.num.div_euclid(den);
        let remainder = self.num.rem_euclid(den);
        whole_part.cmp(&b).then(remainder.cmp(&0))
    }
}
