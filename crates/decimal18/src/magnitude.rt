ghost use Rattle.std.specs.Prelude.{◌≡◌, ◌*◌, ◌^◌, ◌<◌};
ghost use Rattle.decimal18.specs.Digits.{IsWithoutZeros, HasFewZeros};

/// A number without its sign: `digits / 10^places`.
#[derive(Clone, Copy, Debug, PartialEq, Eq)]
pub struct Magnitude {
    pub digits: u64,
    pub places: u32,
}

impl Magnitude {
    /// The same number without the zeros at the end of the digits after the point.
    #[inline(always)]
    pub fn without_zeros(self) -> Magnitude
        ensures same { IsWithoutZeros self.digits self.places result.digits result.places }
        ensures few { HasFewZeros result.digits result.places 1 }
    {
        if self.places == 0 {
            return self;
        }
        // An odd number has none, and this is found first.
        if self.digits % 2 != 0 {
            return self;
        }
        if self.digits % 10 != 0 {
            return self;
        }
        if self.digits == 0 {
            return Magnitude {
                digits: 0,
                places: 0,
            };
        }
        self.without_last_zeros()
    }

    // The same where there are some.
    fn without_last_zeros(self) -> Magnitude
        requires { 0 < self.digits }
        ensures same { IsWithoutZeros self.digits self.places result.digits result.places }
        ensures few { HasFewZeros result.digits result.places 1 }
    {
        let number = self.without_many_zeros();
        let number = number.shortened(2, 100);
        number.shortened(1, 10)
    }

    // With at most three of them.
    #[inline(always)]
    fn without_many_zeros(self) -> Magnitude
        requires { 0 < self.digits }
        ensures positive { 0 < result.digits }
        ensures same { IsWithoutZeros self.digits self.places result.digits result.places }
        ensures few { HasFewZeros result.digits result.places 4 }
    {
        if self.digits % 10_000 != 0 {
            return self;
        }
        // 64 bits hold fewer than 32 zeros, so each step leaves fewer than it tried to take.
        let number = self.shortened(16, 10_000_000_000_000_000);
        let number = number.shortened(8, 100_000_000);
        number.shortened(4, 10_000)
    }

    // Without so many zeros after the point, where there are as many; `power` is 1 with these zeros.
    #[inline(always)]
    fn shortened(self, zeros: u32, power: u64) -> Magnitude
        requires positive { 0 < self.digits }
        requires power { power ≡ 10 ^ zeros }
        ensures positive { 0 < result.digits }
        ensures same { IsWithoutZeros self.digits self.places result.digits result.places }
        ensures few { HasFewZeros self.digits self.places (2 * zeros) → HasFewZeros result.digits result.places zeros }
    {
        if zeros <= self.places && self.digits % power == 0 {
            Magnitude {
                digits: self.digits / power,
                places: self.places - zeros,
            }
        } else {
            self
        }
    }
}
