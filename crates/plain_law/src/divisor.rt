ghost use Rattle.std.specs.Prelude.{◌<◌};
ghost use Rattle.std.specs.Int.{IsGcd};

/// The greatest common divisor, by Euclid's algorithm; that of 0 and 0 is 0.
pub fn gcd(a: u128, b: u128) -> u128
    ensures greatest { IsGcd a b result }
    ensures positive { 0 < b → 0 < result }
{
    let mut divisor = a;
    let mut rest = b;
    while rest != 0 {
        let next = divisor % rest;
        divisor = rest;
        rest = next;
    }
    divisor
}
