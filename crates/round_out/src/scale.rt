ghost use Rattle.std.specs.Prelude.{◌≡◌, ◌<◌, ◌≤◌, ◌*◌, ◌^◌, ◌+◌, ◌/◌, suc, ◌+ℤ◌, pos, negsuc, ◌≤ℤ◌, ◌<ℤ◌};
ghost use Rattle.exact_fraction.specs.Number.{ℚ};
ghost use Rattle.exact_law.specs.Rounding.{IsTwoDigits};
ghost use Rattle.decimal18.specs.Bound.{value_of};
ghost use Rattle.round_out.specs.Scales.{IsPlace, IsScale};

use decimal18::Dec;

// 400 times a variance, as `size / unit` squares of the place of the exponent: in twentieths of that place the halves
// and the tenths at which the digits change are whole.
#[derive(Clone, Copy)]
struct Scale {
    size: u128,
    unit: u128,
    exponent: i8,
}

/// The two significant digits of a root: `m`, from 10 to 99, in units of 10^`e`.
#[derive(Clone, Copy)]
pub struct TwoDigits {
    pub m: u8,
    pub e: i8,
}

// The coefficient of a number above 0.
fn size_of(v: Dec) -> u128
    requires positive { pos 0 <ℤ v.coefficient }
    ensures value { v.coefficient ≡ pos result }
    ensures least { 1 ≤ result }
    ensures most { result < 10 ^ 18 }
{
    v.coefficient().unsigned_abs() as u128
}

// The place to the right of all digits of the root.
fn exponent_of(places: u8) -> i8
    requires { places ≤ 36 }
    ensures value { (result +ℤ pos (suc ((places + 1) / 2))) ≡ pos 0 }
    ensures low { negsuc 18 ≤ℤ result }
    ensures high { result ≤ℤ negsuc 0 }
{
    -1 - ((places + 1) / 2) as i8
}

// The variance at the place to the right of all digits of its root.
fn scale_of(v: Dec) -> Scale
    requires positive { pos 0 <ℤ v.coefficient }
    ensures scale { IsScale (value_of v) result }
    ensures unit { result.unit ≡ 1 }
    ensures least { 199 * 199 ≤ result.size }
    ensures most { result.size < 10 ^ 24 }
    ensures low { negsuc 18 ≤ℤ result.exponent }
    ensures high { result.exponent ≤ℤ negsuc 0 }
{
    let size = size_of(v) * 40_000;
    let exponent = exponent_of(v.places());
    if v.places() % 2 == 1 {
        return Scale {
            size: size * 10,
            unit: 1,
            exponent,
        };
    }
    Scale {
        size,
        unit: 1,
        exponent,
    }
}

// The exponent of the place so many places to the left.
fn further(exponent: i8, turns: u8) -> i8
    requires low { negsuc 18 ≤ℤ exponent }
    requires high { exponent ≤ℤ negsuc 0 }
    requires few { turns ≤ 9 }
    ensures { result ≡ exponent +ℤ pos turns }
{
    exponent + (turns as i8)
}

// The place at which the root has two digits.
fn place_of(scale: Scale) -> Scale
    requires unit { scale.unit ≡ 1 }
    requires least { 199 * 199 ≤ scale.size }
    requires most { scale.size < 10 ^ 24 }
    requires low { negsuc 18 ≤ℤ scale.exponent }
    requires high { scale.exponent ≤ℤ negsuc 0 }
    ensures place { (v : ℚ) → IsScale v scale → IsPlace v result }
    ensures low { 199 * 199 * result.unit ≤ result.size }
    ensures high { result.size < 1990 * 1990 * result.unit }
    ensures most { result.size < 10 ^ 24 }
    ensures rightmost { negsuc 18 ≤ℤ result.exponent }
    ensures leftmost { result.exponent ≤ℤ pos 8 }
{
    let mut unit = 1_u128;
    let mut turns = 0_u8;
    while 1990 * 1990 * unit <= scale.size {
        unit *= 100;
        turns += 1;
    }
    let exponent = further(scale.exponent, turns);
    Scale {
        size: scale.size,
        unit,
        exponent,
    }
}

// The digits at the place.
fn digits_at(place: Scale) -> u8
    requires low { 199 * 199 * place.unit ≤ place.size }
    requires high { place.size < 1990 * 1990 * place.unit }
    requires most { place.size < 10 ^ 24 }
    ensures { (v : ℚ) → IsPlace v place → IsTwoDigits v result place.exponent }
{
    for m in 10..99_u8 {
        let root = 20 * m as u128 + 10;
        if place.size < root * root * place.unit {
            return m;
        }
    }
    99
}

/// The two digits of the root of a variance above 0.
pub fn digits_of(v: Dec) -> TwoDigits
    requires positive { pos 0 <ℤ v.coefficient }
    ensures digits { IsTwoDigits (value_of v) result.m result.e }
    ensures rightmost { negsuc 18 ≤ℤ result.e }
    ensures leftmost { result.e ≤ℤ pos 8 }
{
    let place = place_of(scale_of(v));
    TwoDigits {
        m: digits_at(place),
        e: place.exponent,
    }
}
