ghost use Rattle.std.specs.Prelude.{◌≡◌, ◌*◌, ◌≤◌};
ghost use Rattle.fixed_interval.specs.Interval.{IsOrdered};
ghost use Rattle.type_b.specs.Shapes.{IsDegrees};
ghost use Rattle.eff_dof.specs.Parts.{AreOrdered, AreParts};
ghost use Rattle.eff_dof.specs.Degrees.{counted_degrees, degrees_down, least_degrees, lesser_of};

use crate::part::{Part, counts};
use decimal18::{Dec, div_down};
use fixed_interval::lesser;
use type_b::Dof;

// The square of a number of percent.
pub(crate) fn square(percent: u8) -> u16
    ensures { result ≡ percent * percent }
{
    percent as u16 * percent as u16
}

// The degrees of freedom rounded down, where they are finite.
fn degrees_down(dof: Dof) -> Option<Dec>
    requires { IsDegrees dof }
    ensures { result ≡ degrees_down dof }
{
    match dof {
        Dof::Inf => None,
        Dof::Whole(number) => Some(Dec::whole(number as i32)),
        Dof::Rel(percent) => div_down(Dec::whole(5000), Dec::whole(square(percent) as i32)),
    }
}

fn lesser_of(a: Option<Dec>, b: Option<Dec>) -> Option<Dec>
    ensures { result ≡ lesser_of a b }
{
    match (a, b) {
        (Some(a), Some(b)) => Some(lesser(a, b)),
        (Some(a), None) => Some(a),
        (None, b) => b,
    }
}

// The degrees of freedom of a part that counts, rounded down.
fn counted_degrees(part: &Part) -> Option<Dec>
    requires { IsDegrees part.now.dof }
    ensures value { result ≡ counted_degrees part.now }
    ensures ordered { IsOrdered part.now.variance }
{
    if counts(part) {
        degrees_down(part.dof)
    } else {
        None
    }
}

// The least degrees of freedom of the parts that count, rounded down.
pub(crate) fn least_degrees(parts: &[Part]) -> Option<Dec>
    requires { AreParts parts.now }
    ensures value { result ≡ least_degrees parts.now }
    ensures ordered { AreOrdered parts.now }
{
    let mut least = None;
    for part in parts {
        least = lesser_of(least, counted_degrees(part));
    }
    least
}
