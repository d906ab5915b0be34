ghost use Rattle.std.specs.Prelude.{◌≡◌, pos};
ghost use Rattle.exact_law.specs.Degrees.{Degrees};
ghost use Rattle.table_g2.specs.Known.{Allows, AreDegrees, IsRange};
ghost use Rattle.table_g2.specs.Said.{IsSaid, said, said_of_range};

use crate::known::{Nu, TOLD_APART};
use crate::whole::whole_part;
use decimal18::Dec;
use std::cmp::Ordering;

/// What is said of effective degrees of freedom.
#[derive(Clone, Copy, Debug, PartialEq, Eq)]
pub enum DofSaid {
    /// There are none.
    None,
    /// They are no finite number.
    Infinite,
    /// There are at least 10^9, which are not told apart.
    Big,
    /// There are so many, cut off to a whole number.
    Whole(u64),
    /// What is known of them does not settle it.
    Unsettled,
}

// The whole part of both ends, where it is the same.
fn said_of_whole_parts(least: u64, most: u64) -> DofSaid
    ensures { result ≡ said_of_range Ordering.Less (pos least) (pos most) }
{
    if least == most {
        DofSaid::Whole(least)
    } else {
        DofSaid::Unsettled
    }
}

// What is said where they are known by a lower end, and maybe an upper one.
fn said_of_range(lo: Dec, hi: Option<Dec>) -> DofSaid
    requires { IsRange lo hi }
    ensures { result ≡ said (Nu.Range lo hi) }
{
    let Some(hi) = hi else {
        return DofSaid::Unsettled;
    };
    // Both are in canonical form, as their places tell: equal values are equal numbers.
    let limit = Dec::whole(TOLD_APART);
    let _canonical = (lo.places(), limit.places());
    match lo.cmp(&limit) {
        Ordering::Less => said_of_whole_parts(whole_part(lo), whole_part(hi)),
        Ordering::Equal => DofSaid::Big,
        Ordering::Greater => DofSaid::Unsettled,
    }
}

/// What is said of these effective degrees of freedom (JCGM 100:2008, G.4.1): their whole part, where both ends are
/// there and have the same one, and [`DofSaid::Big`] where the lower end is 10^9, from which on they are not told
/// apart.
pub fn said(nu: &Nu) -> DofSaid
    requires degrees { AreDegrees nu.now }
    ensures value { result ≡ said nu.now }
    ensures holds { (exact : Degrees) → Allows nu.now exact → IsSaid result exact }
{
    match nu {
        Nu::None => DofSaid::None,
        Nu::Infinite => DofSaid::Infinite,
        Nu::Range { lo, hi } => said_of_range(*lo, *hi),
    }
}
