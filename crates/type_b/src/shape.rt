ghost use Rattle.std.specs.Prelude.{◌≡◌};
ghost use Rattle.type_b.specs.Shapes.{are_degrees, checked, has_negative, has_other_level, has_wrong_beta, has_zero_factor, is_above_one, is_negative, is_zero};

use decimal18::Dec;

/// How the uncertainty of an input is stated (JCGM 100:2008, 4.3). All numbers but `k`, the level and
/// `beta`, which have no unit, are in the unit of the estimate.
#[derive(Clone, Copy, Debug, PartialEq, Eq)]
pub enum Shape {
    /// Without uncertainty.
    Exact,
    /// By its standard uncertainty (4.1.5).
    Std {
        /// The standard uncertainty.
        u: Dec,
    },
    /// By an expanded uncertainty and its coverage factor (4.3.3).
    Exp {
        /// The expanded uncertainty.
        expanded: Dec,
        /// The coverage factor.
        k: Dec,
    },
    /// By the half-width of an interval about the estimate and its level of confidence, where the
    /// distribution is normal (4.3.4).
    Norm {
        /// The half-width.
        half: Dec,
        /// The level of confidence in percent: 90, 95 or 99.
        level: u8,
    },
    /// By a rectangular distribution (4.3.7).
    Rect {
        /// The half-width of its base.
        half: Dec,
    },
    /// By a triangular distribution (4.3.9).
    Tri {
        /// The half-width of its base.
        half: Dec,
    },
    /// By a symmetric trapezoidal distribution (4.3.9).
    Trap {
        /// The half-width of its base.
        half: Dec,
        /// The width of its top as a share of its base, from 0 to 1.
        beta: Dec,
    },
    /// By a U-shaped distribution, the arc sine distribution (H.1.3.4).
    Arcsine {
        /// The half-width of its base.
        half: Dec,
    },
}

/// The degrees of freedom of an input's uncertainty (JCGM 100:2008, G.4.2).
#[derive(Clone, Copy, Debug, PartialEq, Eq)]
pub enum Dof {
    /// Infinitely many: the uncertainty is taken as known.
    Inf,
    /// So many, from 1 to [`MOST_DEGREES`].
    Whole(u32),
    /// Those of an uncertainty that is itself uncertain by so many percent, from 1 to
    /// [`MOST_PERCENT`].
    Rel(u8),
}

/// The most degrees of freedom that are stated as a number.
pub const MOST_DEGREES: u32 = 1_000_000;

/// The most percent by which an uncertainty is stated to be uncertain.
pub const MOST_PERCENT: u8 = 70;

/// Whether these are degrees of freedom that an input may have.
pub fn are_degrees(dof: &Dof) -> bool
    ensures { result ≡ are_degrees dof.now }
{
    match dof {
        Dof::Inf => true,
        Dof::Whole(number) => (1..=MOST_DEGREES).contains(number),
        Dof::Rel(percent) => (1..=MOST_PERCENT).contains(percent),
    }
}

/// Why a shape states no uncertainty.
#[derive(Clone, Copy, Debug, PartialEq, Eq)]
pub enum ShapeFault {
    /// An uncertainty, a half-width or a coverage factor is below 0.
    Negative,
    /// The coverage factor is 0.
    ZeroK,
    /// The top of a trapezoid is narrower than nothing or wider than its base.
    Beta,
    /// The level of confidence is none of those with a factor.
    Level,
}

fn is_negative(number: Dec) -> bool
    ensures { result ≡ is_negative number }
{
    number.coefficient() < 0
}

fn is_zero(number: Dec) -> bool
    ensures { result ≡ is_zero number }
{
    number.coefficient() == 0
}

fn is_above_one(number: Dec) -> bool
    ensures { result ≡ is_above_one number }
{
    // Both are in canonical form, as their places tell: equal values are equal numbers.
    let one = Dec::whole(1);
    let _canonical = (number.places(), one.places());
    number > one
}

fn has_negative(shape: &Shape) -> bool
    ensures { result ≡ has_negative shape.now }
{
    match shape {
        Shape::Exact => false,
        Shape::Std { u } => is_negative(*u),
        Shape::Exp { expanded, k } => is_negative(*expanded) || is_negative(*k),
        Shape::Norm { half, .. }
        | Shape::Rect { half }
        | Shape::Tri { half }
        | Shape::Trap { half, .. }
        | Shape::Arcsine { half } => is_negative(*half),
    }
}

fn has_zero_factor(shape: &Shape) -> bool
    ensures { result ≡ has_zero_factor shape.now }
{
    match shape {
        Shape::Exp { k, .. } => is_zero(*k),
        _ => false,
    }
}

fn has_wrong_beta(shape: &Shape) -> bool
    ensures { result ≡ has_wrong_beta shape.now }
{
    match shape {
        Shape::Trap { beta, .. } => is_negative(*beta) || is_above_one(*beta),
        _ => false,
    }
}

fn has_other_level(shape: &Shape) -> bool
    ensures { result ≡ has_other_level shape.now }
{
    match shape {
        Shape::Norm { level, .. } => !(*level == 90 || *level == 95 || *level == 99),
        _ => false,
    }
}

/// Whether the shape states an uncertainty.
///
/// # Errors
///
/// The first of these that applies: [`ShapeFault::Negative`] where a standard or expanded uncertainty,
/// a half-width or a coverage factor is below 0, [`ShapeFault::ZeroK`] where the coverage factor is 0,
/// [`ShapeFault::Beta`] where `beta` is below 0 or above 1, and [`ShapeFault::Level`] where the level
/// of confidence is not 90, 95 or 99 percent.
pub fn check(shape: &Shape) -> Result<(), ShapeFault>
    ensures { result ≡ checked shape.now }
{
    if has_negative(shape) {
        return Err(ShapeFault::Negative);
    }
    if has_zero_factor(shape) {
        return Err(ShapeFault::ZeroK);
    }
    if has_wrong_beta(shape) {
        return Err(ShapeFault::Beta);
    }
    if has_other_level(shape) {
        return Err(ShapeFault::Level);
    }
    Ok(())
}
