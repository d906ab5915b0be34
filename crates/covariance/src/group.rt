ghost use Rattle.std.specs.Prelude.{◌≡◌, ◌<◌, ◌≤◌, ◌+◌, true, Ok, IfOk, length, get_or, pos};
ghost use Rattle.std.specs.Option.{ok_or};
ghost use Rattle.exact_fraction.specs.Number.{of_ℤ, neg_ℚ, ◌≤ℚ◌};
ghost use Rattle.decimal18.specs.Bound.{value_of};
ghost use Rattle.fixed_interval.specs.Interval.{Encloses};
ghost use Rattle.type_b.specs.Shapes.{checked};
ghost use Rattle.type_b.specs.Variances.{states_deviation};
ghost use Rattle.covariance.specs.Groups.{IsRegular, members, covariance_within, exact_within, group_of, pair_covariance_span};

use decimal18::Dec;
use dep_graph::{Id, IdList};
use fixed_interval::{Overflow, Span, Steps, mul, point};
use std::rc::Rc;
use std::sync::ledger::Ledger;
use type_a::Readings;
use type_b::{Dof, Shape, deviation, variance};

/// Inputs that are not independent of one another, as their uncertainties are stated, or one input alone. The
/// members of different groups are independent of one another.
#[derive(Drop)]
pub enum Group {
    /// An input that is independent of all others (JCGM 100:2008, 4.3).
    Single {
        /// The number of the input.
        id: Id,
        /// How its uncertainty is stated.
        shape: Shape,
        /// The degrees of freedom of its uncertainty.
        dof: Dof,
    },
    /// Two inputs with a stated correlation (5.2.2), whose degrees of freedom are infinite.
    Pair {
        /// The number of the one input.
        first: Id,
        /// How its standard deviation is stated.
        first_shape: Shape,
        /// The number of the other input.
        second: Id,
        /// How its standard deviation is stated.
        second_shape: Shape,
        /// Their correlation coefficient, from -1 to 1.
        coefficient: Dec,
    },
    /// Inputs by their joint readings (5.2.3, H.2). Readings of one input are of one column.
    Columns {
        /// The number of the input of each column.
        ids: IdList,
        /// The readings.
        readings: Rc<Readings>,
    },
}

// The span of the covariance of a pair.
#[tactic(auto, using(crate::proofs::Counting::deviation_steps))]
fn covariance_of_pair<L: Ledger>(
    first: &Shape,
    second: &Shape,
    coefficient: Dec,
    steps: &mut Steps<L>,
) -> Result<Span, Overflow>
    requires first { checked first.now ≡ Ok (record {}) }
    requires first_stated { states_deviation first.now ≡ true }
    requires second { checked second.now ≡ Ok (record {}) }
    requires second_stated { states_deviation second.now ≡ true }
    ensures span { result ≡ ok_or (pair_covariance_span first.now second.now coefficient) (record {}) }
    ensures ticks { steps.new ≤ steps.old + 9 }
{
    let coefficient = point(coefficient, steps);
    let first = deviation(first, steps)?;
    let product = mul(&coefficient, &first, steps)?;
    let second = deviation(second, steps)?;
    mul(&product, &second, steps)
}

impl Group {
    /// How many members there are.
    pub fn count(&self) -> usize
        ensures { result ≡ length (members (group_of self.now)) }
    {
        match self {
            Group::Single { .. } => 1,
            Group::Pair { .. } => 2,
            Group::Columns { ids, .. } => ids.as_slice().len(),
        }
    }

    /// The member at this place, counted from 0.
    pub fn member(&self, at: usize) -> Id
        requires { at < length (members (group_of self.now)) }
        ensures { result ≡ get_or (members (group_of self.now)) at 0 }
    {
        match self {
            Group::Single { id, .. } => *id,
            Group::Pair { first, second, .. } => { if at == 0 { *first } else { *second } }
            Group::Columns { ids, .. } => ids.as_slice()[at],
        }
    }

    // The span of the covariance of the members at two places, and of the variance of one where they are the same.
    #[tactic(auto, using(crate::proofs::Counting::variance_steps))]
    pub(crate) fn covariance<L: Ledger>(
        &self,
        i: usize,
        j: usize,
        steps: &mut Steps<L>,
    ) -> Result<Span, Overflow>
        requires regular { IsRegular (group_of self.now) }
        requires first { i < length (members (group_of self.now)) }
        requires second { j < length (members (group_of self.now)) }
        ensures span { result ≡ ok_or (covariance_within (group_of self.now) i j) (record {}) }
        ensures ticks { steps.new ≤ steps.old + 9 }
    {
        match self {
            Group::Single { shape, .. } => variance(shape, steps),
            Group::Pair {
                first_shape,
                second_shape,
                coefficient,
                ..
            } => {
                if i != j {
                    return covariance_of_pair(first_shape, second_shape, *coefficient, steps);
                }
                if i == 0 {
                    return variance(first_shape, steps);
                }
                variance(second_shape, steps)
            }
            Group::Columns { readings, .. } => Ok(readings.joint(i, j, steps)),
        }
    }
}

/// The span of the variance of the member at this place, counted from 0, in the square of its unit: as its
/// uncertainty is stated (JCGM 100:2008, 4.3), or that of the mean of its readings (4.2.3). It ticks at most nine times.
///
/// # Errors
///
/// [`Overflow`] exactly where an operation on the way leaves the range of bounds.
pub fn member_variance<L: Ledger>(
    group: &Group,
    at: usize,
    steps: &mut Steps<L>,
) -> Result<Span, Overflow>
    requires regular { IsRegular (group_of group.now) }
    requires there { at < length (members (group_of group.now)) }
    ensures span { result ≡ ok_or (covariance_within (group_of group.now) at at) (record {}) }
    ensures encloses { IfOk result (λ s. Encloses s (exact_within (group_of group.now) at at)) }
    ensures ticks { steps.new ≤ steps.old + 9 }
{
    group.covariance(at, at, steps)
}
