ghost use Rattle.std.specs.Prelude.{◌≡◌, IfOk};
ghost use Rattle.covariance.specs.Groups.{IsRegular, AreRegular, group_of};

use crate::{Gradient, Group, GroupList, covariance, variance};
use decimal18::Dec;
use dep_graph::Id;
use fixed_interval::{Overflow, Span, Steps, point};
use std::alloc::Global;
use std::marker::Brand;
use std::process::Abort;
use std::sync::ledger::{Blank, Ledger};
use std::test::Fail;
use type_b::{Dof, Shape, check};

// The input 1 with this standard uncertainty.
fn single(u: i32) -> Result<Group, &'static str>
    ensures { IfOk result (λ g. IsRegular (group_of g)) }
{
    let shape = Shape::Std { u: Dec::whole(u) };
    let Ok(()) = check(&shape) else {
        return Err("no uncertainty");
    };
    Ok(Group::Single {
        id: Id(1),
        shape,
        dof: Dof::Inf,
    })
}

// The inputs 1 and 2, each with the standard uncertainty 1, with the correlation coefficient 1.
fn together() -> Group
    ensures { IsRegular (group_of result) }
{
    let one = Dec::whole(1);
    Group::Pair {
        first: Id(1),
        first_shape: Shape::Std { u: one },
        second: Id(2),
        second_shape: Shape::Std { u: one },
        coefficient: one,
    }
}

fn alone(alloc: Global, group: Group) -> Result<GroupList, Fail>
    requires { IsRegular (group_of group) }
    ensures { IfOk result AreRegular }
{
    let mut groups = GroupList::new(alloc)?;
    groups.push(group)?;
    Ok(groups)
}

// The gradient with these sensitivities.
fn gradient<L: Ledger>(
    alloc: Global,
    slopes: &[(u64, i32)],
    steps: &mut Steps<L>,
) -> Result<Gradient, Fail> {
    let mut gradient = Gradient::new(alloc)?;
    for (id, slope) in slopes {
        gradient.put(Id(*id), point(Dec::whole(*slope), steps))?;
    }
    Ok(gradient)
}

// The coefficients of both ends, which have no places.
fn whole_ends(span: Result<Span, Overflow>) -> Option<(i64, i64)> {
    let Ok(span) = span else {
        return None;
    };
    if span.lo().places() > 0 || span.hi().places() > 0 {
        return None;
    }
    Some((span.lo().coefficient(), span.hi().coefficient()))
}

// Of A = 2 X and B = 3 X, where X has the standard uncertainty 1: the variance of A, and the covariance.
fn shared<L: Ledger>(rt: &impl Abort, alloc: Global, blank: Blank) -> Result<(), Fail>
    requires name { blank.name ≡ L.name }
    requires parts { blank.parts ≡ L.parts }
    requires one { L.parts ≡ 1 }
{
    let mut steps: Steps<L> = Steps::new(blank);
    let groups = alone(alloc, single(1)?)?;
    let a = gradient(alloc, &[(1, 2)], &mut steps)?;
    let b = gradient(alloc, &[(1, 3)], &mut steps)?;
    let variance = variance(groups.as_slice(), &a, &mut steps);
    let covariance = covariance(groups.as_slice(), &a, &b, &mut steps);
    assert_eq!(rt; whole_ends(variance), Some((4, 4)));
    assert_eq!(rt; whole_ends(covariance), Some((6, 6)));
    Ok(())
}

// The variances of the sum and of the difference of two inputs that are fully correlated.
fn correlated<L: Ledger>(rt: &impl Abort, alloc: Global, blank: Blank) -> Result<(), Fail>
    requires name { blank.name ≡ L.name }
    requires parts { blank.parts ≡ L.parts }
    requires one { L.parts ≡ 1 }
{
    let mut steps: Steps<L> = Steps::new(blank);
    let groups = alone(alloc, together())?;
    let sum = gradient(alloc, &[(1, 1), (2, 1)], &mut steps)?;
    let difference = gradient(alloc, &[(1, 1), (2, -1)], &mut steps)?;
    let sum = variance(groups.as_slice(), &sum, &mut steps);
    let difference = variance(groups.as_slice(), &difference, &mut steps);
    assert_eq!(rt; whole_ends(sum), Some((4, 4)));
    assert_eq!(rt; whole_ends(difference), Some((0, 0)));
    Ok(())
}

// The variances by an input whose variance is 10^18, which no bound is: with the sensitivity 0 to it, and without any.
fn great<L: Ledger>(rt: &impl Abort, alloc: Global, blank: Blank) -> Result<(), Fail>
    requires name { blank.name ≡ L.name }
    requires parts { blank.parts ≡ L.parts }
    requires one { L.parts ≡ 1 }
{
    let mut steps: Steps<L> = Steps::new(blank);
    let groups = alone(alloc, single(1_000_000_000)?)?;
    let zero = gradient(alloc, &[(1, 0)], &mut steps)?;
    let none = gradient(alloc, &[(2, 5)], &mut steps)?;
    let zero = variance(groups.as_slice(), &zero, &mut steps);
    let none = variance(groups.as_slice(), &none, &mut steps);
    assert_eq!(rt; whole_ends(zero), None);
    assert_eq!(rt; whole_ends(none), Some((0, 0)));
    Ok(())
}

#[test]
fn shared_inputs_count_in_both(rt: HostRuntime) -> Result<(), Fail> {
    shared::<Brand>(&rt, rt.alloc(), Blank::new(1))
}

#[test]
fn full_correlation_cancels(rt: HostRuntime) -> Result<(), Fail> {
    correlated::<Brand>(&rt, rt.alloc(), Blank::new(1))
}

#[test]
fn overflow_comes_also_with_the_sensitivity_0(rt: HostRuntime) -> Result<(), Fail> {
    great::<Brand>(&rt, rt.alloc(), Blank::new(1))
}
