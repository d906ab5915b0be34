ghost use Rattle.std.specs.Prelude.{◌≡◌, IfOk};
ghost use Rattle.covariance.specs.Groups.{IsRegular, group_of};
ghost use Rattle.eff_dof.specs.GroupParts.{HasDegrees};

use crate::{degrees, degrees_of_group};
use covariance::{Gradient, Group};
use decimal18::Dec;
use dep_graph::Id;
use fixed_interval::{Steps, point};
use std::alloc::Global;
use std::marker::Brand;
use std::process::Abort;
use std::sync::ledger::{Blank, Ledger};
use std::test::Fail;
use table_g2::{DofSaid, said};
use type_b::{Dof, Shape, are_degrees, check};

// An input with this standard uncertainty, which is known with so many degrees of freedom.
fn input(id: u64, u: i32, dof: u32) -> Result<Group, &'static str>
    ensures regular { IfOk result (λ g. IsRegular (group_of g)) }
    ensures degrees { IfOk result (λ g. HasDegrees (group_of g)) }
{
    let id = Id(id);
    let shape = Shape::Std { u: Dec::whole(u) };
    let dof = Dof::Whole(dof);
    if check(&shape).is_err() {
        return Err("no uncertainty");
    }
    if !are_degrees(&dof) {
        return Err("no degrees of freedom");
    }
    Ok(Group::Single { id, shape, dof })
}

// The sum of two inputs with the standard uncertainties 1 and 2, which are known with 5 and 10 degrees of freedom.
fn sum_of_two<L: Ledger>(rt: &impl Abort, alloc: Global, blank: Blank) -> Result<(), Fail>
    requires name { blank.name ≡ L.name }
    requires parts { blank.parts ≡ L.parts }
    requires one { L.parts ≡ 1 }
{
    let mut steps: Steps<L> = Steps::new(blank);
    let one = point(Dec::whole(1), &mut steps);
    let Ok(mut y) = Gradient::new(alloc) else {
        return Err("no memory")?;
    };
    if y.put(Id(1), one).is_err() || y.put(Id(2), one).is_err() {
        return Err("no memory")?;
    }
    let groups = [input(1, 1, 5)?, input(2, 2, 10)?];
    assert_eq!(rt; degrees_of_group(&groups[1]), Dof::Whole(10));
    let Ok(nu) = degrees(alloc, &groups, &y, &mut steps) else {
        return Err("no degrees")?;
    };
    assert_eq!(rt; said(&nu), DofSaid::Whole(13));
    Ok(())
}

#[test]
fn degrees_of_a_sum_are_found(rt: HostRuntime) -> Result<(), Fail> {
    sum_of_two::<Brand>(&rt, rt.alloc(), Blank::new(1))
}
