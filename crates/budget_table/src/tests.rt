ghost use Rattle.std.specs.Prelude.{◌≡◌};

use crate::{BudgetFault, BudgetInput, BudgetLine, GroupPart, budget};
use decimal18::Dec;
use fixed_interval::{Span, Steps, point};
use formula_ast::Name;
use std::alloc::Global;
use std::marker::Brand;
use std::process::Abort;
use std::sync::ledger::{Blank, Ledger};
use std::test::Fail;

// An input of 5 with this variance and sensitivity.
fn input<L: Ledger>(
    name: &[u8],
    variance: i32,
    sens: i32,
    steps: &mut Steps<L>,
) -> Result<BudgetInput, &'static str> {
    let Some(name) = Name::new(name) else {
        return Err("no name");
    };
    Ok(BudgetInput {
        name,
        value: point(Dec::whole(5), steps),
        variance: point(Dec::whole(variance), steps),
        sens: point(Dec::whole(sens), steps),
    })
}

// What the line of an input says that it brings, and what that of a group says that this brings.
fn brought(line: &BudgetLine) -> Span {
    match line {
        BudgetLine::Input { own, .. } => *own,
        BudgetLine::Group { variance, .. } => *variance,
    }
}

// The budgets of two inputs, of 4 times 9 and of 1 times 4, with a group of both, and of one that brings too much.
fn budgets<L: Ledger>(rt: &impl Abort, alloc: Global, blank: Blank) -> Result<(), Fail>
    requires name { blank.name ≡ L.name }
    requires parts { blank.parts ≡ L.parts }
    requires one { L.parts ≡ 1 }
{
    let mut steps: Steps<L> = Steps::new(blank);
    let first = input(b"X", 4, -3, &mut steps)?;
    let inputs = [first, input(b"Z", 1, 2, &mut steps)?];
    let wanted = point(Dec::whole(36), &mut steps);
    let variance = point(Dec::whole(40), &mut steps);
    let groups = [GroupPart {
        name: first.name,
        variance,
    }];
    let Ok(lines) = budget(alloc, &inputs, &groups, &mut steps) else {
        return Err("no budget")?;
    };
    let lines = lines.as_slice();
    assert_eq!(rt; lines.len(), 3);
    assert_eq!(rt; brought(&lines[0]), wanted);
    assert_eq!(rt; brought(&lines[2]), variance);
    let great = [input(b"X", 2_000_000_000, 2_000_000_000, &mut steps)?];
    let overflow = budget(alloc, &great, &groups, &mut steps);
    assert_eq!(rt; overflow.err(), Some(BudgetFault::Overflow));
    Ok(())
}

#[test]
fn budgets_are_found(rt: HostRuntime) -> Result<(), Fail> {
    budgets::<Brand>(&rt, rt.alloc(), Blank::new(1))
}
