ghost use Rattle.std.specs.Prelude.{◌≡◌};

use crate::{Form, Rule, Said, statement};
use decimal18::Dec;
use fixed_interval::{Overflow, Steps, point};
use std::marker::Brand;
use std::process::Abort;
use std::sync::ledger::{Blank, Ledger};
use std::test::Fail;

// The statement on an estimate with the variance 1 and the factor 2, by limits 0 and 20 and a guard band of one expanded
// uncertainty, which is 2.
fn stated<L: Ledger>(estimate: i32, form: Form, steps: &mut Steps<L>) -> Result<Said, Overflow> {
    let rule = Rule {
        lower: Some(Dec::whole(0)),
        upper: Some(Dec::whole(20)),
        guard: Dec::whole(1),
        form,
    };
    let y = point(Dec::whole(estimate), steps);
    let v = point(Dec::whole(1), steps);
    let k = point(Dec::whole(2), steps);
    statement(&y, &v, &k, &rule, steps)
}

fn statements<L: Ledger>(rt: &impl Abort, blank: Blank) -> Result<(), Fail>
    requires name { blank.name ≡ L.name }
    requires parts { blank.parts ≡ L.parts }
    requires one { L.parts ≡ 1 }
{
    let mut steps: Steps<L> = Steps::new(blank);
    assert_eq!(rt; stated(2, Form::Four, &mut steps), Ok(Said::Pass));
    assert_eq!(rt;
        stated(20, Form::Four, &mut steps),
        Ok(Said::ConditionalPass)
    );
    assert_eq!(rt;
        stated(22, Form::Four, &mut steps),
        Ok(Said::ConditionalFail)
    );
    assert_eq!(rt; stated(-3, Form::Four, &mut steps), Ok(Said::Fail));
    assert_eq!(rt; stated(19, Form::Binary, &mut steps), Ok(Said::Fail));
    assert_eq!(rt;
        stated(2_000_000_000, Form::Four, &mut steps),
        Err(Overflow)
    );
    Ok(())
}

#[test]
fn statements_are_decided(rt: HostRuntime) -> Result<(), Fail> {
    statements::<Brand>(&rt, Blank::new(1))
}
