ghost use Rattle.std.specs.Prelude.{◌≡◌};

use crate::{
    Dof, MOST_DEGREES, MOST_PERCENT, Shape, ShapeFault, are_degrees, check, deviation,
    states_deviation, variance,
};
use decimal18::Dec;
use fixed_interval::{Overflow, Span, Steps};
use std::marker::Brand;
use std::process::Abort;
use std::sync::ledger::{Blank, Ledger};
use std::test::Fail;

fn dec(coefficient: i64, places: u8) -> Result<Dec, &'static str> {
    Dec::new(coefficient, places).ok_or("not a bound")
}

#[test]
fn shapes_are_checked(rt: HostRuntime) -> Result<(), Fail> {
    let (zero, one, tiny, below) = (dec(0, 0)?, dec(1, 0)?, dec(1, 36)?, dec(-1, 36)?);
    let shapes = [
        (Shape::Exact, Ok(())),
        (Shape::Std { u: zero }, Ok(())),
        (Shape::Std { u: tiny }, Ok(())),
        (Shape::Std { u: below }, Err(ShapeFault::Negative)),
        (
            Shape::Exp {
                expanded: zero,
                k: tiny,
            },
            Ok(()),
        ),
        (
            Shape::Exp {
                expanded: one,
                k: zero,
            },
            Err(ShapeFault::ZeroK),
        ),
        (
            Shape::Exp {
                expanded: one,
                k: below,
            },
            Err(ShapeFault::Negative),
        ),
        (
            Shape::Exp {
                expanded: below,
                k: zero,
            },
            Err(ShapeFault::Negative),
        ),
        (
            Shape::Norm {
                half: one,
                level: 90,
            },
            Ok(()),
        ),
        (
            Shape::Norm {
                half: one,
                level: 95,
            },
            Ok(()),
        ),
        (
            Shape::Norm {
                half: one,
                level: 99,
            },
            Ok(()),
        ),
        (
            Shape::Norm {
                half: one,
                level: 2,
            },
            Err(ShapeFault::Level),
        ),
        (
            Shape::Norm {
                half: one,
                level: 96,
            },
            Err(ShapeFault::Level),
        ),
        (
            Shape::Norm {
                half: below,
                level: 2,
            },
            Err(ShapeFault::Negative),
        ),
        (Shape::Rect { half: zero }, Ok(())),
        (Shape::Rect { half: below }, Err(ShapeFault::Negative)),
        (Shape::Tri { half: below }, Err(ShapeFault::Negative)),
        (Shape::Arcsine { half: below }, Err(ShapeFault::Negative)),
        (
            Shape::Trap {
                half: one,
                beta: zero,
            },
            Ok(()),
        ),
        (
            Shape::Trap {
                half: one,
                beta: one,
            },
            Ok(()),
        ),
        (
            Shape::Trap {
                half: one,
                beta: dec(11, 1)?,
            },
            Err(ShapeFault::Beta),
        ),
        (
            Shape::Trap {
                half: one,
                beta: dec(-1, 1)?,
            },
            Err(ShapeFault::Beta),
        ),
        (
            Shape::Trap {
                half: below,
                beta: dec(11, 1)?,
            },
            Err(ShapeFault::Negative),
        ),
    ];
    for (shape, answer) in shapes {
        assert_eq!(rt; check(&shape), answer);
    }
    Ok(())
}

#[test]
fn degrees_have_limits(rt: HostRuntime) {
    assert!(rt; are_degrees(&Dof::Inf));
    assert!(rt; !are_degrees(&Dof::Whole(0)));
    assert!(rt; are_degrees(&Dof::Whole(1)));
    assert!(rt; are_degrees(&Dof::Whole(MOST_DEGREES)));
    assert!(rt; !are_degrees(&Dof::Whole(MOST_DEGREES + 1)));
    assert!(rt; !are_degrees(&Dof::Rel(0)));
    assert!(rt; are_degrees(&Dof::Rel(MOST_PERCENT)));
    assert!(rt; !are_degrees(&Dof::Rel(MOST_PERCENT + 1)));
}

fn std(u: Dec) -> Shape {
    Shape::Std { u }
}

fn exp(expanded: Dec, k: Dec) -> Shape {
    Shape::Exp { expanded, k }
}

fn norm(half: Dec, level: u8) -> Shape {
    Shape::Norm { half, level }
}

fn rect(half: Dec) -> Shape {
    Shape::Rect { half }
}

fn trap(half: Dec, beta: Dec) -> Shape {
    Shape::Trap { half, beta }
}

fn arcsine(half: Dec) -> Shape {
    Shape::Arcsine { half }
}

// The coefficients and the places of the ends of a span.
type Ends = ((i64, u8), (i64, u8));

fn ends_of(span: &Span) -> Ends {
    let (lo, hi) = (span.lo(), span.hi());
    (
        (lo.coefficient(), lo.places()),
        (hi.coefficient(), hi.places()),
    )
}

fn variance_of<L: Ledger>(
    shape: Shape,
    steps: &mut Steps<L>,
) -> Result<Result<Span, Overflow>, &'static str> {
    if check(&shape).is_err() {
        return Err("a shape that states no uncertainty");
    }
    Ok(variance(&shape, steps))
}

// Found by exact fractions, by the operations in their order, with the ends rounded outwards to eighteen
// digits and at most thirty-six places.
fn variances<L: Ledger>(rt: &impl Abort, blank: Blank) -> Result<(), Fail>
    requires name { blank.name ≡ L.name }
    requires parts { blank.parts ≡ L.parts }
    requires one { L.parts ≡ 1 }
{
    let one = dec(1, 0)?;
    let tri = Shape::Tri { half: dec(7, 1)? };
    let variances = [
        (Shape::Exact, ((0, 0), (0, 0))),
        (std(dec(995, 3)?), ((990_025, 6), (990_025, 6))),
        (
            std(dec(1_000_000_001, 18)?),
            ((1_000_000_002, 27), (100_000_000_200_000_001, 35)),
        ),
        (std(dec(1, 36)?), ((0, 0), (1, 36))),
        (exp(dec(5, 2)?, dec(2, 0)?), ((625, 6), (625, 6))),
        (
            exp(one, dec(3, 0)?),
            ((11_111_111_111_111_111, 17), (111_111_111_111_111_112, 18)),
        ),
        (
            exp(dec(3, 1)?, dec(7, 5)?),
            ((183_673_469_387_755_101, 10), (183_673_469_387_755_103, 10)),
        ),
        (
            norm(one, 90),
            ((371_802_498_512_790_005, 18), (371_802_498_512_790_007, 18)),
        ),
        (
            norm(one, 95),
            ((260_308_204_914_618_908, 18), (26_030_820_491_461_891, 17)),
        ),
        (
            norm(one, 99),
            ((150_231_356_288_684_573, 18), (150_231_356_288_684_575, 18)),
        ),
        (
            rect(dec(5, 2)?),
            ((833_333_333_333_333_333, 21), (833_333_333_333_333_334, 21)),
        ),
        (rect(dec(1, 36)?), ((0, 0), (1, 36))),
        (
            tri,
            ((816_666_666_666_666_666, 19), (816_666_666_666_666_667, 19)),
        ),
        (
            trap(dec(5, 1)?, dec(7, 1)?),
            ((620_833_333_333_333_333, 19), (620_833_333_333_333_334, 19)),
        ),
        (
            trap(one, dec(123_456_789_123_456_789, 18)?),
            ((169_206_929_796_778_945, 18), (169_206_929_796_778_947, 18)),
        ),
        (trap(dec(3, 1)?, dec(0, 0)?), ((15, 3), (15, 3))),
        (trap(dec(3, 1)?, one), ((3, 2), (3, 2))),
        (arcsine(dec(5, 1)?), ((125, 3), (125, 3))),
        (
            arcsine(dec(100_000_000_000_000_001, 17)?),
            ((50_000_000_000_000_001, 17), (500_000_000_000_000_015, 18)),
        ),
    ];
    let mut steps: Steps<L> = Steps::new(blank);
    for (shape, ends) in variances {
        assert_eq!(rt;
            variance_of(shape, &mut steps)?.map(|span| ends_of(&span)),
            Ok(ends)
        );
    }
    Ok(())
}

#[test]
fn variances_of_shapes(rt: HostRuntime) -> Result<(), Fail> {
    variances::<Brand>(&rt, Blank::new(1))
}

// The last three leave the range on their way only: their variances are in it.
fn overflows<L: Ledger>(rt: &impl Abort, blank: Blank) -> Result<(), Fail>
    requires name { blank.name ≡ L.name }
    requires parts { blank.parts ≡ L.parts }
    requires one { L.parts ≡ 1 }
{
    let (one, large, huge) = (
        dec(1, 0)?,
        dec(1_000_000_000, 0)?,
        dec(100_000_000_000_000_000, 0)?,
    );
    let shapes = [
        std(large),
        exp(large, one),
        exp(huge, dec(1, 1)?),
        arcsine(large),
        rect(large),
        trap(dec(999_999_999, 0)?, one),
    ];
    let mut steps: Steps<L> = Steps::new(blank);
    for shape in shapes {
        assert_eq!(rt; variance_of(shape, &mut steps)?, Err(Overflow));
    }
    Ok(())
}

#[test]
fn variances_out_of_range(rt: HostRuntime) -> Result<(), Fail> {
    overflows::<Brand>(&rt, Blank::new(1))
}

fn deviations<L: Ledger>(rt: &impl Abort, blank: Blank) -> Result<(), Fail>
    requires name { blank.name ≡ L.name }
    requires parts { blank.parts ≡ L.parts }
    requires one { L.parts ≡ 1 }
{
    let one = dec(1, 0)?;
    let huge = dec(100_000_000_000_000_000, 0)?;
    let deviations = [
        (std(dec(995, 3)?), Ok(((995, 3), (995, 3)))),
        (
            exp(one, dec(3, 0)?),
            Ok(((333_333_333_333_333_333, 18), (333_333_333_333_333_334, 18))),
        ),
        (norm(dec(49, 1)?, 95), Ok(((25, 1), (25, 1)))),
        (exp(huge, dec(1, 1)?), Err(Overflow)),
    ];
    let mut steps: Steps<L> = Steps::new(blank);
    for (shape, answer) in deviations {
        if check(&shape).is_err() || !states_deviation(&shape) {
            return Err("a shape that states no standard deviation")?;
        }
        assert_eq!(rt;
            deviation(&shape, &mut steps).map(|span| ends_of(&span)),
            answer
        );
    }
    Ok(())
}

#[test]
fn deviations_of_shapes(rt: HostRuntime) -> Result<(), Fail> {
    deviations::<Brand>(&rt, Blank::new(1))
}

#[test]
fn shapes_without_a_deviation(rt: HostRuntime) -> Result<(), Fail> {
    let one = dec(1, 0)?;
    let tri = Shape::Tri { half: one };
    for shape in [Shape::Exact, rect(one), tri, trap(one, one), arcsine(one)] {
        assert!(rt; !states_deviation(&shape));
    }
    Ok(())
}
