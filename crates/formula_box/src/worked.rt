//! Worked formulas, as laws of the definitions: each reads off what is written for it.

ghost use Rattle.std.specs.Prelude.{◌≡◌, pos, negsuc, codes, bytes_eq, if◌then◌else◌, None, Some, Ok, Err};
ghost use Rattle.decimal18.specs.Bound.{scaled};
ghost use Rattle.fixed_interval.specs.Interval.{point_span};
ghost use Rattle.fixed_interval.specs.declared.faults.ArithFault.TheVariants.{ZeroDivisor, Overflow};
ghost use Rattle.formula_ast.specs.Trees.{Number, Variable, Opposite, Joined, Raised};
ghost use Rattle.formula_ast.specs.declared.token.Sign.TheVariants.{Plus, Minus, Times, Over};
ghost use Rattle.formula_box.specs.Values.{span_of};
ghost use Rattle.formula_box.specs.Slopes.{partial_of};
ghost use Rattle.formula_box.specs.declared.fault.EvalFault.TheVariants.{Arith, NoValue};

/// The spans of `1/3`, of `(-2)^3`, and of `1/X` where X is the point 10^-10.
pub fn worked_values()
    ensures third { span_of (λ n. None) (Joined Over (Number (scaled (pos 1) 0)) (Number (scaled (pos 3) 0)))
        ≡ Ok (record { lo = scaled (pos 333333333333333333) 18; hi = scaled (pos 333333333333333334) 18 }) }
    ensures cube { span_of (λ n. None) (Raised (Opposite (Number (scaled (pos 2) 0))) (pos 3))
        ≡ Ok (point_span (scaled (negsuc 7) 0)) }
    ensures inverse { span_of (λ n. Some (point_span (scaled (pos 1) 10))) (Joined Over (Number (scaled (pos 1) 0)) (Variable (codes "X")))
        ≡ Ok (point_span (scaled (pos 10000000000) 0)) }
{}

/// The derivatives by X of `X * X` and `X^2` where X is the span from 2 to 3, of `1/(X - 5)` where it is
/// the point 6, and of `1/X` where it is the point 10^-10: there the value is in range and the derivative is not.
pub fn worked_derivatives()
    ensures product { partial_of (λ n. Some (record { lo = scaled (pos 2) 0; hi = scaled (pos 3) 0 })) (codes "X")
        (Joined Times (Variable (codes "X")) (Variable (codes "X")))
        ≡ Ok (record { lo = scaled (pos 4) 0; hi = scaled (pos 6) 0 }) }
    ensures square { partial_of (λ n. Some (record { lo = scaled (pos 2) 0; hi = scaled (pos 3) 0 })) (codes "X")
        (Raised (Variable (codes "X")) (pos 2))
        ≡ Ok (record { lo = scaled (pos 4) 0; hi = scaled (pos 6) 0 }) }
    ensures quotient { partial_of (λ n. Some (point_span (scaled (pos 6) 0))) (codes "X")
        (Joined Over (Number (scaled (pos 1) 0)) (Joined Minus (Variable (codes "X")) (Number (scaled (pos 5) 0))))
        ≡ Ok (point_span (scaled (negsuc 0) 0)) }
    ensures steep { partial_of (λ n. Some (point_span (scaled (pos 1) 10))) (codes "X")
        (Joined Over (Number (scaled (pos 1) 0)) (Variable (codes "X")))
        ≡ Err (Arith Overflow) }
{}

/// The faults of `10^9 * 10^9`, of `1/(X - 5)` where X is the point 5, and of both in either order.
pub fn worked_faults()
    ensures overflow { span_of (λ n. None) (Joined Times (Raised (Number (scaled (pos 10) 0)) (pos 9)) (Raised (Number (scaled (pos 10) 0)) (pos 9)))
        ≡ Err (Arith Overflow) }
    ensures zero_divisor { span_of (λ n. Some (point_span (scaled (pos 5) 0)))
        (Joined Over (Number (scaled (pos 1) 0)) (Joined Minus (Variable (codes "X")) (Number (scaled (pos 5) 0))))
        ≡ Err (Arith ZeroDivisor) }
    ensures zero_divisor_first { span_of (λ n. Some (point_span (scaled (pos 5) 0)))
        (Joined Plus (Joined Over (Number (scaled (pos 1) 0)) (Joined Minus (Variable (codes "X")) (Number (scaled (pos 5) 0))))
        (Joined Times (Raised (Number (scaled (pos 10) 0)) (pos 9)) (Raised (Number (scaled (pos 10) 0)) (pos 9))))
        ≡ Err (Arith ZeroDivisor) }
    ensures overflow_first { span_of (λ n. Some (point_span (scaled (pos 5) 0)))
        (Joined Plus (Joined Times (Raised (Number (scaled (pos 10) 0)) (pos 9)) (Raised (Number (scaled (pos 10) 0)) (pos 9)))
        (Joined Over (Number (scaled (pos 1) 0)) (Joined Minus (Variable (codes "X")) (Number (scaled (pos 5) 0)))))
        ≡ Err (Arith Overflow) }
    ensures of_the_value { partial_of (λ n. Some (point_span (scaled (pos 5) 0))) (codes "X")
        (Joined Over (Number (scaled (pos 1) 0)) (Joined Minus (Variable (codes "X")) (Number (scaled (pos 5) 0))))
        ≡ Err (Arith ZeroDivisor) }
{}

/// The faults of `X + X * Y` and `Y + X * Y` where only X has a span, which is the point 5: uses of names
/// are counted from 0 from the left.
pub fn worked_uses()
    ensures third { span_of (λ n. if bytes_eq (codes "X") n then Some (point_span (scaled (pos 5) 0)) else None)
        (Joined Plus (Variable (codes "X")) (Joined Times (Variable (codes "X")) (Variable (codes "Y"))))
        ≡ Err (NoValue 2) }
    ensures first { span_of (λ n. if bytes_eq (codes "X") n then Some (point_span (scaled (pos 5) 0)) else None)
        (Joined Plus (Variable (codes "Y")) (Joined Times (Variable (codes "X")) (Variable (codes "Y"))))
        ≡ Err (NoValue 0) }
    ensures of_the_value { partial_of (λ n. if bytes_eq (codes "X") n then Some (point_span (scaled (pos 5) 0)) else None) (codes "X")
        (Joined Plus (Variable (codes "X")) (Joined Times (Variable (codes "X")) (Variable (codes "Y"))))
        ≡ Err (NoValue 2) }
{}
