//! Worked formulas, as laws of the definitions: each reads off what is written for it.

ghost use Rattle.std.specs.Prelude.{◌≡◌, ℤ, pos, negsuc, codes, replicate, Result, Ok, Err};
ghost use Rattle.std.specs.List.{concat};
ghost use Rattle.decimal18.specs.Bound.{scaled};
ghost use Rattle.decimal18.specs.declared.literal.NumFault.TheVariants.{NumberRange};
ghost use Rattle.formula_ast.specs.Trees.{Tree, Number as Literal, Variable, Opposite, Joined, Raised};
ghost use Rattle.formula_ast.specs.Reading.{reading_of};
ghost use Rattle.formula_ast.specs.Printing.{print};
ghost use Rattle.formula_ast.specs.declared.token.Sign.TheVariants.{Plus, Minus, Times, Over};
ghost use Rattle.formula_ast.specs.declared.fault.FormulaFault.TheVariants.{Syntax, UnknownFunction, Number, BadPower, TooDeep, TooMany};

/// Texts that are formulas, and what they mean.
pub fn worked_readings()
    ensures third { reading_of (codes "1/3")
        ≡ Ok (Joined Over (Literal (scaled (pos 1) 0)) (Literal (scaled (pos 3) 0))) }
    ensures product { reading_of (codes "-(a+b)*c")
        ≡ Ok (Joined Times (Opposite (Joined Plus (Variable (codes "a")) (Variable (codes "b")))) (Variable (codes "c"))) }
    ensures difference { reading_of (codes "a-(b-c)")
        ≡ Ok (Joined Minus (Variable (codes "a")) (Joined Minus (Variable (codes "b")) (Variable (codes "c")))) }
    ensures to_the_left { reading_of (codes "a - b - c")
        ≡ Ok (Joined Minus (Joined Minus (Variable (codes "a")) (Variable (codes "b"))) (Variable (codes "c"))) }
    ensures powers { reading_of (codes "(a^2)^3") ≡ Ok (Raised (Raised (Variable (codes "a")) (pos 2)) (pos 3)) }
    ensures opposite_of_power { reading_of (codes "-a^2") ≡ Ok (Opposite (Raised (Variable (codes "a")) (pos 2))) }
    ensures column { reading_of (codes "t.x ^ -1") ≡ Ok (Raised (Variable (codes "t.x")) (negsuc 0)) }
    ensures number { reading_of (codes "2e1") ≡ Ok (Literal (scaled (pos 20) 0)) }
{}

/// Printed texts: parentheses stand only where the formula would be another without them.
pub fn worked_prints()
    ensures product { print (Joined Times (Opposite (Joined Plus (Variable (codes "a")) (Variable (codes "b")))) (Variable (codes "c")))
        ≡ codes "-(a + b) * c" }
    ensures difference { print (Joined Minus (Variable (codes "a")) (Joined Minus (Variable (codes "b")) (Variable (codes "c"))))
        ≡ codes "a - (b - c)" }
    ensures to_the_left { print (Joined Minus (Joined Minus (Variable (codes "a")) (Variable (codes "b"))) (Variable (codes "c")))
        ≡ codes "a - b - c" }
    ensures powers { print (Raised (Raised (Variable (codes "a")) (pos 2)) (negsuc 2)) ≡ codes "(a^2)^-3" }
    ensures opposite_of_power { print (Opposite (Raised (Variable (codes "a")) (pos 2))) ≡ codes "-a^2" }
    ensures number { print (Literal (scaled (pos 125) 2)) ≡ codes "1.25" }
{}

/// Texts that are refused, with the first token that breaks a rule.
pub fn worked_refusals()
    ensures function { reading_of (codes "sin(1)") ≡ Err (UnknownFunction 0) }
    ensures power { reading_of (codes "2^0") ≡ Err (BadPower 2) }
    ensures glued { reading_of (codes "2 + 3x") ≡ Err (Syntax 5) }
    ensures deep { reading_of (replicate 65 45) ≡ Err (TooDeep 64) }
    ensures many { reading_of (concat (replicate 129 (codes "a+"))) ≡ Err (TooMany 256) }
    ensures range { reading_of (codes "1e999") ≡ Err (Number NumberRange 0) }
    ensures empty { reading_of (codes "") ≡ Err (Syntax 0) }
    ensures blanks_at_the_end { reading_of (codes " 1 +  ") ≡ Err (Syntax 4) }
    ensures two_points { reading_of (codes "1 + a.b.c") ≡ Err (Syntax 4) }
{}
