ghost use Rattle.std.specs.Prelude.{◌≡◌, [], ◌∷◌, codes, None, Some, pos, negsuc};
ghost use Rattle.exact_fraction.specs.Number.{of_ℤ};
ghost use Rattle.budget_table.specs.declared.line.BudgetLine.TheVariants.{Input, Group};
ghost use Rattle.budget_table.specs.Budgets.{EnclosesOwn, budget_lines, contribution, group_line};
ghost use Rattle.budget_table.specs.WorkedBudgets.{first, from_to, great, known, second, steep, whole, wide};

/// Budgets of no input; of one, whose variance is 4, with the sensitivity -3; of a second one besides, with a variance
/// from 4 to 5 and a sensitivity from -3 to 2, whose square is from 0 to 9; and of two groups.
pub fn worked_budgets()
    ensures none { budget_lines [] [] ≡ Some [] }
    ensures one { budget_lines (known ∷ []) []
        ≡ Some (Input (codes "X") (whole (pos 5)) (whole (pos 4)) (whole (negsuc 2)) (whole (pos 36)) ∷ []) }
    ensures groups { budget_lines [] (first ∷ second ∷ [])
        ≡ Some (Group (codes "G") (whole (pos 36)) ∷ Group (codes "H") (from_to (pos 0) (pos 45)) ∷ []) }
    ensures two { budget_lines (known ∷ wide ∷ []) (first ∷ second ∷ [])
        ≡ Some (Input (codes "X") (whole (pos 5)) (whole (pos 4)) (whole (negsuc 2)) (whole (pos 36))
        ∷ Input (codes "Z") (from_to (pos 1) (pos 2)) (from_to (pos 4) (pos 5)) (from_to (negsuc 2) (pos 2)) (from_to (pos 0) (pos 45))
        ∷ Group (codes "G") (whole (pos 36)) ∷ Group (codes "H") (from_to (pos 0) (pos 45)) ∷ []) }
{}

/// There is no budget where what an input brings, or the square of a sensitivity, leaves the range of bounds, also where
/// that is of the last input or the variance is 0.
pub fn worked_overflows()
    ensures product { budget_lines (great ∷ []) [] ≡ None }
    ensures square { budget_lines (steep ∷ []) [] ≡ None }
    ensures first { budget_lines (great ∷ known ∷ []) (first ∷ []) ≡ None }
    ensures last { budget_lines (known ∷ steep ∷ []) (first ∷ []) ≡ None }
{}

/// What an input with the sensitivity -3 and the variance 4 brings is 36, which the point 36 encloses and the point -12 does
/// not; of the line of a group nothing is asked.
pub fn worked_lines()
    ensures exact { contribution (of_ℤ (negsuc 2)) (of_ℤ (pos 4)) ≡ of_ℤ (pos 36) }
    ensures enclosed { EnclosesOwn (Input (codes "X") (whole (pos 5)) (whole (pos 4)) (whole (negsuc 2)) (whole (pos 36))) }
    ensures without_square { ¬ EnclosesOwn (Input (codes "X") (whole (pos 5)) (whole (pos 4)) (whole (negsuc 2)) (whole (negsuc 11))) }
    ensures group { EnclosesOwn (group_line first) }
{}
