//! What holds of the quantities and the groups of a sheet. Each function has an empty body, and its clauses are a
//! theorem on the definitions.

ghost use Rattle.std.specs.Prelude.{◌≡◌, true, bytes_eq, codes, [], ◌∷◌, map, All, pos};
ghost use Rattle.exact_law.specs.Law.{AllGroups, IsSoundFor, PartTheInputs};
ghost use Rattle.decimal18.specs.Bound.{scaled};
ghost use Rattle.formula_ast.specs.Trees.{Variable};
ghost use Rattle.value_cache.specs.Quantities.{Input, Column, by_names};
ghost use Rattle.type_b.specs.declared.shape.Shape.TheVariants.{Std, Rect};
ghost use Rattle.type_b.specs.declared.shape.Dof.TheVariants.{Inf};
ghost use Rattle.value_cache.specs.Model.{model_of};
ghost use Rattle.covariance.specs.Groups.{Single, Pair, Columns, AreRegular};
ghost use Rattle.covariance.specs.Models.{AreGroupsOf};
ghost use Rattle.sheet_rows.specs.Rows.{Sheet};
ghost use Rattle.sheet_rows.specs.Sheets.{IsStanding, has_input};
ghost use Rattle.sheet_rows.specs.WorkedSheets.{named, whole};
ghost use Rattle.sheet_model.specs.Quantities.{quantities};
ghost use Rattle.sheet_model.specs.Groups.{inputs, groups, exact_groups};
ghost use Rattle.sheet_model.specs.Budgets.{IsEnclosed, group_names, named_groups, variances};
ghost use Rattle.sheet_model.specs.WorkedGroups.{mixed};

/// The groups of a sheet that stands part its inputs: each input is a member of one group, and stands once there, and
/// each member is an input. Each group is regular, so that its spans enclose what is exact, and sound: no variance is
/// below 0, and no covariance exceeds what its variances allow. And each quantity of the model has a name of its own, so
/// that they are groups of the model as `covariance` asks.
pub fn groups_part_the_inputs()
    ensures parted { (sheet : Sheet) → IsStanding sheet → PartTheInputs bytes_eq (inputs sheet) (exact_groups sheet) }
    ensures regular { (sheet : Sheet) → IsStanding sheet → AreRegular (groups sheet) }
    ensures sound { (sheet : Sheet) → IsStanding sheet → AllGroups (IsSoundFor bytes_eq (inputs sheet)) (exact_groups sheet) }
    ensures of_model { (sheet : Sheet) → IsStanding sheet → AreGroupsOf bytes_eq (model_of (quantities sheet)) (groups sheet) }
{}

/// What an uncertainty budget asks of a sheet: the inputs stand in their order (`inputs`), under names that the sheet has as
/// those of inputs (`there`), the span of the variance of each encloses the variance by the exact law, where the sheet stands
/// (`enclosed`), and the groups stand in their order (`groups`).
pub fn budgets_have_the_inputs_and_the_groups()
    ensures inputs { (sheet : Sheet) → map (λ i. i.name) (variances sheet) ≡ inputs sheet }
    ensures there { (sheet : Sheet) → All (λ i. has_input sheet i.name ≡ true) (variances sheet) }
    ensures enclosed { (sheet : Sheet) → IsStanding sheet → All (IsEnclosed sheet) (variances sheet) }
    ensures groups { (sheet : Sheet) → map (λ g. g.group) (named_groups sheet) ≡ groups sheet }
{}

/// The quantities of a sheet with the inputs A, B and C, of which P correlates A and C, with readings of D, with the
/// joint readings T of K and L, and with the formula Y: one for each input, for the readings, for each column and for
/// the formula, and none for the correlation.
pub fn worked_quantities()
    ensures { quantities mixed
        ≡ record { key = named 65; body = Input (whole 10) } ∷ record { key = named 66; body = Input (whole 10) }
        ∷ record { key = named 67; body = Input (whole 10) }
        ∷ record { key = named 68; body = Column ((whole 1 ∷ []) ∷ (whole 2 ∷ []) ∷ []) 0 }
        ∷ record { key = codes "T.K"; body = Column ((whole 1 ∷ whole 1 ∷ []) ∷ (whole 2 ∷ whole 2 ∷ []) ∷ []) 0 }
        ∷ record { key = codes "T.L"; body = Column ((whole 1 ∷ whole 1 ∷ []) ∷ (whole 2 ∷ whole 2 ∷ []) ∷ []) 1 }
        ∷ record { key = named 89; body = by_names (Variable (named 65)) } ∷ [] }
{}

/// The names in budgets of that sheet: of its inputs, and of the rows that make its groups, of which P makes the pair.
pub fn worked_names()
    ensures inputs { map (λ i. i.name) (variances mixed) ≡ named 65 ∷ named 66 ∷ named 67 ∷ named 68 ∷ codes "T.K" ∷ codes "T.L" ∷ [] }
    ensures groups { group_names mixed ≡ named 66 ∷ named 68 ∷ named 84 ∷ named 80 ∷ [] }
{}

/// The inputs and the groups of that sheet: a group for B, one for D, one for the columns of T, and one for the pair.
/// The formula Y has none.
pub fn worked_groups()
    ensures inputs { inputs mixed ≡ named 65 ∷ named 66 ∷ named 67 ∷ named 68 ∷ codes "T.K" ∷ codes "T.L" ∷ [] }
    ensures groups { groups mixed
        ≡ Single (named 66) (Rect (whole 1)) Inf
        ∷ Columns (named 68 ∷ []) ((whole 1 ∷ []) ∷ (whole 2 ∷ []) ∷ [])
        ∷ Columns (codes "T.K" ∷ codes "T.L" ∷ []) ((whole 1 ∷ whole 1 ∷ []) ∷ (whole 2 ∷ whole 2 ∷ []) ∷ [])
        ∷ Pair (named 65) (Std (whole 1)) (named 67) (Std (whole 2)) (scaled (pos 5) 1) ∷ [] }
{}
