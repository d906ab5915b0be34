ghost use Rattle.std.specs.Prelude.{◌≡◌, map, find, Some};
ghost use Rattle.std.specs.List.{list_any};
ghost use Rattle.std.specs.Option.{option_map};
ghost use Rattle.formula_ast.specs.Trees.{uses};
ghost use Rattle.formula_ast.specs.Views.{tree_of};
ghost use Rattle.sheet_rows.specs.Rows.{row_of, name_of, used_names};
ghost use Rattle.sheet_edits.specs.Verdicts.{is_user_of};
ghost use Rattle.sheet_edits.specs.Places.{is_given, loses, is_left_by};

use formula_ast::{Formula, Name};
use sheet_rows::Row;
use std::rc::Rc;

/// Whether there is a row of which the name is a quantity.
fn is_given(row: Option<&Row>, name: &Name) -> bool
    ensures { result ≡ is_given (option_map (λ row. row_of row.now) row.entry) name.now }
{
    match row {
        Some(row) => row.gives(name),
        None => false,
    }
}

/// Whether the name is a quantity of the old row, and none of the one in its place, if there is one.
fn loses(old: &Row, new: Option<&Row>, name: &Name) -> bool
    ensures { result ≡ loses (row_of old.now) (option_map (λ row. row_of row.now) new.entry) name.now }
{
    old.gives(name) && !is_given(new, name)
}

/// Whether such a name stands in the formula.
#[tactic(auto, using(crate::proofs::Mentions::used_by_both))]
fn mentions_lost(f: &Formula, old: &Row, new: Option<&Row>) -> bool
    ensures { result ≡ list_any (loses (row_of old.now) (option_map (λ row. row_of row.now) new.entry)) (uses (tree_of f.now)) }
{
    match f {
        Formula::Num(_) => false,
        Formula::Var(name) => loses(old, new, name),
        Formula::Neg(a) | Formula::Pow(a, _) => mentions_lost(a, old, new),
        Formula::Add(a, b) | Formula::Sub(a, b) | Formula::Mul(a, b) | Formula::Div(a, b) => {
            mentions_lost(a, old, new) || mentions_lost(b, old, new)
        }
    }
}

/// Whether the other row uses such a name.
fn uses_lost(other: &Row, old: &Row, new: Option<&Row>) -> bool
    ensures { result ≡ list_any (loses (row_of old.now) (option_map (λ row. row_of row.now) new.entry)) (used_names (row_of other.now)) }
{
    match other {
        Row::Given { .. } | Row::Readings { .. } | Row::Joint { .. } | Row::Tolerance { .. } =>
            false,
        Row::Correlation { first, second, .. } => {
            loses(old, new, first) || loses(old, new, second)
        }
        Row::Formula { formula, .. } => mentions_lost(formula, old, new),
    }
}

/// Whether the other row uses a quantity of the row.
fn is_user_of(row: &Row, other: &Row) -> bool
    ensures { result ≡ is_user_of (row_of row.now) (row_of other.now) }
{
    uses_lost(other, row, None)
}

/// The first of the rows that uses a quantity of the row.
pub(crate) fn first_user(rows: &[Rc<Row>], row: &Row) -> Option<Name>
    ensures { result ≡ option_map name_of (find (is_user_of (row_of row.now)) (map (λ row. row_of row.value) rows.now)) }
{
    for other in rows {
        if is_user_of(row, other) {
            return Some(*other.name());
        }
    }
    None
}

/// Whether the other row uses what the old row gave and `row` gives no more, or correlates the name of `row`, which may
/// be correlated no more.
fn is_left_by(old: &Row, row: &Row, other: &Row) -> bool
    ensures { result ≡ is_left_by (row_of old.now) (row_of row.now) (row_of other.now) }
{
    let own = row.name();
    other.name() != own
        && (uses_lost(other, old, Some(row)) || !row.is_correlatable() && other.correlates(own))
}

/// The first of the rows, but that of the same name, that would be left without the old row in the place of `row`.
pub(crate) fn first_left_by(rows: &[Rc<Row>], old: &Row, row: &Row) -> Option<Name>
    ensures { result ≡ option_map name_of (find (is_left_by (row_of old.now) (row_of row.now)) (map (λ row. row_of row.value) rows.now)) }
{
    for other in rows {
        if is_left_by(old, row, other) {
            return Some(*other.name());
        }
    }
    None
}
