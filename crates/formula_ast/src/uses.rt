ghost use Rattle.std.specs.Prelude.{◌≡◌, Bool, List, ℕ, IfOk, OnOk, bytes_eq};
ghost use Rattle.formula_ast.specs.Views.{tree_of};
ghost use Rattle.formula_ast.specs.Trees.{uses, names_of};
ghost use Rattle.formula_ast.specs.NewNames.{has, with_new, with_all_new};

use crate::formula::Formula;
use crate::name::Name;
use crate::name_list::NameList;
use line_text::OutOfMemory;
use std::alloc::Global;

/// Whether the name is in the list.
fn contains(names: &[Name], name: &Name) -> bool
    ensures { result ≡ has names.now name.now }
{
    for other in names {
        if other == name {
            return true;
        }
    }
    false
}

/// Puts the name at the end unless the list has it.
fn push_new(names: &mut NameList, name: &Name) -> Result<(), OutOfMemory>
    ensures { OnOk result (names.new ≡ with_new names.old name.now) }
{
    if contains(names.as_slice(), name) {
        return Ok(());
    }
    names.push(*name)
}

/// Puts the names in the formula at the end, from the left, each unless the list has it.
#[tactic(auto, using(crate::proofs::NewNamesAll::with_all_parts))]
fn push_all_new(names: &mut NameList, f: &Formula) -> Result<(), OutOfMemory>
    ensures { OnOk result (names.new ≡ with_all_new names.old (uses (tree_of f.now))) }
{
    match f {
        Formula::Num(_) => Ok(()),
        Formula::Var(name) => push_new(names, name),
        Formula::Neg(a) | Formula::Pow(a, _) => push_all_new(names, a),
        Formula::Add(a, b) | Formula::Sub(a, b) | Formula::Mul(a, b) | Formula::Div(a, b) => {
            push_all_new(names, a)?;
            push_all_new(names, b)
        }
    }
}

/// The names in the formula, each once, in the order of first use.
///
/// # Errors
///
/// [`OutOfMemory`] where there is no memory for the list.
#[tactic(auto, using(crate::proofs::NewNamesAll::with_all_is_distinct))]
pub fn names(alloc: Global, f: &Formula) -> Result<NameList, OutOfMemory>
    ensures { IfOk result (λ names. names ≡ names_of (tree_of f.now)) }
{
    let mut names = NameList::new(alloc)?;
    push_all_new(&mut names, f)?;
    Ok(names)
}
