ghost use Rattle.std.specs.Prelude.{◌≡◌, ◌++◌, [], cond, codes, IfOk, OnOk};
ghost use Rattle.formula_ast.specs.Views.{tree_of};
ghost use Rattle.formula_ast.specs.Printing.{binding, guarded, exponent_text, print};

use crate::formula::Formula;
use itoa::Buffer;
use line_text::{Bytes, OutOfMemory};
use std::alloc::Global;

/// How tightly the formula binds as it is printed: 0 a sum, 1 a product, 2 a sign, 3 a power, 4 an atom.
fn binding(f: &Formula) -> u8
    ensures { result ≡ binding (tree_of f.now) }
{
    match f {
        Formula::Add(..) | Formula::Sub(..) => 0,
        Formula::Mul(..) | Formula::Div(..) => 1,
        Formula::Neg(_) => 2,
        Formula::Pow(..) => 3,
        Formula::Num(_) | Formula::Var(_) => 4,
    }
}

/// Opens a parenthesis where there is to be one.
fn open(out: &mut Bytes, guard: bool) -> Result<(), OutOfMemory>
    ensures { OnOk result (out.new ≡ out.old ++ cond guard (codes "(") []) }
{
    if guard {
        return out.push(b'(');
    }
    Ok(())
}

/// Closes the parenthesis where there is one.
fn close(out: &mut Bytes, guard: bool) -> Result<(), OutOfMemory>
    ensures { OnOk result (out.new ≡ out.old ++ cond guard (codes ")") []) }
{
    if guard {
        return out.push(b')');
    }
    Ok(())
}

/// Puts the exponent at the end.
fn write_exponent(out: &mut Bytes, exponent: i8) -> Result<(), OutOfMemory>
    ensures { OnOk result (out.new ≡ out.old ++ exponent_text exponent) }
{
    if exponent < 0 {
        out.push(b'-')?;
    }
    out.extend_from_slice(Buffer::new().format(exponent.unsigned_abs()).as_bytes())
}

/// Puts the text of the formula at the end, in parentheses where it binds less tightly than `least`.
#[tactic(auto, using(crate::proofs::Guards::guarded_parts))]
fn write(out: &mut Bytes, least: u8, f: &Formula) -> Result<(), OutOfMemory>
    ensures { OnOk result (out.new ≡ out.old ++ guarded least (tree_of f.now) (print (tree_of f.now))) }
{
    let guard = binding(f) < least;
    open(out, guard)?;
    match f {
        Formula::Num(number) => {
            number.put(out)?;
            close(out, guard)
        }
        Formula::Var(name) => {
            out.extend_from_slice(name.as_bytes())?;
            close(out, guard)
        }
        Formula::Neg(a) => {
            out.push(b'-')?;
            write(out, 2, a)?;
            close(out, guard)
        }
        Formula::Add(a, b) => {
            write(out, 0, a)?;
            out.extend_from_slice(b" + ")?;
            write(out, 1, b)?;
            close(out, guard)
        }
        Formula::Sub(a, b) => {
            write(out, 0, a)?;
            out.extend_from_slice(b" - ")?;
            write(out, 1, b)?;
            close(out, guard)
        }
        Formula::Mul(a, b) => {
            write(out, 1, a)?;
            out.extend_from_slice(b" * ")?;
            write(out, 2, b)?;
            close(out, guard)
        }
        Formula::Div(a, b) => {
            write(out, 1, a)?;
            out.extend_from_slice(b" / ")?;
            write(out, 2, b)?;
            close(out, guard)
        }
        Formula::Pow(a, exponent) => {
            write(out, 4, a)?;
            out.push(b'^')?;
            write_exponent(out, *exponent)?;
            close(out, guard)
        }
    }
}

/// Puts the text of the formula at the end.
///
/// # Errors
///
/// [`OutOfMemory`] where there is no memory for it.
pub fn put_formula(out: &mut Bytes, f: &Formula) -> Result<(), OutOfMemory>
    ensures { OnOk result (out.new ≡ out.old ++ print (tree_of f.now)) }
{
    write(out, 0, f)
}

/// The text of the formula.
///
/// # Errors
///
/// [`OutOfMemory`] where there is no memory for the text.
pub fn print_formula(alloc: Global, f: &Formula) -> Result<Bytes, OutOfMemory>
    ensures { IfOk result (λ text. text ≡ print (tree_of f.now)) }
{
    let mut text = Bytes::new(alloc)?;
    put_formula(&mut text, f)?;
    Ok(text)
}
