ghost use Rattle.std.specs.Prelude.{◌≡◌, Ok, [], ◌∷◌, ◌++◌, map, IfOk, OnOk, OnErr};
ghost use Rattle.type_b.specs.Shapes.{checked};
ghost use Rattle.type_b.specs.Variances.{variance_span};
ghost use Rattle.sheet_rows.specs.Rows.{row_of, sheet_of, Joint};
ghost use Rattle.sheet_rows.specs.Regular.{IsRegular};
ghost use Rattle.sheet_rows.specs.Sheets.{IsStanding};
ghost use Rattle.sheet_model.specs.Budgets.{column_variances, row_variances, variances};

use fixed_interval::{Span, Steps};
use formula_ast::Name;
use line_text::OutOfMemory;
use sheet_rows::{Row, column_name};
use std::alloc::Global;
use std::marker::Model;
use std::rc::Rc;
use std::sync::ledger::Ledger;
use type_a::Readings;
use type_b::{Shape, variance};

/// An input of a sheet with its variance.
#[derive(Clone, Copy, Debug)]
pub struct InputVariance {
    /// The name of the input.
    pub name: Name,
    /// The interval of the variance of its estimate, in the square of its unit. There is none where an operation for it
    /// leaves the range of bounds.
    pub variance: Option<Span>,
}

/// A list of inputs with their variances.
#[derive(Drop, Debug)]
pub struct VarianceList {
    vec: Vec<InputVariance>,
}

impl Model for VarianceList {
    ghost use Rattle.std.specs.Prelude.{List};
    ghost use Rattle.sheet_model.specs.declared.variances.InputVariance.{InputVariance};

    ghost Value = { List InputVariance };

    ghost view = { λ inputs. inputs.vec.items };
}

impl VarianceList {
    /// The list without inputs. It takes no memory yet, so this is always `Ok`.
    ///
    /// # Errors
    ///
    /// None: the result has the form of the other calls that take an allocator.
    fn new(alloc: Global) -> Result<VarianceList, OutOfMemory>
        ensures { result ≡ Ok [] }
    {
        Ok(VarianceList {
            vec: Vec::new(alloc),
        })
    }

    /// Puts an input at the end.
    ///
    /// # Errors
    ///
    /// [`OutOfMemory`] where there is no memory for it; the list stays as it was.
    fn push(&mut self, name: Name, variance: Option<Span>) -> Result<(), OutOfMemory>
        ensures ok { OnOk result (self.new ≡ self.old ++ record { name = name; variance = variance } ∷ []) }
        ensures err { OnErr result (self.new ≡ self.old) }
    {
        self.vec.push(InputVariance { name, variance })?;
        Ok(())
    }

    /// The inputs in order.
    pub fn as_slice(&self) -> &[InputVariance]
        ensures { result.now ≡ self.now }
    {
        self.vec.as_slice()
    }
}

/// The inputs of the sheet of these rows with their variances (JCGM 100:2008, 4.2.3, 4.3), in the order of the rows. It goes
/// through the rows once, and through the columns of each table.
///
/// # Errors
///
/// [`OutOfMemory`] where there is no memory for them.
pub fn input_variances<L: Ledger>(
    alloc: Global,
    rows: &[Rc<Row>],
    steps: &mut Steps<L>,
) -> Result<VarianceList, OutOfMemory>
    requires { IsStanding (sheet_of (map (λ row. row_of row.value) rows.now)) }
    ensures { IfOk result (λ found. found ≡ variances (sheet_of (map (λ row. row_of row.value) rows.now))) }
{
    let mut found = VarianceList::new(alloc)?;
    for row in rows {
        add_row(row, &mut found, steps)?;
    }
    Ok(found)
}

// Puts the inputs of a row at the end.
fn add_row<L: Ledger>(
    row: &Row,
    found: &mut VarianceList,
    steps: &mut Steps<L>,
) -> Result<(), OutOfMemory>
    requires { IsRegular (row_of row.now) }
    ensures { OnOk result (found.new ≡ found.old ++ row_variances (row_of row.now)) }
{
    match row {
        Row::Given { name, shape, .. } => found.push(*name, stated(shape, steps)),
        Row::Readings { name, readings } => found.push(*name, Some(readings.joint(0, 0, steps))),
        Row::Joint {
            name,
            columns,
            readings,
        } => add_columns(name, columns.as_slice(), readings, found, steps),
        Row::Correlation { .. } | Row::Formula { .. } | Row::Tolerance { .. } => Ok(()),
    }
}

// Puts the columns of a table at the end.
fn add_columns<L: Ledger>(
    table: &Name,
    columns: &[Name],
    readings: &Rc<Readings>,
    found: &mut VarianceList,
    steps: &mut Steps<L>,
) -> Result<(), OutOfMemory>
    requires { IsRegular (Joint table.now columns.now readings.now.value) }
    ensures { OnOk result (found.new ≡ found.old ++ column_variances table.now readings.now.value 0 columns.now) }
{
    for (place, column) in columns.iter().enumerate() {
        let variance = readings.joint(place, place, steps);
        found.push(column_name(table, column), Some(variance))?;
    }
    Ok(())
}

// The interval of the variance of an input whose uncertainty is stated, where there is one.
fn stated<L: Ledger>(shape: &Shape, steps: &mut Steps<L>) -> Option<Span>
    requires { checked shape.now ≡ Ok (record {}) }
    ensures { result ≡ variance_span shape.now }
{
    match variance(shape, steps) {
        Ok(span) => Some(span),
        Err(_) => None,
    }
}
