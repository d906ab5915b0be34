ghost use Rattle.std.specs.Prelude.{◌≡◌, ◌+◌, ◌≤◌, true, [], ◌∷◌, length, bytes_eq, IfOk};
ghost use Rattle.std.specs.List.{list_any};
ghost use Rattle.formula_ast.specs.Names.{is_plain_name};
ghost use Rattle.formula_ast.specs.Trees.{distinct};
ghost use Rattle.sheet_rows.specs.Rows.{row_of, name_of, names_used, column_name, column_names, gives, gives_input, correlates, is_correlatable, row_rule};

use decimal18::Dec;
use formula_ast::{Formula, Name, NameList, names};
use guard_band::Rule;
use line_text::OutOfMemory;
use std::alloc::Global;
use std::rc::Rc;
use type_a::Readings;
use type_b::{Dof, Shape, states_deviation};

/// A row of a sheet.
#[derive(Drop, Debug)]
pub enum Row {
    /// An input with a stated uncertainty (JCGM 100:2008, 4.1.3).
    Given {
        /// The name of the input.
        name: Name,
        /// Its estimate, in its own unit.
        estimate: Dec,
        /// How its uncertainty is stated.
        shape: Shape,
        /// The degrees of freedom of its uncertainty.
        dof: Dof,
    },
    /// An input by its readings (4.2.1).
    Readings {
        /// The name of the input.
        name: Name,
        /// Its readings, in its own unit: records of one reading each.
        readings: Rc<Readings>,
    },
    /// Inputs by their joint readings (5.2.3), a column each: the name of the quantity of a column is that of the row
    /// and that of the column with a point between them.
    Joint {
        /// The name of the row, which is no quantity.
        name: Name,
        /// The names of the columns.
        columns: NameList,
        /// Their readings, each column in its own unit: records of a reading for each column.
        readings: Rc<Readings>,
    },
    /// The correlation of the estimates of two inputs (5.2.2).
    Correlation {
        /// The name of the row, which is no quantity.
        name: Name,
        /// The name of the one input.
        first: Name,
        /// The name of the other input.
        second: Name,
        /// Their correlation coefficient, from -1 to 1.
        coefficient: Dec,
    },
    /// A quantity as a function of others (4.1.1).
    Formula {
        /// The name of the quantity.
        name: Name,
        /// The measurement function.
        formula: Rc<Formula>,
    },
    /// A rule by which statements of conformity are made (ILAC-G8:09/2019, 4.2.2, 4.2.3).
    Tolerance {
        /// The name of the row, which is no quantity.
        name: Name,
        /// The limits, in the unit of the quantity that is asked for, and the guard band.
        rule: Rule,
    },
}

impl Row {
    /// The name of the row.
    pub fn name(&self) -> &Name
        ensures { result.now ≡ name_of (row_of self.now) }
    {
        match self {
            Row::Given { name, .. } => name,
            Row::Readings { name, .. } => name,
            Row::Joint { name, .. } => name,
            Row::Correlation { name, .. } => name,
            Row::Formula { name, .. } => name,
            Row::Tolerance { name, .. } => name,
        }
    }

    /// The names that the row uses, each once, in the order of first use.
    ///
    /// # Errors
    ///
    /// [`OutOfMemory`] where there is no memory for the list.
    pub fn used_names(&self, alloc: Global) -> Result<NameList, OutOfMemory>
        ensures { IfOk result (λ names. names ≡ names_used (row_of self.now)) }
    {
        match self {
            Row::Given { .. } | Row::Readings { .. } | Row::Joint { .. } | Row::Tolerance { .. } =>
                NameList::new(alloc),
            Row::Correlation { first, second, .. } => names_of_two(alloc, *first, *second),
            Row::Formula { formula, .. } => names(alloc, formula),
        }
    }

    /// Whether the name is that of a quantity of the row.
    pub fn gives(&self, name: &Name) -> bool
        ensures { result ≡ gives (row_of self.now) name.now }
    {
        match self {
            Row::Given { name: own, .. } => own == name,
            Row::Readings { name: own, .. } => own == name,
            Row::Joint {
                name: table,
                columns,
                ..
            } => is_of_columns(name, table, columns.as_slice()),
            Row::Correlation { .. } | Row::Tolerance { .. } => false,
            Row::Formula { name: own, .. } => own == name,
        }
    }

    /// Whether the name is that of an input of the row.
    pub fn gives_input(&self, name: &Name) -> bool
        ensures { result ≡ gives_input (row_of self.now) name.now }
    {
        match self {
            Row::Given { .. } | Row::Readings { .. } | Row::Joint { .. } => self.gives(name),
            Row::Correlation { .. } | Row::Formula { .. } | Row::Tolerance { .. } => false,
        }
    }

    /// Whether the row is a correlation of the input of this name with another.
    pub fn correlates(&self, name: &Name) -> bool
        ensures { result ≡ correlates (row_of self.now) name.now }
    {
        match self {
            Row::Correlation { first, second, .. } => first == name || second == name,
            _ => false,
        }
    }

    /// Whether the row is an input that may be correlated with another: its standard deviation is stated, with
    /// infinitely many degrees of freedom.
    pub fn is_correlatable(&self) -> bool
        ensures { result ≡ is_correlatable (row_of self.now) }
    {
        match self {
            Row::Given {
                shape,
                dof: Dof::Inf,
                ..
            } => states_deviation(shape),
            _ => false,
        }
    }

    /// The rule, where the row is one.
    pub fn rule(&self) -> Option<Rule>
        ensures { result ≡ row_rule (row_of self.now) }
    {
        match self {
            Row::Tolerance { rule, .. } => Some(*rule),
            _ => None,
        }
    }
}

/// Whether the name is that of the column of the table.
fn is_of_column(name: &Name, table: &Name, column: &Name) -> bool
    ensures { result ≡ bytes_eq name.now (column_name table.now column.now) }
{
    let text = name.as_bytes();
    let table = table.as_bytes();
    let at = table.len();
    if at >= text.len() || &text[..at] != table {
        return false;
    }
    text[at] == b'.' && &text[at + 1..] == column.as_bytes()
}

/// Whether the name is that of one of these columns of the table.
fn is_of_columns(name: &Name, table: &Name, columns: &[Name]) -> bool
    ensures { result ≡ list_any (bytes_eq name.now) (column_names table.now columns.now) }
{
    for column in columns {
        if is_of_column(name, table, column) {
            return true;
        }
    }
    false
}

/// The bytes of the two names with a point between them, put over the first ones of the text.
fn joined<'a>(text: &'a mut [u8], table: &[u8], column: &[u8]) -> &'a [u8]
    requires { length table.now + 1 + length column.now ≤ length text.old }
    ensures { result.now ≡ column_name table.now column.now }
{
    let at = table.len();
    let end = at + 1 + column.len();
    text[..at].copy_from_slice(table);
    text[at] = b'.';
    text[at + 1..end].copy_from_slice(column);
    &text[..end]
}

/// The most bytes of the name of a column's quantity: those of two plain names and of the point between them.
const COLUMN_NAME_LIMIT: usize = 49;

/// The name of the quantity of a column of a table, which is that of the table and that of the column with a point
/// between them.
pub fn column_name(table: &Name, column: &Name) -> Name
    requires table { is_plain_name table.now ≡ true }
    requires column { is_plain_name column.now ≡ true }
    ensures { result ≡ column_name table.now column.now }
{
    let mut text = [0u8; COLUMN_NAME_LIMIT];
    let whole = joined(&mut text, table.as_bytes(), column.as_bytes());
    Name::new(whole).unwrap()
}

/// The two names, each once.
fn names_of_two(alloc: Global, first: Name, second: Name) -> Result<NameList, OutOfMemory>
    ensures { IfOk result (λ names. names ≡ distinct (first ∷ second ∷ [])) }
{
    let mut names = NameList::new(alloc)?;
    names.push(first)?;
    if second != first {
        names.push(second)?;
    }
    Ok(names)
}
