use formula_ast::Name;
use sheet_rows::Row;
use table_g2::Level;

/// A change of the rows of a sheet.
#[derive(Drop, Debug)]
pub enum Edit {
    /// Puts a row last.
    Add(Row),
    /// Puts a row in the place of the one that has its name.
    Set(Row),
    /// Takes the row of this name out.
    Remove(Name),
}

/// A question to a sheet.
#[derive(Clone, Copy, Debug, PartialEq, Eq)]
pub enum Query {
    /// What interval encloses the value of the quantity of this name?
    Value(Name),
    /// What interval encloses the variance of the quantity of this name, the square of its combined standard
    /// uncertainty (JCGM 100:2008, 5.1.2, 5.2.2)?
    Variance(Name),
    /// What interval encloses the covariance of the quantities of these names (JCGM 100:2008, 5.2.2, H.2.3)?
    Covariance(Name, Name),
    /// What is the correlation coefficient of the quantities of these names (JCGM 100:2008, 5.2.2)?
    Correlation(Name, Name),
    /// What interval encloses the sensitivity of the quantity of the first name to the input of the second (JCGM
    /// 100:2008, 5.1.3)?
    Sensitivity(Name, Name),
    /// How many effective degrees of freedom has the quantity of this name (JCGM 100:2008, G.4.1)?
    Degrees(Name),
    /// How are the quantity of this name and its standard uncertainty reported (JCGM 100:2008, 7.2.6)?
    Report(Name),
    /// How are the quantity of this name and its expanded uncertainty at this level of confidence reported (JCGM
    /// 100:2008, 6.2.1, 7.2.6, G.4.1)?
    Expanded(Name, Level),
    /// What does the rule of the second name state on the quantity of the first, with its expanded uncertainty at this
    /// level of confidence (ILAC-G8:09/2019, 4.2.2, 4.2.3)?
    Decide(Name, Name, Level),
    /// What does each input, and each group of inputs, bring to the variance of the quantity of this name (JCGM
    /// 100:2008, 5.1.3)?
    Budget(Name),
    /// Which rows are there?
    Dump,
}

/// A command to a session.
#[derive(Drop, Debug)]
pub enum Command {
    /// Changes the present sheet.
    Change(Edit),
    /// Goes one step back.
    Undo,
    /// Goes one step forward again.
    Redo,
    /// Keeps the present sheet under a name.
    Mark(Name),
    /// Makes the sheet that is kept under a name the present one.
    Restore(Name),
    /// Asks the present sheet.
    Ask(Query),
    /// Asks the sheet that is kept under a name.
    AskAt(Name, Query),
}
