use crate::fault::{AskFault, HistoryFault, LineFault, MarkFault};
use budget_table::BudgetLines;
use decimal18::Dec;
use fixed_interval::{ArithFault, Span};
use formula_ast::Name;
use guard_band::Said;
use round_out::{CorrSaid, Reported};
use sheet_rows::{EditFault, RowList};
use table_g2::DofSaid;

/// The answer to a query.
#[derive(Drop, Debug)]
pub enum Answer {
    /// The value of the quantity of this name is in this interval, in the quantity's own unit.
    Value(Name, Span),
    /// The variance of the quantity of this name, the square of its combined standard uncertainty (JCGM 100:2008,
    /// 5.1.2, 5.2.2), is in this interval, in the square of the quantity's unit.
    Variance(Name, Span),
    /// The covariance of the quantities of these names (JCGM 100:2008, 5.2.2, H.2.3) is in this interval, in the
    /// product of their units.
    Covariance(Name, Name, Span),
    /// This is said of the correlation coefficient of the quantities of these names (JCGM 100:2008, 5.2.2).
    Correlation(Name, Name, CorrSaid),
    /// The sensitivity of the quantity of the first name to the input of the second (JCGM 100:2008, 5.1.3) is in this
    /// interval, in the unit of the quantity for one unit of the input.
    Sensitivity(Name, Name, Span),
    /// This is said of the effective degrees of freedom of the quantity of this name (JCGM 100:2008, G.4.1).
    Degrees(Name, DofSaid),
    /// The quantity of this name and its combined standard uncertainty, both in the quantity's unit, are reported so
    /// (JCGM 100:2008, 7.2.6).
    Report(Name, Reported),
    /// The quantity of this name and its expanded uncertainty, both in the quantity's unit, are reported so (JCGM
    /// 100:2008, 6.2.1, 7.2.6), with this coverage factor. Where nothing is settled, the factor is the least that there
    /// may be.
    Expanded(Name, Reported, Dec),
    /// This is said of the conformity of the quantity of the first name by the rule of the second (ILAC-G8:09/2019,
    /// 4.2.2, 4.2.3).
    Decision(Name, Name, Said),
    /// These inputs, and these groups of them, bring so much to the variance of the quantity of this name, which is in
    /// this interval, in the square of the quantity's unit (JCGM 100:2008, 5.1.3).
    Budget(BudgetLines, Name, Span),
    /// These are the rows, in their order.
    Dump(RowList),
    /// The quantity has no interval: this fault arose in the row of this name.
    ValueFault(ArithFault, Name),
    /// The quantity has an interval, but an operation that the law of propagation asks for leaves the range of bounds:
    /// our own rule.
    LawOverflow,
}

/// The reply to a line.
#[derive(Drop, Debug)]
pub enum Reply {
    /// The command was carried out.
    Fine,
    /// The line is no command.
    Line(LineFault),
    /// The edit was refused.
    Edit(EditFault),
    /// There is no step back or forward.
    History(HistoryFault),
    /// The sheet was not kept or not restored.
    Mark(MarkFault),
    /// The query has no answer.
    Ask(AskFault),
    /// The answer to a query.
    Said(Answer),
}
