ghost use Rattle.std.specs.Prelude.{◌≡◌, ◌<◌, ◌≤◌, ◌↔◌, IsNone, IfSome};

use crate::Exact;

/// A column of a table of joint readings: its quantity's row, and what each record reads.
#[derive(Drop)]
pub struct Column {
    pub key: usize,
    pub readings: Vec<Exact>,
}

/// A table of at least two records (JCGM 100:2008, H.2). A record that a column lacks reads 0.
#[derive(Drop)]
pub struct Table {
    records: usize,
    columns: Vec<Column>,
    ghost enough: { 2 ≤ records },
}

impl Table {
    /// The table, and `None` exactly where there are fewer than two records.
    pub fn new(records: usize, columns: Vec<Column>) -> Option<Table>
        ensures none { IsNone result ↔ (records < 2) }
        ensures records { IfSome result (λ t. t.records ≡ records) }
        ensures columns { IfSome result (λ t. t.columns.items ≡ columns.items) }
    {
        if records < 2 {
            return None;
        }
        Some(Table { records, columns })
    }

    /// How many records the table has.
    pub fn records(&self) -> usize
        ensures value { result ≡ self.now.records }
        ensures enough { 2 ≤ result }
    {
        self.records
    }

    /// The columns, as [`Table::new`] was given them.
    pub fn columns(&self) -> &[Column]
        ensures { result.now ≡ self.now.columns.items }
    {
        &self.columns
    }
}

/// Inputs that are not independent of one another, or one input alone.
#[derive(Drop)]
pub enum Group {
    /// An input with its variance (JCGM 100:2008, 4.2.3, 4.3) and 1/ν, which is 0 for infinite degrees.
    Own {
        key: usize,
        variance: Exact,
        inverse_degrees: Exact,
    },
    /// Two inputs with their variances, their covariance (5.2.2) and the 1/ν of these. A declared
    /// correlation coefficient `r` of the standard uncertainties `a` and `b` is the covariance `r a b`.
    Pair {
        first: usize,
        second: usize,
        first_variance: Exact,
        second_variance: Exact,
        covariance: Exact,
        inverse_degrees: Exact,
    },
    /// The columns of a table (H.2); readings of one quantity are a table of one column.
    Joint(Table),
}
