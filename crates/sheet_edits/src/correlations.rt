ghost use Rattle.std.specs.Prelude.{◌≡◌, ◌&&◌, not};
ghost use Rattle.sheet_rows.specs.Rows.{row_of, name_of, correlates};
ghost use Rattle.sheet_edits.specs.Verdicts.{Verdict, first_correlated, unless};
ghost use Rattle.sheet_rows.specs.Sheets.{is_named, is_correlated_apart};
ghost use Rattle.sheet_edits.specs.Places.{is_correlatable_with, first_not_correlatable_with, IsChecked};
ghost use Rattle.sheet_rows.specs.declared.edit_fault.EditFault.TheVariants.{NotCorrelatable, AlreadyCorrelated};

use crate::sheet::Sheet;
use formula_ast::Name;
use sheet_rows::{EditFault, Row};

// Whether `other` is another row than `row`, and a correlation with the name.
fn is_correlation_apart(row: &Row, other: &Row, name: &Name) -> bool
    ensures { result ≡ (not (is_named (name_of (row_of row.now)) (row_of other.now)) && correlates (row_of other.now) name.now) }
{
    other.name() != row.name() && other.correlates(name)
}

impl Sheet {
    // Whether the name is that of an input that may be correlated, where the row is put in.
    fn is_correlatable_with(&self, row: &Row, name: &Name) -> bool
        ensures { result ≡ is_correlatable_with self.now (row_of row.now) name.now }
    {
        if name == row.name() {
            return row.is_correlatable();
        }
        self.has_correlatable(name)
    }

    // The first of the names that the row correlates whose row may not be correlated, else the one that it has twice.
    fn first_not_correlatable(&self, row: &Row) -> Option<Name>
        ensures { result ≡ first_not_correlatable_with self.now (row_of row.now) }
    {
        let Row::Correlation { first, second, .. } = row else {
            return None;
        };
        if !self.is_correlatable_with(row, first) {
            return Some(*first);
        }
        if !self.is_correlatable_with(row, second) || first == second {
            return Some(*second);
        }
        None
    }

    // Whether another row is a correlation with the name.
    fn is_correlated_apart(&self, row: &Row, name: &Name) -> bool
        ensures { result ≡ is_correlated_apart self.now.rows (row_of row.now) name.now }
    {
        let rows = self.rows();
        for other in rows {
            if is_correlation_apart(row, other, name) {
                return true;
            }
        }
        false
    }

    // The first of the names that the row correlates that is in another correlation.
    fn first_correlated(&self, row: &Row) -> Option<Name>
        ensures { result ≡ first_correlated self.now (row_of row.now) }
    {
        let Row::Correlation { first, second, .. } = row else {
            return None;
        };
        if self.is_correlated_apart(row, first) {
            return Some(*first);
        }
        if self.is_correlated_apart(row, second) {
            return Some(*second);
        }
        None
    }

    // Whether the row, which is put in, correlates two inputs that may be, and that no other row correlates. Only a
    // correlation has such names: another row is not compared with the rows of the sheet.
    pub(crate) fn check_correlated(&self, row: &Row) -> Result<(), EditFault>
        ensures { (rest : Verdict) → IsChecked result rest
            (unless (first_not_correlatable_with self.now (row_of row.now)) NotCorrelatable
            (unless (first_correlated self.now (row_of row.now)) AlreadyCorrelated rest)) }
    {
        if let Some(name) = self.first_not_correlatable(row) {
            return Err(EditFault::NotCorrelatable(name));
        }
        if let Some(name) = self.first_correlated(row) {
            return Err(EditFault::AlreadyCorrelated(name));
        }
        Ok(())
    }
}
