ghost use Rattle.std.specs.Prelude.{◌≡◌, [], ◌∷◌, ◌++◌, map, IfOk, OnOk, OnErr};
ghost use Rattle.sheet_rows.specs.Rows.{row_of};

use crate::row::Row;
use line_text::OutOfMemory;
use std::alloc::Global;
use std::marker::Model;
use std::rc::Rc;

/// A list of rows, which it shares with the sheets that have them.
#[derive(Drop, Debug)]
pub struct RowList {
    vec: Vec<Rc<Row>>,
}

impl Model for RowList {
    ghost use Rattle.std.specs.Prelude.{List, map};
    ghost use Rattle.std.specs.Coded.{coded_list};
    ghost use Rattle.sheet_rows.specs.Rows.{Row, row_of};
    ghost use Rattle.sheet_rows.specs.Codes.{coded_row};

    ghost Value = { List Row };

    ghost coded = { coded_list coded_row };

    ghost view = { λ rows. map (λ row. row_of row.value) rows.vec.items };
}

impl RowList {
    /// The list without rows.
    ///
    /// # Errors
    ///
    /// [`OutOfMemory`] where there is no memory for it; it takes none yet.
    pub fn new(alloc: Global) -> Result<RowList, OutOfMemory>
        ensures { IfOk result (λ rows. rows ≡ []) }
    {
        Ok(RowList {
            vec: Vec::new(alloc),
        })
    }

    /// Puts `row` at the end.
    ///
    /// # Errors
    ///
    /// [`OutOfMemory`] where there is no memory for it; the list stays as it was.
    pub fn push(&mut self, row: Rc<Row>) -> Result<(), OutOfMemory>
        ensures ok { OnOk result (self.new ≡ self.old ++ row_of row.value ∷ []) }
        ensures err { OnErr result (self.new ≡ self.old) }
    {
        self.vec.push(row)?;
        Ok(())
    }

    /// The rows in order.
    pub fn as_slice(&self) -> &[Rc<Row>]
        ensures { map (λ row. row_of row.value) result.now ≡ self.now }
    {
        self.vec.as_slice()
    }
}
