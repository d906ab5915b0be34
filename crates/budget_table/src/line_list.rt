ghost use Rattle.std.specs.Prelude.{◌≡◌, [], ◌∷◌, ◌++◌, Ok, OnOk, OnErr};

use crate::line::BudgetLine;
use line_text::OutOfMemory;
use std::alloc::Global;
use std::marker::Model;

/// A list of lines of a budget.
#[derive(Drop, Debug)]
pub struct BudgetLines {
    vec: Vec<BudgetLine>,
}

impl Model for BudgetLines {
    ghost use Rattle.std.specs.Prelude.{List};
    ghost use Rattle.budget_table.specs.declared.line.BudgetLine.{BudgetLine};

    ghost Value = { List BudgetLine };

    ghost view = { λ lines. lines.vec.items };
}

impl BudgetLines {
    /// The list without lines. It takes no memory yet, so this is always `Ok`.
    ///
    /// # Errors
    ///
    /// None: the result has the form of the other calls that take an allocator.
    pub fn new(alloc: Global) -> Result<BudgetLines, OutOfMemory>
        ensures { result ≡ Ok [] }
    {
        Ok(BudgetLines {
            vec: Vec::new(alloc),
        })
    }

    /// Puts `line` at the end.
    ///
    /// # Errors
    ///
    /// [`OutOfMemory`] where there is no memory for it; the list stays as it was.
    pub fn push(&mut self, line: BudgetLine) -> Result<(), OutOfMemory>
        ensures ok { OnOk result (self.new ≡ self.old ++ line ∷ []) }
        ensures err { OnErr result (self.new ≡ self.old) }
    {
        self.vec.push(line)?;
        Ok(())
    }

    /// The lines in order.
    pub fn as_slice(&self) -> &[BudgetLine]
        ensures { result.now ≡ self.now }
    {
        self.vec.as_slice()
    }
}
