use formula_ast::Name;
use line_text::OutOfMemory;

/// Why a sheet is not edited.
#[derive(Clone, Copy, Debug, PartialEq, Eq)]
pub enum EditFault {
    /// The sheet has 4,096 rows.
    RowsFull,
    /// A row has the name of the row to add.
    Duplicate(Name),
    /// No row has this name, which is to be set, removed or used.
    Unknown(Name),
    /// The row of this used name does not stand before the row that uses it.
    NotEarlier(Name),
    /// A correlation has this name, whose row is no input with a stated standard deviation and infinitely many
    /// degrees of freedom, or which is the name of both its inputs.
    NotCorrelatable(Name),
    /// A correlation has this name, which another correlation has too.
    AlreadyCorrelated(Name),
    /// The row of this name uses what would no longer be there, or correlates what could no longer be.
    InUse(Name),
    /// There was no memory for the edit.
    OutOfMemory,
}

impl From<OutOfMemory> for EditFault {
    ghost use Rattle.std.specs.Prelude.{◌≡◌};
    ghost use Rattle.sheet_rows.specs.declared.edit_fault.EditFault.{EditFault};

    ghost from_gives = { λ _ fault. fault ≡ EditFault.OutOfMemory };

    fn from(_: OutOfMemory) -> EditFault {
        EditFault::OutOfMemory
    }
}
