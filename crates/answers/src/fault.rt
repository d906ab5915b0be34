use formula_ast::Name;
use line_text::OutOfMemory;
use sheet_rows::RowFault;

/// Why there is no step back or forward.
#[derive(Clone, Copy, Debug, PartialEq, Eq)]
pub enum HistoryFault {
    /// The past is empty.
    NothingToUndo,
    /// The future is empty.
    NothingToRedo,
    /// There was no memory for the step.
    OutOfMemory,
}

/// Why a sheet was not kept or not restored.
#[derive(Clone, Copy, Debug, PartialEq, Eq)]
pub enum MarkFault {
    /// There are as many marks as there may be.
    MarksFull,
    /// No mark has this name.
    NoMark(Name),
    /// There was no memory for the sheet.
    OutOfMemory,
}

/// Why a query has no answer.
#[derive(Clone, Copy, Debug, PartialEq, Eq)]
pub enum AskFault {
    /// No mark has this name.
    NoMark(Name),
    /// No quantity has this name; or no elementary input, or no rule of conformity, has it where one is asked for.
    NoSuchResult(Name),
    /// There was no memory for the answer.
    OutOfMemory,
}

/// Why a line is no command.
#[derive(Clone, Copy, Debug, PartialEq, Eq)]
pub enum LineFault {
    /// The word or token at this place, counted from 1, breaks a rule.
    Syntax(usize),
    /// The line gives no row, for this reason.
    Row(RowFault),
    /// The level of confidence of a query is none of 95, 95.45 and 99 percent.
    Level,
    /// The line has more bytes than a line may have.
    LongLine,
    /// The table block has more bytes than a block may have.
    LongTable,
    /// The input ends inside the table block.
    UnclosedTable,
    /// There was no memory for the command.
    OutOfMemory,
}

impl From<OutOfMemory> for HistoryFault {
    ghost use Rattle.std.specs.Prelude.{◌≡◌};
    ghost use Rattle.answers.specs.declared.fault.HistoryFault.{HistoryFault};

    ghost from_gives = { λ _ fault. fault ≡ HistoryFault.OutOfMemory };

    fn from(_: OutOfMemory) -> HistoryFault {
        HistoryFault::OutOfMemory
    }
}

impl From<OutOfMemory> for MarkFault {
    ghost use Rattle.std.specs.Prelude.{◌≡◌};
    ghost use Rattle.answers.specs.declared.fault.MarkFault.{MarkFault};

    ghost from_gives = { λ _ fault. fault ≡ MarkFault.OutOfMemory };

    fn from(_: OutOfMemory) -> MarkFault {
        MarkFault::OutOfMemory
    }
}

impl From<OutOfMemory> for AskFault {
    ghost use Rattle.std.specs.Prelude.{◌≡◌};
    ghost use Rattle.answers.specs.declared.fault.AskFault.{AskFault};

    ghost from_gives = { λ _ fault. fault ≡ AskFault.OutOfMemory };

    fn from(_: OutOfMemory) -> AskFault {
        AskFault::OutOfMemory
    }
}

impl From<OutOfMemory> for LineFault {
    ghost use Rattle.std.specs.Prelude.{◌≡◌};
    ghost use Rattle.answers.specs.declared.fault.LineFault.{LineFault};

    ghost from_gives = { λ _ fault. fault ≡ LineFault.OutOfMemory };

    fn from(_: OutOfMemory) -> LineFault {
        LineFault::OutOfMemory
    }
}
