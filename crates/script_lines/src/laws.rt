//! What holds of the lines of a script. Each function has an empty body, and its clauses are a theorem on the
//! definitions.

ghost use Rattle.std.specs.Prelude.{◌≢◌, IfOk, IfSome, Err};
ghost use Rattle.sheet_rows.specs.declared.fault.RowFault.{RowFault};
ghost use Rattle.answers.specs.Commands.{IsRegularCommand};
ghost use Rattle.answers.specs.declared.fault.LineFault.{LineFault};
ghost use Rattle.script_lines.specs.declared.item.Item.{Item};
ghost use Rattle.script_lines.specs.Commands.{command_read};

/// What an item is, is a command or a refusal, and never out of memory.
pub fn commands_are_never_out_of_memory()
    ensures line { (item : Item) → command_read item ≢ Err LineFault.OutOfMemory }
    ensures row { (item : Item) → command_read item ≢ Err (LineFault.Row RowFault.OutOfMemory) }
{}

/// The rows of each command that an item is are regular.
pub fn commands_are_regular()
    ensures { (item : Item) → IfOk (command_read item) (λ read. IfSome read IsRegularCommand) }
{}
