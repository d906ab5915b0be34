ghost use Rattle.std.specs.Prelude.{◌≡◌, IfOk, OnErr};
ghost use Rattle.sheet_edits.specs.Places.{IsVerdict};
ghost use Rattle.answers.specs.Commands.{edit_of, IsRegularEdit};
ghost use Rattle.edit_session.specs.Machine.{verdict};

use answers::Edit;
use sheet_edits::Sheet;
use sheet_rows::EditFault;

/// Edits a sheet, and hands out the sheet before. Only an accepted edit has the sheet copied.
///
/// # Errors
///
/// The refusal that the sheet gives, or [`EditFault::OutOfMemory`]; the sheet stays as it was.
pub(crate) fn apply(sheet: &mut Sheet, edit: Edit) -> Result<Sheet, EditFault>
    requires { IsRegularEdit (edit_of edit) }
    ensures verdict { IsVerdict result sheet.new (verdict sheet.old (edit_of edit)) }
    ensures before { IfOk result (λ before. before ≡ sheet.old) }
    ensures err { OnErr result (sheet.new ≡ sheet.old) }
{
    match edit {
        Edit::Add(row) => sheet.try_add_with_copy(row),
        Edit::Set(row) => sheet.try_set_with_copy(row),
        Edit::Remove(name) => sheet.try_remove_with_copy(&name),
    }
}
