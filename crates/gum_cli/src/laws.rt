//! What holds of the replies to a script, by the laws of the crates below.

ghost use Rattle.std.specs.Prelude.{List};
ghost use Rattle.script_lines.specs.declared.item.Item.{Item};
ghost use Rattle.edit_session.specs.Machine.{initial};
ghost use Rattle.gum_cli.specs.Script.{AreSound};

use edit_session::{every_reply_is_sound, sheets_keep_standing};
use script_lines::commands_are_regular;

/// Each reply to a script is sound for the sheet that is asked at its line. It does nothing when it runs.
pub(crate) fn replies_are_sound()
    ensures { (items : List Item) → AreSound initial items }
{
    every_reply_is_sound();
    sheets_keep_standing();
    commands_are_regular();
}
