//! What holds of the session's machine. Each function has an empty body, and its clauses are a theorem on
//! the definitions.

ghost use Rattle.std.specs.Prelude.{◌≡◌, ◌↔◌, ℕ, false, List, Some};
ghost use Rattle.sheet_rows.specs.Rows.{Sheet};
ghost use Rattle.sheet_rows.specs.Sheets.{IsWellFormed, has_quantity, IsStanding};
ghost use Rattle.answers.specs.Commands.{Command, IsRegularCommand};
ghost use Rattle.answers.specs.declared.command.Query.{Query};
ghost use Rattle.answers.specs.declared.command.Query.TheVariants.{Value as AskValue};
ghost use Rattle.answers.specs.declared.fault.AskFault.TheVariants.{NoSuchResult};
ghost use Rattle.answers.specs.declared.reply.Reply.TheVariants.{Ask};
ghost use Rattle.edit_session.specs.Replies.{reply_to, unknown_result};
ghost use Rattle.edit_session.specs.Sound.{IsSoundReply, IsSoundOn, asked};
ghost use Rattle.edit_session.specs.Machine.{State, initial, step};
ghost use Rattle.edit_session.specs.Standing.{IsStandingState};
ghost use Rattle.edit_session.specs.Rebuild.{rebuild, IsBuiltBy};

/// What a sheet replies holds of its exact law: a value or a sensitivity that it replies lies in its interval.
pub fn every_reply_is_sound()
    ensures of_sheets { (sheet : Sheet) → IsStanding sheet → (query : Query) → IsSoundReply sheet query (reply_to sheet query) }
    ensures of_commands { (state : State) → IsStandingState state → (command : Command)
        → IsSoundOn (asked state command) (step state command).1 }
{}

/// A sheet has no reply for the value of a name exactly where the name is no quantity of it (`value`), and
/// none to a query exactly where this is its first name that is that of no quantity, or where it is to be an
/// input, of no input (`query`).
pub fn names_of_quantities_have_values()
    ensures value { (sheet : Sheet) → IsStanding sheet → (name : List ℕ)
        → (reply_to sheet (AskValue name) ≡ Ask (NoSuchResult name)) ↔ (has_quantity sheet name ≡ false) }
    ensures query { (sheet : Sheet) → IsStanding sheet → (query : Query) (name : List ℕ)
        → (reply_to sheet query ≡ Ask (NoSuchResult name)) ↔ (unknown_result sheet query ≡ Some name) }
{}

/// The sheets of a session stand, after each command whose rows are regular.
pub fn sheets_keep_standing()
    ensures initial { IsStandingState initial }
    ensures step { (state : State) (command : Command) → IsStandingState state → IsRegularCommand command
        → IsStandingState (step state command).0 }
{}

/// Each command by which a well-formed sheet is built again is carried out, the sheet then stands, and the
/// query that follows has its reply.
pub fn rebuilt_sheets_reply_alike()
    ensures { (sheet : Sheet) → IsWellFormed sheet → IsBuiltBy (rebuild sheet) sheet }
{}
