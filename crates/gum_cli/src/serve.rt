ghost use Rattle.std.specs.Prelude.{IfOk};
ghost use Rattle.std.specs.Result.{result_ok};
ghost use Rattle.answers.specs.Commands.{command_of, IsRegularCommand};
ghost use Rattle.answers.specs.Replies.{IsRegularAnswer, IsRegularReply};
ghost use Rattle.script_lines.specs.Texts.{SaysOutOfMemory};
ghost use Rattle.edit_session.specs.Live.{state_of};
ghost use Rattle.edit_session.specs.Calls.{IsEditReply, IsHistoryReply, IsMarkReply, IsAskReply, Does};

use answers::{Answer, AskFault, Command, HistoryFault, MarkFault, Reply};
use edit_session::Session;
use fixed_interval::Steps;
use line_text::OutOfMemory;
use sheet_rows::EditFault;
use std::sync::ledger::Ledger;

/// Carries out a command and answers it.
///
/// # Errors
///
/// [`OutOfMemory`] exactly where the call of the session found no memory, so never for a step forward, and in
/// the place of no refusal but that of an edit.
pub(crate) fn serve<L: Ledger>(
    session: &mut Session,
    command: Command,
    steps: &mut Steps<L>,
) -> Result<Reply, OutOfMemory>
    requires { IsRegularCommand (command_of command) }
    ensures step { Does (state_of session.old) (command_of command) (state_of session.new) (result_ok result) }
    ensures said { IfOk result (λ reply. SaysOutOfMemory reply → ⊥) }
    ensures regular { IfOk result IsRegularReply }
{
    match command {
        Command::Change(edit) => answer_edit(session.edit(edit)),
        Command::Undo => answer_step(session.undo()),
        Command::Redo => answer_step(session.redo()),
        Command::Mark(name) => answer_mark(session.mark(name)),
        Command::Restore(name) => answer_mark(session.restore(&name)),
        Command::Ask(query) => answer_query(session.ask(&query, steps)),
        Command::AskAt(mark, query) => answer_query(session.ask_at(&mark, &query, steps)),
    }
}

// The reply to an edit, or out of memory exactly where the session found none.
fn answer_edit(done: Result<(), EditFault>) -> Result<Reply, OutOfMemory>
    ensures reply { IsEditReply done (result_ok result) }
    ensures said { IfOk result (λ reply. SaysOutOfMemory reply → ⊥) }
    ensures regular { IfOk result IsRegularReply }
{
    match done {
        Ok(()) => Ok(Reply::Fine),
        Err(EditFault::OutOfMemory) => Err(OutOfMemory),
        Err(fault) => Ok(Reply::Edit(fault)),
    }
}

// The reply to a step back or forward, or out of memory exactly where the session found none.
fn answer_step(done: Result<(), HistoryFault>) -> Result<Reply, OutOfMemory>
    ensures reply { IsHistoryReply done (result_ok result) }
    ensures said { IfOk result (λ reply. SaysOutOfMemory reply → ⊥) }
    ensures regular { IfOk result IsRegularReply }
{
    match done {
        Ok(()) => Ok(Reply::Fine),
        Err(HistoryFault::OutOfMemory) => Err(OutOfMemory),
        Err(fault) => Ok(Reply::History(fault)),
    }
}

// The reply to a mark or to its being restored, or out of memory exactly where the session found none.
fn answer_mark(done: Result<(), MarkFault>) -> Result<Reply, OutOfMemory>
    ensures reply { IsMarkReply done (result_ok result) }
    ensures said { IfOk result (λ reply. SaysOutOfMemory reply → ⊥) }
    ensures regular { IfOk result IsRegularReply }
{
    match done {
        Ok(()) => Ok(Reply::Fine),
        Err(MarkFault::OutOfMemory) => Err(OutOfMemory),
        Err(fault) => Ok(Reply::Mark(fault)),
    }
}

// The reply to a query, or out of memory exactly where the session found none.
fn answer_query(answered: Result<Answer, AskFault>) -> Result<Reply, OutOfMemory>
    ensures reply { IsAskReply answered (result_ok result) }
    ensures said { IfOk result (λ reply. SaysOutOfMemory reply → ⊥) }
    ensures regular { IfOk answered IsRegularAnswer → IfOk result IsRegularReply }
{
    match answered {
        Ok(answer) => Ok(Reply::Said(answer)),
        Err(AskFault::OutOfMemory) => Err(OutOfMemory),
        Err(fault) => Ok(Reply::Ask(fault)),
    }
}
