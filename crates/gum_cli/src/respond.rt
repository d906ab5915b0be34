ghost use Rattle.std.specs.Prelude.{◌≡◌, ◌++◌, ◌∷◌, [], List, IfSome, IfNone, IfOk, OnOk, OnErr};
ghost use Rattle.script_lines.specs.declared.item.Item.{Item};
ghost use Rattle.script_lines.specs.Items.{items_of, whole_items_of};
ghost use Rattle.script_lines.specs.Commands.{command_read};
ghost use Rattle.script_lines.specs.Texts.{SaysOutOfMemory};
ghost use Rattle.answers.specs.Replies.{IsRegularReply};
ghost use Rattle.edit_session.specs.Live.{state_of};
ghost use Rattle.gum_cli.specs.Script.{state_after_line, replies_of, replies_to, text_of_replies, out};

use crate::serve::serve;
use answers::{LineFault, Reply};
use edit_session::Session;
use fixed_interval::Steps;
use line_text::{Bytes, OutOfMemory};
use script_lines::{Item, Splitter, put_reply, read_command};
use sheet_rows::RowFault;
use std::alloc::Global;
use std::sync::ledger::Ledger;

/// The replies to a script.
pub fn respond<L: Ledger>(
    alloc: Global,
    script: &[u8],
    steps: &mut Steps<L>,
) -> Result<Bytes, OutOfMemory>
    ensures { IfOk result (λ replies. replies ≡ out script.now) }
{
    let mut session = Session::new(alloc)?;
    let mut splitter = Splitter::new(alloc)?;
    splitter.feed(script)?;
    let mut replies = Bytes::new(alloc)?;
    'items: while let Some(item) = splitter.take()? {
        answer_item(alloc, &item, &mut session, &mut replies, steps)?;
    }
    answer_last(alloc, splitter, &mut session, &mut replies, steps)?;
    Ok(replies)
}

// A line that is no command is refused, or out of memory exactly where its reading found none.
fn refuse(fault: LineFault) -> Result<Reply, OutOfMemory>
    ensures same { IfOk result (λ reply. reply ≡ Reply.Line fault) }
    ensures said { IfOk result (λ reply. SaysOutOfMemory reply → ⊥) }
    ensures regular { IfOk result IsRegularReply }
    ensures memory { OnErr result (SaysOutOfMemory (Reply.Line fault)) }
{
    match fault {
        LineFault::OutOfMemory | LineFault::Row(RowFault::OutOfMemory) => Err(OutOfMemory),
        fault => Ok(Reply::Line(fault)),
    }
}

// The reply to one line. A line without words has none.
fn reply_to<L: Ledger>(
    alloc: Global,
    item: &Item,
    session: &mut Session,
    steps: &mut Steps<L>,
) -> Result<Option<Reply>, OutOfMemory>
    ensures state { OnOk result (state_of session.new ≡ state_after_line (state_of session.old) (command_read item.now)) }
    ensures reply { IfOk result (λ reply. IfSome reply (λ reply.
        replies_of (state_of session.old) (command_read item.now) ≡ reply ∷ [])) }
    ensures none { IfOk result (λ reply. IfNone reply (replies_of (state_of session.old) (command_read item.now) ≡ [])) }
    ensures said { IfOk result (λ reply. IfSome reply (λ reply. SaysOutOfMemory reply → ⊥)) }
    ensures regular { IfOk result (λ reply. IfSome reply IsRegularReply) }
{
    match read_command(alloc, item) {
        Ok(None) => Ok(None),
        Ok(Some(command)) => Ok(Some(serve(session, command, steps)?)),
        Err(fault) => Ok(Some(refuse(fault)?)),
    }
}

// Answers one line, whichever lines come after it.
fn answer_item<L: Ledger>(
    alloc: Global,
    item: &Item,
    session: &mut Session,
    replies: &mut Bytes,
    steps: &mut Steps<L>,
) -> Result<(), OutOfMemory>
    ensures state { OnOk result (state_of session.new ≡ state_after_line (state_of session.old) (command_read item.now)) }
    ensures replies { (items : List Item) → OnOk result
        (replies.new ++ text_of_replies (replies_to (state_of session.new) items)
        ≡ replies.old ++ text_of_replies (replies_to (state_of session.old) (item.now ∷ items))) }
{
    if let Some(reply) = reply_to(alloc, item, session, steps)? {
        put_reply(replies, &reply)?;
    }
    Ok(())
}

// Answers the line that no line feed ended, if there is one.
fn answer_last<L: Ledger>(
    alloc: Global,
    splitter: Splitter,
    session: &mut Session,
    replies: &mut Bytes,
    steps: &mut Steps<L>,
) -> Result<(), OutOfMemory>
    requires { whole_items_of splitter ≡ [] }
    ensures { OnOk result (replies.new
        ≡ replies.old ++ text_of_replies (replies_to (state_of session.old) (items_of splitter))) }
{
    match splitter.finish()? {
        Some(item) => answer_item(alloc, &item, session, replies, steps),
        None => Ok(()),
    }
}
