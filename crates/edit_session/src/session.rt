ghost use Rattle.std.specs.Prelude.{◌≡◌, ◌||◌, IfOk, IfSome, Option, is_some, nat_lt, length, bytes_eq};
ghost use Rattle.std.specs.Map.{lookup};
ghost use Rattle.answers.specs.Commands.{edit_of, IsRegularEdit, Change, Undo, Redo, Mark, Restore, Ask, AskAt};
ghost use Rattle.answers.specs.Replies.{IsRegularAnswer};
ghost use Rattle.answers.specs.declared.reply.Reply.{Reply};
ghost use Rattle.edit_session.specs.Machine.{initial, kept_as, mark_limit};
ghost use Rattle.edit_session.specs.Live.{state_of};
ghost use Rattle.edit_session.specs.Sound.{IsSoundAnswer};
ghost use Rattle.edit_session.specs.Standing.{IsStandingState};
ghost use Rattle.edit_session.specs.Calls.{IsEditReply, IsHistoryReply, IsMarkReply, IsAskReply, Does};

use crate::answering::ask_sheet;
use crate::edits::apply;
use answers::{Answer, AskFault, Edit, HistoryFault, MarkFault, Query};
use circular_buffer::HeapCircularBuffer;
use fixed_interval::Steps;
use formula_ast::Name;
use indexmap::IndexMap;
use line_text::OutOfMemory;
use sheet_edits::Sheet;
use sheet_rows::EditFault;
use std::alloc::Global;
use std::marker::Model;
use std::sync::ledger::Ledger;

/// The most steps back.
const PAST_LIMIT: usize = 256;

/// The most sheets that are kept under names.
const MARK_LIMIT: usize = 16;

/// A present sheet, the sheets to which undo and redo lead, and those that are kept under names. The
/// sheets share their rows.
#[derive(Drop)]
pub struct Session {
    alloc: Global,
    present: Sheet,
    // where undo leads, the next one last
    past: HeapCircularBuffer<Sheet>,
    // where redo leads, the next one last
    future: Vec<Sheet>,
    marks: IndexMap<Name, Sheet>,
}

impl Model for Session {
    ghost use Rattle.edit_session.specs.Live.{Live};
    ghost use Rattle.edit_session.specs.States.{live_of, IsSession, coded_live};

    ghost Value = { Live };

    ghost coded = { coded_live };

    ghost view = { live_of };

    ghost invariant = { IsSession };
}

impl Session {
    /// A session with an empty sheet and nothing else.
    ///
    /// # Errors
    ///
    /// [`OutOfMemory`] where there is no memory for the past.
    pub fn new(alloc: Global) -> Result<Session, OutOfMemory>
        ensures { IfOk result (λ session. state_of session ≡ initial) }
    {
        let past = HeapCircularBuffer::with_capacity(alloc, PAST_LIMIT)?;
        Ok(Session {
            alloc,
            present: Sheet::new(alloc)?,
            past,
            future: Vec::new(alloc),
            marks: IndexMap::new(alloc),
        })
    }

    /// Edits the present sheet. The future is empty afterwards.
    ///
    /// # Errors
    ///
    /// The refusal that the sheet gives, or [`EditFault::OutOfMemory`]; the session stays as it was.
    pub fn edit(&mut self, edit: Edit) -> Result<(), EditFault>
        requires { IsRegularEdit (edit_of edit) }
        ensures { (reply : Option Reply) → IsEditReply result reply → Does (state_of self.old) (Change (edit_of edit)) (state_of self.new) reply }
    {
        let before = apply(&mut self.present, edit)?;
        self.past.push_back(before);
        self.future.clear();
        Ok(())
    }

    /// Makes the last sheet of the past the present one.
    ///
    /// # Errors
    ///
    /// [`HistoryFault::NothingToUndo`] exactly where the past is empty, or out of memory; the session stays
    /// as it was.
    pub fn undo(&mut self) -> Result<(), HistoryFault>
        ensures { (reply : Option Reply) → IsHistoryReply result reply → Does (state_of self.old) Undo (state_of self.new) reply }
    {
        if self.past.is_empty() {
            return Err(HistoryFault::NothingToUndo);
        }
        self.future.reserve(1)?;
        let sheet = self.past.pop_back().unwrap();
        let after = std::mem::replace(&mut self.present, sheet);
        // There is room for it.
        self.future.push(after).unwrap();
        Ok(())
    }

    /// Takes one undo back.
    ///
    /// # Errors
    ///
    /// [`HistoryFault::NothingToRedo`] exactly where the future is empty; the session stays as it was. It
    /// takes no memory.
    pub fn redo(&mut self) -> Result<(), HistoryFault>
        ensures { (reply : Option Reply) → IsHistoryReply result reply → Does (state_of self.old) Redo (state_of self.new) reply }
    {
        let Some(sheet) = self.future.pop() else {
            return Err(HistoryFault::NothingToRedo);
        };
        let before = std::mem::replace(&mut self.present, sheet);
        self.past.push_back(before);
        Ok(())
    }

    /// Keeps the present sheet under a name, in the place of the one that was kept under it.
    ///
    /// # Errors
    ///
    /// [`MarkFault::MarksFull`] exactly where the name is new and there are 16 marks, or out of memory; the
    /// session stays as it was.
    pub fn mark(&mut self, name: Name) -> Result<(), MarkFault>
        ensures { (reply : Option Reply) → IsMarkReply result reply → Does (state_of self.old) (Mark name) (state_of self.new) reply }
    {
        if !may_mark(&self.marks, &name) {
            return Err(MarkFault::MarksFull);
        }
        let sheet = self.present.copy()?;
        match self.marks.insert(name, sheet) {
            Ok(_) => Ok(()),
            Err(_) => Err(MarkFault::OutOfMemory),
        }
    }

    /// Makes the sheet that is kept under a name the present one, as an edit does.
    ///
    /// # Errors
    ///
    /// [`MarkFault::NoMark`] exactly where no mark has the name, or out of memory; the session stays as it
    /// was.
    pub fn restore(&mut self, name: &Name) -> Result<(), MarkFault>
        ensures { (reply : Option Reply) → IsMarkReply result reply → Does (state_of self.old) (Restore name.now) (state_of self.new) reply }
    {
        let Some(kept) = self.marks.get(name) else {
            return Err(MarkFault::NoMark(*name));
        };
        let sheet = kept.copy()?;
        let before = std::mem::replace(&mut self.present, sheet);
        self.past.push_back(before);
        self.future.clear();
        Ok(())
    }

    /// Asks the present sheet. What it answers holds of the exact law of that sheet.
    ///
    /// # Errors
    ///
    /// [`AskFault::NoSuchResult`] exactly where the query names no quantity of the sheet, or no input where it
    /// asks for one, with the first such name; or out of memory.
    pub fn ask<L: Ledger>(
        &mut self,
        query: &Query,
        steps: &mut Steps<L>,
    ) -> Result<Answer, AskFault>
        ensures reply { (reply : Option Reply) → IsAskReply result reply → Does (state_of self.old) (Ask query.now) (state_of self.new) reply }
        ensures sound { IfOk result (IsSoundAnswer (state_of self.old).present query.now) }
        ensures regular { IfOk result IsRegularAnswer }
    {
        ask_sheet(self.alloc, &self.present, query, steps)
    }

    /// Asks the sheet that is kept under a name. What it answers holds of the exact law of that sheet.
    ///
    /// # Errors
    ///
    /// [`AskFault::NoMark`] exactly where no mark has the name, and then [`AskFault::NoSuchResult`] exactly
    /// where the query names no quantity of the sheet, or no input where it asks for one; or out of memory.
    pub fn ask_at<L: Ledger>(
        &mut self,
        mark: &Name,
        query: &Query,
        steps: &mut Steps<L>,
    ) -> Result<Answer, AskFault>
        ensures reply { (reply : Option Reply) → IsAskReply result reply → Does (state_of self.old) (AskAt mark.now query.now) (state_of self.new) reply }
        ensures sound { IfSome (kept_as (state_of self.old).marks mark.now) (λ sheet. IfOk result (IsSoundAnswer sheet query.now)) }
        ensures regular { IfOk result IsRegularAnswer }
    {
        let Some(kept) = self.marks.get(mark) else {
            return Err(AskFault::NoMark(*mark));
        };
        ask_sheet(self.alloc, kept, query, steps)
    }

    /// The present sheet. It stands, and so do the sheets of the past, of the future and of the marks: each
    /// is well formed and has regular rows, so that the laws on sheets apply to it.
    pub fn sheet(&self) -> &Sheet
        ensures present { result.now ≡ (state_of self.now).present }
        ensures standing { IsStandingState (state_of self.now) }
    {
        &self.present
    }
}

// Whether a sheet may be kept under this name: it is there already, or there is room for a new one.
fn may_mark(marks: &IndexMap<Name, Sheet>, name: &Name) -> bool
    ensures { result ≡ (is_some (lookup (bytes_eq name.now) marks.now.entries) || nat_lt (length marks.now.entries) mark_limit) }
{
    if marks.contains_key(name) {
        return true;
    }
    marks.len() < MARK_LIMIT
}
