//! The texts of refusals. Out of memory has none.

ghost use Rattle.std.specs.Prelude.{◌≡◌, ◌++◌, OnOk};
ghost use Rattle.script_lines.specs.Texts.{named, placed, text_of_row_fault, text_of_line_fault, text_of_edit_fault, text_of_history_fault, text_of_mark_fault, text_of_ask_fault};

use answers::{AskFault, HistoryFault, LineFault, MarkFault};
use formula_ast::Name;
use itoa::Buffer;
use line_text::{Bytes, OutOfMemory};
use sheet_rows::{EditFault, RowFault};

/// Puts a line of some words and a name at the end.
pub(crate) fn put_named(text: &mut Bytes, words: &[u8], name: &Name) -> Result<(), OutOfMemory>
    ensures { OnOk result (text.new ≡ text.old ++ named words.now name.now) }
{
    text.extend_from_slice(words)?;
    text.extend_from_slice(name.as_bytes())?;
    text.extend_from_slice(b"\n")
}

/// Puts a line of some words and a place at the end.
fn put_placed(text: &mut Bytes, words: &[u8], place: usize) -> Result<(), OutOfMemory>
    ensures { OnOk result (text.new ≡ text.old ++ placed words.now place) }
{
    text.extend_from_slice(words)?;
    text.extend_from_slice(Buffer::new().format(place as u64).as_bytes())?;
    text.extend_from_slice(b"\n")
}

fn put_row_fault(text: &mut Bytes, fault: &RowFault) -> Result<(), OutOfMemory>
    ensures { OnOk result (text.new ≡ text.old ++ text_of_row_fault fault.now) }
{
    match fault {
        RowFault::Syntax(at) => put_placed(text, b"refused syntax ", *at),
        RowFault::NotNumber(at) => put_placed(text, b"refused not_number ", *at),
        RowFault::NumberRange(at) => put_placed(text, b"refused number_range ", *at),
        RowFault::UnknownFunction(at) => put_placed(text, b"refused unknown_function ", *at),
        RowFault::BadPower(at) => put_placed(text, b"refused bad_power ", *at),
        RowFault::TooDeep(at) => put_placed(text, b"refused too_deep ", *at),
        RowFault::TooManyNodes(at) => put_placed(text, b"refused too_many_nodes ", *at),
        RowFault::Negative => text.extend_from_slice(b"refused negative\n"),
        RowFault::ZeroK => text.extend_from_slice(b"refused zero_k\n"),
        RowFault::Beta => text.extend_from_slice(b"refused beta\n"),
        RowFault::Level => text.extend_from_slice(b"refused level\n"),
        RowFault::DofRange => text.extend_from_slice(b"refused dof_range\n"),
        RowFault::RRange => text.extend_from_slice(b"refused r_range\n"),
        RowFault::GuardRange => text.extend_from_slice(b"refused guard_range\n"),
        RowFault::LimitOrder => text.extend_from_slice(b"refused limit_order\n"),
        RowFault::TooFew => text.extend_from_slice(b"refused too_few\n"),
        RowFault::TooMany => text.extend_from_slice(b"refused too_many\n"),
        RowFault::Shape(place) => put_placed(text, b"refused shape ", *place),
        RowFault::Wide(place) => put_placed(text, b"refused wide ", *place),
        RowFault::OutOfMemory => Ok(()),
    }
}

/// Puts the refusal of a line at the end.
pub(crate) fn put_line_fault(text: &mut Bytes, fault: &LineFault) -> Result<(), OutOfMemory>
    ensures { OnOk result (text.new ≡ text.old ++ text_of_line_fault fault.now) }
{
    match fault {
        LineFault::Syntax(at) => put_placed(text, b"refused syntax ", *at),
        LineFault::Row(fault) => put_row_fault(text, fault),
        LineFault::Level => text.extend_from_slice(b"refused level\n"),
        LineFault::LongLine => text.extend_from_slice(b"refused long_line\n"),
        LineFault::LongTable => text.extend_from_slice(b"refused long_table\n"),
        LineFault::UnclosedTable => text.extend_from_slice(b"refused open_table\n"),
        LineFault::OutOfMemory => Ok(()),
    }
}

/// Puts the refusal of an edit at the end.
pub(crate) fn put_edit_fault(text: &mut Bytes, fault: &EditFault) -> Result<(), OutOfMemory>
    ensures { OnOk result (text.new ≡ text.old ++ text_of_edit_fault fault.now) }
{
    match fault {
        EditFault::RowsFull => text.extend_from_slice(b"refused rows_full\n"),
        EditFault::Duplicate(name) => put_named(text, b"refused duplicate ", name),
        EditFault::Unknown(name) => put_named(text, b"refused unknown ", name),
        EditFault::NotEarlier(name) => put_named(text, b"refused not_earlier ", name),
        EditFault::NotCorrelatable(name) => put_named(text, b"refused not_correlatable ", name),
        EditFault::AlreadyCorrelated(name) => {
            put_named(text, b"refused already_correlated ", name)
        }
        EditFault::InUse(name) => put_named(text, b"refused in_use ", name),
        EditFault::OutOfMemory => Ok(()),
    }
}

/// Puts at the end that there is no step back or forward.
pub(crate) fn put_history_fault(text: &mut Bytes, fault: &HistoryFault) -> Result<(), OutOfMemory>
    ensures { OnOk result (text.new ≡ text.old ++ text_of_history_fault fault.now) }
{
    match fault {
        HistoryFault::NothingToUndo => text.extend_from_slice(b"refused nothing_to_undo\n"),
        HistoryFault::NothingToRedo => text.extend_from_slice(b"refused nothing_to_redo\n"),
        HistoryFault::OutOfMemory => Ok(()),
    }
}

/// Puts at the end why a sheet was not kept or not restored.
pub(crate) fn put_mark_fault(text: &mut Bytes, fault: &MarkFault) -> Result<(), OutOfMemory>
    ensures { OnOk result (text.new ≡ text.old ++ text_of_mark_fault fault.now) }
{
    match fault {
        MarkFault::MarksFull => text.extend_from_slice(b"refused marks_full\n"),
        MarkFault::NoMark(name) => put_named(text, b"refused no_mark ", name),
        MarkFault::OutOfMemory => Ok(()),
    }
}

/// Puts at the end why a query has no answer.
pub(crate) fn put_ask_fault(text: &mut Bytes, fault: &AskFault) -> Result<(), OutOfMemory>
    ensures { OnOk result (text.new ≡ text.old ++ text_of_ask_fault fault.now) }
{
    match fault {
        AskFault::NoMark(name) => put_named(text, b"refused no_mark ", name),
        AskFault::NoSuchResult(name) => put_named(text, b"refused no_such_result ", name),
        AskFault::OutOfMemory => Ok(()),
    }
}
