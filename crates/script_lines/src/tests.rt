//! Texts in pieces, lines that are refused, and printed replies.

ghost use Rattle.std.specs.Prelude.{◌≡◌};
ghost use Rattle.answers.specs.Replies.{IsRegularReply};
ghost use Rattle.script_lines.specs.Texts.{SaysOutOfMemory};

use crate::{Item, Splitter, print_reply, read_command};
use answers::{Answer, AskFault, Command, Edit, HistoryFault, LineFault, MarkFault, Query, Reply};
use budget_table::{BudgetLine, BudgetLines};
use decimal18::Dec;
use fixed_interval::{ArithFault, Steps, point};
use formula_ast::Name;
use guard_band::{Condition, Said};
use line_text::Bytes;
use round_out::{CorrSaid, Reported};
use row_text::read_row;
use sheet_rows::{EditFault, RowFault, RowList};
use std::alloc::Global;
use std::marker::Brand;
use std::process::Abort;
use std::rc::Rc;
use std::sync::ledger::{Blank, Ledger};
use std::test::Fail;
use table_g2::{DofSaid, Level};

/// A text, and its lines.
const TEXT: &[u8; 28] = b"undo\r\n\nredo\r\r\n\0a\rb\nlast # c\r";

const LINES: [&[u8]; 5] = [b"undo", b"", b"redo\r", b"\0a\rb", b"last # c\r"];

// Whether the item is a line of these bytes.
fn is_line(item: &Option<Item>, bytes: &[u8]) -> bool {
    match item {
        Some(Item::Line(line)) => line.as_slice() == bytes,
        _ => false,
    }
}

fn is_long(item: &Option<Item>) -> bool {
    match item {
        Some(Item::LongLine) => true,
        _ => false,
    }
}

#[test]
fn lines_of_a_text_that_comes_byte_by_byte(rt: HostRuntime) -> Result<(), Fail> {
    let mut splitter = Splitter::new(rt.alloc())?;
    let mut count = 0;
    for byte in TEXT {
        splitter.feed(&[*byte])?;
        let item = splitter.take()?;
        if item.is_some() && count < 4 {
            assert!(rt; is_line(&item, LINES[count]), "at {count}");
            count += 1;
        }
    }
    assert_eq!(rt; count, 4);
    if splitter.take()?.is_some() {
        panic!(rt; "a line too many");
    }
    assert!(rt; is_line(&splitter.finish()?, LINES[4]));
    Ok(())
}

#[test]
fn lines_of_a_text_that_comes_whole(rt: HostRuntime) -> Result<(), Fail> {
    let mut splitter = Splitter::new(rt.alloc())?;
    splitter.feed(TEXT)?;
    for line in &LINES[..4] {
        assert!(rt; is_line(&splitter.take()?, line));
    }
    splitter.feed(b"\n")?;
    assert!(rt; is_line(&splitter.take()?, b"last # c"));
    if splitter.take()?.is_some() {
        panic!(rt; "a line too many");
    }
    assert!(rt; splitter.finish()?.is_none());
    Ok(())
}

// So many times the byte, and a line feed.
fn feed_many(splitter: &mut Splitter, byte: u8, count: usize) -> Result<(), Fail> {
    for _ in 0..count {
        splitter.feed(&[byte])?;
    }
    splitter.feed(b"\n")?;
    Ok(())
}

#[test]
fn lines_of_the_most_bytes_and_one_more(rt: HostRuntime) -> Result<(), Fail> {
    let mut splitter = Splitter::new(rt.alloc())?;
    feed_many(&mut splitter, b'a', 65_536)?;
    feed_many(&mut splitter, b'a', 65_537)?;
    feed_many(&mut splitter, b'\r', 65_536)?;
    feed_many(&mut splitter, b'\r', 65_537)?;
    for (long, len) in [(false, 65_536), (true, 0), (false, 65_535), (true, 0)] {
        let item = splitter.take()?;
        assert_eq!(rt; is_long(&item), long);
        if let Some(Item::Line(line)) = &item {
            assert_eq!(rt; line.as_slice().len(), len);
        }
    }
    feed_many(&mut splitter, b'b', 65_537)?;
    assert!(rt; is_long(&splitter.take()?));
    Ok(())
}

/// Lines that are no commands, and why. Places are counted from 1.
const REFUSED: [(&str, LineFault); 36] = [
    ("undo\r", LineFault::Row(RowFault::Syntax(1))),
    ("dump x", LineFault::Syntax(6)),
    ("undo 1", LineFault::Syntax(6)),
    ("redo\tredo", LineFault::Syntax(6)),
    ("mark", LineFault::Syntax(5)),
    ("mark 1", LineFault::Syntax(6)),
    ("restore M N", LineFault::Syntax(11)),
    ("at", LineFault::Syntax(3)),
    ("at M", LineFault::Syntax(5)),
    ("at T.V dump", LineFault::Syntax(4)),
    ("at M value", LineFault::Syntax(11)),
    ("at M undo", LineFault::Syntax(6)),
    ("budget X Y", LineFault::Syntax(10)),
    ("decide Y T.V 95", LineFault::Syntax(10)),
    ("at M decide Y G", LineFault::Syntax(16)),
    ("decide Y G 90", LineFault::Level),
    ("tol G guard 1", LineFault::Row(RowFault::Syntax(7))),
    (
        "tol G upper 1 guard 4",
        LineFault::Row(RowFault::GuardRange),
    ),
    ("var", LineFault::Syntax(4)),
    ("at M var 5", LineFault::Syntax(10)),
    ("cov Y", LineFault::Syntax(6)),
    ("r Y Z 95", LineFault::Syntax(7)),
    ("dof Y Z", LineFault::Syntax(7)),
    ("report .V", LineFault::Syntax(8)),
    ("expanded Y # 95", LineFault::Syntax(11)),
    ("expanded Y 90", LineFault::Level),
    ("expanded Y 90 95", LineFault::Syntax(15)),
    ("value 5", LineFault::Syntax(7)),
    ("sens T.V ", LineFault::Syntax(9)),
    ("sens Y 5", LineFault::Syntax(8)),
    ("at M sens Y X Z", LineFault::Syntax(15)),
    ("set", LineFault::Row(RowFault::Syntax(4))),
    ("set undo", LineFault::Row(RowFault::Syntax(5))),
    ("set given X 5 foo", LineFault::Row(RowFault::Syntax(15))),
    ("remove T.V", LineFault::Syntax(8)),
    ("\0", LineFault::Row(RowFault::Syntax(1))),
];

/// Lines that are commands, what each does, and the name of its row, quantity or mark.
const READ: [(&str, &str, &str); 22] = [
    ("given X 5 std 1 # a note", "add", "X"),
    ("set let Y=5", "set", "Y"),
    ("set tol G upper 1 guard 1", "set", "G"),
    ("remove X", "remove", "X"),
    ("undo#1", "undo", ""),
    (" redo ", "redo", ""),
    ("mark M", "mark", "M"),
    ("restore M", "restore", "M"),
    ("value T.V", "value", "T.V"),
    ("var T.V", "var", "T.V"),
    ("cov Y Z", "cov", "Y"),
    ("r Y T.V", "r", "Y"),
    ("sens Y T.V", "sens", "Y"),
    ("dof Y", "dof", "Y"),
    ("report Y # two digits", "report", "Y"),
    ("expanded Y 95", "expanded at 95", "Y"),
    ("expanded Y 95.45", "expanded at 95.45", "Y"),
    ("expanded Y 99", "expanded at 99", "Y"),
    ("decide Y G 95.45", "decide at 95.45", "G"),
    ("budget T.V", "budget", "T.V"),
    ("dump", "dump", ""),
    ("at M value X", "at", "M"),
];

// What a query asks for, and the name of its quantity or rule.
fn asked_of(query: &Query) -> (&'static str, Option<Name>) {
    match query {
        Query::Value(name) => ("value", Some(*name)),
        Query::Variance(name) => ("var", Some(*name)),
        Query::Covariance(name, _) => ("cov", Some(*name)),
        Query::Correlation(name, _) => ("r", Some(*name)),
        Query::Sensitivity(name, _) => ("sens", Some(*name)),
        Query::Degrees(name) => ("dof", Some(*name)),
        Query::Report(name) => ("report", Some(*name)),
        Query::Expanded(name, Level::L95) => ("expanded at 95", Some(*name)),
        Query::Expanded(name, Level::L9545) => ("expanded at 95.45", Some(*name)),
        Query::Expanded(name, Level::L99) => ("expanded at 99", Some(*name)),
        Query::Decide(_, rule, Level::L9545) => ("decide at 95.45", Some(*rule)),
        Query::Decide(_, rule, _) => ("decide", Some(*rule)),
        Query::Budget(name) => ("budget", Some(*name)),
        Query::Dump => ("dump", None),
    }
}

// What a command does, and the name of its row, quantity or mark.
fn parts_of(command: &Command) -> (&'static str, Option<Name>) {
    match command {
        Command::Change(Edit::Add(row)) => ("add", Some(*row.name())),
        Command::Change(Edit::Set(row)) => ("set", Some(*row.name())),
        Command::Change(Edit::Remove(name)) => ("remove", Some(*name)),
        Command::Undo => ("undo", None),
        Command::Redo => ("redo", None),
        Command::Mark(name) => ("mark", Some(*name)),
        Command::Restore(name) => ("restore", Some(*name)),
        Command::Ask(query) => asked_of(query),
        Command::AskAt(name, _) => ("at", Some(*name)),
    }
}

fn fault_of(alloc: Global, line: &str) -> Result<Option<LineFault>, Fail> {
    let item = Item::Line(Bytes::from_slice(alloc, line.as_bytes())?);
    match read_command(alloc, &item) {
        Ok(_) => Ok(None),
        Err(fault) => Ok(Some(fault)),
    }
}

#[test]
fn lines_that_are_no_commands(rt: HostRuntime) -> Result<(), Fail> {
    for (line, fault) in REFUSED {
        assert_eq!(rt; fault_of(rt.alloc(), line)?, Some(fault), "at {line}");
    }
    let Err(LineFault::LongLine) = read_command(rt.alloc(), &Item::LongLine) else {
        panic!(rt; "a line that is too long");
    };
    Ok(())
}

#[test]
fn blocks_that_are_no_commands(rt: HostRuntime) -> Result<(), Fail> {
    let alloc = rt.alloc();
    let head = Bytes::from_slice(alloc, b"set table T")?;
    let body = Bytes::from_slice(alloc, b"A\n1\n")?;
    for (item, fault) in [
        (Item::Block { head, body }, LineFault::Row(RowFault::TooFew)),
        (Item::LongTable, LineFault::LongTable),
        (Item::UnclosedTable, LineFault::UnclosedTable),
    ] {
        let Err(found) = read_command(alloc, &item) else {
            panic!(rt; "a command");
        };
        assert_eq!(rt; found, fault);
    }
    Ok(())
}

#[test]
fn lines_that_are_commands(rt: HostRuntime) -> Result<(), Fail> {
    for (line, does, name) in READ {
        let item = Item::Line(Bytes::from_slice(rt.alloc(), line.as_bytes())?);
        let Ok(Some(command)) = read_command(rt.alloc(), &item) else {
            panic!(rt; "no command: {line}");
        };
        assert_eq!(rt;
            parts_of(&command),
            (does, Name::new(name.as_bytes())),
            "at {line}"
        );
    }
    let blank = Item::Line(Bytes::from_slice(rt.alloc(), b" # undo")?);
    let Ok(None) = read_command(rt.alloc(), &blank) else {
        panic!(rt; "a command in a comment");
    };
    Ok(())
}

#[test]
fn blocks_that_are_commands(rt: HostRuntime) -> Result<(), Fail> {
    let alloc = rt.alloc();
    for (line, does) in [("table T # two", "add"), ("set\ttable T", "set")] {
        let head = Bytes::from_slice(alloc, line.as_bytes())?;
        let body = Bytes::from_slice(alloc, b"A\r\n1\n2\n")?;
        let Ok(Some(command)) = read_command(alloc, &Item::Block { head, body }) else {
            panic!(rt; "no command: {line}");
        };
        assert_eq!(rt; parts_of(&command), (does, Name::new(b"T")), "at {line}");
    }
    Ok(())
}

// Whether this is the text of the reply.
fn prints(alloc: Global, reply: Reply, text: &str) -> Result<bool, Fail>
    requires told { SaysOutOfMemory reply → ⊥ }
    requires regular { IsRegularReply reply }
{
    Ok(print_reply(alloc, &reply)?.as_slice() == text.as_bytes())
}

#[test]
fn replies_are_printed(rt: HostRuntime) -> Result<(), Fail> {
    let alloc = rt.alloc();
    let name = Name::new(b"Y").ok_or("a name")?;
    let power = LineFault::Row(RowFault::BadPower(300));
    assert!(rt; prints(alloc, Reply::Fine, "ok\n")?);
    assert!(rt;
        prints(
            alloc,
            Reply::Line(LineFault::LongLine),
            "refused long_line\n"
        )?
    );
    let fault = LineFault::LongTable;
    assert!(rt; prints(alloc, Reply::Line(fault), "refused long_table\n")?);
    let fault = LineFault::UnclosedTable;
    assert!(rt; prints(alloc, Reply::Line(fault), "refused open_table\n")?);
    assert!(rt; prints(alloc, Reply::Line(power), "refused bad_power 300\n")?);
    let fault = EditFault::NotEarlier(name);
    assert!(rt; prints(alloc, Reply::Edit(fault), "refused not_earlier Y\n")?);
    let fault = HistoryFault::NothingToRedo;
    assert!(rt; prints(alloc, Reply::History(fault), "refused nothing_to_redo\n")?);
    assert!(rt;
        prints(
            alloc,
            Reply::Mark(MarkFault::MarksFull),
            "refused marks_full\n"
        )?
    );
    let fault = AskFault::NoSuchResult(name);
    assert!(rt; prints(alloc, Reply::Ask(fault), "refused no_such_result Y\n")?);
    Ok(())
}

// The rows of a sheet, and an interval, are printed as the rows and bounds are.
#[test]
fn answers_are_printed(rt: HostRuntime) -> Result<(), Fail> {
    let alloc = rt.alloc();
    let name = Name::new(b"T.V").ok_or("a name")?;
    let Ok(row) = read_row(alloc, b"let Y=X+ 2", 0) else {
        panic!(rt; "no row");
    };
    let mut rows = RowList::new(alloc)?;
    rows.push(Rc::new(alloc, row)?)?;
    assert!(rt;
        prints(
            alloc,
            Reply::Said(Answer::Dump(rows)),
            "let Y = X + 2\nok\n"
        )?
    );
    let fault = Answer::ValueFault(ArithFault::Overflow, name);
    assert!(rt; prints(alloc, Reply::Said(fault), "fault overflow T.V\n")?);
    let fault = Answer::LawOverflow;
    assert!(rt; prints(alloc, Reply::Said(fault), "fault law_overflow\n")?);
    Ok(())
}

// What is said of a correlation coefficient, of degrees, of a report and of conformity, each in the form that it has in a
// reply.
#[test]
fn results_are_printed(rt: HostRuntime) -> Result<(), Fail> {
    let alloc = rt.alloc();
    let name = Name::new(b"T.V").ok_or("a name")?;
    let other = Name::new(b"Y").ok_or("a name")?;
    let said = Answer::Correlation(name, other, CorrSaid::Hundredths(-36));
    assert!(rt; prints(alloc, Reply::Said(said), "r T.V Y -0.36\n")?);
    let said = Answer::Degrees(name, DofSaid::Whole(6_427_915));
    assert!(rt; prints(alloc, Reply::Said(said), "dof T.V 6427915\n")?);
    let rounded = Reported::Rounded {
        estimate: 100_011,
        m: 50,
        e: -3,
    };
    let said = Answer::Report(name, rounded);
    assert!(rt; prints(alloc, Reply::Said(said), "report T.V 100.011 u 0.050\n")?);
    let said = Answer::Expanded(name, rounded, Dec::whole(2));
    assert!(rt;
        prints(
            alloc,
            Reply::Said(said),
            "expanded T.V 100.011 U 0.050 k 2\n"
        )?
    );
    let exact = Reported::Exact(Dec::whole(3));
    let said = Answer::Expanded(name, exact, Dec::whole(2));
    assert!(rt; prints(alloc, Reply::Said(said), "expanded T.V 3 U 0 k 2\n")?);
    let said = Answer::Expanded(name, Reported::Unsettled, Dec::whole(2));
    assert!(rt; prints(alloc, Reply::Said(said), "expanded T.V undecided\n")?);
    let said = Answer::Decision(name, other, Said::ConditionalFail);
    assert!(rt; prints(alloc, Reply::Said(said), "decide T.V Y ConditionalFail\n")?);
    let first = Condition::Near;
    let said = Answer::Decision(name, other, Said::Undecided { first });
    assert!(rt; prints(alloc, Reply::Said(said), "decide T.V Y Undecided 3\n")?);
    Ok(())
}

// The budget of one input.
fn print_budget_of_one<L: Ledger>(rt: &impl Abort, alloc: Global, blank: Blank) -> Result<(), Fail>
    requires name { blank.name ≡ L.name }
    requires parts { blank.parts ≡ L.parts }
    requires one { L.parts ≡ 1 }
{
    let mut steps: Steps<L> = Steps::new(blank);
    let name = Name::new(b"T.V").ok_or("a name")?;
    let variance = point(Dec::whole(36), &mut steps);
    let mut lines = BudgetLines::new(alloc)?;
    lines.push(BudgetLine::Input {
        name,
        value: point(Dec::whole(5), &mut steps),
        variance: point(Dec::whole(4), &mut steps),
        sens: point(Dec::whole(-3), &mut steps),
        own: variance,
    })?;
    lines.push(BudgetLine::Group { name, variance })?;
    let name = Name::new(b"Y").ok_or("a name")?;
    let said = Reply::Said(Answer::Budget(lines, name, variance));
    let text =
        "input T.V value 5 5 var 4 4 sens -3 -3 own 36 36\ngroup T.V 36 36\nbudget Y 36 36\n";
    assert!(rt; prints(alloc, said, text)?);
    Ok(())
}

#[test]
fn budgets_are_printed(rt: HostRuntime) -> Result<(), Fail> {
    print_budget_of_one::<Brand>(&rt, rt.alloc(), Blank::new(1))
}
