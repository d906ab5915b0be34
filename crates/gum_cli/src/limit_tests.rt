//! Refusals at the limits of a sheet and of its history, each between two equal dumps.

use crate::run::Status;
use crate::tests::replies_to;
use std::alloc::Global;
use std::test::Fail;

// A script, and the replies that it must have.
#[derive(Drop)]
struct Dialogue {
    script: Vec<u8>,
    replies: Vec<u8>,
}

impl Dialogue {
    fn new(alloc: Global) -> Dialogue {
        Dialogue {
            script: Vec::new(alloc),
            replies: Vec::new(alloc),
        }
    }

    // Adds a line and its reply.
    fn ask(&mut self, line: &str, reply: &str) -> Result<(), Fail> {
        self.script.extend_from_slice(line.as_bytes())?;
        self.script.push(b'\n')?;
        self.replies.extend_from_slice(reply.as_bytes())?;
        self.replies.push(b'\n')?;
        Ok(())
    }

    // Adds a line that is refused between two dumps, each of which prints these rows.
    fn refuse(&mut self, line: &str, refusal: &str, rows: &[u8]) -> Result<(), Fail> {
        self.script.extend_from_slice(b"dump\n")?;
        self.replies.extend_from_slice(rows)?;
        self.ask(line, refusal)?;
        self.script.extend_from_slice(b"dump\n")?;
        self.replies.extend_from_slice(rows)?;
        Ok(())
    }
}

// Runs the script and compares the replies.
macro_rules! assert_answered {
    ($rt:expr; $dialogue:expr) => {
        let (status, replies) = replies_to(&$rt, "run", &$dialogue.script)?;
        assert_eq!($rt; status, Status::Done);
        assert_eq!($rt; replies.as_slice(), $dialogue.replies.as_slice());
    };
}

#[test]
fn refuses_the_row_past_the_limit(rt: HostRuntime) -> Result<(), Fail> {
    let mut dialogue = Dialogue::new(rt.alloc());
    let mut rows = Vec::new(rt.alloc());
    for number in 0..4096u32 {
        let line = format!(in rt.alloc(); "given r{number} 0 exact")?;
        dialogue.ask(&line, "ok")?;
        rows.extend_from_slice(line.as_bytes())?;
        rows.push(b'\n')?;
    }
    rows.extend_from_slice(b"ok\n")?;
    // It is the first refusal, whatever else is wrong with the row.
    dialogue.refuse("let r0 = nothing", "refused rows_full", &rows)?;
    dialogue.ask("set given r0 1 exact", "ok")?;
    dialogue.ask("value r0", "value r0 1 1")?;
    assert_answered!(rt; dialogue);
    Ok(())
}

#[test]
fn refuses_the_mark_past_the_limit(rt: HostRuntime) -> Result<(), Fail> {
    let mut dialogue = Dialogue::new(rt.alloc());
    dialogue.ask("given X 5 std 1", "ok")?;
    for number in 0..16u32 {
        let line = format!(in rt.alloc(); "mark m{number}")?;
        dialogue.ask(&line, "ok")?;
    }
    dialogue.refuse("mark other", "refused marks_full", b"given X 5 std 1\nok\n")?;
    dialogue.ask("at other dump", "refused no_mark other")?;
    assert_answered!(rt; dialogue);
    Ok(())
}

#[test]
fn refuses_a_long_line(rt: HostRuntime) -> Result<(), Fail> {
    let mut dialogue = Dialogue::new(rt.alloc());
    dialogue.ask("given X 5 std 1", "ok")?;
    let mut long = String::from_str(rt.alloc(), "remove X")?;
    for _ in 0..65_536u32 {
        long.push(' ')?;
    }
    dialogue.refuse(&long, "refused long_line", b"given X 5 std 1\nok\n")?;
    assert_answered!(rt; dialogue);
    Ok(())
}

#[test]
fn refuses_the_reading_past_the_limit(rt: HostRuntime) -> Result<(), Fail> {
    let mut dialogue = Dialogue::new(rt.alloc());
    dialogue.ask("given X 5 std 1", "ok")?;
    let mut readings = String::from_str(rt.alloc(), "readings R")?;
    for _ in 0..1_001u32 {
        readings.push(' ')?;
        readings.push('1')?;
    }
    dialogue.refuse(&readings, "refused too_many", b"given X 5 std 1\nok\n")?;
    assert_answered!(rt; dialogue);
    Ok(())
}

// A block of 1,048,576 blanks and their line feed.
#[test]
fn refuses_a_long_table(rt: HostRuntime) -> Result<(), Fail> {
    let mut dialogue = Dialogue::new(rt.alloc());
    dialogue.ask("given X 5 std 1", "ok")?;
    let mut table = String::from_str(rt.alloc(), "table T\n")?;
    for _ in 0..1_048_576u32 {
        table.push(' ')?;
    }
    for letter in ['\n', 'e', 'n', 'd'] {
        table.push(letter)?;
    }
    dialogue.refuse(&table, "refused long_table", b"given X 5 std 1\nok\n")?;
    assert_answered!(rt; dialogue);
    Ok(())
}

// Of the sheets before 257 edits the oldest, which is empty, is dropped: 256 steps lead back to t = 0.
#[test]
fn goes_256_steps_back_and_forward(rt: HostRuntime) -> Result<(), Fail> {
    let mut dialogue = Dialogue::new(rt.alloc());
    dialogue.ask("given t 0 exact", "ok")?;
    for number in 1..257u32 {
        let line = format!(in rt.alloc(); "set given t {number} exact")?;
        dialogue.ask(&line, "ok")?;
    }
    dialogue.refuse(
        "redo",
        "refused nothing_to_redo",
        b"given t 256 exact\nok\n",
    )?;
    for number in 0..256u32 {
        dialogue.ask("undo", "ok")?;
        let value = 255 - number;
        let reply = format!(in rt.alloc(); "value t {value} {value}")?;
        dialogue.ask("value t", &reply)?;
    }
    dialogue.refuse("undo", "refused nothing_to_undo", b"given t 0 exact\nok\n")?;
    dialogue.ask("redo", "ok")?;
    dialogue.ask("value t", "value t 1 1")?;
    assert_answered!(rt; dialogue);
    Ok(())
}
