//! Generated scripts, and words that the program does not know.

ghost use Rattle.std.specs.Prelude.{◌≡◌, ◌≤◌, ◌^◌, ◌∷◌, [], map, codes, string_bytes, IfOk};
ghost use Rattle.gum_cli.specs.Run.{asked, RoomForAsked};

use crate::run::{Status, run};
use crate::tests::{replies_to, run_streams, words};
use byte_io::{MemorySink, MemorySource, Sink, Source};
use fixed_interval::Steps;
use std::marker::Brand;
use std::sync::ledger::{Blank, Ledger};
use std::test::Fail;

// The script of two rows that is generated from 0, and the replies to it.
const LEAST: &[u8; 813] =
    b"given X1 100 std 4\nlet Y2 = (X1 + X1) / 2\nvalue Y2\nset given X1 1001 std 1\nvalue Y2\nundo\nvalue Y2\nset given X1 1002 std 1\nvalue Y2\nundo\nvalue Y2\nset given X1 1003 std 1\nvalue Y2\nundo\nvalue Y2\nset given X1 1004 std 1\nvalue Y2\nundo\nvalue Y2\nset given X1 1005 std 1\nvalue Y2\nundo\nvalue Y2\nset given X1 1006 std 1\nvalue Y2\nundo\nvalue Y2\nset given X1 1007 std 1\nvalue Y2\nundo\nvalue Y2\nset given X1 1008 std 1\nvalue Y2\nundo\nvalue Y2\nset given X1 1009 std 1\nvalue Y2\nundo\nvalue Y2\nset given X1 1010 std 1\nvalue Y2\nundo\nvalue Y2\nset given X1 1011 std 1\nvalue Y2\nundo\nvalue Y2\nset given X1 1012 std 1\nvalue Y2\nundo\nvalue Y2\nset given X1 1013 std 1\nvalue Y2\nundo\nvalue Y2\nset given X1 1014 std 1\nvalue Y2\nundo\nvalue Y2\nset given X1 1015 std 1\nvalue Y2\nundo\nvalue Y2\nset given X1 1016 std 1\nvalue Y2\nundo\nvalue Y2\nreport Y2\n";

const LEAST_REPLIES: &[u8; 717] =
    b"ok\nok\nvalue Y2 100 100\nok\nvalue Y2 1001 1001\nok\nvalue Y2 100 100\nok\nvalue Y2 1002 1002\nok\nvalue Y2 100 100\nok\nvalue Y2 1003 1003\nok\nvalue Y2 100 100\nok\nvalue Y2 1004 1004\nok\nvalue Y2 100 100\nok\nvalue Y2 1005 1005\nok\nvalue Y2 100 100\nok\nvalue Y2 1006 1006\nok\nvalue Y2 100 100\nok\nvalue Y2 1007 1007\nok\nvalue Y2 100 100\nok\nvalue Y2 1008 1008\nok\nvalue Y2 100 100\nok\nvalue Y2 1009 1009\nok\nvalue Y2 100 100\nok\nvalue Y2 1010 1010\nok\nvalue Y2 100 100\nok\nvalue Y2 1011 1011\nok\nvalue Y2 100 100\nok\nvalue Y2 1012 1012\nok\nvalue Y2 100 100\nok\nvalue Y2 1013 1013\nok\nvalue Y2 100 100\nok\nvalue Y2 1014 1014\nok\nvalue Y2 100 100\nok\nvalue Y2 1015 1015\nok\nvalue Y2 100 100\nok\nvalue Y2 1016 1016\nok\nvalue Y2 100 100\nreport Y2 100.0 u 4.0\n";

// Words after the program's name that it does not know.
const UNKNOWN: [&[&str]; 22] = [
    &[],
    &[""],
    &["help"],
    &["--help"],
    &["-h"],
    &["--version"],
    &["drill", "--rows", "2", "--start", "0"],
    &["run", "run"],
    &["run", "--"],
    &["--", "run"],
    &["make"],
    &["make", "--help"],
    &["make", "--rows", "1", "--start", "0"],
    &["make", "--rows", "4097", "--start", "0"],
    &["make", "--rows", "00002", "--start", "0"],
    &["make", "--rows", "+2", "--start", "0"],
    &["make", "--rows", "2", "--start", "2147483648"],
    &["make", "--rows", "2", "--start", "-1"],
    &["make", "--rows", "2"],
    &["make", "--rows", "2", "--rows", "2", "--start", "0"],
    &["make", "--rows", "2", "--rows=2", "--start", "0"],
    &["make", "--rows=2", "--start=0", "extra"],
];

// The program's name and these words.
fn words_of(rt: &HostRuntime, after: &[&str]) -> Result<Vec<String>, Fail> {
    let mut words = Vec::new(rt.alloc());
    words.push(String::from_str(rt.alloc(), "gumtree")?)?;
    for word in after {
        words.push(String::from_str(rt.alloc(), word)?)?;
    }
    Ok(words)
}

// What is written at these words after the program's name, where there is nothing to read.
fn written_at(rt: &HostRuntime, after: &[&str]) -> Result<(Status, Vec<u8>), Fail> {
    run_streams::<Brand>(rt, &words_of(rt, after)?, b"undo\n", Blank::new(1))
}

#[test]
fn makes_the_least_script(rt: HostRuntime) -> Result<(), Fail> {
    for after in [
        ["make", "--rows", "2", "--start", "0"].as_slice(),
        ["make", "--start", "0", "--rows", "0002"].as_slice(),
        ["make", "--start=0", "--rows=2"].as_slice(),
        ["make", "--rows=2", "--start", "0000000000"].as_slice(),
    ] {
        let (status, script) = written_at(&rt, after)?;
        assert_eq!(rt; status, Status::Done);
        assert_eq!(rt; script.as_slice(), LEAST.as_slice());
    }
    let (status, replies) = replies_to(&rt, "run", LEAST.as_slice())?;
    assert_eq!(rt; status, Status::Done);
    assert_eq!(rt; replies.as_slice(), LEAST_REPLIES.as_slice());
    Ok(())
}

#[test]
fn knows_no_other_words(rt: HostRuntime) -> Result<(), Fail> {
    for after in UNKNOWN {
        let (status, written) = written_at(&rt, after)?;
        assert_eq!(rt; status, Status::Usage);
        assert_eq!(rt; written.len(), 0);
    }
    Ok(())
}

// The words `gumtree make --start=0 --rows=2`.
fn least_words(rt: &HostRuntime) -> Result<Vec<String>, Fail>
    ensures { IfOk result (λ words. map string_bytes words.items
        ≡ codes "gumtree" ∷ codes "make" ∷ codes "--start=0" ∷ codes "--rows=2" ∷ []) }
{
    let mut words = words(rt, "make")?;
    words.push(String::from_str(rt.alloc(), "--start=0")?)?;
    words.push(String::from_str(rt.alloc(), "--rows=2")?)?;
    Ok(words)
}

// Runs between objects in memory, with a counter for the ledger that `blank` stands for.
fn run_at<L: Ledger>(
    rt: &HostRuntime,
    words: &Vec<String>,
    source: &mut MemorySource,
    sink: &mut MemorySink,
    blank: Blank,
) -> Status
    requires name { blank.name ≡ L.name }
    requires parts { blank.parts ≡ L.parts }
    requires one { L.parts ≡ 1 }
    requires count { ⟦<MemorySource as Source>⟧.count source.old ≤ 2 ^ 62 }
    requires room { RoomForAsked (asked words.now.items) (⟦<MemorySink as Sink>⟧.room sink.old) (⟦<MemorySource as Source>⟧.left source.old) }
{
    let mut steps = Steps::<L>::new(blank);
    run(rt.alloc(), words, source, sink, &mut steps)
}

// A sink with room for the script alone, whose second write fails or none.
fn made_into(rt: &HostRuntime, fails: Vec<u64>) -> Result<(Status, MemorySink), Fail> {
    let mut source = MemorySource::new(
        b"undo\n".to_vec(rt.alloc())?,
        Vec::new(rt.alloc()),
        Vec::new(rt.alloc()),
    );
    let mut sink = MemorySink::new(rt.alloc(), 813, fails)?;
    let words = least_words(rt)?;
    let status = run_at::<Brand>(rt, &words, &mut source, &mut sink, Blank::new(1));
    Ok((status, sink))
}

#[test]
fn makes_into_a_sink_in_memory(rt: HostRuntime) -> Result<(), Fail> {
    let (status, sink) = made_into(&rt, Vec::new(rt.alloc()))?;
    assert_eq!(rt; status, Status::Done);
    assert_eq!(rt; sink.written(), LEAST.as_slice());
    let (status, sink) = made_into(&rt, [1].to_vec(rt.alloc())?)?;
    assert_eq!(rt; status, Status::WriteFault);
    assert_eq!(rt; sink.written().len(), 0);
    Ok(())
}
