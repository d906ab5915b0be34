//! What `run` asks of its source, and how the program tells each ending.

ghost use Rattle.std.specs.Prelude.{◌≡◌, ◌≤◌, ◌^◌, None};

use crate::exit::Ending;
use crate::run::{Status, run};
use byte_io::{Failed, Source, StdSink};
use fixed_interval::Steps;
use std::marker::Brand;
use std::sync::ledger::{Blank, Ledger};
use std::test::Fail;

// Line feeds, with an account of the reads that asked for them.
#[derive(Drop)]
struct LineFeeds {
    left: usize,
    given: u64,
    ended: bool,
    shortest_piece: usize,
    longest_piece: usize,
    reads: u32,
    reads_after_end: u32,
}

impl LineFeeds {
    fn new(left: usize) -> LineFeeds
        ensures { ⟦<LineFeeds as Source>⟧.count result ≡ 0 }
    {
        LineFeeds {
            left,
            given: 0,
            ended: false,
            shortest_piece: usize::MAX,
            longest_piece: 0,
            reads: 0,
            reads_after_end: 0,
        }
    }

    // Enters a read of a piece of this length.
    fn enter(&mut self, length: usize)
        ensures given { self.new.given ≡ self.old.given }
        ensures ended { self.new.ended ≡ self.old.ended }
    {
        self.shortest_piece = self.shortest_piece.min(length);
        self.longest_piece = self.longest_piece.max(length);
        self.reads = self.reads.saturating_add(1);
        if self.ended {
            self.reads_after_end = self.reads_after_end.saturating_add(1);
        }
    }
}

impl Source for LineFeeds {
    ghost count = { λ s. s.given };

    ghost taken = { λ _. None };

    ghost left = { λ _. None };

    ghost ended = { λ s. s.ended };

    ghost faults = { λ _. 0 };

    fn read(&mut self, piece: &mut [u8]) -> Result<usize, Failed> {
        self.enter(piece.len());
        let count = self.left.min(piece.len());
        piece[..count].fill(b'\n');
        self.left -= count;
        self.given += count as u64;
        if !piece.is_empty() {
            self.ended = count == 0;
        }
        Ok(count)
    }

    ghost is_counted = { λ s. tt };
}

// Runs on these line feeds, with a counter for the ledger that `blank` stands for.
fn run_on<L: Ledger>(rt: &HostRuntime, source: &mut LineFeeds, blank: Blank) -> Result<Status, Fail>
    requires name { blank.name ≡ L.name }
    requires parts { blank.parts ≡ L.parts }
    requires one { L.parts ≡ 1 }
    requires count { ⟦<LineFeeds as Source>⟧.count source.old ≤ 2 ^ 62 }
{
    let mut words = Vec::new(rt.alloc());
    words.push(String::from_str(rt.alloc(), "gumtree")?)?;
    words.push(String::from_str(rt.alloc(), "run")?)?;
    let mut replies = Vec::new(rt.alloc());
    let mut sink = StdSink::new(&mut replies);
    let mut steps = Steps::<L>::new(blank);
    Ok(run(rt.alloc(), &words, source, &mut sink, &mut steps))
}

// Two reads take all line feeds, and one more meets the end.
#[test]
fn reads_whole_pieces_to_the_end(rt: HostRuntime) -> Result<(), Fail> {
    let mut source = LineFeeds::new(100_000);
    let status = run_on::<Brand>(&rt, &mut source, Blank::new(1))?;
    assert_eq!(rt; status, Status::Done);
    assert_eq!(rt; source.shortest_piece, 65_536);
    assert_eq!(rt; source.longest_piece, 65_536);
    assert_eq!(rt; source.reads, 3);
    assert_eq!(rt; source.reads_after_end, 0);
    Ok(())
}

// 256 pieces reach the limit, and one more passes it.
#[test]
fn reads_one_piece_past_the_limit(rt: HostRuntime) -> Result<(), Fail> {
    let mut source = LineFeeds::new(20_000_000);
    let status = run_on::<Brand>(&rt, &mut source, Blank::new(1))?;
    assert_eq!(rt; status, Status::InputLimit);
    assert_eq!(rt; source.shortest_piece, 65_536);
    assert_eq!(rt; source.longest_piece, 65_536);
    assert_eq!(rt; source.reads, 257);
    Ok(())
}

#[test]
fn tells_each_ending(rt: HostRuntime) {
    let endings = [
        (Ending::Ran(Status::Done), 0, None),
        (
            Ending::Ran(Status::Usage),
            2,
            Some("usage: gumtree run | make --rows N --start S"),
        ),
        (Ending::Ran(Status::ReadFault), 3, Some("read fault")),
        (Ending::Ran(Status::WriteFault), 4, Some("write fault")),
        (Ending::Ran(Status::InputLimit), 5, Some("input too long")),
        (Ending::Ran(Status::OutOfMemory), 6, Some("out of memory")),
        (Ending::NoWords, 7, Some("no words")),
    ];
    for (ending, code, message) in endings {
        assert_eq!(rt; ending.exit_code(), code);
        assert_eq!(rt; ending.message(), message);
    }
}
