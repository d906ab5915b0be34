ghost use Rattle.std.specs.Prelude.{◌≡◌, ◌≤◌, ◌<◌, ◌^◌, length, None, IfOk};
ghost use Rattle.std.specs.Io.{WritesAtMost};
ghost use Rattle.std.specs.Io.KnownBytes.{WriteAppends};
ghost use Rattle.byte_io.specs.Faults.{CountsFault};

use crate::{Failed, Sink};
use std::io::Write;

/// A writer of the standard library as a sink, which is not bounded.
///
/// It tells no content. Each error of the writer is a fault, that of an interrupted write too, and so
/// is a write that takes nothing of a piece that is not empty; at 2^64 - 1 the count of faults stays.
#[derive(Drop)]
pub struct StdSink<W> {
    writer: W,
    faults: u64,
}

impl<W: Write> StdSink<W> {
    /// A sink over this writer, to which nothing is written yet.
    pub fn new(writer: W) -> StdSink<W>
        ensures written { ⟦<StdSink<W> as Sink>⟧.written result ≡ None }
        ensures room { ⟦<StdSink<W> as Sink>⟧.room result ≡ None }
        ensures faults { ⟦<StdSink<W> as Sink>⟧.faults result ≡ 0 }
    {
        StdSink { writer, faults: 0 }
    }
}

impl<W: Write> Sink for StdSink<W> {
    ghost written = { λ _. None };

    ghost room = { λ _. None };

    ghost faults = { λ s. s.faults };

    /// Fails where the writer answers an error, or takes nothing of a piece that is not empty.
    fn write(&mut self, piece: &[u8]) -> Result<usize, Failed>
        // What it takes, the writer took: where the writer's bytes are known, they grow by it, and by
        // nothing at a failure.
        ensures passed_on { WriteAppends (W.contents self.old.writer) (W.contents self.new.writer)
            result piece.now }

        // What the trait says, with the faults counted.
        ensures bound { WritesAtMost result piece.now }
        ensures some { IfOk result (λ n. 0 < length piece.now → 0 < n) }
        ensures faults { CountsFault (⟦<StdSink<W> as Sink>⟧.faults self.old)
            (⟦<StdSink<W> as Sink>⟧.faults self.new) result }
        ensures never_falls { ⟦<StdSink<W> as Sink>⟧.faults self.old
            ≤ ⟦<StdSink<W> as Sink>⟧.faults self.new }
        ensures fits { ⟦<StdSink<W> as Sink>⟧.faults self.new < 2 ^ 64 }
    {
        let _faults = self.faults;
        match self.writer.write(piece) {
            Ok(n) if n > 0 || piece.is_empty() => Ok(n),
            _ => {
                self.faults = self.faults.saturating_add(1);
                Err(Failed)
            }
        }
    }
}
