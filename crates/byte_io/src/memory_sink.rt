ghost use Rattle.std.specs.Prelude.{◌≡◌, ◌↔◌, ◌≤◌, ◌<◌, ◌^◌, length, [], Some, IsErr, IfOk, Contains};
ghost use Rattle.std.specs.Io.KnownBytes.{WriteAppends};
ghost use Rattle.byte_io.specs.Faults.{next_count, CountsFault};
ghost use Rattle.byte_io.specs.Sink.{HasRoom, UsesRoom};

use crate::schedule::Schedule;
use crate::{Failed, OutOfMemory, Sink, SureSink};
use std::alloc::Global;

/// A buffer in memory with a stated room, and with writes that are to fail.
///
/// Calls of `write` are counted from 1, those that fail too; at 2^64 - 1 the number stays. A call
/// answers [`Failed`] exactly where its number is in the list.
#[derive(Drop)]
pub struct MemorySink {
    sink: SureSink,
    schedule: Schedule,
}

impl MemorySink {
    ghost use Rattle.byte_io.specs.MemorySink.{failing_calls, calls_made};

    /// A sink with room for `room` bytes, of which none is written yet. `fails` holds the numbers of
    /// the writes that are to fail. The room is made here, so that no write needs memory.
    ///
    /// # Errors
    ///
    /// [`OutOfMemory`] where there is no memory for the room.
    pub fn new(alloc: Global, room: usize, fails: Vec<u64>) -> Result<MemorySink, OutOfMemory>
        ensures written { IfOk result (λ sink. ⟦<MemorySink as Sink>⟧.written sink ≡ Some []) }
        ensures room { IfOk result (λ sink. ⟦<MemorySink as Sink>⟧.room sink ≡ Some room) }
        ensures faults { IfOk result (λ sink. ⟦<MemorySink as Sink>⟧.faults sink ≡ 0) }

        ensures fails { IfOk result (λ sink. failing_calls sink ≡ fails.items) }
        ensures calls { IfOk result (λ sink. calls_made sink ≡ 0) }
    {
        Ok(MemorySink {
            sink: SureSink::new(alloc, room)?,
            schedule: Schedule::new(fails),
        })
    }

    /// The bytes written so far.
    pub fn written(&self) -> &[u8]
        ensures { ⟦<MemorySink as Sink>⟧.written self.now ≡ Some result.now }
    {
        self.sink.written()
    }
}

impl Sink for MemorySink {
    ghost use Rattle.byte_io.specs.MemorySink.{failing_calls, calls_made};

    ghost written = { λ s. ⟦<SureSink as Sink>⟧.written s.sink };

    ghost room = { λ s. ⟦<SureSink as Sink>⟧.room s.sink };

    ghost faults = { λ s. s.schedule.faults };

    /// Fails exactly at the calls that are listed, and else takes the whole piece.
    fn write(&mut self, piece: &[u8]) -> Result<usize, Failed>
        requires { HasRoom (⟦<MemorySink as Sink>⟧.room self.old) (length piece.now) }

        ensures listed { IsErr result
            ↔ Contains (failing_calls self.old) (next_count (calls_made self.old)) }
        ensures whole { IfOk result (λ n. n ≡ length piece.now) }

        // How the schedule goes on.
        ensures calls { calls_made self.new ≡ next_count (calls_made self.old) }
        ensures fails { failing_calls self.new ≡ failing_calls self.old }

        // What else the trait says, with the faults counted.
        ensures written { WriteAppends (⟦<MemorySink as Sink>⟧.written self.old)
            (⟦<MemorySink as Sink>⟧.written self.new) result piece.now }
        ensures room { UsesRoom (⟦<MemorySink as Sink>⟧.room self.old)
            (⟦<MemorySink as Sink>⟧.room self.new) result }
        ensures faults { CountsFault (⟦<MemorySink as Sink>⟧.faults self.old)
            (⟦<MemorySink as Sink>⟧.faults self.new) result }
        ensures never_falls { ⟦<MemorySink as Sink>⟧.faults self.old
            ≤ ⟦<MemorySink as Sink>⟧.faults self.new }
        ensures fits { ⟦<MemorySink as Sink>⟧.faults self.new < 2 ^ 64 }
    {
        let _faults = self.schedule.faults;
        if self.schedule.count_call() {
            return Err(Failed);
        }
        self.sink.write(piece)
    }
}
