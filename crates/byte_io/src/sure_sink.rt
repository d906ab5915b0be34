ghost use Rattle.std.specs.Prelude.{◌≡◌, ◌+◌, ◌≤◌, length, [], Some, vec_len, vec_capacity, IsOk, IfOk};
ghost use Rattle.std.specs.Io.KnownBytes.{WriteAppends};
ghost use Rattle.byte_io.specs.Sink.{HasRoom, UsesRoom};

use crate::{Failed, OutOfMemory, Sink};
use std::alloc::Global;

/// A buffer in memory with a stated room. Its writes never fail.
#[derive(Drop)]
pub struct SureSink {
    bytes: Vec<u8>,
    room: usize,
    ghost reserved: { vec_len bytes + room ≤ vec_capacity bytes },
}

impl SureSink {
    /// A sink with room for `room` bytes, of which none is written yet. The room is made here, so
    /// that no write needs memory.
    ///
    /// # Errors
    ///
    /// [`OutOfMemory`] where there is no memory for the room.
    pub fn new(alloc: Global, room: usize) -> Result<SureSink, OutOfMemory>
        ensures written { IfOk result (λ sink. ⟦<SureSink as Sink>⟧.written sink ≡ Some []) }
        ensures room { IfOk result (λ sink. ⟦<SureSink as Sink>⟧.room sink ≡ Some room) }
        ensures faults { IfOk result (λ sink. ⟦<SureSink as Sink>⟧.faults sink ≡ 0) }
    {
        let bytes = Vec::with_capacity(alloc, room)?;
        Ok(SureSink { bytes, room })
    }

    /// The bytes written so far.
    pub fn written(&self) -> &[u8]
        ensures { ⟦<SureSink as Sink>⟧.written self.now ≡ Some result.now }
    {
        &self.bytes
    }
}

impl Sink for SureSink {
    ghost written = { λ s. Some s.bytes.items };

    ghost room = { λ s. Some s.room };

    ghost faults = { λ _. 0 };

    /// Never fails, and takes the whole piece.
    fn write(&mut self, piece: &[u8]) -> Result<usize, Failed>
        requires { HasRoom (⟦<SureSink as Sink>⟧.room self.old) (length piece.now) }

        ensures sure { IsOk result }
        ensures whole { IfOk result (λ n. n ≡ length piece.now) }

        // What else the trait says.
        ensures written { WriteAppends (⟦<SureSink as Sink>⟧.written self.old)
            (⟦<SureSink as Sink>⟧.written self.new) result piece.now }
        ensures room { UsesRoom (⟦<SureSink as Sink>⟧.room self.old)
            (⟦<SureSink as Sink>⟧.room self.new) result }
    {
        self.bytes.extend_from_slice(piece).unwrap();
        self.room -= piece.len();
        Ok(piece.len())
    }
}
