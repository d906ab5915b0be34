ghost use Rattle.std.specs.Prelude.{ℕ, List, Option, length, IfOk, ◌≤◌, ◌<◌, ◌^◌};
ghost use Rattle.std.specs.Io.{WritesAtMost};
ghost use Rattle.std.specs.Io.KnownBytes.{WriteAppends};
ghost use Rattle.byte_io.specs.Told.{SameTold};
ghost use Rattle.byte_io.specs.Faults.{HasCause};
ghost use Rattle.byte_io.specs.Sink.{HasRoom, UsesRoom};

use crate::Failed;

/// Where bytes go.
pub trait Sink {
    // The bytes written so far, where the sink tells them.
    ghost written: { Self → Option (List ℕ) };

    // The room that is left, where the sink is bounded.
    ghost room: { Self → Option ℕ };

    // The count of faults.
    ghost faults: { Self → ℕ };

    /// Writes the start of `piece` and answers how many bytes it took, at least one of a piece that
    /// is not empty. After [`Failed`] the sink stands where it stood, but for its count of faults.
    fn write(&mut self, piece: &[u8]) -> Result<usize, Failed>
        requires { HasRoom (room self.old) (length piece.now) }

        ensures bound { WritesAtMost result piece.now }
        ensures some { IfOk result (λ n. 0 < length piece.now → 0 < n) }

        // The start of the piece is appended to what was written, and uses its room.
        ensures written { WriteAppends (written self.old) (written self.new) result piece.now }
        ensures told { SameTold (written self.old) (written self.new) }
        ensures room { UsesRoom (room self.old) (room self.new) result }

        // Failed only where the count of faults rose, which never falls.
        ensures cause { HasCause (faults self.old) (faults self.new) result }
        ensures never_falls { faults self.old ≤ faults self.new }
        ensures fits { faults self.new < 2 ^ 64 };
}
