ghost use Rattle.std.specs.Prelude.{◌≡◌, ℕ, Bool, List, Option, length, ◌≤◌, ◌<◌, ◌^◌};
ghost use Rattle.std.specs.Io.{ReadsAtMost};
ghost use Rattle.std.specs.Io.KnownBytes.{WriteAppends, ReadConsumes};
ghost use Rattle.byte_io.specs.Told.{SameTold};
ghost use Rattle.byte_io.specs.Faults.{HasCause};
ghost use Rattle.byte_io.specs.Source.{Counts, MeetsEnd, IsCounted};

use crate::Failed;

/// Where bytes come from.
pub trait Source {
    // The number of bytes taken so far.
    ghost count: { Self → ℕ };

    // The bytes taken so far, where the source tells them.
    ghost taken: { Self → Option (List ℕ) };

    // The bytes that are left, where the source tells them.
    ghost left: { Self → Option (List ℕ) };

    // Whether the end was met.
    ghost ended: { Self → Bool };

    // The count of faults.
    ghost faults: { Self → ℕ };

    /// Reads into the start of `piece` and answers how many bytes it gave, none for a piece that is
    /// not empty exactly at the end. A read into an empty piece leaves whether the end was met. After
    /// [`Failed`] the source stands where it stood, but for its count of faults. What stands after the
    /// bytes given is not said.
    fn read(&mut self, piece: &mut [u8]) -> Result<usize, Failed>
        requires { count self.old ≤ 2 ^ 63 }

        ensures bound { ReadsAtMost result piece.new }
        ensures count { Counts (count self.old) (count self.new) result }

        // The start of the piece is appended to what was taken, and gone from what was left.
        ensures taken { WriteAppends (taken self.old) (taken self.new) result piece.new }
        ensures left { ReadConsumes (left self.old) (left self.new) result piece.new }
        ensures taken_told { SameTold (taken self.old) (taken self.new) }
        ensures left_told { SameTold (left self.old) (left self.new) }
        ensures end { MeetsEnd (ended self.old) (ended self.new) result piece.new }
        ensures end_stays { length piece.new ≡ 0 → ended self.new ≡ ended self.old }

        // Failed only where the count of faults rose, which never falls.
        ensures cause { HasCause (faults self.old) (faults self.new) result }
        ensures never_falls { faults self.old ≤ faults self.new }
        ensures fits { faults self.new < 2 ^ 64 };

    // The bytes that are told are as many as were counted.
    ghost is_counted: { (source : Self) → IsCounted (taken source) (count source) };
}
