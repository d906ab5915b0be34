ghost use Rattle.std.specs.Prelude.{◌≡◌, ◌↔◌, ℕ, ◌≤◌, ◌<◌, ◌^◌, min, length, drop, [], Some, false, IsErr, IfOk, IfSome, MatchResult, All, Contains};
ghost use Rattle.std.specs.Io.{ReadsAtMost};
ghost use Rattle.std.specs.Io.KnownBytes.{WriteAppends, ReadConsumes};
ghost use Rattle.byte_io.specs.Faults.{next_count, CountsFault};
ghost use Rattle.byte_io.specs.Source.{Counts, MeetsEnd};
ghost use Rattle.byte_io.specs.Memory.{piece_of};
ghost use Rattle.std.proofs.Common.{rules};

use crate::schedule::Schedule;
use crate::{Failed, Source, SureSource};

/// Bytes in memory, given in pieces of stated lengths, with reads that are to fail.
///
/// Calls of `read` are counted from 1, those that fail too; at 2^64 - 1 the number stays. A call
/// answers [`Failed`] exactly where its number is in the list.
///
/// Each answer that is not [`Failed`] uses up one length of the list, and gives as many bytes as are
/// left and fit, but no more than that length: what did not fit comes with the next length. Where the
/// lengths are used up, a read gives as many bytes as are left and fit.
#[derive(Drop)]
pub struct MemorySource {
    source: SureSource,
    schedule: Schedule,
    pieces: Vec<usize>,
    given: usize,
    ghost positive: { All (λ n. 1 ≤ n) pieces.items },
}

// The length of the next piece, which is then used up, and the greatest number where none is left.
fn next_length(pieces: &[usize], given: &mut usize) -> usize
    ensures length { (n : ℕ) → n < 2 ^ 64 → piece_of (drop given.old pieces.now) n ≡ min result n }
    ensures some { All (λ n. 1 ≤ n) pieces.now → 1 ≤ result }
    ensures rest { drop given.new pieces.now ≡ drop 1 (drop given.old pieces.now) }
{
    match pieces.get(*given) {
        Some(length) => {
            *given += 1;
            *length
        }
        None => usize::MAX,
    }
}

impl MemorySource {
    ghost use Rattle.byte_io.specs.MemorySource.{failing_calls, calls_made, piece_lengths};

    /// A source that gives these bytes, of which none is taken yet. `fails` holds the numbers of the
    /// reads that are to fail, and `pieces` the lengths of the pieces, each at least 1.
    pub fn new(bytes: Vec<u8>, fails: Vec<u64>, pieces: Vec<usize>) -> MemorySource
        requires { All (λ n. 1 ≤ n) pieces.items }

        ensures count { ⟦<MemorySource as Source>⟧.count result ≡ 0 }
        ensures taken { ⟦<MemorySource as Source>⟧.taken result ≡ Some [] }
        ensures left { ⟦<MemorySource as Source>⟧.left result ≡ Some bytes.items }
        ensures end { ⟦<MemorySource as Source>⟧.ended result ≡ false }
        ensures faults { ⟦<MemorySource as Source>⟧.faults result ≡ 0 }

        ensures fails { failing_calls result ≡ fails.items }
        ensures calls { calls_made result ≡ 0 }
        ensures lengths { piece_lengths result ≡ pieces.items }
    {
        MemorySource {
            source: SureSource::new(bytes),
            schedule: Schedule::new(fails),
            pieces,
            given: 0,
        }
    }
}

impl Source for MemorySource {
    ghost use Rattle.byte_io.specs.MemorySource.{failing_calls, calls_made, piece_lengths};

    ghost count = { λ s. ⟦<SureSource as Source>⟧.count s.source };

    ghost taken = { λ s. ⟦<SureSource as Source>⟧.taken s.source };

    ghost left = { λ s. ⟦<SureSource as Source>⟧.left s.source };

    ghost ended = { λ s. ⟦<SureSource as Source>⟧.ended s.source };

    ghost faults = { λ s. s.schedule.faults };

    /// Fails exactly at the calls that are listed, and gives at most a piece of the next length.
    fn read(&mut self, piece: &mut [u8]) -> Result<usize, Failed>
        ensures listed { IsErr result
            ↔ Contains (failing_calls self.old) (next_count (calls_made self.old)) }
        ensures given { IfOk result (λ n. IfSome (⟦<MemorySource as Source>⟧.left self.old)
            (λ bytes. n ≡ piece_of (piece_lengths self.old) (min (length bytes) (length piece.new)))) }

        // How the schedule goes on.
        ensures calls { calls_made self.new ≡ next_count (calls_made self.old) }
        ensures fails { failing_calls self.new ≡ failing_calls self.old }
        ensures lengths { MatchResult result
            (λ _. piece_lengths self.new ≡ drop 1 (piece_lengths self.old))
            (λ _. piece_lengths self.new ≡ piece_lengths self.old) }

        // What the trait says, with the faults counted.
        ensures bound { ReadsAtMost result piece.new }
        ensures count { Counts (⟦<MemorySource as Source>⟧.count self.old)
            (⟦<MemorySource as Source>⟧.count self.new) result }
        ensures taken { WriteAppends (⟦<MemorySource as Source>⟧.taken self.old)
            (⟦<MemorySource as Source>⟧.taken self.new) result piece.new }
        ensures left { ReadConsumes (⟦<MemorySource as Source>⟧.left self.old)
            (⟦<MemorySource as Source>⟧.left self.new) result piece.new }
        ensures end { MeetsEnd (⟦<MemorySource as Source>⟧.ended self.old)
            (⟦<MemorySource as Source>⟧.ended self.new) result piece.new }
        ensures end_stays { length piece.new ≡ 0
            → ⟦<MemorySource as Source>⟧.ended self.new ≡ ⟦<MemorySource as Source>⟧.ended self.old }
        ensures faults { CountsFault (⟦<MemorySource as Source>⟧.faults self.old)
            (⟦<MemorySource as Source>⟧.faults self.new) result }
        ensures never_falls { ⟦<MemorySource as Source>⟧.faults self.old
            ≤ ⟦<MemorySource as Source>⟧.faults self.new }
        ensures fits { ⟦<MemorySource as Source>⟧.faults self.new < 2 ^ 64 }
    {
        let _faults = self.schedule.faults;
        if self.schedule.count_call() {
            return Err(Failed);
        }
        let most = next_length(&self.pieces, &mut self.given);
        Ok(self.source.read_at_most(most, piece))
    }

    ghost is_counted = { λ s. Prim.search rules };
}
