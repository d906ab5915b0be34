ghost use Rattle.std.specs.Prelude.{◌≡◌, ◌+◌, ◌≤◌, ◌<◌, ◌++◌, ◌↔◌, min, length, take, drop, [], Some, false, vec_len, IsTrue, IsOk, IfOk, IfSome};
ghost use Rattle.std.specs.Io.{ReadsAtMost};
ghost use Rattle.std.specs.Io.KnownBytes.{WriteAppends, ReadConsumes};
ghost use Rattle.byte_io.specs.Source.{Counts, MeetsEnd};
ghost use Rattle.std.proofs.Common.{rules};

use crate::prefix::give;
use crate::{Failed, Source};

/// Bytes in memory. Its reads never fail.
#[derive(Drop)]
pub struct SureSource {
    bytes: Vec<u8>,
    at: usize,
    ended: bool,
    ghost within: { at ≤ vec_len bytes },
}

impl SureSource {
    /// A source that gives these bytes, of which none is taken yet.
    pub fn new(bytes: Vec<u8>) -> SureSource
        ensures count { ⟦<SureSource as Source>⟧.count result ≡ 0 }
        ensures taken { ⟦<SureSource as Source>⟧.taken result ≡ Some [] }
        ensures left { ⟦<SureSource as Source>⟧.left result ≡ Some bytes.items }
        ensures end { ⟦<SureSource as Source>⟧.ended result ≡ false }
        ensures faults { ⟦<SureSource as Source>⟧.faults result ≡ 0 }
    {
        SureSource {
            bytes,
            at: 0,
            ended: false,
        }
    }

    // A read that gives at most `most` bytes.
    pub(crate) fn read_at_most(&mut self, most: usize, piece: &mut [u8]) -> usize
        ensures length { result
            ≡ min (min (length (drop self.old.at self.old.bytes.items)) most) (length piece.new) }
        ensures count { self.new.at ≡ self.old.at + result }
        ensures taken { take self.new.at self.new.bytes.items
            ≡ take self.old.at self.old.bytes.items ++ take result piece.new }
        ensures left { drop self.old.at self.old.bytes.items
            ≡ take result piece.new ++ drop self.new.at self.new.bytes.items }
        ensures end { 0 < length piece.new → IsTrue self.new.ended ↔ (result ≡ 0) }
        ensures end_stays { length piece.new ≡ 0 → self.new.ended ≡ self.old.ended }
    {
        let count = give(&self.bytes, self.at, most, piece);
        self.at += count;
        if !piece.is_empty() {
            self.ended = count == 0;
        }
        count
    }
}

impl Source for SureSource {
    ghost count = { λ s. s.at };

    ghost taken = { λ s. Some (take s.at s.bytes.items) };

    ghost left = { λ s. Some (drop s.at s.bytes.items) };

    ghost ended = { λ s. s.ended };

    ghost faults = { λ _. 0 };

    /// Never fails, and gives as many bytes as are left and fit.
    fn read(&mut self, piece: &mut [u8]) -> Result<usize, Failed>
        ensures sure { IsOk result }
        ensures whole { IfOk result (λ n. IfSome (⟦<SureSource as Source>⟧.left self.old)
            (λ bytes. n ≡ min (length bytes) (length piece.new))) }

        // What else the trait says.
        ensures bound { ReadsAtMost result piece.new }
        ensures count { Counts (⟦<SureSource as Source>⟧.count self.old)
            (⟦<SureSource as Source>⟧.count self.new) result }
        ensures taken { WriteAppends (⟦<SureSource as Source>⟧.taken self.old)
            (⟦<SureSource as Source>⟧.taken self.new) result piece.new }
        ensures left { ReadConsumes (⟦<SureSource as Source>⟧.left self.old)
            (⟦<SureSource as Source>⟧.left self.new) result piece.new }
        ensures end { MeetsEnd (⟦<SureSource as Source>⟧.ended self.old)
            (⟦<SureSource as Source>⟧.ended self.new) result piece.new }
        ensures end_stays { length piece.new ≡ 0
            → ⟦<SureSource as Source>⟧.ended self.new ≡ ⟦<SureSource as Source>⟧.ended self.old }
    {
        Ok(self.read_at_most(usize::MAX, piece))
    }

    ghost is_counted = { λ s. Prim.search rules };
}
