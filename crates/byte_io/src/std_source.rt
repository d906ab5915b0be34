ghost use Rattle.std.specs.Prelude.{◌≡◌, ◌≤◌, ◌<◌, ◌^◌, length, None, false};
ghost use Rattle.std.specs.Io.{ReadsAtMost};
ghost use Rattle.std.specs.Io.KnownBytes.{ReadConsumes};
ghost use Rattle.byte_io.specs.Faults.{CountsFault};
ghost use Rattle.byte_io.specs.Source.{Counts, MeetsEnd};

use crate::{Failed, Source};
use std::io::Read;

/// A reader of the standard library as a source.
///
/// It tells no content. Each error of the reader is a fault, that of an interrupted read too; at
/// 2^64 - 1 the count of faults stays.
#[derive(Drop)]
pub struct StdSource<R> {
    reader: R,
    count: u64,
    ended: bool,
    faults: u64,
}

impl<R: Read> StdSource<R> {
    /// A source over this reader, from which nothing is taken yet.
    pub fn new(reader: R) -> StdSource<R>
        ensures count { ⟦<StdSource<R> as Source>⟧.count result ≡ 0 }
        ensures taken { ⟦<StdSource<R> as Source>⟧.taken result ≡ None }
        ensures left { ⟦<StdSource<R> as Source>⟧.left result ≡ None }
        ensures end { ⟦<StdSource<R> as Source>⟧.ended result ≡ false }
        ensures faults { ⟦<StdSource<R> as Source>⟧.faults result ≡ 0 }
    {
        StdSource {
            reader,
            count: 0,
            ended: false,
            faults: 0,
        }
    }
}

impl<R: Read> Source for StdSource<R> {
    ghost count = { λ s. s.count };

    ghost taken = { λ _. None };

    ghost left = { λ _. None };

    ghost ended = { λ s. s.ended };

    ghost faults = { λ s. s.faults };

    /// Fails where the reader answers an error.
    fn read(&mut self, piece: &mut [u8]) -> Result<usize, Failed>
        requires { ⟦<StdSource<R> as Source>⟧.count self.old ≤ 2 ^ 63 }

        // What it gives, the reader gave: where the reader's bytes are known, they begin with it and
        // lose it, and lose nothing at a failure.
        ensures passed_on { ReadConsumes (R.remaining self.old.reader) (R.remaining self.new.reader)
            result piece.new }

        // What the trait says, with the faults counted.
        ensures bound { ReadsAtMost result piece.new }
        ensures count { Counts (⟦<StdSource<R> as Source>⟧.count self.old)
            (⟦<StdSource<R> as Source>⟧.count self.new) result }
        ensures end { MeetsEnd (⟦<StdSource<R> as Source>⟧.ended self.old)
            (⟦<StdSource<R> as Source>⟧.ended self.new) result piece.new }
        ensures end_stays { length piece.new ≡ 0
            → ⟦<StdSource<R> as Source>⟧.ended self.new ≡ ⟦<StdSource<R> as Source>⟧.ended self.old }
        ensures faults { CountsFault (⟦<StdSource<R> as Source>⟧.faults self.old)
            (⟦<StdSource<R> as Source>⟧.faults self.new) result }
        ensures never_falls { ⟦<StdSource<R> as Source>⟧.faults self.old
            ≤ ⟦<StdSource<R> as Source>⟧.faults self.new }
        ensures fits { ⟦<StdSource<R> as Source>⟧.faults self.new < 2 ^ 64 }
    {
        let _faults = self.faults;
        match self.reader.read(piece) {
            Ok(n) => {
                self.count += n as u64;
                if !piece.is_empty() {
                    self.ended = n == 0;
                }
                Ok(n)
            }
            Err(_) => {
                self.faults = self.faults.saturating_add(1);
                Err(Failed)
            }
        }
    }

    ghost is_counted = { λ s. tt };
}
