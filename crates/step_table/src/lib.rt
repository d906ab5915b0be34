//! Tables whose keys rise, as tables of thresholds do.
#![tactic(auto)]

ghost use Rattle.std.specs.Prelude.{◌≡◌, ◌<◌, ◌≤◌, ◌↔◌, IfSome, IsSome, IsNone, length, slice_index};
ghost use Rattle.step_table.specs.Rising.{AreAbove, IsPlace, IsRising};

#[cfg(test)]
mod tests;

use std::marker::Model;

/// `N` keys, each of which but the first is above the one before it.
///
/// Contracts see the list of the keys.
#[derive(Clone, Copy, Debug)]
pub struct StepTable<const N: usize> {
    keys: [u64; N],
}

impl<const N: usize> Model for StepTable<N> {
    ghost use Rattle.std.specs.Prelude.{ℕ, List};
    ghost use Rattle.step_table.specs.Rising.{IsRising};

    ghost Value = { List ℕ };

    ghost view = { λ t. t.keys };

    ghost invariant = { λ t. IsRising t.keys };

    ghost inverse = { λ keys. record { keys = keys } };
}

impl<const N: usize> StepTable<N> {
    /// The table of these keys, and `None` where they do not rise strictly.
    pub fn new(keys: [u64; N]) -> Option<StepTable<N>>
        ensures rising { IsSome result ↔ IsRising keys.entry }
        ensures keys { IfSome result (λ table. table ≡ keys.entry) }
    {
        for place in 1..N {
            if keys[place - 1] >= keys[place] {
                return None;
            }
        }
        Some(StepTable { keys })
    }

    /// The place, counted from 0, of the greatest key that is not above `key`, and `None` where each
    /// key is above it.
    pub fn at_or_below(&self, key: u64) -> Option<usize>
        ensures place { IfSome result (IsPlace self.now key) }
        ensures within { IfSome result (λ place. place < N) }
        ensures none { IsNone result ↔ AreAbove self.now key }
    {
        self.keys
            .partition_point(|each| *each <= key)
            .checked_sub(1)
    }

    /// The key at a place, counted from 0. With [`StepTable::at_or_below`] it gives the greatest key
    /// that is not above a number, and a table of powers gives a power.
    pub fn key(&self, place: usize) -> u64
        requires within { place < N }
        ensures value { result ≡ slice_index self.now place }
        ensures length { length self.now ≡ N }
        ensures rising { IsRising self.now }
    {
        self.keys[place]
    }
}
