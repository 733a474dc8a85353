//! Counts truncated records: the capture has only the front of their packets.
ghost use Rattle.std.specs.Prelude.{◌≡◌, ◌+◌, ◌-◌, ◌^◌, min};

use crate::GhostCount;
use std::marker::Model;

/// A count of truncated records: exact in a clause; as a number it stops at 2^64 - 1.
#[derive(Drop)]
pub(crate) struct Truncated {
    exact: GhostCount,
    count: u64,
}

impl Model for Truncated {
    ghost use Rattle.std.specs.Prelude.{◌≡◌, ℕ, ◌-◌, ◌^◌, min};

    ghost Value = { ℕ };

    ghost view = { λ t. t.exact.count };

    ghost invariant = { λ t. t.count ≡ min t.exact.count (2 ^ 64 - 1) };
}

impl Truncated {
    // A count of zero.
    pub(crate) fn new() -> Truncated
        ensures { result ≡ 0 }
    {
        Truncated {
            exact: GhostCount::new(),
            count: 0,
        }
    }

    // Counts one more.
    pub(crate) fn note(&mut self)
        ensures { self.new ≡ self.old + 1 }
    {
        self.exact = self.exact.one_more();
        self.count = self.count.saturating_add(1);
    }

    // The count.
    pub(crate) fn count(&self) -> u64
        ensures { result ≡ min self.now (2 ^ 64 - 1) }
    {
        self.count
    }
}
