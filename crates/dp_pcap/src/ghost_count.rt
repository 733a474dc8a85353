//! A count that exists only in clauses.
ghost use Rattle.std.specs.Prelude.{◌≡◌, ℕ, ◌+◌};
ghost use Rattle.std.specs.Borrow.{ftrue};

use std::marker::Model;

/// A number of events, such as calls of a device or steps, as `count` in a clause. It takes no bytes, has no limit, and does nothing at run time.
#[derive(Drop)]
pub struct GhostCount {
    pub ghost count: { ℕ },
}

impl Model for GhostCount {
    ghost also_owns = { λ _. ftrue };
}

impl GhostCount {
    /// The count 0.
    pub fn new() -> GhostCount
        ensures { result.count ≡ 0 }
    {
        Self {}
    }

    /// The count after one more event.
    pub fn one_more(&self) -> GhostCount
        ensures { result.count ≡ self.now.count + 1 }
    {
        GhostCount {}
    }
}
