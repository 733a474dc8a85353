//! What a sink was offered, for clauses only.
ghost use Rattle.std.specs.Prelude.{◌≡◌, ℕ, List, [], ◌∷◌, ◌++◌};
ghost use Rattle.std.specs.Borrow.{ftrue};

use std::marker::Model;

/// The bytes that a sink was offered in each call, as `pieces` in a clause. It takes no bytes, and does nothing at run time.
#[derive(Drop)]
pub struct Offers {
    pub ghost pieces: { List (List ℕ) },
}

impl Model for Offers {
    ghost also_owns = { λ _. ftrue };
}

impl Offers {
    /// No offers yet.
    pub fn new() -> Offers
        ensures { result.pieces ≡ [] }
    {
        Self {}
    }

    /// The offers after one more.
    pub fn and(&self, bytes: &[u8]) -> Offers
        ensures { result.pieces ≡ self.now.pieces ++ bytes.now ∷ [] }
    {
        Offers {}
    }
}
