//! Memory as a resource of the proofs. Values of these types that have no fields do not exist when the program runs.
ghost use Rattle.std.specs.Prelude.{◌≡◌, ℕ, List, length};
ghost use Rattle.std.specs.Vec.{with_items};
ghost use base.Fml.{ftrue, fex, fall, fwand, fsep, feq};
ghost use denote.RawPtr.{Ptr};
ghost use Rattle.dp_region.specs.Ownership.{Extent, extent_code, run_owns, filled_owns};

use std::alloc::Global;
use std::marker::{Model, Move, Owns};

mod cells;
mod parts;

pub(crate) use cells::{Cells, Ticket};
pub(crate) use parts::{attach, detach, house, vacate};

// The right to the bytes that begin at `start`. Nothing else reaches them.
pub(crate) struct Run {
    ghost start: { Ptr },
    ghost bytes: { List ℕ },
}

impl Model for Run {
    ghost also_owns = { λ r. run_owns r.start r.bytes };
}

// A vector without its bytes. It becomes a vector again with any run of the same extent.
pub(crate) struct Shell {
    vec: Vec<u8, Global>,
}

impl Owns for Shell {
    ghost Value = { Extent };

    ghost coded = { extent_code };

    ghost shr_at = { λ _ _ _. ftrue };
}

impl Move for Shell {
    ghost own_val = { λ e vs. fex Inside (λ s. fsep (feq ℕ s.vec.len e.len)
        (fall (List ℕ) (λ xs. fwand (filled_owns e xs) (Fields.own_val (record { vec = with_items s.vec xs }) vs)))) };
}
