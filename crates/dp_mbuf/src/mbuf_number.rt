//! The numbers of mbufs and buffers.

ghost use Rattle.std.specs.Prelude.{◌≡◌, ◌+◌, ◌*◌, ◌/◌, ◌%◌};
ghost use Rattle.dp_model.specs.Buffers.{same_number};

use crate::limits::POOL_HANDLES;
use std::marker::Model;

/// The number of an mbuf or of a buffer: its pool, and its index there. In memory it is one number of four bytes, the handle of a packet that
/// begins there.
#[derive(Clone, Copy)]
pub(crate) struct MbufNumber {
    number: u32,
}

impl Model for MbufNumber {
    ghost use Rattle.std.specs.Prelude.{◌+◌, ◌*◌, ◌/◌, ◌%◌};
    ghost use Rattle.dp_model.specs.Buffers.{Number};
    ghost use Rattle.dp_mbuf.specs.declared.limits.TheConstants.{POOL_HANDLES};
    ghost use Rattle.dp_mbuf.specs.Numbers.{two_words};

    ghost Value = { Number };

    ghost view = { λ p. record { pool = p.number / POOL_HANDLES; index = p.number % POOL_HANDLES } };

    ghost inverse = { λ n. record { number = n.pool * POOL_HANDLES + n.index } };

    ghost inverse_ok = { λ n h i. record { number = two_words n.number i } };
}

impl MbufNumber {
    /// Makes the number of an mbuf from its pool and its index.
    pub fn new(pool: u16, index: u16) -> MbufNumber
        ensures { result ≡ record { pool = pool; index = index } }
    {
        MbufNumber {
            number: u32::from(pool) * POOL_HANDLES + u32::from(index),
        }
    }

    /// The number of the mbuf at which a packet of this handle begins.
    #[inline(always)]
    pub fn of(handle: u32) -> MbufNumber
        ensures { result ≡ record { pool = handle / POOL_HANDLES; index = handle % POOL_HANDLES } }
    {
        MbufNumber { number: handle }
    }

    /// The handle of a packet that begins there.
    #[inline(always)]
    pub fn handle(self) -> u32
        ensures { result ≡ self.pool * POOL_HANDLES + self.index }
    {
        self.number
    }

    /// Whether the two are the same.
    pub fn is(self, other: MbufNumber) -> bool
        ensures { result ≡ same_number self other }
    {
        self.number == other.number
    }

    /// Its pool.
    pub fn pool(self) -> u16
        ensures { result ≡ self.pool }
    {
        (self.number / POOL_HANDLES) as u16
    }

    /// Its index in the pool.
    pub fn index(self) -> u16
        ensures { result ≡ self.index }
    {
        (self.number % POOL_HANDLES) as u16
    }
}
