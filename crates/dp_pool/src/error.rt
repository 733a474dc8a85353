//! Why a pool is not made.
ghost use Rattle.std.specs.Prelude.{◌≡◌};
ghost use Rattle.dp_pool.specs.Making.{number_of};

use dp_zone::ZoneError;
use std::error::Error;
use std::fmt::{self, Display, Formatter, Write};

/// Why `make` refuses a pool: the first of these that applies.
#[derive(Clone, Copy, Debug, PartialEq, Eq, Drop)]
pub enum PoolError {
    /// The number of objects is 0 or above `MAX_OBJECTS`.
    BadCount,
    /// The size of an object is 0 or above `MAX_OBJECT`.
    BadSize,
    /// The cache's size is above `MAX_CACHE`, or above two thirds of the number of objects.
    BadCache,
    /// The zone of the objects, or that of the queue, is refused.
    Zone(ZoneError),
}

impl PoolError {
    /// The number of the cause, from 1, in the order in which they are tested.
    pub fn number(self) -> u8
        ensures { result ≡ number_of self }
    {
        match self {
            PoolError::BadCount => 1,
            PoolError::BadSize => 2,
            PoolError::BadCache => 3,
            PoolError::Zone(_) => 4,
        }
    }
}

impl Display for PoolError {
    fn fmt<W: Write>(&self, f: &mut Formatter<W>) -> fmt::Result {
        let words = match self {
            PoolError::BadCount => "bad number of objects",
            PoolError::BadSize => "bad object size",
            PoolError::BadCache => "bad cache size",
            PoolError::Zone(error) => return error.fmt(f),
        };
        f.write_str(words)
    }
}

impl Error for PoolError {}
