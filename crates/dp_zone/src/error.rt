//! Why a zone is not reserved.
ghost use Rattle.std.specs.Prelude.{◌≡◌};
ghost use Rattle.dp_zone.specs.Zones.{number_of};

use std::error::Error;
use std::fmt::{self, Display, Formatter, Write};

/// Why `reserve` refuses a zone: the first of these that applies.
#[derive(Clone, Copy, Debug, PartialEq, Eq, Drop)]
pub enum ZoneError {
    /// The name is empty or longer than `MAX_NAME`, or has a character that is not from 33 to 126.
    BadName,
    /// The length is 0 or above `dp_region::MAX_REGION`.
    BadLength,
    /// The alignment is neither 0 nor a power of two.
    BadAlign,
    /// The table has a zone of that name.
    Exists,
    /// The table has `MAX_ZONES` zones.
    Full,
    /// No free element of the heap has room.
    NoRoom,
}

impl ZoneError {
    /// The number of the cause, from 1, in the order in which they are tested.
    pub fn number(self) -> u8
        ensures { result ≡ number_of self }
    {
        match self {
            ZoneError::BadName => 1,
            ZoneError::BadLength => 2,
            ZoneError::BadAlign => 3,
            ZoneError::Exists => 4,
            ZoneError::Full => 5,
            ZoneError::NoRoom => 6,
        }
    }
}

impl Display for ZoneError {
    fn fmt<W: Write>(&self, f: &mut Formatter<W>) -> fmt::Result {
        f.write_str(match self {
            ZoneError::BadName => "bad zone name",
            ZoneError::BadLength => "bad zone length",
            ZoneError::BadAlign => "bad zone alignment",
            ZoneError::Exists => "the zone exists",
            ZoneError::Full => "too many zones",
            ZoneError::NoRoom => "no room for the zone",
        })
    }
}

impl Error for ZoneError {}
