//! Why a table is not made, or refuses a call.

use std::error::Error;
use std::fmt;

/// The allocator refused the memory for a table.
#[derive(Clone, Copy, Debug)]
pub struct Memory;

impl fmt::Display for Memory {
    fn fmt<W: fmt::Write>(&self, f: &mut fmt::Formatter<W>) -> fmt::Result {
        f.write_str("not enough memory")
    }
}

impl Error for Memory {}

/// Why `add` and `delete` refuse.
#[derive(Clone, Copy, Debug, PartialEq, Eq)]
pub enum LpmError {
    /// The depth is not from 1 to 32.
    BadDepth,
    /// The hop is above 16,777,215.
    BadHop,
    /// The table has as many rules as it was made for.
    RulesFull,
    /// The rule is deeper than 24 bits, its first 24 bits have no group, and no group is free.
    GroupsFull,
    /// There is no rule of this prefix and depth.
    NoRule,
}

impl fmt::Display for LpmError {
    fn fmt<W: fmt::Write>(&self, f: &mut fmt::Formatter<W>) -> fmt::Result {
        f.write_str(match self {
            LpmError::BadDepth => "the depth is not 1 to 32",
            LpmError::BadHop => "the hop is above 16777215",
            LpmError::RulesFull => "no room for another rule",
            LpmError::GroupsFull => "no group left",
            LpmError::NoRule => "no such rule",
        })
    }
}

impl Error for LpmError {}

impl LpmError {
    ghost use Rattle.std.specs.Prelude.{◌≡◌};
    ghost use Rattle.dp_lpm.specs.Faults.{number_of};

    /// The number of the cause, 1 to 5.
    pub fn number(self) -> u8
        ensures { result ≡ number_of self }
    {
        match self {
            LpmError::BadDepth => 1,
            LpmError::BadHop => 2,
            LpmError::RulesFull => 3,
            LpmError::GroupsFull => 4,
            LpmError::NoRule => 5,
        }
    }
}
