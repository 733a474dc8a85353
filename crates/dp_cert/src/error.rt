//! Why a text is not a certificate.

ghost use Rattle.std.specs.Prelude.{◌≡◌};
ghost use Rattle.dp_cert.specs.Faults.{number_of};

use std::fmt::{self, Display, Formatter, Write};
use thiserror::Error;

/// What is wrong with a line.
#[derive(Clone, Copy, Debug, PartialEq, Eq)]
pub enum Cause {
    /// The first line is neither `dpv-cert 1` nor `dpv-cert 2` and a newline.
    BadHead,
    /// The line is not 306 lower-case hexadecimal digits and a newline.
    BadLine,
    /// The digits are not a row of this version: a value is out of range, a sharing group is not well formed or version 1 has one, or unused bytes
    /// are not 0.
    BadRow,
    /// A line is missing, or bytes follow the last.
    BadCount,
}

impl Cause {
    /// The number of the cause, from 1.
    pub fn number(self) -> u8
        ensures { result ≡ number_of self }
    {
        match self {
            Cause::BadHead => 1,
            Cause::BadLine => 2,
            Cause::BadRow => 3,
            Cause::BadCount => 4,
        }
    }
}

impl Display for Cause {
    fn fmt<W: Write>(&self, f: &mut Formatter<W>) -> fmt::Result {
        f.write_str(match self {
            Cause::BadHead => "this is not the head of a certificate",
            Cause::BadLine => "this is not a line of 306 hexadecimal digits",
            Cause::BadRow => "this is not a row",
            Cause::BadCount => "there are too few or too many lines",
        })
    }
}

impl std::error::Error for Cause {}

/// The first fault of a text. Lines count from 1.
#[derive(Clone, Copy, Debug, PartialEq, Eq, Error)]
#[error("line {line}: {cause}")]
pub struct Fault {
    pub line: usize,
    pub cause: Cause,
}

/// Why no certificate is returned.
#[derive(Debug, Drop, Error)]
pub enum CertError {
    /// The allocator refused the memory for the rows.
    #[error("out of memory")]
    Memory,
    /// The text is not a certificate.
    #[error(transparent)]
    Fault(Fault),
}
