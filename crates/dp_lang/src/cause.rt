//! Why a text is not a program: causes, faults and errors.

ghost use Rattle.std.specs.Prelude.{◌≡◌};
ghost use Rattle.dp_lang.specs.Causes.{number_of, least};
ghost use Rattle.dp_lang.specs.LineErrors.{least_error, error_at};

use std::alloc::{AllocError, AllocFailed};
use std::fmt;
use thiserror::Error;

/// What is wrong with a line.
#[derive(Clone, Copy, PartialEq, Eq)]
pub enum Cause {
    /// A byte that no text may have: any but tab, newline, carriage return and 32 to 126. Bytes of comments count too.
    BadByte = 1,
    /// A word that no instruction has.
    BadWord,
    /// Too few or too many operands.
    BadOperands,
    /// Not a register, p0 to p7 for a packet or r0 to r7 for a number.
    BadRegister,
    /// Not a number, or one out of range; also an operand that is neither a number register nor a number.
    BadNumber,
    /// A label that is not a name.
    BadLabel,
    /// A label that was defined before.
    LabelTwice,
    /// A label that is not defined, or that no instruction follows.
    LabelUnknown,
    /// No instructions, or more than 1,024.
    Size,
}

impl Cause {
    /// The number of the cause, from 1, `BadByte`, to 9, `Size`.
    pub fn number(self) -> u8
        ensures { result ≡ number_of self }
    {
        self as u8
    }

    /// The lesser of two causes of one line.
    pub(crate) fn or_less(self, other: Cause) -> Cause
        ensures { result ≡ least self other }
    {
        if self.number() <= other.number() {
            self
        } else {
            other
        }
    }
}

impl fmt::Display for Cause {
    ghost use Rattle.std.specs.Prelude.{Some};
    ghost use Rattle.dp_lang.specs.Causes.{name_of};

    ghost output = { λ c. Some (name_of c) };

    fn fmt<W: fmt::Write>(&self, f: &mut fmt::Formatter<W>) -> fmt::Result {
        let name = match self {
            Cause::BadByte => "BadByte",
            Cause::BadWord => "BadWord",
            Cause::BadOperands => "BadOperands",
            Cause::BadRegister => "BadRegister",
            Cause::BadNumber => "BadNumber",
            Cause::BadLabel => "BadLabel",
            Cause::LabelTwice => "LabelTwice",
            Cause::LabelUnknown => "LabelUnknown",
            Cause::Size => "Size",
        };
        f.write_str(name)
    }
}

/// The first fault of a text.
#[derive(Clone, Copy, PartialEq, Eq)]
pub struct Fault {
    /// The line, from 1; 0 means the whole text.
    pub line: usize,
    pub cause: Cause,
}

impl fmt::Display for Fault {
    ghost use Rattle.std.specs.Prelude.{◌++◌, Some, codes};
    ghost use Rattle.std.specs.Fmt.{decimal};
    ghost use Rattle.dp_lang.specs.Causes.{name_of};

    ghost output = { λ f. Some (codes "line " ++ (decimal f.line ++ (codes ": " ++ name_of f.cause))) };

    fn fmt<W: fmt::Write>(&self, f: &mut fmt::Formatter<W>) -> fmt::Result {
        let line = self.line;
        let cause = self.cause;
        write!(f, "line {line}: {cause}")
    }
}

impl fmt::Debug for Fault {
    fn fmt<W: fmt::Write>(&self, f: &mut fmt::Formatter<W>) -> fmt::Result {
        write!(f, "{self}")
    }
}

/// Why a line was not read.
#[derive(Clone, Copy)]
pub(crate) enum LineError {
    /// A list could not grow.
    Memory,
    /// The line has this fault.
    Cause(Cause),
}

impl LineError {
    /// The lesser of two causes; lack of memory comes before any cause.
    pub(crate) fn or_less(self, other: LineError) -> LineError
        ensures { result ≡ least_error self other }
    {
        match (self, other) {
            (LineError::Cause(cause), LineError::Cause(other)) => {
                LineError::Cause(cause.or_less(other))
            }
            _ => LineError::Memory,
        }
    }

    /// The error of the text, for this line.
    pub(crate) fn at_line(self, line: usize) -> AsmError
        ensures { result ≡ error_at line self }
    {
        match self {
            LineError::Memory => AsmError::Memory,
            LineError::Cause(cause) => AsmError::Fault(Fault { line, cause }),
        }
    }
}

impl From<AllocError> for LineError {
    ghost use Rattle.dp_lang.specs.declared.cause.LineError.TheVariants.{Memory};

    ghost from_gives = { λ _ e. e ≡ Memory };

    fn from(_e: AllocError) -> LineError {
        LineError::Memory
    }
}

impl<T: Drop> From<AllocFailed<T>> for LineError {
    ghost use Rattle.dp_lang.specs.declared.cause.LineError.TheVariants.{Memory};

    ghost from_gives = { λ _ e. e ≡ Memory };

    fn from(_e: AllocFailed<T>) -> LineError {
        LineError::Memory
    }
}

/// Why a text was not assembled.
#[derive(Clone, Copy, Debug, PartialEq, Eq, Error)]
pub enum AsmError {
    /// A list could not grow.
    #[error("out of memory")]
    Memory,
    /// The text is not a program.
    #[error("{0}")]
    Fault(Fault),
}

impl From<AllocError> for AsmError {
    ghost use Rattle.dp_lang.specs.declared.cause.AsmError.TheVariants.{Memory};

    ghost from_gives = { λ _ e. e ≡ Memory };

    fn from(_e: AllocError) -> AsmError {
        AsmError::Memory
    }
}
