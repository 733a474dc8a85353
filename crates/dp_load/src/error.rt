//! Why a pipeline is not loaded.

ghost use Rattle.std.specs.Prelude.{◌≡◌};

use dp_lpm::LpmError;
use dp_model::{Entry, EnvError};
use std::alloc::{AllocError, AllocFailed};
use thiserror::Error;

/// Why a file is not fetched.
#[derive(Clone, Copy, Debug, Error)]
pub enum FetchFault {
    /// There is no such file, or it cannot be read.
    #[error("the file cannot be fetched")]
    Missing,
    /// The allocator refused memory.
    #[error("out of memory")]
    Memory,
}

/// A part of a pipeline file: its top, or one of the tables of an array.
#[derive(Clone, Copy)]
pub enum Part {
    /// The top level, outside all tables of arrays.
    Top,
    /// A `[[pool]]`.
    Pool,
    /// A `[[table]]`.
    Table,
    /// A `[[ring]]`.
    Ring,
    /// A `[[port]]`.
    Port,
}

/// Why a route is refused.
#[derive(Clone, Copy)]
pub enum RouteError {
    /// The table refuses it.
    Refused(LpmError),
    /// It is not written `A.B.C.D/DEPTH HOP`.
    Unreadable,
}

/// Why a pipeline is not loaded, in the order in which the causes are tested. Indexes count from 0.
#[derive(Clone, Copy)]
pub enum PipeError {
    /// The allocator refused memory.
    Memory,
    /// The text is not TOML.
    NotToml,
    /// In a part a key is missing, unknown, of the wrong type or out of its range.
    BadKey {
        /// The kind of the part.
        part: Part,
        /// Its index among the parts of its kind; 0 for the top.
        index: usize,
    },
    /// The environment is refused.
    BadEnv(EnvError),
    /// A route of a table is refused.
    BadTable {
        /// The index of the table.
        table: usize,
        /// The index of the route.
        route: usize,
        /// Why.
        cause: RouteError,
    },
    /// A node's program or certificate file cannot be fetched, or is longer than [`MAX_FILE`](crate::MAX_FILE).
    File(Entry),
    /// A node's program text has a fault.
    Asm(Entry, dp_lang::Fault),
    /// A node's certificate text has a fault.
    BadCert(Entry, dp_cert::Fault),
    /// No certificate is found for a node's program.
    NotInferred {
        /// The port or ring whose program it is.
        node: Entry,
        /// The lowest label, from 0, at which a rule fails with the last certificate that was tried.
        label: u16,
        /// The number of the first rule that fails there, 2 to 11: every certificate that is tried has a row for each instruction.
        rule: u8,
    },
    /// A node's program is refused with its certificate.
    Refused {
        /// The port or ring whose program it is.
        node: Entry,
        /// The lowest label, from 0, at which a rule fails.
        label: u16,
        /// The number of the first rule that fails there, 2 to 11: a certificate that is read has a row for each instruction.
        rule: u8,
    },
}

impl From<AllocError> for PipeError {
    ghost use Rattle.dp_load.specs.declared.error.PipeError.TheVariants.{Memory};

    ghost from_gives = { λ _ e. e ≡ Memory };

    fn from(_e: AllocError) -> PipeError {
        PipeError::Memory
    }
}

impl<T: Drop> From<AllocFailed<T>> for PipeError {
    ghost use Rattle.dp_load.specs.declared.error.PipeError.TheVariants.{Memory};

    ghost from_gives = { λ _ e. e ≡ Memory };

    fn from(_e: AllocFailed<T>) -> PipeError {
        PipeError::Memory
    }
}
