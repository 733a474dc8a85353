//! Faults that end a command: the line of each, and its exit status. What is wrong and what helps is said after it (see `facts`).

ghost use Rattle.std.specs.Prelude.{◌≡◌};
ghost use Rattle.dp_sources.specs.Faults.{IsFaultOf, status_of};

use dp_console::{FAULT, MEMORY};
use dp_load::PipeError;
use std::fmt;

/// What ended a command.
#[derive(Clone, Copy)]
pub enum Fault<'a> {
    /// Memory was refused.
    Memory,
    /// A file with this name cannot be opened, made or read, is too long, may not be written, or has what no such file may have.
    File(&'a str),
    /// A pipeline is not loaded, with its cause, 1 to 7.
    Pipeline(PipeError),
}

impl fmt::Display for Fault<'_> {
    ghost use Rattle.std.specs.Prelude.{Some};
    ghost use Rattle.dp_sources.specs.Faults.{text_of};

    ghost output = { λ fault. Some (text_of fault) };

    fn fmt<W: fmt::Write>(&self, f: &mut fmt::Formatter<W>) -> fmt::Result {
        match self {
            Fault::Memory => write!(f, "fault: memory"),
            Fault::File(name) => write!(f, "fault: file {name}"),
            Fault::Pipeline(error) => write!(f, "fault: pipeline {error}"),
        }
    }
}

impl<'a> Fault<'a> {
    /// The fault of a pipeline that is not loaded, or of a node that has no verdict.
    pub fn of_pipeline(error: PipeError) -> Fault<'a>
        ensures { IsFaultOf error result }
    {
        match error {
            PipeError::Memory => Fault::Memory,
            _ => Fault::Pipeline(error),
        }
    }

    /// The exit status.
    pub fn status(self) -> u8
        ensures { result ≡ status_of self.entry }
    {
        match self {
            Fault::Memory => MEMORY,
            _ => FAULT,
        }
    }
}
