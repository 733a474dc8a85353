//! An output of a run: what its file took, and writing out what is held back.

ghost use Rattle.std.specs.Prelude.{◌≡◌, List, ℕ, Option, IfErr, OnOk};
ghost use Rattle.std.specs.Io.KnownBytes.{Keeps};
ghost use Rattle.dp_captures.specs.Outlets.{HasWhole, TookFront};

use crate::guarded::Guarded;
use dp_pcap::{OfBufWriter, Sink};
use std::io::{Error, Write};

/// An output that was not flushed: the number of records that its file took whole, and the error.
#[derive(Clone, Copy)]
pub struct Incomplete {
    pub whole: u64,
    pub failure: Error,
}

/// A capture that is written: a sink that may buffer bytes, and the file that takes them.
pub trait Outlet: Sink {
    // The bytes that its file took, if they are known.
    ghost taken: { Self → Option (List ℕ) };

    /// Flushes: writes the buffered bytes to its file.
    ///
    /// # Errors
    ///
    /// [`Incomplete`] if the file does not take all of them.
    fn close(&mut self) -> Result<(), Incomplete>
        ensures all { OnOk result (Keeps (Self.contents self.old) (taken self.new)) }
        ensures front { IfErr result (λ _. TookFront (Self.contents self.old) (taken self.new)) }
        ensures whole { IfErr result (λ incomplete. HasWhole incomplete.whole (taken self.new)) }
        ensures health { (Self.is_broken self.new ≡ Self.is_broken self.old) × (Self.failures self.new ≡ Self.failures self.old)
            × (Self.calls self.new ≡ Self.calls self.old) };
}

impl<W: Write + Drop> Outlet for OfBufWriter<Guarded<W>> {
    ghost use Rattle.std.specs.Prelude.{Some};
    ghost use Rattle.dp_pcap.specs.OfStd.{buffered_writer};
    ghost use Rattle.dp_captures.specs.Outputs.{file_took};

    ghost taken = { λ d. Some (file_took (buffered_writer d)) };

    fn close(&mut self) -> Result<(), Incomplete> {
        let Err(error) = self.flush() else {
            return Ok(());
        };
        let file = self.get_ref().get_ref();
        Err(Incomplete {
            whole: file.records(),
            failure: file.failure().unwrap_or(error),
        })
    }
}
