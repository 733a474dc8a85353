//! Wraps writers so that they are not called again after a failure.

ghost use Rattle.std.specs.Prelude.{◌≡◌, None, Some, IsSome, false, true, [], ◌∷◌, ◌++◌};
ghost use Rattle.dp_pcap.specs.declared.byte_order.Order.TheVariants.{Little};
ghost use Rattle.dp_pcap.specs.Counting.{none_yet, records_in};
ghost use Rattle.dp_captures.specs.Outlets.{Counts, joined};

use dp_pcap::{Offers, WholeRecords};
use std::io::{Error, ErrorKind, Result, Write};

/// A writer whose first failure is final: the inner writer is then not called again, not even when a buffer is dropped. It keeps the error of
/// that failure, and counts the records of a capture that the inner writer took whole.
#[derive(Drop)]
pub struct Guarded<W> {
    inner: W,
    has_failed: bool,
    failure: Option<Error>,
    records: WholeRecords,
    // The bytes that the inner writer took, and the name of its file: only clauses read them.
    took: Offers,
    of: Offers,
    ghost counted: { ∥ Counts records (joined took.pieces) ∥₁ },
    ghost why: { has_failed ≡ true → IsSome failure },
}

impl<W: Write> Guarded<W> {
    /// Guards a writer.
    fn unnamed(inner: W) -> Guarded<W>
        ensures inner { result.inner ≡ inner }
        ensures sound { result.has_failed ≡ false }
        ensures failure { result.failure ≡ None }
        ensures none { result.records ≡ none_yet Little }
        ensures nothing { result.took.pieces ≡ [] }
    {
        Guarded {
            inner,
            has_failed: false,
            failure: None,
            records: WholeRecords::new(),
            took: Offers::new(),
            of: Offers::new(),
        }
    }

    /// Guards the writer of the file with this name.
    pub fn new(inner: W, name: &str) -> Guarded<W>
        ensures inner { result.inner ≡ inner }
        ensures sound { result.has_failed ≡ false }
        ensures failure { result.failure ≡ None }
        ensures none { result.records ≡ none_yet Little }
        ensures nothing { result.took.pieces ≡ [] }
        ensures name { result.of.pieces ≡ name.now ∷ [] }
    {
        let mut guarded = Guarded::unnamed(inner);
        guarded.of = Offers::new().and(name.as_bytes());
        guarded
    }

    /// The writer.
    pub fn get_ref(&self) -> &W
        ensures { result.now ≡ self.now.inner }
    {
        &self.inner
    }

    /// The error with which the inner writer failed.
    pub fn failure(&self) -> Option<Error>
        ensures { result ≡ self.now.failure }
    {
        self.failure
    }

    /// How many records the inner writer took whole.
    pub fn records(&self) -> u64
        ensures { result ≡ records_in self.now.records }
    {
        self.records.count()
    }

    /// Counts bytes that the inner writer took.
    fn pass(&mut self, bytes: &[u8])
        ensures took { self.new.took.pieces ≡ self.old.took.pieces ++ bytes.now ∷ [] }
        ensures inner { self.new.inner ≡ self.old.inner }
        ensures sound { self.new.has_failed ≡ self.old.has_failed }
        ensures failure { self.new.failure ≡ self.old.failure }
    {
        self.records.pass(bytes);
        self.took = self.took.and(bytes);
    }

    /// Keeps the error of the inner writer.
    fn fail(&mut self, error: Error)
        ensures failed { self.new.has_failed ≡ true }
        ensures failure { self.new.failure ≡ Some error }
        ensures inner { self.new.inner ≡ self.old.inner }
        ensures records { self.new.records ≡ self.old.records }
        ensures took { self.new.took.pieces ≡ self.old.took.pieces }
    {
        self.has_failed = true;
        self.failure = Some(error);
    }
}

/// The error of a writer that failed before.
fn failed_before() -> Error {
    Error::other("the writer failed before")
}

impl<W: Write> Write for Guarded<W> {
    ghost use Rattle.std.specs.Prelude.{◌≡◌, ◌≢◌, ◌+◌, ◌<◌, ◌^◌, ◌++◌, ◌∷◌, [], ℕ, List, Some, true, false, length, take, IsErr, IfOk, IfErr, OnErr};
    ghost use Rattle.std.specs.Io.{WritesAtMost};
    ghost use Rattle.std.specs.IoError.{error_kind};
    ghost use Rattle.dp_pcap.specs.Counting.{IsAfter};
    ghost use Rattle.std.specs.Io.KnownBytes.{Keeps, WriteAppends};
    ghost use Rattle.dp_captures.specs.Outlets.{joined};

    // The bytes that the inner writer took since it was wrapped.
    ghost contents = { λ w. Some (joined w.took.pieces) };

    #[tactic(auto, using(crate::proofs::Took::joined_more))]
    fn write(&mut self, buf: &[u8]) -> Result<usize>
        ensures bound { WritesAtMost result buf.now }
        ensures bytes { WriteAppends (Some (joined self.old.took.pieces)) (Some (joined self.new.took.pieces)) result buf.now }
        ensures inner { WriteAppends (W.contents self.old.inner) (W.contents self.new.inner) result buf.now }
        ensures kept { self.old.has_failed ≡ true → IsErr result × (self.new ≡ self.old) }
        ensures failed { IfErr result (λ e. error_kind e ≢ ErrorKind.Interrupted → self.new.has_failed ≡ true) }
        ensures why { IfErr result (λ e. self.old.has_failed ≡ false → error_kind e ≢ ErrorKind.Interrupted → self.new.failure ≡ Some e) }
        ensures full { IfOk result (λ n. n ≡ 0 → 0 < length buf.now → self.new.has_failed ≡ true) }
    {
        if self.has_failed {
            return Err(failed_before());
        }
        match self.inner.write(buf) {
            Ok(taken) => {
                self.pass(&buf[..taken]);
                if taken == 0 && !buf.is_empty() {
                    let error = Error::new(ErrorKind::WriteZero, "it takes no more bytes");
                    self.fail(error);
                }
                Ok(taken)
            }
            Err(error) => {
                if error.kind() != ErrorKind::Interrupted {
                    self.fail(error);
                }
                Err(error)
            }
        }
    }

    fn flush(&mut self) -> Result<()>
        ensures bytes { Keeps (Some (joined self.old.took.pieces)) (Some (joined self.new.took.pieces)) }
        ensures inner { Keeps (W.contents self.old.inner) (W.contents self.new.inner) }
        ensures kept { self.old.has_failed ≡ true → IsErr result × (self.new ≡ self.old) }
        ensures failed { IsErr result → self.new.has_failed ≡ true }
        ensures why { IfErr result (λ e. self.old.has_failed ≡ false → self.new.failure ≡ Some e) }
        ensures records { self.new.records ≡ self.old.records }
    {
        if self.has_failed {
            return Err(failed_before());
        }
        if let Err(error) = self.inner.flush() {
            self.fail(error);
            return Err(error);
        }
        Ok(())
    }
}
