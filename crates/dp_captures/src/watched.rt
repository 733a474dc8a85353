//! Readers that keep the error of a failed read and what the first bytes of a capture show, and report progress.

ghost use Rattle.std.specs.Prelude.{◌≡◌, ◌∷◌, []};

use dp_pcap::{Feed, OfBufReader, Offers, WholeRecords, link_type};
use std::io::{Error, ErrorKind, Read, Result, Stderr, Write};

/// A line is written after each further `STEP` records of a port.
const STEP: u64 = 1_000_000;

/// Counts the records of a port's capture as its bytes are read, and reports each step on standard error if asked to.
#[derive(Drop)]
pub struct Progress {
    // Where steps are reported; no more once a line could not be written.
    to: Option<Stderr>,
    port: usize,
    records: WholeRecords,
}

impl Progress {
    /// The progress of a port before its capture is read.
    pub fn new(to: Option<Stderr>, port: usize) -> Progress {
        let records = WholeRecords::new();
        Progress { to, port, records }
    }

    /// Counts more of its bytes. Reports the step that its records then reached, if any.
    fn pass(&mut self, bytes: &[u8]) {
        let Some(mut to) = self.to else {
            return;
        };
        let before = self.records.count();
        self.records.pass(bytes);
        let after = self.records.count();
        if before / STEP < after / STEP {
            let (port, records) = (self.port, after - after % STEP);
            if writeln!(to, "progress: port {port}: {records} records read").is_err() {
                self.to = None;
            }
        }
    }
}

/// What was seen of a file that is read as a capture, besides its bytes.
#[derive(Clone, Copy)]
pub struct Seen {
    /// The error with which its last read failed.
    pub failure: Option<Error>,
    /// The bytes with which the first read begins; 255 where it has fewer.
    pub front: [u64; 6],
    /// The field of the link type in its header, if the first read has the whole header of a capture.
    pub link: Option<u32>,
}

impl Seen {
    /// Nothing was seen yet.
    pub const NOTHING: Seen = Seen {
        failure: None,
        front: [255; 6],
        link: None,
    };
}

/// The first six of these bytes; 255 for those that are not there.
fn front_of(bytes: &[u8]) -> [u64; 6] {
    let mut front = [255; 6];
    for k in 0..6 {
        if let Some(byte) = bytes.get(k) {
            front[k] = u64::from(*byte);
        }
    }
    front
}

/// A reader that keeps the error of a failed read, and what its first bytes show. It counts the records that it passes on, and reports progress.
#[derive(Drop)]
pub struct Watched<R> {
    inner: R,
    is_begun: bool,
    seen: Seen,
    progress: Progress,
    // The name of its file, which only clauses read.
    of: Offers,
}

impl<R: Read> Watched<R> {
    /// Watches the reader of a file from its start.
    pub fn new(inner: R, progress: Progress, name: &str) -> Watched<R>
        ensures inner { result.inner ≡ inner }
        ensures name { result.of.pieces ≡ name.now ∷ [] }
    {
        Watched {
            inner,
            is_begun: false,
            seen: Seen::NOTHING,
            progress,
            of: Offers::new().and(name.as_bytes()),
        }
    }

    /// What was seen so far.
    pub fn seen(&self) -> Seen {
        self.seen
    }

    /// The reader.
    pub fn get_ref(&self) -> &R
        ensures { result.now ≡ self.now.inner }
    {
        &self.inner
    }

    /// Notes bytes that were read.
    fn note(&mut self, bytes: &[u8])
        ensures inner { self.new.inner ≡ self.old.inner }
    {
        if !self.is_begun {
            self.is_begun = true;
            self.seen.front = front_of(bytes);
            self.seen.link = link_type(bytes);
            self.progress.records = WholeRecords::of_capture(bytes);
        }
        self.progress.pass(bytes);
    }
}

impl<R: Read> Read for Watched<R> {
    ghost use Rattle.std.specs.Prelude.{◌≡◌};
    ghost use Rattle.std.specs.Io.{ReadsAtMost};
    ghost use Rattle.std.specs.Io.KnownBytes.{ReadConsumes};

    ghost remaining = { λ r. R.remaining r.inner };

    fn read(&mut self, buf: &mut [u8]) -> Result<usize>
        ensures bound { ReadsAtMost result buf.new }
        ensures bytes { ReadConsumes (R.remaining self.old.inner) (R.remaining self.new.inner) result buf.new }
    {
        let read = self.inner.read(buf);
        match read {
            Ok(taken) => self.note(&buf[..taken]),
            Err(error) if error.kind() == ErrorKind::Interrupted => {}
            Err(error) => self.seen.failure = Some(error),
        }
        read
    }
}

/// A capture that is read: a feed, which also says what was seen of its file besides the bytes.
pub trait Inlet: Feed {
    /// What was seen of its file besides its bytes.
    fn seen(&self) -> Seen;
}

impl<R: Read> Inlet for OfBufReader<Watched<R>> {
    fn seen(&self) -> Seen {
        self.get_ref().get_ref().seen()
    }
}
