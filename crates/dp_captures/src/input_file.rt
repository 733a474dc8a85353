//! Where inputs are read: files, standard input, or a capture without records.

ghost use Rattle.std.specs.Prelude.{◌≡◌, IfOk};
ghost use Rattle.dp_captures.specs.Files.{IsUnread, source_place};

use crate::file_id::{FileId, plain_file};
use crate::words::Place;
use dp_pcap::GhostCount;
use std::fs::{self, OpenFile};
use std::io::{Read, Result, Stdin};
use std::rt::Files;

/// What an input is read from.
#[derive(Drop)]
pub enum Source<F> {
    /// A file.
    File(F),
    /// Standard input.
    Stream(Stdin),
    /// A capture without records: the bytes that are left of it.
    Nowhere(&'static [u8]),
}

/// An input, as it is open.
#[derive(Drop)]
pub struct InputFile<F> {
    source: Source<F>,
    /// The plain file that it is, if it is one.
    pub id: Option<FileId>,
    // How many calls of `read` were made, which only clauses read.
    reads: GhostCount,
}

/// Opens an input. A capture without records is its header alone, with times in microseconds.
///
/// # Errors
///
/// Those of the system.
pub fn open_input_file<R: Files>(
    rt: &R,
    stdin: Stdin,
    place: Place,
    name: &str,
) -> Result<InputFile<R::File>>
    ensures place { IfOk result (λ input. source_place input.source ≡ place) }
    ensures unread { IfOk result IsUnread }
{
    let (source, id) = match place {
        Place::File => {
            let file = fs::open(rt, name)?;
            let id = FileId::plain(&file.metadata()?);
            (Source::File(file), id)
        }
        Place::Stream => (Source::Stream(stdin), plain_file(rt, "/dev/stdin")?),
        Place::Nowhere => {
            let header = b"\xd4\xc3\xb2\xa1\x02\0\x04\0\0\0\0\0\0\0\0\0\0\0\x04\0\x01\0\0\0";
            (Source::Nowhere(header), None)
        }
    };
    let reads = GhostCount::new();
    Ok(InputFile { source, id, reads })
}

impl<F: Read> Read for InputFile<F> {
    ghost use Rattle.std.specs.Prelude.{◌≡◌, ◌+◌};
    ghost use Rattle.std.specs.Io.{ReadsAtMost};
    ghost use Rattle.std.specs.Io.KnownBytes.{ReadConsumes};
    ghost use Rattle.dp_captures.specs.Files.{source_left, source_place};

    ghost remaining = { λ s. source_left F.remaining s.source };

    fn read(&mut self, buf: &mut [u8]) -> Result<usize>
        ensures bound { ReadsAtMost result buf.new }
        ensures bytes { ReadConsumes (source_left F.remaining self.old.source) (source_left F.remaining self.new.source) result buf.new }
        ensures place { source_place self.new.source ≡ source_place self.old.source }
        ensures counted { self.new.reads.count ≡ self.old.reads.count + 1 }
    {
        self.reads = self.reads.one_more();
        match &mut self.source {
            Source::File(file) => file.read(buf),
            Source::Stream(stdin) => stdin.read(buf),
            Source::Nowhere(left) => left.read(buf),
        }
    }
}
