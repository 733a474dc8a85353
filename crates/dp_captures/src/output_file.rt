//! Where outputs are written: files, which keep their content until the first byte is written, standard output, or nowhere.

ghost use Rattle.std.specs.Prelude.{◌≡◌, IfOk, IsOk, OnOk, false, true};
ghost use Rattle.dp_captures.specs.Files.{IsUnwritten, destination_place};

use crate::file_id::{FileId, plain_file};
use crate::words::Place;
use dp_pcap::GhostCount;
use std::fs::{self, OpenFile, OpenOptions};
use std::io::{ErrorKind, Result, Stdout, Write};
use std::rt::Files;

/// What an output is written to. Standard output is written at its current position: the output comes after what the shell has put there.
#[derive(Drop)]
pub enum Destination<F> {
    /// A file.
    File(F),
    /// Standard output.
    Stream(Stdout),
    /// Nowhere: everything is taken, and dropped.
    Nowhere,
}

/// An output, as it is open. A plain file is truncated when its first byte is written, so a run that ends before that does not change it. Devices
/// and pipes have no content, and are never truncated.
#[derive(Drop)]
pub struct OutputFile<F> {
    destination: Destination<F>,
    /// The plain file that it is, if it is one.
    pub id: Option<FileId>,
    /// Whether this run made it.
    pub is_new: bool,
    /// Whether the old content of a plain file is gone, as it is before a byte is written.
    pub is_emptied: bool,
    // How many calls of `write` were made, which only clauses read.
    writes: GhostCount,
}

/// Opens a file to be written, and makes it if it does not exist. Returns whether it was made.
fn open_or_make<R: Files>(rt: &R, name: &str) -> Result<(R::File, bool)> {
    if let Ok(file) = OpenOptions::new()
        .write(true)
        .create_new(true)
        .open(rt, name)
    {
        return Ok((file, true));
    }
    // The name may be that of a link to a file that does not exist. Opening it makes that file.
    let is_new = match fs::metadata(rt, name) {
        Ok(_) => false,
        Err(error) => error.kind() == ErrorKind::NotFound,
    };
    let file = OpenOptions::new().write(true).create(true).open(rt, name)?;
    Ok((file, is_new))
}

/// Opens an output, and creates it if it does not exist. Its content is kept.
///
/// # Errors
///
/// Those of the system.
pub fn open_output_file<R: Files>(
    rt: &R,
    stdout: Stdout,
    place: Place,
    name: &str,
) -> Result<OutputFile<R::File>>
    ensures place { IfOk result (λ output. destination_place output.destination ≡ place) }
    ensures unwritten { IfOk result IsUnwritten }
{
    let (destination, id, is_new) = match place {
        Place::File => {
            let (file, is_new) = open_or_make(rt, name)?;
            let id = FileId::plain(&file.metadata()?);
            (Destination::File(file), id, is_new)
        }
        Place::Stream => {
            let id = plain_file(rt, "/dev/stdout")?;
            (Destination::Stream(stdout), id, false)
        }
        Place::Nowhere => (Destination::Nowhere, None, false),
    };
    Ok(OutputFile {
        destination,
        id,
        is_new,
        is_emptied: false,
        writes: GhostCount::new(),
    })
}

impl<F: OpenFile> OutputFile<F> {
    /// Drops the old content of a plain file, once.
    fn empty(&mut self) -> Result<()>
        ensures emptied { OnOk result (self.new.is_emptied ≡ true) }
        ensures nowhere { destination_place self.old.destination ≡ Place.Nowhere → IsOk result }
        ensures same { (self.new.destination ≡ self.old.destination) × (self.new.id ≡ self.old.id) × (self.new.writes ≡ self.old.writes) }
    {
        if self.is_emptied {
            return Ok(());
        }
        if let (Destination::File(file), Some(_)) = (&self.destination, self.id) {
            file.set_len(0)?;
        }
        self.is_emptied = true;
        Ok(())
    }
}

impl<F: Write + OpenFile> Write for OutputFile<F> {
    ghost use Rattle.std.specs.Prelude.{◌≡◌, ◌+◌, Ok, true, IsOk, length};
    ghost use Rattle.std.specs.Io.{WritesAtMost};
    ghost use Rattle.std.specs.Io.KnownBytes.{Keeps, WriteAppends};
    ghost use Rattle.dp_captures.specs.Files.{destination_contents, destination_place};
    ghost use Rattle.dp_captures.specs.declared.words.Place.TheVariants.{Nowhere};

    ghost contents = { λ w. destination_contents F.contents w.destination };

    fn write(&mut self, buf: &[u8]) -> Result<usize>
        ensures bound { WritesAtMost result buf.now }
        ensures bytes { WriteAppends (destination_contents F.contents self.old.destination) (destination_contents F.contents self.new.destination)
            result buf.now }
        ensures place { destination_place self.new.destination ≡ destination_place self.old.destination }
        ensures dropped { destination_place self.old.destination ≡ Nowhere → result ≡ Ok (length buf.now) }
        ensures emptied { IsOk result → self.new.is_emptied ≡ true }
        ensures counted { IsOk result → self.new.writes.count ≡ self.old.writes.count + 1 }
    {
        self.empty()?;
        self.writes = self.writes.one_more();
        match &mut self.destination {
            Destination::File(file) => file.write(buf),
            Destination::Stream(stdout) => stdout.write(buf),
            Destination::Nowhere => Ok(buf.len()),
        }
    }

    fn flush(&mut self) -> Result<()>
        ensures bytes { Keeps (destination_contents F.contents self.old.destination) (destination_contents F.contents self.new.destination) }
        ensures place { destination_place self.new.destination ≡ destination_place self.old.destination }
        ensures same { (self.new.is_emptied ≡ self.old.is_emptied) × (self.new.writes ≡ self.old.writes) }
    {
        match &mut self.destination {
            Destination::File(file) => file.flush(),
            Destination::Stream(stdout) => stdout.flush(),
            Destination::Nowhere => Ok(()),
        }
    }
}
