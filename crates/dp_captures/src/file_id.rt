//! Plain files by their identity: a device, and a number there.

ghost use Rattle.std.specs.Prelude.{◌≡◌, ◌++◌, ◌∷◌, [], map, OnOk};
ghost use Rattle.dp_captures.specs.Guarding.{is_same_file, read_name};

use std::alloc::{AllocError, Global};
use std::fs::{self, Metadata};
use std::io::ErrorKind;
use std::os::unix::fs::MetadataExt;
use std::rt::Files;

/// A file or a folder, by its device and its number there: the same under all its names.
#[derive(Clone, Copy)]
pub struct FileId {
    pub device: u64,
    pub number: u64,
}

impl FileId {
    /// What has this metadata.
    pub fn of(metadata: &Metadata) -> FileId {
        FileId {
            device: metadata.dev(),
            number: metadata.ino(),
        }
    }

    /// The plain file with this metadata. A device or a pipe is none: it has nothing to lose.
    pub fn plain(metadata: &Metadata) -> Option<FileId> {
        metadata.is_file().then_some(FileId::of(metadata))
    }

    /// Whether two files or folders are the same.
    pub fn is_same(self, other: FileId) -> bool
        ensures { result ≡ is_same_file self other }
    {
        self.device == other.device && self.number == other.number
    }
}

/// The plain file that a name means, if there is one.
///
/// # Errors
///
/// `AllocError` if there is no memory for the name.
pub fn plain_file<R: Files>(rt: &R, name: &str) -> Result<Option<FileId>, AllocError> {
    match fs::metadata(rt, name) {
        Ok(metadata) => Ok(FileId::plain(&metadata)),
        Err(error) if error.kind() == ErrorKind::OutOfMemory => Err(AllocError),
        Err(_) => Ok(None),
    }
}

/// A file that a run reads besides its captures. It has an id if it is a plain file.
#[derive(Drop)]
pub struct ReadFile {
    pub name: String,
    pub id: Option<FileId>,
}

/// Adds the file of this name to a list of those that a run reads.
///
/// # Errors
///
/// `AllocError` if there is no memory for it.
pub fn note_read<R: Files>(
    rt: &R,
    alloc: Global,
    reads: &mut Vec<ReadFile>,
    name: &str,
) -> Result<(), AllocError>
    ensures { OnOk result (map read_name reads.new.items ≡ map read_name reads.old.items ++ name.now ∷ []) }
{
    let id = plain_file(rt, name)?;
    let name = String::from_str(alloc, name)?;
    reads.push(ReadFile { name, id })?;
    Ok(())
}
