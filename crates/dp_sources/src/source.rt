//! The files that a command reads before it judges any of them.

ghost use Rattle.std.specs.Prelude.{◌≡◌, IfErr, IfOk, Some, find, option_map, string_bytes};
ghost use Rattle.std.specs.Str.{bytes_eq};
ghost use Rattle.dp_sources.specs.Sources.{files_of};

use dp_load::{FetchFault, Files};
use std::alloc::{AllocError, Global};
use std::io;

/// Why a file was not read.
#[derive(Clone, Copy)]
pub enum ReadError {
    /// The system's error.
    System(io::Error),
    /// It has more than 1,048,576 bytes.
    TooLong,
}

/// A file that was not read.
#[derive(Clone, Copy)]
pub struct Unread<'a> {
    pub name: &'a str,
    pub error: ReadError,
}

/// A file: its bytes, or why it was not read.
#[derive(Drop)]
pub struct Source {
    pub name: String,
    /// Its bytes. If there is an error, they may be those of its beginning.
    pub bytes: Vec<u8>,
    pub error: Option<ReadError>,
}

impl Source {
    /// Why it was not read, if it was not.
    pub fn unread(&self) -> Option<Unread<'_>> {
        let error = self.error?;
        let name = self.name.as_str();
        Some(Unread { name, error })
    }
}

/// The programs and certificates of a command, each file once.
#[derive(Drop)]
pub struct Sources {
    pub files: Vec<Source>,
}

impl Sources {
    /// No files.
    pub fn new(alloc: Global) -> Sources {
        let files = Vec::new(alloc);
        Sources { files }
    }

    /// The file of this name.
    pub fn find(&self, name: &str) -> Option<&Source>
        ensures { option_map (λ file. file.now) result ≡ find (λ file. bytes_eq (string_bytes file.name) name.now) self.now.files.items }
    {
        for file in self.files.as_slice() {
            if file.name.as_str() == name {
                return Some(file);
            }
        }
        None
    }

    /// The file of this name, if it was not read.
    pub(crate) fn unread(&self, name: &str) -> Option<Unread<'_>> {
        self.find(name)?.unread()
    }

    /// The bytes of the file of this name, if it was read.
    pub fn get(&self, name: &str) -> Option<&[u8]>
        ensures { option_map (λ bytes. bytes.now) result ≡ files_of self.now name.now }
    {
        match self.find(name) {
            Some(file) if file.error.is_none() => Some(file.bytes.as_slice()),
            _ => None,
        }
    }
}

/// Sources that are lent. They stay as they are.
#[derive(Clone, Copy)]
pub struct Lent<'a>(pub &'a Sources);

impl Files for Lent<'_> {
    ghost use Rattle.std.specs.Prelude.{Some};
    ghost use Rattle.dp_sources.specs.Sources.{files_of};

    ghost contents = { λ lent. Some (files_of lent.0.now) };

    fn fetch(&mut self, alloc: Global, name: &str) -> Result<Vec<u8>, FetchFault> {
        let bytes = self.0.get(name).ok_or(FetchFault::Missing)?;
        match bytes.to_vec(alloc) {
            Ok(bytes) => Ok(bytes),
            Err(AllocError) => Err(FetchFault::Memory),
        }
    }
}
