//! Files in memory, for programs and certificates that are not read from the host.

ghost use Rattle.std.specs.Prelude.{◌≡◌, find, option_map};
ghost use Rattle.std.specs.Str.{bytes_eq};

use crate::error::FetchFault;
use crate::files::Files;
use std::alloc::Global;

/// A file in memory.
#[derive(Clone, Copy)]
pub struct NamedBytes<'a> {
    /// The name under which it is fetched.
    pub name: &'a str,
    /// What it holds.
    pub bytes: &'a [u8],
}

/// Files in memory; of two with the same name, the first counts.
#[derive(Clone, Copy)]
pub struct Listed<'a> {
    /// The files, in the order of the search.
    pub files: &'a [NamedBytes<'a>],
}

// The file of this name.
fn file_named<'a>(files: &'a [NamedBytes<'a>], name: &str) -> Option<NamedBytes<'a>>
    ensures { result ≡ find (λ file. bytes_eq file.name.now name.now) files.now }
{
    files.iter().copied().find(|file| file.name == name)
}

impl Files for Listed<'_> {
    ghost use Rattle.std.specs.Prelude.{Some};
    ghost use Rattle.dp_load.specs.Listed.{listed};

    ghost contents = { λ it. Some (listed it.files.now) };

    fn fetch(&mut self, alloc: Global, name: &str) -> Result<Vec<u8>, FetchFault> {
        match file_named(self.files, name) {
            Some(file) => match file.bytes.to_vec(alloc) {
                Ok(bytes) => Ok(bytes),
                Err(_) => Err(FetchFault::Memory),
            },
            None => Err(FetchFault::Missing),
        }
    }
}
