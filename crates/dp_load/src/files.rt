//! Where the files of programs and certificates come from.

ghost use Rattle.std.specs.Prelude.{◌≡◌, ℕ, List, Option, IfOk, IsErrOf};
ghost use Rattle.dp_load.specs.Files.{HasBytes, NoneIsNamed};

use crate::error::FetchFault;
use std::alloc::Global;

/// The maximum size of a program, a certificate or a pipeline file, in bytes.
pub const MAX_FILE: usize = 1_048_576;

/// Files that are fetched by name, as those of a folder.
///
/// Contracts see the bytes of each file, where they are known.
pub trait Files {
    // The bytes of each file by its name, where they are known.
    ghost contents: { Self → Option (List ℕ → Option (List ℕ)) };

    /// Returns the bytes of a file. A file longer than [`MAX_FILE`] may be cut to `MAX_FILE + 1` bytes, unless the files are known.
    ///
    /// # Errors
    ///
    /// [`FetchFault::Missing`] if there is no such file or it cannot be read, and [`FetchFault::Memory`] if memory for its bytes is refused.
    fn fetch(&mut self, alloc: Global, name: &str) -> Result<Vec<u8>, FetchFault>
        ensures found { IfOk result (λ bytes. HasBytes (contents self.old) name.now bytes.items) }
        ensures missing { IsErrOf result FetchFault.Missing → NoneIsNamed (contents self.old) name.now }
        ensures stays { contents self.new ≡ contents self.old };
}
