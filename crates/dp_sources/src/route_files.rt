//! Files with routes, which the command line gives tables beside the routes of the pipeline.
//!
//! Each line of such a file is a route, as in a pipeline's `routes`; an empty line, and one that begins with `#`, is none. [`joined`] adds the routes to
//! their tables and prints the pipeline again: that text is loaded.

ghost use Rattle.std.specs.Prelude.{◌≡◌, [], IfOk};

use crate::source::Source;
use std::alloc::{AllocError, Global};
use toml::ser::Error;
use toml::{Table, Value};

/// A file with routes for a table.
#[derive(Drop)]
pub struct RouteFile {
    /// The number of the table.
    pub table: usize,
    pub source: Source,
}

/// Whether a line has a route.
fn has_route(line: &str) -> bool {
    !line.is_empty() && !line.starts_with('#')
}

impl RouteFile {
    /// Its text. It is empty if the file is not UTF-8.
    fn text(&self) -> &str {
        str::from_utf8(self.source.bytes.as_slice()).unwrap_or("")
    }

    /// Whether it is UTF-8, and each line that has a route is printable ASCII.
    pub fn is_fit(&self) -> bool {
        for line in self.text().lines() {
            let route = if has_route(line) { line } else { "" };
            for byte in route.as_bytes() {
                if !matches!(*byte, b' '..=b'~') {
                    return false;
                }
            }
        }
        str::from_utf8(self.source.bytes.as_slice()).is_ok()
    }
}

/// The routes of a table of a pipeline, if it has them.
fn routes_of(top: &mut Table, table: usize) -> Option<&mut Vec<Value>> {
    top.get_mut("table")?
        .get_mut(table)?
        .get_mut("routes")?
        .as_array_mut()
}

/// A pipeline's text with the routes of files.
fn printed(alloc: Global, top: &mut Table, files: &[RouteFile]) -> Result<String, Error> {
    for file in files {
        if let Some(routes) = routes_of(&mut *top, file.table) {
            for line in file.text().lines() {
                if has_route(line) && routes.push(Value::string(alloc, line)?).is_err() {
                    return Err(Error::OutOfMemory);
                }
            }
        }
    }
    toml::table_to_string(alloc, top)
}

/// A pipeline's text with the routes of these files after those of their tables. A text that is not TOML stays as it is.
///
/// # Errors
///
/// `AllocError` if memory is refused.
pub fn joined(alloc: Global, text: &[u8], files: &[RouteFile]) -> Result<Vec<u8>, AllocError>
    ensures { files.now ≡ [] → IfOk result (λ joined. joined.items ≡ text.now) }
{
    if files.is_empty() {
        return text.to_vec(alloc);
    }
    let mut top = match toml::table_from_slice(alloc, text) {
        Ok(top) => top,
        Err(error) if error.is_memory() => return Err(AllocError),
        Err(_) => return text.to_vec(alloc),
    };
    match printed(alloc, &mut top, files) {
        Ok(printed) => Ok(printed.into_bytes()),
        Err(Error::OutOfMemory) => Err(AllocError),
        Err(Error::DateInvalid) => text.to_vec(alloc),
    }
}
