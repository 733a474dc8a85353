//! Reads files packed in one buffer: for each the lengths of name and bytes, four bytes each, little-endian; then the name and the bytes.

ghost use Rattle.std.specs.Prelude.{◌≡◌, ◌≢◌, ◌≤◌, [], length, IfErr, IfNone, IfOk, IfSome};
ghost use Rattle.std.specs.Str.{IsUtf8};
ghost use Rattle.dp_host.specs.Packing.{ArePacked, BeginsWithFile, BeginsWithNoFile, NotPacked, first_number};

use dp_load::NamedBytes;
use std::alloc::Global;

/// The maximum number of files in a buffer.
pub const MAX_FILES: u32 = 64;

/// Why a buffer's files are not read.
#[derive(Clone, Copy)]
pub enum Unread {
    /// The buffer is malformed.
    Form,
    /// Memory is refused.
    Memory,
}

// The little-endian number in the first four bytes.
fn number_in(bytes: &[u8]) -> u32
    requires { 4 ≤ length bytes.now }
    ensures { result ≡ first_number bytes.now }
{
    u32::from_le_bytes([bytes[0], bytes[1], bytes[2], bytes[3]])
}

// Splits off the first file; returns it and the bytes after it.
fn front(packed: &[u8]) -> Option<(NamedBytes<'_>, &[u8])>
    ensures some { IfSome result (λ r. BeginsWithFile packed.now r.0 r.1.now) }
    ensures name { IfSome result (λ r. IsUtf8 r.0.name.now) }
    ensures none { IfNone result (BeginsWithNoFile packed.now) }
{
    if packed.len() < 8 {
        return None;
    }
    let (head, rest) = packed.split_at(8);
    let (_, second) = head.split_at(4);
    let name_length = number_in(head) as usize;
    let length = number_in(second) as usize;
    if rest.len() < name_length || rest.len() - name_length < length {
        return None;
    }
    let (name, rest) = rest.split_at(name_length);
    let (bytes, rest) = rest.split_at(length);
    match str::from_utf8(name) {
        Ok(name) => Some((NamedBytes { name, bytes }, rest)),
        Err(_) => None,
    }
}

// The files, if no bytes are left.
fn whole<'a>(files: Vec<NamedBytes<'a>>, rest: &[u8]) -> Result<Vec<NamedBytes<'a>>, Unread>
    ensures ok { IfOk result (λ all. (all.items ≡ files.entry.items) × (rest.now ≡ [])) }
    ensures err { IfErr result (λ why. rest.now ≢ []) }
    ensures form { IfErr result (λ why. why ≡ Unread.Form) }
{
    if rest.is_empty() {
        Ok(files)
    } else {
        Err(Unread::Form)
    }
}

/// Reads the files of a buffer.
///
/// # Errors
///
/// [`Unread::Form`] only if it is not packed in this way, or has more than [`MAX_FILES`] files; [`Unread::Memory`] if memory is refused.
pub fn files_in(alloc: Global, packed: &[u8]) -> Result<Vec<NamedBytes<'_>>, Unread>
    ensures ok { IfOk result (λ files. ArePacked packed.now files.items) }
    ensures form { IfErr result (λ why. why ≡ Unread.Form → NotPacked packed.now) }
{
    let mut files = Vec::new(alloc);
    let mut rest = packed;
    for _count in 0..MAX_FILES {
        match front(rest) {
            Some((file, after)) => {
                if files.push(file).is_err() {
                    return Err(Unread::Memory);
                }
                rest = after;
            }
            None => return whole(files, rest),
        }
    }
    whole(files, rest)
}
