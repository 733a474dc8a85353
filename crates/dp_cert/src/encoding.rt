//! Writes rows as text.

ghost use Rattle.std.specs.Prelude.{◌≡◌, ◌+◌, ◌≤◌, ◌++◌, length, take, IfOk};
ghost use Rattle.std.specs.List.{flat_map};
ghost use Rattle.std.specs.Int.{w64, to_be_bytes};
ghost use Rattle.dp_cert.specs.Spelling as spec;

use crate::cert::{Cert, Version};
use dp_model::{Fact, Row};
use std::alloc::{AllocError, Global};

/// Writes a part at offset `at`, after what stands before it.
fn write_at(bytes: &mut [u8], at: usize, part: &[u8])
    requires { at + length part.now ≤ length bytes.old }
    ensures so_far { take (at + length part.now) bytes.new ≡ take at bytes.old ++ part.now }
    ensures len { length bytes.new ≡ length bytes.old }
{
    bytes[at..at + part.len()].copy_from_slice(part);
}

fn fact_bytes(fact: Fact) -> [u8; 11]
    ensures { result ≡ spec.fact_bytes fact }
{
    match fact {
        Fact::Empty => [0; 11],
        Fact::Held {
            share,
            head,
            tail,
            first,
            last,
            segs,
        } => {
            let head = head.to_be_bytes();
            let tail = tail.to_be_bytes();
            let first = first.to_be_bytes();
            let last = last.to_be_bytes();
            [
                1, share, head[0], head[1], tail[0], tail[1], first[0], first[1], last[0], last[1],
                segs,
            ]
        }
    }
}

fn bytes_of_facts(facts: &[Fact; 8]) -> [u8; 88]
    ensures { result ≡ flat_map spec.fact_bytes facts.now }
{
    let mut bytes = [0; 88];
    for i in 0..8 {
        write_at(&mut bytes, 11 * i, &fact_bytes(facts[i]));
    }
    bytes
}

fn bytes_of_bounds(bounds: &[u64; 8]) -> [u8; 64]
    ensures { result ≡ flat_map (to_be_bytes w64) bounds.now }
{
    let mut bytes = [0; 64];
    for i in 0..8 {
        write_at(&mut bytes, 8 * i, &bounds[i].to_be_bytes());
    }
    bytes
}

fn row_bytes(row: &Row) -> [u8; 153]
    ensures { result ≡ spec.row_bytes row.now }
{
    let mut bytes = [0; 153];
    bytes[0] = u8::from(row.live);
    write_at(&mut bytes, 1, &bytes_of_facts(&row.facts));
    write_at(&mut bytes, 89, &bytes_of_bounds(&row.bounds));
    bytes
}

/// The line of a row: the digits of its bytes, and a newline.
pub fn row_line(row: &Row) -> [u8; 307]
    ensures { result ≡ spec.row_line row.now }
{
    let mut line = [b'\n'; 307];
    hex::encode_to_slice(row_bytes(row), &mut line[..306]).unwrap();
    line
}

/// The first line of a version.
pub(crate) fn head_line(version: Version) -> &'static [u8]
    ensures { result.now ≡ spec.head_line version }
{
    match version {
        Version::One => b"dpv-cert 1\n",
        Version::Two => b"dpv-cert 2\n",
    }
}

/// The rows' lines after a first line.
fn encode_rows(alloc: Global, head: &[u8], rows: &[Row]) -> Result<Vec<u8>, AllocError>
    ensures { IfOk result (λ v. v.items ≡ head.now ++ flat_map spec.row_line rows.now) }
{
    let mut out = Vec::from_slice(alloc, head)?;
    for row in rows {
        out.extend_from_slice(&row_line(row))?;
    }
    Ok(out)
}

/// Returns the text that spells the certificate.
///
/// # Errors
/// `AllocError` if the allocator refuses the memory for the text.
pub fn encode(alloc: Global, cert: &Cert) -> Result<Vec<u8>, AllocError>
    ensures { IfOk result (λ v. v.items ≡ spec.spelling cert.now) }
{
    encode_rows(alloc, head_line(cert.version_kind()), cert.rows())
}
