//! Reads text as rows.

ghost use Rattle.std.specs.Prelude.{◌≡◌, ◌<◌, length, IsTrue, IfOk, IfErr, MatchResult, Some, None, List, Ok};
ghost use Rattle.std.specs.List.{list_all, AllByRecursion};
ghost use Rattle.dp_model.specs.Rows.{is_well_formed_row};
ghost use Rattle.hex.specs.Hex.{decode_sized};
ghost use Rattle.dp_cert.specs.Spelling.{Certificate, CertText, IsCertificate, is_row_of, spelling};
ghost use Rattle.dp_cert.specs.Faults.{IsFaultOf};
ghost use Rattle.dp_model.specs.declared.row.Row.{Row};
ghost use Rattle.dp_cert.specs.Reading as spec;

use crate::cert::{Cert, Version};
use crate::encoding::{head_line, row_line};
use crate::error::{Cause, CertError, Fault};
use crate::parsing::row_in;
use dp_model::Row;
use std::alloc::Global;

fn are_digits(digits: &[u8]) -> bool
    ensures { result ≡ list_all spec.is_digit digits.now }
{
    digits
        .iter()
        .all(|c| matches!(*c, b'0'..=b'9' | b'a'..=b'f'))
}

fn digits_in(line: &[u8]) -> &[u8]
    requires { 0 < length line.now }
    ensures { result.now ≡ spec.digits_in line.now }
{
    &line[..line.len() - 1]
}

/// Whether a line is 306 digits and a newline.
fn is_line(line: &[u8]) -> bool
    ensures shape { result ≡ spec.is_line line.now }
    ensures len { IsTrue result → length line.now ≡ 307 }
{
    if line.len() != 307 {
        return false;
    }
    are_digits(digits_in(line)) && line[line.len() - 1] == b'\n'
}

/// The row, if the line spells it and the version may have it.
fn spelled_row(version: Version, line: &[u8], row: Row) -> Result<Row, Cause>
    ensures { result ≡ spec.spelled_row version line.now row }
{
    let spelled = row_line(&row);
    if spelled.as_slice() == line && version.can_have(&row) {
        Ok(row)
    } else {
        Err(Cause::BadRow)
    }
}

/// Decodes a line's digits to 153 bytes.
fn bytes_of(digits: &[u8]) -> Option<[u8; 153]>
    ensures { MatchResult (decode_sized digits.now 153) (λ bytes. result ≡ Some bytes) (λ _. result ≡ None) }
{
    let mut bytes = [0; 153];
    match hex::decode_to_slice(digits, &mut bytes) {
        Ok(()) => Some(bytes),
        Err(_) => None,
    }
}

/// Parses one line, or says what is wrong with it.
#[tactic(auto, unfolding(crate::specs::Reading::row_of))]
fn row_of(version: Version, line: &[u8]) -> Result<Row, Cause>
    ensures { result ≡ spec.row_of version line.now }
{
    if !is_line(line) {
        return Err(Cause::BadLine);
    }
    match bytes_of(digits_in(line)) {
        Some(bytes) => spelled_row(version, line, row_in(&bytes)),
        None => Err(Cause::BadLine),
    }
}

/// Parses `n` lines, or returns the first fault.
fn rows_of(alloc: Global, version: Version, n: usize, text: &[u8]) -> Result<Vec<Row>, CertError>
    ensures { spec.Gives (λ v. v.items) result (spec.rows_of version 2 n text.now) }
{
    let mut rest = text;
    let mut rows = Vec::new(alloc);
    for i in 0..n {
        if rest.is_empty() {
            return Err(CertError::Fault(Fault {
                line: i + 2,
                cause: Cause::BadCount,
            }));
        }
        let (line, after) = rest.split_at(rest.len().min(307));
        let row = match row_of(version, line) {
            Ok(row) => row,
            Err(cause) => return Err(CertError::Fault(Fault { line: i + 2, cause })),
        };
        if rows.push(row).is_err() {
            return Err(CertError::Memory);
        }
        rest = after;
    }
    if rest.is_empty() {
        Ok(rows)
    } else {
        Err(CertError::Fault(Fault {
            line: n + 2,
            cause: Cause::BadCount,
        }))
    }
}

/// The version in the first line.
fn version_in(text: &[u8]) -> Option<Version>
    ensures { result ≡ spec.version_in text.now }
{
    if text.starts_with(head_line(Version::One)) {
        Some(Version::One)
    } else if text.starts_with(head_line(Version::Two)) {
        Some(Version::Two)
    } else {
        None
    }
}

/// Parses a text, or returns the first fault.
fn read(alloc: Global, text: &[u8], n: usize) -> Result<Cert, CertError>
    ensures { spec.Gives (λ c. c) result (spec.cert_of n text.now) }
{
    let Some(version) = version_in(text) else {
        return Err(CertError::Fault(Fault {
            line: 1,
            cause: Cause::BadHead,
        }));
    };
    let rows = rows_of(alloc, version, n, &text[11..])?;
    Ok(Cert::of_version(version, rows))
}

/// Reads a text as a certificate with `n` rows, or returns its first fault.
///
/// # Errors
/// `CertError::Memory` if the allocator refuses the memory for the rows, else `CertError::Fault` with the first faulty line, from 1, and
/// its cause.
pub fn decode(alloc: Global, text: &[u8], n: usize) -> Result<Cert, CertError>
    // The text spells the certificate that is returned.
    ensures found { IfOk result (λ cert. CertText n text.now cert) }
    // A text that spells a certificate is read as that, unless memory runs out.
    ensures only { (cert : Certificate) → IsCertificate cert → length cert.rows ≡ n → text.now ≡ spelling cert
        → spec.Gives (λ c. c) result (Ok cert) }
    // The fault is one that the text has.
    ensures fault { IfErr result (λ e. IsFaultOf n text.now e) }
    // The exact fault: lines are tested in order.
    ensures exact { spec.Gives (λ c. c) result (spec.cert_of n text.now) }
{
    read(alloc, text, n)
}
