//! Cuts lines into labels, words and operands.

ghost use Rattle.std.specs.Prelude.{◌≡◌, ◌==◌, map, position, IfOk, ◌<◌, length};
ghost use Rattle.std.specs.List.{slice_split, before_first, after_first, list_all};
ghost use Rattle.dp_lang.specs.Lines as spec;

use std::alloc::{AllocError, Global};

/// Whether a byte is a blank: space, tab or carriage return.
pub fn is_blank(b: u8) -> bool
    ensures { result ≡ spec.is_blank b }
{
    matches!(b, b' ' | b'\t' | b'\r')
}

/// Whether a line may have each of its bytes.
pub fn is_text(line: &[u8]) -> bool
    ensures { result ≡ list_all spec.is_text line.now }
{
    line.iter().all(|b| matches!(*b, 32..=126 | b'\t' | b'\r'))
}

/// Splits bytes at each separator.
pub fn split<'a>(alloc: Global, bytes: &'a [u8], separator: u8) -> Result<Vec<&'a [u8]>, AllocError>
    ensures { IfOk result (λ parts. map (λ part. part.now) parts.items ≡ slice_split (λ b. b == separator) bytes.now) }
{
    bytes.split(|b| *b == separator).collect(alloc)
}

/// Cuts off the blanks at the front.
pub fn trim_start(bytes: &[u8]) -> &[u8]
    ensures { result.now ≡ spec.trim_start bytes.now }
{
    let mut rest = bytes;
    while let [first, tail @ ..] = rest
        && is_blank(*first)
    {
        rest = tail;
    }
    rest
}

fn trim_end(bytes: &[u8]) -> &[u8]
    ensures { result.now ≡ spec.trim_end bytes.now }
{
    let mut rest = bytes;
    while let [head @ .., last] = rest
        && is_blank(*last)
    {
        rest = head;
    }
    rest
}

/// Cuts off the blanks at the front and at the end.
pub fn trim(bytes: &[u8]) -> &[u8]
    ensures { result.now ≡ spec.trim bytes.now }
{
    trim_end(trim_start(bytes))
}

fn hash_at(line: &[u8]) -> Option<usize>
    ensures { result ≡ position spec.is_hash line.now }
{
    line.iter().position(|b| *b == b'#')
}

fn blank_at(bytes: &[u8]) -> Option<usize>
    ensures { result ≡ position spec.is_blank bytes.now }
{
    bytes.iter().position(|b| is_blank(*b))
}

fn is_all_blank(bytes: &[u8]) -> bool
    ensures { result ≡ list_all spec.is_blank bytes.now }
{
    bytes.iter().all(|b| is_blank(*b))
}

/// The part of a line before its comment.
pub fn before_comment(line: &[u8]) -> &[u8]
    ensures { result.now ≡ before_first spec.is_hash line.now }
{
    match hash_at(line) {
        None => line,
        Some(at) => &line[..at],
    }
}

/// Cuts a line, without its comment and the blanks around it, at each colon.
pub fn pieces<'a>(alloc: Global, line: &'a [u8]) -> Result<Vec<&'a [u8]>, AllocError>
    ensures pieces { IfOk result (λ parts. map (λ part. part.now) parts.items ≡ spec.pieces line.now) }
    ensures some { IfOk result (λ parts. 0 < length parts.items) }
{
    split(alloc, trim(before_comment(line)), b':')
}

/// Splits an instruction into its word and what follows the first blank.
pub fn word_and_rest(instruction: &[u8]) -> (&[u8], &[u8])
    ensures word { result.0.now ≡ spec.word_in instruction.now }
    ensures rest { result.1.now ≡ after_first spec.is_blank instruction.now }
{
    match blank_at(instruction) {
        None => (instruction, &[]),
        Some(at) => (&instruction[..at], &instruction[at + 1..]),
    }
}

/// Splits the operands of an instruction, each with the blanks around it.
pub fn operands_in<'a>(alloc: Global, rest: &'a [u8]) -> Result<Vec<&'a [u8]>, AllocError>
    ensures { IfOk result (λ parts. map (λ part. part.now) parts.items ≡ spec.operands_in rest.now) }
{
    if is_all_blank(rest) {
        return Ok(Vec::new(alloc));
    }
    split(alloc, rest, b',')
}
