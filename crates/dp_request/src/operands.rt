//! Reads operands of the command line.

ghost use Rattle.std.specs.Prelude.{◌≡◌, ◌==◌, ◌<◌, map, Some, IfSome, IfOk, option_map};
ghost use Rattle.std.specs.Char.{is_ascii_digit};
ghost use Rattle.std.specs.List.{list_all, slice_split};
ghost use Rattle.dp_engine.specs.Engines.{IsAscending};
ghost use Rattle.dp_model.specs.declared.env.Entry.{Entry};
ghost use Rattle.dp_request.specs.Operands as spec;
ghost use Rattle.dp_request.specs.Operands.{number_of, word_of};

use dp_model::Entry;
use std::alloc::{AllocError, Global};

/// Parses a word as a node: `port` or `ring`, and one digit.
pub fn node_named(word: &str) -> Option<Entry>
    ensures spelled { IfSome result (λ node. word.now ≡ word_of node) }
    ensures only { (node : Entry) → number_of node < 10 → word.now ≡ word_of node → result ≡ Some node }
{
    match word.as_bytes() {
        [b'p', b'o', b'r', b't', digit @ b'0'..=b'9'] => Some(Entry::Port(digit - b'0')),
        [b'r', b'i', b'n', b'g', digit @ b'0'..=b'9'] => Some(Entry::Ring(digit - b'0')),
        _ => None,
    }
}

/// Whether a word has only decimal digits.
fn are_digits(word: &str) -> bool
    ensures { result ≡ list_all is_ascii_digit word.now }
{
    for byte in word.as_bytes() {
        if !byte.is_ascii_digit() {
            return false;
        }
    }
    true
}

/// Parses a word as a number: decimal digits, at most 18,446,744,073,709,551,615.
pub fn number_in(word: &str) -> Option<u64>
    ensures { result ≡ spec.number_in word.now }
{
    if are_digits(word) {
        word.parse().ok()
    } else {
        None
    }
}

/// Parses a word as a port: a number from 0 to 7.
pub fn port_in(word: &str) -> Option<u8>
    ensures { result ≡ spec.port_in word.now }
{
    match number_in(word) {
        Some(port @ 0..=7) => Some(port as u8),
        _ => None,
    }
}

/// Splits a list at its commas.
fn words_in<'a>(alloc: Global, list: &'a str) -> Result<Vec<&'a str>, AllocError>
    ensures { IfOk result (λ words. map (λ word. word.now) words.items ≡ slice_split (λ b. b == 44) list.now) }
{
    list.split(',').collect(alloc)
}

/// Parses a list of numbers: one or more, at least 1, ascending, with commas between them.
pub fn numbers_in(alloc: Global, list: &str) -> Result<Option<Vec<u64>>, AllocError>
    ensures numbers { IfOk result (λ numbers. option_map (λ given. given.items) numbers ≡ spec.numbers_in list.now) }
    ensures ascending { IfOk result (λ numbers. IfSome numbers (λ given. IsAscending 0 given.items)) }
{
    let words = words_in(alloc, list)?;
    let mut numbers = Vec::new(alloc);
    let mut last = 0;
    for word in words.as_slice() {
        match number_in(word) {
            Some(number) if number > last => {
                numbers.push(number)?;
                last = number;
            }
            _ => return Ok(None),
        }
    }
    Ok(Some(numbers))
}
