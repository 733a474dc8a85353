//! Reads one operand of a kind.

ghost use Rattle.std.specs.Prelude.{◌≡◌, ◌<◌, ℕ, IfSome, Some, MatchOption};
ghost use Rattle.std.specs.List.{list_all};
ghost use Rattle.dp_model.specs.Arithmetic.{greatest};
ghost use Rattle.dp_lang.specs.Kinds as spec;
ghost use Rattle.dp_lang.specs.Views.{argument, Shows};

use crate::argument::Named;
use crate::cause::Cause;
use crate::form::OperandKind;

/// Reads a register: its letter, and a digit from 0 to 7.
#[tactic(auto, unfolding(crate::specs::Kinds::register_in))]
fn register_in(letter: u8, part: &[u8]) -> Option<u8>
    ensures value { result ≡ spec.register_in letter part.now }
    ensures range { IfSome result (λ index. index < 8) }
{
    match part {
        [first, digit @ b'0'..=b'7'] if *first == letter => Some(*digit - b'0'),
        _ => None,
    }
}

/// Reads digits as a number, if it has at most 64 bits.
fn numeral(radix: u8, digits: &[u8]) -> Option<u64>
    requires above { 1 < radix }
    requires below { radix < 37 }
    ensures { MatchOption result ((n : ℕ) → spec.numeral radix digits.now ≡ Some n → greatest < n) (λ n. spec.numeral radix digits.now ≡ Some n) }
{
    if digits.is_empty() {
        return None;
    }
    let mut value = 0u64;
    for digit in digits {
        let digit = char::from(*digit).to_digit(u32::from(radix))?;
        value = value
            .checked_mul(u64::from(radix))?
            .checked_add(u64::from(digit))?;
    }
    Some(value)
}

#[tactic(auto, unfolding(crate::specs::Kinds::number_in))]
fn number_in(part: &[u8]) -> Option<u64>
    ensures { MatchOption result ((n : ℕ) → spec.number_in part.now ≡ Some n → greatest < n) (λ n. spec.number_in part.now ≡ Some n) }
{
    match part {
        [b'0', b'x', digits @ ..] => numeral(16, digits),
        _ => numeral(10, part),
    }
}

fn is_letter(b: u8) -> bool
    ensures { result ≡ spec.is_letter b }
{
    b.is_ascii_alphabetic() || b == b'_'
}

fn are_letters_or_digits(bytes: &[u8]) -> bool
    ensures { result ≡ list_all spec.is_letter_or_digit bytes.now }
{
    bytes
        .iter()
        .all(|b| b.is_ascii_alphanumeric() || *b == b'_')
}

/// Whether a part of a text is a name: a letter or `_`, then letters, digits or `_`, at most 31 characters.
pub fn is_name(part: &[u8]) -> bool
    ensures { result ≡ spec.is_name part.now }
{
    match part {
        [] => false,
        [first, rest @ ..] => {
            is_letter(*first) && are_letters_or_digits(rest) && part.len() <= 31
        }
    }
}

fn number_within<'a>(least: u64, most: u64, part: &[u8]) -> Result<Named<'a>, Cause>
    ensures { Shows argument result (spec.number_where (spec.is_within least most) (spec.number_in part.now)) }
{
    match number_in(part) {
        Some(n) if least <= n && n <= most => Ok(Named::Constant(n)),
        _ => Err(Cause::BadNumber),
    }
}

fn width<'a>(part: &[u8]) -> Result<Named<'a>, Cause>
    ensures { Shows argument result (spec.number_where spec.is_width (spec.number_in part.now)) }
{
    match number_in(part) {
        Some(n @ (1 | 2 | 4 | 8)) => Ok(Named::Constant(n)),
        _ => Err(Cause::BadNumber),
    }
}

/// Reads a part of a text as an operand of a kind.
#[tactic(auto, unfolding(crate::specs::Kinds::argument_of))]
pub fn argument_of<'a>(kind: OperandKind, part: &'a [u8]) -> Result<Named<'a>, Cause>
    ensures { Shows argument result (spec.argument_of kind part.now) }
{
    match kind {
        OperandKind::Packet => match register_in(b'p', part) {
            Some(index) => Ok(Named::Packet(index)),
            None => Err(Cause::BadRegister),
        },
        OperandKind::Register => match register_in(b'r', part) {
            Some(index) => Ok(Named::Register(index)),
            None => Err(Cause::BadRegister),
        },
        OperandKind::Number { least, most } => number_within(least, most, part),
        OperandKind::Width => width(part),
        OperandKind::RegisterOrConstant => match register_in(b'r', part) {
            Some(index) => Ok(Named::Register(index)),
            None => number_within(0, u64::MAX, part),
        },
        OperandKind::Label if is_name(part) => Ok(Named::Name(part)),
        OperandKind::Label => Err(Cause::BadLabel),
    }
}
