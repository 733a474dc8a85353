//! Reads a field of an instruction from the operand of a text at a place, whatever that operand's kind.

ghost use Rattle.std.specs.Prelude.{◌≡◌, slice_index_or};
ghost use Rattle.dp_lang.specs.Fields as spec;

use crate::argument::Named;
use crate::form::MAX_COUNT;
use dp_model::{NumberRegister, Operand, PacketRegister, Width};

/// The `k`-th operand, or `Constant(0)` if there are fewer.
fn operand_at<'a>(arguments: &[Named<'a>], k: usize) -> Named<'a>
    ensures { result ≡ slice_index_or arguments.now k spec.none }
{
    match arguments.get(k) {
        Some(given) => *given,
        None => Named::Constant(0),
    }
}

/// The packet register in the `k`-th operand; p0 if it is not one.
pub fn packet_at(given: &[Named], k: usize) -> PacketRegister
    ensures { result ≡ spec.packet_in (slice_index_or given.now k spec.none) }
{
    match operand_at(given, k) {
        Named::Packet(number) if number < 8 => PacketRegister::new(number),
        _ => PacketRegister::new(0),
    }
}

/// The number register in the `k`-th operand; r0 if it is not one.
pub fn register_at(given: &[Named], k: usize) -> NumberRegister
    ensures { result ≡ spec.register_in (slice_index_or given.now k spec.none) }
{
    match operand_at(given, k) {
        Named::Register(number) if number < 8 => NumberRegister::new(number),
        _ => NumberRegister::new(0),
    }
}

/// The number in the `k`-th operand; 0 if it is not one.
pub fn number_at(given: &[Named], k: usize) -> u64
    ensures { result ≡ spec.number_in (slice_index_or given.now k spec.none) }
{
    match operand_at(given, k) {
        Named::Constant(n) => n,
        _ => 0,
    }
}

/// The number in the `k`-th operand; 0 if it does not fit into one byte.
pub fn byte_at(given: &[Named], k: usize) -> u8
    ensures { result ≡ spec.byte_in (slice_index_or given.now k spec.none) }
{
    let n = number_at(given, k);
    if n < 256 { n as u8 } else { 0 }
}

/// The count or the offset in the `k`-th operand; 0 if it is not one.
pub fn count_at(given: &[Named], k: usize) -> u16
    ensures { result ≡ spec.count_in (slice_index_or given.now k spec.none) }
{
    let n = number_at(given, k);
    if n <= MAX_COUNT { n as u16 } else { 0 }
}

/// The width in the `k`-th operand; eight bytes if it is not one.
pub fn width_at(given: &[Named], k: usize) -> Width
    ensures { result ≡ spec.width_in (slice_index_or given.now k spec.none) }
{
    match number_at(given, k) {
        1 => Width::One,
        2 => Width::Two,
        4 => Width::Four,
        _ => Width::Eight,
    }
}

/// The number register or the constant in the `k`-th operand; the constant 0 if it is neither.
pub fn register_or_constant_at(given: &[Named], k: usize) -> Operand
    ensures { result ≡ spec.operand_in (slice_index_or given.now k spec.none) }
{
    match operand_at(given, k) {
        Named::Register(_) => Operand::Register(register_at(given, k)),
        _ => Operand::Constant(number_at(given, k)),
    }
}
