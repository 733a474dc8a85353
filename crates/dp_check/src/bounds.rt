//! The greatest values of numbers, and how an instruction on numbers changes them.

ghost use Rattle.std.specs.Prelude.{◌≡◌, ◌*◌, ◌/◌, ◌^◌, max, min};
ghost use Rattle.dp_model.specs.Arithmetic.{all_ones, greatest};
ghost use Rattle.dp_model.specs.Rows.{bound, with_bound};

use dp_model::{NumberRegister, Operand, Row};

/// The row with the register's bound replaced.
pub(crate) fn with_bound(row: &Row, register: NumberRegister, bound: u64) -> Row
    ensures { result ≡ with_bound row.now register bound }
{
    let mut changed = *row;
    changed.bounds[usize::from(register.number())] = bound;
    changed
}

/// The least 2^k - 1 that is at least `number`.
#[tactic(auto, using(crate::proofs::RowLemmas::ones_shift))]
fn all_ones(number: u64) -> u64
    ensures { result ≡ all_ones number }
{
    if number == 0 {
        0
    } else {
        u64::MAX >> number.leading_zeros()
    }
}

/// The number shifted left, saturated at 64 bits.
#[tactic(auto, using(crate::proofs::RowLemmas::far_left))]
fn shifted_left(number: u64, by: u8) -> u64
    ensures { result ≡ min (number * 2 ^ by) greatest }
{
    if number == 0 {
        0
    } else if by < 64 {
        number.saturating_mul(1 << by)
    } else {
        u64::MAX
    }
}

/// The number shifted right.
#[tactic(auto, using(crate::proofs::RowLemmas::far_right))]
fn shifted_right(number: u64, by: u8) -> u64
    ensures { result ≡ number / 2 ^ by }
{
    if by < 64 { number >> by } else { 0 }
}

/// The row after any bits that the operand or the register can have are set in the register.
pub(crate) fn with_bits(row: &Row, register: NumberRegister, operand: Operand) -> Row
    ensures { result ≡ with_bound row.now register (all_ones (max (bound row.now (Operand.Register register)) (bound row.now operand))) }
{
    let bits = all_ones(row.bound_of(register).max(row.bound(operand)));
    with_bound(row, register, bits)
}

/// The row after the register is shifted left.
pub(crate) fn with_left_shift(row: &Row, register: NumberRegister, by: u8) -> Row
    ensures { result ≡ with_bound row.now register (min (bound row.now (Operand.Register register) * 2 ^ by) greatest) }
{
    with_bound(row, register, shifted_left(row.bound_of(register), by))
}

/// The row after the register is shifted right.
pub(crate) fn with_right_shift(row: &Row, register: NumberRegister, by: u8) -> Row
    ensures { result ≡ with_bound row.now register (bound row.now (Operand.Register register) / 2 ^ by) }
{
    with_bound(row, register, shifted_right(row.bound_of(register), by))
}
