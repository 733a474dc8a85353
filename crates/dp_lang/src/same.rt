//! Whether two instructions are the same.

ghost use Rattle.std.specs.Prelude.{◌≡◌, ◌↔◌, IsTrue, map};
ghost use Rattle.dp_lang.specs.Views.{numbered};

use crate::argument::{Numbered, Shown};
use crate::form::{arguments_of, form_of};
use dp_model::Instr;

// Whether two operands are the same.
fn same_argument(a: Numbered, b: Numbered) -> bool
    ensures { IsTrue result ↔ numbered a ≡ numbered b }
{
    match (a.shown(), b.shown()) {
        (Shown::Packet(p), Shown::Packet(q)) => p == q,
        (Shown::Register(r), Shown::Register(s)) => r == s,
        (Shown::Number(n), Shown::Number(k)) => n == k,
        (Shown::Label(l), Shown::Label(m)) => l == m,
        _ => false,
    }
}

// Whether two lists of operands are the same.
fn same_arguments(a: &[Numbered], b: &[Numbered]) -> bool
    ensures { IsTrue result ↔ map numbered a.now ≡ map numbered b.now }
{
    if a.len() != b.len() {
        return false;
    }
    for i in 0..a.len() {
        if !same_argument(a[i], b[i]) {
            return false;
        }
    }
    true
}

/// Whether two instructions are the same.
pub fn is_same(a: &Instr, b: &Instr) -> bool
    ensures { IsTrue result ↔ a.now ≡ b.now }
{
    form_of(a).word() == form_of(b).word()
        && same_arguments(arguments_of(a).as_slice(), arguments_of(b).as_slice())
}
