//! The longest way through a program that never jumps back.

ghost use Rattle.std.specs.Prelude.{◌≡◌, ◌≤◌, ℕ, length, slice_index};
ghost use Rattle.dp_model.specs.Jumps.{IsForward};
ghost use Rattle.dp_lang.specs.declared.program.TheConstants.{MAX_INSTRS};
ghost use Rattle.dp_cost.specs.Costs.{IsLongest, way_from, way_at};

use crate::flow::{goes_on, target};
use dp_lang::MAX_INSTRS;
use dp_model::Instr;

/// The length of the longest way from a label, 0 past the end.
fn way_at(ways: &[u16], label: usize) -> u16
    ensures { result ≡ way_at ways.now label }
{
    match ways.get(label) {
        Some(way) => *way,
        None => 0,
    }
}

/// The length of the longest way from a label, with those from all later ones.
fn way_from(instr: &Instr, label: usize, ways: &[u16]) -> u16
    requires few { (k : ℕ) → way_at ways.now k ≤ MAX_INSTRS }
    requires label { label ≤ MAX_INSTRS }
    ensures { result ≡ way_from ways.now label instr.now }
{
    let next = if goes_on(instr) {
        way_at(ways, label + 1)
    } else {
        0
    };
    let jump = match target(instr) {
        Some(to) => way_at(ways, usize::from(to)),
        None => 0,
    };
    next.max(jump) + 1
}

/// The length of the longest way from the first label.
pub(crate) fn longest(instrs: &[Instr]) -> u16
    requires few { length instrs.now ≤ MAX_INSTRS }
    requires forward { IsForward instrs.now }
    ensures { IsLongest instrs.now 0 result }
{
    let mut ways = [0u16; MAX_INSTRS + 1];
    let mut label = instrs.len();
    while label > 0 {
        label -= 1;
        ways[label] = way_from(&instrs[label], label, &ways);
    }
    ways[0]
}
