//! Where control can go from an instruction.

ghost use Rattle.std.specs.Prelude.{◌≡◌, ◌≤◌, length, IfNone, IfSome};
ghost use Rattle.dp_model.specs.Jumps.{IsForward};
ghost use Rattle.dp_model.specs.Needs.{label_of};
ghost use Rattle.dp_lang.specs.declared.program.TheConstants.{MAX_INSTRS};
ghost use Rattle.dp_cost.specs.Costs as spec;

use dp_model::Instr;

/// The label that an instruction names.
pub(crate) fn target(instr: &Instr) -> Option<u16>
    ensures { result ≡ label_of instr.now }
{
    instr.needs().label
}

/// Whether control can go from an instruction to the next.
pub(crate) fn goes_on(instr: &Instr) -> bool
    ensures { result ≡ spec.goes_on instr.now }
{
    match *instr {
        Instr::Jmp { .. } | Instr::Exit => false,
        _ => true,
    }
}

/// Whether an instruction at a label names this label or an earlier one.
fn jumps_back(instr: &Instr, label: usize) -> bool
    ensures { result ≡ spec.jumps_back label instr.now }
{
    match target(instr) {
        Some(to) => usize::from(to) <= label,
        None => false,
    }
}

/// The first label at which a program can jump back.
pub(crate) fn first_back(instrs: &[Instr]) -> Option<usize>
    requires { length instrs.now ≤ MAX_INSTRS }
    ensures some { IfSome result (λ label. spec.IsFirstBack instrs.now label) }
    ensures within { IfSome result (λ label. label ≤ MAX_INSTRS) }
    ensures none { IfNone result (IsForward instrs.now) }
{
    for label in 0..instrs.len() {
        if jumps_back(&instrs[label], label) {
            return Some(label);
        }
    }
    None
}
