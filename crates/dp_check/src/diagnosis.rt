//! Diagnoses why a program is refused.

ghost use Rattle.std.specs.Prelude.{◌≡◌, ◌<◌, ◌≤◌, true, false, length, IsTrue, IfSome, IfNone};
ghost use Rattle.std.specs.List.{list_all};
ghost use Rattle.dp_model.specs.declared.rule.Rule.TheVariants.{J2};
ghost use Rattle.dp_model.specs.Rows.{is_well_formed_row};
ghost use Rattle.dp_model.specs.Rules.{begins_well, IsAccepted};
ghost use Rattle.dp_lang.specs.declared.program.TheConstants.{MAX_INSTRS};
ghost use Rattle.dp_cert.specs.declared.cert.Version.{Version};
ghost use Rattle.dp_check.specs.Faults.{question, later_fault};
ghost use Rattle.dp_check.specs.Diagnoses.{rule_of, Explains, IsDiagnosis, SaysOfWhole};

use crate::difference::gap;
use crate::entailing::entails;
use crate::reason::Reason;
use crate::rules::reason_at;
use dp_cert::Cert;
use dp_lang::Program;
use dp_model::{Entry, Env, Instr, Row};

/// Why a program is refused: the lowest failing label, from 0, and why the first rule that fails there does.
#[derive(Clone, Copy)]
pub struct Diagnosis {
    pub label: u16,
    pub reason: Reason,
}

/// Why the entry's row does not entail the first row, if it does not.
fn entry_reason(program: &[Instr], rows: &[Row], env: &Env, entry: Entry) -> Option<Reason>
    requires { 0 < length rows.now }
    ensures none { (version : Version) → IfNone result (begins_well (question program.now (record { version = version; rows = rows.now }) env.now entry)
        ≡ true) }
    ensures fails { (version : Version) → IfSome result (λ reason. begins_well
        (question program.now (record { version = version; rows = rows.now }) env.now entry) ≡ false) }
    ensures rule { IfSome result (λ reason. rule_of reason ≡ J2) }
    ensures says { (version : Version) → IfSome result (SaysOfWhole (question program.now (record { version = version; rows = rows.now }) env.now entry)) }
{
    let Some(row) = env.entry_row(entry) else {
        return Some(Reason::NoEntry);
    };
    if entails(&row, &rows[0]) {
        None
    } else {
        Some(Reason::EntryRow(gap(&row, &rows[0])))
    }
}

/// Why a program with these rows is refused, if it is.
#[tactic(auto, using(crate::proofs::RuleLemmas::later_is, crate::proofs::RuleLemmas::later_past))]
pub(crate) fn first_reason(
    program: &[Instr],
    rows: &[Row],
    env: &Env,
    entry: Entry,
) -> Option<Diagnosis>
    requires some { 0 < length program.now }
    requires at_most { length program.now ≤ MAX_INSTRS }
    requires well_formed { IsTrue (list_all is_well_formed_row rows.now) }
    ensures accepted { (version : Version) → IfNone result (IsAccepted (question program.now (record { version = version; rows = rows.now }) env.now entry)) }
    ensures refused { (version : Version) → IfSome result (IsDiagnosis (question program.now (record { version = version; rows = rows.now }) env.now entry)) }
{
    if rows.len() != program.len() {
        let reason = Reason::RowCount {
            known: rows.len(),
            wanted: program.len(),
        };
        return Some(Diagnosis { label: 0, reason });
    }
    if let Some(reason) = entry_reason(program, rows, env, entry) {
        return Some(Diagnosis { label: 0, reason });
    }
    for label in 0..program.len() as u16 {
        if let Some(reason) = reason_at(program, rows, env, label) {
            return Some(Diagnosis { label, reason });
        }
    }
    None
}

/// Says why [`check`](crate::check) refuses a program, or nothing if it accepts it. Label and rule are those of `check`; the reason says what is
/// known there and what the rule wants. It takes no memory.
pub fn diagnose(program: &Program, cert: &Cert, env: &Env, entry: Entry) -> Option<Diagnosis>
    ensures accepted { IfNone result (IsAccepted (question program.now cert.now env.now entry)) }
    ensures refused { IfSome result (IsDiagnosis (question program.now cert.now env.now entry)) }
{
    first_reason(program.instrs(), cert.rows(), env, entry)
}
