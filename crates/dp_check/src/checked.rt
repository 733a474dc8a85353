//! Checks a program with its certificate.

ghost use Rattle.std.specs.Prelude.{◌≡◌, ◌≤◌, length, IsTrue, IfSome, IfNone, IfOk, IfErr};
ghost use Rattle.std.specs.List.{list_all};
ghost use Rattle.dp_model.specs.Rows.{is_well_formed_row};
ghost use Rattle.dp_model.specs.Rules.{IsAccepted, IsRefused};
ghost use Rattle.dp_lang.specs.Programs.{IsProgram};
ghost use Rattle.dp_cert.specs.Spelling.{Certificate};
ghost use Rattle.dp_check.specs.Faults.{question, IsWith, IsChecked, IsRefusedWith};

use crate::diagnosis::first_reason;
use dp_cert::Cert;
use dp_lang::Program;
use dp_model::{Entry, Env, Rule};
use std::fmt::{self, Display, Formatter, Write};
use std::marker::Model;

/// A program that is accepted with its certificate, for an environment and an entry. Only `check` makes one.
#[derive(Drop)]
pub struct Checked {
    program: Program,
    cert: Cert,
    env: Env,
    entry: Entry,
}

impl Model for Checked {
    ghost use Rattle.dp_model.specs.Rules.{Question};
    ghost use Rattle.dp_check.specs.Faults.{question, IsChecked};

    ghost Value = { Question };

    ghost view = { λ a. question a.program a.cert a.env a.entry };

    ghost invariant = { λ a. IsChecked (question a.program a.cert a.env a.entry) };
}

impl Checked {
    /// The program.
    pub fn program(&self) -> &Program
        ensures same { result.now ≡ self.now.program }
        // No rule fails.
        ensures accepted { IsAccepted self.now }
        // It has from 1 to 1,024 instructions.
        ensures program { IsProgram self.now.program }
        ensures well_formed { IsTrue (list_all is_well_formed_row self.now.rows) }
    {
        &self.program
    }

    /// The certificate, in the version in which it was handed in.
    #[tactic(auto, using(crate::proofs::Versions::same_certificate))]
    pub fn cert(&self) -> &Cert
        ensures is { IsWith self.now result.now }
        ensures only { (cert : Certificate) → IsWith self.now cert → result.now ≡ cert }
    {
        &self.cert
    }

    /// Takes the program out and drops the certificate.
    pub fn into_program(self) -> Program
        ensures same { result ≡ self.program }
        ensures checked { IsChecked self }
    {
        let Checked {
            program,
            cert: _,
            env: _,
            entry: _,
        } = self;
        program
    }

    /// The environment for which it is accepted.
    pub fn env(&self) -> &Env
        ensures { result.now ≡ self.now.env }
    {
        &self.env
    }

    /// The entry for which it is accepted.
    pub fn entry(&self) -> Entry
        ensures { result ≡ self.now.entry }
    {
        self.entry
    }
}

/// Where a program is refused: the lowest failing label, from 0, and the first rule that fails there.
#[derive(Clone, Copy)]
pub struct Fault {
    pub label: u16,
    pub rule: Rule,
}

/// A refused program: the lowest failing label, from 0, the number of its first failing rule, 1 to 11, and what was handed in. It is displayed
/// as `refused at 4 by J11`.
#[derive(Drop)]
pub struct Refused {
    pub label: u16,
    pub rule: u8,
    pub program: Program,
    pub cert: Cert,
}

impl Display for Refused {
    ghost use Rattle.std.specs.Prelude.{Some};
    ghost use Rattle.dp_check.specs.Faults.{refused_text};

    ghost output = { λ refused. Some (refused_text refused.label refused.rule) };

    fn fmt<W: Write>(&self, f: &mut Formatter<W>) -> fmt::Result {
        write!(f, "refused at {} by J{}", self.label, self.rule)
    }
}

/// The lowest failing label and its first failing rule.
fn first_fault(program: &Program, cert: &Cert, env: &Env, entry: Entry) -> Option<Fault>
    ensures none { IfNone result (IsAccepted (question program.now cert.now env.now entry)) }
    ensures some { IfSome result (λ f. IsRefused (question program.now cert.now env.now entry) f.label f.rule) }
    ensures well_formed { IsTrue (list_all is_well_formed_row cert.now.rows) }
{
    match first_reason(program.instrs(), cert.rows(), env, entry) {
        Some(found) => Some(Fault {
            label: found.label,
            rule: found.reason.rule(),
        }),
        None => None,
    }
}

/// Returns what `check` finds, without taking the program: the lowest failing label and its first failing rule, or nothing if the program
/// would be accepted.
pub fn fault_of(program: &Program, cert: &Cert, env: &Env, entry: Entry) -> Option<Fault>
    ensures none { IfNone result (IsAccepted (question program.now cert.now env.now entry)) }
    ensures some { IfSome result (λ f. IsRefused (question program.now cert.now env.now entry) f.label f.rule) }
{
    first_fault(program, cert, env, entry)
}

/// Decides by its certificate whether a program may run in an environment at an entry. It looks at each instruction once, and takes no
/// memory.
///
/// # Errors `Refused` if a rule fails, with the lowest failing label and the first rule
/// that fails there. An entry that the environment does not have is refused at label 0 by
/// J2.
pub fn check(program: Program, cert: Cert, env: &Env, entry: Entry) -> Result<Checked, Refused>
    ensures same { IfOk result (λ checked. checked ≡ question program cert env.now entry) }
    ensures accepted { IfOk result (λ checked. IsChecked checked) }
    ensures refused { IfErr result (λ r. IsRefusedWith (question program cert env.now entry) r.label r.rule) }
    ensures program_back { IfErr result (λ r. r.program ≡ program) }
    ensures cert_back { IfErr result (λ r. r.cert ≡ cert) }
{
    match first_fault(&program, &cert, env, entry) {
        Some(fault) => Err(Refused {
            label: fault.label,
            rule: fault.rule.number(),
            program,
            cert,
        }),
        None => Ok(Checked {
            program,
            cert,
            env: env.copy(),
            entry,
        }),
    }
}
