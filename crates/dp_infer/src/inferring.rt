//! Infers certificates, in one pass over a forward program, else in passes until no row changes.

ghost use Rattle.std.specs.Prelude.{◌≡◌, ◌⊎◌, ◌<◌, ◌≤◌, length, IsTrue, IfOk, IfErr, IfSome, IfNone};
ghost use Rattle.std.specs.List.{list_all};
ghost use Rattle.dp_model.specs.Rows.{is_well_formed_row};
ghost use Rattle.dp_model.specs.Rules.{number_of};
ghost use Rattle.dp_lang.specs.declared.program.TheConstants.{MAX_INSTRS};
ghost use Rattle.dp_cert.specs.Spelling.{version_for, certificate_of};
ghost use Rattle.dp_check.specs.Faults.{question, IsChecked};
ghost use Rattle.dp_infer.specs.Joins as spec;
ghost use Rattle.dp_infer.specs.Widening.{widened_to_end, IsNotEnough, AreLast, IsOfLast};
ghost use Rattle.dp_infer.specs.Inference.{Certifies, HasNone, SaysMost, AreRefused, AreTried, IsWithout};

use crate::join::{joined, pass_on};
use crate::widening::widen;
use dp_cert::Cert;
use dp_check::{Checked, Fault, Refused, check, fault_of, leads_of};
use dp_lang::Program;
use dp_model::{Entry, Env, Fact, Instr, Row};
use std::alloc::{AllocError, Global};
use thiserror::Error;

/// Why no certificate is returned.
#[derive(Debug, Drop, Error)]
pub enum InferError {
    /// The allocator refused the memory for the rows.
    #[error("out of memory")]
    Memory,
    /// No certificate is found. With the last one that was tried, the label, from 0, is the lowest that fails, and the rule with this number, 2 to
    /// 11, is the first that fails there. A forward program is then accepted with no certificate.
    #[error("not inferred at {label} by J{rule}")]
    NoCert { label: u16, rule: u8 },
}

impl From<AllocError> for InferError {
    ghost use Rattle.dp_infer.specs.declared.inferring.InferError.TheVariants.{Memory};

    ghost from_gives = { λ _ e. e ≡ Memory };

    fn from(_e: AllocError) -> InferError {
        InferError::Memory
    }
}

/// The row of a label that control never reaches.
fn dead_row() -> Row
    ensures { result ≡ spec.dead_row }
{
    Row {
        live: false,
        facts: [Fact::Empty; 8],
        bounds: [0; 8],
    }
}

/// Makes `n` rows. The first says what is known at the entry, the others say nothing.
fn begun(alloc: Global, entry: Option<Row>, n: usize) -> Result<Vec<Row>, AllocError>
    requires { 0 < n }
    ensures { IfOk result (λ v. v.items ≡ spec.begun entry n) }
{
    let mut rows = vec![in alloc; dead_row(); n]?;
    if let Some(row) = entry {
        rows[0] = joined(&row, &row);
    }
    Ok(rows)
}

/// Joins what is known after a label into the rows of its successors.
#[tactic(auto, using(crate::proofs::Passing::not_passed, crate::proofs::Passing::stays_well_formed))]
fn pass_from(rows: &mut [Row], env: &Env, label: u16, instr: &Instr)
    requires in_range { label < length rows.old }
    requires at_most { length rows.old ≤ MAX_INSTRS }
    requires well_formed { IsTrue (list_all is_well_formed_row rows.old) }
    ensures found { rows.new ≡ spec.passed_from env.now label instr.now rows.old }
    ensures well_formed { IsTrue (list_all is_well_formed_row rows.new) }
{
    let row = rows[usize::from(label)];
    if row.live {
        let leads = leads_of(*instr, env, label, &row);
        pass_on(rows, label, &leads);
    }
}

/// Joins rows into those of successors, label by label in order.
fn spread(program: &[Instr], env: &Env, rows: &mut [Row])
    requires same_length { length rows.old ≡ length program.now }
    requires at_most { length program.now ≤ MAX_INSTRS }
    requires well_formed { IsTrue (list_all is_well_formed_row rows.old) }
    ensures found { rows.new ≡ spec.spread env.now program.now 0 rows.old }
    ensures well_formed { IsTrue (list_all is_well_formed_row rows.new) }
{
    for label in 0..program.len() as u16 {
        pass_from(rows, env, label, &program[usize::from(label)]);
    }
}

/// The strongest rows.
#[tactic(auto, using(crate::proofs::Infers::begun_well_formed))]
fn found_rows(
    alloc: Global,
    program: &[Instr],
    env: &Env,
    entry: Entry,
) -> Result<Vec<Row>, AllocError>
    requires some { 1 ≤ length program.now }
    requires at_most { length program.now ≤ MAX_INSTRS }
    ensures well_formed { IfOk result (λ v. IsTrue (list_all is_well_formed_row v.items)) }
    ensures found { IfOk result (λ v. v.items ≡ spec.found_rows program.now env.now entry) }
{
    let mut rows = begun(alloc, env.entry_row(entry), program.len())?;
    spread(program, env, &mut rows);
    Ok(rows)
}

/// The strongest rows, as a certificate.
fn cert_of_rows(
    alloc: Global,
    program: &Program,
    env: &Env,
    entry: Entry,
) -> Result<Cert, AllocError>
    ensures some { 1 ≤ length program.now }
    ensures found { IfOk result (λ cert. cert ≡ certificate_of (spec.found_rows program.now env.now entry)) }
    ensures well_formed { IfOk result (λ cert. IsTrue (list_all is_well_formed_row cert.rows)) }
    ensures version { IfOk result (λ cert. cert.version ≡ version_for cert.rows) }
{
    Ok(Cert::new(found_rows(alloc, program.instrs(), env, entry)?))
}

/// The rows of a program with loops, weakened pass by pass.
fn widened_rows(
    alloc: Global,
    program: &Program,
    env: &Env,
    entry: Entry,
) -> Result<Cert, AllocError>
    ensures long { IfOk result (λ cert. length cert.rows ≡ length program.now) }
    ensures well_formed { IfOk result (λ cert. IsTrue (list_all is_well_formed_row cert.rows)) }
    ensures is { IfOk result (λ cert. cert ≡ certificate_of cert.rows) }
    ensures widened_to_end { IfOk result (λ cert. cert.rows ≡ widened_to_end program.now env.now (spec.found_rows program.now env.now entry)) }
{
    let mut rows = found_rows(alloc, program.instrs(), env, entry)?;
    widen(&mut rows, program.instrs(), env);
    Ok(Cert::new(rows))
}

/// A certificate that was tried, and where the program is refused with it, if it is.
#[derive(Drop)]
struct Tried {
    cert: Cert,
    fault: Option<Fault>,
}

/// Infers the last certificate, and tries it.
fn last_tried(
    alloc: Global,
    program: &Program,
    env: &Env,
    entry: Entry,
) -> Result<Tried, AllocError>
    ensures accepted { IfOk result (λ tried. IfNone tried.fault (Certifies program.now env.now entry tried.cert.rows)) }
    ensures most { IfOk result (λ tried. SaysMost program.now env.now entry tried.cert.rows) }
    ensures version { IfOk result (λ tried. tried.cert.version ≡ version_for tried.cert.rows) }
    ensures none { IfOk result (λ tried. IfSome tried.fault (λ f. HasNone program.now env.now entry)) }
    ensures refused { IfOk result (λ tried. IfSome tried.fault (λ f. AreRefused program.now env.now entry tried.cert.rows f.label (number_of f.rule))) }
    ensures last { IfOk result (λ tried. AreLast program.now env.now entry tried.cert.rows) }
{
    let cert = cert_of_rows(alloc, program, env, entry)?;
    match fault_of(program, &cert, env, entry) {
        None => Ok(Tried { cert, fault: None }),
        Some(_) => {
            let widened_to_end = widened_rows(alloc, program, env, entry)?;
            let fault = fault_of(program, &widened_to_end, env, entry);
            Ok(Tried {
                cert: widened_to_end,
                fault,
            })
        }
    }
}

/// As [`infer`], with clauses that say with which rows inference ends.
fn inferred(alloc: Global, program: &Program, env: &Env, entry: Entry) -> Result<Cert, InferError>
    ensures accepted { IfOk result (λ cert. Certifies program.now env.now entry cert.rows) }
    ensures most { IfOk result (λ cert. SaysMost program.now env.now entry cert.rows) }
    ensures version { IfOk result (λ cert. cert.version ≡ version_for cert.rows) }
    ensures none { IfErr result (λ e. IsWithout program.now env.now entry e) }
    ensures last { IfOk result (λ cert. AreLast program.now env.now entry cert.rows) }
    ensures of_last { IfErr result (λ e. IsOfLast program.now env.now entry e) }
{
    let Tried { cert, fault } = last_tried(alloc, program, env, entry)?;
    match fault {
        None => Ok(cert),
        Some(fault) => Err(InferError::NoCert {
            label: fault.label,
            rule: fault.rule.number(),
        }),
    }
}

/// Infers the certificate of a program for an environment and an entry. For a forward program, in which each named label comes after its
/// instruction, each row is as strong as possible, and each instruction is looked at once. In a program with loops, rows are weakened pass by
/// pass until they are stable, in at most 4,096 passes.
///
/// # Errors `InferError::Memory` if the allocator refuses the memory for the rows, else `InferError::NoCert` if no
/// certificate is found. A forward program is then accepted with none; and if the environment does not have the entry, no
/// program is.
pub fn infer(alloc: Global, program: &Program, env: &Env, entry: Entry) -> Result<Cert, InferError>
    // The program is accepted with it.
    ensures accepted { IfOk result (λ cert. Certifies program.now env.now entry cert.rows) }
    // No certificate of a forward program says more.
    ensures most { IfOk result (λ cert. SaysMost program.now env.now entry cert.rows) }
    // It has version 1 exactly if no row has a group.
    ensures version { IfOk result (λ cert. cert.version ≡ version_for cert.rows) }
    // Unless memory runs out, a forward program has no certificate if none is returned, and the program is refused at that label by that rule with
    // one that was tried.
    ensures none { IfErr result (λ e. IsWithout program.now env.now entry e) }
{
    inferred(alloc, program, env, entry)
}

/// A program with loops, checked with the rows that are found.
fn widened_checked(
    alloc: Global,
    program: Program,
    env: &Env,
    entry: Entry,
) -> Result<Checked, InferError>
    requires none { HasNone program env.now entry }
    requires more { IsNotEnough program env.now entry }
    ensures same { IfOk result (λ q. q ≡ question program (certificate_of q.rows) env.now entry) }
    ensures checked { IfOk result (λ q. IsChecked q) }
    ensures none { IfErr result (λ e. IsWithout program env.now entry e) }
    ensures last { IfOk result (λ q. AreLast program env.now entry q.rows) }
    ensures of_last { IfErr result (λ e. IsOfLast program env.now entry e) }
{
    let cert = widened_rows(alloc, &program, env, entry)?;
    match check(program, cert, env, entry) {
        Ok(checked) => Ok(checked),
        Err(refused) => Err(InferError::NoCert {
            label: refused.label,
            rule: refused.rule,
        }),
    }
}

/// As [`infer_checked`], with clauses that say with which rows inference ends.
fn inferred_checked(
    alloc: Global,
    program: Program,
    env: &Env,
    entry: Entry,
) -> Result<Checked, InferError>
    ensures same { IfOk result (λ q. q ≡ question program (certificate_of q.rows) env.now entry) }
    ensures checked { IfOk result (λ q. IsChecked q) }
    ensures most { IfOk result (λ q. SaysMost program env.now entry q.rows) }
    ensures none { IfErr result (λ e. IsWithout program env.now entry e) }
    ensures last { IfOk result (λ q. AreLast program env.now entry q.rows) }
    ensures of_last { IfErr result (λ e. IsOfLast program env.now entry e) }
{
    let cert = cert_of_rows(alloc, &program, env, entry)?;
    match check(program, cert, env, entry) {
        Ok(checked) => Ok(checked),
        Err(refused) => {
            let Refused { program, .. } = refused;
            widened_checked(alloc, program, env, entry)
        }
    }
}

/// Infers a certificate as [`infer`] does, and checks the program with it, once.
///
/// # Errors
/// Those of [`infer`].
pub fn infer_checked(
    alloc: Global,
    program: Program,
    env: &Env,
    entry: Entry,
) -> Result<Checked, InferError>
    // It is the program with a certificate, of version 1 exactly if no row has a group.
    ensures same { IfOk result (λ q. q ≡ question program (certificate_of q.rows) env.now entry) }
    // No rule fails.
    ensures checked { IfOk result (λ q. IsChecked q) }
    // No certificate of a forward program says more.
    ensures most { IfOk result (λ q. SaysMost program env.now entry q.rows) }
    // Unless memory runs out, a forward program has no certificate if none is found, and the program is refused at that label by that rule with
    // one that was tried.
    ensures none { IfErr result (λ e. IsWithout program env.now entry e) }
{
    inferred_checked(alloc, program, env, entry)
}

/// As [`attempt`], with a clause that says with which rows inference ends.
fn last_cert(alloc: Global, program: &Program, env: &Env, entry: Entry) -> Result<Cert, AllocError>
    ensures best { IfOk result (λ cert. Certifies program.now env.now entry cert.rows ⊎ HasNone program.now env.now entry) }
    ensures tried { IfOk result (λ cert. AreTried program.now env.now entry cert.rows) }
    ensures most { IfOk result (λ cert. SaysMost program.now env.now entry cert.rows) }
    ensures version { IfOk result (λ cert. cert.version ≡ version_for cert.rows) }
    ensures last { IfOk result (λ cert. AreLast program.now env.now entry cert.rows) }
{
    let Tried { cert, fault: _ } = last_tried(alloc, program, env, entry)?;
    Ok(cert)
}

/// Returns the certificate with which [`infer`] ends: the one that it returns, or else the last one that it tried, so that `diagnose` can
/// say why the program is refused with it.
///
/// # Errors
/// `AllocError` if the allocator refuses the memory for the rows.
pub fn attempt(
    alloc: Global,
    program: &Program,
    env: &Env,
    entry: Entry,
) -> Result<Cert, AllocError>
    // A forward program that is accepted with any certificate is accepted with this one.
    ensures best { IfOk result (λ cert. Certifies program.now env.now entry cert.rows ⊎ HasNone program.now env.now entry) }
    // The program is accepted or refused with it, and it has a row for each instruction.
    ensures tried { IfOk result (λ cert. AreTried program.now env.now entry cert.rows) }
    // No certificate of a forward program says more.
    ensures most { IfOk result (λ cert. SaysMost program.now env.now entry cert.rows) }
    // It has version 1 exactly if no row has a group.
    ensures version { IfOk result (λ cert. cert.version ≡ version_for cert.rows) }
{
    last_cert(alloc, program, env, entry)
}
