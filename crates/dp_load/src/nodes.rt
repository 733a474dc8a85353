//! Loads node programs and their certificates from files.

ghost use Rattle.std.specs.Prelude.{◌≡◌, ◌≤◌, ◌<◌, ◌+◌, ◌⊎◌, length, map, Some, IfOk, IfErr, IsTrue, slice_get, string_bytes};
ghost use Rattle.std.specs.Option.{option_map};
ghost use Rattle.dp_load.specs.Files.{IsFile};
ghost use Rattle.dp_load.specs.declared.nodes.How.{How};
ghost use Rattle.dp_load.specs.Views.{node_names};
ghost use Rattle.dp_load.specs.Nodes.{cert_read, node_of, all_nodes, IsProgramOf, IsCertOf, HasCert, IsLoaded, IsMissing, HasNoProgram, IsBadCert};
ghost use Rattle.dp_load.specs.Nodes.{IsRefusedBy, IsWithoutCert, HasNoCert, Fails, AreLoaded, FailsAtFirst};
ghost use Rattle.dp_cert.specs.Spelling.{certificate_of};
ghost use Rattle.dp_check.specs.Faults.{question, IsWith, IsChecked};
ghost use Rattle.dp_infer.specs.Inference.{SaysMost};

use crate::error::{FetchFault, PipeError};
use crate::file_names::{NodeNames, PortNames};
use crate::files::{Files, MAX_FILE};
use dp_cert::{Cert, CertError, decode};
use dp_check::{Checked, check};
use dp_infer::{InferError, infer_checked};
use dp_lang::{AsmError, Program, assemble};
use dp_model::{Entry, Env};
use std::alloc::Global;

/// Where the certificates of nodes come from.
#[derive(Clone, Copy)]
pub enum How {
    /// Named ones are read, and the others are inferred.
    Given,
    /// All are inferred.
    Inferred,
}

/// Fetches the bytes of a node's file.
///
/// # Errors
///
/// [`PipeError::File`] if it cannot be fetched or is longer than 1,048,576 bytes. [`PipeError::Memory`] may come at any time.
pub fn bytes_of<F: Files>(
    alloc: Global,
    files: &mut F,
    node: Entry,
    name: &str,
) -> Result<Vec<u8>, PipeError>
    ensures found { IfOk result (λ bytes. IsFile (F.contents files.old) name.now bytes.items) }
    ensures missing { IfErr result (λ e. (e ≡ PipeError.Memory) ⊎ IsMissing (F.contents files.old) node name.now e) }
    ensures stays { F.contents files.new ≡ F.contents files.old }
{
    match files.fetch(alloc, name) {
        Ok(bytes) => {
            if bytes.len() <= MAX_FILE {
                Ok(bytes)
            } else {
                Err(PipeError::File(node))
            }
        }
        Err(FetchFault::Missing) => Err(PipeError::File(node)),
        Err(FetchFault::Memory) => Err(PipeError::Memory),
    }
}

// Reads a file as a program.
fn program_of<F: Files>(
    alloc: Global,
    files: &mut F,
    node: Entry,
    name: &str,
) -> Result<Program, PipeError>
    ensures read { IfOk result (IsProgramOf (F.contents files.old) name.now) }
    ensures fails { IfErr result (λ e. (e ≡ PipeError.Memory) ⊎ HasNoProgram (F.contents files.old) node name.now e) }
    ensures stays { F.contents files.new ≡ F.contents files.old }
{
    let text = bytes_of(alloc, files, node, name)?;
    match assemble(alloc, text.as_slice()) {
        Ok(program) => Ok(program),
        Err(AsmError::Memory) => Err(PipeError::Memory),
        Err(AsmError::Fault(fault)) => Err(PipeError::Asm(node, fault)),
    }
}

/// Reads a file of a node as a certificate of `n` rows.
///
/// # Errors
///
/// [`PipeError::File`] as [`bytes_of`], and [`PipeError::BadCert`]. [`PipeError::Memory`] may come at any time.
pub fn cert_of<F: Files>(
    alloc: Global,
    files: &mut F,
    node: Entry,
    name: &str,
    n: usize,
) -> Result<Cert, PipeError>
    ensures read { IfOk result (λ cert. IsCertOf (F.contents files.old) name.now n cert) }
    ensures fails { IfErr result (λ e. (e ≡ PipeError.Memory) ⊎ IsMissing (F.contents files.old) node name.now e
        ⊎ IsBadCert (F.contents files.old) node name.now n e) }
    ensures stays { F.contents files.new ≡ F.contents files.old }
{
    let text = bytes_of(alloc, files, node, name)?;
    match decode(alloc, text.as_slice(), n) {
        Ok(cert) => Ok(cert),
        Err(CertError::Memory) => Err(PipeError::Memory),
        Err(CertError::Fault(fault)) => Err(PipeError::BadCert(node, fault)),
    }
}

// Checks the program with the certificate in a file.
#[tactic(auto, using(crate::proofs::Gathered::spelled_cert))]
fn given<F: Files>(
    alloc: Global,
    files: &mut F,
    env: &Env,
    node: Entry,
    program: Program,
    name: &str,
) -> Result<Checked, PipeError>
    ensures env { IfOk result (λ q. q.env ≡ env.now) }
    ensures entry { IfOk result (λ q. q.entry ≡ node) }
    ensures program { IfOk result (λ q. q.program ≡ program) }
    ensures checked { IfOk result IsChecked }
    ensures cert { IfOk result (λ q. HasCert (F.contents files.old) (Some name.now) q) }
    ensures fails { IfErr result (λ e. (e ≡ PipeError.Memory) ⊎ IsMissing (F.contents files.old) node name.now e
        ⊎ IsBadCert (F.contents files.old) node name.now (length program) e
        ⊎ IsRefusedBy (F.contents files.old) env.now node name.now program e) }
    ensures stays { F.contents files.new ≡ F.contents files.old }
{
    let cert = cert_of(alloc, files, node, name, program.instrs().len())?;
    match check(program, cert, env, node) {
        Ok(checked) => Ok(checked),
        Err(refused) => Err(PipeError::Refused {
            node,
            label: refused.label,
            rule: refused.rule,
        }),
    }
}

// Checks the program with an inferred certificate.
fn inferred(alloc: Global, env: &Env, node: Entry, program: Program) -> Result<Checked, PipeError>
    ensures env { IfOk result (λ q. q.env ≡ env.now) }
    ensures entry { IfOk result (λ q. q.entry ≡ node) }
    ensures program { IfOk result (λ q. q.program ≡ program) }
    ensures checked { IfOk result IsChecked }
    ensures cert { IfOk result (λ q. IsWith q (certificate_of q.rows)) }
    ensures most { IfOk result (λ q. SaysMost program env.now node q.rows) }
    ensures fails { IfErr result (λ e. (e ≡ PipeError.Memory) ⊎ IsWithoutCert env.now node program e) }
{
    match infer_checked(alloc, program, env, node) {
        Ok(checked) => Ok(checked),
        Err(InferError::Memory) => Err(PipeError::Memory),
        Err(InferError::NoCert { label, rule }) => {
            Err(PipeError::NotInferred { node, label, rule })
        }
    }
}

// The name of the certificate file to read, if there is one.
fn cert_read(how: How, names: &NodeNames) -> Option<&str>
    ensures { option_map (λ name. name.now) result ≡ cert_read how (node_names names.now) }
{
    match how {
        How::Inferred => None,
        How::Given => match &names.cert {
            Some(name) => Some(name.as_str()),
            None => None,
        },
    }
}

/// Loads a node's program, checked with its certificate.
///
/// # Errors
///
/// In this order: [`PipeError::File`] if the program file cannot be fetched or is longer than 1,048,576 bytes, and
/// [`PipeError::Asm`]; if a certificate is named, and not all are inferred, [`PipeError::File`] for its file,
/// [`PipeError::BadCert`] and [`PipeError::Refused`]; else [`PipeError::NotInferred`], with the label and the rule of a certificate that was
/// tried; for a forward program exactly if it is accepted with none. [`PipeError::Memory`] may come at any time.
pub(crate) fn load_node<F: Files>(
    alloc: Global,
    files: &mut F,
    how: How,
    env: &Env,
    node: Entry,
    names: &NodeNames,
) -> Result<Checked, PipeError>
    ensures loaded { IfOk result (IsLoaded (F.contents files.old) env.now (node_of how node (node_names names.now))) }
    ensures fails { IfErr result (Fails (F.contents files.old) env.now (node_of how node (node_names names.now))) }
    ensures stays { F.contents files.new ≡ F.contents files.old }
{
    let program = program_of(alloc, files, node, names.node.as_str())?;
    match cert_read(how, names) {
        Some(name) => given(alloc, files, env, node, program, name),
        None => inferred(alloc, env, node, program),
    }
}

// The entry and the files of a node, by index: ports come first, then rings.
fn node_at<'a>(
    ports: &'a [PortNames],
    rings: &'a [NodeNames],
    index: usize,
) -> (Entry, &'a NodeNames)
    requires few_ports { length ports.now ≤ 8 }
    requires few_rings { length rings.now ≤ 8 }
    requires index { index < length ports.now + length rings.now }
    ensures { (how : How) → slice_get (all_nodes how (map (λ port. node_names port.files) ports.now) (map node_names rings.now)) index
        ≡ Some (node_of how result.0 (node_names result.1.now)) }
{
    if index < ports.len() {
        (Entry::Port(index as u8), &ports[index].files)
    } else {
        let ring = index - ports.len();
        (Entry::Ring(ring as u8), &rings[ring])
    }
}

/// Loads the programs of all nodes, each checked: one for each port, then one for each ring.
///
/// # Errors
///
/// That of the first node that is not loaded, or [`PipeError::Memory`].
pub(crate) fn load_nodes<F: Files>(
    alloc: Global,
    files: &mut F,
    how: How,
    env: &Env,
    ports: &[PortNames],
    rings: &[NodeNames],
) -> Result<Vec<Checked>, PipeError>
    requires few_ports { length ports.now ≤ 8 }
    requires few_rings { length rings.now ≤ 8 }
    ensures loaded { IfOk result (λ nodes. AreLoaded (F.contents files.old) env.now
        (all_nodes how (map (λ port. node_names port.files) ports.now) (map node_names rings.now)) nodes.items) }
    ensures fails { IfErr result (λ e. (e ≡ PipeError.Memory) ⊎ FailsAtFirst (F.contents files.old) env.now
        (all_nodes how (map (λ port. node_names port.files) ports.now) (map node_names rings.now)) e) }
    ensures stays { F.contents files.new ≡ F.contents files.old }
{
    let mut nodes = Vec::new(alloc);
    for index in 0..ports.len() + rings.len() {
        let (node, names) = node_at(ports, rings, index);
        let checked = load_node(alloc, files, how, env, node, names)?;
        nodes.push(checked)?;
    }
    Ok(nodes)
}
