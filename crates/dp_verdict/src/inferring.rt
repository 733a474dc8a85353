//! `dpv infer` and `dpv infer-one`: the certificate of a program.

ghost use Rattle.std.specs.Prelude.{◌≡◌, IfErr, IfOk, MatchOption, Some, option_map};
ghost use Rattle.dp_cert.specs.Spelling.{Certificate};
ghost use Rattle.dp_check.specs.Faults.{IsWith};
ghost use Rattle.dp_load.specs.Nodes.{Fails};
ghost use Rattle.dp_sources.specs.Sources.{files_of};
ghost use Rattle.dp_sources.specs.Subjects.{asked_node, env_of};
ghost use Rattle.dp_verdict.specs.Inferring.{IsInferred, SaysCert, SaysInferred, by_itself, node_at};

use crate::judging::unloaded;
use crate::report::{failed, no_node};
use dp_cert::{Cert, encode};
use dp_check::Checked;
use dp_console::Reply;
use dp_infer::InferError;
use dp_load::{PipeError, Pipeline};
use dp_model::{Entry, Env};
use dp_sources::{Asked, Fault, Sources, Subject, program_of};
use std::alloc::{AllocError, Global};

/// The text of a certificate.
fn said_cert(alloc: Global, cert: &Cert) -> Reply
    ensures { SaysCert cert.now result }
{
    let mut reply = Reply::new(alloc);
    match encode(alloc, cert) {
        Ok(bytes) => reply.out.bytes = bytes,
        Err(AllocError) => return failed(alloc, Fault::Memory, false),
    }
    reply
}

/// The node of a pipeline with this entry, if it has one.
fn node_at(pipeline: &Pipeline, which: Entry) -> Option<&Checked>
    ensures { option_map (λ node. node.now) result ≡ node_at pipeline.now which }
{
    let ports = pipeline.ports();
    match which {
        Entry::Port(port) if usize::from(port) < ports => { Some(pipeline.node(usize::from(port))) }
        Entry::Ring(ring) if usize::from(ring) < pipeline.nodes() - ports => {
            Some(pipeline.node(ports + usize::from(ring)))
        }
        _ => None,
    }
}

/// `dpv infer`: the certificate of a node of a pipeline. The status is 2 if there is no such node.
pub fn infer(alloc: Global, pipeline: &Pipeline, which: Entry) -> Reply
    ensures { MatchOption (node_at pipeline.now which) (result.status ≡ 2) (λ node. (cert : Certificate) → IsWith node cert → SaysCert cert result) }
{
    match node_at(pipeline, which) {
        Some(node) => said_cert(alloc, node.cert()),
        None => no_node(alloc, which),
    }
}

/// Infers a certificate for the program of a node.
fn inferred(
    alloc: Global,
    sources: &Sources,
    env: &Env,
    asked: Asked<'_>,
) -> Result<Cert, PipeError>
    ensures found { IfOk result (IsInferred (Some (files_of sources.now)) env.now (by_itself (asked_node asked.entry))) }
    ensures fails { IfErr result (Fails (Some (files_of sources.now)) env.now (by_itself (asked_node asked.entry))) }
{
    let node = asked.node;
    let program = program_of(alloc, sources, asked)?;
    match dp_infer::infer(alloc, &program, env, node) {
        Ok(cert) => Ok(cert),
        Err(InferError::Memory) => Err(PipeError::Memory),
        Err(InferError::NoCert { label, rule }) => {
            Err(PipeError::NotInferred { node, label, rule })
        }
    }
}

/// The certificate of a program by itself; or why there is none, and what helps.
fn said_inferred(
    alloc: Global,
    subject: Subject<'_>,
    sources: &Sources,
    env: &Env,
    asked: Asked<'_>,
) -> Reply
    ensures { SaysInferred (Some (files_of sources.now)) env.now (by_itself (asked_node asked.entry)) result }
{
    match inferred(alloc, sources, env, asked) {
        Ok(cert) => said_cert(alloc, &cert),
        Err(error) => unloaded(alloc, error, subject, sources, false),
    }
}

/// `dpv infer-one`: the certificate of a program by itself; or why there is none, and what helps.
pub fn infer_one(alloc: Global, subject: Subject<'_>, sources: &Sources, asked: Asked<'_>) -> Reply
    ensures { SaysInferred (Some (files_of sources.now)) (env_of subject.entry) (by_itself (asked_node asked.entry)) result }
{
    said_inferred(alloc, subject, sources, subject.env(), asked)
}
