//! The verdict on each node by itself, and on a whole pipeline: `dpv explain`, `dpv check`, and what is said of a pipeline that is not loaded.

ghost use Rattle.std.specs.Prelude.{◌≡◌, ◌⊎◌, ◌∷◌, [], IfErr, IfOk, IfSome, None, Some, false, map, option_map};
ghost use Rattle.dp_load.specs.Loads.{IsLoadedFrom, IsUnloaded};
ghost use Rattle.dp_sources.specs.Sources.{files_of};
ghost use Rattle.dp_sources.specs.Subjects.{asked_node, env_of};
ghost use Rattle.dp_verdict.specs.Checks.{HasOnly, IsChecked, IsRefused, SaysChecked, SaysRefused, accepted};
ghost use Rattle.dp_verdict.specs.Judging.{Explains, HasNoRows, IsCertFor, IsFinding, IsNext, IsUnjudged};
ghost use Rattle.dp_verdict.specs.Judging.{SaysExplained, SaysFindings, refused_for};
ghost use Rattle.dp_verdict.specs.Reports.{findings_of, status_of, texts_of};

use crate::report::{Finding, RefusedAt, Report, Verdict, Why, failed, no_node, reply_of};
use dp_cert::Cert;
use dp_check::{Diagnosis, Reason, diagnose};
use dp_console::{MEMORY, Reply};
use dp_infer::attempt;
use dp_lang::Program;
use dp_load::{How, PipeError, Pipeline, cert_of, load};
use dp_model::{Entry, Env};
use dp_sources::{
    Asked, Fault, Lent, MAX_NODES, RouteFile, Sources, Subject, entry_at, program_of, say_misread,
    say_unloaded,
};
use std::alloc::Global;

/// The certificate by which a program is judged.
fn cert_for(
    alloc: Global,
    sources: &Sources,
    env: &Env,
    asked: Asked<'_>,
    program: &Program,
) -> Result<Cert, PipeError>
    ensures found { IfOk result (IsCertFor (Some (files_of sources.now)) env.now asked.entry.node (asked_node asked.entry).cert program.now) }
    ensures fails { IfErr result (λ e. (e ≡ PipeError.Memory)
        ⊎ HasNoRows (Some (files_of sources.now)) asked.entry.node (asked_node asked.entry).cert program.now e) }
{
    let count = program.instrs().len();
    match asked.cert {
        Some(name) => cert_of(alloc, &mut Lent(sources), asked.node, name, count),
        None => Ok(attempt(alloc, program, env, asked.node)?),
    }
}

/// Where, by which rule and why a program is refused, if it is.
fn refused_for(
    asked: Asked<'_>,
    diagnosis: Option<Diagnosis>,
) -> (Option<RefusedAt>, Option<Reason>)
    ensures { result.0 ≡ option_map (refused_for (asked_node asked.entry).cert) diagnosis }
{
    let Some(Diagnosis { label, reason }) = diagnosis else {
        return (None, None);
    };
    let (given, rule) = (asked.cert.is_some(), reason.rule().number());
    (Some(RefusedAt { given, label, rule }), Some(reason))
}

/// A node's program, judged.
#[derive(Drop)]
pub struct Judged<'a> {
    /// The program's text.
    pub text: &'a [u8],
    pub program: Program,
    /// The given certificate; or the one with which inference ends, whether the program is accepted with it or not.
    pub cert: Cert,
    pub verdict: Verdict,
    /// Why it is refused, if it is.
    pub reason: Option<Reason>,
}

/// Judges a node's program.
///
/// # Errors
///
/// `File`, `Asm` or `BadCert` if there is no program or certificate to judge, and `Memory`.
pub fn judge<'a>(
    alloc: Global,
    sources: &'a Sources,
    env: &Env,
    asked: Asked<'a>,
) -> Result<Judged<'a>, PipeError>
    ensures judged { IfOk result (λ judged. IsFinding (Some (files_of sources.now)) env.now (asked_node asked.entry) judged.verdict) }
    ensures fails { IfErr result (IsUnjudged (Some (files_of sources.now)) (asked_node asked.entry)) }
{
    let program = program_of(alloc, sources, asked)?;
    let cert = cert_for(alloc, sources, env, asked, &program)?;
    let diagnosis = diagnose(&program, &cert, env, asked.node);
    let (refused, reason) = refused_for(asked, diagnosis);
    let node = asked.node;
    Ok(Judged {
        text: sources.get(asked.program).unwrap_or(&[]),
        program,
        cert,
        verdict: Verdict { node, refused },
        reason,
    })
}

/// Bytes as a text. It is empty if they are none.
fn text_of(bytes: &[u8]) -> &str {
    str::from_utf8(bytes).unwrap_or("")
}

/// The maximum number of segments of a node's packets, if it is a port.
fn segs_of(env: &Env, node: Entry) -> Option<u32> {
    let Entry::Port(port) = node else { return None };
    let port = env.ports().get(usize::from(port))?;
    Some(port.segs)
}

/// The report that all nodes of a pipeline are accepted.
fn accepted_in<'a>(alloc: Global, pipeline: &Pipeline) -> Report<'a>
    ensures { HasOnly (map accepted pipeline.now.nodes) result }
{
    let (mut nodes, fault) = (Vec::new(alloc), None);
    for k in 0..pipeline.nodes() {
        let node = pipeline.node(k).entry();
        let Ok(()) = nodes.push(Finding::plain(node, None)) else {
            return Report::of_fault(Fault::Memory);
        };
    }
    let nodes = Some(nodes);
    Report { nodes, fault }
}

/// The first program that is refused or has no certificate; or a fault.
pub(crate) fn refused<'a>(alloc: Global, error: PipeError) -> Report<'a>
    ensures { IsRefused error result }
{
    let (node, given, label, rule) = match error {
        PipeError::Refused { node, label, rule } => (node, true, label, rule),
        PipeError::NotInferred { node, label, rule } => (node, false, label, rule),
        _ => return Report::of_fault(Fault::of_pipeline(error)),
    };
    let at = RefusedAt { given, label, rule };
    let (mut nodes, fault) = (Vec::new(alloc), None);
    if nodes.push(Finding::plain(node, Some(at))).is_err() {
        return Report::of_fault(Fault::Memory);
    }
    let nodes = Some(nodes);
    Report { nodes, fault }
}

/// A subject, and the files that were read for it.
#[derive(Clone, Copy)]
struct Case<'a> {
    alloc: Global,
    subject: Subject<'a>,
    sources: &'a Sources,
}

impl<'a> Case<'a> {
    /// The verdict on a node, with the reason if its program is refused.
    fn finding(self, asked: Asked<'a>) -> Result<Finding<'a>, PipeError>
        ensures { IfOk result (λ finding. IsFinding (Some (files_of self.entry.sources.now))
            (env_of self.entry.subject) (asked_node asked.entry) finding.verdict) }
    {
        let env = self.subject.env();
        let judged = judge(self.alloc, self.sources, env, asked)?;
        let (verdict, bytes, file) = (judged.verdict, judged.text, asked.program);
        let (Some(_), Some(reason)) = (verdict.refused, judged.reason) else {
            return Ok(Finding { verdict, why: None });
        };
        let segs = segs_of(env, asked.node);
        let text = String::from_str(self.alloc, text_of(bytes))?;
        let why = Some(Why {
            file,
            text,
            segs,
            reason,
        });
        Ok(Finding { verdict, why })
    }

    /// Adds the verdict on the node with this entry, if there is one.
    fn find_at(self, node: Entry, findings: &mut Vec<Finding<'a>>) -> Result<(), PipeError>
        ensures { IfOk result (λ _. IsNext (Some (files_of self.entry.sources.now)) self.entry.subject node findings.old.items findings.new.items) }
    {
        if let Some(asked) = self.subject.node(node) {
            let finding = self.finding(asked)?;
            findings.push(finding)?;
        }
        Ok(())
    }

    /// Adds the verdicts on all nodes, or on one of them, up to the first fault.
    #[tactic(auto, using(crate::proofs::FindingsNext::findings_next))]
    fn find(self, which: Option<Entry>, findings: &mut Vec<Finding<'a>>) -> Result<(), PipeError>
        requires { findings.old.items ≡ [] }
        ensures { IfOk result (λ _. Explains (Some (files_of self.entry.sources.now)) self.entry.subject which findings.new.items) }
    {
        if let Some(node) = which {
            return self.find_at(node, findings);
        }
        for index in 0..MAX_NODES {
            self.find_at(entry_at(index), findings)?;
        }
        Ok(())
    }

    /// The report of the verdicts on all nodes, or on one of them, up to the first fault; and what ended it.
    fn found(self, which: Option<Entry>) -> (Report<'a>, Option<PipeError>)
        ensures { result.0.fault ≡ None → Explains (Some (files_of self.entry.sources.now)) self.entry.subject which (findings_of result.0) }
    {
        let mut findings = Vec::new(self.alloc);
        let (fault, error) = match self.find(which, &mut findings) {
            Ok(()) => (None, None),
            Err(error) => (Some(Fault::of_pipeline(error)), Some(error)),
        };
        let nodes = Some(findings);
        (Report { nodes, fault }, error)
    }

    /// The verdicts on all nodes, or on one of them, with the reason for each that is refused; or the fault, and what helps.
    fn explained(self, which: Option<Entry>, is_json: bool) -> Reply
        ensures { SaysFindings (Some (files_of self.entry.sources.now)) self.entry.subject which result }
    {
        let (report, error) = self.found(which);
        self.said(&report, error, is_json)
    }

    /// The verdicts by which a pipeline was loaded or not: all nodes as accepted; or the first that is refused or has no certificate; or a fault.
    fn check(self, loaded: &Result<Pipeline, PipeError>) -> Report<'a>
        ensures { IsChecked loaded.now result }
    {
        match *loaded {
            Ok(ref pipeline) => accepted_in(self.alloc, pipeline),
            Err(error) => refused(self.alloc, error),
        }
    }

    /// What a report says; then the facts of this error, and why a program by itself has no certificate.
    fn said(self, report: &Report<'_>, error: Option<PipeError>, is_json: bool) -> Reply
        ensures status { result.status ≡ status_of report.now }
        ensures text { is_json ≡ false → result.out.has_failed ≡ false → IfSome (texts_of (findings_of report.now)) (λ text. result.out.bytes.items ≡ text) }
    {
        let mut reply = reply_of(self.alloc, report, is_json);
        let Some(error) = error else { return reply };
        if reply.status == MEMORY {
            return reply;
        }
        let (subject, err) = (self.subject, &mut reply.err);
        say_unloaded(self.alloc, subject, self.sources, error, err);
        if let (Subject::Single { .. }, PipeError::NotInferred { node, .. }) = (subject, error)
            && let Some(asked) = subject.node(node)
            && let Ok(finding) = self.finding(asked)
            && finding.why.is_some()
        {
            finding.say_view(self.alloc, "refusal_at", &mut reply.err);
        }
        reply
    }
}

/// `dpv explain` and `dpv explain-one`: the verdicts on all nodes, or on one of them, with the reason for each that is refused. The status is 1 if one
/// is refused, and 2 if there is no such node.
pub fn explain(
    alloc: Global,
    subject: Subject<'_>,
    sources: &Sources,
    which: Option<Entry>,
    is_json: bool,
) -> Reply
    ensures { SaysExplained (Some (files_of sources.now)) subject.entry which result }
{
    let case = Case {
        alloc,
        subject,
        sources,
    };
    match which {
        Some(node) if subject.node(node).is_none() => no_node(alloc, node),
        _ => case.explained(which, is_json),
    }
}

/// What is said of a pipeline that is not loaded, or of a program without a certificate.
#[tactic(auto, using(crate::proofs::ZeroStatus::refused_not_zero))]
pub fn unloaded(
    alloc: Global,
    error: PipeError,
    subject: Subject<'_>,
    sources: &Sources,
    is_json: bool,
) -> Reply
    ensures says { SaysRefused error is_json result }
    ensures not_done { result.status ≡ 0 → ⊥ }
{
    let case = Case {
        alloc,
        subject,
        sources,
    };
    case.said(&refused(alloc, error), Some(error), is_json)
}

/// `dpv check` of a pipeline's text and the files that it names: what it says, and the pipeline or why there is none.
#[tactic(auto, using(crate::proofs::ZeroStatus::zero_is_loaded))]
pub fn check_text(
    alloc: Global,
    text: &[u8],
    subject: Subject<'_>,
    sources: &Sources,
    is_json: bool,
) -> (Reply, Result<Pipeline, PipeError>)
    ensures loaded { IfOk result.1 (IsLoadedFrom (Some (files_of sources.now)) How.Given text.now) }
    ensures unloaded { IfErr result.1 (IsUnloaded (Some (files_of sources.now)) How.Given text.now) }
    ensures said { SaysChecked result.1 is_json result.0 }
    ensures accepted { result.0.status ≡ 0 → IfErr result.1 (λ _. ⊥) }
{
    let loaded = load(alloc, text, &mut Lent(sources), How::Given);
    let case = Case {
        alloc,
        subject,
        sources,
    };
    let error = match loaded {
        Ok(_) => None,
        Err(error) => Some(error),
    };
    (case.said(&case.check(&loaded), error, is_json), loaded)
}

/// What is said of a text that, with the routes of these files, is not read as a pipeline.
pub fn misread(
    alloc: Global,
    file: &str,
    text: &[u8],
    routes: &[RouteFile],
    error: PipeError,
    is_json: bool,
) -> Reply
    ensures { result.status ≡ 0 → ⊥ }
{
    let mut reply = failed(alloc, Fault::of_pipeline(error), is_json);
    say_misread(alloc, file, text, routes, error, &mut reply.err);
    reply
}
