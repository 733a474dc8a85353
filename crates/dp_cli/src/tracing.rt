//! `dpv trace` and `dpv trace-one` over the host's files.

ghost use Rattle.std.specs.Prelude.{◌≡◌, ◌≤◌, IfOk, IfSome, length};
ghost use Rattle.dp_cli.specs.Runs as spec;
ghost use Rattle.dp_engine.specs.Engines.{IsAscending};

use crate::running::{program_of, refused_in, unopened};
use dp_captures::{CaptureNames, CaptureProblem, Replacements, names_of, open_inputs};
use dp_console::{Document, FAULT, Item, Reply, Text};
use dp_engine::Nothing;
use dp_load::{How, NodeName, Pipeline, SingleFiles, load, load_single};
use dp_model::Entry;
use dp_pipe::{MAX_RUN_TURNS, RunCause, Traced};
use dp_request::{About, Request, number_in, port_in, read_about, read_nodes};
use dp_runs::{Printed, TracedRun, problem_of, say_stop, trace_records};
use dp_sources::{Lent, ONE_REGION, Sources, Subject, one_env};
use dp_verdict::{no_node, unloaded};
use std::alloc::{AllocError, Global};
use std::io::Write;
use std::rt::Files;

/// What is reported if standard output cannot be written.
pub const UNWRITTEN: &str = "fault: standard output cannot be written";

/// Parses a word as a number of records, from 1 to [`MAX_RUN_TURNS`].
pub fn records_in(word: &str) -> Option<u32>
    ensures number { result ≡ spec.records_in word.now }
    ensures range { IfSome result (λ records. (1 ≤ records) × (records ≤ MAX_RUN_TURNS)) }
{
    match number_in(word) {
        Some(number @ 1..=MAX_RUN_TURNS) => Some(number as u32),
        _ => None,
    }
}

/// The options that select which of the traced records are printed.
const PICKS: [&str; 3] = ["instr", "match", "only"];

/// Whether the words select which of the traced records are printed.
fn is_picked<R>(request: &Request<'_, '_, R>) -> bool {
    for name in PICKS {
        if request.words.get_str(name).is_some() {
            return true;
        }
    }
    false
}

/// Which records the words select to be traced. If they select some to be printed, all are traced, and else 10.
fn asked_in<R>(request: &Request<'_, '_, R>) -> Result<Traced, Reply>
    ensures { IfOk result (λ asked. asked.records ≤ MAX_RUN_TURNS) }
{
    let records = records_in(request.word("records"));
    let port = port_in(request.word("port"));
    if records.is_none()
        && let Some(word) = request.words.get_str("records")
    {
        return Err(request.wrong(format_args!(
            "error: '{word}' is not a number of records: from 1 to 134217728"
        )));
    }
    if port.is_none()
        && let Some(word) = request.words.get_str("port")
    {
        return Err(request.wrong(format_args!(
            "error: '{word}' is not a port: a number from 0 to 7"
        )));
    }
    let usual = if is_picked(request) {
        MAX_RUN_TURNS as u32
    } else {
        10
    };
    let records = records.unwrap_or(usual);
    Ok(Traced { records, port })
}

/// Prints a document at once, or returns the reply if it cannot be printed.
fn print<R, O: Write>(
    request: &Request<'_, '_, R>,
    document: Document,
    out: &mut O,
) -> Result<(), Reply> {
    let mut text = Text::new(request.alloc);
    document.say_to(&mut text);
    if text.has_failed {
        return Err(request.without_memory());
    }
    match out.write_all(text.bytes.as_slice()) {
        Ok(()) => Ok(()),
        Err(_) => Err(unprinted(request.alloc)),
    }
}

/// The words on what is printed, as a document.
fn words_of<R>(request: &Request<'_, '_, R>) -> Document {
    let mut to = Document::new(request.alloc);
    to.begin_object("");
    to.item("view", Item::Text("trace"));
    for name in PICKS {
        let given = match request.words.get_str(name) {
            Some(word) => Item::Text(word),
            None => Item::Null,
        };
        to.item(name, given);
    }
    to.item("to_json", Item::Bool(request.flag("json")));
    to.end_object();
    to
}

/// The programs of a pipeline as in their sources, as a document.
fn programs_of<R>(
    request: &Request<'_, '_, R>,
    pipeline: &Pipeline,
    subject: Subject<'_>,
    sources: &Sources,
) -> Document {
    let mut to = Document::new(request.alloc);
    to.begin_object("");
    to.item("view", Item::Text("programs"));
    to.begin_list("programs");
    for k in 0..pipeline.nodes() {
        let program = program_of(request, pipeline.node(k).entry(), subject, sources);
        let text = str::from_utf8(program.text).unwrap_or("");
        to.begin_object("");
        to.shown("node", NodeName(program.node));
        to.item("text", Item::Text(text));
        to.end_object();
    }
    to.end_list();
    to.end_object();
    to
}

/// The reply to a traced run: its last document, and the lines of a fault or the place of a note; or what failed where it was printed.
fn said_of<R>(
    request: &Request<'_, '_, R>,
    run: TracedRun,
    problem: Option<CaptureProblem<'_>>,
) -> Result<Reply, Reply> {
    match (run.printed, run.answer) {
        (Printed::Failed, _) => return Err(unprinted(request.alloc)),
        (Printed::NoMemory, _) | (_, Err(RunCause::Memory)) => {
            return Err(request.without_memory());
        }
        _ => {}
    }
    let mut reply = Reply::new(request.alloc);
    reply.is_json = request.flag("json");
    match run.answer {
        Ok(()) => {
            reply.out.say("{\"view\":\"traced\",\"fault\":null}\n");
            reply.err.say("{\"view\":\"selection\"}\n");
        }
        Err(cause) => {
            reply.status = FAULT;
            say_stop(request.alloc, cause, problem, &mut reply.err);
            let line = reply.err.words().lines().next().unwrap_or("");
            let mut last = Document::new(request.alloc);
            last.begin_object("");
            last.item("view", Item::Text("traced"));
            let status = Item::Number(u64::from(FAULT));
            last.object("fault", &[("status", status), ("text", Item::Text(line))]);
            last.end_object();
            last.say_to(&mut reply.out);
        }
    }
    Ok(reply)
}

/// The captures that a trace reads: those of the pipeline, or the one for `dpv trace-one`.
fn names_in<R>(
    request: &Request<'_, '_, R>,
    pipeline: &Pipeline,
) -> Result<Vec<CaptureNames>, AllocError>
    ensures { IfOk result (λ names. length names.items ≡ length pipeline.now.env.ports) }
{
    let given = match request.words.get_str("IN") {
        Some(input) => Replacements::of_one(request.alloc, input, "")?,
        None => Replacements::none(request.alloc),
    };
    names_of(request.alloc, pipeline, &given)
}

/// The reply to a trace that could not be printed.
fn unprinted(alloc: Global) -> Reply {
    let mut reply = Reply::new(alloc);
    reply.status = FAULT;
    reply.err.say(format_args!("{UNWRITTEN}\n"));
    reply
}

/// Traces a pipeline over the captures that it reads; it opens none that it writes.
fn trace_pipeline<R: Files, O: Write>(
    request: &Request<'_, '_, R>,
    pipeline: Pipeline,
    pattern: Vec<u64>,
    which: Traced,
    out: &mut O,
) -> Result<Reply, Reply>
    requires pattern { IsAscending 0 pattern.items }
    requires limit { which.records ≤ MAX_RUN_TURNS }
{
    let (rt, alloc) = (request.rt, request.alloc);
    let is_long = request.words.get_str("match").is_some();
    let Ok(names) = names_in(request, &pipeline) else {
        return Err(request.without_memory());
    };
    let (names, mut inputs) = (names.as_slice(), Vec::new(alloc));
    if let Err(fault) = open_inputs(rt, alloc, request.streams, names, false, &mut inputs) {
        return Err(unopened(request, fault));
    }
    let ins = inputs.as_mut_slice();
    let run = trace_records::<Nothing, _, _>(alloc, pipeline, ins, pattern, which, is_long, out);
    let problem = match run.answer {
        Ok(()) => None,
        Err(cause) => problem_of(names, ins, cause, None),
    };
    said_of(request, run, problem)
}

/// Loads what a trace is about, or returns the reply if it is not loaded.
fn load_about<R>(
    request: &Request<'_, '_, R>,
    about: &About<'_>,
    sources: &Sources,
) -> Result<Pipeline, Reply> {
    let alloc = request.alloc;
    let loaded = match about {
        About::File(file) => load(alloc, file.text(), &mut Lent(sources), How::Given),
        About::Single(_, program, cert) => {
            let files = SingleFiles {
                program,
                cert: *cert,
                input: request.word("IN"),
                output: "",
            };
            load_single(alloc, one_env(), ONE_REGION, files, &mut Lent(sources))
        }
    };
    match loaded {
        Ok(pipeline) => Ok(pipeline),
        Err(error) => {
            let (subject, is_json) = (about.subject(), request.flag("json"));
            Err(unloaded(alloc, error, subject, sources, is_json))
        }
    }
}

/// Traces what was read: prints its programs at once, and then its records as they end.
fn trace_read<R: Files, O: Write>(
    request: &Request<'_, '_, R>,
    about: &About<'_>,
    sources: &Sources,
    pattern: Vec<u64>,
    which: Traced,
    out: &mut O,
) -> Result<Reply, Reply>
    requires pattern { IsAscending 0 pattern.items }
    requires limit { which.records ≤ MAX_RUN_TURNS }
{
    let pipeline = load_about(request, about, sources)?;
    if let Some(port) = which.port
        && usize::from(port) >= pipeline.ports()
    {
        return Err(no_node(request.alloc, Entry::Port(port)));
    }
    let programs = programs_of(request, &pipeline, about.subject(), sources);
    print(request, programs, out)?;
    trace_pipeline(request, pipeline, pattern, which, out)
}

/// `dpv trace FILE` and `dpv trace-one NODE CERT IN`: prints the words at once, the programs when they are loaded, and the records as they end; the
/// reply has the rest.
pub fn traced<R: Files, O: Write>(
    request: &Request<'_, '_, R>,
    out: &mut O,
) -> Result<Reply, Reply> {
    let which = asked_in(request)?;
    print(request, words_of(request), out)?;
    let pattern = refused_in(request)?;
    let about = read_about(request)?;
    let sources = read_nodes(request, about.subject(), None, How::Given)?;
    trace_read(request, &about, &sources, pattern, which, out)
}
