//! `dpv run`, `dpv one` and `dpv filter` over the host's files.

ghost use Rattle.std.specs.Prelude.{◌≡◌, ◌⊎◌, IfErr, IfOk, None, Some, length, map};
ghost use Rattle.clap.specs.Matches.{first_value, found_of};
ghost use Rattle.dp_captures.specs.Words.{row_of, rows_of};
ghost use Rattle.dp_engine.specs.Engines.{IsAscending};
ghost use Rattle.dp_cli.specs.Commands.{EndsFilter, EndsLoaded, EndsOne, EndsRun, EndsSingle};
ghost use Rattle.dp_cli.specs.Runs.{AreGiven, EndsOver, IsFilterPort, SaysRun, status_unopened};
ghost use Rattle.dp_cli.specs.Stops.{HasWrongNumber, IsAside, StopsAtWords};
ghost use Rattle.dp_load.specs.Singles.{HasOnePort};
ghost use Rattle.dp_region.specs.Region.{IsRegionSize};
ghost use Rattle.dp_request.specs.Operands.{calls_in, option_within, words_of};

use dp_captures::{
    BUFFER, CaptureFault, CaptureNames, Direction, InputOf, OutputOf, ReadFile, Replaced,
    Replacements, UNBUFFERED, WordProblem, captures_of, names_of, note_read, open_captures,
    remove_empty_outputs,
};
use dp_console::{Reply, Text};
use dp_counts::{Counting, ProgramText, Wanted};
use dp_engine::{CompiledPrograms, Nothing, need};
use dp_load::{How, NodeName, Pipeline, SingleFiles, load_single};
use dp_model::{Entry, Env, MAX_ROOM, MAX_SEGMENTS, MIN_PORT_ROOM, PoolSpec, PortSpec};
use dp_region::{CACHE_LINE, MAX_REGION, MIN_REGION};
use dp_request::{Given, Loaded, Request, load_pipeline, number_in, numbers_in, read_nodes};
use dp_runs::{Notes, Printing, Watcher, both, problem_of_run, reply_of, run_over, say_problem};
use dp_sources::{Fault, Lent, ONE_REGION, Sources, Subject, one_env};
use dp_verdict::{failed, no_node, unloaded};
use std::alloc::{AllocError, Global};
use std::io::Read;
use std::rt::Files;

/// Reads which allocation calls the command line refuses.
pub fn refused_in<R>(request: &Request<'_, '_, R>) -> Result<Vec<u64>, Reply>
    ensures calls { IfOk result (λ pattern. Some pattern.items ≡ calls_in (found_of request.now.words.now)) }
    ensures ascending { IfOk result (λ pattern. IsAscending 0 pattern.items) }
    ensures wrong { IfErr result (λ reply. ((reply.status ≡ 2) × (calls_in (found_of request.now.words.now) ≡ None)) ⊎ (reply.status ≡ 4)) }
{
    let Some(list) = request.words.get_str("refuse") else {
        return Ok(Vec::new(request.alloc));
    };
    match numbers_in(request.alloc, list) {
        Ok(Some(pattern)) => Ok(pattern),
        Ok(None) => Err(request.wrong(format_args!(
            "error: '{list}' is not a list: numbers from 1 on, each above the one before it, joined by commas"
        ))),
        Err(_) => Err(request.without_memory()),
    }
}

/// The captures that words of these two options give, or the reply to words that give none, or that clash.
fn captures_by<'w, R>(
    request: &Request<'_, 'w, R>,
    direction: Direction,
    named: &str,
    nowhere: &str,
) -> Result<Vec<Replaced<'w>>, Reply>
    ensures given { IfOk result (λ given. Some (map row_of given.items) ≡ rows_of (words_of (found_of request.now.words.now) named.now)
        (words_of (found_of request.now.words.now) nowhere.now)) }
    ensures wrong { IfErr result (λ reply. ((reply.status ≡ 2) × (rows_of (words_of (found_of request.now.words.now) named.now)
        (words_of (found_of request.now.words.now) nowhere.now) ≡ None)) ⊎ (reply.status ≡ 4)) }
{
    let Ok(named) = request.all(named) else {
        return Err(request.without_memory());
    };
    let Ok(nowhere) = request.all(nowhere) else {
        return Err(request.without_memory());
    };
    match captures_of(
        request.alloc,
        direction,
        named.as_slice(),
        nowhere.as_slice(),
    ) {
        Ok(given) => Ok(given),
        Err(problem) => match problem {
            WordProblem::Memory => Err(request.without_memory()),
            _ => Err(request.wrong(problem)),
        },
    }
}

/// The captures that the words give.
fn captures_in<'w, R>(request: &Request<'_, 'w, R>) -> Result<Replacements<'w>, Reply>
    ensures given { IfOk result (λ given. AreGiven (found_of request.now.words.now) given.inputs.items given.outputs.items) }
    ensures wrong { IfErr result (StopsAtWords (found_of request.now.words.now)) }
{
    let inputs = captures_by(request, Direction::In, "in", "no-in")?;
    let outputs = captures_by(request, Direction::Out, "out", "no-out")?;
    Ok(Replacements { inputs, outputs })
}

/// What is said: if a capture goes to standard output, nothing else does, and standard error has all of it.
fn aside(alloc: Global, reply: Reply, is_stdout_taken: bool) -> Reply
    ensures { IsAside is_stdout_taken reply result }
{
    if !is_stdout_taken {
        return reply;
    }
    let Reply {
        status,
        out,
        err,
        ..
    } = reply;
    Reply {
        status,
        out: Text::new(alloc),
        err: both(out, &err),
        is_json: false,
    }
}

/// The reply to captures that are not opened.
pub fn unopened<R>(request: &Request<'_, '_, R>, fault: CaptureFault<'_>) -> Reply
    ensures { result.status ≡ status_unopened fault.entry }
{
    let alloc = request.alloc;
    let CaptureFault::File { name, problem } = fault else {
        return request.without_memory();
    };
    let mut reply = failed(alloc, Fault::File(name), request.flag("json"));
    let unopened = Some((name, request.word("FILE")));
    say_problem(alloc, problem, unopened, &mut reply.err);
    reply
}

/// The text of a node's program. It is called by `--name`, if that is given, and else as its file.
pub fn program_of<'a, 'w: 'a, R>(
    request: &Request<'_, 'w, R>,
    node: Entry,
    subject: Subject<'a>,
    sources: &'a Sources,
) -> ProgramText<'a> {
    let file = match subject.node(node) {
        Some(asked) => asked.program,
        None => "",
    };
    let name = request.words.get_str("name").unwrap_or(file);
    let text = sources.get(file).unwrap_or(&[]);
    ProgramText { node, name, text }
}

/// The files that a run reads besides its captures: those of the programs, and its own.
fn reads_of<R: Files>(
    request: &Request<'_, '_, R>,
    sources: &Sources,
    file: Option<&Given>,
) -> Result<Vec<ReadFile>, AllocError> {
    let (rt, alloc) = (request.rt, request.alloc);
    let mut reads = Vec::new(alloc);
    for source in &sources.files {
        note_read(rt, alloc, &mut reads, source.name.as_str())?;
    }
    if let Some(file) = file {
        note_read(rt, alloc, &mut reads, file.source.name.as_str())?;
        for routes in &file.routes {
            note_read(rt, alloc, &mut reads, routes.source.name.as_str())?;
        }
    }
    Ok(reads)
}

/// Which counts the words ask for.
fn wanted_in<R>(request: &Request<'_, '_, R>) -> Wanted {
    let (counts, lines) = (request.flag("counts"), request.flag("source"));
    Wanted {
        counts: counts && !lines,
        lines,
        drops: request.flag("drops"),
    }
}

/// What watches a run: its counts if they are asked for, and else what is refused.
fn watcher_of<'a, 'w: 'a, R>(
    request: &Request<'_, 'w, R>,
    pipeline: &Pipeline,
    subject: Subject<'a>,
    sources: &'a Sources,
) -> Result<Watcher<'a>, AllocError> {
    let wanted = wanted_in(request);
    if !wanted.counts && !wanted.lines && !wanted.drops {
        return Watcher::of_losses(request.alloc, pipeline);
    }
    let mut programs = Vec::new(request.alloc);
    for k in 0..pipeline.nodes() {
        let node = pipeline.node(k).entry();
        programs.push(program_of(request, node, subject, sources))?;
    }
    Ok(Watcher::Counting(Counting::of(request.alloc, pipeline, programs.as_slice())?))
}

/// How many records of each input were cut by its snap length.
fn truncated_in<F: Read + Drop>(inputs: &[InputOf<F>]) -> [u64; 8] {
    let mut truncated = [0; 8];
    for (number, input) in truncated.iter_mut().zip(inputs) {
        *number = input.truncated();
    }
    truncated
}

/// Runs a pipeline over its open captures, and says what it did.
fn run_opened<K: CompiledPrograms, R: Files>(
    request: &Request<'_, '_, R>,
    pipeline: Pipeline,
    names: &[CaptureNames],
    inputs: &mut [InputOf<R::File>],
    outputs: &mut [OutputOf<R::File>],
    pattern: Vec<u64>,
    watcher: &mut Watcher<'_>,
    is_stdout_taken: bool,
) -> Reply
    requires inputs { length inputs.old ≡ length pipeline.env.ports }
    requires outputs { length outputs.old ≡ length pipeline.env.ports }
    requires pattern { IsAscending 0 pattern.items }
    ensures { SaysRun R.File.remaining (found_of request.now.words.now) pipeline pattern.items is_stdout_taken inputs.old inputs.new outputs.old outputs.new
        result }
{
    let (env, region) = (pipeline.env().copy(), u64::from(pipeline.region()));
    let ran = run_over::<K, _, _>(request.alloc, pipeline, inputs, outputs, pattern, watcher);
    let notes = Notes {
        is_in_file: request.name == "run",
        is_in_options: request.name == "filter",
        region,
        needed: need(&env),
        truncated: truncated_in(inputs),
    };
    let problem = problem_of_run(names, inputs, &ran);
    remove_empty_outputs(request.rt, request.alloc, names, outputs);
    let (counting, is_json) = (watcher.counting(), request.flag("json"));
    let printing = Printing {
        env: &env,
        counting,
        wanted: wanted_in(request),
        totals: request.flag("progress"),
        is_json,
        is_stdout_taken,
        problem,
        notes: Some(notes),
    };
    reply_of(request.alloc, &ran, &printing)
}

/// Opens the captures of a pipeline, and runs it over them. `file` is the pipeline's own, if it has one.
fn run_ready<K: CompiledPrograms, R: Files>(
    request: &Request<'_, '_, R>,
    pipeline: Pipeline,
    subject: Subject<'_>,
    sources: &Sources,
    file: Option<&Given>,
    given: &Replacements<'_>,
    pattern: Vec<u64>,
) -> Result<Reply, Reply>
    requires pattern { IsAscending 0 pattern.items }
    ensures { EndsOver R.File.remaining (found_of request.now.words.now) pipeline pattern.items given.now.inputs.items given.now.outputs.items result }
{
    let (rt, alloc) = (request.rt, request.alloc);
    let (is_progress, is_unbuffered) = (request.flag("progress"), request.flag("unbuffered"));
    let buffer = if is_unbuffered { UNBUFFERED } else { BUFFER };
    let Ok(names) = names_of(alloc, &pipeline, given) else {
        return Err(request.without_memory());
    };
    let Ok(reads) = reads_of(request, sources, file) else {
        return Err(request.without_memory());
    };
    let Ok(mut watcher) = watcher_of(request, &pipeline, subject, sources) else {
        return Err(request.without_memory());
    };
    let (mut inputs, mut outputs) = (Vec::new(alloc), Vec::new(alloc));
    let opened = open_captures(
        rt,
        alloc,
        request.streams,
        reads.as_slice(),
        names.as_slice(),
        is_progress,
        buffer,
        &mut inputs,
        &mut outputs,
    );
    if let Err(fault) = opened {
        remove_empty_outputs(rt, alloc, names.as_slice(), outputs.as_slice());
        return Err(aside(alloc, unopened(request, fault), given.take_stdout()));
    }
    Ok(run_opened::<K, R>(
        request,
        pipeline,
        names.as_slice(),
        inputs.as_mut_slice(),
        outputs.as_mut_slice(),
        pattern,
        &mut watcher,
        given.take_stdout(),
    ))
}

/// Notes on the programs of a pipeline that are not among `K`, and so are interpreted.
fn notes_of<K: CompiledPrograms>(alloc: Global, pipeline: &Pipeline) -> Text {
    let mut notes = Text::new(alloc);
    for k in 0..pipeline.nodes() {
        let node = pipeline.node(k);
        if K::number_of(node.program().instrs(), 0).is_none() {
            let name = NodeName(node.entry());
            notes.say(format_args!("note: {name} is not compiled: its program is interpreted\n"));
        }
    }
    notes
}

/// The reply with notes before what it says on standard error.
fn after(notes: Text, reply: Reply) -> Reply
    ensures { (result.status ≡ reply.status) × (result.out ≡ reply.out) }
{
    let mut err = notes;
    let _whole = err.add(reply.err.bytes.as_slice());
    err.has_failed |= reply.err.has_failed;
    Reply { err, ..reply }
}

/// Runs a pipeline that is loaded over its captures, if it has all ports that captures are given to. Programs that are interpreted may be reported.
fn run_loaded<K: CompiledPrograms, R: Files>(
    request: &Request<'_, '_, R>,
    loaded: Loaded,
    given: &Replacements<'_>,
    pattern: Vec<u64>,
) -> Result<Reply, Reply>
    requires pattern { IsAscending 0 pattern.items }
    ensures { EndsLoaded R.File.remaining (found_of request.now.words.now) loaded.pipeline pattern.items given.now.inputs.items
        given.now.outputs.items result }
{
    let Loaded {
        file,
        sources,
        pipeline,
    } = loaded;
    if let Some(port) = given.missing(pipeline.ports()) {
        return Err(no_node(request.alloc, Entry::Port(port)));
    }
    let notes = if request.reports_interpreted {
        notes_of::<K>(request.alloc, &pipeline)
    } else {
        Text::new(request.alloc)
    };
    let subject = file.subject();
    match run_ready::<K, R>(
        request,
        pipeline,
        subject,
        &sources,
        Some(&file),
        given,
        pattern,
    ) {
        Ok(reply) => Ok(after(notes, reply)),
        Err(reply) => Err(after(notes, reply)),
    }
}

/// `dpv run FILE`.
pub fn run_file<K: CompiledPrograms, R: Files>(request: &Request<'_, '_, R>) -> Result<Reply, Reply>
    ensures { EndsRun R.File.remaining (found_of request.now.words.now) result }
{
    let pattern = refused_in(request)?;
    let given = captures_in(request)?;
    match load_pipeline(request, How::Given) {
        Ok(loaded) => run_loaded::<K, R>(request, loaded, &given, pattern),
        Err(reply) => Err(aside(request.alloc, reply, given.take_stdout())),
    }
}

/// Runs a program on one port of an environment.
fn run_single<R: Files>(
    request: &Request<'_, '_, R>,
    env: &Env,
    region: u32,
    files: SingleFiles<'_>,
) -> Result<Reply, Reply>
    requires port { HasOnePort env.now }
    requires region { IsRegionSize region }
    ensures { EndsSingle R.File.remaining (found_of request.now.words.now) env.now region files.entry result }
{
    let alloc = request.alloc;
    let SingleFiles { program, cert, .. } = files;
    let Ok(given) = Replacements::of_one(alloc, files.input, files.output) else {
        return Err(request.without_memory());
    };
    let subject = Subject::Single { env, program, cert };
    let sources = read_nodes(request, subject, None, How::Given)?;
    let pipeline = match load_single(alloc, env.copy(), region, files, &mut Lent(&sources)) {
        Ok(pipeline) => pipeline,
        Err(error) => {
            let reply = unloaded(alloc, error, subject, &sources, request.flag("json"));
            return Err(aside(alloc, reply, given.take_stdout()));
        }
    };
    let pattern = Vec::new(alloc);
    run_ready::<Nothing, R>(request, pipeline, subject, &sources, None, &given, pattern)
}

/// `dpv one NODE CERT IN OUT`.
pub fn run_one<R: Files>(request: &Request<'_, '_, R>) -> Result<Reply, Reply>
    ensures { EndsOne R.File.remaining (found_of request.now.words.now) result }
{
    let files = SingleFiles {
        program: request.word("NODE"),
        cert: Some(request.word("CERT")),
        input: request.word("IN"),
        output: request.word("OUT"),
    };
    run_single(request, &one_env(), ONE_REGION, files)
}

/// The usual room of a buffer, in bytes.
const ROOM: u32 = 2_176;

/// The size of a region that is large enough for an environment, in bytes.
fn region_for(env: &Env) -> u32
    ensures { IsRegionSize result }
{
    let line = u64::from(CACHE_LINE);
    let least = u64::from(MIN_REGION) / line;
    let most = u64::from(MAX_REGION) / line;
    let lines = need(env).div_ceil(line).clamp(least, most);
    lines as u32 * CACHE_LINE
}

/// The number of an option, or its usual one; or the reply to a word that is no number in this range.
fn option_in<R>(
    request: &Request<'_, '_, R>,
    name: &str,
    usual: u32,
    least: u32,
    most: u32,
) -> Result<u32, Reply>
    ensures number { IfOk result (λ number. option_within (first_value (found_of request.now.words.now) name.now) usual least most ≡ Some number) }
    ensures wrong { IfErr result (λ reply. (reply.status ≡ 2)
        × (option_within (first_value (found_of request.now.words.now) name.now) usual least most ≡ None)) }
{
    let Some(word) = request.words.get_str(name) else {
        return Ok(usual);
    };
    match number_in(word) {
        Some(number) if number >= u64::from(least) && number <= u64::from(most) => {
            Ok(number as u32)
        }
        _ => Err(request.wrong(format_args!(
            "error: --{name} '{word}' is not a number from {least} to {most}"
        ))),
    }
}

/// The environment that the words of `dpv filter` give: that of `dpv one`, with buffers of `--room` bytes and packets of `--segs` segments.
fn filter_env<R>(request: &Request<'_, '_, R>) -> Result<Env, Reply>
    ensures one { IfOk result HasOnePort }
    ensures port { IfOk result (IsFilterPort (found_of request.now.words.now)) }
    ensures wrong { IfErr result (λ reply. (reply.status ≡ 2) × HasWrongNumber (found_of request.now.words.now)) }
{
    let room = option_in(request, "room", ROOM, MIN_PORT_ROOM, MAX_ROOM)?;
    let segs = option_in(request, "segs", 1, 1, u32::from(MAX_SEGMENTS))?;
    let (count, cache, queue) = (64, 0, 32);
    let pool = PoolSpec { count, cache, room };
    let port = PortSpec {
        pool: 0,
        segs,
        queue,
    };
    match Env::new(&[pool], 0, &[], &[port]) {
        Ok(env) => Ok(env),
        Err(_) => Err(request.wrong("error: no pipeline has such --room and --segs")),
    }
}

/// `dpv filter PROGRAM IN OUT`.
pub fn run_filter<R: Files>(request: &Request<'_, '_, R>) -> Result<Reply, Reply>
    ensures { EndsFilter R.File.remaining (found_of request.now.words.now) result }
{
    let env = filter_env(request)?;
    let files = SingleFiles {
        program: request.word("PROGRAM"),
        cert: None,
        input: request.word("IN"),
        output: request.word("OUT"),
    };
    run_single(request, &env, region_for(&env), files)
}
