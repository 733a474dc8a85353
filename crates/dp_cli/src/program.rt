//! The program `dpv`: finds the command, runs it, and returns the exit status.

ghost use Rattle.std.specs.Prelude.{◌≡◌, ◌⊎◌, codes, map, string_bytes};
ghost use Rattle.clap.specs.Matches.{found_of};
ghost use Rattle.clap.specs.Words.{app_of, kind_of, subcommand_rows_of};
ghost use Rattle.dp_console.specs.Replies.{EndsWith};
ghost use Rattle.dp_cli.specs.Commands as spec;
ghost use Rattle.dp_cli.specs.Commands.{Answers, EndsCommand, EndsEntered, EndsGiven, EndsHelped};

use crate::judging::{checked, explained, inferred, inferred_one, shown};
use crate::running::{run_file, run_filter, run_one};
use crate::tracing::{UNWRITTEN, traced};
use clap::error::ErrorKind;
use clap::{ArgMatches, Command};
use dp_captures::Streams;
use dp_console::{Console, DONE, FAULT, Reply, USAGE};
use dp_engine::{CompiledPrograms, Nothing};
use dp_request::{Request, command, read_file};
use dp_script::mem_reply;
use dp_sources::Fault;
use dp_verdict::failed;
use std::alloc::{AllocError, Global};
use std::fs;
use std::io::{self, Write};
use std::rt::{Env, Files};

/// Prints a reply, and returns the exit status, as [`Console::end`] does. If standard output cannot be written, standard error says so.
#[tactic(auto, using(crate::proofs::Endings::still))]
fn end<O: Write, E: Write>(console: &mut Console<O, E>, reply: &Reply) -> u8
    ensures { EndsWith reply.now console.old.has_failed console.new.has_failed (O.contents console.old.out) (O.contents console.new.out)
        (E.contents console.old.err) (E.contents console.new.err) result }
{
    let status = console.end(reply);
    if console.has_failed {
        let _reported = console.report_line(UNWRITTEN);
    }
    status
}

/// Reports an error of the command line, or prints the requested help, and returns the status.
#[tactic(auto, using(crate::proofs::Endings::without_memory))]
fn wrong_words<R: Print + Eprint, O: Write, E: Write>(
    rt: &R,
    alloc: Global,
    error: &clap::Error,
    console: &mut Console<O, E>,
) -> u8
    ensures { EndsHelped (kind_of error.now) result ⊎ (result ≡ FAULT) }
{
    if error.kind() == ErrorKind::OutOfMemory {
        return end(console, &failed(alloc, Fault::Memory, false));
    }
    match error.print(rt) {
        Ok(()) if error.exit_code() == 0 => DONE,
        Ok(()) => USAGE,
        Err(_) => {
            let _reported = console.report_line(UNWRITTEN);
            FAULT
        }
    }
}

/// What a command replied that explains or shows programs, or runs a heap script.
fn explained_or_shown<R: Files>(request: &Request<'_, '_, R>) -> Result<Reply, Reply> {
    match request.name {
        "explain" | "explain-one" => explained(request),
        "show" | "show-one" => shown(request),
        "mem" => {
            let script = read_file(request, request.word("FILE"))?;
            let (file, text) = (script.name.as_str(), script.bytes.as_slice());
            Ok(mem_reply(request.alloc, file, text))
        }
        _ => Err(request.wrong("error: there is no such command")),
    }
}

/// What a command other than a trace replied.
fn replied<K: CompiledPrograms, R: Files>(request: &Request<'_, '_, R>) -> Result<Reply, Reply>
    ensures { Answers R.File.remaining request.now.name.now (found_of request.now.words.now) result }
{
    match request.name {
        "run" => run_file::<K, R>(request),
        "one" => run_one(request),
        "filter" => run_filter(request),
        "check" => checked(request),
        "infer" => inferred(request),
        "infer-one" => inferred_one(request),
        _ => explained_or_shown(request),
    }
}

/// A reply, whether the command was done or not.
fn said(replied: Result<Reply, Reply>) -> Reply
    ensures { result ≡ spec.reply_of replied }
{
    match replied {
        Ok(reply) | Err(reply) => reply,
    }
}

/// Runs a command, prints its reply, and returns the status. A trace prints its records as they end.
fn run_command<K: CompiledPrograms, R: Files, O: Write, E: Write>(
    request: &Request<'_, '_, R>,
    console: &mut Console<O, E>,
) -> u8
    ensures { (request.now.name.now ≡ codes "trace" → ⊥) → (request.now.name.now ≡ codes "trace-one" → ⊥) → EndsCommand R.File.remaining
        request.now.name.now (found_of request.now.words.now) console.old.has_failed console.new.has_failed (O.contents console.old.out)
        (O.contents console.new.out) (E.contents console.old.err) (E.contents console.new.err) result }
{
    match request.name {
        "trace" | "trace-one" => {
            let reply = said(traced(request, &mut console.out));
            end(console, &reply)
        }
        _ => {
            let reply = said(replied::<K, R>(request));
            end(console, &reply)
        }
    }
}

/// Runs the command that was found in the words of the command line, and returns the status.
fn run_matches<K: CompiledPrograms, R: AllocGlobal + Files, O: Write, E: Write>(
    rt: &R,
    matches: &ArgMatches<'_>,
    streams: Streams,
    reports_interpreted: bool,
    console: &mut Console<O, E>,
) -> u8
    ensures { EndsEntered R.File.remaining (subcommand_rows_of matches.now) console.old.has_failed console.new.has_failed (O.contents console.old.out)
        (O.contents console.new.out) (E.contents console.old.err) (E.contents console.new.err) result }
{
    let Some((name, words)) = matches.subcommand() else {
        let _reported = console.report_line("error: there is no command");
        return USAGE;
    };
    let request = Request {
        rt,
        alloc: rt.alloc(),
        streams,
        reports_interpreted,
        name,
        words,
    };
    run_command::<K, R, O, E>(&request, console)
}

/// Runs the command that these words name among those of `dpv`, and returns the status. The first word is the name of the program.
fn run_given<'w, K: CompiledPrograms, R: AllocGlobal + Files + Print + Eprint, O: Write, E: Write>(
    rt: &R,
    dpv: Command<'w>,
    words: &'w [String],
    streams: Streams,
    reports_interpreted: bool,
    console: &mut Console<O, E>,
) -> u8
    ensures { EndsGiven R.File.remaining (app_of dpv.entry) (map string_bytes words.now) console.old.has_failed console.new.has_failed
        (O.contents console.old.out) (O.contents console.new.out) (E.contents console.old.err) (E.contents console.new.err) result }
{
    match dpv.try_get_matches_from(words) {
        Ok(matches) => run_matches::<K, R, O, E>(
            rt,
            &matches,
            streams,
            reports_interpreted,
            console,
        ),
        Err(error) => wrong_words(rt, rt.alloc(), &error, console),
    }
}

/// The commands of `dpv`. Usage texts use this name, whatever the program's file is called.
fn commands<'w>(alloc: Global) -> Result<Command<'w>, AllocError> {
    command(alloc)?.bin_name("dpv")
}

/// The words of the command line, if all are UTF-8.
fn words_in<R: Env + AllocGlobal>(rt: &R) -> Result<Option<Vec<String>>, AllocError> {
    match std::env::args(rt) {
        Ok(given) => Ok(Some(given.collect(rt.alloc())?)),
        Err(error) if error.kind() == io::ErrorKind::OutOfMemory => Err(AllocError),
        Err(_) => Ok(None),
    }
}

/// The reply to words that are not UTF-8.
fn unreadable(alloc: Global) -> Reply {
    let mut reply = Reply::new(alloc);
    reply.status = USAGE;
    reply.err.say("error: an argument is not UTF-8\n");
    reply
}

/// Runs the command that the words of the command line name, and returns the status.
fn run_words<
    K: CompiledPrograms,
    R: Env + AllocGlobal + Files + Print + Eprint,
    O: Write,
    E: Write,
>(rt: &R, streams: Streams, reports_interpreted: bool, console: &mut Console<O, E>) -> u8 {
    let given = match words_in(rt) {
        Ok(Some(words)) => words,
        Ok(None) => return end(console, &unreadable(rt.alloc())),
        Err(AllocError) => return end(console, &failed(rt.alloc(), Fault::Memory, false)),
    };
    match commands(rt.alloc()) {
        Ok(dpv) => {
            let words = given.as_slice();
            run_given::<K, R, O, E>(rt, dpv, words, streams, reports_interpreted, console)
        }
        Err(AllocError) => end(console, &failed(rt.alloc(), Fault::Memory, false)),
    }
}

/// Opens the null device for reading once for each standard stream, if there is one: a write to it fails. An opened file gets the lowest free number,
/// so these files take the numbers of closed streams, and no capture receives what is printed or reported while they are held.
fn fill_streams<R: Files>(rt: &R, held: &mut Vec<R::File>) -> Result<(), AllocError> {
    for _ in 0..3 {
        match fs::open(rt, "/dev/null") {
            Ok(file) => held.push(file)?,
            Err(error) if error.kind() == io::ErrorKind::OutOfMemory => return Err(AllocError),
            Err(_) => {}
        }
    }
    Ok(())
}

/// Runs the command of the host's command line over the host's files, with these programs compiled, and returns the status.
fn run_with<K: CompiledPrograms, R: Env + AllocGlobal + Files + Print + Eprint>(
    rt: &R,
    streams: Streams,
    reports_interpreted: bool,
) -> u8 {
    let mut console = Console::new(io::writer(rt), io::writer(&streams.error));
    let mut held = Vec::new(rt.alloc());
    match fill_streams(rt, &mut held) {
        Ok(()) => run_words::<K, R, _, _>(rt, streams, reports_interpreted, &mut console),
        Err(AllocError) => end(&mut console, &failed(rt.alloc(), Fault::Memory, false)),
    }
}

/// Runs the command of the host's command line over the host's files, and returns the status.
pub fn run_command_line<R: Env + AllocGlobal + Files + Print + Eprint>(
    rt: &R,
    streams: Streams,
) -> u8 {
    run_with::<Nothing, R>(rt, streams, false)
}

/// Runs the command of the host's command line, as [`run_command_line`] does, and returns the status. Programs among `K` run as machine code; for a
/// run, each program that is not among them is reported.
pub fn run_compiled<K: CompiledPrograms, R: Env + AllocGlobal + Files + Print + Eprint>(
    rt: &R,
    streams: Streams,
) -> u8 {
    run_with::<K, R>(rt, streams, true)
}
