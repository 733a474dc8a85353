//! The commands that judge programs: `check`, `infer`, `explain` and `show`, and those on one program.

ghost use Rattle.std.specs.Prelude.{◌≡◌};
ghost use Rattle.clap.specs.Matches.{found_of};
ghost use Rattle.dp_sources.specs.Subjects.{env_of};
ghost use Rattle.dp_cli.specs.Commands.{EndsCheck, EndsInfer, EndsInferOne};

use crate::showing::{counted_in, show};
use crate::sizes::say_sizes;
use dp_console::{DONE, Reply, Text};
use dp_load::{How, PipeError, Pipeline};
use dp_model::{Entry, Env};
use dp_request::{Request, load_pipeline, node_in, read_about, read_nodes, read_pipeline};
use dp_runs::both;
use dp_sources::{Asked, Subject, one_env};
use dp_verdict::{check_text, explain, infer, infer_one, say_costs};
use std::rt::Files;

/// Adds what the words ask for of a pipeline whose programs are accepted.
fn say_more<R>(
    request: &Request<'_, '_, R>,
    loaded: &Result<Pipeline, PipeError>,
    reply: &mut Reply,
)
    ensures { reply.new.status ≡ reply.old.status }
{
    let alloc = request.alloc;
    if let Ok(pipeline) = loaded
        && reply.status == DONE
    {
        if request.flag("cost") {
            say_costs(alloc, pipeline, &mut *reply);
        }
        if request.flag("sizes") {
            say_sizes(alloc, pipeline.env(), pipeline.region(), &mut reply.out);
        }
    }
}

/// `dpv check FILE`.
pub fn checked<R: Files>(request: &Request<'_, '_, R>) -> Result<Reply, Reply>
    ensures { EndsCheck (found_of request.now.words.now) result }
{
    let (is_json, with_sizes) = (request.flag("json"), request.flag("sizes"));
    if is_json & with_sizes {
        return Err(request.wrong(
            "error: --sizes is printed as text alone: leave out --json, or --sizes",
        ));
    }
    let given = read_pipeline(request)?;
    let subject = given.subject();
    let sources = read_nodes(request, subject, None, How::Given)?;
    let (mut reply, loaded) = check_text(request.alloc, given.text(), subject, &sources, is_json);
    say_more(request, &loaded, &mut reply);
    Ok(reply)
}

/// `dpv infer FILE WHICH`.
pub fn inferred<R: Files>(request: &Request<'_, '_, R>) -> Result<Reply, Reply>
    ensures { EndsInfer (found_of request.now.words.now) result }
{
    let node = node_in(request, request.word("WHICH"))?;
    let loaded = load_pipeline(request, How::Inferred)?;
    Ok(infer(request.alloc, &loaded.pipeline, node))
}

/// A program without a certificate, for the port of `dpv one`.
fn alone<'a>(env: &'a Env, program: &'a str) -> Subject<'a>
    ensures { env_of result ≡ env.now }
{
    let cert = None;
    Subject::Single { env, program, cert }
}

/// `dpv infer-one NODE`.
pub fn inferred_one<R: Files>(request: &Request<'_, '_, R>) -> Result<Reply, Reply>
    ensures { EndsInferOne (found_of request.now.words.now) result }
{
    let env = one_env();
    let program = request.word("NODE");
    let subject = alone(&env, program);
    let sources = read_nodes(request, subject, None, How::Inferred)?;
    let asked = Asked {
        node: Entry::Port(0),
        program,
        cert: None,
    };
    Ok(infer_one(request.alloc, subject, &sources, asked))
}

/// The node that WHICH names, if it is given.
fn which_in<R>(request: &Request<'_, '_, R>) -> Result<Option<Entry>, Reply> {
    match request.words.get_str("WHICH") {
        Some(word) => Ok(Some(node_in(request, word)?)),
        None => Ok(None),
    }
}

/// What `explain` or `show` says of a node's program, or of all of a pipeline.
fn reply_about<R: Files>(
    request: &Request<'_, '_, R>,
    which: Option<Entry>,
) -> Result<Reply, Reply> {
    let about = read_about(request)?;
    let subject = about.subject();
    let sources = read_nodes(request, subject, which, How::Given)?;
    match request.name {
        "explain" | "explain-one" => {
            let is_json = request.flag("json");
            Ok(explain(request.alloc, subject, &sources, which, is_json))
        }
        _ => Ok(show(request, subject, &sources, which)),
    }
}

/// `dpv explain FILE [WHICH]` and `dpv explain-one NODE [CERT]`.
pub fn explained<R: Files>(request: &Request<'_, '_, R>) -> Result<Reply, Reply> {
    let which = which_in(request)?;
    reply_about(request, which)
}

/// What is wrong with the words of `show`, if anything is.
fn show_problem(is_node: bool, is_counted: bool, is_dot: bool) -> Option<&'static str> {
    match (is_node, is_counted, is_dot) {
        (false, true, _) => Some(
            "error: --counts is for the picture of one program: WHICH is missing, such as port0",
        ),
        (false, false, false) => Some(
            "error: WHICH is missing, the node to be shown, such as port0; or --dot, for a picture of the whole pipeline",
        ),
        (true, true, false) => Some("error: --counts is for a picture: add --dot, or leave it out"),
        _ => None,
    }
}

/// `dpv show FILE [WHICH]` and `dpv show-one NODE [CERT]`.
pub fn shown<R: Files>(request: &Request<'_, '_, R>) -> Result<Reply, Reply> {
    let (counts, is_dot) = (request.words.get_str("counts"), request.flag("dot"));
    if request.flag("calls") && !is_dot {
        return Err(request.wrong("error: --calls is for a picture: add --dot, or leave it out"));
    }
    if request.words.get_str("NODE").is_some() {
        return reply_about(request, Some(Entry::Port(0)));
    }
    let (which, file) = (which_in(request)?, request.word("FILE"));
    if which.is_none() && file.ends_with(".dpv") {
        return Err(request.wrong(format_args!(
            "error: {file} is a program, and no pipeline file: dpv show-one {file} prints it"
        )));
    }
    if let Some(problem) = show_problem(which.is_some(), counts.is_some(), is_dot) {
        return Err(request.wrong(problem));
    }
    let (Some(node), Some(file)) = (which, counts) else {
        return reply_about(request, which);
    };
    let counted = counted_in(request, file, node)?;
    match reply_about(request, which) {
        Ok(reply) | Err(reply) => Ok(Reply {
            out: both(counted, &reply.out),
            ..reply
        }),
    }
}
