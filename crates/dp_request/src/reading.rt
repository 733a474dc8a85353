//! A command that runs: its words, its host, and the files that it reads before it decides: the pipeline file, the files of `--routes`, and those of
//! the nodes. What fails here fails with the reply that ends the command early.

ghost use Rattle.std.specs.Prelude.{◌≡◌, ◌⊎◌, [], IfErr, IfOk, None, Some, find, map, nat_le, option_map};
ghost use Rattle.clap.specs.Matches.{found_of};
ghost use Rattle.dp_request.specs.Operands.{IsFlag, operand, table_in, tables_from, word_of, words_of};
ghost use Rattle.dp_request.specs.Reading.{HasNoConfig, IsFault, IsLoaded, IsNotLoaded, IsNotReady, NamesNone};

use crate::operands::node_named;
use clap::ArgMatches;
use dp_captures::Streams;
use dp_console::{MEMORY, Reply, USAGE};
use dp_load::{How, Pipeline, Survey, load, survey_of};
use dp_model::{Entry, Env};
use dp_sources::{
    Fault, Lent, RouteFile, Source, Sources, Subject, joined, one_env, read, read_sources,
    say_strange, say_unread,
};
use dp_verdict::{failed, misread, unloaded};
use std::alloc::{AllocError, Global};
use std::fmt::Display;
use std::rt::Files;

/// A command, its words, and the host on which it runs.
#[derive(Drop)]
pub struct Request<'a, 'w, R> {
    /// The host.
    pub rt: &'a R,
    pub alloc: Global,
    /// The standard streams.
    pub streams: Streams,
    /// Whether a run reports the programs that are interpreted.
    pub reports_interpreted: bool,
    /// The name of the command.
    pub name: &'w str,
    /// The words after it.
    pub words: &'a ArgMatches<'w>,
}

impl<'a, 'w, R> Request<'a, 'w, R> {
    /// A required operand.
    pub fn word(&self, name: &str) -> &'w str
        ensures { result.now ≡ operand (found_of self.now.words.now) name.now }
    {
        self.words.get_str(name).unwrap_or_default()
    }

    /// All values of an option, as the command line has them.
    fn values(&self, name: &str) -> &'a [&'w str]
        ensures { map (λ word. word.now) result.now ≡ words_of (found_of self.now.words.now) name.now }
    {
        self.words.get_strs(name).unwrap_or_default()
    }

    /// All values of an option.
    pub fn all(&self, name: &str) -> Result<Vec<&'w str>, AllocError>
        ensures { IfOk result (λ all. map (λ word. word.now) all.items ≡ words_of (found_of self.now.words.now) name.now) }
    {
        Vec::from_slice(self.alloc, self.values(name))
    }

    /// Whether an option without a value is given.
    pub fn flag(&self, name: &str) -> bool
        ensures { IsFlag (found_of self.now.words.now) name.now result }
    {
        self.words.get_flag(name)
    }

    /// The reply if memory is refused.
    pub fn without_memory(&self) -> Reply
        ensures { result.status ≡ MEMORY }
    {
        failed(self.alloc, Fault::Memory, self.flag("json"))
    }

    /// The reply to wrong words.
    pub fn wrong<T: Display + Drop>(&self, words: T) -> Reply
        ensures { result.status ≡ USAGE }
    {
        let mut reply = Reply::new(self.alloc);
        reply.status = USAGE;
        reply.err.say(format_args!("{words}\n"));
        reply
    }

    /// What was made.
    pub fn made<T>(&self, made: Result<T, AllocError>) -> Result<T, Reply>
        ensures { IfErr result (λ reply. reply.status ≡ MEMORY) }
    {
        match made {
            Ok(value) => Ok(value),
            Err(AllocError) => Err(self.without_memory()),
        }
    }
}

/// Reads a file.
#[tactic(auto, using(crate::proofs::Stops::fault_status))]
pub fn read_file<R: Files>(request: &Request<'_, '_, R>, name: &str) -> Result<Source, Reply>
    ensures { IfErr result IsFault }
{
    let source = request.made(read(request.rt, request.alloc, name))?;
    let Some(file) = source.unread() else {
        return Ok(source);
    };
    let mut reply = failed(request.alloc, Fault::File(file.name), request.flag("json"));
    say_unread(request.alloc, file, &mut reply.err);
    Err(reply)
}

/// A word TABLE=FILE.
#[derive(Clone, Copy)]
struct RoutesNamed<'w> {
    table: usize,
    file: &'w str,
}

/// Parses a word TABLE=FILE: a digit from 0 to 3, and a name.
fn named_in(word: &str) -> Option<RoutesNamed<'_>>
    ensures { option_map (λ named. named.table) result ≡ table_in word.now }
{
    match word.as_bytes() {
        [digit @ b'0'..=b'3', b'=', _, ..] => Some(RoutesNamed {
            table: usize::from(digit - b'0'),
            file: word.get(2..).unwrap_or(""),
        }),
        _ => None,
    }
}

/// The files that these words name, or the reply to the first that names none.
fn named_by<'w, R>(
    request: &Request<'_, '_, R>,
    words: &[&'w str],
) -> Result<Vec<RoutesNamed<'w>>, Reply>
    ensures named { IfOk result (λ named. Some (map (λ one. one.table) named.items) ≡ tables_from [] (map (λ word. word.now) words.now)) }
    ensures wrong { IfErr result (λ reply. ((reply.status ≡ 2) × (tables_from [] (map (λ word. word.now) words.now) ≡ None)) ⊎ (reply.status ≡ 4)) }
{
    let mut named = Vec::new(request.alloc);
    for word in words {
        let Some(one) = named_in(word) else {
            return Err(request.wrong(format_args!(
                "error: '{word}' is not TABLE=FILE: TABLE a digit from 0 to 3, FILE a file with a route on each line"
            )));
        };
        if named.push(one).is_err() {
            return Err(request.without_memory());
        }
    }
    Ok(named)
}

/// Reads a file with routes, all of which are printable.
#[tactic(auto, using(crate::proofs::Stops::fault_status))]
fn read_routes<R: Files>(
    request: &Request<'_, '_, R>,
    named: RoutesNamed<'_>,
) -> Result<RouteFile, Reply>
    ensures table { IfOk result (λ file. file.table ≡ named.entry.table) }
    ensures unread { IfErr result IsFault }
{
    let source = read_file(request, named.file)?;
    let file = RouteFile {
        table: named.table,
        source,
    };
    if file.is_fit() {
        return Ok(file);
    }
    let mut reply = failed(request.alloc, Fault::File(named.file), request.flag("json"));
    say_strange(request.alloc, &file, &mut reply.err);
    Err(reply)
}

/// Reads the files with routes, up to the first that is not read.
fn read_all_routes<R: Files>(
    request: &Request<'_, '_, R>,
    named: &[RoutesNamed<'_>],
) -> Result<Vec<RouteFile>, Reply>
    ensures tables { IfOk result (λ files. map (λ file. file.table) files.items ≡ map (λ one. one.table) named.now) }
    ensures unread { IfErr result IsFault }
{
    let mut files = Vec::new(request.alloc);
    for one in named {
        let file = read_routes(request, *one)?;
        if files.push(file).is_err() {
            return Err(request.without_memory());
        }
    }
    Ok(files)
}

/// The first table with more routes that an environment does not have.
fn lacked_table(files: &[RouteFile], env: &Env) -> Option<usize>
    ensures { result ≡ find (λ table. nat_le env.now.tables table) (map (λ file. file.table) files.now) }
{
    let tables = usize::from(env.tables());
    for file in files {
        if tables <= file.table {
            return Some(file.table);
        }
    }
    None
}

/// A pipeline file that was read, and what it names.
#[derive(Drop)]
pub struct Given {
    pub source: Source,
    /// The files with more routes.
    pub routes: Vec<RouteFile>,
    /// The text of the file with those routes.
    joined: Vec<u8>,
    survey: Survey,
}

impl Given {
    /// The text of the file, with the routes that the command line gives.
    pub fn text(&self) -> &[u8] {
        self.joined.as_slice()
    }

    /// The pipeline as the subject of a command.
    pub fn subject(&self) -> Subject<'_> {
        Subject::Pipeline {
            file: self.source.name.as_str(),
            text: self.joined.as_slice(),
            survey: &self.survey,
        }
    }
}

/// A pipeline file with these files of routes, or the reply if they have no configuration, or not the tables of the routes.
fn given_of<R>(
    request: &Request<'_, '_, R>,
    source: Source,
    routes: Vec<RouteFile>,
) -> Result<Given, Reply>
    ensures { IfErr result (HasNoConfig (map (λ file. file.table) routes.items)) }
{
    let (alloc, text) = (request.alloc, source.bytes.as_slice());
    let joined = request.made(joined(alloc, text, routes.as_slice()))?;
    let survey = match survey_of(alloc, joined.as_slice()) {
        Ok(survey) => survey,
        Err(error) => {
            let (name, is_json) = (source.name.as_str(), request.flag("json"));
            return Err(misread(alloc, name, text, routes.as_slice(), error, is_json));
        }
    };
    if let Some(table) = lacked_table(routes.as_slice(), survey.env()) {
        return Err(request.wrong(format_args!(
            "error: the pipeline has no table {table}: its tables are the [[table]] of its file, counted from 0"
        )));
    }
    Ok(Given {
        source,
        routes,
        joined,
        survey,
    })
}

/// Reads the pipeline file of a command, and the files with more routes.
pub fn read_pipeline<R: Files>(request: &Request<'_, '_, R>) -> Result<Given, Reply>
    ensures { IfErr result (IsNotReady (found_of request.now.words.now)) }
{
    let named = named_by(request, request.values("routes"))?;
    let source = read_file(request, request.word("FILE"))?;
    let routes = read_all_routes(request, named.as_slice())?;
    given_of(request, source, routes)
}

/// Reads the programs and certificates of a command's nodes, or of one.
pub fn read_nodes<R: Files>(
    request: &Request<'_, '_, R>,
    subject: Subject<'_>,
    which: Option<Entry>,
    how: How,
) -> Result<Sources, Reply>
    ensures { IfErr result (λ reply. reply.status ≡ 4) }
{
    request.made(read_sources(request.rt, request.alloc, subject, which, how))
}

/// A pipeline that is loaded, and what was read for it.
#[derive(Drop)]
pub struct Loaded {
    pub file: Given,
    pub sources: Sources,
    pub pipeline: Pipeline,
}

/// Loads the pipeline of a command with its named certificates, or with inferred ones.
pub fn load_pipeline<R: Files>(request: &Request<'_, '_, R>, how: How) -> Result<Loaded, Reply>
    ensures loaded { IfOk result (λ loaded. IsLoaded how loaded.pipeline) }
    ensures stops { IfErr result (IsNotLoaded (found_of request.now.words.now) how) }
{
    let file = read_pipeline(request)?;
    let sources = read_nodes(request, file.subject(), None, how)?;
    match load(request.alloc, file.text(), &mut Lent(&sources), how) {
        Ok(pipeline) => Ok(Loaded {
            file,
            sources,
            pipeline,
        }),
        Err(error) => {
            let (subject, is_json) = (file.subject(), request.flag("json"));
            Err(unloaded(request.alloc, error, subject, &sources, is_json))
        }
    }
}

/// What a command is about: the pipeline of a file; or a program with its certificate, if one is given, on the port of `dpv one`.
#[derive(Drop)]
pub enum About<'w> {
    File(Given),
    Single(Env, &'w str, Option<&'w str>),
}

impl About<'_> {
    /// It as the subject of a command.
    pub fn subject(&self) -> Subject<'_> {
        match self {
            About::File(given) => given.subject(),
            About::Single(env, program, cert) => Subject::Single {
                env,
                program,
                cert: *cert,
            },
        }
    }
}

/// What the words say that a command is about.
pub fn read_about<'w, R: Files>(request: &Request<'_, 'w, R>) -> Result<About<'w>, Reply> {
    let cert = request.words.get_str("CERT");
    match request.words.get_str("NODE") {
        Some(program) => Ok(About::Single(one_env(), program, cert)),
        None => Ok(About::File(read_pipeline(request)?)),
    }
}

/// The node that WHICH names.
pub fn node_in<R>(request: &Request<'_, '_, R>, word: &str) -> Result<Entry, Reply>
    ensures named { IfOk result (λ node. word.now ≡ word_of node) }
    ensures wrong { IfErr result (λ reply. (reply.status ≡ 2) × NamesNone word.now) }
{
    match node_named(word) {
        Some(node) => Ok(node),
        None => Err(request.wrong(format_args!(
            "error: '{word}' names no node: port or ring, and one digit"
        ))),
    }
}
