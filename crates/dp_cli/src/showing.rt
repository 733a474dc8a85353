//! `dpv show` and `dpv show-one`: the documents from which programs are listed, and programs and pipelines are drawn.

use dp_cert::encode;
use dp_console::{DONE, Document, Item, REFUSED, Reply, Text};
use dp_load::{NodeName, PipeError};
use dp_model::{Entry, Env};
use dp_request::{Request, read_file};
use dp_sources::{Asked, MAX_NODES, Sources, Subject, entry_at};
use dp_verdict::{judge, no_node, unloaded};
use std::alloc::Global;
use std::rt::Files;

/// The document of a file of counts for a node. A file that is not UTF-8 has no text.
pub fn counted_in<R: Files>(
    request: &Request<'_, '_, R>,
    name: &str,
    node: Entry,
) -> Result<Text, Reply> {
    let source = read_file(request, name)?;
    let mut to = Document::new(request.alloc);
    to.begin_object("");
    to.item("view", Item::Text("counted"));
    to.item("file", Item::Text(name));
    to.shown("node", NodeName(node));
    if let Ok(text) = str::from_utf8(source.bytes.as_slice()) {
        to.item("text", Item::Text(text));
    }
    to.end_object();
    let mut out = Text::new(request.alloc);
    to.say_to(&mut out);
    Ok(out)
}

/// Writes the pools, ports, rings and tables of an environment.
pub fn write_env(env: &Env, to: &mut Document) {
    to.begin_object("env");
    to.begin_list("pools");
    for pool in env.pools() {
        let (count, room) = (u64::from(pool.count), u64::from(pool.room));
        to.object(
            "",
            &[("count", Item::Number(count)), ("room", Item::Number(room))],
        );
    }
    to.end_list();
    to.begin_list("ports");
    for port in env.ports() {
        let (pool, queue) = (u64::from(port.pool), u64::from(port.queue));
        to.object(
            "",
            &[("pool", Item::Number(pool)), ("queue", Item::Number(queue))],
        );
    }
    to.end_list();
    to.begin_list("rings");
    for ring in env.rings() {
        to.item("", Item::Number(u64::from(ring.count)));
    }
    to.end_list();
    to.item("tables", Item::Number(u64::from(env.tables())));
    to.end_object();
}

/// Writes a node's program, its certificate and the verdict on it. Returns the status of that.
fn write_node(
    alloc: Global,
    subject: Subject<'_>,
    sources: &Sources,
    asked: Asked<'_>,
    to: &mut Document,
) -> Result<u8, PipeError> {
    let judged = judge(alloc, sources, subject.env(), asked)?;
    let cert = encode(alloc, &judged.cert)?;
    let (label, status) = match judged.verdict.refused {
        Some(at) => (Item::Number(u64::from(at.label)), REFUSED),
        None => (Item::Null, DONE),
    };
    let text = str::from_utf8(judged.text).unwrap_or("");
    to.begin_object("");
    let rows = str::from_utf8(cert.as_slice()).unwrap_or("");
    to.item("certificate", Item::Text(rows));
    to.item("file", Item::Text(asked.program));
    to.shown("node", NodeName(asked.node));
    to.item("program", Item::Text(text));
    to.item("refused", label);
    to.shown("verdict", judged.verdict);
    to.end_object();
    Ok(status)
}

/// Writes the nodes of a subject, or one of them. Returns the greatest status.
fn write_nodes(
    alloc: Global,
    subject: Subject<'_>,
    sources: &Sources,
    which: Option<Entry>,
    to: &mut Document,
) -> Result<u8, PipeError> {
    let mut status = DONE;
    for index in 0..MAX_NODES {
        let node = entry_at(index);
        if (which.is_none() || which == Some(node))
            && let Some(asked) = subject.node(node)
        {
            status = status.max(write_node(alloc, subject, sources, asked, &mut *to)?);
        }
    }
    Ok(status)
}

/// The document of a node's program, or without a node of the whole pipeline. The status is 0; 1 if a program is refused; 2 if there is no such node; 3
/// for a fault, which is reported. If memory is refused, the status is 4, or the reply is not whole.
pub fn show<R>(
    request: &Request<'_, '_, R>,
    subject: Subject<'_>,
    sources: &Sources,
    which: Option<Entry>,
) -> Reply {
    let alloc = request.alloc;
    if let Some(node) = which
        && subject.node(node).is_none()
    {
        return no_node(alloc, node);
    }
    let mut to = Document::new(alloc);
    to.begin_object("");
    to.items(&[
        ("view", Item::Text("show")),
        ("calls", Item::Bool(request.flag("calls"))),
        ("dot", Item::Bool(request.flag("dot"))),
    ]);
    write_env(subject.env(), &mut to);
    to.begin_list("nodes");
    let status = match write_nodes(alloc, subject, sources, which, &mut to) {
        Ok(status) => status,
        Err(error) => return unloaded(alloc, error, subject, sources, false),
    };
    to.end_list();
    to.item("whole", Item::Bool(which.is_none()));
    to.end_object();
    let mut reply = Reply::new(alloc);
    reply.status = status;
    to.say_to(&mut reply.out);
    reply
}
