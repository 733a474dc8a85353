//! The facts of a fault, as a document on the line after the fault's own: which files it concerns and what they have. tools/views finds the fault
//! again in these texts, and says what is wrong and what helps; no contract has its words.

use crate::program::program_of;
use crate::route_files::RouteFile;
use crate::source::{ReadError, Sources, Unread};
use crate::subject::{Asked, Subject};
use dp_console::{Document, Item, Text};
use dp_infer::{InferError, infer};
use dp_load::PipeError;
use dp_model::Entry;
use std::alloc::Global;
use std::fmt;

/// Bytes as the characters with their numbers.
#[derive(Clone, Copy)]
struct Characters<'a>(&'a [u8]);

impl fmt::Display for Characters<'_> {
    fn fmt<W: fmt::Write>(&self, f: &mut fmt::Formatter<W>) -> fmt::Result {
        for byte in self.0 {
            f.write_char(char::from(*byte))?;
        }
        Ok(())
    }
}

/// Begins a document with this name.
fn begun(alloc: Global, view: &str) -> Document {
    let mut to = Document::new(alloc);
    to.begin_object("");
    to.item("view", Item::Text(view));
    to
}

/// Ends a document, and adds it.
fn end(mut to: Document, err: &mut Text) {
    to.end_object();
    to.say_to(err);
}

/// Adds the text of a file; if it is not UTF-8, its bytes as characters.
fn add_text(to: &mut Document, text: &[u8]) {
    match str::from_utf8(text) {
        Ok(text) => to.item("text", Item::Text(text)),
        Err(_) => to.shown("text_latin1", Characters(text)),
    }
}

/// Adds a file that was not read, and the system's reason. Without one it is too long.
fn add_unread(to: &mut Document, unread: Unread<'_>) {
    to.item("file", Item::Text(unread.name));
    if let ReadError::System(error) = unread.error {
        to.shown("reason", error);
    }
}

/// Says why a file was not read.
pub fn say_unread(alloc: Global, unread: Unread<'_>, err: &mut Text) {
    let mut to = begun(alloc, "unread");
    add_unread(&mut to, unread);
    end(to, err);
}

/// Says what a file with routes has that none may have.
pub fn say_strange(alloc: Global, file: &RouteFile, err: &mut Text) {
    let mut to = begun(alloc, "routes");
    add_text(&mut to, file.source.bytes.as_slice());
    end(to, err);
}

/// Says what of a pipeline file, or of a file with more routes, is at fault, for a text that was refused with this error. Says nothing if memory ran out.
pub fn say_misread(
    alloc: Global,
    file: &str,
    text: &[u8],
    routes: &[RouteFile],
    error: PipeError,
    err: &mut Text,
) {
    if matches!(error, PipeError::Memory) {
        return;
    }
    let mut to = begun(alloc, "misread");
    to.shown("error", error);
    to.item("file", Item::Text(file));
    if let Err(fault) = toml::table_from_slice(alloc, text) {
        err.has_failed |= fault.is_memory();
        to.item("message", Item::Text(fault.message()));
        if let Some(span) = fault.span() {
            to.item("offset", Item::Number(span.start as u64));
        }
    }
    to.begin_list("routes");
    for given in routes {
        to.begin_object("");
        to.item("file", Item::Text(given.source.name.as_str()));
        to.item("table", Item::Number(given.table as u64));
        add_text(&mut to, given.source.bytes.as_slice());
        to.end_object();
    }
    to.end_list();
    add_text(&mut to, text);
    end(to, err);
}

/// The node that is not loaded or has no verdict.
fn node_of(error: PipeError) -> Option<Entry> {
    match error {
        PipeError::File(node)
        | PipeError::Asm(node, _)
        | PipeError::BadCert(node, _)
        | PipeError::Refused { node, .. }
        | PipeError::NotInferred { node, .. } => Some(node),
        _ => None,
    }
}

/// Whether a node's program is accepted with an inferred certificate, as 0 or 1, and the number of its instructions.
fn inferred(
    alloc: Global,
    subject: Subject<'_>,
    sources: &Sources,
    asked: Asked<'_>,
) -> Result<[u64; 2], PipeError> {
    let program = program_of(alloc, sources, asked)?;
    let is_accepted = match infer(alloc, &program, subject.env(), asked.node) {
        Ok(_) => true,
        Err(InferError::NoCert { .. }) => false,
        Err(InferError::Memory) => return Err(PipeError::Memory),
    };
    Ok([u64::from(is_accepted), program.instrs().len() as u64])
}

/// Says what of a node is at fault that is not loaded or has no verdict: the names of its files, the text that is at fault, a file that was not read,
/// and whether its program is accepted without the certificate that does not fit.
pub fn say_unloaded(
    alloc: Global,
    subject: Subject<'_>,
    sources: &Sources,
    error: PipeError,
    err: &mut Text,
) {
    let Some(node) = node_of(error) else { return };
    let Some(asked) = subject.node(node) else {
        return;
    };
    let mut to = begun(alloc, "unloaded");
    let cert = match asked.cert {
        Some(cert) => Item::Text(cert),
        None => Item::Null,
    };
    to.item("cert", cert);
    to.shown("error", error);
    if let PipeError::BadCert(_, _) | PipeError::Refused { .. } = error {
        match inferred(alloc, subject, sources, asked) {
            Ok(numbers) => to.numbers("inferred", &numbers),
            Err(_) => err.has_failed = true,
        }
    }
    if let Subject::Pipeline { file, .. } = subject {
        to.item("pipeline", Item::Text(file));
    }
    to.item("program", Item::Text(asked.program));
    let at_fault = match error {
        PipeError::Asm(_, _) => asked.program,
        PipeError::BadCert(_, _) => asked.cert.unwrap_or(""),
        _ => "",
    };
    if let Some(text) = sources.get(at_fault) {
        add_text(&mut to, text);
    }
    if let Some(unread) = subject.unread(node, sources) {
        to.begin_object("unread");
        add_unread(&mut to, unread);
        to.end_object();
    }
    end(to, err);
}
