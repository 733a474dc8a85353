//! What commands read, what they are about, and the faults that end them.
//!
//! A command first reads the files that it needs as [`Sources`]. A [`Subject`] is a pipeline or one program by itself; it has nodes, each with the
//! names of its files. Everything after that is decided from these bytes alone, so contracts speak of the contents of the files.
//!
//! A [`Fault`] is what ends a command: its line and its exit status. After it, [`say_unread`], [`say_strange`], [`say_misread`] and [`say_unloaded`] say
//! the facts of it as a document, of which tools/views says which line of a text is at fault, and what helps.
#![tactic(auto)]

mod facts;
mod fault;
mod program;
mod route_files;
mod source;
mod subject;

pub use facts::{say_misread, say_strange, say_unloaded, say_unread};
pub use fault::Fault;
pub use program::program_of;
pub use route_files::{RouteFile, joined};
pub use source::{Lent, ReadError, Source, Sources, Unread};
pub use subject::{Asked, MAX_NODES, ONE_REGION, Subject, entry_at, one_env, read, read_sources};
