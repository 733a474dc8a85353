//! What a command is about: the nodes of a pipeline, or one program; and how its files are read.

ghost use Rattle.std.specs.Prelude.{◌≡◌, option_map};
ghost use Rattle.dp_sources.specs.Subjects.{asked_node, entry_at, env_of, node_of, one_port};

use crate::source::{ReadError, Source, Sources, Unread};
use dp_load::{How, MAX_FILE, Survey};
use dp_model::{Entry, Env, PoolSpec, PortSpec};
use std::alloc::{AllocError, Global};
use std::fs;
use std::io::{ErrorKind, Read};
use std::rt::Files;

/// The number of bytes of the region of `dpv one`.
pub const ONE_REGION: u32 = 262_144;

/// The number of nodes that a pipeline can have.
pub const MAX_NODES: u8 = 16;

/// The node with this index: eight ports, then eight rings.
pub fn entry_at(index: u8) -> Entry
    ensures { result ≡ entry_at index }
{
    if index < 8 {
        Entry::Port(index)
    } else {
        Entry::Ring(index - 8)
    }
}

/// The environment of `dpv one`: a pool of 64 buffers with room for 2,176 bytes and no cache, and a port that takes packets of one segment.
pub fn one_env() -> Env
    ensures { result ≡ one_port }
{
    let pool = PoolSpec {
        count: 64,
        cache: 0,
        room: 2_176,
    };
    let port = PortSpec {
        pool: 0,
        segs: 1,
        queue: 32,
    };
    match Env::new(&[pool], 0, &[], &[port]) {
        Ok(env) => env,
        Err(_) => unreachable!(),
    }
}

/// A node with the names of its files.
#[derive(Clone, Copy)]
pub struct Asked<'a> {
    pub node: Entry,
    pub program: &'a str,
    /// Its certificate. If none is given, one is inferred.
    pub cert: Option<&'a str>,
}

/// What a command is about.
#[derive(Clone, Copy)]
pub enum Subject<'a> {
    /// The pipeline of a text, in the file with this name.
    Pipeline {
        file: &'a str,
        text: &'a [u8],
        survey: &'a Survey,
    },
    /// A program by itself, at port 0 of this environment.
    Single {
        env: &'a Env,
        program: &'a str,
        cert: Option<&'a str>,
    },
}

impl<'a> Subject<'a> {
    /// The environment of its programs.
    pub fn env(self) -> &'a Env
        ensures { result.now ≡ env_of self.entry }
    {
        match self {
            Subject::Pipeline { survey, .. } => survey.env(),
            Subject::Single { env, .. } => env,
        }
    }

    /// The node with this entry, if there is one.
    pub fn node(self, node: Entry) -> Option<Asked<'a>>
        ensures { option_map asked_node result ≡ node_of self.entry node }
    {
        let (program, cert) = match self {
            Subject::Pipeline { survey, .. } => (survey.program(node)?, survey.cert(node)),
            Subject::Single { program, cert, .. } if node == Entry::Port(0) => (program, cert),
            Subject::Single { .. } => return None,
        };
        Some(Asked {
            node,
            program,
            cert,
        })
    }

    /// The file of a node that was not read, if one was not.
    pub(crate) fn unread(self, node: Entry, sources: &Sources) -> Option<Unread<'_>> {
        let asked = self.node(node)?;
        match sources.unread(asked.program) {
            Some(file) => Some(file),
            None => sources.unread(asked.cert?),
        }
    }
}

/// Reads the file of this name, or says why it is not read.
///
/// # Errors
///
/// `AllocError` if memory is refused.
pub fn read<R: Files>(rt: &R, alloc: Global, name: &str) -> Result<Source, AllocError> {
    let (path, name) = (name, String::from_str(alloc, name)?);
    let mut bytes = Vec::new(alloc);
    let read = match fs::open(rt, path) {
        Ok(file) => file.take(MAX_FILE as u64 + 1).read_to_end(&mut bytes),
        Err(error) => Err(error),
    };
    let error = match read {
        Ok(_) if bytes.len() <= MAX_FILE => None,
        Ok(_) => Some(ReadError::TooLong),
        Err(error) if error.kind() == ErrorKind::OutOfMemory => return Err(AllocError),
        Err(error) => Some(ReadError::System(error)),
    };
    Ok(Source { name, bytes, error })
}

/// Reads a file, unless it is among the sources.
fn add_file<R: Files>(
    rt: &R,
    alloc: Global,
    name: &str,
    sources: &mut Sources,
) -> Result<(), AllocError> {
    if sources.find(name).is_none() {
        sources.files.push(read(rt, alloc, name)?)?;
    }
    Ok(())
}

/// Reads the programs of a subject's nodes, or that of one node; and the certificates that are given, unless all are inferred.
///
/// # Errors
///
/// `AllocError` if memory is refused.
pub fn read_sources<R: Files>(
    rt: &R,
    alloc: Global,
    subject: Subject<'_>,
    which: Option<Entry>,
    how: How,
) -> Result<Sources, AllocError> {
    let mut sources = Sources::new(alloc);
    for index in 0..MAX_NODES {
        let node = entry_at(index);
        if which.unwrap_or(node) == node
            && let Some(asked) = subject.node(node)
        {
            add_file(rt, alloc, asked.program, &mut sources)?;
            if how == How::Given
                && let Some(cert) = asked.cert
            {
                add_file(rt, alloc, cert, &mut sources)?;
            }
        }
    }
    Ok(sources)
}
