//! The source of a program, line by line, with the instruction of each line.

use dp_lang::{AsmError, Program, arguments_of, source_lines};
use dp_model::{Entry, Instr};
use std::alloc::{AllocError, Global};

/// The kinds of instructions that are counted differently.
#[derive(Clone, Copy)]
pub enum Role {
    /// It neither jumps on a condition nor ends anything.
    Plain,
    /// It jumps on a condition.
    Branch,
    /// It looks an address up in this table, and jumps if the table has no hop for it.
    Lookup(u8),
    /// It puts a packet into this ring, and jumps if the ring is full.
    Enqueue(u8),
    /// It frees a packet.
    Frees,
    /// It ends the node run.
    Ends,
}

impl Role {
    /// The role of an instruction.
    pub fn of(instr: &Instr) -> Role {
        match *instr {
            Instr::Lookup { table, .. } => Role::Lookup(table),
            Instr::Enq { ring, .. } => Role::Enqueue(ring),
            Instr::Free { .. } => Role::Frees,
            Instr::Exit => Role::Ends,
            Instr::Jmp { .. } => Role::Plain,
            _ if arguments_of(instr).label().is_some() => Role::Branch,
            _ => Role::Plain,
        }
    }
}

/// An instruction in a line.
#[derive(Clone, Copy)]
pub struct Step {
    pub label: usize,
    pub role: Role,
}

/// A line of a program's source.
#[derive(Clone, Copy)]
pub struct SourceLine<'a> {
    /// The line, without its newline.
    pub text: &'a [u8],
    /// The instruction in it, if there is one.
    pub step: Option<Step>,
}

/// The text of a node's program.
#[derive(Clone, Copy)]
pub struct ProgramText<'a> {
    /// The port or ring that runs it.
    pub node: Entry,
    /// The name of its file.
    pub name: &'a str,
    /// The contents of the file.
    pub text: &'a [u8],
}

/// A node of a pipeline with the source of its program.
#[derive(Drop)]
pub struct NodeSource<'a> {
    pub node: Entry,
    /// The name of the file.
    pub name: &'a str,
    pub lines: Vec<SourceLine<'a>>,
}

/// The lines of a program's text; `places` has the line of each instruction, from 1.
fn lines_of<'a>(
    alloc: Global,
    text: &'a [u8],
    instrs: &[Instr],
    places: &[usize],
) -> Result<Vec<SourceLine<'a>>, AllocError> {
    let (mut lines, mut label, mut number) = (Vec::new(alloc), 0usize, 0usize);
    let whole = text.strip_suffix(b"\n").unwrap_or(text);
    for text in whole.split(|byte| *byte == b'\n') {
        number = number.saturating_add(1);
        let mut step = None;
        if let (Some(place), Some(instr)) = (places.get(label), instrs.get(label))
            && *place == number
        {
            let role = Role::of(instr);
            step = Some(Step { label, role });
            label = label.saturating_add(1);
        }
        lines.push(SourceLine { text, step })?;
    }
    Ok(lines)
}

impl<'a> NodeSource<'a> {
    /// A program line by line, each line with its instruction.
    ///
    /// # Errors
    ///
    /// `AllocError` if an allocation was refused.
    pub fn of(
        alloc: Global,
        own: &Program,
        program: ProgramText<'a>,
    ) -> Result<NodeSource<'a>, AllocError> {
        let ProgramText { node, name, text } = program;
        let places = match source_lines(alloc, text) {
            Ok(places) => places,
            Err(AsmError::Memory) => return Err(AllocError),
            Err(AsmError::Fault(_)) => Vec::new(alloc),
        };
        Ok(NodeSource {
            node,
            name,
            lines: lines_of(alloc, text, own.instrs(), places.as_slice())?,
        })
    }
}
