//! The program of a node.

ghost use Rattle.std.specs.Prelude.{◌≡◌, ◌⊎◌, IfErr, IfOk, Some};
ghost use Rattle.dp_load.specs.Nodes.{HasNoProgram, IsProgramOf};
ghost use Rattle.dp_sources.specs.Sources.{files_of};
ghost use Rattle.dp_sources.specs.Subjects.{asked_node};

use crate::source::{Lent, Sources};
use crate::subject::Asked;
use dp_lang::{AsmError, Program, assemble};
use dp_load::{PipeError, bytes_of};
use std::alloc::Global;

/// The program of a node.
///
/// # Errors
///
/// Those of a node's program: `File`, `Asm` or `Memory`.
pub fn program_of(alloc: Global, sources: &Sources, asked: Asked<'_>) -> Result<Program, PipeError>
    ensures read { IfOk result (IsProgramOf (Some (files_of sources.now)) (asked_node asked.entry).program) }
    ensures fails { IfErr result (λ e. (e ≡ PipeError.Memory)
        ⊎ HasNoProgram (Some (files_of sources.now)) asked.entry.node (asked_node asked.entry).program e) }
{
    let text = bytes_of(alloc, &mut Lent(sources), asked.node, asked.program)?;
    match assemble(alloc, text.as_slice()) {
        Ok(program) => Ok(program),
        Err(AsmError::Memory) => Err(PipeError::Memory),
        Err(AsmError::Fault(fault)) => Err(PipeError::Asm(asked.node, fault)),
    }
}
