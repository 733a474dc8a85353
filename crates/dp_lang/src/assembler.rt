//! `assemble`: reads a text as a program.

ghost use Rattle.std.specs.Prelude.{map, IfErr, IfOk};
ghost use Rattle.std.specs.List.{slice_split};
ghost use Rattle.dp_lang.specs.Lines.{is_newline};
ghost use Rattle.dp_lang.specs.Reading.{Fails, Reads, lines_of, nothing};
ghost use Rattle.dp_lang.specs.Sources as view;
ghost use Rattle.dp_lang.specs.Views.{Gives};

use crate::cause::{AsmError, Cause, Fault};
use crate::labels::Labels;
use crate::lines;
use crate::program::Program;
use crate::reader::add_line;
use crate::resolve::instrs_of;
use crate::source::ProgramSource;
use std::alloc::Global;

/// Reads all lines, or returns the first line with a fault.
fn read_lines<'a>(alloc: Global, lines: &[&'a [u8]]) -> Result<ProgramSource<'a>, AsmError>
    ensures { Gives view.source result (lines_of 1 nothing (map (λ line. line.now) lines.now)) }
{
    let mut source = ProgramSource {
        labels: Labels::new(alloc),
        statements: Vec::new(alloc),
    };
    for (i, text) in lines.iter().enumerate() {
        let line = i + 1;
        if let Err(error) = add_line(alloc, &mut source, line, text) {
            return Err(error.at_line(line));
        }
    }
    Ok(source)
}

/// Reads the labels and statements of a text, or returns its first line with a fault.
pub(crate) fn read_text<'a>(alloc: Global, text: &'a [u8]) -> Result<ProgramSource<'a>, AsmError>
    ensures { Gives view.source result (lines_of 1 nothing (slice_split is_newline text.now)) }
{
    let lines = lines::split(alloc, text, b'\n')?;
    read_lines(alloc, &lines)
}

/// Reads a text as a program, or returns the line and the cause of its first fault. docs/users/nodes.md describes the text.
///
/// # Errors
///
/// `AsmError::Fault` exactly if the text is not a program, and `AsmError::Memory` if a list could not grow.
#[tactic(auto, unfolding(crate::specs::Reading::program_of))]
pub fn assemble(alloc: Global, text: &[u8]) -> Result<Program, AsmError>
    ensures program { IfOk result (Reads text.now) }
    ensures fault { IfErr result (Fails text.now) }
{
    let source = read_text(alloc, text)?;
    let instrs = instrs_of(alloc, &source)?;
    if instrs.is_empty() {
        return Err(AsmError::Fault(Fault {
            line: 0,
            cause: Cause::Size,
        }));
    }
    Ok(Program::of(instrs))
}
