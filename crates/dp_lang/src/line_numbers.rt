//! The lines of a text in which its instructions are.

ghost use Rattle.std.specs.Prelude.{◌≡◌, map, IfOk};
ghost use Rattle.dp_lang.specs.SourceLines as spec;
ghost use Rattle.dp_lang.specs.Views.{Gives};

use crate::assembler::read_text;
use crate::cause::AsmError;
use crate::statement::Statement;
use std::alloc::{AllocError, Global};

/// The line of each statement.
fn lines_of(alloc: Global, statements: &[Statement<'_>]) -> Result<Vec<usize>, AllocError>
    ensures { IfOk result (λ lines. lines.items ≡ map (λ s. s.line) statements.now) }
{
    statements.iter().map(|s| s.line).collect(alloc)
}

/// Returns the line, from 1, of each instruction of a text. The k-th, from 0, is the line of the instruction whose label in refusals is k.
///
/// # Errors
///
/// `AsmError::Fault` if a line by itself has a fault, the one that `assemble` returns; labels are not looked up. `AsmError::Memory`
/// if a list could not grow.
pub fn source_lines(alloc: Global, text: &[u8]) -> Result<Vec<usize>, AsmError>
    ensures { Gives (λ lines. lines.items) result (spec.source_lines text.now) }
{
    let source = read_text(alloc, text)?;
    Ok(lines_of(alloc, &source.statements)?)
}
