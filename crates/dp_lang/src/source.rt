//! `ProgramSource`: the labels and statements of a text.

ghost use Rattle.std.specs.Prelude.{◌≤◌, vec_len};
ghost use Rattle.dp_lang.specs.declared.program.TheConstants.{MAX_INSTRS};

use crate::labels::Labels;
use crate::statement::Statement;

/// The labels and statements of the lines so far.
#[derive(Drop)]
pub struct ProgramSource<'a> {
    pub labels: Labels<'a>,
    pub statements: Vec<Statement<'a>>,
    ghost few: { vec_len statements ≤ MAX_INSTRS },
}
