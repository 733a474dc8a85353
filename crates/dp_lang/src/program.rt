//! `Program`: the instructions of a node, all within their ranges.

ghost use Rattle.std.specs.Prelude.{◌≡◌, ◌≤◌, length};
ghost use Rattle.dp_lang.specs.Programs.{IsProgram};

use dp_model::Instr;
use std::marker::Model;

/// The maximum number of instructions of a program.
pub const MAX_INSTRS: usize = 1_024;

/// A node program: 1 to [`MAX_INSTRS`] instructions with operands in their ranges, and labels that are numbers of its instructions.
#[derive(Drop)]
pub struct Program {
    instrs: Vec<Instr>,
}

impl Model for Program {
    ghost use Rattle.std.specs.Prelude.{List};
    ghost use Rattle.dp_model.specs.declared.instr.Instr.{Instr};

    ghost Value = { List Instr };

    ghost use Rattle.dp_lang.specs.Programs.{IsProgram};

    ghost view = { λ p. p.instrs.items };

    ghost invariant = { λ p. IsProgram p.instrs.items };
}

impl Program {
    /// Makes a program of these instructions.
    pub(crate) fn of(instrs: Vec<Instr>) -> Program
        requires { IsProgram instrs.items }
        ensures { result ≡ instrs.items }
    {
        Program { instrs }
    }

    /// The instructions. A label is an index into them, from 0.
    pub fn instrs(&self) -> &[Instr]
        ensures same { result.now ≡ self.now }
        ensures some { 1 ≤ length result.now }
        ensures few { length result.now ≤ MAX_INSTRS }
        ensures program { IsProgram result.now }
    {
        &self.instrs
    }
    /// Takes the instructions out.
    pub fn into_instrs(self) -> Vec<Instr>
        ensures same { result.items ≡ self }
        ensures program { IsProgram result.items }
    {
        let Program { instrs } = self;
        instrs
    }
}
