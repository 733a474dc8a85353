//! The number registers.
ghost use Rattle.std.specs.Prelude.{◌≡◌, ◌+◌, ◌^◌, ◌<◌, slice_index};
ghost use Rattle.dp_model.specs.Arithmetic.{value};
ghost use Rattle.dp_model.specs.Machine.{with_number};
ghost use Rattle.dp_engine.specs.Handles.{moved};

use crate::machine::Machine;
use dp_model::{NumberRegister, Operand};

impl Machine {
    // The number in a register.
    pub(crate) fn number(&self, r: NumberRegister) -> u64
        ensures { result ≡ slice_index self.now.state.numbers r }
    {
        self.numbers[usize::from(r.number())]
    }

    // Puts a number into a register.
    pub(crate) fn set(&mut self, r: NumberRegister, n: u64)
        ensures { self.new ≡ moved (with_number r n self.old.state) self.old }
    {
        self.numbers[usize::from(r.number())] = n;
    }

    // The value of an operand.
    #[inline(always)]
    pub(crate) fn value(&self, operand: Operand) -> u64
        ensures { result ≡ value self.now.state.numbers operand }
    {
        match operand {
            Operand::Register(register) => self.number(register),
            Operand::Constant(constant) => constant,
        }
    }

    // The sum of a register's number and a constant offset.
    #[inline(always)]
    pub(crate) fn offset_at(&self, index: NumberRegister, offset: u16) -> u64
        requires { slice_index self.now.state.numbers index + offset < 2 ^ 64 }
        ensures { result ≡ slice_index self.now.state.numbers index + offset }
    {
        self.number(index) + u64::from(offset)
    }
}
