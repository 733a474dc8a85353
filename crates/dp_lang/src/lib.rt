//! The language of node programs: its instructions as a table of forms with operands, `assemble` from text to `Program`, and `print` back.
//! docs/users/nodes.md of the repository describes the text.
//!
//! Who owns what: a `Program` owns its instructions, and nothing of the text. Only `assemble` makes one, so every program has 1 to 1,024 instructions
//! with operands in their ranges and labels that exist. `into_instrs` takes the list out.
//!
//! What to call: `assemble` for a text, `print` for the one text of a program, `source_lines` for the line of each instruction in its source,
//! `arguments_of` for the operands of an instruction as data, `is_same` to compare two instructions, which have
//! no `==`.
//!
//! What not to do: a `Program` need not be one that the checker accepts; dp_check decides that. The printed text has neither the comments nor the
//! labels of the source.
#![tactic(auto)]

mod argument;
mod assembler;
mod cause;
mod field;
mod form;
mod labels;
mod laws;
mod line_numbers;
mod lines;
mod operand;
mod printer;
mod program;
mod reader;
mod resolve;
mod same;
mod source;
mod statement;

pub use argument::{Arguments, Named, Numbered};
pub use assembler::assemble;
pub use cause::{AsmError, Cause, Fault};
pub use form::{Form, OperandKind, all_forms, arguments_of, form_of};
pub use laws::{has_its_ranges, printed_texts_read_back};
pub use line_numbers::source_lines;
pub use operand::argument_of;
pub use printer::print;
pub use program::{MAX_INSTRS, Program};
pub use same::is_same;
