//! Laws of texts and programs, as contracts of functions that do nothing.

ghost use Rattle.std.specs.Prelude.{◌≡◌, ℕ, List};
ghost use Rattle.dp_model.specs.declared.instr.Instr.{Instr};
ghost use Rattle.dp_lang.specs.Forms.{HasRanges};
ghost use Rattle.dp_lang.specs.Printing.{printed};
ghost use Rattle.dp_lang.specs.Programs.{IsProgram};
ghost use Rattle.dp_lang.specs.Reading.{Reads};

/// A law: the ranges of operands, and the maximum number of instructions of a program, are these numbers.
pub fn has_its_ranges()
    ensures { HasRanges }
{}

/// A law: the printed text of a program reads as that program, and a text reads as at most one program.
pub fn printed_texts_read_back()
    ensures reads { (program : List Instr) → IsProgram program → Reads (printed program) program }
    ensures one { (text : List ℕ) (p q : List Instr) → Reads text p → Reads text q → p ≡ q }
{}
