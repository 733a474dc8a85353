//! `print`: writes a program as text.

ghost use Rattle.std.specs.Prelude.{◌≡◌, ℕ, ◌<◌, [], ◌∷◌, ◌++◌, if◌then◌else◌, Some, length, map, slice_get, string_bytes, IfOk, IsTrue, OnOk};
ghost use Rattle.std.specs.Fmt.{decimal};
ghost use Rattle.std.specs.List.{list_all};
ghost use Rattle.dp_lang.specs.Printing as spec;
ghost use Rattle.dp_lang.specs.Programs.{leads_below};
ghost use Rattle.dp_lang.specs.Forms as forms;
ghost use Rattle.dp_lang.specs.Views.{numbered};

use crate::argument::{Numbered, Shown};
use crate::form::{Form, arguments_of, form_of};
use crate::program::Program;
use dp_model::Instr;
use std::alloc::{AllocError, Global};

/// Adds letters and a number.
fn push_number(out: &mut String, letters: &str, n: u64) -> Result<(), AllocError>
    ensures { OnOk result (string_bytes out.new ≡ string_bytes out.old ++ (letters.now ++ decimal n)) }
{
    write!(out, "{letters}{n}")
}

fn push_argument(out: &mut String, argument: Numbered) -> Result<(), AllocError>
    ensures { OnOk result (string_bytes out.new ≡ string_bytes out.old ++ spec.argument_text (numbered argument)) }
{
    match argument.shown() {
        Shown::Packet(n) => push_number(out, "p", u64::from(n)),
        Shown::Register(n) => push_number(out, "r", u64::from(n)),
        Shown::Number(n) => push_number(out, "", n),
        Shown::Label(n) => push_number(out, "L", u64::from(n)),
    }
}

/// Adds a blank, and the operands with commas between them.
fn push_arguments(out: &mut String, arguments: &[Numbered]) -> Result<(), AllocError>
    ensures { OnOk result (string_bytes out.new ≡ string_bytes out.old ++ spec.arguments_text (map numbered arguments.now)) }
{
    let mut before = ' ';
    for argument in arguments {
        out.push(before)?;
        push_argument(out, *argument)?;
        before = ',';
    }
    Ok(())
}

/// Adds a line with a word and its operands.
fn push_statement(out: &mut String, form: Form, arguments: &[Numbered]) -> Result<(), AllocError>
    ensures { OnOk result (string_bytes out.new ≡ string_bytes out.old
        ++ spec.line (spec.statement_text (record { form = form; arguments = map numbered arguments.now }))) }
{
    out.push_str(form.word())?;
    push_arguments(out, arguments)?;
    out.push_str("\n")?;
    Ok(())
}

/// Adds a line with an instruction.
fn push_instr(out: &mut String, instr: &Instr) -> Result<(), AllocError>
    ensures { OnOk result (string_bytes out.new ≡ string_bytes out.old ++ spec.line (spec.statement_text (forms.spelled instr.now))) }
{
    push_statement(out, form_of(instr), arguments_of(instr).as_slice())
}

/// Finds for each instruction whether some instruction names it.
fn named_labels(alloc: Global, instrs: &[Instr]) -> Result<Vec<bool>, AllocError>
    requires { IsTrue (list_all (leads_below (length instrs.now)) instrs.now) }
    ensures len { IfOk result (λ named. length named.items ≡ length instrs.now) }
    ensures named { IfOk result (λ named. (n : ℕ) → n < length instrs.now → slice_get named.items n ≡ Some (spec.is_named instrs.now n)) }
{
    let mut named = vec![in alloc; false; instrs.len()]?;
    for instr in instrs {
        if let Some(label) = arguments_of(instr).label() {
            named[usize::from(label)] = true;
        }
    }
    Ok(named)
}

/// Adds a line with the label of an instruction, if it is named.
fn push_label(out: &mut String, number: usize, is_named: bool) -> Result<(), AllocError>
    ensures { OnOk result (string_bytes out.new ≡ string_bytes out.old
        ++ (if is_named then spec.line (spec.label_name number ++ 58 ∷ []) else [])) }
{
    if is_named {
        write!(out, "L{number}:\n")?;
    }
    Ok(())
}

/// Returns the text of a program: one instruction on each line, after a line with its label if some instruction names it.
///
/// # Errors
///
/// `AllocError` if the text could not grow.
pub fn print(alloc: Global, program: &Program) -> Result<String, AllocError>
    ensures { IfOk result (λ text. string_bytes text ≡ spec.printed program.now) }
{
    let instrs = program.instrs();
    let named = named_labels(alloc, instrs)?;
    let mut out = String::new(alloc);
    for (i, instr) in instrs.iter().enumerate() {
        push_label(&mut out, i, named[i])?;
        push_instr(&mut out, instr)?;
    }
    Ok(out)
}
