//! Turns statements into instructions once all labels are known.

ghost use Rattle.std.specs.Prelude.{◌≡◌, map, IfSome, option_map};
ghost use Rattle.dp_lang.specs.Fields.{label_in};
ghost use Rattle.dp_lang.specs.Reading.{all_resolved, all_statements, target_in};
ghost use Rattle.dp_lang.specs.Forms.{spelled};
ghost use Rattle.dp_lang.specs.Views.{Gives, argument};
ghost use Rattle.dp_lang.specs.Sources as view;

use crate::argument::Named;
use crate::cause::{AsmError, Cause, Fault};
use crate::form::built;
use crate::source::ProgramSource;
use crate::statement::Statement;
use dp_model::Instr;
use std::alloc::Global;

/// The number of the instruction that a label names, if one follows it.
fn target<'a>(source: &ProgramSource<'a>, name: &'a [u8]) -> Option<u16>
    ensures { result ≡ target_in (view.source source.now) name.now }
{
    let number = source.labels.get(name)?;
    if usize::from(number) < source.statements.len() {
        Some(number)
    } else {
        None
    }
}

/// The number of the label among the operands; 0 if there is none.
fn label_in<'a>(source: &ProgramSource<'a>, arguments: &[Named<'a>]) -> Option<u16>
    ensures { result ≡ label_in (target_in (view.source source.now)) arguments.now }
{
    for argument in arguments {
        if let Named::Name(name) = *argument {
            return target(source, name);
        }
    }
    Some(0)
}

/// Makes the instruction of a statement, if its label is known.
pub fn instr_of<'a>(source: &ProgramSource<'a>, statement: &Statement<'a>) -> Option<Instr>
    ensures form { IfSome result (λ i. (spelled i).form ≡ statement.now.form) }
    ensures arguments { option_map (λ i. (spelled i).arguments) result
        ≡ all_resolved (target_in (view.source source.now)) (map argument statement.now.arguments.items) }
{
    let arguments = statement.arguments.as_slice();
    let label = label_in(source, arguments)?;
    Some(built(statement.form, arguments, label))
}

/// Makes the instructions of all statements, or returns the first line with an unknown label.
pub fn instrs_of(alloc: Global, source: &ProgramSource) -> Result<Vec<Instr>, AsmError>
    ensures { Gives (λ v. map spelled v.items) result
        (all_statements (target_in (view.source source.now)) (view.source source.now).statements) }
{
    let mut instrs = Vec::new(alloc);
    for statement in &source.statements {
        match instr_of(source, statement) {
            Some(instr) => instrs.extend_from_slice(&[instr])?,
            None => {
                return Err(AsmError::Fault(Fault {
                    line: statement.line,
                    cause: Cause::LabelUnknown,
                }));
            }
        }
    }
    Ok(instrs)
}
