//! Reads one line: its labels, and its statement.

ghost use Rattle.std.specs.Prelude.{◌≡◌, ◌<◌, ℕ, true, List, map, length, vec_len, Option, Result, Ok, IfOk, IfSome};
ghost use Rattle.dp_lang.specs.Causes as causes;
ghost use Rattle.dp_lang.specs.Kinds.{all_of};
ghost use Rattle.dp_lang.specs.declared.cause.Cause.{Cause};
ghost use Rattle.dp_lang.specs.Lines.{labels_in, instruction_in, operands_in, pieces, trim_start};
ghost use Rattle.dp_lang.specs.Reading as spec;
ghost use Rattle.dp_lang.specs.Reading.{each_argument, arguments_of, statement_of, label_test, labels_after, line_of};
ghost use Rattle.dp_lang.specs.Forms as forms;
ghost use Rattle.dp_lang.specs.Views.{argument, Shows};
ghost use Rattle.dp_lang.specs.LineErrors.{ReadsAs};
ghost use Rattle.dp_lang.specs.Sources as view;

use crate::argument::Named;
use crate::cause::{Cause, LineError};
use crate::form::{Form, OperandKind};
use crate::labels::Labels;
use crate::lines;
use crate::operand::{argument_of, is_name};
use crate::program::MAX_INSTRS;
use crate::source::ProgramSource;
use crate::statement::Statement;
use std::alloc::Global;

/// The lesser of a cause and one that was found before.
fn or_less(before: Option<Cause>, cause: Cause) -> Cause
    ensures { result ≡ causes.or_less before cause }
{
    match before {
        Some(other) => other.or_less(cause),
        None => cause,
    }
}

/// Reads an operand for each kind, or finds the least cause among the parts.
fn each_argument<'a>(
    alloc: Global,
    kinds: &[OperandKind],
    parts: &[&'a [u8]],
) -> Result<Vec<Named<'a>>, LineError>
    requires { length kinds.now ≡ length parts.now }
    ensures { ReadsAs (λ v. map argument v.items) result (each_argument kinds.now (map (λ part. part.now) parts.now)) }
{
    let mut arguments = Vec::new(alloc);
    let mut fault = None;
    for (i, kind) in kinds.iter().enumerate() {
        match argument_of(*kind, lines::trim(parts[i])) {
            Ok(argument) => arguments.push(argument)?,
            Err(cause) => fault = Some(or_less(fault, cause)),
        }
    }
    match fault {
        None => Ok(arguments),
        Some(cause) => Err(LineError::Cause(cause)),
    }
}

/// Reads the operands of a form, with commas between them.
fn arguments_of<'a>(
    alloc: Global,
    kinds: &[OperandKind],
    rest: &'a [u8],
) -> Result<Vec<Named<'a>>, LineError>
    ensures read { ReadsAs (λ v. map argument v.items) result (arguments_of kinds.now (operands_in rest.now)) }
    ensures fits { IfOk result (λ v. all_of kinds.now (map argument v.items) ≡ true) }
{
    let parts = lines::operands_in(alloc, rest)?;
    if kinds.len() != parts.len() {
        return Err(LineError::Cause(Cause::BadOperands));
    }
    each_argument(alloc, kinds, &parts)
}

/// Reads what follows the last colon of a line as a statement.
#[tactic(auto, unfolding(crate::specs::Reading::statement_of))]
fn statement_in<'a>(
    alloc: Global,
    line: usize,
    instruction: &'a [u8],
) -> Result<Option<Statement<'a>>, LineError>
    ensures read { ReadsAs view.some_statement result (statement_of instruction.now) }
    ensures line { IfOk result (λ found. IfSome found (λ s. s.line ≡ line)) }
{
    if instruction.is_empty() {
        return Ok(None);
    }
    let (word, rest) = lines::word_and_rest(instruction);
    let Some(form) = Form::of_word(word) else {
        return Err(LineError::Cause(Cause::BadWord));
    };
    let arguments = arguments_of(alloc, form.kinds(), rest)?;
    Ok(Some(Statement {
        line,
        form,
        arguments,
    }))
}

/// Whether a label can be defined here.
fn label_fault<'a>(labels: &Labels<'a>, name: &'a [u8]) -> Result<(), Cause>
    ensures { Shows (λ u. u) result (label_test labels.now name.now) }
{
    if !is_name(name) {
        Err(Cause::BadLabel)
    } else if labels.get(name).is_some() {
        Err(Cause::LabelTwice)
    } else {
        Ok(())
    }
}

/// Adds labels that name one instruction, or finds the least cause among them.
fn add_labels<'a>(
    labels: &mut Labels<'a>,
    number: u16,
    pieces: &[&'a [u8]],
) -> Result<(), LineError>
    ensures { ReadsAs (λ _. labels.new) result (labels_after number labels.old (map (λ piece. trim_start piece.now) pieces.now)) }
{
    let mut fault = None;
    for piece in pieces {
        let name = lines::trim_start(piece);
        if let Err(cause) = label_fault(labels, name) {
            fault = Some(or_less(fault, cause));
        }
        labels.insert(name, number)?;
    }
    match fault {
        None => Ok(()),
        Some(cause) => Err(LineError::Cause(cause)),
    }
}

/// Combines a statement with the labels of its line, or finds the lesser error of both.
fn merged<'a>(
    statement: Result<Option<Statement<'a>>, LineError>,
    labels: Result<(), LineError>,
) -> Result<Option<Statement<'a>>, LineError>
    ensures both { (S : Result (Option (forms.Statement (List ℕ))) Cause) (L : Result spec.Labels Cause) (ls : spec.Labels)
        → ReadsAs view.some_statement statement.entry S → ReadsAs (λ _. ls) labels L
        → ReadsAs (λ s. (view.some_statement s, ls)) result (spec.both S L) }
    ensures same { IfOk result (λ s. statement.entry ≡ Ok s) }
{
    match (statement, labels) {
        (Ok(statement), Ok(())) => Ok(statement),
        (Ok(_), Err(error)) | (Err(error), Ok(())) => Err(error),
        (Err(error), Err(other)) => Err(error.or_less(other)),
    }
}

/// Cuts a line at its colons, adds its labels, and returns its statement.
fn read_pieces<'a>(
    alloc: Global,
    source: &mut ProgramSource<'a>,
    line: usize,
    text: &'a [u8],
) -> Result<Option<Statement<'a>>, LineError>
    ensures read { let cut = pieces text.now in
        ReadsAs (λ s. (view.some_statement s, source.new.labels)) result
        (spec.both (statement_of (instruction_in cut)) (labels_after (vec_len source.old.statements) source.old.labels (labels_in cut))) }
    ensures line { IfOk result (λ found. IfSome found (λ s. s.line ≡ line)) }
    ensures same { source.new.statements ≡ source.old.statements }
{
    let pieces = lines::pieces(alloc, text)?;
    let last = pieces.len() - 1;
    let statement = statement_in(alloc, line, lines::trim_start(pieces[last]));
    let number = source.statements.len() as u16;
    let labels = add_labels(&mut source.labels, number, &pieces[..last]);
    merged(statement, labels)
}

/// Reads a line, and adds its labels and its statement.
#[tactic(auto, unfolding(crate::specs::Reading::line_of))]
pub fn add_line<'a>(
    alloc: Global,
    source: &mut ProgramSource<'a>,
    line: usize,
    text: &'a [u8],
) -> Result<(), LineError>
    ensures { ReadsAs (λ _. view.source source.new) result (line_of line (view.source source.old) text.now) }
{
    if !lines::is_text(text) {
        return Err(LineError::Cause(Cause::BadByte));
    }
    let Some(statement) = read_pieces(alloc, source, line, text)? else {
        return Ok(());
    };
    if source.statements.len() == MAX_INSTRS {
        return Err(LineError::Cause(Cause::Size));
    }
    source.statements.push(statement)?;
    Ok(())
}
