//! The commands of `dpv`, with their operands and options, as two texts: a row for each command, and a line for each word.
//!
//! `command` returns the one `Command` of `clap` by which the words of the command line are read, and from which help and usage are printed. Words
//! that are accepted here may still be wrong: a list, a port or the name of a node is tested where it is used, and ends with the same status. An
//! option is looked up by its name (`get_str`, `flag`), which no type checks: a new one is added here and read there.
//!
//! The tables are texts, and no rows of structs: each function that reads a constant is proved with all its parts, a text is one.
#![tactic(auto)]

use clap::{Arg, ArgAction, Command};
use std::alloc::{AllocError, Global};

/// The commands, in the order in which help lists them: the name of each, its words in the order in which help lists them, and what it does.
const COMMANDS: &str = "\
filter: PROGRAM IN OUT room segs name counts source drops json progress unbuffered: \
    Runs one program on one capture, with an inferred certificate
one: NODE CERT IN OUT counts source drops json progress unbuffered: \
    Runs one node program on one port, from a capture to a capture
check: FILE routes cost sizes json: \
    Checks the programs of a pipeline
infer: FILE WHICH: \
    Infers the certificates of a pipeline, and prints one
infer-one: NODE: \
    Infers the certificate of one program on the port of dpv one, and prints it
explain: FILE WHICH_OR_ALL json: \
    Explains why programs of a pipeline are refused, and what helps
explain-one: NODE CERT_OR_NONE json: \
    Explains why one program is refused on the port of dpv one, and what helps
show: FILE WHICH_OR_PIPELINE dot calls counts_file: \
    Prints a program of a pipeline with what is known before each instruction
show-one: NODE CERT_OR_NONE dot calls: \
    Prints one program, on the port of dpv one, with what is known before each instruction
run: FILE inputs outputs no_inputs no_outputs routes refuse counts source drops json progress unbuffered: \
    Runs a pipeline, from its captures to its captures
trace: FILE routes records port refuse only instr bytes json_lines: \
    Prints the first records of a pipeline instruction by instruction, and writes no capture
trace-one: NODE CERT IN records port refuse only instr bytes json_lines at_once: \
    Prints the first records of one program, on the port of dpv one, instruction by instruction
mem: SCRIPT: \
    Runs a heap script";

/// The words: the name by which commands list each, how it is given, and its help. An operand that may be left out ends in `?`. After an option stands
/// its letter, if it has one, or the name of its value, which ends in `..` if it may be given several times.
const WORDS: &str = "
FILE: FILE: the pipeline file
SCRIPT: FILE: the heap script
PROGRAM: PROGRAM: the node program, or a program of the language pkt in a file *.pkt
NODE: NODE: the node program
CERT: CERT: its certificate
CERT_OR_NONE: CERT?: its certificate; else one is inferred
IN: IN: the capture to read, or - for standard input
OUT: OUT: the capture to write, or - for standard output
WHICH: WHICH: the node: port or ring, and one digit, as port0
WHICH_OR_ALL: WHICH?: the node: port or ring, and one digit, as port0; else all
WHICH_OR_PIPELINE: WHICH?: the node: port or ring, and one digit, as port0; with --dot the pipeline without it
json: --json: prints one JSON document instead of text
json_lines: --json: prints a JSON document for each record, on a line of its own, and one at the end
sizes: --sizes: prints after the verdicts what each pool, ring and port takes of the region
cost: --cost: prints after the verdicts how many instructions each program and the turn of a record take at most
dot: --dot: prints a graph for dot, as dot -Tsvg draws it
calls: --calls: with --dot, draws each part of a program that has no branch as a box of its own
counts_file: --counts COUNTS: with --dot, what run FILE --counts --json printed: each arrow gets its count
counts: --counts: prints the programs after the report, with how often each instruction ran
source: --source: prints counts by the lines of the program's source, in place of those of --counts
drops: --drops: prints the places where packets ended without being sent, most first
progress: --progress: says on standard error how many records were read, each million and at the end
unbuffered: --unbuffered -U: writes each record out as soon as it is sent, as for a pipe
at_once: --unbuffered -U: changes nothing: a trace prints each record as soon as it ends
room: --room N: the bytes of a buffer, from 129 to 4096, 2176 by default: a record has at most N - 128 for each segment
segs: --segs N: how many segments a received record may have, from 1 to 64, 1 by default
name: --name NAME: what --counts calls the program, PROGRAM if not given
inputs: --in PORT=NAME..: the capture that a port reads in place of its in; - is standard input
outputs: --out PORT=NAME..: the capture that a port writes in place of its out; - is standard output
no_inputs: --no-in PORT..: a port that gets no records
no_outputs: --no-out PORT..: a port whose records are dropped
routes: --routes TABLE=FILE..: a file with a route on each line, which a table gets after its own routes
refuse: --refuse LIST: the allocation calls that are refused, as 3 or 1,5,9
records: --records N: how many records are traced, from 1 on; else 10, or all with --only, --instr or --match
port: --port P: the port whose records alone come in; else all
only: --only WHICH: the records that are printed: sent, freed, refused, cut, or a number from 1 on
instr: --instr LABEL: the label, or the number, of an instruction that a printed record came by
bytes: --match BYTES@OFFSET: the bytes of a printed record, as 0800@12, or an IPv4 address that it comes from or goes to
";

/// What stands before this mark in a text, and what stands after it.
fn cut_at<'t>(text: &'t str, mark: &str) -> (&'t str, &'t str) {
    text.split_once(mark).unwrap_or((text, ""))
}

/// What stands after this name in the table of words.
fn word_of(name: &str) -> &'static str {
    for line in WORDS.lines() {
        let (own, rest) = cut_at(line, ": ");
        if own == name {
            return rest;
        }
    }
    ""
}

/// The option of this form, without its dashes.
fn option_of<'a>(alloc: Global, form: &'static str) -> Arg<'a> {
    let (name, value) = cut_at(form, " ");
    let arg = Arg::new(alloc, name).long(name);
    match value.as_bytes() {
        [] => arg.action(ArgAction::SetTrue),
        [b'-', letter] => arg.action(ArgAction::SetTrue).short(char::from(*letter)),
        [.., b'.'] => arg
            .action(ArgAction::Append)
            .value_name(cut_at(value, "..").0),
        _ => arg.value_name(value),
    }
}

/// The operand or option of this form.
fn arg_of<'a>(alloc: Global, form: &'static str) -> Arg<'a> {
    if let Some(option) = form.strip_prefix("--") {
        return option_of(alloc, option);
    }
    let (operand, _) = cut_at(form, "?");
    Arg::new(alloc, operand).required(operand == form)
}

/// The command of a row.
fn command_of<'a>(alloc: Global, row: &'static str) -> Result<Command<'a>, AllocError> {
    let (name, rest) = cut_at(row, ": ");
    let (words, about) = cut_at(rest, ": ");
    let mut command = Command::new(alloc, name).about(about);
    for word in words.split(' ') {
        let (form, help) = cut_at(word_of(word), ": ");
        command = command.arg(arg_of(alloc, form).help(help))?;
    }
    Ok(command)
}

/// The program with its commands.
///
/// # Errors
///
/// `AllocError` if memory is refused.
pub fn command<'a>(alloc: Global) -> Result<Command<'a>, AllocError> {
    let mut commands = Vec::new(alloc);
    for row in COMMANDS.lines() {
        commands.push(command_of(alloc, row)?)?;
    }
    Command::new(alloc, "dpv")
        .version("0.2.0")
        .about("A packet forwarder whose programs are checked before they may touch a buffer")
        .subcommand_required(true)
        .arg_required_else_help(true)
        .subcommands(commands)
}
