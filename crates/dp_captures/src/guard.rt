//! Keeps the outputs of a run apart from its other files.

ghost use Rattle.std.specs.Prelude.{◌≡◌, ◌≤◌, ◌++◌, ◌∷◌, [], None, find, length, map, IfErr, IfOk, OnOk};
ghost use Rattle.dp_captures.specs.Guarding as spec;
ghost use Rattle.dp_captures.specs.Guarding.{input_target, output_target, read_target, targets};
ghost use Rattle.dp_captures.specs.Names.{output_capture};
ghost use Rattle.dp_captures.specs.Opening.{IsOf, IsOutput};

use crate::faults::{CaptureFault, CaptureReason, fault_at};
use crate::file_id::{FileId, ReadFile, plain_file};
use crate::names::CaptureNames;
use crate::opening::{InputOf, OutputOf};
use crate::words::Place;
use std::alloc::{AllocError, Global};
use std::fs::{self, OpenFile};
use std::io::{ErrorKind, Read, Write};
use std::rt::Files;

/// Where what is printed goes in the end, if tools/views writes it on: it leaves its own standard output open under this number.
const FIRST_OUT: &str = "/dev/fd/98";

/// Where what is reported goes in the end.
const FIRST_ERR: &str = "/dev/fd/99";

/// What a file of a run is.
#[derive(Clone, Copy)]
pub enum Target<'a> {
    /// A plain file that exists.
    There(FileId),
    /// A file with this name, to be made in a folder.
    New(FileId, &'a str),
    /// A device, a pipe, or nothing that can be made.
    Other,
}

/// A file of a run that no output may be, the name to report, and why.
#[derive(Clone, Copy)]
pub struct Kept<'a> {
    target: Target<'a>,
    name: Option<&'a str>,
    why: CaptureReason,
}

/// What an open file is.
fn target_of(id: Option<FileId>) -> Target<'static>
    ensures { result ≡ spec.target_of id }
{
    match id {
        Some(id) => Target::There(id),
        None => Target::Other,
    }
}

/// Whether two files are the same.
fn is_same_target(left: Target<'_>, right: Target<'_>) -> bool
    ensures { result ≡ spec.is_same_target left.entry right.entry }
{
    match (left, right) {
        (Target::There(one), Target::There(other)) => one.is_same(other),
        (Target::New(one, name), Target::New(other, its)) => one.is_same(other) && name == its,
        _ => false,
    }
}

/// Adds a file that no output may be.
fn keep<'a>(
    kept: &mut Vec<Kept<'a>>,
    target: Target<'a>,
    name: Option<&'a str>,
    why: CaptureReason,
) -> Result<(), AllocError>
    ensures { OnOk result (targets kept.new.items ≡ targets kept.old.items ++ target.entry ∷ []) }
{
    kept.push(Kept { target, name, why })?;
    Ok(())
}

/// Adds the files that a run reads besides its captures.
fn keep_reads<'a>(kept: &mut Vec<Kept<'a>>, reads: &'a [ReadFile]) -> Result<(), AllocError>
    ensures { OnOk result (targets kept.new.items ≡ targets kept.old.items ++ map read_target reads.now) }
{
    for read in reads {
        let (target, name) = (target_of(read.id), read.name.as_str());
        keep(kept, target, Some(name), CaptureReason::IsRead)?;
    }
    Ok(())
}

/// Adds the inputs of a run, as they are open.
fn keep_inputs<'a, F: Read>(
    kept: &mut Vec<Kept<'a>>,
    names: &'a [CaptureNames],
    inputs: &[InputOf<F>],
) -> Result<(), AllocError>
    requires { length inputs.now ≤ length names.now }
    ensures { OnOk result (targets kept.new.items ≡ targets kept.old.items ++ map input_target inputs.now) }
{
    for port in 0..inputs.len() {
        let target = target_of(inputs[port].get_ref().get_ref().get_ref().id);
        let name = names[port].input.as_str();
        keep(kept, target, Some(name), CaptureReason::IsRead)?;
    }
    Ok(())
}

/// Whether an output is standard output.
fn take_stdout(names: &[CaptureNames]) -> bool {
    for port in names {
        if matches!(port.output_place, Place::Stream) {
            return true;
        }
    }
    false
}

/// Where texts go: the first of these names that means a plain file.
fn text_target<R: Files>(rt: &R, first: &str, own: &str) -> Result<Target<'static>, AllocError> {
    Ok(target_of(plain_file(rt, first)?.or(plain_file(rt, own)?)))
}

/// The files of a run that no output may be: those that it reads, its inputs, and those to which texts go.
pub fn files_of_run<'a, R: Files>(
    rt: &R,
    alloc: Global,
    reads: &'a [ReadFile],
    names: &'a [CaptureNames],
    inputs: &[InputOf<R::File>],
) -> Result<Vec<Kept<'a>>, AllocError>
    requires { length inputs.now ≤ length names.now }
    ensures { IfOk result (λ kept. spec.AreFilesOf reads.now inputs.now kept.items) }
{
    let err = text_target(rt, FIRST_ERR, "/dev/stderr")?;
    // If an output is standard output, texts go to standard error.
    let out = if take_stdout(names) {
        Target::Other
    } else {
        text_target(rt, FIRST_OUT, "/dev/stdout")?
    };
    let mut kept = Vec::new(alloc);
    keep_reads(&mut kept, reads)?;
    keep_inputs(&mut kept, names, inputs)?;
    keep(&mut kept, err, None, CaptureReason::IsStderr)?;
    keep(&mut kept, out, None, CaptureReason::IsStdout)?;
    Ok(kept)
}

/// Adds an output, unless it is one of these files.
fn add_output<'a>(
    kept: &mut Vec<Kept<'a>>,
    target: Target<'a>,
    port: &'a CaptureNames,
) -> Result<(), CaptureFault<'a>>
    ensures apart { OnOk result (find (spec.is_same_target target.entry) (targets kept.old.items) ≡ None) }
    ensures added { OnOk result (targets kept.new.items ≡ targets kept.old.items ++ target.entry ∷ []) }
    ensures named { IfErr result (IsOf (output_capture port.now).1) }
{
    let name = port.output.as_str();
    for one in kept.as_slice() {
        if is_same_target(target, one.target) {
            return Err(fault_at(name, one.name, one.why));
        }
    }
    if keep(kept, target, Some(name), CaptureReason::IsOutput).is_err() {
        return Err(CaptureFault::Memory);
    }
    Ok(())
}

/// The file that an output would be made as, if no file has its name.
fn new_file<'a, R: Files>(rt: &R, name: &'a str) -> Result<Target<'a>, AllocError> {
    let (parent, file) = name.rsplit_once('/').unwrap_or((".", name));
    let folder = if parent.is_empty() { "/" } else { parent };
    match fs::metadata(rt, folder) {
        Ok(metadata) if metadata.is_dir() => Ok(Target::New(FileId::of(&metadata), file)),
        Err(error) if error.kind() == ErrorKind::OutOfMemory => Err(AllocError),
        _ => Ok(Target::Other),
    }
}

/// What an output means by its name, before it is open.
fn target_named<'a, R: Files>(rt: &R, port: &'a CaptureNames) -> Result<Target<'a>, AllocError> {
    let name = port.output.as_str();
    match port.output_place {
        Place::File => match fs::metadata(rt, name) {
            Ok(metadata) => Ok(target_of(FileId::plain(&metadata))),
            Err(error) => match error.kind() {
                ErrorKind::OutOfMemory => Err(AllocError),
                ErrorKind::NotFound => new_file(rt, name),
                _ => Ok(Target::Other),
            },
        },
        Place::Stream => Ok(target_of(plain_file(rt, "/dev/stdout")?)),
        Place::Nowhere => Ok(Target::Other),
    }
}

/// Refuses the first output that is one of these files by its name, or an earlier output.
pub fn refuse_named<'a, R: Files>(
    rt: &R,
    mut kept: Vec<Kept<'a>>,
    names: &'a [CaptureNames],
) -> Result<(), CaptureFault<'a>>
    ensures { IfErr result (IsOutput names.now) }
{
    for port in names {
        let Ok(target) = target_named(rt, port) else {
            return Err(CaptureFault::Memory);
        };
        if let Err(fault) = add_output(&mut kept, target, port) {
            return Err(fault);
        }
    }
    Ok(())
}

/// Refuses the first output that is one of these files as it is open, or an earlier output.
pub fn refuse_open<'a, F: Write + OpenFile + Drop>(
    mut kept: Vec<Kept<'a>>,
    names: &'a [CaptureNames],
    outputs: &[OutputOf<F>],
) -> Result<(), CaptureFault<'a>>
    requires { length outputs.now ≤ length names.now }
    ensures apart { OnOk result (spec.AreApart (targets kept.entry.items) (map output_target outputs.now)) }
    ensures named { IfErr result (IsOutput names.now) }
{
    for port in 0..outputs.len() {
        let target = target_of(outputs[port].get_ref().get_ref().get_ref().id);
        if let Err(fault) = add_output(&mut kept, target, &names[port]) {
            return Err(fault);
        }
    }
    Ok(())
}
