//! Opens the captures of a run: the inputs in port order, then the outputs. Removes the outputs that it made and that stayed empty.

ghost use Rattle.std.specs.Prelude.{◌≡◌, ◌≤◌, [], length, take, IfErr, IfOk, OnOk};
ghost use Rattle.dp_captures.specs.Files.{AreInputs, AreOutputs, IsOpenedInput, IsOpenedOutput};
ghost use Rattle.dp_captures.specs.Guarding.{AreGuarded};
ghost use Rattle.dp_captures.specs.Names.{input_capture, output_capture};
ghost use Rattle.dp_captures.specs.Opening as spec;

use crate::faults::{CaptureFault, CaptureReason, fault_at};
use crate::file_id::{FileId, ReadFile};
use crate::guard::{files_of_run, refuse_named, refuse_open};
use crate::guarded::Guarded;
use crate::input_file::{InputFile, open_input_file};
use crate::names::CaptureNames;
use crate::output_file::{OutputFile, open_output_file};
use crate::watched::{Progress, Watched};
use dp_pcap::{Buffered, OfBufReader, OfBufWriter};
use std::alloc::Global;
use std::fs::{self, OpenFile};
use std::io::{BufReader, Error, ErrorKind, Stderr, Stdin, Stdout, Write};
use std::rt::Files;

/// The size of a capture's buffer, in bytes.
pub const BUFFER: usize = 65_536;

/// The size of the buffer of an unbuffered output, in bytes.
pub const UNBUFFERED: usize = 0;

/// The standard streams.
#[derive(Clone, Copy)]
pub struct Streams {
    pub input: Stdin,
    pub output: Stdout,
    pub error: Stderr,
}

/// An input: a reader of a capture.
pub type InputOf<F> = OfBufReader<Watched<InputFile<F>>>;

/// An output: a writer of a capture.
pub type OutputOf<F> = OfBufWriter<Guarded<OutputFile<F>>>;

/// The fault of a capture that cannot be opened.
fn unopened<'a>(name: &'a str, error: Error) -> CaptureFault<'a>
    ensures { spec.IsOf name.now result }
{
    match error.kind() {
        ErrorKind::OutOfMemory => CaptureFault::Memory,
        _ => fault_at(name, None, CaptureReason::System(error)),
    }
}

/// Opens the capture that a port reads.
fn open_input<R: Files>(
    rt: &R,
    alloc: Global,
    stdin: Stdin,
    port: &CaptureNames,
    progress: Progress,
) -> Result<InputOf<R::File>, Error>
    ensures { IfOk result (IsOpenedInput (input_capture port.now)) }
{
    let name = port.input.as_str();
    let file = open_input_file(rt, stdin, port.input_place, name)?;
    let watched = Watched::new(file, progress, name);
    Ok(OfBufReader::new(BufReader::with_capacity(alloc, BUFFER, watched)?))
}

/// Opens the inputs of a run, in port order, up to the first that cannot be opened.
///
/// # Errors
///
/// That of the first; those before it are open.
pub fn open_inputs<'a, R: Files>(
    rt: &R,
    alloc: Global,
    streams: Streams,
    names: &'a [CaptureNames],
    is_progress: bool,
    inputs: &mut Vec<InputOf<R::File>>,
) -> Result<(), CaptureFault<'a>>
    requires { inputs.old.items ≡ [] }
    ensures opened { AreInputs (take (length inputs.new.items) names.now) inputs.new.items }
    ensures all { OnOk result (length inputs.new.items ≡ length names.now) }
    ensures first { IfErr result (spec.IsInput names.now (length inputs.new.items)) }
{
    let to = is_progress.then_some(streams.error);
    for (port, files) in names.iter().enumerate() {
        let progress = Progress::new(to, port);
        let input = match open_input(rt, alloc, streams.input, files, progress) {
            Ok(input) => input,
            Err(error) => return Err(unopened(files.input.as_str(), error)),
        };
        if inputs.push(input).is_err() {
            return Err(CaptureFault::Memory);
        }
    }
    Ok(())
}

/// Opens an output, with a buffer of this size. The old content of a file is kept until its header is written.
fn open_output<R: Files>(
    rt: &R,
    alloc: Global,
    stdout: Stdout,
    port: &CaptureNames,
    buffer: usize,
) -> Result<OutputOf<R::File>, Error>
    ensures { IfOk result (IsOpenedOutput (output_capture port.now)) }
{
    let name = port.output.as_str();
    let file = open_output_file(rt, stdout, port.output_place, name)?;
    let guarded = Guarded::new(file, name);
    Ok(OfBufWriter::new(Buffered::with_capacity(alloc, buffer, guarded)?))
}

/// Opens the outputs of a run, in port order, up to the first that cannot be made.
fn open_outputs<'a, R: Files>(
    rt: &R,
    alloc: Global,
    stdout: Stdout,
    names: &'a [CaptureNames],
    buffer: usize,
    outputs: &mut Vec<OutputOf<R::File>>,
) -> Result<(), CaptureFault<'a>>
    requires { outputs.old.items ≡ [] }
    ensures opened { AreOutputs (take (length outputs.new.items) names.now) outputs.new.items }
    ensures all { OnOk result (length outputs.new.items ≡ length names.now) }
    ensures first { IfErr result (spec.IsOutput names.now) }
{
    for port in names {
        let output = match open_output(rt, alloc, stdout, port, buffer) {
            Ok(output) => output,
            Err(error) => return Err(unopened(port.output.as_str(), error)),
        };
        if outputs.push(output).is_err() {
            return Err(CaptureFault::Memory);
        }
    }
    Ok(())
}

/// Opens the captures of a run: the inputs in port order, then the outputs, with buffers of this size. Refuses an output that is a file of the run: by
/// its name before an output is made, and by its identity once all are open, before a byte is written.
///
/// # Errors
///
/// Of the first input that cannot be opened; else of the first output that is a file of the run; else of the first that cannot be made.
pub fn open_captures<'a, R: Files>(
    rt: &R,
    alloc: Global,
    streams: Streams,
    reads: &'a [ReadFile],
    names: &'a [CaptureNames],
    is_progress: bool,
    buffer: usize,
    inputs: &mut Vec<InputOf<R::File>>,
    outputs: &mut Vec<OutputOf<R::File>>,
) -> Result<(), CaptureFault<'a>>
    requires few { length names.now ≤ 8 }
    requires none { (inputs.old.items ≡ []) × (outputs.old.items ≡ []) }
    ensures inputs { OnOk result (AreInputs names.now inputs.new.items) }
    ensures outputs { OnOk result (AreOutputs names.now outputs.new.items) }
    ensures many { OnOk result ((length inputs.new.items ≡ length names.now) × (length outputs.new.items ≡ length names.now)) }
    ensures guarded { OnOk result (AreGuarded reads.now inputs.new.items outputs.new.items) }
    ensures first { IfErr result (spec.IsFirstFault names.now inputs.new.items outputs.new.items) }
{
    if let Err(fault) = open_inputs(rt, alloc, streams, names, is_progress, inputs) {
        return Err(fault);
    }
    let Ok(kept) = files_of_run(rt, alloc, reads, names, inputs.as_slice()) else {
        return Err(CaptureFault::Memory);
    };
    if let Err(fault) = refuse_named(rt, kept, names) {
        return Err(fault);
    }
    if let Err(fault) = open_outputs(rt, alloc, streams.output, names, buffer, outputs) {
        return Err(fault);
    }
    let Ok(kept) = files_of_run(rt, alloc, reads, names, inputs.as_slice()) else {
        return Err(CaptureFault::Memory);
    };
    refuse_open(kept, names, outputs.as_slice())
}

/// Removes this file if it is empty. Its name may be that of a link to it, which stays.
fn remove_if_empty<R: Files>(rt: &R, alloc: Global, name: &str, id: FileId) {
    if let Ok(path) = rt.canonicalize(alloc, name)
        && let Ok(metadata) = fs::metadata(rt, &path)
        && metadata.len() == 0
        && FileId::of(&metadata).is_same(id)
    {
        let _removed = fs::remove_file(rt, &path);
    }
}

/// Removes the outputs that were made when they were opened and are still empty, as those of a run that ended before its headers were written. Files
/// that existed before stay.
pub fn remove_empty_outputs<R: Files>(
    rt: &R,
    alloc: Global,
    names: &[CaptureNames],
    outputs: &[OutputOf<R::File>],
) {
    for port in 0..outputs.len() {
        let guarded = outputs[port].get_ref().get_ref();
        let file = guarded.get_ref();
        if file.is_new
            && (!file.is_emptied || guarded.failure().is_some())
            && let (Some(id), Some(names)) = (file.id, names.get(port))
        {
            remove_if_empty(rt, alloc, names.output.as_str(), id);
        }
    }
}
