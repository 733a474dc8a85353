//! Which capture stands for which port of a run.

ghost use Rattle.std.specs.Prelude.{◌≡◌, ◌≤◌, length, map, IfOk};
ghost use Rattle.dp_captures.specs.Names.{captures_from, input_capture, output_capture};

use crate::words::{Place, Replacements, capture_at};
use dp_load::Pipeline;
use std::alloc::{AllocError, Global};

/// The captures of a port: their names, and where they are.
#[derive(Drop)]
pub struct CaptureNames {
    pub input: String,
    pub output: String,
    pub input_place: Place,
    pub output_place: Place,
}

/// The captures of a pipeline, in port order: those that are given, and else the files that the pipeline names.
///
/// # Errors
///
/// `AllocError` if there is no memory for them.
pub fn names_of(
    alloc: Global,
    pipeline: &Pipeline,
    given: &Replacements<'_>,
) -> Result<Vec<CaptureNames>, AllocError>
    ensures inputs { IfOk result (λ names. map input_capture names.items ≡ captures_from given.now.inputs.items 0 pipeline.now.inputs) }
    ensures outputs { IfOk result (λ names. map output_capture names.items ≡ captures_from given.now.outputs.items 0 pipeline.now.outputs) }
    ensures many { IfOk result (λ names. length names.items ≡ length pipeline.now.env.ports) }
    ensures few { IfOk result (λ names. length names.items ≤ 8) }
{
    let mut names = Vec::new(alloc);
    for port in 0..pipeline.env().ports().len() {
        let input = capture_at(given.inputs.as_slice(), port, pipeline.input(port));
        let output = capture_at(given.outputs.as_slice(), port, pipeline.output(port));
        names.push(CaptureNames {
            input: String::from_str(alloc, input.1)?,
            output: String::from_str(alloc, output.1)?,
            input_place: input.0,
            output_place: output.0,
        })?;
    }
    Ok(names)
}
