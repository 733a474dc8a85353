//! Loading a pipeline, checking it and inferring its certificates over any two writers: what `dpv` prints of these, without help or documents.

ghost use Rattle.std.specs.Prelude.{◌≡◌, ◌⊎◌, IfErr, IfOk};
ghost use Rattle.std.specs.Io.KnownBytes.{Appends};
ghost use Rattle.dp_load.specs.Loads.{IsLoadedFrom};
ghost use Rattle.dp_verdict.specs.Lines.{IsInferLine, IsLoadLine, accepted_lines};

use crate::inferring::infer;
use crate::judging::refused;
use crate::report::{Verdict, reply_of};
use dp_console::{DONE, FAULT};
use dp_load::{Files, How, Pipeline, load};
use dp_model::Entry;
use std::alloc::Global;
use std::io::Write;

/// Loads a pipeline from its text and the files that it names, with their certificates or with inferred ones.
///
/// # Errors
///
/// Why there is no pipeline is printed, and this is the exit status: 1 if a program is refused or has no certificate, 3 for a fault or a text that could
/// not be written, 4 for lack of memory.
pub fn load_line<F: Files, P: Write, E: Write>(
    alloc: Global,
    text: &[u8],
    files: &mut F,
    how: How,
    out: &mut P,
    err: &mut E,
) -> Result<Pipeline, u8>
    ensures loaded { IfOk result (IsLoadedFrom (F.contents files.old) how text.now) }
    ensures silent { IfOk result (λ _. (out.new ≡ out.old) × (err.new ≡ err.old)) }
    ensures unloaded { IfErr result (IsLoadLine (F.contents files.old) how text.now (P.contents out.old) (P.contents out.new) (E.contents err.old)
        (E.contents err.new)) }
{
    match load(alloc, text, files, how) {
        Ok(pipeline) => Ok(pipeline),
        Err(error) => Err(reply_of(alloc, &refused(alloc, error), false).print(out, err)),
    }
}

/// Prints for each node of a pipeline that its program is accepted, as only accepted programs are loaded. Returns the exit status: 0; or 3 if a line
/// could not be written. Nothing is printed on standard error.
pub fn check_line<P: Write, E: Write>(pipeline: &Pipeline, out: &mut P, err: &mut E) -> u8
    ensures lines { ((result ≡ 0) × Appends (P.contents out.old) (P.contents out.new) (accepted_lines pipeline.now)) ⊎ (result ≡ 3) }
    ensures silent { err.new ≡ err.old }
{
    for k in 0..pipeline.nodes() {
        let verdict = Verdict {
            node: pipeline.node(k).entry(),
            refused: None,
        };
        let Ok(()) = writeln!(out, "{verdict}") else {
            return FAULT;
        };
    }
    DONE
}

/// Prints the certificate of a node of a pipeline. Returns the exit status: 0; 2 if there is no such node, which is reported; 3 if a text could not be
/// written, 4 for lack of memory.
pub fn infer_line<P: Write, E: Write>(
    alloc: Global,
    pipeline: &Pipeline,
    which: Entry,
    out: &mut P,
    err: &mut E,
) -> u8
    ensures { IsInferLine pipeline.now which (P.contents out.old) (P.contents out.new) (E.contents err.old) (E.contents err.new) result }
{
    infer(alloc, pipeline, which).print(out, err)
}
