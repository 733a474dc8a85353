//! Loads a pipeline: its text, then the programs and certificates that it names.

ghost use Rattle.std.specs.Prelude.{◌≡◌, IfErr, IfOk};
ghost use Rattle.dp_load.specs.Loads.{IsLoadedFrom, IsUnloaded};

use crate::config::{Config, configure};
use crate::error::PipeError;
use crate::files::Files;
use crate::nodes::{How, load_nodes};
use crate::pipeline::Pipeline;
use std::alloc::Global;

/// Loads the pipeline of a text, with the programs that it names. docs/reference/pipelines.md describes the text.
///
/// # Errors
///
/// The first cause of [`PipeError`]: 1 to 4 from the text alone, then those of each node's program and certificate, ports first.
/// [`PipeError::Memory`] may come in place of any of them, except for a text that is not UTF-8, which is found without memory. Files have
/// been fetched then; nothing else has changed.
pub fn load<F: Files>(
    alloc: Global,
    text: &[u8],
    files: &mut F,
    how: How,
) -> Result<Pipeline, PipeError>
    ensures loaded { IfOk result (IsLoadedFrom (F.contents files.old) how text.now) }
    ensures fails { IfErr result (IsUnloaded (F.contents files.old) how text.now) }
    ensures stays { F.contents files.new ≡ F.contents files.old }
{
    let config = configure(alloc, text)?;
    let nodes = load_nodes(alloc, files, how, &config.env, &config.ports, &config.rings)?;
    let Config {
        region,
        env,
        tables,
        ports,
        rings: _,
    } = config;
    Ok(Pipeline::new(region, env, tables, nodes, ports))
}
