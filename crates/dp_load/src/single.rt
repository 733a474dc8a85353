//! Loads a pipeline of one port, without tables and rings, from an environment in place of a text.

ghost use Rattle.std.specs.Prelude.{◌≡◌, [], ◌∷◌, IfErr, IfOk};
ghost use Rattle.dp_region.specs.Region.{IsRegionSize};
ghost use Rattle.dp_load.specs.Nodes.{Fails};
ghost use Rattle.dp_load.specs.Singles.{HasOnePort, IsSinglePlan, single_node};

use crate::config::kept_names;
use crate::error::PipeError;
use crate::files::Files;
use crate::nodes::{How, load_node};
use crate::pipeline::Pipeline;
use crate::setup::NodeFiles;
use dp_model::{Entry, Env};
use std::alloc::Global;

/// The files of a pipeline of one port.
#[derive(Clone, Copy)]
pub struct SingleFiles<'a> {
    /// The node program.
    pub program: &'a str,
    /// Its certificate. If none is named, one is inferred.
    pub cert: Option<&'a str>,
    /// The capture that the port reads.
    pub input: &'a str,
    /// The capture that the port writes.
    pub output: &'a str,
}

/// A list of one item.
fn list_of<T: Drop>(alloc: Global, item: T) -> Result<Vec<T>, PipeError>
    ensures ok { IfOk result (λ list. list.items ≡ item ∷ []) }
    ensures err { IfErr result (λ e. e ≡ PipeError.Memory) }
{
    let mut list = Vec::new(alloc);
    list.push(item)?;
    Ok(list)
}

/// Loads a pipeline of one port: its program, with the certificate if one is named.
///
/// # Errors
///
/// Those of the node's program and certificate, as [`load`](crate::load) has them. [`PipeError::Memory`] may come at any time.
pub fn load_single<F: Files>(
    alloc: Global,
    env: Env,
    region: u32,
    names: SingleFiles<'_>,
    files: &mut F,
) -> Result<Pipeline, PipeError>
    requires port { HasOnePort env }
    requires region { IsRegionSize region }
    ensures loaded { IfOk result (IsSinglePlan (F.contents files.old) env region names.entry) }
    ensures fails { IfErr result (Fails (F.contents files.old) env (single_node names.entry)) }
    ensures stays { F.contents files.new ≡ F.contents files.old }
{
    let kept = NodeFiles {
        node: names.program,
        cert: names.cert,
    };
    let port = kept_names(alloc, kept, names.input, names.output)?;
    let node = load_node(alloc, files, How::Given, &env, Entry::Port(0), &port.files)?;
    let nodes = list_of(alloc, node)?;
    let ports = list_of(alloc, port)?;
    Ok(Pipeline::new(region, env, Vec::new(alloc), nodes, ports))
}
