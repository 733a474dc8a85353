//! Reads the text of a pipeline file as a configuration.

ghost use Rattle.std.specs.Prelude.{◌≡◌, map, IfOk, IfErr};
ghost use Rattle.std.specs.List.{All};
ghost use Rattle.toml.specs.View.{table_view};
ghost use Rattle.dp_load.specs.Config as spec;
ghost use Rattle.dp_lpm.specs.Routes.{HasSmallHops};
ghost use Rattle.dp_load.specs.Views as view;

use crate::error::PipeError;
use crate::file_names::{NodeNames, PortNames};
use crate::reader::setup_in;
use crate::routes::add_routes;
use crate::setup::{NodeFiles, PortPart, RingPart, Setup, TablePart};
use dp_lpm::Lpm;
use dp_model::{Env, PortSpec, RingSpec};
use std::alloc::{AllocError, Global};
use toml::Table;

/// What a pipeline file says: the region, the environment, the tables and the file names.
#[derive(Drop)]
pub(crate) struct Config {
    /// The size of the region in bytes: a multiple of `dp_region::CACHE_LINE`, from `MIN_REGION` to `MAX_REGION`.
    pub region: u32,
    /// The environment of its programs.
    pub env: Env,
    /// The tables, each with its routes.
    pub tables: Vec<Lpm>,
    /// The files of each port.
    pub ports: Vec<PortNames>,
    /// The files of each ring's node.
    pub rings: Vec<NodeNames>,
}

/// Parses a text as TOML.
fn table_of(alloc: Global, text: &[u8]) -> Result<Table, PipeError>
    ensures ok { IfOk result (λ t. spec.IsTomlTable text.now (table_view t)) }
    ensures err { IfErr result (spec.IsTextFault text.now) }
{
    let Ok(text) = str::from_utf8(text) else {
        return Err(PipeError::NotToml);
    };
    match toml::table_from_str(alloc, text) {
        Ok(table) => Ok(table),
        Err(error) if error.is_memory() => Err(PipeError::Memory),
        Err(_) => Err(PipeError::NotToml),
    }
}

fn specs_of_rings(alloc: Global, rings: &[RingPart<'_>]) -> Result<Vec<RingSpec>, AllocError>
    ensures { IfOk result (λ v. v.items ≡ map (λ r. r.spec) rings.now) }
{
    let mut specs = Vec::new(alloc);
    for ring in rings {
        specs.push(ring.spec)?;
    }
    Ok(specs)
}

fn specs_of_ports(alloc: Global, ports: &[PortPart<'_>]) -> Result<Vec<PortSpec>, AllocError>
    ensures { IfOk result (λ v. v.items ≡ map (λ p. p.spec) ports.now) }
{
    let mut specs = Vec::new(alloc);
    for port in ports {
        specs.push(port.spec)?;
    }
    Ok(specs)
}

/// Makes the environment of a file. More than 255 tables count as 255.
fn env_of(alloc: Global, setup: &Setup<'_>) -> Result<Env, PipeError>
    ensures ok { IfOk result (λ env. spec.IsEnv (view.setup setup.now) env) }
    ensures err { IfErr result (spec.IsEnvFault (view.setup setup.now)) }
{
    let tables = setup.tables.len().min(255) as u8;
    let rings = specs_of_rings(alloc, &setup.rings)?;
    let ports = specs_of_ports(alloc, &setup.ports)?;
    match Env::new(&setup.pools, tables, &rings, &ports) {
        Ok(env) => Ok(env),
        Err(cause) => Err(PipeError::BadEnv(cause)),
    }
}

fn kept_files(alloc: Global, files: NodeFiles<'_>) -> Result<NodeNames, AllocError>
    ensures { IfOk result (λ names. view.node_names names ≡ view.node_files files.entry) }
{
    Ok(NodeNames {
        node: String::from_str(alloc, files.node)?,
        cert: match files.cert {
            Some(cert) => Some(String::from_str(alloc, cert)?),
            None => None,
        },
    })
}

/// The file names of each ring's node.
fn names_of_rings(alloc: Global, rings: &[RingPart<'_>]) -> Result<Vec<NodeNames>, AllocError>
    ensures { IfOk result (λ v. map view.node_names v.items ≡ map (λ r. view.node_files r.files) rings.now) }
{
    let mut names = Vec::new(alloc);
    for ring in rings {
        names.push(kept_files(alloc, ring.files)?)?;
    }
    Ok(names)
}

/// The file names of a port, each copied.
pub(crate) fn kept_names(
    alloc: Global,
    files: NodeFiles<'_>,
    input: &str,
    output: &str,
) -> Result<PortNames, AllocError>
    ensures { IfOk result (λ names. view.port_names names ≡ (view.node_files files.entry, input.now, output.now)) }
{
    Ok(PortNames {
        files: kept_files(alloc, files)?,
        input: String::from_str(alloc, input)?,
        output: String::from_str(alloc, output)?,
    })
}

/// The file names of each port.
fn names_of_ports(alloc: Global, ports: &[PortPart<'_>]) -> Result<Vec<PortNames>, AllocError>
    ensures { IfOk result (λ v. map view.port_names v.items ≡ map (λ p. spec.names_of_port (view.port_part p)) ports.now) }
{
    let mut names = Vec::new(alloc);
    for port in ports {
        names.push(kept_names(alloc, port.files, port.input, port.output)?)?;
    }
    Ok(names)
}

/// Makes a table with its routes.
fn filled(alloc: Global, index: usize, part: &TablePart<'_>) -> Result<Lpm, PipeError>
    ensures ok { IfOk result (λ table. spec.HasItsRoutes (view.table_part part.now) table) }
    ensures err { IfErr result (spec.IsFillFault index (view.table_part part.now)) }
    ensures hops { IfOk result HasSmallHops }
{
    let mut table = match Lpm::new(alloc, part.rules, part.groups) {
        Ok(table) => table,
        Err(_) => return Err(PipeError::Memory),
    };
    match add_routes(&mut table, part.routes) {
        Ok(()) => Ok(table),
        Err((route, cause)) => Err(PipeError::BadTable {
            table: index,
            route,
            cause,
        }),
    }
}

/// Makes all tables with their routes.
fn tables_of(alloc: Global, tables: &[TablePart<'_>]) -> Result<Vec<Lpm>, PipeError>
    ensures ok { IfOk result (λ v. spec.HaveTheirRoutes (map view.table_part tables.now) v.items) }
    ensures err { IfErr result (spec.IsTablesFault (map view.table_part tables.now)) }
    ensures hops { IfOk result (λ v. All HasSmallHops v.items) }
{
    let mut filled_tables = Vec::new(alloc);
    for (index, part) in tables.iter().enumerate() {
        filled_tables.push(filled(alloc, index, part)?)?;
    }
    Ok(filled_tables)
}

/// Makes the configuration of a setup: its environment, tables and file names.
fn config_of(alloc: Global, setup: &Setup<'_>) -> Result<Config, PipeError>
    ensures ok { IfOk result (spec.IsConfig (view.setup setup.now)) }
    ensures err { IfErr result (spec.IsSetupFault (view.setup setup.now)) }
    ensures hops { IfOk result (λ config. All HasSmallHops config.tables.items) }
{
    let env = env_of(alloc, setup)?;
    Ok(Config {
        region: setup.region,
        env,
        tables: tables_of(alloc, &setup.tables)?,
        ports: names_of_ports(alloc, &setup.ports)?,
        rings: names_of_rings(alloc, &setup.rings)?,
    })
}

/// Reads a text as a configuration.
///
/// # Errors
/// `Memory` if memory is refused, else the first of `NotToml`, `BadKey`, `BadEnv` and `BadTable` that applies.
pub(crate) fn configure(alloc: Global, text: &[u8]) -> Result<Config, PipeError>
    ensures ok { IfOk result (spec.IsConfigOf text.now) }
    ensures err { IfErr result (spec.IsFaultOf text.now) }
    ensures hops { IfOk result (λ config. All HasSmallHops config.tables.items) }
{
    let top = table_of(alloc, text)?;
    let setup = setup_in(alloc, &top)?;
    config_of(alloc, &setup)
}
