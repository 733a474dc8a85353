//! A pipeline that is ready to run, with its programs checked.

ghost use Rattle.std.specs.Prelude.{◌≡◌, ℕ, ◌+◌, ◌<◌, length, Some, None, slice_get};
ghost use Rattle.dp_model.specs.declared.env.Entry.TheVariants.{Port, Ring};
ghost use Rattle.dp_model.specs.Environments.{fault_of};
ghost use Rattle.dp_region.specs.Region.{IsRegionSize};
ghost use Rattle.dp_lpm.specs.Routes.{RouteTable, HasSmallHops};
ghost use Rattle.dp_load.specs.Pipelines.{HasNodes, IsFor, IsPlan, plan_with};

use crate::file_names::PortNames;
use dp_check::Checked;
use dp_lpm::Lpm;
use dp_model::Env;
use std::marker::Model;

/// A pipeline: its environment and tables, a checked program for each port and each ring, and the captures of its ports. Only [`load`](crate::load)
/// makes one.
#[derive(Drop)]
pub struct Pipeline {
    env: Env,
    region: u32,
    tables: Vec<Lpm>,
    nodes: Vec<Checked>,
    ports: Vec<PortNames>,
}

impl Model for Pipeline {
    ghost use Rattle.dp_load.specs.Pipelines.{Plan, IsPlan, plan_with};

    ghost Value = { Plan };

    ghost view = { λ a. plan_with a.env a.region a.tables.items a.nodes.items a.ports.items };

    ghost invariant = { λ a. IsPlan (plan_with a.env a.region a.tables.items a.nodes.items a.ports.items) };
}

impl Pipeline {
    /// Makes a pipeline of these parts: as many tables as the environment has, with no hop above `MAX_HOP`; a node for each port and then for each
    /// ring, each checked with the environment and its entry; and the names of each port's captures.
    pub(crate) fn new(
        region: u32,
        env: Env,
        tables: Vec<Lpm>,
        nodes: Vec<Checked>,
        ports: Vec<PortNames>,
    ) -> Pipeline
        requires limits { fault_of env ≡ None }
        requires region { IsRegionSize region }
        requires nodes { HasNodes env nodes.items }
        requires tables { length tables.items ≡ env.tables }
        requires hops { (k : ℕ) (t : RouteTable) → slice_get tables.items k ≡ Some t → HasSmallHops t }
        requires ports { length ports.items ≡ length env.ports }
        ensures { result ≡ plan_with env region tables.items nodes.items ports.items }
    {
        Pipeline {
            env,
            region,
            tables,
            nodes,
            ports,
        }
    }

    /// The environment for which its programs are checked.
    pub fn env(&self) -> &Env
        ensures same { result.now ≡ self.now.env }
        // The parts fit together.
        ensures plan { IsPlan self.now }
    {
        &self.env
    }

    /// The size of its region, in bytes.
    pub fn region(&self) -> u32
        ensures same { result ≡ self.now.region }
        // A multiple of 64 from 4,096 to 1,073,741,824.
        ensures size { IsRegionSize result }
    {
        self.region
    }

    /// Its tables with their routes: as many as its environment has.
    pub fn tables(&self) -> &[Lpm]
        ensures same { result.now ≡ self.now.tables }
        ensures plan { IsPlan self.now }
    {
        self.tables.as_slice()
    }

    /// The number of ports, 1 to 8.
    pub fn ports(&self) -> usize
        ensures { result ≡ length self.now.env.ports }
    {
        self.env.ports().len()
    }

    /// The number of rings, 0 to 8.
    pub fn rings(&self) -> usize
        ensures { result ≡ length self.now.env.rings }
    {
        self.env.rings().len()
    }

    /// The number of nodes: one for each port and one for each ring.
    pub fn nodes(&self) -> usize
        ensures count { result ≡ length self.now.nodes }
        ensures parts { result ≡ length self.now.env.ports + length self.now.env.rings }
    {
        self.nodes.len()
    }

    /// The checked program of a node: ports come first, then rings.
    pub fn node(&self, k: usize) -> &Checked
        requires { k < length self.now.env.ports + length self.now.env.rings }
        ensures node { slice_get self.now.nodes k ≡ Some result.now }
        ensures port { k < length self.now.env.ports → IsFor self.now.env (Port k) result.now }
        ensures ring { (ring : ℕ) → k ≡ length self.now.env.ports + ring → IsFor self.now.env (Ring ring) result.now }
    {
        &self.nodes[k]
    }

    /// The name of the capture that a port reads.
    pub fn input(&self, port: usize) -> &str
        requires { port < length self.now.env.ports }
        ensures { slice_get self.now.inputs port ≡ Some result.now }
    {
        self.ports[port].input.as_str()
    }

    /// The name of the capture that a port writes.
    pub fn output(&self, port: usize) -> &str
        requires { port < length self.now.env.ports }
        ensures { slice_get self.now.outputs port ≡ Some result.now }
    {
        self.ports[port].output.as_str()
    }

    /// Splits the pipeline into the parts that an engine takes.
    pub fn into_parts(self) -> (Env, Vec<Lpm>, Vec<Checked>)
        ensures env { result.0 ≡ self.env }
        ensures tables { result.1.items ≡ self.tables }
        ensures nodes { result.2.items ≡ self.nodes }
        ensures plan { IsPlan self }
    {
        let Pipeline {
            env,
            region: _,
            tables,
            nodes,
            ports: _,
        } = self;
        (env, tables, nodes)
    }
}
