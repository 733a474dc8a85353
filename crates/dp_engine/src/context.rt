//! The read-only context of node runs: an environment, its tables, a checked program for each port and each ring, and the pattern of refused calls.
ghost use Rattle.std.specs.Prelude.{◌≡◌, ◌+◌, ◌<◌, ◌≤◌, [], drop, length, slice_get, option_and_then, take, Some, IfErr, OnOk};
ghost use Rattle.std.specs.List.{AllByRecursion};
ghost use Rattle.dp_check.specs.Faults.{IsChecked};
ghost use Rattle.dp_lang.specs.Programs.{IsProgram};
ghost use Rattle.dp_model.specs.Safety.{IsPipeline, KeepsSafe};
ghost use Rattle.dp_model.specs.Meaning.{TablesFit};
ghost use Rattle.dp_model.specs.Prefixes.{hop_for};
ghost use Rattle.dp_lpm.specs.Changes.{AddsRoute, DeletesRoute};
ghost use Rattle.dp_lpm.specs.Faults.{add_fault, delete_fault};
ghost use Rattle.dp_lpm.specs.Routes.{RouteTable};
ghost use Rattle.dp_engine.specs.Rerouting.{RefusesRoute, IsRetabled};
ghost use Rattle.dp_engine.specs.Schemes.{scheme_of, programs_of, AreNodes};
ghost use Rattle.dp_engine.specs.Steps.{setting_in};

use crate::compiled_programs::CompiledPrograms;
use crate::node::Node;
use crate::rerouting::RouteFault;
use crate::setting::Setting;
use arrayvec::ArrayVec;
use dp_check::Checked;
use dp_lpm::{Lpm, Tables};
use dp_model::{Env, pipelines_keep_safe};
use std::alloc::Global;
use std::marker::Model;

// The programs of the ports or of the rings.
type Programs<K> = ArrayVec<Node<K>, 8, Global>;

/// The read-only context of node runs.
#[derive(Drop)]
pub(crate) struct Context<K: CompiledPrograms> {
    setting: Setting,
    ports: Programs<K>,
    rings: Programs<K>,
}

impl<K: CompiledPrograms> Model for Context<K> {
    ghost use Rattle.dp_engine.specs.Schemes.{Scheme, scheme_in, IsScheme};

    ghost Value = { Scheme };

    ghost view = { λ p. scheme_in p.setting.env p.setting.tables p.ports.items p.rings.items p.setting.pattern };

    ghost invariant = { λ p. IsScheme (scheme_in p.setting.env p.setting.tables p.ports.items p.rings.items p.setting.pattern) };
}

// Splits the programs into those of the ports, which come first, and those of the rings.
fn parted<K: CompiledPrograms>(nodes: Vec<Checked>, ports: usize) -> (Programs<K>, Programs<K>)
    requires ports { ports ≤ 8 }
    requires rings { length nodes.items ≤ ports + 8 }
    ensures ports { result.0.items ≡ take ports (programs_of nodes.items) }
    ensures rings { result.1.items ≡ drop ports (programs_of nodes.items) }
    ensures checked { AllByRecursion IsChecked nodes.items }
{
    let alloc = *nodes.allocator();
    let mut of_ports = ArrayVec::new_in(alloc);
    let mut of_rings = ArrayVec::new_in(alloc);
    for node in nodes {
        let program = Node::new(node.into_program().into_instrs());
        if of_ports.len() < ports {
            of_ports.push(program);
        } else {
            of_rings.push(program);
        }
    }
    (of_ports, of_rings)
}

impl<K: CompiledPrograms> Context<K> {
    // A context in which no call is refused.
    pub(crate) fn new(env: &Env, tables: Vec<Lpm>, nodes: Vec<Checked>) -> Context<K>
        requires tables { length tables.items ≡ env.now.tables }
        requires nodes { AreNodes env.now nodes.items }
        ensures context { result ≡ scheme_of env.now tables.items nodes.items [] }
        ensures pipeline { IsPipeline result.setting result.nodes }
        ensures tables { TablesFit result.setting }
    {
        let env = env.copy();
        let pattern = Vec::new(*nodes.allocator());
        let (ports, rings) = parted(nodes, env.ports().len());
        let setting = Setting {
            env,
            tables: Tables::of(tables),
            pattern,
        };
        Context {
            setting,
            ports,
            rings,
        }
    }

    // Sets the pattern of calls to refuse.
    pub(crate) fn refuse(&mut self, pattern: Vec<u64>)
        ensures { self.new ≡ record self.old { setting = record self.old.setting { pattern = pattern.items } } }
    {
        self.setting.pattern = pattern;
    }

    // The setting of node runs. The contract of this call says what holds of every context.
    #[inline(always)]
    pub(crate) fn setting(&self) -> &Setting
        ensures same { setting_in result.now ≡ self.now.setting }
        ensures pipeline { IsPipeline self.now.setting self.now.nodes }
        ensures safe { KeepsSafe self.now.setting self.now.nodes }
        ensures tables { TablesFit self.now.setting }
    {
        pipelines_keep_safe();
        &self.setting
    }

    // The environment.
    pub(crate) fn env(&self) -> &Env
        ensures same { result.now ≡ self.now.setting.env }
    {
        self.setting.env()
    }

    // The pattern: the numbers of the calls to refuse.
    pub(crate) fn pattern(&self) -> &[u64]
        ensures { result.now ≡ self.now.setting.pattern }
    {
        self.setting.pattern()
    }

    // The program of a port.
    pub(crate) fn port_program(&self, port: u8) -> &Node<K>
        requires { port < length self.now.setting.env.ports }
        ensures same { slice_get self.now.nodes.ports port ≡ Some result.now }
        ensures program { IsProgram result.now }
    {
        &self.ports[usize::from(port)]
    }

    // The program of a ring.
    pub(crate) fn ring_program(&self, ring: u8) -> &Node<K>
        requires { ring < length self.now.setting.env.rings }
        ensures same { slice_get self.now.nodes.rings ring ≡ Some result.now }
        ensures program { IsProgram result.now }
    {
        &self.rings[usize::from(ring)]
    }

    // Adds a route to a table.
    pub(crate) fn add_route(
        &mut self,
        table: u8,
        ip: u32,
        depth: u8,
        hop: u32,
    ) -> Result<(), RouteFault>
        ensures kept { IsRetabled self.old self.new }
        ensures ok { OnOk result (AddsRoute table ip depth hop self.old.tables self.new.tables) }
        ensures err { IfErr result (λ why. RefusesRoute (λ t. add_fault t ip depth hop) table self.old.tables why × (self.new ≡ self.old)) }
    {
        if usize::from(table) >= self.setting.tables().count() {
            return Err(RouteFault::NoTable);
        }
        match self.setting.add_route(table, ip, depth, hop) {
            Ok(()) => Ok(()),
            Err(error) => Err(RouteFault::Refused(error)),
        }
    }

    // Deletes a route of a table.
    pub(crate) fn delete_route(&mut self, table: u8, ip: u32, depth: u8) -> Result<(), RouteFault>
        ensures kept { IsRetabled self.old self.new }
        ensures ok { OnOk result (DeletesRoute table ip depth self.old.tables self.new.tables) }
        ensures err { IfErr result (λ why. RefusesRoute (λ t. delete_fault t ip depth) table self.old.tables why × (self.new ≡ self.old)) }
    {
        if usize::from(table) >= self.setting.tables().count() {
            return Err(RouteFault::NoTable);
        }
        match self.setting.delete_route(table, ip, depth) {
            Ok(()) => Ok(()),
            Err(error) => Err(RouteFault::Refused(error)),
        }
    }

    // The hop of a table for an address, if the table exists.
    pub(crate) fn route(&self, table: u8, ip: u32) -> Option<u32>
        ensures { result ≡ option_and_then (λ (t : RouteTable). hop_for t.routes ip) (slice_get self.now.tables table) }
    {
        if usize::from(table) >= self.setting.tables().count() {
            return None;
        }
        self.setting.tables().lookup(table, ip)
    }
}
