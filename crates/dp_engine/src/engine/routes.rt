//! Routes of an engine's tables, which may change between turns.
ghost use Rattle.std.specs.Prelude.{◌≡◌, slice_get, option_and_then, IfErr, OnOk};
ghost use Rattle.dp_model.specs.Meaning.{TablesFit};
ghost use Rattle.dp_model.specs.Prefixes.{hop_for};
ghost use Rattle.dp_lpm.specs.Changes.{AddsRoute, DeletesRoute};
ghost use Rattle.dp_lpm.specs.Faults.{add_fault, delete_fault};
ghost use Rattle.dp_lpm.specs.Routes.{RouteTable};
ghost use Rattle.dp_engine.specs.Rerouting.{RefusesRoute, with_tables};

use crate::compiled_programs::CompiledPrograms;
use crate::engine::Engine;
use crate::rerouting::RouteFault;

impl<K: CompiledPrograms> Engine<K> {
    /// Adds a route to a table, or replaces the hop of its route of this prefix and depth, as [`Lpm::add`](dp_lpm::Lpm::add) does. The next turn has
    /// it. A refused call changes nothing.
    pub fn add_route(&mut self, table: u8, ip: u32, depth: u8, hop: u32) -> Result<(), RouteFault>
        ensures rest { self.new ≡ with_tables self.new.tables self.old }
        ensures fits { TablesFit self.new.setting }
        ensures ok { OnOk result (AddsRoute table ip depth hop self.old.tables self.new.tables) }
        ensures err { IfErr result (λ why. RefusesRoute (λ t. add_fault t ip depth hop) table self.old.tables why × (self.new ≡ self.old)) }
    {
        self.context.add_route(table, ip, depth, hop)
    }

    /// Deletes a route of a table, as [`Lpm::delete`](dp_lpm::Lpm::delete) does. The next turn is without it. A refused call changes nothing.
    pub fn delete_route(&mut self, table: u8, ip: u32, depth: u8) -> Result<(), RouteFault>
        ensures rest { self.new ≡ with_tables self.new.tables self.old }
        ensures fits { TablesFit self.new.setting }
        ensures ok { OnOk result (DeletesRoute table ip depth self.old.tables self.new.tables) }
        ensures err { IfErr result (λ why. RefusesRoute (λ t. delete_fault t ip depth) table self.old.tables why × (self.new ≡ self.old)) }
    {
        self.context.delete_route(table, ip, depth)
    }

    /// The hop of a table for an address, if the table exists and has a route for it.
    pub fn route(&self, table: u8, ip: u32) -> Option<u32>
        ensures { result ≡ option_and_then (λ (t : RouteTable). hop_for t.routes ip) (slice_get self.now.tables table) }
    {
        self.context.route(table, ip)
    }
}
