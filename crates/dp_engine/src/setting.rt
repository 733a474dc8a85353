//! The setting of node runs, as it is one record in the definitions.
ghost use Rattle.std.specs.Prelude.{◌≡◌, ◌<◌, length, Some, IfErr, OnOk};
ghost use Rattle.std.specs.List.{AllByRecursion};
ghost use Rattle.dp_lpm.specs.Changes.{HasTable, AddsRoute, DeletesRoute};
ghost use Rattle.dp_lpm.specs.Faults.{add_fault, delete_fault};
ghost use Rattle.dp_lpm.specs.Routes.{HasSmallHops};

use dp_lpm::{LpmError, Tables};
use dp_model::Env;
use std::marker::Model;

/// What does not change during a node run: the environment, the tables, and the numbers of the calls to refuse.
#[derive(Drop)]
pub struct Setting {
    pub(crate) env: Env,
    pub(crate) tables: Tables,
    pub(crate) pattern: Vec<u64>,
}

impl Model for Setting {
    ghost use Rattle.dp_engine.specs.Steps.{SettingParts};

    ghost Value = { SettingParts };

    ghost view = { λ s. record { env = s.env; tables = s.tables; pattern = s.pattern.items } };
}

impl Setting {
    // The environment.
    #[inline(always)]
    pub(crate) fn env(&self) -> &Env
        ensures { result.now ≡ self.now.env }
    {
        &self.env
    }

    // The tables.
    #[inline(always)]
    pub(crate) fn tables(&self) -> &Tables
        ensures { result.now ≡ self.now.tables }
    {
        &self.tables
    }

    // The numbers of the calls to refuse.
    #[inline(always)]
    pub(crate) fn pattern(&self) -> &[u64]
        ensures { result.now ≡ self.now.pattern }
    {
        self.pattern.as_slice()
    }

    // Adds a route to a table. The table must exist.
    pub(crate) fn add_route(
        &mut self,
        table: u8,
        ip: u32,
        depth: u8,
        hop: u32,
    ) -> Result<(), LpmError>
        requires { table < length self.old.tables }
        ensures kept { self.new ≡ record self.old { tables = self.new.tables } }
        ensures ok { OnOk result (AddsRoute table ip depth hop self.old.tables self.new.tables) }
        ensures err { IfErr result (λ e. HasTable table self.old.tables (λ t. add_fault t ip depth hop ≡ Some e) × (self.new ≡ self.old)) }
        ensures hops { AllByRecursion HasSmallHops self.new.tables }
        ensures many { length self.new.tables ≡ length self.old.tables }
    {
        self.tables.add(table, ip, depth, hop)
    }

    // Deletes a route of a table. The table must exist.
    pub(crate) fn delete_route(&mut self, table: u8, ip: u32, depth: u8) -> Result<(), LpmError>
        requires { table < length self.old.tables }
        ensures kept { self.new ≡ record self.old { tables = self.new.tables } }
        ensures ok { OnOk result (DeletesRoute table ip depth self.old.tables self.new.tables) }
        ensures err { IfErr result (λ e. HasTable table self.old.tables (λ t. delete_fault t ip depth ≡ Some e) × (self.new ≡ self.old)) }
        ensures hops { AllByRecursion HasSmallHops self.new.tables }
        ensures many { length self.new.tables ≡ length self.old.tables }
    {
        self.tables.delete(table, ip, depth)
    }
}
