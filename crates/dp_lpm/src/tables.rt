//! Several tables, by number.

ghost use Rattle.std.specs.Prelude.{◌≡◌, ◌<◌, ◌≤◌, length, IfSome, Some, slice_get, option_map, IfErr, OnOk};
ghost use Rattle.std.specs.List.{AllByRecursion};
ghost use Rattle.dp_model.specs.Prefixes.{hop_for};
ghost use Rattle.dp_lpm.specs.Routes.{RouteTable, HasSmallHops};
ghost use Rattle.dp_lpm.specs.Faults.{add_fault, delete_fault};
ghost use Rattle.dp_lpm.specs.Changes.{HasTable, AddsRoute, DeletesRoute};

use crate::error::LpmError;
use crate::limits::{MAX_HOP, MAX_TABLES};
use crate::lpm::Lpm;
use crate::ruled_table::RuledTable;
use arrayvec::ArrayVec;
use std::alloc::Global;
use std::marker::Model;

/// At most [`MAX_TABLES`] tables, by number from 0.
#[derive(Drop)]
pub struct Tables {
    ruled: ArrayVec<RuledTable, MAX_TABLES, Global>,
}

impl Model for Tables {
    ghost use Rattle.std.specs.Prelude.{List, map};
    ghost use Rattle.std.specs.List.{AllByRecursion};
    ghost use Rattle.dp_lpm.specs.Kept.{IsKept, shown};
    ghost use Rattle.dp_lpm.specs.Routes.{RouteTable};

    ghost Value = { List RouteTable };

    ghost view = { λ a. map shown a.ruled.items };

    ghost invariant = { λ a. AllByRecursion IsKept a.ruled.items };
}

impl Tables {
    /// Takes ownership of these tables, in order. It takes no memory.
    pub fn of(tables: Vec<Lpm>) -> Tables
        requires few { length tables.items ≤ MAX_TABLES }
        ensures same { result ≡ tables.items }
        ensures hops { AllByRecursion HasSmallHops result }
    {
        let mut ruled = ArrayVec::new_in(*tables.allocator());
        for table in tables {
            ruled.push(table.into_ruled());
        }
        Tables { ruled }
    }

    /// Looks up an address in a table: the hop of the deepest rule whose prefix it begins with, if there is one. The table must exist.
    pub fn lookup(&self, table: u8, ip: u32) -> Option<u32>
        requires { table < length self.now }
        ensures value { option_map (λ (t : RouteTable). hop_for t.routes ip) (slice_get self.now table) ≡ Some result }
        ensures low { IfSome result (λ hop. hop ≤ MAX_HOP) }
    {
        self.ruled[usize::from(table)].lookup(ip)
    }

    /// The number of tables.
    pub fn count(&self) -> usize
        ensures { result ≡ length self.now }
    {
        self.ruled.len()
    }

    /// Adds a rule to a table, as [`Lpm::add`] does. The table must exist.
    pub fn add(&mut self, table: u8, ip: u32, depth: u8, hop: u32) -> Result<(), LpmError>
        requires { table < length self.old }
        ensures ok { OnOk result (AddsRoute table ip depth hop self.old self.new) }
        ensures err { IfErr result (λ e. HasTable table self.old (λ t. add_fault t ip depth hop ≡ Some e) × (self.new ≡ self.old)) }
        ensures hops { AllByRecursion HasSmallHops self.new }
        ensures many { length self.new ≡ length self.old }
    {
        self.ruled[usize::from(table)].add(ip, depth, hop)
    }

    /// Deletes a rule of a table, as [`Lpm::delete`] does. The table must exist.
    pub fn delete(&mut self, table: u8, ip: u32, depth: u8) -> Result<(), LpmError>
        requires { table < length self.old }
        ensures ok { OnOk result (DeletesRoute table ip depth self.old self.new) }
        ensures err { IfErr result (λ e. HasTable table self.old (λ t. delete_fault t ip depth ≡ Some e) × (self.new ≡ self.old)) }
        ensures hops { AllByRecursion HasSmallHops self.new }
        ensures many { length self.new ≡ length self.old }
    {
        self.ruled[usize::from(table)].delete(ip, depth)
    }
}
