//! The public calls of a table.

ghost use Rattle.std.specs.Prelude.{◌≡◌, ◌≤◌, [], length, IsTrue, ◌↔◌, None, Some, IfOk, IfSome, OnOk, OnErr, IfErr};
ghost use Rattle.dp_model.specs.Prefixes.{hop_for, LooksUp};
ghost use Rattle.dp_lpm.specs.Routes.{prefix_of, IsTableOfRoutes, HasSmallHops, Puts, Drops};
ghost use Rattle.dp_lpm.specs.Faults.{added, add_fault, delete_fault};

use crate::error::{LpmError, Memory};
use crate::limits::{MAX_GROUPS, MAX_HOP, MAX_RULES};
use crate::ruled_table::RuledTable;
use std::alloc::Global;
use std::marker::Model;

/// A set of rules, at most one for each prefix and depth. An address goes to the hop of the deepest rule whose prefix it begins with (DPDK
/// Programmer's Guide, LPM library). `new` takes all memory.
#[derive(Drop)]
pub struct Lpm {
    ruled: RuledTable,
}

impl Model for Lpm {
    ghost use Rattle.dp_lpm.specs.Routes.{RouteTable};

    ghost Value = { RouteTable };

    ghost use Rattle.dp_lpm.specs.Kept.{IsKept, shown};

    ghost view = { λ a. shown a.ruled };

    ghost invariant = { λ a. IsKept a.ruled };
}

impl Lpm {
    ghost use Rattle.dp_lpm.specs.Kept.{IsKept, shown};

    /// Makes a table without rules, for at most `max_rules` rules (at most `MAX_RULES`) and at most `groups` prefixes of 24 bits with rules
    /// deeper than 24 (at most `MAX_GROUPS`). Returns `Memory` if the allocator refuses.
    pub fn new(alloc: Global, max_rules: u32, groups: u32) -> Result<Lpm, Memory>
        requires rules { max_rules ≤ MAX_RULES }
        requires groups { groups ≤ MAX_GROUPS }
        ensures empty { IfOk result (λ t. t ≡ record { routes = []; max_rules = max_rules; groups = groups }) }
        ensures table { IfOk result IsTableOfRoutes }
        ensures hops { IfOk result HasSmallHops }
    {
        Ok(Lpm {
            ruled: RuledTable::new(alloc, max_rules, groups)?,
        })
    }

    /// Adds a rule, or replaces the hop of the rule of this prefix and depth. Bits of `ip` below the depth are ignored.
    ///
    /// # Errors
    ///
    /// The first that applies of `BadDepth` (not 1 to 32) and `BadHop` (above `MAX_HOP`) and, for a new rule, of `RulesFull`
    /// and `GroupsFull`. Nothing changes then.
    pub fn add(&mut self, ip: u32, depth: u8, hop: u32) -> Result<(), LpmError>
        ensures puts { OnOk result (Puts self.old self.new (added ip depth hop)) }
        ensures ok { OnOk result (add_fault self.old ip depth hop ≡ None) }
        ensures fault { IfErr result (λ e. add_fault self.old ip depth hop ≡ Some e) }
        ensures err { OnErr result (self.new ≡ self.old) }
        ensures table { IsTableOfRoutes self.new }
        ensures hops { HasSmallHops self.new }
    {
        self.ruled.add(ip, depth, hop)
    }

    /// Deletes a rule. Bits of `ip` below the depth are ignored.
    ///
    /// # Errors
    ///
    /// `BadDepth` if the depth is not 1 to 32, else `NoRule` if there is no such rule. Nothing changes then.
    pub fn delete(&mut self, ip: u32, depth: u8) -> Result<(), LpmError>
        ensures drops { OnOk result (Drops self.old self.new (prefix_of ip depth) depth) }
        ensures ok { OnOk result (delete_fault self.old ip depth ≡ None) }
        ensures fault { IfErr result (λ e. delete_fault self.old ip depth ≡ Some e) }
        ensures err { OnErr result (self.new ≡ self.old) }
        ensures table { IsTableOfRoutes self.new }
        ensures hops { HasSmallHops self.new }
    {
        self.ruled.delete(ip, depth)
    }

    /// The hop of the deepest rule whose prefix the address begins with, if there is one. It is at most `MAX_HOP`.
    pub fn lookup(&self, ip: u32) -> Option<u32>
        ensures value { result ≡ hop_for self.now.routes ip }
        ensures deepest { LooksUp self.now.routes ip result }
        ensures low { IfSome result (λ hop. hop ≤ MAX_HOP) }
    {
        self.ruled.lookup(ip)
    }

    /// The number of rules.
    pub fn len(&self) -> usize
        ensures len { result ≡ length self.now.routes }
        ensures table { IsTableOfRoutes self.now }
        ensures hops { HasSmallHops self.now }
    {
        self.ruled.len()
    }

    // Splits off the rules and entries, for `Tables`.
    pub(crate) fn into_ruled(self) -> RuledTable
        ensures kept { IsKept result }
        ensures shown { shown result ≡ self }
    {
        let Lpm { ruled } = self;
        ruled
    }

    /// Whether there are no rules.
    pub fn is_empty(&self) -> bool
        ensures { IsTrue result ↔ (self.now.routes ≡ []) }
    {
        self.len() == 0
    }
}
