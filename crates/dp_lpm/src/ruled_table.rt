//! The rules of a table together with the entries that follow from them.

ghost use Rattle.std.specs.Prelude.{◌≡◌, ℕ, ◌<◌, ◌≤◌, [], length, Some, None, IfOk, IfSome, OnOk, OnErr, IfErr};
ghost use Rattle.dp_model.specs.Prefixes.{hop_for, LooksUp};
ghost use Rattle.dp_lpm.specs.Faults.{add_fault, delete_fault, added};

use crate::cell::{Cell, TableEntry};
use crate::error::{LpmError, Memory};
use crate::limits::{FIRST_BITS, GROUP_ENTRIES, MAX_DEPTH, MAX_GROUPS, MAX_HOP, MAX_RULES};
use crate::rule::{Rule, entry_within, insert, prefix_of, remove, search};
use crate::table::Table;
use std::alloc::Global;
use std::default::MadeWith;

/// The rules in order, and the entries that follow from them.
#[derive(Drop)]
pub struct RuledTable {
    pub rules: Vec<Rule>,
    pub table: Table,
    pub max_rules: u32,
}

impl MadeWith<Global> for RuledTable {
    ghost use Rattle.dp_lpm.specs.Kept.{KeepsNothing};

    ghost is_made_with = { KeepsNothing };

    // A table for a free slot: no rules, no entries, and no memory.
    fn made_with(alloc: Global) -> RuledTable {
        RuledTable {
            rules: Vec::new(alloc),
            table: Table::made_with(alloc),
            max_rules: 0,
        }
    }
}

impl RuledTable {
    ghost use Rattle.std.specs.Prelude.{◌+◌, ◌-◌, ◌/◌, ◌^◌, MatchResult};
    ghost use Rattle.dp_lpm.specs.Cells.{IsStorable, group_in};
    ghost use Rattle.dp_lpm.specs.Faults.{route_fault, new_fault};
    ghost use Rattle.dp_lpm.specs.Kept.{IsKept, TakesIn, TakesOut, routes_in, shown};
    ghost use Rattle.dp_lpm.specs.Routes.{IsRoute, IsTableOfRoutes, Puts, Drops, prefix_of};
    ghost use Rattle.dp_lpm.specs.Rules.{route_of, IsFound, IsMissing};
    ghost use Rattle.dp_lpm.specs.Tables.{IsTable, group_at, start_of, Overwritten};

    /// A table without rules. It takes all its memory here.
    pub fn new(alloc: Global, max_rules: u32, groups: u32) -> Result<RuledTable, Memory>
        requires rules { max_rules ≤ MAX_RULES }
        requires groups { groups ≤ MAX_GROUPS }
        ensures kept { IfOk result IsKept }
        ensures shown { IfOk result (λ s. shown s ≡ record { routes = []; max_rules = max_rules; groups = groups }) }
    {
        let table = Table::new(alloc, groups)?;
        let Ok(rules) = Vec::with_capacity(alloc, max_rules as usize) else {
            return Err(Memory);
        };
        Ok(RuledTable {
            rules,
            table,
            max_rules,
        })
    }

    /// The hop of the deepest rule for the address.
    pub fn lookup(&self, ip: u32) -> Option<u32>
        requires { IsKept self.now }
        ensures value { result ≡ hop_for (routes_in self.now) ip }
        ensures deepest { LooksUp (routes_in self.now) ip result }
        ensures low { IfSome result (λ hop. hop ≤ MAX_HOP) }
    {
        match self.table.entry_for(ip) {
            TableEntry::Hop { hop, .. } => Some(hop),
            _ => None,
        }
    }

    /// The number of rules.
    pub fn len(&self) -> usize
        requires { IsKept self.now }
        ensures len { result ≡ length (routes_in self.now) }
        ensures table { IsTableOfRoutes (shown self.now) }
    {
        self.rules.len()
    }

    /// Overwrites the entries of a prefix that are no deeper than the rule.
    fn overwrite_shallower(&mut self, ip: u32, depth: u8, to: TableEntry)
        requires table { IsTable self.old.table }
        requires some { 1 ≤ depth }
        requires most { depth ≤ MAX_DEPTH }
        requires deep { FIRST_BITS < depth → (g : ℕ) × (group_at self.old.table (ip / GROUP_ENTRIES) ≡ Some g) }
        requires storable { IsStorable to }
        requires leaf { group_in to ≡ None }
        ensures overwritten { Overwritten (start_of ip depth) (2 ^ (MAX_DEPTH - depth)) depth to self.old.table self.new.table }
        ensures rules { self.new.rules ≡ self.old.rules }
        ensures max_rules { self.new.max_rules ≡ self.old.max_rules }
    {
        let size = 1 << (MAX_DEPTH - depth);
        self.table
            .overwrite_shallower(ip - ip % size, size, depth, Cell::of(to));
    }

    /// Inserts a rule at a known index, if there is room for it and for its group.
    fn put(&mut self, index: usize, rule: Rule) -> Result<(), LpmError>
        requires kept { IsKept self.old }
        requires rule { IsRoute (route_of rule) }
        requires index { IsMissing self.old.rules.items rule.depth rule.prefix index }
        ensures { MatchResult result (λ _. TakesIn self.old self.new (route_of rule) × (new_fault (shown self.old) (route_of rule) ≡ None))
            (λ e. (new_fault (shown self.old) (route_of rule) ≡ Some e) × (self.new ≡ self.old)) }
    {
        if self.rules.len() >= self.max_rules as usize {
            return Err(LpmError::RulesFull);
        }
        if rule.depth > FIRST_BITS
            && !self
                .table
                .open((rule.prefix >> (rule.depth - FIRST_BITS)) as usize)
        {
            return Err(LpmError::GroupsFull);
        }
        insert(&mut self.rules, index, rule);
        Ok(())
    }

    /// Inserts a rule, or replaces the one of its prefix and depth.
    fn take_in(&mut self, rule: Rule) -> Result<(), LpmError>
        requires kept { IsKept self.old }
        requires rule { IsRoute (route_of rule) }
        ensures { MatchResult result (λ _. TakesIn self.old self.new (route_of rule) × (route_fault (shown self.old) (route_of rule) ≡ None))
            (λ e. (route_fault (shown self.old) (route_of rule) ≡ Some e) × (self.new ≡ self.old)) }
    {
        match search(&self.rules, rule.depth, rule.prefix) {
            Ok(index) => {
                self.rules[index] = rule;
                Ok(())
            }
            Err(index) => self.put(index, rule),
        }
    }

    /// Removes the rule at an index, and gives the entries of its prefix to the next shallower rule.
    fn take_out(&mut self, index: usize, ip: u32, depth: u8)
        requires kept { IsKept self.old }
        requires some { 1 ≤ depth }
        requires most { depth ≤ MAX_DEPTH }
        requires found { IsFound self.old.rules.items depth (prefix_of ip depth) index }
        ensures { TakesOut self.old self.new ip depth }
    {
        let next = entry_within(&self.rules, ip, depth - 1);
        remove(&mut self.rules, index);
        self.overwrite_shallower(ip, depth, next);
    }

    /// Adds a rule, or replaces the hop of the rule of this prefix and depth.
    pub fn add(&mut self, ip: u32, depth: u8, hop: u32) -> Result<(), LpmError>
        requires { IsKept self.old }
        ensures kept { IsKept self.new }
        ensures ok { OnOk result (Puts (shown self.old) (shown self.new) (added ip depth hop) × (add_fault (shown self.old) ip depth hop ≡ None)) }
        ensures err { IfErr result (λ e. (add_fault (shown self.old) ip depth hop ≡ Some e) × (self.new ≡ self.old)) }
    {
        if depth < 1 || depth > MAX_DEPTH {
            return Err(LpmError::BadDepth);
        }
        if hop > MAX_HOP {
            return Err(LpmError::BadHop);
        }
        self.take_in(Rule {
            prefix: prefix_of(ip, depth),
            depth,
            hop,
        })?;
        self.overwrite_shallower(ip, depth, TableEntry::Hop { hop, depth });
        Ok(())
    }

    /// Deletes a rule.
    pub fn delete(&mut self, ip: u32, depth: u8) -> Result<(), LpmError>
        requires { IsKept self.old }
        ensures kept { IsKept self.new }
        ensures ok { OnOk result (Drops (shown self.old) (shown self.new) (prefix_of ip depth) depth × (delete_fault (shown self.old) ip depth ≡ None)) }
        ensures err { IfErr result (λ e. (delete_fault (shown self.old) ip depth ≡ Some e) × (self.new ≡ self.old)) }
    {
        if depth < 1 || depth > MAX_DEPTH {
            return Err(LpmError::BadDepth);
        }
        let Ok(index) = search(&self.rules, depth, prefix_of(ip, depth)) else {
            return Err(LpmError::NoRule);
        };
        self.take_out(index, ip, depth);
        if depth > FIRST_BITS {
            self.table.close(ip as usize / GROUP_ENTRIES);
        }
        Ok(())
    }
}
