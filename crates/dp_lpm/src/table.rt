//! The entries for all addresses: one for each value of the first 24 bits, and groups of 256 where one is not enough.

ghost use Rattle.std.specs.Prelude.{◌≡◌, ℕ, ◌+◌, ◌*◌, ◌/◌, ◌==◌, ◌<◌, ◌≤◌, length, replicate, vec_capacity, slice_index, position, IfOk, MatchBool};
ghost use Rattle.dp_lpm.specs.Cells.{entry_in, group_in};

use crate::cell::{Cell, TableEntry, fill, overwrite_shallower};
use crate::error::Memory;
use crate::limits::{FIRST_ENTRIES, GROUP_ENTRIES, MAX_DEPTH, MAX_GROUPS, MAX_RULES};
use std::alloc::Global;
use std::default::MadeWith;

/// The entries of both levels, and for each group how many rules deeper than 24 bits it has. A group with none is free.
#[derive(Drop)]
pub struct Table {
    pub first: Vec<Cell>,
    pub cells: Vec<Cell>,
    pub counts: Vec<u32>,
}

impl MadeWith<Global> for Table {
    ghost use Rattle.dp_lpm.specs.Tables.{IsNoTable};

    ghost is_made_with = { IsNoTable };

    // A table for a free slot: no entries, and no memory.
    fn made_with(alloc: Global) -> Table {
        Table {
            first: Vec::new(alloc),
            cells: Vec::new(alloc),
            counts: Vec::new(alloc),
        }
    }
}

impl Table {
    ghost use Rattle.dp_lpm.specs.Tables.{IsTable, group_at, entry_for, IsEven, Overwritten, Opened, IsFull, CanClose, Closed, IsEmptyTable};

    /// A table without rules, with this many groups. It takes all its memory here.
    pub fn new(alloc: Global, groups: u32) -> Result<Table, Memory>
        requires { groups ≤ MAX_GROUPS }
        ensures { IfOk result (λ t. IsEmptyTable groups t) }
    {
        let empty = Cell::of(TableEntry::Empty);
        Ok(Table {
            first: filled(alloc, empty, FIRST_ENTRIES)?,
            cells: filled(alloc, empty, GROUP_ENTRIES * groups as usize)?,
            counts: filled(alloc, 0, groups as usize)?,
        })
    }

    /// The entry for an address, after one or two reads.
    pub fn entry_for(&self, ip: u32) -> TableEntry
        requires { IsTable self.now }
        ensures { result ≡ entry_for self.now ip }
    {
        let entry = self.first[ip as usize / GROUP_ENTRIES].entry();
        match entry {
            TableEntry::Group(group) => self.cells[usize::from(group) * GROUP_ENTRIES
                + ip as usize % GROUP_ENTRIES].entry(),
            _ => entry,
        }
    }

    /// Overwrites `count` entries, from `low`, of the addresses with these first 24 bits, except those deeper than `depth`.
    fn overwrite_within(&mut self, first: usize, low: usize, count: usize, depth: u8, to: Cell)
        requires table { IsTable self.old }
        requires there { first < FIRST_ENTRIES }
        requires order { low + count ≤ GROUP_ENTRIES }
        requires whole { group_at self.old first ≡ None → (low ≡ 0) × (count ≡ GROUP_ENTRIES) }
        requires depth { depth ≤ MAX_DEPTH }
        requires to { group_in (entry_in to) ≡ None }
        ensures { Overwritten (first * GROUP_ENTRIES + low) count depth (entry_in to) self.old self.new }
    {
        match self.first[first].entry() {
            TableEntry::Group(group) => {
                let from = usize::from(group) * GROUP_ENTRIES + low;
                overwrite_shallower(&mut self.cells, from, from + count, depth, to);
            }
            _ => overwrite_shallower(&mut self.first, first, first + 1, depth, to),
        }
    }

    /// Overwrites the entries of `size` addresses from `start`, except those deeper than `depth`.
    pub fn overwrite_shallower(&mut self, start: u32, size: u32, depth: u8, to: Cell)
        requires table { IsTable self.old }
        requires range { IsEven start size }
        requires part { size < GROUP_ENTRIES → (g : ℕ) × (group_at self.old (start / GROUP_ENTRIES) ≡ Some g) }
        requires depth { depth ≤ MAX_DEPTH }
        requires to { group_in (entry_in to) ≡ None }
        ensures { Overwritten start size depth (entry_in to) self.old self.new }
    {
        let first = start as usize / GROUP_ENTRIES;
        if (size as usize) < GROUP_ENTRIES {
            self.overwrite_within(
                first,
                start as usize % GROUP_ENTRIES,
                size as usize,
                depth,
                to,
            );
            return;
        }
        for k in 0..size as usize / GROUP_ENTRIES {
            self.overwrite_within(first + k, 0, GROUP_ENTRIES, depth, to);
        }
    }

    /// Counts one more rule in the group of these first 24 bits, and gives them a free group if they have none. No address's entry changes.
    /// Returns `false` if no group is free.
    pub fn open(&mut self, first: usize) -> bool
        requires table { IsTable self.old }
        requires there { first < FIRST_ENTRIES }
        requires room { (g : ℕ) → group_at self.old first ≡ Some g → slice_index self.old.counts.items g < MAX_RULES }
        ensures { MatchBool result (Opened first self.old self.new) (IsFull first self.old self.new) }
    {
        let cell = self.first[first];
        if let TableEntry::Group(group) = cell.entry() {
            self.counts[usize::from(group)] += 1;
            return true;
        }
        let Some(group) = free_group(&self.counts) else {
            return false;
        };
        let start = group * GROUP_ENTRIES;
        fill(&mut self.cells, start, start + GROUP_ENTRIES, cell);
        self.first[first] = Cell::of(TableEntry::Group(group as u8));
        self.counts[group] = 1;
        true
    }

    /// Counts one rule fewer in the group of these first 24 bits, and frees the group if none is left. No address's entry changes.
    pub fn close(&mut self, first: usize)
        requires table { IsTable self.old }
        requires can { CanClose first self.old }
        ensures { Closed first self.old self.new }
    {
        if let TableEntry::Group(group) = self.first[first].entry() {
            let group = usize::from(group);
            self.counts[group] -= 1;
            if self.counts[group] == 0 {
                self.first[first] = self.cells[group * GROUP_ENTRIES];
            }
        }
    }
}

/// A list of `count` equal elements, with no room for more.
fn filled<T: Copy>(alloc: Global, element: T, count: usize) -> Result<Vec<T>, Memory>
    ensures items { IfOk result (λ v. v.items ≡ replicate count element) }
    ensures room { IfOk result (λ v. vec_capacity v ≡ count) }
{
    let Ok(mut list) = Vec::with_capacity(alloc, count) else {
        return Err(Memory);
    };
    for _ in 0..count {
        list.push_reserved(element);
    }
    Ok(list)
}

/// The first free group.
fn free_group(counts: &[u32]) -> Option<usize>
    ensures { result ≡ position (λ n. n == 0) counts.now }
{
    counts.iter().position(|&count| count == 0)
}
