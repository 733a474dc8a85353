//! The entries of a table, of four bytes each.

ghost use Rattle.std.specs.Prelude.{◌≡◌, ℕ, ◌/◌, ◌<◌, ◌≤◌, length, slice_index_or};
ghost use Rattle.dp_lpm.specs.Cells.{entry_in, IsStorable, at, overwritten};

use crate::limits::{FIRST_GROUP, GROUP_DEPTH, HOPS, MAX_DEPTH, MAX_GROUPS};

/// What an entry says about its addresses.
#[derive(Clone, Copy)]
pub enum TableEntry {
    /// No rule matches them.
    Empty,
    /// The deepest rule that matches them has this hop and depth.
    Hop { hop: u32, depth: u8 },
    /// Each has an entry of its own in this group.
    Group(u8),
}

/// An entry in four bytes: 0 if it is empty; else a hop or a group in the lower three, and the depth, or 255 for a group, in the highest.
#[derive(Clone, Copy)]
pub struct Cell {
    pub bits: u32,
}

impl Cell {
    /// Encodes an entry.
    pub fn of(entry: TableEntry) -> Cell
        requires { IsStorable entry }
        ensures { entry_in result ≡ entry }
    {
        let bits = match entry {
            TableEntry::Empty => 0,
            TableEntry::Hop { hop, depth } => u32::from(depth) * HOPS + hop,
            TableEntry::Group(group) => GROUP_DEPTH * HOPS + u32::from(group),
        };
        Cell { bits }
    }

    /// Decodes the entry.
    pub fn entry(self) -> TableEntry
        ensures { result ≡ entry_in self }
    {
        if self.bits != 0 && self.bits < FIRST_GROUP {
            return TableEntry::Hop {
                hop: self.bits % HOPS,
                depth: (self.bits / HOPS) as u8,
            };
        }
        if self.bits == 0 {
            return TableEntry::Empty;
        }
        TableEntry::Group((self.bits % MAX_GROUPS) as u8)
    }

    /// The depth of the entry's rule; 0 if it is empty, and at least 128 for a group.
    pub fn depth(self) -> u8
        ensures { result ≡ self.bits / HOPS }
    {
        (self.bits / HOPS) as u8
    }
}

/// Overwrites the entries from `from` up to `end` that are no deeper than `depth`.
pub fn overwrite_shallower(cells: &mut [Cell], from: usize, end: usize, depth: u8, to: Cell)
    requires order { from ≤ end }
    requires there { end ≤ length cells.old }
    requires depth { depth ≤ MAX_DEPTH }
    ensures len { length cells.new ≡ length cells.old }
    ensures inside { (k : ℕ) → from ≤ k → k < end → at cells.new k ≡ overwritten depth (entry_in to) (at cells.old k) }
    ensures below { (k : ℕ) → k < from → at cells.new k ≡ at cells.old k }
    ensures above { (k : ℕ) → end ≤ k → at cells.new k ≡ at cells.old k }
{
    for k in from..end {
        if cells[k].depth() <= depth {
            cells[k] = to;
        }
    }
}

/// Overwrites all entries from `from` up to `end`.
pub fn fill(cells: &mut [Cell], from: usize, end: usize, to: Cell)
    requires order { from ≤ end }
    requires there { end ≤ length cells.old }
    ensures len { length cells.new ≡ length cells.old }
    ensures inside { (k : ℕ) → from ≤ k → k < end → at cells.new k ≡ entry_in to }
    ensures below { (k : ℕ) → k < from → at cells.new k ≡ at cells.old k }
    ensures above { (k : ℕ) → end ≤ k → at cells.new k ≡ at cells.old k }
{
    cells[from..end].fill(to);
}
