//! A ring over a zone: its slots, and the calls that put entries in and take them out.

ghost use Rattle.std.specs.Prelude.{◌≡◌, ℕ, ◌+◌, ◌-◌, ◌*◌, ◌<◌, ◌≤◌, ◌⊎◌, ◌++◌, [], ◌∷◌, length, take, drop, min, nat_lt, nat_le, if◌then◌else◌, slice_get};
ghost use Rattle.std.specs.Prelude.{Some, None, MatchOption, ◌==◌};
ghost use Rattle.std.specs.List.{list_any};
ghost use Rattle.dp_ring.specs.Rings.{max_slots, IsCount, empty_over, room_in, with_more, without_first, slot_after, next_slot};

use crate::runs::{load_one, load_run, store_one, store_run};
use dp_zone::Zone;
use std::marker::Model;

/// A ring of `count` slots, from 2 to 65,536, of which one stays unused. It lies in a zone of at least 4 bytes for each slot; `into_zone` returns
/// the zone.
pub struct Ring {
    zone: Zone,
    count: u32,
    // The slot of the first entry.
    first: u32,
    // The number of entries.
    used: u32,
}

impl Model for Ring {
    ghost use Rattle.std.specs.Prelude.{◌*◌, ◌<◌, ◌≤◌, length};
    ghost use Rattle.std.specs.List.{list_any};
    ghost use Rattle.dp_ring.specs.Rings.{max_slots, RingView, ring_code, entries_from};

    ghost Value = { RingView };

    ghost coded = { ring_code };

    ghost view = { λ r. record {
      count = r.count;
      entries = entries_from r.zone.bytes r.count r.first r.used;
      name = r.zone.name;
      home = r.zone.home;
      offset = r.zone.offset;
      len = length r.zone.bytes;
    } };

    ghost invariant = { λ r. (r.first < r.count) × (r.used < r.count) × (r.count ≤ max_slots) × (4 * r.count ≤ length r.zone.bytes) };
}

// The slot `n` places after `first`.
#[inline(always)]
fn slot_after(count: u32, first: u32, n: u32) -> u32
    requires { (first < count) × (n < count) × (count ≤ max_slots) }
    ensures value { result ≡ slot_after count first n }
    ensures bound { result < count }
{
    let beyond = first + n;
    beyond.checked_sub(count).unwrap_or(beyond)
}

// The slot after `slot`.
#[inline(always)]
fn next_slot(count: u32, slot: u32) -> u32
    requires { (slot < count) × (count ≤ max_slots) }
    ensures value { result ≡ next_slot count slot }
    ensures bound { result < count }
{
    let next = slot + 1;
    if next < count { next } else { 0 }
}

// How many of `number` entries fit, starting at `slot`, before the slots wrap to 0.
fn before_turn(count: u32, slot: u32, number: usize) -> usize
    requires { slot < count }
    ensures most { (result ≤ number) × (result ≤ count - slot) }
    ensures cut { (result ≡ number) ⊎ (result ≡ count - slot) }
{
    let left = (count - slot) as usize;
    if number < left { number } else { left }
}

impl Ring {
    /// Makes an empty ring of `count` slots, 2 to 65,536, in a zone of at least 4 bytes a slot.
    pub fn over(zone: Zone, count: u32) -> Ring
        requires count { IsCount count }
        requires room { 4 * count ≤ length zone.bytes }
        ensures { result ≡ empty_over zone count }
    {
        Ring {
            zone,
            count,
            first: 0,
            used: 0,
        }
    }

    /// The number of entries.
    #[tactic(auto, using(crate::proofs::Entries::counted))]
    #[inline(always)]
    pub fn count(&self) -> u32
        ensures value { result ≡ length self.now.entries }
        ensures bound { result < self.now.count }
    {
        self.used
    }

    /// The number of free slots: how many more entries fit.
    #[tactic(auto, using(crate::proofs::Entries::counted))]
    #[inline(always)]
    pub fn free_count(&self) -> u32
        ensures { result ≡ room_in self.now }
    {
        self.count - 1 - self.used
    }

    /// The `k`-th entry, counted from 0 at the front, or `None` if there are fewer.
    #[tactic(auto, using(crate::proofs::Entries::counted, crate::proofs::Entries::entry_at, crate::proofs::Entries::no_entry_at))]
    pub fn peek(&self, k: u32) -> Option<u32>
        ensures { result ≡ slice_get self.now.entries k }
    {
        if k >= self.used {
            return None;
        }
        let slot = slot_after(self.count, self.first, k);
        Some(load_one(&self.zone, slot))
    }

    /// Whether `value` is one of the entries. It looks at all of them.
    pub fn contains(&self, value: u32) -> bool
        ensures { result ≡ list_any (λ x. x == value) self.now.entries }
    {
        for k in 0..self.count() {
            let Some(entry) = self.peek(k) else {
                unreachable!();
            };
            if entry == value {
                return true;
            }
        }
        false
    }

    // Appends an entry. There must be a free slot.
    #[tactic(auto, using(crate::proofs::Entries::counted, crate::proofs::Entries::entries_pushed))]
    #[inline(always)]
    fn push(&mut self, value: u32)
        requires { 0 < room_in self.old }
        ensures { self.new ≡ with_more self.old (value ∷ []) }
    {
        let used = self.used;
        let slot = slot_after(self.count, self.first, used);
        store_one(&mut self.zone, slot, value);
        self.used = used + 1;
    }

    // Removes and returns the first entry. There must be one.
    #[inline(always)]
    fn pop(&mut self) -> u32
        requires { 0 < length self.old.entries }
        ensures first { self.old.entries ≡ result ∷ self.new.entries }
        ensures rest { self.new ≡ without_first self.old 1 }
    {
        let value = load_one(&self.zone, self.first);
        self.first = next_slot(self.count, self.first);
        self.used -= 1;
        value
    }

    /// Appends an entry. Returns false, and changes nothing, if the ring is full.
    #[inline(always)]
    pub fn enqueue(&mut self, value: u32) -> bool
        ensures taken { result ≡ nat_lt 0 (room_in self.old) }
        ensures entries { self.new ≡ (if nat_lt 0 (room_in self.old) then with_more self.old (value ∷ []) else self.old) }
    {
        if self.free_count() == 0 {
            return false;
        }
        self.push(value);
        true
    }

    /// Removes and returns the first entry, or returns `None` if the ring is empty.
    #[inline(always)]
    pub fn dequeue(&mut self) -> Option<u32>
        ensures first { result ≡ slice_get self.old.entries 0 }
        ensures rest { self.new ≡ without_first self.old 1 }
    {
        if self.count() == 0 {
            return None;
        }
        Some(self.pop())
    }

    // Appends entries in order. There must be a free slot for each.
    fn push_all(&mut self, values: &[u32])
        requires { length values.now ≤ room_in self.old }
        ensures { self.new ≡ with_more self.old values.now }
    {
        let slot = slot_after(self.count, self.first, self.used);
        let number = before_turn(self.count, slot, values.len());
        store_run(&mut self.zone, slot, &values[..number]);
        store_run(&mut self.zone, 0, &values[number..]);
        self.used += values.len() as u32;
    }

    // Copies the first entries into `values`, in order.
    fn read_all(&self, values: &mut [u32])
        requires { length values.old ≤ length self.now.entries }
        ensures { values.new ≡ take (length values.old) self.now.entries }
    {
        let number = before_turn(self.count, self.first, values.len());
        let (near, far) = values.split_at_mut(number);
        load_run(&self.zone, self.first, near);
        load_run(&self.zone, 0, far);
    }

    // Removes the first `number` entries.
    fn skip(&mut self, number: usize)
        requires { number ≤ length self.old.entries }
        ensures { self.new ≡ without_first self.old number }
    {
        let left = self.used - number as u32;
        self.first = slot_after(self.count, self.first, number as u32);
        self.used = left;
    }

    // Removes as many of the first entries as `values` has room for, in order.
    fn pop_all(&mut self, values: &mut [u32])
        requires { length values.old ≤ length self.old.entries }
        ensures first { values.new ≡ take (length values.old) self.old.entries }
        ensures rest { self.new ≡ without_first self.old (length values.old) }
    {
        self.read_all(values);
        self.skip(values.len());
    }

    /// Appends all of the values in order. Returns false, and appends none, if fewer slots are free.
    pub fn enqueue_bulk(&mut self, values: &[u32]) -> bool
        ensures taken { result ≡ nat_le (length values.now) (room_in self.old) }
        ensures entries { self.new ≡ (if nat_le (length values.now) (room_in self.old) then with_more self.old values.now else self.old) }
    {
        if values.len() > self.free_count() as usize {
            return false;
        }
        self.push_all(values);
        true
    }

    /// Takes as many of the first entries as `values` has room for, in order. Returns false, and takes none, if there are fewer.
    pub fn dequeue_bulk(&mut self, values: &mut [u32]) -> bool
        ensures taken { result ≡ nat_le (length values.old) (length self.old.entries) }
        ensures first { values.new ≡ (if nat_le (length values.old) (length self.old.entries) then take (length values.old) self.old.entries else values.old) }
        ensures rest { self.new ≡ (if nat_le (length values.old) (length self.old.entries) then without_first self.old (length values.old) else self.old) }
    {
        if values.len() > self.count() as usize {
            return false;
        }
        self.pop_all(values);
        true
    }

    /// Appends as many of the values as fit, in order, and returns how many.
    pub fn enqueue_burst(&mut self, values: &[u32]) -> usize
        ensures number { result ≡ min (length values.now) (room_in self.old) }
        ensures entries { self.new ≡ with_more self.old (take (min (length values.now) (room_in self.old)) values.now) }
    {
        let number = values.len().min(self.free_count() as usize);
        self.push_all(&values[..number]);
        number
    }

    /// Takes the first entries, at most as many as `values` has room for, in order; returns how many. The rest of `values` does not change.
    pub fn dequeue_burst(&mut self, values: &mut [u32]) -> usize
        ensures number { result ≡ min (length values.old) (length self.old.entries) }
        ensures first { values.new ≡ take (min (length values.old) (length self.old.entries)) self.old.entries
            ++ drop (min (length values.old) (length self.old.entries)) values.old }
        ensures rest { self.new ≡ without_first self.old (min (length values.old) (length self.old.entries)) }
    {
        let number = values.len().min(self.count() as usize);
        self.pop_all(&mut values[..number]);
        number
    }

    /// Returns the zone. The contract does not say what its bytes are.
    pub fn into_zone(self) -> Zone
        ensures offset { (result.name ≡ self.name) × (result.home ≡ self.home) × (result.offset ≡ self.offset) }
        ensures len { length result.bytes ≡ self.len }
    {
        let Ring {
            zone,
            count: _,
            first: _,
            used: _,
        } = self;
        zone
    }
}
