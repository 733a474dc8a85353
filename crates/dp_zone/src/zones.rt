//! `Zones`: the table of reserved zones, by name.

ghost use Rattle.std.specs.Prelude.{◌≡◌, ◌+◌, ◌<◌, ◌≤◌, ◌&&◌, List, [], ◌∷◌, ◌++◌, length, Contains, IfOk, IfErr, IfSome, IfNone, OnOk, OnErr, MatchResult};
ghost use Rattle.std.specs.Prelude.{find, position, option_map, None, true, false};
ghost use Rattle.std.specs.List.{list_any};
ghost use Rattle.dp_heap.specs.declared.elements.Element.{Element};
ghost use Rattle.dp_heap.specs.Elements.{rounded, alignment, Taken, merged, IsOut, count_of, is_busy};
ghost use Rattle.dp_zone.specs.Names.{same_name};
ghost use Rattle.dp_zone.specs.Entries.{table_of};
ghost use Rattle.dp_zone.specs.Zones.{Reserved, info_of, reserved_of, is_named, has_name, zone_named, without_name, IsZoneRefused, IsReservable, IsZoneTable};

use crate::error::ZoneError;
use crate::name::{MAX_NAME, ZoneName, is_name};
use crate::zone::Zone;
use arrayvec::{ArrayString, ArrayVec};
use dp_heap::{Heap, HeapError};
use dp_region::MAX_REGION;
use std::marker::Model;

/// The maximum number of zones of a table. DPDK has 2,560, `RTE_MAX_MEMZONE`.
pub const MAX_ZONES: usize = 64;

/// Where a zone is: its offset, in bytes from the region's start, and its length in bytes.
#[derive(Clone, Copy)]
pub struct ZoneInfo {
    pub offset: u32,
    pub len: u32,
}

// What the table knows of one zone.
#[derive(Clone, Copy, Default, Drop)]
struct Reservation {
    name: ArrayString<MAX_NAME>,
    offset: u32,
    len: u32,
}

impl Reservation {
    // Whether the zone has this name.
    fn is(&self, name: &str) -> bool
        ensures { result ≡ same_name self.now.name.bytes name.now }
    {
        self.name.as_str() == name
    }
}

// The index of the entry of that name.
fn index_of(entries: &[Reservation], name: &str) -> Option<usize>
    ensures { result ≡ position (λ e. same_name e.name.bytes name.now) entries.now }
{
    entries.iter().position(|e| e.is(name))
}

// Whether an entry has that name.
fn any_named(entries: &[Reservation], name: &str) -> bool
    ensures { result ≡ list_any (λ e. same_name e.name.bytes name.now) entries.now }
{
    entries.iter().any(|e| e.is(name))
}

// The entry of that name.
fn entry_named(entries: &[Reservation], name: &str) -> Option<Reservation>
    ensures { result ≡ find (λ e. same_name e.name.bytes name.now) entries.now }
{
    entries.iter().copied().find(|e| e.is(name))
}

/// A table of at most `MAX_ZONES` zones with distinct names.
#[derive(Drop)]
pub struct Zones {
    entries: ArrayVec<Reservation, MAX_ZONES>,
}

impl Model for Zones {
    ghost use Rattle.std.specs.Prelude.{List};
    ghost use Rattle.dp_zone.specs.Zones.{Reserved, AreApart};
    ghost use Rattle.dp_zone.specs.Entries.{table_of};

    ghost Value = { List Reserved };

    ghost view = { λ z. table_of z.entries.items };

    ghost invariant = { λ z. AreApart (table_of z.entries.items) };
}

impl Zones {
    /// An empty table.
    pub fn new() -> Zones
        ensures { result ≡ [] }
    {
        Zones {
            entries: ArrayVec::new(),
        }
    }

    /// The number of zones, at most `MAX_ZONES`.
    pub fn count(&self) -> usize
        ensures value { result ≡ length self.now }
        ensures table { IsZoneTable self.now }
    {
        self.entries.len()
    }

    // Whether there is a zone of that name.
    #[tactic(auto, using(crate::proofs::Tables::has_name_any))]
    fn has(&self, name: &str) -> bool
        ensures { result ≡ has_name name.now self.now }
    {
        any_named(self.entries.as_slice(), name)
    }

    /// Looks up a zone by its name.
    #[tactic(auto, using(crate::proofs::Tables::lookup_found, crate::proofs::Tables::lookup_missed))]
    pub fn lookup(&self, name: &str) -> Option<ZoneInfo>
        ensures { result ≡ option_map info_of (zone_named name.now self.now) }
    {
        match entry_named(self.entries.as_slice(), name) {
            Some(entry) => Some(ZoneInfo {
                offset: entry.offset,
                len: entry.len,
            }),
            None => None,
        }
    }

    // The error that refuses this request whatever is in the heap, if there is one.
    fn refusal(&self, name: &str, len: u32, align: u32) -> Option<ZoneError>
        ensures none { IfNone result (IsReservable name.now len align self.now) }
        ensures some { IfSome result (λ e. (es : List Element) → IsZoneRefused e name.now len align self.now es) }
    {
        if !is_name(name) {
            return Some(ZoneError::BadName);
        }
        if len == 0 || len > MAX_REGION {
            return Some(ZoneError::BadLength);
        }
        if align != 0 && !align.is_power_of_two() {
            return Some(ZoneError::BadAlign);
        }
        if self.has(name) {
            return Some(ZoneError::Exists);
        }
        if self.entries.len() == MAX_ZONES {
            return Some(ZoneError::Full);
        }
        None
    }

    // Removes the zone of that name from the table.
    fn forget(&mut self, name: &str)
        ensures table { self.new ≡ without_name name.now self.old }
        ensures gone { zone_named name.now self.new ≡ None }
    {
        if let Some(index) = index_of(self.entries.as_slice(), name) {
            self.entries.remove(index);
        }
    }

    /// Reserves a zone of `len` bytes, rounded up to cache lines, at a multiple of `align` (0 or a power of two; at least a cache line). Its bytes
    /// are not cleared. On an error, the first of [`ZoneError`] that applies, nothing changes.
    pub fn reserve(
        &mut self,
        heap: &mut Heap,
        name: &str,
        len: u32,
        align: u32,
    ) -> Result<Zone, ZoneError>
        ensures zone { IfOk result (λ z. (z.name ≡ name.now) × (z.home ≡ heap.old.home) × (length z.bytes ≡ rounded len)) }
        ensures taken { IfOk result (λ z. Taken heap.old.elements (rounded len) (alignment align) z.offset heap.new.elements) }
        ensures undone { IfOk result (λ z. merged z.offset heap.new.elements ≡ heap.old.elements) }
        ensures table { IfOk result (λ z. self.new ≡ self.old ++ reserved_of z ∷ []) }
        ensures reservable { OnOk result (IsReservable name.now len align self.old) }
        ensures home { heap.new.home ≡ heap.old.home }
        ensures refused { IfErr result (λ e. IsZoneRefused e name.now len align self.old heap.old.elements) }
        ensures kept { OnErr result ((self.new ≡ self.old) × (heap.new ≡ heap.old)) }
        ensures counted { MatchResult result (λ _. count_of is_busy heap.new.elements ≡ count_of is_busy heap.old.elements + 1)
            (λ _. count_of is_busy heap.new.elements ≡ count_of is_busy heap.old.elements) }
    {
        if let Some(error) = self.refusal(name, len, align) {
            return Err(error);
        }
        let Some(zone_name) = ZoneName::new(name) else {
            return Err(ZoneError::BadName);
        };
        match heap.malloc(len, align) {
            Ok(block) => {
                self.entries.push(Reservation {
                    name: zone_name.text(),
                    offset: block.offset(),
                    len: block.len(),
                });
                Ok(Zone::over(zone_name, block))
            }
            Err(_) => Err(ZoneError::NoRoom),
        }
    }

    /// Frees a zone to its heap. Its name is free again.
    pub fn give_back(&mut self, heap: &mut Heap, zone: Zone)
        requires { zone.home ≡ heap.old.home }
        ensures was_out { IsOut zone.offset heap.old.elements }
        ensures table { self.new ≡ without_name zone.name self.old }
        ensures gone { zone_named zone.name self.new ≡ None }
        ensures heap { heap.new ≡ record { home = heap.old.home; elements = merged zone.offset heap.old.elements } }
        ensures counted { count_of is_busy heap.new.elements + 1 ≡ count_of is_busy heap.old.elements }
    {
        let (name, block) = zone.into_parts();
        self.forget(name.as_str());
        heap.free(block);
    }
}
