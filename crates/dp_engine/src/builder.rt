//! Takes zones from the top of a heap down, while the memory of an engine is laid out.

ghost use Rattle.std.specs.Prelude.{◌≡◌, ℕ, ◌+◌, ◌*◌, ◌<◌, ◌≤◌, true, None, Some, List, [], ◌∷◌, ◌++◌, length};
ghost use Rattle.std.specs.List.{AllByRecursion};
ghost use Rattle.dp_region.specs.Region.{cache_line, max_region};
ghost use Rattle.dp_heap.specs.declared.elements.Element.{Element};
ghost use Rattle.dp_heap.specs.Elements.{rounded, slack, NothingFits, Taken, count_of, is_busy};
ghost use Rattle.dp_zone.specs.Zones.{max_zones};
ghost use Rattle.dp_ring.specs.Rings.{IsCount};
ghost use Rattle.dp_pool.specs.Making.{object_name, queue_name};
ghost use Rattle.dp_model.specs.Environments.{pool_fits};
ghost use Rattle.dp_engine.specs.Names.{pool_name, AllBefore, first_of, first_pool, IsNext};
ghost use Rattle.dp_engine.specs.Needs.{zone_bytes, objects_len, queue_len, pool_bytes, ring_bytes, total};
ghost use Rattle.dp_engine.specs.Memories.{AreFilled, IsNewRing, IsNewPool};
ghost use Rattle.dp_engine.specs.Builders.{names_of, size_of, TakesTwo};

use crate::names::{ListKind, pool_name, ring_name};
use core::mem::replace;
use dp_heap::Heap;
use dp_mbuf::{HEADER_SIZE, MAX_POOLS};
use dp_model::PoolSpec;
use dp_pool::Pool;
use dp_region::Region;
use dp_ring::Ring;
use dp_zone::{Zone, Zones};
use std::marker::Model;

/// A heap whose zones are taken from the top down, below a spare one, with the table of them.
pub(crate) struct MemoryBuilder {
    heap: Heap,
    zones: Zones,
    spare: Zone,
}

impl Model for MemoryBuilder {
    ghost use Rattle.std.specs.Prelude.{length};
    ghost use Rattle.dp_engine.specs.Builders.{BuilderView, left_in, size_of, names_of, IsBuilder};

    ghost Value = { BuilderView };

    ghost view = { λ s. record {
      home = s.heap.home;
      size = size_of s.heap.elements;
      left = left_in s.heap.elements;
      names = names_of s.zones;
      spare = length s.spare.bytes;
    } };

    ghost invariant = { λ s. IsBuilder s.heap s.zones s.spare };
}

// Puts a value into an empty slot.
fn put<T>(slot: &mut Option<T>, value: T)
    requires { slot.old ≡ None }
    ensures { slot.new ≡ Some value }
{
    let old = replace(slot, Some(value));
    let None = old else { unreachable!() };
}

/// Puts a pool into an empty slot.
pub(crate) fn put_pool(slot: &mut Option<Pool>, pool: Pool)
    requires { slot.old ≡ None }
    ensures { slot.new ≡ Some pool }
{
    put(slot, pool);
}

// Puts a ring into an empty slot.
fn put_ring(slot: &mut Option<Ring>, ring: Ring)
    requires { slot.old ≡ None }
    ensures { slot.new ≡ Some ring }
{
    put(slot, ring);
}

// Reserves a zone. It must not be refused.
fn reserve(heap: &mut Heap, zones: &mut Zones, name: &str, len: u32) -> Zone
    requires name { IsNext name.now (names_of zones.old) }
    requires len { (0 < len) × (len ≤ max_region) }
    requires room { ¬ NothingFits (rounded len) cache_line heap.old.elements }
    ensures zone { (result.home ≡ heap.old.home) × (length result.bytes ≡ rounded len) }
    ensures taken { Taken heap.old.elements (rounded len) cache_line result.offset heap.new.elements }
    ensures names { names_of zones.new ≡ names_of zones.old ++ name.now ∷ [] }
    ensures home { heap.new.home ≡ heap.old.home }
    ensures size { size_of heap.new.elements ≡ size_of heap.old.elements }
    ensures counted { count_of is_busy heap.new.elements ≡ count_of is_busy heap.old.elements + 1 }
{
    match zones.reserve(heap, name, len, 0) {
        Ok(zone) => zone,
        Err(_) => unreachable!(),
    }
}

// Makes a pool. It must not be refused.
fn make(heap: &mut Heap, zones: &mut Zones, k: usize, spec: PoolSpec) -> Pool
    requires spec { pool_fits spec ≡ true }
    requires number { k < MAX_POOLS }
    requires names { AllBefore (first_pool + 10 * k) (names_of zones.old) }
    requires few { length (names_of zones.old) + 2 ≤ max_zones }
    requires objects { ¬ NothingFits (rounded (objects_len spec)) cache_line heap.old.elements }
    requires queue { (offset : ℕ) (mid : List Element) → Taken heap.old.elements (rounded (objects_len spec)) cache_line offset mid →
        ¬ NothingFits (rounded (queue_len spec)) cache_line mid }
    ensures pool { IsNewPool heap.old.home spec result }
    ensures taken { TakesTwo heap.old.elements (rounded (objects_len spec)) (rounded (queue_len spec)) heap.new.elements }
    ensures names { names_of zones.new ≡ names_of zones.old ++ object_name (pool_name k) ∷ queue_name (pool_name k) ∷ [] }
    ensures home { heap.new.home ≡ heap.old.home }
    ensures size { size_of heap.new.elements ≡ size_of heap.old.elements }
    ensures counted { count_of is_busy heap.new.elements ≡ count_of is_busy heap.old.elements + 2 }
{
    let size = spec.room + HEADER_SIZE;
    match Pool::make(heap, zones, pool_name(k), spec.count, size, spec.cache) {
        Ok(pool) => pool,
        Err(_) => unreachable!(),
    }
}

impl MemoryBuilder {
    /// A builder over a region with nothing lent, with a spare zone of `len` bytes.
    pub fn over(region: Region, len: u32) -> MemoryBuilder
        requires lent { region.lent ≡ [] }
        requires len { (0 < len) × (len ≤ max_region) }
        requires room { zone_bytes len + slack < length region.bytes }
        ensures same { (result.home ≡ region.home) × (result.size ≡ length region.bytes) × (result.spare ≡ rounded len) }
        ensures left { result.left + zone_bytes len ≡ length region.bytes }
        ensures names { AllBefore (first_of ListKind.Port) result.names × (length result.names ≡ 1) }
    {
        let mut heap = Heap::new(region);
        let mut zones = Zones::new();
        let spare = reserve(&mut heap, &mut zones, "spare", len);
        MemoryBuilder { heap, zones, spare }
    }

    // Takes the next zone.
    fn take(&mut self, name: &str, len: u32) -> Zone
        requires name { IsNext name.now self.old.names }
        requires len { (0 < len) × (len ≤ max_region) }
        requires room { zone_bytes len + slack < self.old.left }
        ensures zone { (result.home ≡ self.old.home) × (length result.bytes ≡ rounded len) }
        ensures left { self.new.left + zone_bytes len ≡ self.old.left }
        ensures same { (self.new.home ≡ self.old.home) × (self.new.size ≡ self.old.size) × (self.new.spare ≡ self.old.spare) }
        ensures names { self.new.names ≡ self.old.names ++ name.now ∷ [] }
    {
        reserve(&mut self.heap, &mut self.zones, name, len)
    }

    // Takes the zone of the next ring.
    fn take_ring(&mut self, kind: ListKind, k: usize, count: u32) -> Ring
        requires number { k < 8 }
        requires count { IsCount count }
        requires room { ring_bytes count + slack < self.old.left }
        requires names { AllBefore (first_of kind + 10 * k) self.old.names }
        requires few { length self.old.names < max_zones }
        ensures ring { IsNewRing self.old.home count result }
        ensures left { self.new.left + ring_bytes count ≡ self.old.left }
        ensures same { (self.new.home ≡ self.old.home) × (self.new.size ≡ self.old.size) × (self.new.spare ≡ self.old.spare) }
        ensures names { AllBefore (first_of kind + 10 * (k + 1)) self.new.names × (length self.new.names ≡ length self.old.names + 1) }
    {
        let zone = self.take(ring_name(kind, k), 4 * count);
        Ring::over(zone, count)
    }

    /// Takes empty rings of a kind, with these numbers of slots.
    pub fn take_rings(&mut self, kind: ListKind, counts: &[u32]) -> [Option<Ring>; 8]
        requires number { length counts.now ≤ 8 }
        requires counts { AllByRecursion IsCount counts.now }
        requires room { total ring_bytes counts.now + slack < self.old.left }
        requires names { AllBefore (first_of kind) self.old.names }
        requires few { length self.old.names + length counts.now ≤ max_zones }
        ensures rings { AreFilled (IsNewRing self.old.home) counts.now result }
        ensures left { self.new.left + total ring_bytes counts.now ≡ self.old.left }
        ensures same { (self.new.home ≡ self.old.home) × (self.new.size ≡ self.old.size) × (self.new.spare ≡ self.old.spare) }
        ensures names { AllBefore (first_of kind + 10 * length counts.now) self.new.names
            × (length self.new.names ≡ length self.old.names + length counts.now) }
    {
        let mut rings = [None, None, None, None, None, None, None, None];
        for (k, count) in counts.iter().enumerate() {
            let ring = self.take_ring(kind, k, *count);
            put_ring(&mut rings[k], ring);
        }
        rings
    }

    // Takes the zones of the next pool.
    fn take_pool(&mut self, k: usize, spec: PoolSpec) -> Pool
        requires number { k < MAX_POOLS }
        requires spec { pool_fits spec ≡ true }
        requires room { pool_bytes spec + slack < self.old.left }
        requires names { AllBefore (first_pool + 10 * k) self.old.names }
        requires few { length self.old.names + 2 ≤ max_zones }
        ensures pool { IsNewPool self.old.home spec result }
        ensures left { self.new.left + pool_bytes spec ≡ self.old.left }
        ensures same { (self.new.home ≡ self.old.home) × (self.new.size ≡ self.old.size) × (self.new.spare ≡ self.old.spare) }
        ensures names { AllBefore (first_pool + 10 * (k + 1)) self.new.names × (length self.new.names ≡ length self.old.names + 2) }
    {
        make(&mut self.heap, &mut self.zones, k, spec)
    }

    /// Takes pools of mbufs with these numbers.
    pub fn take_pools(&mut self, specs: &[PoolSpec]) -> [Option<Pool>; MAX_POOLS]
        requires number { length specs.now ≤ MAX_POOLS }
        requires specs { AllByRecursion (λ s. pool_fits s ≡ true) specs.now }
        requires room { total pool_bytes specs.now + slack < self.old.left }
        requires names { AllBefore first_pool self.old.names }
        requires few { length self.old.names + 2 * length specs.now ≤ max_zones }
        ensures pools { AreFilled (IsNewPool self.old.home) specs.now result }
        ensures slots { length result ≡ MAX_POOLS }
        ensures left { self.new.left + total pool_bytes specs.now ≡ self.old.left }
        ensures same { (self.new.home ≡ self.old.home) × (self.new.size ≡ self.old.size) × (self.new.spare ≡ self.old.spare) }
        ensures names { AllBefore (first_pool + 10 * length specs.now) self.new.names × (length self.new.names ≡ length self.old.names + 2 * length specs.now) }
    {
        let mut pools = [None, None, None, None, None, None, None, None];
        for (k, spec) in specs.iter().enumerate() {
            let pool = self.take_pool(k, *spec);
            put_pool(&mut pools[k], pool);
        }
        pools
    }

    /// Gives the spare zone back, and makes the last pool, whose queue is as long as that zone.
    #[tactic(auto, using(std::proofs::lemmas::Grind::common_steps))]
    pub fn finish(self, k: usize, spec: PoolSpec) -> (Heap, Zones, Pool)
        requires number { k < MAX_POOLS }
        requires spec { pool_fits spec ≡ true }
        requires room { zone_bytes (objects_len spec) ≤ self.left }
        requires spare { self.spare ≡ rounded (queue_len spec) }
        requires names { AllBefore (first_pool + 10 * k) self.names }
        requires some { 2 ≤ length self.names }
        requires few { length self.names + 2 ≤ max_zones }
        ensures pool { IsNewPool self.home spec result.2 }
        ensures same { (result.0.home ≡ self.home) × (size_of result.0.elements ≡ self.size) }
        ensures counted { count_of is_busy result.0.elements ≡ length self.names + 1 }
    {
        let MemoryBuilder { heap, zones, spare } = self;
        let (mut heap, mut zones) = (heap, zones);
        zones.give_back(&mut heap, spare);
        let pool = make(&mut heap, &mut zones, k, spec);
        (heap, zones, pool)
    }
}
