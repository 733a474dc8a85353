//! A pool, and its public calls.

ghost use Rattle.std.specs.Borrow.{Lends, Array, sem, u8 as byte};
ghost use Rattle.std.specs.Prelude.{◌≡◌, ℕ, ◌+◌, ◌*◌, ◌<◌, ◌≤◌, List, true, false, not, Some, length, replicate, slice_get, slice_index, count_by, nat_le};
ghost use Rattle.std.specs.Prelude.{MatchOption, IfOk, IfErr, OnErr, MatchResult};
ghost use Rattle.dp_heap.specs.Elements.{merged, count_of, is_busy};
ghost use Rattle.dp_zone.specs.Zones.{without_name};
ghost use Rattle.dp_pool.specs.Making.{IsPoolCount, IsObjectSize, IsCacheSize, IsPoolRefused, IsMade};
ghost use Rattle.dp_pool.specs.Queues.{in_count, AreOut};
ghost use Rattle.dp_pool.specs.Pools.{IsPool, AreGot, object_offset, stride_of, object_in, with_object, with_written, with_left, is_out_in, got, put_back};
ghost use Rattle.dp_ring.specs.Rings.{max_slots};
ghost use Rattle.dp_pool.specs.Pools.{max_objects, max_object, all_back};
ghost use Rattle.dp_pool.specs.contracts.pool.Pool.{the_row};

use crate::error::PoolError;
use crate::indexes::Indexes;
use crate::making::{queue_count, refused_numbers, reserve, stride_of};
use dp_heap::Heap;
use dp_ring::Ring;
use dp_zone::{Zone, Zones};
use std::marker::Model;

/// Objects of one size, each in or out. They lie in a zone of their own, reached by index; the indexes of those that are in are in a queue with a
/// cache before it. `unmake` ends it.
pub struct Pool {
    objects: Zone,
    indexes: Indexes,
    // The number of objects, the size of one, and the bytes that one takes in the zone.
    count: u32,
    size: u32,
    stride: u32,
}

// The numbers of a pool: objects, their size, the size of the cache, slots of the queue.
#[derive(Clone, Copy)]
struct Numbers {
    count: u32,
    size: u32,
    cache: u32,
    slots: u32,
}

impl Model for Pool {
    ghost use Rattle.std.specs.Prelude.{◌≡◌, ◌*◌, ◌≤◌, length};
    ghost use Rattle.dp_pool.specs.Pools.{max_objects, max_object, max_cache, PoolView, PoolZones, pool_code, objects_from, stride_of};

    ghost Value = { PoolView };

    ghost coded = { pool_code };

    ghost view = { λ p. record {
      size = p.size;
      cache = p.indexes.cache;
      cached = p.indexes.cached;
      objects = objects_from p.objects.bytes p.size 0 p.count;
      out = p.indexes.out;
      zones = record {
        home = p.objects.home;
        object_name = p.objects.name;
        object_offset = p.objects.offset;
        queue_name = p.indexes.name;
        queue_offset = p.indexes.offset;
      };
    } };

    ghost invariant = { λ p. (length p.indexes.out ≡ p.count) × (1 ≤ p.count) × (p.count ≤ max_objects) × (1 ≤ p.size) × (p.size ≤ max_object)
        × (p.stride ≡ stride_of p.size) × (p.count * stride_of p.size ≤ length p.objects.bytes) × (p.indexes.home ≡ p.objects.home)
        × (p.indexes.cache ≤ max_cache) × (3 * p.indexes.cache ≤ 2 * p.count) };
}

// The offset of an object in the zone of `count` objects that take `stride` bytes each.
#[inline(always)]
#[tactic(auto, using(crate::proofs::Pools::offset_is, crate::proofs::Pools::offset_ends))]
fn offset_of(index: u32, count: u32, size: u32, stride: u32) -> u32
    requires there { index < count }
    requires limits { (count ≤ max_objects) × (size ≤ max_object) × (stride ≡ stride_of size) }
    ensures value { result ≡ object_offset size 0 index }
    ensures end { result + stride_of size ≤ count * stride_of size }
    ensures bound { result ≤ max_objects * max_object }
{
    index * stride
}

// A law: each byte of a slice is below 256.
fn are_small(bytes: &[u8])
    ensures { (k : ℕ) → slice_index bytes.now k < 256 }
{
    let _ = bytes;
}

impl Pool {
    // Makes a pool of its two zones, with all objects in.
    fn over(objects: Zone, queue: Zone, numbers: Numbers) -> Pool
        requires numbers { IsPoolCount numbers.count × IsObjectSize numbers.size × IsCacheSize numbers.count numbers.cache }
        requires room { numbers.count * stride_of numbers.size ≤ length objects.bytes }
        requires slots { (numbers.count < numbers.slots) × (numbers.slots ≤ max_slots) × (4 * numbers.slots ≤ length queue.bytes) }
        requires home { queue.home ≡ objects.home }
        ensures numbers { (result.size ≡ numbers.size) × (result.cache ≡ numbers.cache) × (result.cached ≡ 0) × (length result.objects ≡ numbers.count)
            × (result.out ≡ replicate numbers.count false) }
        ensures zones { result.zones ≡ record {
          home = objects.home;
          object_name = objects.name;
          object_offset = objects.offset;
          queue_name = queue.name;
          queue_offset = queue.offset;
        } }
    {
        let ring = Ring::over(queue, numbers.slots);
        Pool {
            objects,
            indexes: Indexes::over(ring, numbers.count, numbers.cache),
            count: numbers.count,
            size: numbers.size,
            stride: stride_of(numbers.size),
        }
    }

    /// Makes a pool of `count` objects (1 to `MAX_OBJECTS`, 65,535) of `size` bytes (1 to `MAX_OBJECT`, 4,224), all in, with a cache for `cache`
    /// indexes (at most `MAX_CACHE`, 512, and at most two thirds of the objects). It reserves the zones `NAME.obj` and `NAME.ring`. On an error, the
    /// first that applies, zones and elements are as before.
    pub fn make(
        heap: &mut Heap,
        zones: &mut Zones,
        name: &str,
        count: u32,
        size: u32,
        cache: u32,
    ) -> Result<Pool, PoolError>
        ensures made { IfOk result (λ p. IsMade name.now count size cache heap.old.home zones.old heap.old.elements p zones.new heap.new.elements) }
        ensures home { heap.new.home ≡ heap.old.home }
        ensures refused { IfErr result (λ e. IsPoolRefused e name.now count size cache zones.old heap.old.elements) }
        ensures kept { OnErr result ((zones.new ≡ zones.old) × (heap.new ≡ heap.old)) }
        ensures counted { MatchResult result (λ _. count_of is_busy heap.new.elements ≡ count_of is_busy heap.old.elements + 2)
            (λ _. count_of is_busy heap.new.elements ≡ count_of is_busy heap.old.elements) }
    {
        if let Some(error) = refused_numbers(count, size, cache) {
            return Err(error);
        }
        let slots = queue_count(count);
        let objects = match reserve(heap, zones, name, ".obj", count * stride_of(size)) {
            Ok(objects) => objects,
            Err(error) => return Err(PoolError::Zone(error)),
        };
        let queue = match reserve(heap, zones, name, ".ring", 4 * slots) {
            Ok(queue) => queue,
            Err(error) => {
                zones.give_back(heap, objects);
                return Err(PoolError::Zone(error));
            }
        };
        let numbers = Numbers {
            count,
            size,
            cache,
            slots,
        };
        Ok(Pool::over(objects, queue, numbers))
    }

    /// Ends the pool, even if objects are out, and frees its two zones. `heap` must be the one in which the pool was made.
    pub fn unmake(self, heap: &mut Heap, zones: &mut Zones)
        requires { self.zones.home ≡ heap.old.home }
        ensures table { zones.new ≡ without_name self.zones.object_name (without_name self.zones.queue_name zones.old) }
        ensures heap { heap.new ≡ record {
          home = heap.old.home;
          elements = merged self.zones.object_offset (merged self.zones.queue_offset heap.old.elements);
        } }
        ensures counted { count_of is_busy heap.new.elements + 2 ≡ count_of is_busy heap.old.elements }
    {
        let Pool {
            objects,
            indexes,
            count: _,
            size: _,
            stride: _,
        } = self;
        zones.give_back(heap, indexes.into_queue().into_zone());
        zones.give_back(heap, objects);
    }

    /// The number of objects.
    #[tactic(auto, using(crate::proofs::Pools::counted, crate::proofs::Pools::is_pool))]
    pub fn count(&self) -> u32
        ensures value { result ≡ length self.now.objects }
        ensures pool { IsPool self.now }
    {
        are_small(self.objects.bytes());
        self.count
    }

    /// The size of an object, in bytes.
    #[inline(always)]
    pub fn size(&self) -> u32
        ensures { result ≡ self.now.size }
    {
        self.size
    }

    /// The number of objects that are in.
    #[inline(always)]
    pub fn available(&self) -> u32
        ensures { result ≡ in_count self.now.out }
    {
        self.indexes.available()
    }

    /// The number of indexes in the cache.
    pub fn cached(&self) -> u32
        ensures value { result ≡ self.now.cached }
        ensures there { result ≤ in_count self.now.out }
    {
        self.indexes.cached()
    }

    /// Whether an object is out; false if there is no such object. It searches the whole queue.
    pub fn is_out(&self, index: u32) -> bool
        ensures { result ≡ is_out_in self.now.out index }
    {
        self.indexes.is_out(index)
    }

    /// Takes an object that is in and returns its index, or `None` if none is in.
    #[inline(always)]
    pub fn get(&mut self) -> Option<u32>
        ensures { MatchOption result ((in_count self.old.out ≡ 0) × (self.new ≡ self.old)) (λ i. (slice_get self.old.out i ≡ Some false)
            × (self.new ≡ got self.old i)) }
    {
        self.indexes.get()
    }

    // Takes an object for each slot of the list.
    fn get_all(&mut self, indexes: &mut [u32])
        requires { length indexes.old ≤ in_count self.old.out }
        ensures got { AreGot self.old indexes.new self.new }
        ensures len { length indexes.new ≡ length indexes.old }
    {
        for slot in indexes.iter_mut() {
            let Some(index) = self.get() else {
                unreachable!();
            };
            *slot = index;
        }
    }

    // Takes the objects whose indexes are last in the cache.
    #[inline(always)]
    fn take_cached(&mut self, indexes: &mut [u32])
        requires { length indexes.old ≤ self.old.cached }
        ensures got { AreGot self.old indexes.new self.new }
        ensures len { length indexes.new ≡ length indexes.old }
    {
        self.indexes.take_cached(indexes);
    }

    /// Takes an object for each slot of the list, the same as one `get` for each. Returns false, and takes none, if fewer are in. On success each
    /// is out and occurs once in the list (`out`).
    #[inline(always)]
    pub fn get_bulk(&mut self, indexes: &mut [u32]) -> bool
        ensures taken { result ≡ nat_le (length indexes.old) (in_count self.old.out) }
        ensures got { result ≡ true → AreGot self.old indexes.new self.new }
        ensures out { result ≡ true → AreOut self.new.out indexes.new }
        ensures kept { result ≡ false → (self.new ≡ self.old) × (indexes.new ≡ indexes.old) }
        ensures same { (self.new.zones ≡ self.old.zones) × (self.new.objects ≡ self.old.objects) × (self.new.size ≡ self.old.size)
            × (self.new.cache ≡ self.old.cache) }
        ensures len { length indexes.new ≡ length indexes.old }
    {
        if indexes.len() <= self.cached() as usize {
            self.take_cached(indexes);
            return true;
        }
        if indexes.len() > self.available() as usize {
            return false;
        }
        self.get_all(indexes);
        true
    }

    /// Puts an object back that is out.
    #[inline(always)]
    pub fn put(&mut self, index: u32)
        requires { slice_get self.old.out index ≡ Some true }
        ensures { self.new ≡ put_back self.old index }
    {
        self.indexes.put(index);
    }

    /// Puts objects back that are out, the same as one `put` for each. No index may occur twice in the list.
    #[inline(always)]
    pub fn put_bulk(&mut self, indexes: &[u32])
        requires { AreOut self.old.out indexes.now }
        ensures back { self.new ≡ all_back self.old indexes.now }
        ensures same { (self.new.zones ≡ self.old.zones) × (self.new.objects ≡ self.old.objects) × (self.new.size ≡ self.old.size)
            × (self.new.cache ≡ self.old.cache) }
    {
        self.indexes.put_all(indexes);
    }

    /// The bytes of an object, for reading. The index must be below `count`.
    #[inline(always)]
    pub fn object(&self, index: u32) -> &[u8]
        requires { index < length self.now.objects }
        ensures value { result.now ≡ object_in self.now index }
        ensures size { length result.now ≡ self.now.size }
    {
        let offset = offset_of(index, self.count, self.size, self.stride) as usize;
        &self.objects.bytes()[offset..offset + self.size as usize]
    }

    /// The bytes of an object, for writing. A write through the slice keeps its length, so only this object changes (`whole`).
    #[inline(always)]
    pub fn object_mut(&mut self, index: u32) -> &mut [u8]
        requires { index < length self.old.objects }
        ensures* writes_back { sem 𝓛 (Lends the_row (Array byte 0) self.entry result (with_left index self.old)) }
        ensures value { result.now ≡ object_in self.old index }
        ensures size { length result.now ≡ self.old.size }
        ensures whole { (ws : List ℕ) → length ws ≡ self.old.size → with_left index self.old ws ≡ with_object self.old index ws }
    {
        let offset = offset_of(index, self.count, self.size, self.stride);
        self.objects.part_mut(offset, self.size)
    }

    /// Writes bytes into an object at offset `at`. They must fit into it.
    #[inline(always)]
    pub fn write(&mut self, index: u32, at: u32, bytes: &[u8])
        requires object { index < length self.old.objects }
        requires fits { at + length bytes.now ≤ self.old.size }
        ensures { self.new ≡ with_written self.old index at bytes.now }
    {
        let offset = offset_of(index, self.count, self.size, self.stride);
        self.objects.write(offset + at, bytes);
    }

    /// Writes `len` zeros into an object at offset `at`. They must fit into it.
    #[inline(always)]
    pub fn clear(&mut self, index: u32, at: u32, len: u32)
        requires object { index < length self.old.objects }
        requires fits { at + len ≤ self.old.size }
        ensures { self.new ≡ with_written self.old index at (replicate len 0) }
    {
        let offset = offset_of(index, self.count, self.size, self.stride);
        self.objects.clear(offset + at, len);
    }
}
