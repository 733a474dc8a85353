//! Makes a pool: tests its numbers, and reserves the zones of its objects and its queue.

ghost use Rattle.std.specs.Prelude.{◌≡◌, ◌+◌, ◌*◌, ◌<◌, ◌≤◌, ◌++◌, true, false, codes, length, replicate, IfOk, IfErr, IfSome, IfNone, OnErr, MatchResult};
ghost use Rattle.std.specs.Prelude.{count_by, not, max, ◌⊎◌};
ghost use Rattle.std.specs.Int.{IsNextPowerOfTwo};
ghost use Rattle.dp_heap.specs.Elements.{rounded, merged, IsOut, count_of, is_busy};
ghost use Rattle.dp_zone.specs.Zones.{IsZoneRefused, without_name};
ghost use Rattle.dp_ring.specs.Rings.{max_slots};
ghost use Rattle.dp_pool.specs.Pools.{max_objects, max_object, stride_of};
ghost use Rattle.dp_pool.specs.Making.{IsPoolCount, IsObjectSize, IsCacheSize, object_name, queue_name, Reserves, IsPoolRefused, IsMade};

use crate::error::PoolError;
use arrayvec::ArrayString;
use dp_heap::Heap;
use dp_region::CACHE_LINE;
use dp_zone::{Zone, ZoneError, Zones};

/// The maximum number of objects of a pool: one less than the number of indexes that fit into 2 bytes of an mbuf's header.
pub const MAX_OBJECTS: u32 = 65_535;

/// The size of the largest object, in bytes: the header of an mbuf and 4,096 of data.
pub const MAX_OBJECT: u32 = 4224;

/// The maximum size of a cache, in indexes: DPDK's `RTE_MEMPOOL_CACHE_MAX_SIZE`.
pub const MAX_CACHE: u32 = 512;

// The pool's name with a suffix, if the result is short enough for a zone's name.
fn with_suffix(name: &str, suffix: &str) -> Option<ArrayString<32>>
    requires { length suffix.now ≤ 5 }
    ensures some { IfSome result (λ t. t.bytes ≡ name.now ++ suffix.now) }
    ensures none { IfNone result (27 < length name.now) }
{
    if name.len() > 27 {
        return None;
    }
    let mut text = ArrayString::new();
    text.push_str(name);
    text.push_str(suffix);
    Some(text)
}

// The error that these numbers cause by themselves, if they do.
pub(crate) fn refused_numbers(count: u32, size: u32, cache: u32) -> Option<PoolError>
    ensures some { IfSome result (λ e. (e ≡ PoolError.BadCount × ¬ IsPoolCount count)
        ⊎ ((e ≡ PoolError.BadSize × IsPoolCount count × ¬ IsObjectSize size)
        ⊎ (e ≡ PoolError.BadCache × IsPoolCount count × IsObjectSize size × ¬ IsCacheSize count cache))) }
    ensures none { IfNone result (IsPoolCount count × IsObjectSize size × IsCacheSize count cache) }
{
    if count == 0 || count > MAX_OBJECTS {
        return Some(PoolError::BadCount);
    }
    if size == 0 || size > MAX_OBJECT {
        return Some(PoolError::BadSize);
    }
    if cache > MAX_CACHE || 3 * cache > 2 * count {
        return Some(PoolError::BadCache);
    }
    None
}

// The bytes that an object of this size takes in its zone.
pub(crate) fn stride_of(size: u32) -> u32
    requires { size ≤ max_object }
    ensures { result ≡ stride_of size }
{
    (size + (CACHE_LINE - 1)) / CACHE_LINE * CACHE_LINE
}

// The number of slots of the queue: the smallest power of two above the number of objects.
pub(crate) fn queue_count(count: u32) -> u32
    requires { (1 ≤ count) × (count ≤ max_objects) }
    ensures next { IsNextPowerOfTwo (count + 1) result }
    ensures bound { (count < result) × (result ≤ max_slots) }
{
    (count + 1).next_power_of_two()
}

// Reserves one of the zones of the pool of that name.
pub(crate) fn reserve(
    heap: &mut Heap,
    zones: &mut Zones,
    name: &str,
    suffix: &str,
    len: u32,
) -> Result<Zone, ZoneError>
    requires { (length suffix.now ≤ 5) × (4 ≤ length suffix.now) }
    ensures zone { IfOk result (λ z. (z.name ≡ name.now ++ suffix.now) × (z.home ≡ heap.old.home) × (length z.bytes ≡ rounded len)) }
    ensures reserves { IfOk result (λ z. Reserves (name.now ++ suffix.now) len zones.old heap.old.elements z.offset zones.new heap.new.elements) }
    ensures undone { IfOk result (λ z. merged z.offset heap.new.elements ≡ heap.old.elements) }
    ensures home { heap.new.home ≡ heap.old.home }
    ensures refused { IfErr result (λ e. IsZoneRefused e (name.now ++ suffix.now) len 0 zones.old heap.old.elements) }
    ensures kept { OnErr result ((zones.new ≡ zones.old) × (heap.new ≡ heap.old)) }
    ensures counted { MatchResult result (λ _. count_of is_busy heap.new.elements ≡ count_of is_busy heap.old.elements + 1)
        (λ _. count_of is_busy heap.new.elements ≡ count_of is_busy heap.old.elements) }
{
    match with_suffix(name, suffix) {
        Some(text) => zones.reserve(heap, text.as_str(), len, 0),
        None => Err(ZoneError::BadName),
    }
}
