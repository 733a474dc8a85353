//! Computes how many bytes an engine needs.

ghost use Rattle.std.specs.Prelude.{◌≡◌, ◌+◌, ◌*◌, ◌<◌, ◌≤◌, true, length, map};
ghost use Rattle.std.specs.List.{AllByRecursion};
ghost use Rattle.dp_region.specs.Region.{max_region};
ghost use Rattle.dp_ring.specs.Rings.{IsCount, max_slots};
ghost use Rattle.dp_mbuf.specs.declared.limits.TheConstants.{MAX_POOLS};
ghost use Rattle.dp_model.specs.Limits.{max_buffers, max_room};
ghost use Rattle.dp_model.specs.Environments.{pool_fits};
ghost use Rattle.dp_engine.specs.Needs.{power_above, zone_bytes, objects_len, queue_len, pool_bytes, ring_bytes, total, ring_counts, list_counts, bytes_needed};
ghost use Rattle.dp_engine.specs.Needs.{max_objects_len, max_pool_bytes, max_ring_bytes};

use arrayvec::ArrayVec;
use dp_heap::HEADER_LEN;
use dp_mbuf::HEADER_SIZE;
use dp_model::{Env, PoolSpec, PortSpec, RingSpec};
use dp_region::CACHE_LINE;

// The bytes that a zone of this length takes.
fn zone_bytes(len: u32) -> u64
    requires { len ≤ max_region }
    ensures { result ≡ zone_bytes len }
{
    u64::from(HEADER_LEN) + u64::from(len).next_multiple_of(u64::from(CACHE_LINE))
}

/// The smallest power of two above `count`.
#[tactic(auto, using(crate::proofs::Powers::power_is))]
pub(crate) fn power_above(count: u32) -> u32
    requires { count ≤ max_buffers }
    ensures value { result ≡ power_above count }
    ensures bound { result ≤ max_slots }
{
    (count + 1).next_power_of_two()
}

/// The length of the zone of a pool's objects.
pub(crate) fn objects_len(spec: PoolSpec) -> u32
    requires { (spec.count ≤ max_buffers) × (spec.room ≤ max_room) }
    ensures value { result ≡ objects_len spec }
    ensures bound { result ≤ max_objects_len }
{
    spec.count * (spec.room + HEADER_SIZE).next_multiple_of(CACHE_LINE)
}

// The bytes that a pool takes.
fn pool_bytes(spec: PoolSpec) -> u64
    requires { (spec.count ≤ max_buffers) × (spec.room ≤ max_room) }
    ensures value { result ≡ pool_bytes spec }
    ensures bound { result ≤ max_pool_bytes }
{
    zone_bytes(objects_len(spec)) + zone_bytes(4 * power_above(spec.count))
}

// The bytes that pools take.
fn pools_bytes(specs: &[PoolSpec]) -> u64
    requires few { length specs.now ≤ MAX_POOLS }
    requires fit { AllByRecursion (λ s. pool_fits s ≡ true) specs.now }
    ensures value { result ≡ total pool_bytes specs.now }
    ensures bound { result ≤ MAX_POOLS * max_pool_bytes }
{
    let mut sum = 0;
    for spec in specs.iter() {
        sum += pool_bytes(*spec);
    }
    sum
}

// The bytes that rings with these numbers of slots take.
fn rings_bytes(counts: &[u32]) -> u64
    requires few { length counts.now ≤ 8 }
    requires fit { AllByRecursion IsCount counts.now }
    ensures value { result ≡ total ring_bytes counts.now }
    ensures bound { result ≤ 8 * max_ring_bytes }
{
    let mut sum = 0;
    for count in counts.iter() {
        sum += zone_bytes(4 * *count);
    }
    sum
}

/// The number of slots of each ring.
pub(crate) fn ring_counts(rings: &[RingSpec]) -> ArrayVec<u32, 8>
    requires { length rings.now ≤ 8 }
    ensures { result.items ≡ map (λ r. r.count) rings.now }
{
    let mut counts = ArrayVec::new();
    for ring in rings.iter() {
        counts.push(ring.count);
    }
    counts
}

/// The number of slots of each port's transmit list.
pub(crate) fn list_counts(ports: &[PortSpec]) -> ArrayVec<u32, 8>
    requires { length ports.now ≤ 8 }
    ensures { result.items ≡ map (λ p. p.queue) ports.now }
{
    let mut counts = ArrayVec::new();
    for port in ports.iter() {
        counts.push(port.queue);
    }
    counts
}

/// Returns the number of bytes that an engine of this environment needs: for each pool a zone of its objects and one of its queue, and for each
/// ring and transmit list one of 4 bytes for each slot. A zone takes its length, rounded up to 64, and 64 bytes more.
#[tactic(auto, using(crate::specs::Laws::known))]
pub fn need(env: &Env) -> u64
    ensures { result ≡ bytes_needed env.now }
{
    let pools = pools_bytes(env.pools());
    let rings = ring_counts(env.rings());
    let lists = list_counts(env.ports());
    pools + rings_bytes(rings.as_slice()) + rings_bytes(lists.as_slice())
}
