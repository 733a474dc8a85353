//! The bytes of each zone that an engine takes, and the document of them.

ghost use Rattle.std.specs.Prelude.{◌≡◌, ◌^◌, ◌≤◌, true, length, map};
ghost use Rattle.std.specs.List.{AllByRecursion};
ghost use Rattle.dp_model.specs.Limits.{max_buffers, max_room};
ghost use Rattle.dp_model.specs.Environments.{pool_fits};
ghost use Rattle.dp_engine.specs.Needs.{zone_bytes, ring_bytes, bytes_needed};
ghost use Rattle.dp_cli.specs.Sizes as spec;

use crate::showing::write_env;
use arrayvec::ArrayVec;
use dp_console::{Document, Item, Text};
use dp_engine::need;
use dp_heap::HEADER_LEN;
use dp_mbuf::HEADER_SIZE;
use dp_model::{Env, PoolSpec, PortSpec, RingSpec};
use dp_region::CACHE_LINE;
use std::alloc::Global;

/// The bytes that a pool takes: those of the zone of its buffers, and those of the zone of its queue.
#[derive(Clone, Copy, Default)]
pub struct PoolSize {
    pub buffers: u64,
    pub queue: u64,
}

/// The bytes that each pool, each ring and each port's transmit list takes, with the headers of their zones.
#[derive(Drop)]
pub struct Sizes {
    pub pools: ArrayVec<PoolSize, 8>,
    pub rings: ArrayVec<u64, 8>,
    pub lists: ArrayVec<u64, 8>,
}

/// The bytes that a zone of this length takes.
fn zone_bytes(len: u64) -> u64
    requires { len ≤ 2 ^ 40 }
    ensures { result ≡ zone_bytes len }
{
    u64::from(HEADER_LEN) + len.next_multiple_of(u64::from(CACHE_LINE))
}

/// The bytes that a pool takes.
#[tactic(auto, using(dp_engine::proofs::Powers::power_is))]
fn pool_size(pool: PoolSpec) -> PoolSize
    requires { (pool.count ≤ max_buffers) × (pool.room ≤ max_room) }
    ensures { result ≡ spec.pool_size pool }
{
    let object = (pool.room + HEADER_SIZE).next_multiple_of(CACHE_LINE);
    PoolSize {
        buffers: zone_bytes(u64::from(pool.count) * u64::from(object)),
        queue: zone_bytes(4 * (u64::from(pool.count) + 1).next_power_of_two()),
    }
}

/// The bytes that pools take.
fn pool_sizes(pools: &[PoolSpec]) -> ArrayVec<PoolSize, 8>
    requires few { length pools.now ≤ 8 }
    requires fit { AllByRecursion (λ s. pool_fits s ≡ true) pools.now }
    ensures { result.items ≡ map spec.pool_size pools.now }
{
    let mut sizes = ArrayVec::new();
    for pool in pools.iter() {
        sizes.push(pool_size(*pool));
    }
    sizes
}

/// The bytes that rings take.
fn ring_sizes(rings: &[RingSpec]) -> ArrayVec<u64, 8>
    requires few { length rings.now ≤ 8 }
    ensures { result.items ≡ map (λ r. ring_bytes r.count) rings.now }
{
    let mut sizes = ArrayVec::new();
    for ring in rings.iter() {
        sizes.push(zone_bytes(4 * u64::from(ring.count)));
    }
    sizes
}

/// The bytes that the transmit lists of ports take.
fn list_sizes(ports: &[PortSpec]) -> ArrayVec<u64, 8>
    requires few { length ports.now ≤ 8 }
    ensures { result.items ≡ map (λ p. ring_bytes p.queue) ports.now }
{
    let mut sizes = ArrayVec::new();
    for port in ports.iter() {
        sizes.push(zone_bytes(4 * u64::from(port.queue)));
    }
    sizes
}

/// The bytes that each pool, ring and port of an environment takes.
#[tactic(auto, using(dp_engine::specs::Laws::known))]
fn each_of(env: &Env) -> Sizes
    ensures { spec.AreSizes env.now result }
{
    Sizes {
        pools: pool_sizes(env.pools()),
        rings: ring_sizes(env.rings()),
        lists: list_sizes(env.ports()),
    }
}

/// The bytes that each pool, ring and port of an environment takes. Together they are what `need` of dp_engine returns.
#[tactic(auto, using(crate::proofs::Sums::sizes_add_up))]
pub fn sizes_of(env: &Env) -> Sizes
    ensures each { spec.AreSizes env.now result }
    ensures sum { spec.sum_of result ≡ bytes_needed env.now }
{
    each_of(env)
}

/// Adds the document of what the engine of an environment takes, zone by zone and in all, and of the size of the region, in bytes.
pub fn say_sizes(alloc: Global, env: &Env, region: u32, out: &mut Text) {
    let (sizes, mut to) = (sizes_of(env), Document::new(alloc));
    to.begin_object("");
    to.item("view", Item::Text("sizes"));
    write_env(env, &mut to);
    to.numbers("lists", sizes.lists.as_slice());
    to.item("needed", Item::Number(need(env)));
    to.begin_list("pools");
    for pool in sizes.pools.as_slice() {
        to.numbers("", &[pool.buffers, pool.queue]);
    }
    to.end_list();
    to.item("region", Item::Number(u64::from(region)));
    to.numbers("rings", sizes.rings.as_slice());
    to.end_object();
    to.say_to(out);
}
