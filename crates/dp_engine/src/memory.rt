//! The region of an engine, and its layout.

ghost use Rattle.std.specs.Prelude.{◌≡◌, ◌*◌, ◌<◌, ◌≤◌, [], length, IfOk, IfErr, OnOk, IfSome, is_some, if◌then◌else◌};
ghost use Rattle.dp_engine.specs.Needs.{bytes_needed};
ghost use Rattle.dp_engine.specs.Layouts.{IsLaidOut, PartsIn, zones_in};
ghost use Rattle.dp_engine.specs.Memories.{IsOneFree, Returns, RingsIn, PoolsIn, filled};

use crate::builder::{MemoryBuilder, put_pool};
use crate::names::ListKind;
use crate::needs::{list_counts, need, power_above, ring_counts};
use dp_heap::Heap;
use dp_mbuf::MAX_POOLS;
use dp_model::Env;
use dp_pool::Pool;
use dp_region::Region;
use dp_ring::Ring;
use dp_zone::Zones;
use std::marker::Model;

/// What lies in the zones of the engine's memory: pools of mbufs, rings, and the transmit lists of ports. In each list the first slots are filled.
pub struct Parts {
    pub pools: [Option<Pool>; MAX_POOLS],
    pub rings: [Option<Ring>; 8],
    pub lists: [Option<Ring>; 8],
}

/// A heap in a region, and the table of its zones. `close` ends it.
pub struct EngineMemory {
    heap: Heap,
    zones: Zones,
}

impl Model for EngineMemory {
    ghost use Rattle.dp_heap.specs.Elements.{count_of, is_busy};
    ghost use Rattle.dp_engine.specs.Builders.{size_of};
    ghost use Rattle.dp_engine.specs.Memories.{EngineMemoryView};

    ghost Value = { EngineMemoryView };

    ghost view = { λ s. record { home = s.heap.home; size = size_of s.heap.elements; out = count_of is_busy s.heap.elements } };
}

// Lays out the memory of an engine in a region that is large enough. The spare zone, which is taken first, is as long as the last pool's queue; it is
// given back when that pool is made, so the bytes that are left always suffice.
fn lay_out(region: Region, env: &Env) -> (EngineMemory, Parts)
    requires lent { region.lent ≡ [] }
    requires room { bytes_needed env.now ≤ length region.bytes }
    ensures { IsLaidOut region.home (length region.bytes) env.now result.0 result.1 }
{
    let specs = env.pools();
    let last = specs.len() - 1;
    let lists = list_counts(env.ports());
    let rings = ring_counts(env.rings());
    let mut builder = MemoryBuilder::over(region, 4 * power_above(specs[last].count));
    let lists = builder.take_rings(ListKind::Port, lists.as_slice());
    let rings = builder.take_rings(ListKind::Ring, rings.as_slice());
    let mut pools = builder.take_pools(&specs[..last]);
    let (heap, zones, pool) = builder.finish(last, specs[last]);
    put_pool(&mut pools[last], pool);
    let parts = Parts {
        pools,
        rings,
        lists,
    };
    (EngineMemory { heap, zones }, parts)
}

impl EngineMemory {
    /// Lays out the memory of an engine in a region with nothing lent: a pool of mbufs for each pool of the environment, and an empty ring for
    /// each ring and each port, in order, all in zones of the engine's memory. Returns the region if it has fewer bytes than the engine needs.
    pub fn open(region: Region, env: &Env) -> Result<(EngineMemory, Parts), Region>
        requires { region.lent ≡ [] }
        ensures opened { IfOk result (λ s. IsLaidOut region.home (length region.bytes) env.now s.0 s.1) }
        ensures room { OnOk result (bytes_needed env.now ≤ length region.bytes) }
        ensures refused { IfErr result (λ r. (r ≡ region) × (length region.bytes < bytes_needed env.now)) }
    {
        if u64::from(region.size()) < need(env) {
            return Err(region);
        }
        Ok(lay_out(region, env))
    }

    // Gives the zone of a slot's ring back.
    fn end_ring(&mut self, slot: Option<Ring>)
        requires { IfSome slot (λ r. r.home ≡ self.old.home) }
        ensures { Returns (if is_some slot then 1 else 0) self.old self.new }
    {
        if let Some(ring) = slot {
            self.zones.give_back(&mut self.heap, ring.into_zone());
        }
    }

    // Gives the zones of a slot's pool back.
    fn end_pool(&mut self, slot: Option<Pool>)
        requires { IfSome slot (λ p. p.zones.home ≡ self.old.home) }
        ensures { Returns (2 * (if is_some slot then 1 else 0)) self.old self.new }
    {
        if let Some(pool) = slot {
            pool.unmake(&mut self.heap, &mut self.zones);
        }
    }

    // Gives the zones of rings back.
    #[tactic(auto, using(std::proofs::lemmas::Grind::common_steps))]
    fn end_rings(&mut self, rings: [Option<Ring>; 8])
        requires { RingsIn self.old.home rings }
        ensures { Returns (filled rings) self.old self.new }
    {
        let [a, b, c, d, e, f, g, h] = rings;
        self.end_ring(a);
        self.end_ring(b);
        self.end_ring(c);
        self.end_ring(d);
        self.end_ring(e);
        self.end_ring(f);
        self.end_ring(g);
        self.end_ring(h);
    }

    // Gives the zones of pools back.
    #[tactic(auto, using(std::proofs::lemmas::Grind::common_steps))]
    fn end_pools(&mut self, pools: [Option<Pool>; MAX_POOLS])
        requires { PoolsIn self.old.home pools }
        ensures { Returns (2 * filled pools) self.old self.new }
    {
        let [a, b, c, d, e, f, g, h] = pools;
        self.end_pool(a);
        self.end_pool(b);
        self.end_pool(c);
        self.end_pool(d);
        self.end_pool(e);
        self.end_pool(f);
        self.end_pool(g);
        self.end_pool(h);
    }

    /// Returns the region, given all that lies in zones of the engine's memory: nothing of it is lent, and the heap was one free element.
    pub fn close(self, parts: Parts) -> Region
        requires home { PartsIn self.home parts }
        requires all { zones_in parts ≡ self.out }
        ensures same { (result.home ≡ self.home) × (length result.bytes ≡ self.size) }
        ensures lent { result.lent ≡ [] }
        ensures heap { IsOneFree result.bytes }
    {
        let mut memory = self;
        let Parts {
            pools,
            rings,
            lists,
        } = parts;
        memory.end_pools(pools);
        memory.end_rings(rings);
        memory.end_rings(lists);
        let EngineMemory { heap, zones: _ } = memory;
        heap.close()
    }
}
