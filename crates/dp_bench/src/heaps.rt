//! The heap of a benchmark, and the benchmarks in it.
ghost use Rattle.std.specs.Prelude.{◌≡◌, IfSome};
ghost use Rattle.dp_heap.specs.Elements.{count_of, is_busy};
ghost use Rattle.dp_region.specs.Region.{IsRegionSize};
ghost use Rattle.dp_bench.specs.Rounds.{Served};

use crate::mbufs::Deed;
use crate::{blocks, mbufs, pools, rings};
use dp_heap::Heap;
use dp_region::Region;
use std::alloc::Global;

/// How numbers go into a ring and come out, and objects out of a pool and in.
#[derive(Clone, Copy)]
pub enum Way {
    /// One a round.
    One,
    /// 32 a round.
    Bulk,
}

/// What rounds are done with.
#[derive(Clone, Copy)]
pub enum Bench {
    /// Blocks, with this number of others out.
    Blocks(u32),
    Ring(Way),
    /// A pool with a cache for this number of indexes.
    Pool(u32, Way),
    Mbufs(Deed),
}

// The size of the heap, in bytes.
const SIZE: u32 = 2_097_152;

// A heap of this size, if there is memory for it.
fn heap_of(alloc: Global, size: u32) -> Option<Heap>
    requires { IsRegionSize size }
    ensures { IfSome result (λ h. count_of is_busy h.elements ≡ 0) }
{
    match Region::new(alloc, size) {
        Ok(region) => Some(Heap::new(region)),
        Err(_) => None,
    }
}

// A heap with nothing out, if there is memory for it.
fn heap(alloc: Global) -> Option<Heap>
    ensures { IfSome result (λ h. count_of is_busy h.elements ≡ 0) }
{
    heap_of(alloc, SIZE)
}

/// Does `rounds` rounds in a heap of its own; returns how many succeeded.
#[tactic(auto, using(crate::proofs::Rounds::none_served))]
pub fn served(alloc: Global, bench: Bench, rounds: u32) -> u32
    ensures { Served bench rounds result }
{
    let Some(mut heap) = heap(alloc) else {
        return 0;
    };
    let served = match bench {
        Bench::Blocks(others) => blocks::pairs_beside(&mut heap, others, rounds),
        Bench::Ring(way) => rings::moved_in(&mut heap, way, rounds),
        Bench::Pool(cache, way) => pools::served_in(&mut heap, cache, way, rounds),
        Bench::Mbufs(deed) => mbufs::served_in(&mut heap, deed, rounds),
    };
    heap.close().close();
    served
}
