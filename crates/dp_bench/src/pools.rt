//! Benchmarks of pools of objects.
ghost use Rattle.std.specs.Prelude.{◌≡◌, ◌<◌, ◌≤◌, true};
ghost use Rattle.dp_heap.specs.Elements.{count_of, is_busy};
ghost use Rattle.dp_pool.specs.Queues.{in_count};
ghost use Rattle.dp_bench.specs.Rounds.{ServedBy};

use crate::heaps::Way;
use dp_heap::Heap;
use dp_pool::Pool;
use dp_zone::Zones;

// The number of a pool's objects, and their size in bytes.
const OBJECTS: u32 = 8191;

const SIZE: u32 = 64;

// Takes an object and puts it back; returns whether there was one.
#[inline(never)]
#[tactic(auto, using(crate::proofs::Objects::taken_is_out, crate::proofs::Objects::back_taken))]
fn pair(pool: &mut Pool) -> bool
    requires { 0 < in_count pool.old.out }
    ensures served { result ≡ true }
    ensures same { (pool.new.out ≡ pool.old.out) × (pool.new.zones ≡ pool.old.zones) }
{
    match pool.get() {
        Some(index) => {
            pool.put(index);
            true
        }
        None => false,
    }
}

// Repeats it `rounds` times; returns how many succeeded.
fn pairs(pool: &mut Pool, rounds: u32) -> u32
    requires { 0 < in_count pool.old.out }
    ensures all { result ≡ rounds }
    ensures zones { pool.new.zones ≡ pool.old.zones }
{
    let mut served = 0;
    for _ in 0..rounds {
        if pair(pool) {
            served += 1;
        }
    }
    served
}

// Takes 32 objects in one call and puts them back in another; returns whether there were that many.
#[inline(never)]
fn bulk(pool: &mut Pool, indexes: &mut [u32; 32]) -> bool
    ensures { pool.new.zones ≡ pool.old.zones }
{
    if !pool.get_bulk(indexes) {
        return false;
    }
    pool.put_bulk(indexes);
    true
}

// Repeats it `rounds` times; returns how many succeeded.
fn in_bulk(pool: &mut Pool, indexes: &mut [u32; 32], rounds: u32) -> u32
    ensures most { result ≤ rounds }
    ensures zones { pool.new.zones ≡ pool.old.zones }
{
    let mut served = 0;
    for _ in 0..rounds {
        if bulk(pool, indexes) {
            served += 1;
        }
    }
    served
}

/// The same with a pool in a heap.
#[tactic(auto, using(crate::proofs::Rounds::none_served_by))]
pub fn served_in(heap: &mut Heap, cache: u32, way: Way, rounds: u32) -> u32
    ensures served { ServedBy way rounds result }
    ensures counted { count_of is_busy heap.new.elements ≡ count_of is_busy heap.old.elements }
{
    let mut zones = Zones::new();
    let Ok(mut pool) = Pool::make(heap, &mut zones, "pool", OBJECTS, SIZE, cache) else {
        return 0;
    };
    let served = match way {
        Way::One => pairs(&mut pool, rounds),
        Way::Bulk => in_bulk(&mut pool, &mut [0; 32], rounds),
    };
    pool.unmake(heap, &mut zones);
    served
}
