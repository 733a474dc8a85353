//! Benchmarks of rings.
ghost use Rattle.std.specs.Prelude.{◌≡◌, ◌+◌, ◌<◌, ◌≤◌, ◌⊎◌, [], true};
ghost use Rattle.dp_heap.specs.Elements.{count_of, is_busy};
ghost use Rattle.dp_ring.specs.Rings.{room_in};

use crate::heaps::Way;
use dp_heap::Heap;
use dp_ring::Ring;
use dp_zone::Zones;

// The number of a ring's slots.
const PLACES: u32 = 1024;

// Puts a number in and takes it out; returns whether it was the same.
#[inline(never)]
fn one(ring: &mut Ring, number: u32) -> bool
    requires empty { ring.old.entries ≡ [] }
    requires room { 0 < room_in ring.old }
    ensures moved { result ≡ true }
    ensures same { ring.new ≡ ring.old }
{
    ring.enqueue(number) && ring.dequeue() == Some(number)
}

// Repeats it `rounds` times; returns how many succeeded.
fn one_by_one(ring: &mut Ring, rounds: u32) -> u32
    requires empty { ring.old.entries ≡ [] }
    requires room { 0 < room_in ring.old }
    ensures all { result ≡ rounds }
    ensures same { ring.new ≡ ring.old }
{
    let mut moved = 0;
    for number in 0..rounds {
        if one(ring, number) {
            moved += 1;
        }
    }
    moved
}

// Puts 32 numbers in and takes them out; returns whether both succeeded.
#[inline(never)]
fn bulk(ring: &mut Ring, numbers: &mut [u32; 32]) -> bool
    requires empty { ring.old.entries ≡ [] }
    requires room { 32 ≤ room_in ring.old }
    ensures moved { result ≡ true }
    ensures same { ring.new ≡ ring.old }
{
    ring.enqueue_bulk(numbers) && ring.dequeue_bulk(numbers)
}

// Repeats it `rounds` times; returns how many succeeded.
fn in_bulk(ring: &mut Ring, rounds: u32) -> u32
    requires empty { ring.old.entries ≡ [] }
    requires room { 32 ≤ room_in ring.old }
    ensures all { result ≡ rounds }
    ensures same { ring.new ≡ ring.old }
{
    let mut numbers = [7; 32];
    let mut moved = 0;
    for _ in 0..rounds {
        if bulk(ring, &mut numbers) {
            moved += 1;
        }
    }
    moved
}

/// The same with a ring in a heap.
pub fn moved_in(heap: &mut Heap, way: Way, rounds: u32) -> u32
    ensures moved { (result ≡ rounds) ⊎ (result ≡ 0) }
    ensures counted { count_of is_busy heap.new.elements ≡ count_of is_busy heap.old.elements }
{
    let mut zones = Zones::new();
    let Ok(zone) = zones.reserve(heap, "ring", 4 * PLACES, 0) else {
        return 0;
    };
    let mut ring = Ring::over(zone, PLACES);
    let moved = match way {
        Way::One => one_by_one(&mut ring, rounds),
        Way::Bulk => in_bulk(&mut ring, rounds),
    };
    zones.give_back(heap, ring.into_zone());
    moved
}
