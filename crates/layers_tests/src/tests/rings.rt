//! Rings that are filled and emptied, call by call.
ghost use Rattle.std.specs.Prelude.{◌≡◌, length};

use super::cases::none_differs;
use super::memory::new_heap;
use Many::{Bulk, Burst};
use Step::{
    Contains, Count, Dequeue, DequeueBulk, DequeueBurst, Enqueue, EnqueueBulk, EnqueueBurst, Peek,
};
use dp_ring::Ring;
use dp_zone::Zones;
use std::alloc::Global;
use std::process::Abort;

/// A call of a ring, and what it answers.
enum Step {
    /// A value is taken, or not.
    Enqueue(u32, bool),
    /// All values are taken, or none.
    EnqueueBulk(&'static [u32], bool),
    /// This number of the values are taken.
    EnqueueBurst(&'static [u32], usize),
    /// This value leaves, or there is none.
    Dequeue(Option<u32>),
    /// The first values leave the ring for a buffer that had these, all of them or none; these are in the buffer then.
    DequeueBulk(&'static [u32], bool, &'static [u32]),
    /// The same, with the number of the values that leave.
    DequeueBurst(&'static [u32], usize, &'static [u32]),
    /// The k-th value is this, from 0, or there is none.
    Peek(u32, Option<u32>),
    /// The value is in the ring, or not.
    Contains(u32, bool),
    /// The ring has this number of values, and room for this number more.
    Count(u32, u32),
}

/// The number of slots of a ring, and calls.
static SCRIPTS: [(u32, &[Step]); 2] = [
    (
        8,
        &[
            Count(0, 7),
            Enqueue(1, true),
            Enqueue(2, true),
            Enqueue(3, true),
            Enqueue(4, true),
            Enqueue(5, true),
            Enqueue(6, true),
            Enqueue(7, true),
            Enqueue(8, false),
            Dequeue(Some(1)),
            Dequeue(Some(2)),
            EnqueueBulk(&[8, 9, 10], false),
            Count(5, 2),
            EnqueueBulk(&[8, 9], true),
            Count(7, 0),
            EnqueueBurst(&[10, 11, 12], 0),
            Count(7, 0),
            Peek(0, Some(3)),
            Peek(6, Some(9)),
            Peek(7, None),
            Contains(9, true),
            Contains(2, false),
            DequeueBurst(
                &[0, 0, 0, 0, 0, 0, 0, 0, 0],
                7,
                &[3, 4, 5, 6, 7, 8, 9, 0, 0],
            ),
            Count(0, 7),
            Dequeue(None),
            Count(0, 7),
        ],
    ),
    (
        4,
        &[
            EnqueueBurst(&[1, 2, 3, 4], 3),
            DequeueBulk(&[0, 0, 0, 0], false, &[0, 0, 0, 0]),
            Count(3, 0),
            DequeueBulk(&[0, 0], true, &[1, 2]),
            Count(1, 2),
            EnqueueBurst(&[5], 1),
            DequeueBurst(&[7, 7, 7], 2, &[3, 5, 7]),
            DequeueBulk(&[1, 2], false, &[1, 2]),
            DequeueBulk(&[], true, &[]),
        ],
    ),
];

// The calls that may move nothing keep the ring in its zone.
fn enqueue(ring: &mut Ring, value: u32) -> bool
    ensures { ring.new.home ≡ ring.old.home }
{
    ring.enqueue(value)
}

fn enqueue_bulk(ring: &mut Ring, values: &[u32]) -> bool
    ensures { ring.new.home ≡ ring.old.home }
{
    ring.enqueue_bulk(values)
}

// How many values leave at once: all that fit or none, or this number.
#[derive(Drop)]
enum Many {
    Bulk(bool),
    Burst(usize),
}

// Takes values out into a buffer that was as said, and compares the buffer afterwards.
fn dequeue_many(ring: &mut Ring, was: &[u32], many: &Many, then: &[u32]) -> bool
    ensures { ring.new.home ≡ ring.old.home }
{
    let mut room = [0; 9];
    let Some(values) = room.get_mut(..was.len()) else {
        return false;
    };
    values.copy_from_slice(was);
    let leave = match many {
        Bulk(taken) => ring.dequeue_bulk(values) == *taken,
        Burst(number) => ring.dequeue_burst(values) == *number,
    };
    leave && &*values == then
}

fn does(ring: &mut Ring, step: &Step) -> bool
    ensures { ring.new.home ≡ ring.old.home }
{
    match step {
        Enqueue(value, taken) => enqueue(ring, *value) == *taken,
        EnqueueBulk(values, taken) => enqueue_bulk(ring, values) == *taken,
        EnqueueBurst(values, number) => ring.enqueue_burst(values) == *number,
        Dequeue(first) => ring.dequeue() == *first,
        DequeueBulk(was, taken, then) => dequeue_many(ring, was, &Bulk(*taken), then),
        DequeueBurst(was, number, then) => dequeue_many(ring, was, &Burst(*number), then),
        Peek(k, value) => ring.peek(*k) == *value,
        Contains(value, there) => ring.contains(*value) == *there,
        Count(count, room) => ring.count() == *count && ring.free_count() == *room,
    }
}

// The first step that is not as its row says, from 0.
fn differs(ring: &mut Ring, steps: &[Step]) -> Option<usize>
    ensures { ring.new.home ≡ ring.old.home }
{
    for (k, step) in steps.iter().enumerate() {
        if !does(ring, step) {
            return Some(k);
        }
    }
    None
}

// The same for a new ring with this number of slots.
fn differs_in(rt: &impl Abort, alloc: Global, slots: u32, steps: &[Step]) -> Option<usize> {
    let mut heap = new_heap(rt, alloc, 4096);
    let mut zones = Zones::new();
    let zone = zones.reserve(&mut heap, "ring", 32, 0).expect(rt, "ring");
    assert!(rt; zone.len() >= 32 && (slots == 4 || slots == 8));
    let mut ring = Ring::over(zone, slots);
    let first = differs(&mut ring, steps);
    zones.give_back(&mut heap, ring.into_zone());
    heap.close().close();
    first
}

#[test]
fn scripts(rt: HostRuntime) {
    for (k, (slots, steps)) in SCRIPTS.iter().enumerate() {
        none_differs(&rt, k, differs_in(&rt, rt.alloc(), *slots, steps));
    }
}
