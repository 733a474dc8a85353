//! Up to eight rings, by number.

ghost use Rattle.std.specs.Prelude.{◌≡◌, ◌<◌, ◌≤◌, ◌∷◌, [], length, nat_lt, if◌then◌else◌, slice_get, slice_set, is_none, IsSome};
ghost use Rattle.std.specs.List.{position};
ghost use Rattle.dp_ring.specs.Rings.{room_in, with_more, without_first};
ghost use Rattle.dp_engine.specs.Queues.{rings_in, RingsFirst, ring_at, ring_of};

use dp_pool::proved;
use dp_ring::Ring;
use std::marker::Model;

/// At most eight rings of packet handles, by number from 0.
pub struct Rings {
    rings: [Option<Ring>; 8],
    // The number of rings.
    count: u8,
}

impl Model for Rings {
    ghost use Rattle.std.specs.Prelude.{◌≡◌, List, length};
    ghost use Rattle.dp_ring.specs.Rings.{RingView};
    ghost use Rattle.dp_engine.specs.Queues.{rings_in, RingsFirst};

    ghost Value = { List RingView };

    ghost view = { λ l. rings_in l.rings };

    ghost invariant = { λ l. ((length l.rings ≡ 8) × RingsFirst l.rings) × (l.count ≡ length (rings_in l.rings)) };
}

// The first slot without a ring.
fn first_empty(slots: &[Option<Ring>]) -> Option<usize>
    ensures { result ≡ position is_none slots.now }
{
    slots.iter().position(|slot| slot.is_none())
}

fn ring_in(rings: &[Option<Ring>; 8], k: u8) -> &Ring
    requires { k < length (rings_in rings.now) }
    ensures { result.now ≡ ring_at (rings_in rings.now) k }
{
    match &rings[usize::from(k)] {
        Some(ring) => ring,
        None => {
            proved(false);
            unreachable!()
        }
    }
}

// Appends an entry to a slot's ring, unless that is full. Returns whether it did, and how many entries the ring has afterwards.
fn push_in(slot: &mut Option<Ring>, entry: u32) -> (bool, u32)
    requires { IsSome slot.old }
    ensures taken { result.0 ≡ nat_lt 0 (room_in (ring_of slot.old)) }
    ensures count { result.1 ≡ length (ring_of slot.new).entries }
    ensures bound { result.1 < (ring_of slot.new).count }
    ensures ring { slot.new ≡ Some (if nat_lt 0 (room_in (ring_of slot.old)) then with_more (ring_of slot.old) (entry ∷ []) else ring_of slot.old) }
{
    match slot {
        Some(ring) => {
            let is_taken = ring.enqueue(entry);
            (is_taken, ring.count())
        }
        None => {
            proved(false);
            unreachable!()
        }
    }
}

// Removes and returns the first entry of a slot's ring.
fn pop_in(slot: &mut Option<Ring>) -> Option<u32>
    requires { IsSome slot.old }
    ensures first { result ≡ slice_get (ring_of slot.old).entries 0 }
    ensures rest { slot.new ≡ Some (without_first (ring_of slot.old) 1) }
{
    match slot {
        Some(ring) => ring.dequeue(),
        None => {
            proved(false);
            unreachable!()
        }
    }
}

impl Rings {
    /// Takes ownership of these rings, by slot.
    pub fn over(rings: [Option<Ring>; 8]) -> Rings
        requires { RingsFirst rings }
        ensures { result ≡ rings_in rings }
    {
        let count = first_empty(&rings).unwrap_or(8) as u8;
        Rings { rings, count }
    }

    /// The number of rings.
    pub fn len(&self) -> usize
        ensures value { result ≡ length self.now }
        ensures bound { result ≤ 8 }
    {
        usize::from(self.count)
    }

    /// The number of entries of a ring.
    pub fn count(&self, k: u8) -> u32
        requires { k < length self.now }
        ensures value { result ≡ length (ring_at self.now k).entries }
        ensures bound { result < (ring_at self.now k).count }
    {
        ring_in(&self.rings, k).count()
    }

    /// The `i`-th entry of a ring from the front, if there is one.
    pub fn peek(&self, k: u8, i: u32) -> Option<u32>
        requires { k < length self.now }
        ensures { result ≡ slice_get (ring_at self.now k).entries i }
    {
        ring_in(&self.rings, k).peek(i)
    }

    /// Appends an entry to a ring, unless that is full. Returns whether it did, and how many entries the ring has afterwards.
    pub fn push(&mut self, k: u8, entry: u32) -> (bool, u32)
        requires { k < length self.old }
        ensures taken { result.0 ≡ nat_lt 0 (room_in (ring_at self.old k)) }
        ensures count { result.1 ≡ length (ring_at self.new k).entries }
        ensures bound { result.1 < (ring_at self.new k).count }
        ensures rings { self.new ≡ (if nat_lt 0 (room_in (ring_at self.old k)) then slice_set self.old k (with_more (ring_at self.old k) (entry ∷ []))
            else self.old) }
    {
        push_in(&mut self.rings[usize::from(k)], entry)
    }

    /// Removes and returns the first entry of a ring, if there is one.
    pub fn pop(&mut self, k: u8) -> Option<u32>
        requires { k < length self.old }
        ensures first { result ≡ slice_get (ring_at self.old k).entries 0 }
        ensures rest { self.new ≡ slice_set self.old k (without_first (ring_at self.old k) 1) }
    {
        pop_in(&mut self.rings[usize::from(k)])
    }

    /// Returns the rings, each in the slot of its number.
    pub fn into_rings(self) -> [Option<Ring>; 8]
        ensures same { rings_in result ≡ self }
        ensures first { RingsFirst result }
    {
        let Rings { rings, count: _ } = self;
        rings
    }
}
