//! The queues of a machine: its transmit lists, their counts, its rings, and the number of the lowest non-empty ring.

ghost use Rattle.std.specs.Prelude.{◌≡◌, ◌<◌, ◌≤◌, ◌++◌, ◌∷◌, [], length, nat_lt, drop, slice_get, true, false, IsTrue, IfSome, Some};
ghost use Rattle.std.specs.List.{position, position_or_len};
ghost use Rattle.dp_ring.specs.Rings.{room_in};
ghost use Rattle.dp_engine.specs.Queues.{rings_in, RingsFirst, ring_at, is_waiting, AreCounts};
ghost use Rattle.dp_model.specs.declared.queue.Queue.TheVariants.{Tx, Ring as OfRing};
ghost use Rattle.dp_engine.specs.HandleQueues.{IsQueue, ring_of_queue, Becomes};

use crate::rings::Rings;
use dp_model::Queue;
use dp_pool::proved;
use dp_ring::Ring;
use std::marker::Model;

/// The transmit lists and the rings of a machine, by number, the counts of the lists, and which ring is the lowest non-empty one.
pub struct Queues {
    outboxes: Rings,
    rings: Rings,
    // The least number of a ring that has an entry; the number of rings if none has.
    first: u8,
    // The number of entries of each transmit list. After most turns most lists have none, and here that is seen soonest.
    counts: [u32; 8],
}

impl Model for Queues {
    ghost use Rattle.std.specs.Prelude.{◌≡◌};
    ghost use Rattle.std.specs.List.{position_or_len};
    ghost use Rattle.dp_engine.specs.Queues.{QueuesView, is_waiting, AreCounts};

    ghost Value = { QueuesView };

    ghost view = { λ q. record { rings = q.rings; outboxes = q.outboxes } };

    ghost invariant = { λ q. (q.first ≡ position_or_len is_waiting q.rings) × AreCounts q.counts q.outboxes };
}

// The least number of a ring that has an entry; the number of rings if none has. No ring below `from` has one.
fn first_from(rings: &Rings, from: u8) -> u8
    requires { from ≤ position_or_len is_waiting rings.now }
    ensures { result ≡ position_or_len is_waiting rings.now }
{
    let end = rings.len() as u8;
    for k in from..end {
        if rings.count(k) != 0 {
            return k;
        }
    }
    end
}

// The numbers of entries of these lists.
fn counts_of(lists: &Rings) -> [u32; 8]
    ensures { AreCounts result lists.now }
{
    let mut counts = [0; 8];
    for k in 0..lists.len() as u8 {
        counts[usize::from(k)] = lists.count(k);
    }
    counts
}

impl Queues {
    /// Takes ownership of these rings and transmit lists, by slot.
    pub fn over(rings: [Option<Ring>; 8], outboxes: [Option<Ring>; 8]) -> Queues
        requires rings { RingsFirst rings }
        requires outboxes { RingsFirst outboxes }
        ensures { result ≡ record { rings = rings_in rings; outboxes = rings_in outboxes } }
    {
        let rings = Rings::over(rings);
        let outboxes = Rings::over(outboxes);
        let first = first_from(&rings, 0);
        let counts = counts_of(&outboxes);
        Queues {
            outboxes,
            rings,
            first,
            counts,
        }
    }

    /// The number of rings.
    pub fn rings(&self) -> usize
        ensures value { result ≡ length self.now.rings }
        ensures bound { result ≤ 8 }
    {
        self.rings.len()
    }

    /// The number of transmit lists.
    pub fn outboxes(&self) -> usize
        ensures value { result ≡ length self.now.outboxes }
        ensures bound { result ≤ 8 }
    {
        self.outboxes.len()
    }

    /// The number of handles in a queue.
    #[inline(always)]
    pub fn count(&self, queue: Queue) -> u32
        requires { IsQueue queue self.now.rings self.now.outboxes }
        ensures value { result ≡ length (ring_of_queue queue self.now.rings self.now.outboxes).entries }
        ensures bound { result < (ring_of_queue queue self.now.rings self.now.outboxes).count }
    {
        match queue {
            Queue::Tx(port) => self.counts[usize::from(port)],
            Queue::Ring(ring) => self.rings.count(ring),
        }
    }

    /// The `i`-th handle of a queue from the front, if there is one.
    #[inline(always)]
    pub fn peek(&self, queue: Queue, i: u32) -> Option<u32>
        requires { IsQueue queue self.now.rings self.now.outboxes }
        ensures { result ≡ slice_get (ring_of_queue queue self.now.rings self.now.outboxes).entries i }
    {
        match queue {
            Queue::Tx(port) => self.outboxes.peek(port, i),
            Queue::Ring(ring) => self.rings.peek(ring, i),
        }
    }

    // Appends a handle to a transmit list. Returns false if the list is full.
    #[inline(always)]
    fn push_list(&mut self, port: u8, handle: u32) -> bool
        requires { port < length self.old.outboxes }
        ensures taken { result ≡ nat_lt 0 (room_in (ring_at self.old.outboxes port)) }
        ensures more { IsTrue result → Becomes (Tx port) ((ring_at self.old.outboxes port).entries ++ handle ∷ []) self.old self.new }
        ensures full { result ≡ false → self.new ≡ self.old }
    {
        let (is_taken, count) = self.outboxes.push(port, handle);
        self.counts[usize::from(port)] = count;
        is_taken
    }

    // Removes and returns the first handle of a transmit list, if there is one.
    #[inline(always)]
    fn pop_list(&mut self, port: u8) -> Option<u32>
        requires { port < length self.old.outboxes }
        ensures first { result ≡ slice_get (ring_at self.old.outboxes port).entries 0 }
        ensures rest { Becomes (Tx port) (drop 1 (ring_at self.old.outboxes port).entries) self.old self.new }
    {
        let handle = self.outboxes.pop(port);
        self.counts[usize::from(port)] = self.outboxes.count(port);
        handle
    }

    /// Appends a handle to a queue. Returns false if the queue is full.
    #[inline(always)]
    pub fn push(&mut self, queue: Queue, handle: u32) -> bool
        requires { IsQueue queue self.old.rings self.old.outboxes }
        ensures taken { result ≡ nat_lt 0 (room_in (ring_of_queue queue self.old.rings self.old.outboxes)) }
        ensures more { IsTrue result → Becomes queue ((ring_of_queue queue self.old.rings self.old.outboxes).entries ++ handle ∷ []) self.old self.new }
        ensures full { result ≡ false → self.new ≡ self.old }
    {
        match queue {
            Queue::Tx(port) => self.push_list(port, handle),
            Queue::Ring(ring) => {
                let (is_taken, _) = self.rings.push(ring, handle);
                if is_taken && ring < self.first {
                    self.first = ring;
                }
                is_taken
            }
        }
    }

    /// Removes and returns the first handle of a queue, if there is one.
    #[inline(always)]
    pub fn pop(&mut self, queue: Queue) -> Option<u32>
        requires { IsQueue queue self.old.rings self.old.outboxes }
        ensures first { result ≡ slice_get (ring_of_queue queue self.old.rings self.old.outboxes).entries 0 }
        ensures rest { Becomes queue (drop 1 (ring_of_queue queue self.old.rings self.old.outboxes).entries) self.old self.new }
    {
        match queue {
            Queue::Tx(port) => self.pop_list(port),
            Queue::Ring(ring) => {
                let handle = self.rings.pop(ring);
                if ring <= self.first {
                    self.first = first_from(&self.rings, ring);
                }
                handle
            }
        }
    }

    /// Removes and returns the first handle of the lowest ring that has one. This must be that ring.
    #[inline(always)]
    pub fn pop_waiting(&mut self, ring: u8) -> u32
        requires waits { position is_waiting self.old.rings ≡ Some ring }
        requires few { ring < 8 }
        ensures first { Some result ≡ slice_get (ring_at self.old.rings ring).entries 0 }
        ensures rest { Becomes (OfRing ring) (drop 1 (ring_at self.old.rings ring).entries) self.old self.new }
    {
        let Some(handle) = self.rings.pop(ring) else {
            proved(false);
            unreachable!();
        };
        // Mostly it has no other entry then.
        if self.rings.count(ring) == 0 {
            self.first = self.rings.len() as u8;
            if ring + 1 < self.first {
                self.first = first_from(&self.rings, ring + 1);
            }
        }
        handle
    }

    /// The lowest number of a ring that has an entry, if one has.
    pub fn first_waiting(&self) -> Option<u8>
        ensures value { result ≡ position is_waiting self.now.rings }
        ensures bound { IfSome result (λ k. k < length self.now.rings) }
        ensures few { IfSome result (λ k. k < 8) }
        ensures waits { IfSome result (λ k. is_waiting (ring_at self.now.rings k) ≡ true) }
    {
        if self.first < self.rings.len() as u8 {
            Some(self.first)
        } else {
            None
        }
    }

    /// Returns the rings and the transmit lists, each in the slot of its number.
    pub fn into_rings(self) -> ([Option<Ring>; 8], [Option<Ring>; 8])
        ensures rings { (rings_in result.0 ≡ self.rings) × RingsFirst result.0 }
        ensures outboxes { (rings_in result.1 ≡ self.outboxes) × RingsFirst result.1 }
    {
        let Queues {
            outboxes,
            rings,
            first: _,
            counts: _,
        } = self;
        (rings.into_rings(), outboxes.into_rings())
    }
}
