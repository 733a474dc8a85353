//! Calls on packets over three pools, and what they answer.

ghost use Rattle.std.specs.Prelude.{◌≡◌, ◌<◌, ◌≤◌};
ghost use Rattle.layers_tests.specs.Rows.{IsOver, StaysOver};

use super::calls::{
    End, alive, alloc, chain, copy, extend, free, free_count, free_sole, is_sole, load_four,
    receive, refs, rooms, segments, spells,
};
use super::cases::{must, none_differs};
use super::setup::{Sizes, close, open, sized};
use Step::{
    Alloc, Append, Chain, Copy, Free, FreeCount, FreeSole, IsSole, LoadFour, Park, Prepend,
    Receive, ReceiveAll, Refs, Rooms, Segments, Spells, SpellsAll,
};
use dp_mbuf::{MAX_ROOM, Mbufs};
use dp_model::Packet;
use std::alloc::Global;
use std::process::Abort;

/// A call, and what it answers. Packets have the numbers 0, 1, .. in the order in which they are made.
#[derive(Drop)]
enum Step {
    /// A packet with these bytes is made of buffers of a pool.
    Receive(u32, &'static [u8]),
    /// The same with this number of one byte, at most 2,049.
    ReceiveAll(u32, u8, usize),
    /// A packet without bytes is made of a buffer of a pool, or the pool has none.
    Alloc(u32, bool),
    /// A clone of a packet is made of mbufs of a pool, or the pool has too few.
    Copy(usize, u32, bool),
    Free(usize),
    /// The packet is one object with these bytes, and is freed as that; or it is not, and is kept.
    FreeSole(usize, &'static [u8], bool),
    /// The second packet is appended to the first.
    Chain(usize, usize),
    Append(usize, u16),
    Prepend(usize, u16),
    /// The packet is parked and is the same afterwards.
    Park(usize),
    /// A pool has this number of free buffers.
    FreeCount(u32, u32),
    /// The buffer of a segment has this number of references.
    Refs(usize, u32, u32),
    /// All buffers of the packet have one reference, or not.
    IsSole(usize, bool),
    Segments(usize, u32),
    /// Headroom, tailroom, and the lengths of the first and of the last segment.
    Rooms(usize, (u16, u16, u16, u16)),
    /// The first four bytes as a number.
    LoadFour(usize, u64),
    /// The packet has these bytes.
    Spells(usize, &'static [u8]),
    /// The packet has this number of one byte, at most 2,049.
    SpellsAll(usize, u8, usize),
}

/// The number of buffers of three pools and the bytes of their data rooms, and calls.
static SCRIPTS: [([(u32, u32); 3], &[Step]); 10] = [
    // A clone keeps the buffer.
    (
        [(2, 2176), (1, 256), (1, 0)],
        &[
            ReceiveAll(0, 7, 10),
            Copy(0, 0, true),
            FreeCount(0, 0),
            Free(0),
            FreeCount(0, 0),
            Alloc(0, false),
            Free(1),
            FreeCount(0, 2),
        ],
    ),
    // A packet is one object while it has one segment, of its own, and no clone.
    (
        [(3, 256), (1, 256), (1, 0)],
        &[
            Receive(0, &[1, 2, 3]),
            Copy(0, 0, true),
            FreeSole(0, &[1, 2, 3], false),
            FreeSole(1, &[1, 2, 3], false),
            Free(0),
            FreeSole(1, &[1, 2, 3], false),
            Free(1),
            FreeCount(0, 3),
            Receive(0, &[4, 5]),
            Receive(0, &[6]),
            FreeSole(3, &[6], true),
            FreeCount(0, 2),
            Receive(0, &[7, 8]),
            Chain(2, 4),
            FreeSole(2, &[4, 5, 7, 8], false),
            Free(2),
            FreeCount(0, 3),
        ],
    ),
    // A clone that finds too few mbufs takes none.
    (
        [(3, 2176), (1, 256), (1, 0)],
        &[
            ReceiveAll(0, 1, 2049),
            Segments(0, 2),
            Copy(0, 0, false),
            FreeCount(0, 1),
            Free(0),
        ],
    ),
    // Clones of clones share one buffer.
    (
        [(3, 2176), (1, 256), (1, 0)],
        &[
            Receive(0, &[1, 2, 3]),
            Copy(0, 0, true),
            Copy(1, 0, true),
            Refs(2, 0, 3),
            Free(0),
            Free(1),
            Refs(2, 0, 1),
            IsSole(2, true),
            FreeCount(0, 1),
            Free(2),
            FreeCount(0, 3),
        ],
    ),
    // A chain with its own clone.
    (
        [(6, 256), (1, 256), (1, 0)],
        &[
            ReceiveAll(0, 9, 300),
            Segments(0, 3),
            Rooms(0, (128, 84, 128, 44)),
            Copy(0, 0, true),
            Chain(0, 1),
            Segments(0, 6),
            Refs(0, 0, 2),
            Refs(0, 1, 2),
            Refs(0, 2, 2),
            Refs(0, 3, 2),
            Refs(0, 4, 2),
            Refs(0, 5, 2),
            IsSole(0, false),
            Free(0),
            FreeCount(0, 6),
        ],
    ),
    // Old bytes do not show.
    (
        [(1, 2176), (1, 256), (1, 0)],
        &[
            Receive(0, &[255, 255, 255, 255]),
            LoadFour(0, 0xffff_ffff),
            Free(0),
            Alloc(0, true),
            Append(1, 4),
            LoadFour(1, 0),
            Free(1),
        ],
    ),
    // Parking changes nothing.
    (
        [(2, 2176), (1, 256), (1, 0)],
        &[
            Receive(0, &[5, 5, 5, 5, 5]),
            Park(0),
            Spells(0, &[5, 5, 5, 5, 5]),
            Free(0),
        ],
    ),
    // The first segment is shared with a clone of the other pool, the last is not: bytes can be appended to the last only, and the clone keeps its
    // own. Once the clone is freed, bytes can be prepended too.
    (
        [(2, 256), (3, 256), (1, 0)],
        &[
            Receive(0, &[1, 2, 3]),
            Copy(0, 1, true),
            Receive(1, &[4, 5]),
            Chain(0, 2),
            Refs(0, 0, 2),
            Refs(0, 1, 1),
            Append(0, 2),
            Spells(0, &[1, 2, 3, 4, 5, 0, 0]),
            Spells(1, &[1, 2, 3]),
            Free(1),
            Prepend(0, 1),
            Spells(0, &[0, 1, 2, 3, 4, 5, 0, 0]),
            Free(0),
            FreeCount(0, 2),
            FreeCount(1, 3),
        ],
    ),
    // A packet of three segments is cloned into a pool whose buffers have no room, or less than the headroom, and outlives it.
    ([(3, 256), (2, 256), (3, 0)], &OUTLIVED),
    ([(3, 256), (2, 256), (3, 100)], &OUTLIVED),
];

/// A clone of three segments in the third pool, whose source is freed first.
const OUTLIVED: [Step; 14] = [
    ReceiveAll(0, 9, 300),
    Copy(0, 2, true),
    Rooms(1, (128, 84, 128, 44)),
    FreeCount(0, 0),
    FreeCount(2, 0),
    Free(0),
    SpellsAll(1, 9, 300),
    FreeCount(0, 0),
    FreeCount(2, 0),
    Append(1, 84),
    Rooms(1, (128, 0, 128, 128)),
    Free(1),
    FreeCount(0, 3),
    FreeCount(2, 3),
];

/// The headroom and the tailroom of a new packet in the third pool, whose data rooms have as many bytes as both.
static NEW_PACKETS: [(u16, u16); 8] = [
    (0, 0),
    (1, 0),
    (100, 0),
    (127, 0),
    (128, 0),
    (128, 1),
    (128, 72),
    (128, 3968),
];

// The packet with a number.
fn at(rt: &impl Abort, packets: &[Packet], k: usize) -> Packet {
    must(rt, k < packets.len(), "a packet");
    packets[k]
}

// Keeps a packet that is made; returns whether one should be.
fn makes(packets: &mut Vec<Packet>, made: Option<Packet>, some: bool) -> bool {
    match made {
        Some(packet) => some && packets.push(packet).is_ok(),
        None => !some,
    }
}

fn receive_all(rt: &impl Abort, m: &mut Mbufs, pool: u32, byte: u8, len: usize) -> Option<Packet>
    requires over { IsOver m.old.store }
    requires pool { pool < 2 }
    ensures { StaysOver m.old m.new }
{
    let bytes = [byte; 2049];
    receive(rt, m, pool, bytes.get(..len)?)
}

// Whether a packet that is parked is the same afterwards.
fn parks(rt: &impl Abort, m: &mut Mbufs, p: Packet) -> bool
    requires { IsOver m.old.store }
    ensures { StaysOver m.old m.new }
{
    alive(rt, m, &p);
    let number = m.park(p);
    m.unpark(number) == p
}

// The calls that change a packet.
fn changes(rt: &impl Abort, m: &mut Mbufs, packets: &[Packet], step: &Step) -> bool
    requires { IsOver m.old.store }
    ensures { StaysOver m.old m.new }
{
    match step {
        Free(k) => free(rt, m, at(rt, packets, *k)),
        FreeSole(k, bytes, one) => {
            let is_same = free_sole(rt, m, at(rt, packets, *k), bytes);
            return is_same == if *one { Some(true) } else { None };
        }
        Chain(k, tail) => chain(rt, m, &at(rt, packets, *k), at(rt, packets, *tail)),
        Append(k, n) => extend(rt, m, &at(rt, packets, *k), End::Back, *n),
        Prepend(k, n) => extend(rt, m, &at(rt, packets, *k), End::Front, *n),
        Park(k) => return parks(rt, m, at(rt, packets, *k)),
        _ => return shows(rt, m, packets, step),
    }
    true
}

fn spells_all(rt: &impl Abort, m: &Mbufs, p: &Packet, byte: u8, len: usize) -> bool {
    let bytes = [byte; 2049];
    match bytes.get(..len) {
        Some(bytes) => spells(rt, m, p, bytes),
        None => false,
    }
}

// The calls that change nothing.
fn shows(rt: &impl Abort, m: &Mbufs, packets: &[Packet], step: &Step) -> bool
    requires { IsOver m.now.store }
{
    match step {
        FreeCount(pool, n) => *pool < 3 && free_count(m, *pool) == *n,
        Refs(k, segment, n) => refs(rt, m, &at(rt, packets, *k), *segment) == *n,
        IsSole(k, sole) => is_sole(rt, m, &at(rt, packets, *k)) == *sole,
        Segments(k, n) => segments(rt, m, &at(rt, packets, *k)) == *n,
        Rooms(k, four) => rooms(rt, m, &at(rt, packets, *k)) == *four,
        LoadFour(k, number) => load_four(rt, m, &at(rt, packets, *k)) == *number,
        Spells(k, bytes) => spells(rt, m, &at(rt, packets, *k), bytes),
        SpellsAll(k, byte, len) => spells_all(rt, m, &at(rt, packets, *k), *byte, *len),
        _ => false,
    }
}

fn does(rt: &impl Abort, m: &mut Mbufs, packets: &mut Vec<Packet>, step: &Step) -> bool
    requires { IsOver m.old.store }
    ensures { StaysOver m.old m.new }
{
    let (made, some) = match step {
        Receive(pool, bytes) if *pool < 2 => (receive(rt, m, *pool, bytes), true),
        ReceiveAll(pool, byte, len) if *pool < 2 => (receive_all(rt, m, *pool, *byte, *len), true),
        Alloc(pool, some) if *pool < 3 => (alloc(m, *pool), *some),
        Copy(k, pool, some) if *pool < 3 => {
            let packet = at(rt, packets, *k);
            (copy(rt, m, &packet, *pool), *some)
        }
        _ => return changes(rt, m, packets, step),
    };
    makes(packets, made, some)
}

// The first step that is not as its row says, from 0.
fn differs(
    rt: &impl Abort,
    m: &mut Mbufs,
    packets: &mut Vec<Packet>,
    steps: &[Step],
) -> Option<usize>
    requires { IsOver m.old.store }
    ensures { StaysOver m.old m.new }
{
    for (k, step) in steps.iter().enumerate() {
        if !does(rt, m, packets, step) {
            return Some(k);
        }
    }
    None
}

// The same over three new pools, which are whole at the end.
fn differs_in(
    rt: &impl Abort,
    alloc: Global,
    pools: &[(u32, u32); 3],
    steps: &[Step],
) -> Option<usize> {
    let [first, second, third] = pools;
    let (first, second) = (few(rt, first, 129), few(rt, second, 129));
    let mut s = open(rt, alloc, first, second, few(rt, third, 0));
    let mut packets = Vec::new(alloc);
    let first = differs(rt, &mut s.mbufs, &mut packets, steps);
    close(rt, s);
    first
}

// A pool of 1 to 100 objects without a cache, whose data rooms have `least` bytes or more.
fn few(rt: &impl Abort, pool: &(u32, u32), least: u32) -> Sizes
    ensures count { (1 ≤ result.count) × (result.count ≤ 100) }
    ensures room { (least ≤ result.room) × (result.room ≤ MAX_ROOM) }
{
    must(rt, 1 <= pool.0, "an object");
    must(rt, pool.0 <= 100, "100 objects");
    must(rt, least <= pool.1, "the least room");
    must(rt, pool.1 <= MAX_ROOM, "the most room");
    sized(pool.0, pool.1, 0)
}

#[test]
fn scripts(rt: HostRuntime) {
    for (k, (pools, steps)) in SCRIPTS.iter().enumerate() {
        none_differs(&rt, k, differs_in(&rt, rt.alloc(), pools, steps));
    }
}

// A new packet in the third pool has this headroom and tailroom, and so has its clone. It is extended to the limit at each end, and then fills the
// room.
fn new_packet(head: u16, tail: u16) -> [Step; 16] {
    let room = head.saturating_add(tail);
    [
        Alloc(2, true),
        Rooms(0, (head, tail, 0, 0)),
        Copy(0, 2, true),
        Rooms(1, (head, tail, 0, 0)),
        Refs(0, 0, 2),
        IsSole(1, false),
        Alloc(2, false),
        FreeCount(2, 0),
        Free(1),
        Append(0, tail),
        Rooms(0, (head, 0, tail, tail)),
        Prepend(0, head),
        Rooms(0, (0, 0, room, room)),
        Segments(0, 1),
        Free(0),
        FreeCount(2, 2),
    ]
}

#[test]
fn the_headroom_is_what_the_room_allows(rt: HostRuntime) {
    for (k, (head, tail)) in NEW_PACKETS.iter().enumerate() {
        let room = u32::from(*head) + u32::from(*tail);
        let pools = [(2, 256), (2, 256), (2, room)];
        let steps = new_packet(*head, *tail);
        none_differs(&rt, k, differs_in(&rt, rt.alloc(), &pools, &steps));
    }
}
