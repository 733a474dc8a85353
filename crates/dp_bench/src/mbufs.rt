//! Benchmarks of mbufs over one pool.
ghost use Rattle.std.specs.Prelude.{◌≡◌, ◌+◌, ◌<◌, ◌≤◌, length, true, IfSome, MatchOption};
ghost use Rattle.dp_heap.specs.Elements.{count_of, is_busy};
ghost use Rattle.dp_model.specs.Stores.{IsLive};
ghost use Rattle.dp_bench.specs.Mbufs.{AreAsBefore, HasFront, HasRoom, IsReadyPool, IsInHome, IsOnePool, zones_in};

use dp_heap::Heap;
use dp_mbuf::Mbufs;
use dp_model::Packet;
use dp_pool::Pool;
use dp_zone::Zones;

// The number of the pool's objects, their size in bytes, and the size of its cache.
const OBJECTS: u32 = 400;

const SIZE: u32 = 2304;

const CACHE: u32 = 256;

// The bytes that are prepended and cut off again.
const FRONT: u16 = 16;

/// What a round does with mbufs.
#[derive(Clone, Copy)]
pub enum Deed {
    /// Allocates a packet and frees it.
    Alloc,
    /// Clones a packet and frees the clone.
    Clone,
    /// Prepends 16 bytes to a packet and cuts them off.
    Front,
    /// Receives 60 bytes and frees the packet.
    Receive,
}

// Allocates a packet and frees it; returns whether there was one.
#[inline(never)]
fn taken(m: &mut Mbufs) -> bool
    requires { 0 < length m.old.store.pools }
    ensures { AreAsBefore m.old m.new }
{
    match m.alloc(0) {
        Some(packet) => {
            m.free(packet);
            true
        }
        None => false,
    }
}

// Clones a packet and frees the clone; returns whether there was one.
#[inline(never)]
fn cloned(m: &mut Mbufs, packet: &Packet) -> bool
    requires pools { 0 < length m.old.store.pools }
    requires live { IsLive m.old.store packet.now }
    ensures { AreAsBefore m.old m.new }
{
    match m.clone_of(packet, 0) {
        Some(clone) => {
            m.free(clone);
            true
        }
        None => false,
    }
}

// Receives bytes and frees the packet; returns whether there was one.
#[inline(never)]
fn received(m: &mut Mbufs, bytes: &[u8; 60]) -> bool
    requires pools { 0 < length m.old.store.pools }
    requires room { HasRoom m.old.store }
    ensures { AreAsBefore m.old m.new }
{
    match m.receive(0, bytes) {
        Some(packet) => {
            m.free(packet);
            true
        }
        None => false,
    }
}

// Prepends bytes to a packet and cuts them off.
#[inline(never)]
fn fronted(m: &mut Mbufs, packet: &Packet) -> bool
    requires { HasFront m.old.store packet.now 16 }
    ensures { AreAsBefore m.old m.new }
{
    m.prepend(packet, FRONT);
    m.adj(packet, FRONT);
    true
}

fn all_taken(m: &mut Mbufs, rounds: u32) -> u32
    requires { 0 < length m.old.store.pools }
    ensures served { result ≤ rounds }
    ensures same { AreAsBefore m.old m.new }
{
    let mut served = 0;
    for _ in 0..rounds {
        if taken(m) {
            served += 1;
        }
    }
    served
}

fn all_cloned(m: &mut Mbufs, packet: &Packet, rounds: u32) -> u32
    requires pools { 0 < length m.old.store.pools }
    requires live { IsLive m.old.store packet.now }
    ensures served { result ≤ rounds }
    ensures same { AreAsBefore m.old m.new }
{
    let mut served = 0;
    for _ in 0..rounds {
        if cloned(m, packet) {
            served += 1;
        }
    }
    served
}

fn all_received(m: &mut Mbufs, rounds: u32) -> u32
    requires pools { 0 < length m.old.store.pools }
    requires room { HasRoom m.old.store }
    ensures served { result ≤ rounds }
    ensures same { AreAsBefore m.old m.new }
{
    let bytes = [7; 60];
    let mut served = 0;
    for _ in 0..rounds {
        if received(m, &bytes) {
            served += 1;
        }
    }
    served
}

// Whether bytes can be prepended to the packet.
fn has_front(m: &Mbufs, packet: &Packet) -> bool
    requires { IsLive m.now.store packet.now }
    ensures { result ≡ true → HasFront m.now.store packet.now 16 }
{
    if m.segments(packet) == 0 {
        return false;
    }
    let sharers = m.refs(packet, 0);
    if sharers != 1 {
        return false;
    }
    m.headroom(packet) >= FRONT
}

fn all_fronted(m: &mut Mbufs, packet: &Packet, rounds: u32) -> u32
    requires { IsLive m.old.store packet.now }
    ensures served { result ≤ rounds }
    ensures same { AreAsBefore m.old m.new }
{
    if !has_front(m, packet) {
        return 0;
    }
    let mut served = 0;
    for _ in 0..rounds {
        if fronted(m, packet) {
            served += 1;
        }
    }
    served
}

// Does `rounds` rounds, beside a packet.
fn served_beside(m: &mut Mbufs, packet: &Packet, deed: Deed, rounds: u32) -> u32
    requires pools { 0 < length m.old.store.pools }
    requires room { HasRoom m.old.store }
    requires live { IsLive m.old.store packet.now }
    ensures served { result ≤ rounds }
    ensures same { AreAsBefore m.old m.new }
{
    match deed {
        Deed::Alloc => all_taken(m, rounds),
        Deed::Clone => all_cloned(m, packet, rounds),
        Deed::Front => all_fronted(m, packet, rounds),
        Deed::Receive => all_received(m, rounds),
    }
}

// The same beside a new packet, which is then freed.
fn served_by(m: &mut Mbufs, deed: Deed, rounds: u32) -> u32
    requires pools { 0 < length m.old.store.pools }
    requires room { HasRoom m.old.store }
    ensures served { result ≤ rounds }
    ensures same { AreAsBefore m.old m.new }
{
    let Some(packet) = m.alloc(0) else {
        return 0;
    };
    let served = served_beside(m, &packet, deed, rounds);
    m.free(packet);
    served
}

// The pool, if the heap has room for it.
fn make(heap: &mut Heap, zones: &mut Zones) -> Option<Pool>
    ensures pool { IfSome result (IsReadyPool heap.old.home) }
    ensures home { heap.new.home ≡ heap.old.home }
    ensures counted { MatchOption result (count_of is_busy heap.new.elements ≡ count_of is_busy heap.old.elements) (λ _. count_of is_busy heap.new.elements
        ≡ count_of is_busy heap.old.elements + 2) }
{
    let Ok(pool) = Pool::make(heap, zones, "mbufs", OBJECTS, SIZE, CACHE) else {
        return None;
    };
    Some(pool)
}

// Gives the zones of a slot's pool back.
fn unmake_in(slot: Option<Pool>, heap: &mut Heap, zones: &mut Zones)
    requires { IsInHome heap.old.home slot }
    ensures home { heap.new.home ≡ heap.old.home }
    ensures counted { count_of is_busy heap.new.elements + zones_in slot ≡ count_of is_busy heap.old.elements }
{
    if let Some(pool) = slot {
        pool.unmake(heap, zones);
    }
}

// Gives the zones of the only pool back.
fn unmake(pools: [Option<Pool>; 8], heap: &mut Heap, zones: &mut Zones)
    requires { IsOnePool heap.old.home pools }
    ensures { count_of is_busy heap.new.elements + 2 ≡ count_of is_busy heap.old.elements }
{
    let [a, b, c, d, e, f, g, h] = pools;
    unmake_in(a, heap, zones);
    unmake_in(b, heap, zones);
    unmake_in(c, heap, zones);
    unmake_in(d, heap, zones);
    unmake_in(e, heap, zones);
    unmake_in(f, heap, zones);
    unmake_in(g, heap, zones);
    unmake_in(h, heap, zones);
}

/// The same with mbufs in a heap.
pub fn served_in(heap: &mut Heap, deed: Deed, rounds: u32) -> u32
    ensures served { result ≤ rounds }
    ensures counted { count_of is_busy heap.new.elements ≡ count_of is_busy heap.old.elements }
{
    let mut zones = Zones::new();
    let Some(pool) = make(heap, &mut zones) else {
        return 0;
    };
    let mut mbufs = Mbufs::over([Some(pool), None, None, None, None, None, None, None]);
    let served = served_by(&mut mbufs, deed, rounds);
    unmake(mbufs.into_pools(), heap, &mut zones);
    served
}
