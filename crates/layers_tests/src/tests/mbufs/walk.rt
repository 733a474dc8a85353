//! A long random walk over two pools, beside a list of packets and their bytes.

ghost use Rattle.std.specs.Prelude.{◌≡◌, ◌<◌, ◌≤◌, length};
ghost use Rattle.layers_tests.specs.Rows.{IsOver, StaysOver};

use super::calls::{
    End, alloc, chain, copy, cut, extend, free, free_count, load_one, receive, refs, rooms,
    segments, spells, store,
};
use super::cases::must;
use super::setup::{close, open, sized};
use dp_mbuf::{Mbufs, POOL_HANDLES};
use dp_model::Packet;
use std::alloc::Global;
use std::process::Abort;

// A packet, and the bytes that it should have.
#[derive(Drop)]
struct Shadow {
    packet: Packet,
    bytes: Vec<u8>,
}

// The packets, the random numbers, and how often a clone went to the other pool and a chain joined packets of both.
#[derive(Drop)]
struct Walk {
    shadows: Vec<Shadow>,
    seed: u64,
    clones: u32,
    chains: u32,
}

// Keeps a packet with the bytes that it should have.
fn keep(rt: &impl Abort, walk: &mut Walk, packet: Packet, bytes: Vec<u8>) {
    let is_kept = walk.shadows.push(Shadow { packet, bytes }).is_ok();
    must(rt, is_kept, "memory");
}

// The pool of a packet's first mbuf.
fn pool_of(packet: &Packet) -> u32 {
    packet.number() / POOL_HANDLES
}

fn next(seed: &mut u64) -> u64 {
    *seed = seed
        .wrapping_mul(6364136223846793005)
        .wrapping_add(1442695040888963407);
    *seed >> 33
}

fn pick(seed: &mut u64, count: usize) -> usize
    requires { 0 < count }
    ensures { result < count }
{
    (next(seed) % count as u64) as usize
}

fn pick_pool(seed: &mut u64) -> u32
    ensures { result < 2 }
{
    (next(seed) % 2) as u32
}

// A random number from 0 to `most`, if that is small.
fn pick_up_to(seed: &mut u64, most: u16) -> u16
    ensures { result ≤ most }
{
    (next(seed) % (most.min(9) as u64 + 1)) as u16
}

fn walk_receive(rt: &impl Abort, alloc: Global, m: &mut Mbufs, walk: &mut Walk)
    requires { IsOver m.old.store }
    ensures { StaysOver m.old m.new }
{
    let mut bytes = Vec::new(alloc);
    for _ in 0..next(&mut walk.seed) % 150 {
        let is_grown = bytes.push((next(&mut walk.seed) % 256) as u8).is_ok();
        must(rt, is_grown, "memory");
    }
    let pool = pick_pool(&mut walk.seed);
    if let Some(packet) = receive(rt, m, pool, &bytes) {
        keep(rt, walk, packet, bytes);
    }
}

fn walk_alloc(rt: &impl Abort, alloc_in: Global, m: &mut Mbufs, walk: &mut Walk)
    requires { IsOver m.old.store }
    ensures { StaysOver m.old m.new }
{
    let pool = pick_pool(&mut walk.seed);
    if let Some(packet) = alloc(m, pool) {
        let bytes = Vec::new(alloc_in);
        keep(rt, walk, packet, bytes);
    }
}

// Clones a packet with these bytes.
fn walk_copy(rt: &impl Abort, m: &mut Mbufs, walk: &mut Walk, source: Packet, bytes: Vec<u8>)
    requires { IsOver m.old.store }
    ensures { StaysOver m.old m.new }
{
    let pool = pick_pool(&mut walk.seed);
    if let Some(packet) = copy(rt, m, &source, pool) {
        if pool_of(&source) != pool {
            walk.clones = walk.clones.saturating_add(1);
        }
        keep(rt, walk, packet, bytes);
    }
}

fn walk_free(rt: &impl Abort, m: &mut Mbufs, walk: &mut Walk)
    requires { IsOver m.old.store }
    ensures { StaysOver m.old m.new }
{
    if !walk.shadows.is_empty() {
        let i = pick(&mut walk.seed, walk.shadows.len());
        let shadow = walk.shadows.swap_remove(i);
        let same = spells(rt, m, &shadow.packet, &shadow.bytes);
        must(rt, same, "the bytes of a freed packet");
        free(rt, m, shadow.packet);
    }
}

// Puts zeros before the packet or after it, if the buffer there has one reference.
fn walk_extend(rt: &impl Abort, m: &mut Mbufs, shadow: &mut Shadow, seed: &mut u64, end: End)
    requires { IsOver m.old.store }
    ensures { StaysOver m.old m.new }
{
    let packet = shadow.packet;
    let count = segments(rt, m, &packet);
    let segment = match end {
        End::Front => 0,
        End::Back => count.saturating_sub(1),
    };
    if count == 0 || refs(rt, m, &packet, segment) != 1 {
        return;
    }
    let (head, tail, _, _) = rooms(rt, m, &packet);
    let room = match end {
        End::Front => head,
        End::Back => tail,
    };
    let n = pick_up_to(seed, room);
    extend(rt, m, &packet, end, n);
    for _ in 0..n {
        let at = match end {
            End::Front => 0,
            End::Back => shadow.bytes.len(),
        };
        let is_grown = shadow.bytes.insert(at, 0).is_ok();
        must(rt, is_grown, "memory");
    }
}

// Cuts bytes off at one end.
fn walk_cut(rt: &impl Abort, m: &mut Mbufs, shadow: &mut Shadow, seed: &mut u64, end: End)
    requires { IsOver m.old.store }
    ensures { StaysOver m.old m.new }
{
    let packet = shadow.packet;
    let (_, _, first, last) = rooms(rt, m, &packet);
    let len = match end {
        End::Front => first,
        End::Back => last,
    };
    let n = pick_up_to(seed, len);
    cut(rt, m, &packet, end, n);
    for _ in 0..n {
        let count = shadow.bytes.len();
        must(rt, count > 0, "a byte to cut off");
        shadow.bytes.remove(match end {
            End::Front => 0,
            End::Back => count - 1,
        });
    }
}

fn write(rt: &impl Abort, m: &mut Mbufs, shadow: &mut Shadow, offset: usize, byte: u8)
    requires { IsOver m.old.store }
    ensures { StaysOver m.old m.new }
{
    store(rt, m, &shadow.packet, offset as u64, byte);
    if let Some(place) = shadow.bytes.get_mut(offset) {
        *place = byte;
    }
}

// Reads a byte of the first segment, and writes another if its buffer has one reference.
fn walk_store(rt: &impl Abort, m: &mut Mbufs, shadow: &mut Shadow, seed: &mut u64)
    requires { IsOver m.old.store }
    ensures { StaysOver m.old m.new }
{
    let packet = shadow.packet;
    let len = rooms(rt, m, &packet).2;
    if len == 0 {
        return;
    }
    let offset = pick(seed, usize::from(len));
    let byte = load_one(rt, m, &packet, offset as u64);
    let same = match shadow.bytes.get(offset) {
        Some(wanted) => byte == u64::from(*wanted),
        None => false,
    };
    must(rt, same, "a byte of a packet");
    if refs(rt, m, &packet, 0) == 1 {
        write(rt, m, shadow, offset, (next(seed) % 256) as u8);
    }
}

// Appends the second packet to the first.
fn join(rt: &impl Abort, m: &mut Mbufs, head: &mut Shadow, tail: &Shadow)
    requires { IsOver m.old.store }
    ensures { StaysOver m.old m.new }
{
    chain(rt, m, &head.packet, tail.packet);
    let is_grown = head.bytes.extend_from_slice(&tail.bytes).is_ok();
    must(rt, is_grown, "memory");
}

fn walk_chain(rt: &impl Abort, m: &mut Mbufs, walk: &mut Walk)
    requires { IsOver m.old.store }
    ensures { StaysOver m.old m.new }
{
    if walk.shadows.len() < 2 {
        return;
    }
    let i = pick(&mut walk.seed, walk.shadows.len());
    let tail = walk.shadows.swap_remove(i);
    let j = pick(&mut walk.seed, walk.shadows.len());
    let head = walk.shadows[j].packet;
    if segments(rt, m, &head) > 30 || segments(rt, m, &tail.packet) > 30 {
        return keep(rt, walk, tail.packet, tail.bytes);
    }
    if pool_of(&head) != pool_of(&tail.packet) {
        walk.chains = walk.chains.saturating_add(1);
    }
    join(rt, m, &mut walk.shadows[j], &tail);
}

// Changes one packet.
fn walk_change(rt: &impl Abort, m: &mut Mbufs, shadow: &mut Shadow, seed: &mut u64)
    requires { IsOver m.old.store }
    ensures { StaysOver m.old m.new }
{
    match next(seed) % 5 {
        0 => walk_extend(rt, m, shadow, seed, End::Back),
        1 => walk_extend(rt, m, shadow, seed, End::Front),
        2 => walk_cut(rt, m, shadow, seed, End::Front),
        3 => walk_cut(rt, m, shadow, seed, End::Back),
        _ => walk_store(rt, m, shadow, seed),
    }
}

// Clones one packet, or changes it.
fn walk_one(rt: &impl Abort, m: &mut Mbufs, walk: &mut Walk, is_cloned: bool)
    requires { IsOver m.old.store }
    ensures { StaysOver m.old m.new }
{
    if walk.shadows.is_empty() {
        return;
    }
    let i = pick(&mut walk.seed, walk.shadows.len());
    if is_cloned {
        let bytes = walk.shadows[i].bytes.clone().expect(rt, "memory");
        let source = walk.shadows[i].packet;
        return walk_copy(rt, m, walk, source, bytes);
    }
    walk_change(rt, m, &mut walk.shadows[i], &mut walk.seed);
}

fn step(rt: &impl Abort, alloc: Global, m: &mut Mbufs, walk: &mut Walk)
    requires { IsOver m.old.store }
    ensures { StaysOver m.old m.new }
{
    match next(&mut walk.seed) % 12 {
        0 | 1 => walk_receive(rt, alloc, m, walk),
        2 => walk_alloc(rt, alloc, m, walk),
        3 | 4 => walk_one(rt, m, walk, true),
        5 => walk_chain(rt, m, walk),
        6 | 7 => walk_free(rt, m, walk),
        _ => walk_one(rt, m, walk, false),
    }
}

// Asserts that all packets have the bytes that they should have.
fn compare(rt: &impl Abort, m: &Mbufs, shadows: &[Shadow]) {
    for shadow in shadows {
        let same = spells(rt, m, &shadow.packet, &shadow.bytes);
        must(rt, same, "the bytes of a packet");
    }
}

// Takes 10,000 steps, and frees what is left.
fn walk_all(rt: &impl Abort, alloc: Global, m: &mut Mbufs)
    requires { IsOver m.old.store }
    ensures { StaysOver m.old m.new }
{
    let mut walk = Walk {
        shadows: Vec::new(alloc),
        seed: 20261122,
        clones: 0,
        chains: 0,
    };
    for _ in 0..10000 {
        step(rt, alloc, m, &mut walk);
        compare(rt, m, &walk.shadows);
    }
    let is_mixed = walk.clones > 100 && walk.chains > 100;
    must(rt, is_mixed, "clones and chains");
    for _ in 0..walk.shadows.len() {
        walk_free(rt, m, &mut walk);
    }
}

#[test]
fn a_random_walk_ends_with_whole_pools(rt: HostRuntime) {
    let (first, second) = (sized(40, 168, 8), sized(23, 300, 0));
    let mut s = open(&rt, rt.alloc(), first, second, sized(1, 0, 0));
    walk_all(&rt, rt.alloc(), &mut s.mbufs);
    let are_whole = free_count(&s.mbufs, 0) == 40 && free_count(&s.mbufs, 1) == 23;
    must(&rt, are_whole, "whole pools");
    close(&rt, s);
}
