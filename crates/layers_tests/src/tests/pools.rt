//! Pools that are made, emptied, filled and unmade, call by call.
ghost use Rattle.std.specs.Prelude.{◌≡◌, ◌<◌, length, replicate};
ghost use Rattle.dp_pool.specs.Pools.{with_object};

use super::cases::{are_all, must, none_differs};
use super::memory::{end, is_whole, new_heap};
use PoolError::{BadCache, BadCount, BadSize};
use Step::{
    Clear, Fill, Full, Get, GetAndPutBulk, GetAny, GetBulk, In, IsOut, NumberAll, Numbered, Part,
    Put, Sizes, State, Write,
};
use dp_heap::Heap;
use dp_pool::{Pool, PoolError};
use dp_zone::{ZoneError, Zones};
use std::alloc::Global;
use std::process::Abort;

/// A call of a pool, and what it answers.
enum Step {
    /// This index is got, or none.
    Get(Option<u32>),
    /// An index is got that was in.
    GetAny,
    /// An index is put back that is out, or it is not out.
    Put(u32, bool),
    /// This number of indexes are got at once into a buffer of nines, no two of them alike, or none, and nothing changes.
    GetBulk(usize, bool),
    /// The same, and they are put back at once.
    GetAndPutBulk(usize, bool),
    /// This number of indexes are in the cache, and this number are in.
    State(u32, u32),
    /// This number are in.
    In(u32),
    /// The object is out, or not.
    IsOut(u32, bool),
    /// The number of objects, and their size.
    Sizes(u32, u32),
    /// The bytes of an object from an offset, in this number, are set to 0.
    Clear(u32, u32, u32),
    /// These are written into an object, from an offset on.
    Write(u32, u32, &'static [u8]),
    /// All bytes of an object are set to this.
    Fill(u32, u8),
    /// They are all this.
    Full(u32, u8),
    /// These are some of them, from an offset on.
    Part(u32, u32, &'static [u8]),
    /// A number of each object is written into it.
    NumberAll(u32),
    /// It is there, or not in all of them.
    Numbered(u32, bool),
}

/// The number of objects of a pool, their size and the cache's, and calls.
static SCRIPTS: [(u32, u32, u32, &[Step]); 6] = [
    // One at a time.
    (
        6,
        64,
        4,
        &[
            Sizes(6, 64),
            State(0, 6),
            GetAny,
            State(3, 5),
            GetAny,
            GetAny,
            GetAny,
            State(0, 2),
            GetAny,
            State(1, 1),
            GetAny,
            State(0, 0),
            Get(None),
            Put(0, true),
            Put(1, true),
            Put(2, true),
            Put(3, true),
            Put(4, true),
            State(5, 5),
            IsOut(4, false),
            IsOut(5, true),
            IsOut(6, false),
            Put(5, true),
            Put(5, false),
            State(4, 6),
        ],
    ),
    // In bulk.
    (
        6,
        64,
        4,
        &[
            GetBulk(7, false),
            State(0, 6),
            GetBulk(5, true),
            State(1, 1),
        ],
    ),
    // Without a cache.
    (
        1,
        64,
        0,
        &[
            Get(Some(0)),
            Get(None),
            State(0, 0),
            Put(0, true),
            State(0, 1),
            Get(Some(0)),
        ],
    ),
    // Objects stay apart.
    (
        2,
        100,
        0,
        &[
            Sizes(2, 100),
            Clear(0, 0, 100),
            Clear(1, 0, 100),
            Write(1, 98, &[1, 2]),
            Write(0, 0, &[3, 4, 5]),
            Clear(0, 1, 1),
            GetAny,
            Part(0, 0, &[3, 0, 5, 0]),
            Part(1, 96, &[0, 0, 1, 2]),
            Sizes(2, 100),
        ],
    ),
    // An object is lent.
    (
        3,
        64,
        0,
        &[
            Sizes(3, 64),
            Fill(0, 1),
            Fill(2, 1),
            Fill(1, 2),
            Full(0, 1),
            Full(1, 2),
            Full(2, 1),
            Sizes(3, 64),
        ],
    ),
    // Numbers in objects are read back.
    (
        40,
        100,
        8,
        &[
            Sizes(40, 100),
            NumberAll(1),
            Numbered(1, true),
            GetAndPutBulk(5, true),
            In(40),
            GetAndPutBulk(40, true),
            In(40),
            GetAndPutBulk(41, false),
            In(40),
            Numbered(1, true),
            Numbered(2, false),
            NumberAll(2),
            Numbered(2, true),
        ],
    ),
];

/// What the cache holds is in.
static EMPTIED_AND_FILLED: [Step; 26] = [
    GetAny,
    In(5),
    GetAny,
    In(4),
    GetAny,
    In(3),
    GetAny,
    In(2),
    GetAny,
    In(1),
    GetAny,
    In(0),
    Get(None),
    In(0),
    Put(3, true),
    In(1),
    Put(0, true),
    In(2),
    Put(5, true),
    In(3),
    Put(1, true),
    In(4),
    Put(4, true),
    In(5),
    Put(2, true),
    In(6),
];

fn get(pool: &mut Pool) -> Option<u32>
    ensures { pool.new.zones ≡ pool.old.zones }
{
    pool.get()
}

// Which of the first 40 objects are out, a bit each.
fn outs(pool: &Pool) -> u64 {
    let mut bits = 0u64;
    for index in 0..40u32 {
        if pool.is_out(index) {
            bits |= 1 << index;
        }
    }
    bits
}

// Gets an index; returns whether it was in before, is out now, and is the only one that changed.
fn get_any(pool: &mut Pool) -> bool
    ensures { pool.new.zones ≡ pool.old.zones }
{
    let before = outs(pool);
    match pool.get() {
        Some(index) if index < 40 => outs(pool) ^ before == 1 << index && pool.is_out(index),
        _ => false,
    }
}

// Puts an object back that is out; returns whether it was.
fn put(pool: &mut Pool, index: u32) -> bool
    ensures { pool.new.zones ≡ pool.old.zones }
{
    if !pool.is_out(index) {
        return false;
    }
    pool.put(index);
    true
}

// Whether the indexes are of 64 objects or fewer, and no two of them are alike.
fn are_distinct(indexes: &[u32], count: u32) -> bool {
    let mut bits = 0u64;
    for index in indexes {
        if *index >= count || *index >= 64 || bits & (1 << *index) != 0 {
            return false;
        }
        bits |= 1 << *index;
    }
    true
}

// Gets indexes, and puts them back if that is asked for; returns whether they are got as wanted.
fn get_bulk(pool: &mut Pool, number: usize, got: bool, and_put: bool) -> bool
    ensures { pool.new.zones ≡ pool.old.zones }
{
    let mut room = [9; 41];
    let Some(indexes) = room.get_mut(..number) else {
        return false;
    };
    let before = (pool.cached(), pool.available());
    if pool.get_bulk(indexes) {
        if and_put {
            pool.put_bulk(indexes);
        }
        got && are_distinct(indexes, pool.count())
    } else {
        !got && &*indexes == &[9u32; 41][..number] && (pool.cached(), pool.available()) == before
    }
}

fn clear(pool: &mut Pool, index: u32, at: u32, len: u32) -> bool
    ensures { pool.new.zones ≡ pool.old.zones }
{
    if index >= pool.count() || at > 100 || len > 100 || at + len > pool.size() {
        return false;
    }
    pool.clear(index, at, len);
    true
}

fn write(pool: &mut Pool, index: u32, at: u32, bytes: &[u8]) -> bool
    ensures { pool.new.zones ≡ pool.old.zones }
{
    if index >= pool.count()
        || at > 100
        || bytes.len() > 4
        || at + bytes.len() as u32 > pool.size()
    {
        return false;
    }
    pool.write(index, at, bytes);
    true
}

// Lends an object for writing, and leaves the others alone.
fn fill(pool: &mut Pool, index: u32, byte: u8)
    requires { index < length pool.old.objects }
    ensures { pool.new ≡ with_object pool.old index (replicate pool.old.size byte) }
{
    pool.object_mut(index).fill(byte);
}

fn fill_one(pool: &mut Pool, index: u32, byte: u8) -> bool
    ensures { pool.new.zones ≡ pool.old.zones }
{
    if index >= pool.count() {
        return false;
    }
    fill(pool, index, byte);
    true
}

fn is_full(pool: &Pool, index: u32, byte: u8) -> bool {
    index < pool.count()
        && pool.object(index).len() == pool.size() as usize
        && are_all(pool.object(index), byte)
}

fn has_part(pool: &Pool, index: u32, at: u32, part: &[u8]) -> bool {
    index < pool.count()
        && pool.object(index).len() == pool.size() as usize
        && match pool.object(index).get(at as usize..) {
            Some(rest) => rest.starts_with(part),
            None => false,
        }
}

// The number that is written into an object.
fn number_of(index: u32, round: u32) -> u32 {
    index.wrapping_mul(1_000_003).wrapping_add(round)
}

// Writes a number at the end of each of 40 objects of 100 bytes, if the pool has that many.
fn number_all(pool: &mut Pool, round: u32) -> bool
    ensures { pool.new.zones ≡ pool.old.zones }
{
    for index in 0..40u32 {
        if !write(pool, index, 96, &number_of(index, round).to_le_bytes()) {
            return false;
        }
    }
    true
}

// Whether each of them has its number.
fn are_numbered(pool: &Pool, round: u32) -> bool {
    for index in 0..40u32 {
        if !has_part(pool, index, 96, &number_of(index, round).to_le_bytes()) {
            return false;
        }
    }
    true
}

fn does(pool: &mut Pool, step: &Step) -> bool
    ensures { pool.new.zones ≡ pool.old.zones }
{
    match step {
        Get(index) => get(pool) == *index,
        GetAny => get_any(pool),
        Put(index, was_out) => put(pool, *index) == *was_out,
        GetBulk(number, got) => get_bulk(pool, *number, *got, false),
        GetAndPutBulk(number, got) => get_bulk(pool, *number, *got, true),
        State(cached, inside) => pool.cached() == *cached && pool.available() == *inside,
        In(inside) => pool.available() == *inside,
        IsOut(index, out) => pool.is_out(*index) == *out,
        Sizes(count, size) => pool.count() == *count && pool.size() == *size,
        Clear(index, at, len) => clear(pool, *index, *at, *len),
        Write(index, at, bytes) => write(pool, *index, *at, bytes),
        Fill(index, byte) => fill_one(pool, *index, *byte),
        Full(index, byte) => is_full(pool, *index, *byte),
        Part(index, at, bytes) => has_part(pool, *index, *at, bytes),
        NumberAll(round) => number_all(pool, *round),
        Numbered(round, all) => are_numbered(pool, *round) == *all,
    }
}

// The first step that is not as its row says, from 0, or after which the pool has another number or size of objects.
fn differs(pool: &mut Pool, steps: &[Step]) -> Option<usize>
    ensures { pool.new.zones ≡ pool.old.zones }
{
    let sizes = (pool.count(), pool.size());
    for (k, step) in steps.iter().enumerate() {
        if !does(pool, step) || (pool.count(), pool.size()) != sizes {
            return Some(k);
        }
    }
    None
}

// The same for a new pool of objects of a size, with a cache. Its zones are gone afterwards.
fn differs_in(
    rt: &impl Abort,
    alloc: Global,
    numbers: (u32, u32, u32),
    steps: &[Step],
) -> Option<usize> {
    let mut heap = new_heap(rt, alloc, 8192);
    let mut zones = Zones::new();
    let mut pool = Pool::make(&mut heap, &mut zones, "p", numbers.0, numbers.1, numbers.2).expect(
        rt, "a pool",
    );
    let first = differs(&mut pool, steps);
    pool.unmake(&mut heap, &mut zones);
    heap.close().close();
    let are_gone = zones.lookup("p.obj").is_none() && zones.lookup("p.ring").is_none();
    must(rt, are_gone, "the zones are gone");
    first
}

#[test]
fn scripts(rt: HostRuntime) {
    for (k, (count, size, cache, steps)) in SCRIPTS.iter().enumerate() {
        let first = differs_in(&rt, rt.alloc(), (*count, *size, *cache), steps);
        none_differs(&rt, k, first);
    }
}

#[test]
fn what_the_cache_holds_is_in(rt: HostRuntime) {
    for cache in 0..5u32 {
        let first = differs_in(&rt, rt.alloc(), (6, 64, cache), &EMPTIED_AND_FILLED);
        none_differs(&rt, cache as usize, first);
    }
}

/// Pools that are refused, or made and unmade at once, in a heap of 4,096 bytes: the name, the number of objects, their size and the cache's.
static REFUSED_IN_ORDER: [(&str, u32, u32, u32, Option<PoolError>); 13] = [
    ("p", 0, 0, 513, Some(BadCount)),
    ("p", 65_536, 64, 0, Some(BadCount)),
    ("p", 6, 0, 513, Some(BadSize)),
    ("p", 6, 4225, 0, Some(BadSize)),
    ("p", 5, 64, 4, Some(BadCache)),
    ("p", 1, 64, 1, Some(BadCache)),
    ("p", 1000, 64, 513, Some(BadCache)),
    ("p", 63, 64, 0, Some(PoolError::Zone(ZoneError::NoRoom))),
    ("p", 62, 64, 0, Some(PoolError::Zone(ZoneError::NoRoom))),
    ("p", 6, 64, 4, None),
    (
        "abcdefghijklmnopqrstuvwxyz1",
        6,
        64,
        4,
        Some(PoolError::Zone(ZoneError::BadName)),
    ),
    ("abcdefghijklmnopqrstuvwxyz", 6, 64, 4, None),
    (
        "abcdefghijklmnopqrstuvwxyz12",
        6,
        64,
        4,
        Some(PoolError::Zone(ZoneError::BadName)),
    ),
];

/// The same where the name of one of its two zones is taken.
static BESIDE_Q_RING: [(&str, u32, u32, u32, Option<PoolError>); 1] = [(
    "q",
    6,
    64,
    4,
    Some(PoolError::Zone(ZoneError::Exists)),
)];

// Why a pool with these numbers is refused. If it is not, it is unmade at once.
fn refusal(
    heap: &mut Heap,
    zones: &mut Zones,
    name: &str,
    numbers: (u32, u32, u32),
) -> Option<PoolError>
    ensures { heap.new.home ≡ heap.old.home }
{
    match Pool::make(heap, zones, name, numbers.0, numbers.1, numbers.2) {
        Ok(pool) => {
            pool.unmake(heap, zones);
            None
        }
        Err(error) => Some(error),
    }
}

// The first pool that is not as its row says, from 0, or of which a zone is left.
fn differs_at(
    heap: &mut Heap,
    zones: &mut Zones,
    rows: &[(&'static str, u32, u32, u32, Option<PoolError>)],
) -> Option<usize>
    ensures { heap.new.home ≡ heap.old.home }
{
    let count = zones.count();
    for (k, (name, objects, size, cache, why)) in rows.iter().enumerate() {
        let refused = refusal(heap, zones, name, (*objects, *size, *cache));
        if refused != *why || zones.count() != count {
            return Some(k);
        }
    }
    None
}

#[test]
fn refused_in_order(rt: HostRuntime) {
    let mut heap = new_heap(&rt, rt.alloc(), 4096);
    let mut zones = Zones::new();
    let first = differs_at(&mut heap, &mut zones, &REFUSED_IN_ORDER);
    none_differs(&rt, 0, first);
    must(&rt, is_whole(&heap), "the heap is whole");
    let zone = zones
        .reserve(&mut heap, "q.ring", 64, 0)
        .expect(&rt, "q.ring");
    let first = differs_at(&mut heap, &mut zones, &BESIDE_Q_RING);
    zones.give_back(&mut heap, zone);
    end(&rt, heap);
    none_differs(&rt, 1, first);
}
