//! Reads and writes the objects of all pools, each a header and a data room.

ghost use Rattle.std.specs.Prelude.{◌≡◌, ℕ, ◌<◌, ◌≤◌, ◌+◌, [], true, false, length, slice_index, replicate, MatchOption};
ghost use Rattle.std.specs.Prelude.{IsTrue, ◌↔◌, is_some, Some};
ghost use Rattle.std.specs.Borrow.{sem, Lends};
ghost use Rattle.std.specs.contracts.option.Option.{the_row as option_row};
ghost use Rattle.dp_pool.specs.contracts.pool.Pool.{the_row as pool_row};
ghost use Rattle.std.specs.List.{list_all};
ghost use Rattle.dp_model.specs.Arithmetic.{bytes_in, big_endian};
ghost use Rattle.dp_model.specs.Buffers.{bytes_of};
ghost use Rattle.dp_model.specs.Environments.{room_at};
ghost use Rattle.dp_pool.specs.Pools.{object_in};
ghost use Rattle.dp_mbuf.specs.Headers.{then_word};
ghost use Rattle.dp_mbuf.specs.Objects.{present, pool_in, header_at, header_with, is_out, count_in, specs_of, buffers_of, HasObject, HasRooms, HeadersFirst};
ghost use Rattle.dp_mbuf.specs.Objects.{PoolsFirst, objects_in_all, HeaderSet, RoomWritten, Taken, Given};
ghost use Rattle.dp_mbuf.specs.Objects.{slot_count, slot_whole, AreAllIn, BothWritten, Ended};
ghost use Rattle.dp_mbuf.specs.Objects.{FirstsCleared, FirstsClearedTo};

use crate::big_endian::write_number;
use crate::header::{
    Header, bytes_of_header, bytes_of_refs, bytes_of_word, read_header, write_both,
    write_segs_and_last, write_words, write_zeros,
};
use crate::limits::{HEADER_SIZE, MAX_MBUFS, MAX_POOLS, MAX_ROOM, NEXT, OFFSET, REFS, SEGS, WORDS};
use crate::mbuf_number::MbufNumber;
use dp_model::Width;
use dp_pool::{Pool, proved};
use std::marker::Model;

/// The objects of at most `MAX_POOLS` pools.
pub(crate) struct Objects {
    pools: [Option<Pool>; MAX_POOLS],
}

impl Model for Objects {
    ghost use Rattle.std.specs.Prelude.{List};
    ghost use Rattle.dp_pool.specs.Pools.{PoolView};
    ghost use Rattle.dp_mbuf.specs.Objects.{ArePoolSlots, present};

    ghost Value = { List PoolView };

    ghost view = { λ o. present o.pools };

    ghost invariant = { λ o. ArePoolSlots o.pools };
}

// The pool of this number.
#[inline(always)]
fn pool_at(pools: &[Option<Pool>; MAX_POOLS], k: u16) -> &Pool
    requires first { PoolsFirst pools.now }
    requires there { k < length (present pools.now) }
    ensures value { result.now ≡ pool_in (present pools.now) k }
    ensures rooms { HasRooms result.now }
{
    match &pools[usize::from(k)] {
        Some(pool) => pool,
        None => {
            proved(false);
            unreachable!()
        }
    }
}

// The pool of a slot, for writing.
#[inline(always)]
fn pool_mut(slot: &mut Option<Pool>) -> &mut Pool
    requires { is_some slot.old ≡ true }
    ensures* writes_back { sem 𝓛 (Lends (option_row pool_row) pool_row slot.entry result Some) }
    ensures value { slot.old ≡ Some result.now }
{
    match slot {
        Some(pool) => pool,
        None => {
            proved(false);
            unreachable!()
        }
    }
}

// Whether a slot has a pool.
fn is_filled(slot: &Option<Pool>) -> bool
    ensures { result ≡ is_some slot.now }
{
    slot.is_some()
}

// The number of objects of a slot's pool.
fn count_in_slot(slot: &Option<Pool>) -> u32
    ensures { result ≡ slot_count slot.now }
{
    match slot {
        Some(pool) => pool.count(),
        None => 0,
    }
}

// Whether all objects of a slot's pool are in.
fn is_whole(slot: &Option<Pool>) -> bool
    ensures { result ≡ slot_whole slot.now }
{
    match slot {
        Some(pool) => pool.available() == pool.count(),
        None => true,
    }
}

// Whether all objects of all pools are in.
fn are_whole(pools: &[Option<Pool>]) -> bool
    ensures { result ≡ list_all slot_whole pools.now }
{
    pools.iter().all(|slot| is_whole(slot))
}

// Marks each object of a pool: no packet begins there.
fn clear_firsts(pool: &mut Pool)
    requires { HEADER_SIZE ≤ pool.old.size }
    ensures { FirstsClearedTo (length pool.old.objects) pool.old pool.new }
{
    for index in 0..pool.count() {
        pool.write(index, SEGS as u32, &bytes_of_word(0));
    }
}

impl Objects {
    /// Takes ownership of these pools, and marks their objects: no packet begins at any of them.
    pub fn over(mut pools: [Option<Pool>; MAX_POOLS]) -> Objects
        requires first { HeadersFirst pools }
        requires objects { objects_in_all (present pools) ≤ MAX_MBUFS }
        ensures { FirstsCleared (present pools) result }
    {
        for slot in pools.iter_mut() {
            if let Some(pool) = slot {
                clear_firsts(pool);
            }
        }
        Objects { pools }
    }

    /// A law: there are at most `MAX_MBUFS` objects in all.
    pub fn are_few(&self)
        ensures { objects_in_all self.now ≤ MAX_MBUFS }
    {
        let _ = &self.pools;
    }

    /// The header of object `n`.
    #[inline(always)]
    pub fn header(&self, n: MbufNumber) -> Header
        requires { HasObject self.now n }
        ensures { result ≡ header_at self.now n }
    {
        read_header(pool_at(&self.pools, n.pool()).object(u32::from(n.index())))
    }

    /// The number of objects of a pool; 0 if there is no such pool.
    pub fn count(&self, pool: u16) -> u32
        ensures { result ≡ length (pool_in self.now pool).objects }
    {
        let pools = &self.pools;
        let k = usize::from(pool);
        if k >= MAX_POOLS {
            return 0;
        }
        count_in_slot(&pools[k])
    }

    /// Whether there is a pool of this number.
    pub fn has_pool(&self, pool: u16) -> bool
        ensures { IsTrue result ↔ pool < length self.now }
    {
        let pools = &self.pools;
        let k = usize::from(pool);
        if k >= MAX_POOLS {
            return false;
        }
        is_filled(&pools[k])
    }

    /// The size of the data room of a pool's objects.
    #[inline(always)]
    pub fn room(&self, pool: u16) -> u16
        requires { pool < length self.now }
        ensures { result ≡ room_at (specs_of self.now) pool }
    {
        (pool_at(&self.pools, pool).size() - HEADER_SIZE) as u16
    }

    /// The data room of object `n`.
    #[inline(always)]
    pub fn bytes(&self, n: MbufNumber) -> &[u8]
        requires { HasObject self.now n }
        ensures value { result.now ≡ bytes_of (buffers_of self.now) n }
        ensures room { length result.now ≡ room_at (specs_of self.now) n.pool }
    {
        &pool_at(&self.pools, n.pool()).object(u32::from(n.index()))[HEADER_SIZE as usize..]
    }

    /// The number of a pool's objects that are in.
    #[inline(always)]
    pub fn available(&self, pool: u16) -> u32
        requires { pool < length self.now }
        ensures { result ≡ count_in self.now pool }
    {
        pool_at(&self.pools, pool).available()
    }

    /// Whether all objects are in.
    pub fn are_all_in(&self) -> bool
        ensures { IsTrue result ↔ AreAllIn self.now }
    {
        are_whole(&self.pools)
    }

    // Writes bytes into an object's header.
    #[inline(always)]
    #[tactic(auto, using(crate::proofs::Slots::listed, crate::proofs::Slots::below, crate::proofs::Slots::filled, crate::proofs::Slots::object))]
    fn write_front(&mut self, n: MbufNumber, at: u32, bytes: &[u8])
        requires object { HasObject self.old n }
        requires front { at + length bytes.now ≤ HEADER_SIZE }
        ensures long { HEADER_SIZE ≤ length (object_in (pool_in self.old n.pool) n.index) }
        ensures written { HeaderSet self.old n (header_with self.old n at bytes.now) self.new }
    {
        let pool = pool_mut(&mut self.pools[usize::from(n.pool())]);
        pool.write(u32::from(n.index()), at, bytes);
    }

    // Writes two numbers into an object's header, one after the other.
    #[inline(always)]
    #[tactic(auto, using(crate::proofs::Slots::listed, crate::proofs::Slots::below, crate::proofs::Slots::filled, crate::proofs::Slots::object))]
    fn write_pair(&mut self, n: MbufNumber, at: usize, x: u16, y: u16)
        requires object { HasObject self.old n }
        requires front { at + 4 ≤ HEADER_SIZE }
        ensures long { HEADER_SIZE ≤ length (object_in (pool_in self.old n.pool) n.index) }
        ensures written { HeaderSet self.old n (header_with self.old n at (then_word x (then_word y []))) self.new }
    {
        let pool = pool_mut(&mut self.pools[usize::from(n.pool())]);
        write_words(pool.object_mut(u32::from(n.index())), at, x, y);
    }

    /// Writes a header.
    #[inline(always)]
    pub fn set_header(&mut self, n: MbufNumber, h: Header)
        requires { HasObject self.old n }
        ensures { HeaderSet self.old n h self.new }
    {
        self.write_front(n, 0, &bytes_of_header(h));
    }

    /// Sets the number of segments.
    #[inline(always)]
    pub fn set_segs(&mut self, n: MbufNumber, segs: u16)
        requires { HasObject self.old n }
        ensures { HeaderSet self.old n (record (header_at self.old n) { segs = segs }) self.new }
    {
        self.write_front(n, SEGS as u32, &bytes_of_word(segs));
    }

    /// Sets the number of references to a buffer.
    #[inline(always)]
    pub fn set_refs(&mut self, n: MbufNumber, refs: u32)
        requires { HasObject self.old n }
        ensures { HeaderSet self.old n (record (header_at self.old n) { refs = refs }) self.new }
    {
        let bytes = bytes_of_refs(refs);
        self.write_front(n, REFS as u32, &bytes);
    }

    /// Sets offset and length of an mbuf's segment.
    #[inline(always)]
    pub fn set_bounds(&mut self, n: MbufNumber, offset: u16, len: u16)
        requires { HasObject self.old n }
        ensures { HeaderSet self.old n (record (header_at self.old n) { offset = offset; len = len }) self.new }
    {
        self.write_pair(n, OFFSET, offset, len);
    }

    /// Sets the next mbuf.
    #[inline(always)]
    pub fn set_next(&mut self, n: MbufNumber, next: MbufNumber)
        requires { HasObject self.old n }
        ensures { HeaderSet self.old n (record (header_at self.old n) { next = next }) self.new }
    {
        self.write_pair(n, NEXT, next.index(), next.pool());
    }

    /// Sets the number of segments and the last mbuf.
    #[inline(always)]
    #[tactic(auto, using(crate::proofs::Slots::listed, crate::proofs::Slots::below, crate::proofs::Slots::filled, crate::proofs::Slots::object))]
    pub fn set_segs_and_last(&mut self, n: MbufNumber, segs: u16, last: MbufNumber)
        requires { HasObject self.old n }
        ensures { HeaderSet self.old n (record (header_at self.old n) { segs = segs; last = last }) self.new }
    {
        let pool = pool_mut(&mut self.pools[usize::from(n.pool())]);
        write_segs_and_last(pool.object_mut(u32::from(n.index())), segs, last);
    }

    /// Writes a header, and bytes into the data room at an offset. `pool` is the pool of `n`, which is at hand where `n` was taken.
    #[inline(always)]
    pub fn fill(&mut self, pool: u16, n: MbufNumber, h: Header, at: u32, bytes: &[u8])
        requires pool { n.pool ≡ pool }
        requires object { HasObject self.old n }
        requires fits { at + length bytes.now ≤ room_at (specs_of self.old) n.pool }
        ensures both { BothWritten self.old n h at bytes.now self.new }
        ensures small { (k : ℕ) → slice_index bytes.now k < 256 }
    {
        let pool = pool_mut(&mut self.pools[usize::from(pool)]);
        let from = HEADER_SIZE as usize + at as usize;
        let object = pool.object_mut(u32::from(n.index()));
        write_both(object, &bytes_of_header(h), from, bytes);
    }

    /// Writes the low bytes of a number into a data room at an offset, big-endian.
    #[inline(always)]
    #[tactic(auto, using(crate::proofs::Slots::listed, crate::proofs::Slots::below, crate::proofs::Slots::filled, crate::proofs::Slots::object))]
    pub fn write_number(&mut self, n: MbufNumber, at: u32, width: Width, number: u64)
        requires object { HasObject self.old n }
        requires fits { at + bytes_in width ≤ room_at (specs_of self.old) n.pool }
        ensures { RoomWritten self.old n at (big_endian (bytes_in width) number) self.new }
    {
        let pool = pool_mut(&mut self.pools[usize::from(n.pool())]);
        let from = HEADER_SIZE as usize + at as usize;
        write_number(pool.object_mut(u32::from(n.index())), from, width, number);
    }

    // Writes the low bytes of a number into the data room of a buffer that is another mbuf.
    #[inline(never)]
    fn write_number_far(&mut self, b: MbufNumber, from: u16, more: u32, width: Width, number: u64)
        requires object { HasObject self.old b }
        requires fits { from + more + bytes_in width ≤ room_at (specs_of self.old) b.pool }
        requires small { from + more ≤ MAX_ROOM }
        ensures { RoomWritten self.old b (from + more) (big_endian (bytes_in width) number) self.new }
    {
        self.write_number(b, u32::from(from) + more, width, number);
    }

    /// Writes the low bytes of a number into the data room of buffer `b` at offset `from + more`, big-endian. The buffer mostly is mbuf `n` itself.
    #[inline(always)]
    pub fn write_number_near(
        &mut self,
        n: MbufNumber,
        b: MbufNumber,
        from: u16,
        more: u32,
        width: Width,
        number: u64,
    )
        requires object { HasObject self.old b }
        requires fits { from + more + bytes_in width ≤ room_at (specs_of self.old) b.pool }
        requires small { from + more ≤ MAX_ROOM }
        ensures { RoomWritten self.old b (from + more) (big_endian (bytes_in width) number) self.new }
    {
        if b.is(n) {
            self.write_number(n, u32::from(from) + more, width, number);
        } else {
            self.write_number_far(b, from, more, width, number);
        }
    }

    /// Writes zeros into a data room at an offset.
    #[inline(always)]
    #[tactic(auto, using(crate::proofs::Slots::listed, crate::proofs::Slots::below, crate::proofs::Slots::filled, crate::proofs::Slots::object))]
    pub fn zero(&mut self, n: MbufNumber, at: u32, len: u32)
        requires object { HasObject self.old n }
        requires fits { at + len ≤ room_at (specs_of self.old) n.pool }
        ensures { RoomWritten self.old n at (replicate len 0) self.new }
    {
        let pool = pool_mut(&mut self.pools[usize::from(n.pool())]);
        let from = HEADER_SIZE as usize + at as usize;
        write_zeros(pool.object_mut(u32::from(n.index())), from, len as usize);
    }

    /// Takes an object of a pool, or `None` if none is in.
    #[inline(always)]
    pub fn take(&mut self, pool: u16) -> Option<MbufNumber>
        requires { pool < length self.old }
        ensures { MatchOption result ((count_in self.old pool ≡ 0) × (self.new ≡ self.old)) (λ n. (n.pool ≡ pool) × Taken self.old n self.new) }
    {
        let index = pool_mut(&mut self.pools[usize::from(pool)]).get()?;
        Some(MbufNumber::new(pool, index as u16))
    }

    /// Puts an object back.
    #[inline(always)]
    pub fn give(&mut self, n: MbufNumber)
        requires { is_out self.old n ≡ true }
        ensures { Given self.old n self.new }
    {
        pool_mut(&mut self.pools[usize::from(n.pool())]).put(u32::from(n.index()));
    }

    /// Clears an object's number of segments, and puts the object back.
    #[inline(always)]
    #[tactic(auto, using(crate::proofs::Slots::listed, crate::proofs::Slots::below, crate::proofs::Slots::filled, crate::proofs::Slots::object))]
    pub fn end(&mut self, n: MbufNumber)
        requires object { HasObject self.old n }
        requires out { is_out self.old n ≡ true }
        ensures { Ended self.old n self.new }
    {
        let pool = pool_mut(&mut self.pools[usize::from(n.pool())]);
        pool.clear(u32::from(n.index()), SEGS as u32, 2);
        pool.put(u32::from(n.index()));
    }

    /// Returns the pools.
    pub fn into_pools(self) -> [Option<Pool>; MAX_POOLS]
        ensures same { present result ≡ self }
        ensures first { PoolsFirst result }
    {
        let Objects { pools } = self;
        pools
    }
}
