//! The calls on packets: make, change, clone and free them.

ghost use Rattle.std.specs.Prelude.{◌≡◌, ◌≢◌, ℕ, ◌+◌, ◌*◌, ◌<◌, ◌≤◌, [], None, length, drop, slice_get, slice_range, IsTrue, ◌↔◌, IfSome, IfNone};
ghost use Rattle.std.specs.Prelude.{List, Some, true, false, max, ◌-◌, ◌/◌};
ghost use Rattle.std.specs.Prelude.{◌^◌};
ghost use Rattle.dp_model.specs.Packets.{Segment, needed, refs, IsSole, segment_bytes, packet_bytes, headroom, tailroom, first_len, last_len, at_front};
ghost use Rattle.dp_model.specs.Packets.{at_end, more_before, less_before, more_after, less_after, zeroed_before, zeroed_after, available, loaded, stored};
ghost use Rattle.dp_model.specs.Packets.{IsHeadSole, IsTailSole};
ghost use Rattle.dp_model.specs.Arithmetic.{bytes_in, spelled};
ghost use Rattle.dp_model.specs.Buffers.{Number, same_number, bytes_of};
ghost use Rattle.dp_model.specs.Environments.{room_at};
ghost use Rattle.dp_model.specs.Stores.{segments_of, Has, HasSome, IsLive, Of, Becomes, unwritten, with_slot, Allocates, Chains, Clones, ReceivesInto};
ghost use Rattle.dp_model.specs.Stores.{IsWellFormedStore, Store};
ghost use Rattle.dp_mbuf.specs.Objects.{header_at, specs_of, buffers_of, zones_of, HasObject};
ghost use Rattle.dp_mbuf.specs.Mbufs.{numbered, handle, AreReady, IsNew, HasNone, AreBack, Linked, HasWalk, mbufs_in_all};
ghost use Rattle.dp_mbuf.specs.Mbufs.{Freeing, Sound, shown};
ghost use Rattle.dp_mbuf.specs.Alone.{IsAlone};

use crate::big_endian::read_number;
use crate::header::Header;
use crate::limits::{HEADROOM, MAX_LENGTH, MAX_MBUFS, MAX_POOLS, MAX_ROOM, MAX_SEGMENTS};
use crate::mbuf_number::MbufNumber;
use crate::objects::Objects;
use crate::steps::{
    beyond, clear_first, clone_segment, fill_segment, fresh_header, release, release_only, relink,
    set_first,
};
use dp_model::{Packet, Width};
use dp_pool::Pool;
use std::marker::Model;

/// The owner of pools, and of the packets in their buffers: chains of segments. `into_pools` ends it.
pub struct Mbufs {
    objects: Objects,
}

impl Model for Mbufs {
    ghost use Rattle.dp_mbuf.specs.Mbufs.{MbufsView, viewed, Sound};

    ghost Value = { MbufsView };

    ghost view = { λ m. viewed m.objects };

    ghost invariant = { λ m. Sound m.objects };
}

// The number of a packet's first mbuf.
#[inline(always)]
fn first_number(packet: &Packet) -> MbufNumber
    ensures { result ≡ numbered packet.now }
{
    MbufNumber::of(packet.number())
}

// The packet that begins at this mbuf.
#[inline(always)]
fn packet_of(mbuf: MbufNumber) -> Packet
    ensures { result ≡ handle mbuf }
{
    Packet::of(mbuf.handle())
}

// The header of a packet's first mbuf.
#[inline(always)]
fn first_header(objects: &Objects, packet: &Packet) -> Header
    requires { HasObject objects.now (numbered packet.now) }
    ensures { result ≡ header_at objects.now (numbered packet.now) }
{
    objects.header(first_number(packet))
}

// The header of a packet's last mbuf.
#[inline(always)]
fn last_header(objects: &Objects, packet: &Packet) -> Header
    requires first { HasObject objects.now (numbered packet.now) }
    requires last { HasObject objects.now (header_at objects.now (numbered packet.now)).last }
    ensures { result ≡ header_at objects.now (header_at objects.now (numbered packet.now)).last }
{
    objects.header(first_header(objects, packet).last)
}

// `max(1, ceil(len / full))`.
fn count_needed(len: usize, full: u16) -> usize
    requires { 1 ≤ full }
    ensures { result ≡ max 1 ((len + (full - 1)) / full) }
{
    let full = usize::from(full);
    // It divides only where one part is not enough.
    if len <= full {
        return 1;
    }
    len.div_ceil(full).max(1)
}

// The number of a packet's `k`-th mbuf.
fn mbuf_at(objects: &Objects, first: MbufNumber, k: u32) -> MbufNumber
    requires { HasWalk objects.now first k }
    ensures { (p : List Segment) → Linked (header_at objects.now) first p → k < length p → Linked (header_at objects.now) result (drop k p) }
{
    let mut mbuf = first;
    for i in 0..k {
        mbuf = objects.header(mbuf).next;
    }
    mbuf
}

// Releases `count` segments along the links, starting at `first`.
#[inline(always)]
fn release_all(objects: &mut Objects, first: MbufNumber, count: u16)
    requires { (v : Store) × (h : ℕ) × Freeing objects.old first 0 count v h }
    ensures packets { (v : Store) (h : ℕ) → Freeing objects.old first 0 count v h → Sound objects.new × (shown objects.new ≡ with_slot h None v) }
    ensures zones { zones_of objects.new ≡ zones_of objects.old }
{
    let mut mbuf = first;
    for i in 0..count {
        mbuf = release(objects, mbuf);
    }
}

// Whether a header shows a packet of one segment, whose mbuf `n` is its own buffer and has no other reference.
#[inline(always)]
fn is_alone(header: Header, n: MbufNumber) -> bool
    ensures alone { result ≡ true → (header.segs ≡ 1) × (header.refs ≡ 1) × (same_number header.buffer n ≡ true) }
    ensures other { result ≡ false → (header.segs ≡ 1) × (header.refs ≡ 1) × (same_number header.buffer n ≡ true) → ⊥ }
{
    header.refs == 1 && header.segs == 1 && header.buffer.is(n)
}

// The bytes of a header's segment, whose buffer is `b`.
#[inline(always)]
fn bytes_in_segment(objects: &Objects, b: MbufNumber, header: Header) -> &[u8]
    requires object { HasObject objects.now b }
    requires fits { header.offset + header.len ≤ room_at (specs_of objects.now) b.pool }
    ensures value { result.now ≡ slice_range (bytes_of (buffers_of objects.now) b) header.offset (header.offset + header.len) }
    ensures many { length result.now ≡ header.len }
{
    let from = usize::from(header.offset);
    &objects.bytes(b)[from..from + usize::from(header.len)]
}

// The big-endian number at offset `from + more` of the data room of buffer `b`.
#[inline(always)]
fn number_in(objects: &Objects, b: MbufNumber, from: u16, more: u64, width: Width) -> u64
    requires object { HasObject objects.now b }
    requires fits { from + more + bytes_in width ≤ room_at (specs_of objects.now) b.pool }
    requires small { from + more ≤ MAX_ROOM }
    ensures { result ≡ spelled (slice_range (bytes_of (buffers_of objects.now) b) (from + more) (from + more + bytes_in width)) }
{
    let at = usize::from(from) + more as usize;
    read_number(&objects.bytes(b)[at..], width)
}

// The same of a buffer that is another mbuf.
#[inline(never)]
fn number_far(objects: &Objects, b: MbufNumber, from: u16, more: u64, width: Width) -> u64
    requires object { HasObject objects.now b }
    requires fits { from + more + bytes_in width ≤ room_at (specs_of objects.now) b.pool }
    requires small { from + more ≤ MAX_ROOM }
    ensures { result ≡ spelled (slice_range (bytes_of (buffers_of objects.now) b) (from + more) (from + more + bytes_in width)) }
{
    number_in(objects, b, from, more, width)
}

// The same of a buffer that mostly is mbuf `n` itself, whose address is at hand.
#[inline(always)]
fn number_near(
    objects: &Objects,
    n: MbufNumber,
    b: MbufNumber,
    from: u16,
    more: u64,
    width: Width,
) -> u64
    requires object { HasObject objects.now b }
    requires fits { from + more + bytes_in width ≤ room_at (specs_of objects.now) b.pool }
    requires small { from + more ≤ MAX_ROOM }
    ensures { result ≡ spelled (slice_range (bytes_of (buffers_of objects.now) b) (from + more) (from + more + bytes_in width)) }
{
    if b.is(n) {
        number_in(objects, n, from, more, width)
    } else {
        number_far(objects, b, from, more, width)
    }
}

impl Mbufs {
    /// Makes an `Mbufs` over these pools, without packets. The pools, at least one, fill the first slots. They must have at most `MAX_MBUFS`
    /// objects together, all in, with at least `HEADER_SIZE` bytes each.
    pub fn over(pools: [Option<Pool>; MAX_POOLS]) -> Mbufs
        requires { AreReady pools }
        ensures { IsNew pools result }
    {
        Mbufs {
            objects: Objects::over(pools),
        }
    }

    /// Whether no packet is live.
    pub fn is_empty(&self) -> bool
        ensures { IsTrue result ↔ HasNone self.now.store }
    {
        self.objects.are_all_in()
    }

    /// Returns the pools with all objects in. There must be no packet.
    pub fn into_pools(self) -> [Option<Pool>; MAX_POOLS]
        requires { HasNone self.store }
        ensures { AreBack self result }
    {
        let Mbufs { objects } = self;
        objects.into_pools()
    }

    /// Returns the number under which a packet can be kept, as in a ring. Its segments do not change. Use the packet again after `unpark`.
    pub fn park(&mut self, packet: Packet) -> u32
        requires { IsLive self.old.store packet }
        ensures number { result ≡ packet }
        ensures same { self.new ≡ self.old }
    {
        packet.number()
    }

    /// The packet with this number, which must be live.
    pub fn unpark(&mut self, number: u32) -> Packet
        requires { IsLive self.old.store number }
        ensures packet { result ≡ number }
        ensures same { self.new ≡ self.old }
    {
        Packet::of(number)
    }

    /// Whether the handle is live.
    pub fn is_live(&self, packet: &Packet) -> bool
        ensures { IsTrue result ↔ IsLive self.now.store packet.now }
    {
        let mbuf = first_number(packet);
        u32::from(mbuf.index()) < self.objects.count(mbuf.pool())
            && self.objects.header(mbuf).segs != 0
    }

    /// The free bytes before the first segment's data.
    #[inline(always)]
    pub fn headroom(&self, packet: &Packet) -> u16
        requires { IsLive self.now.store packet.now }
        ensures { Of self.now.store packet.now (λ k. result ≡ headroom k) }
    {
        first_header(&self.objects, packet).offset
    }

    /// The length of the first segment, in bytes.
    #[inline(always)]
    pub fn first_len(&self, packet: &Packet) -> u16
        requires { IsLive self.now.store packet.now }
        ensures { Of self.now.store packet.now (λ k. result ≡ first_len k) }
    {
        first_header(&self.objects, packet).len
    }

    /// The number of segments.
    #[inline(always)]
    pub fn segments(&self, packet: &Packet) -> u32
        requires { IsLive self.now.store packet.now }
        ensures { Of self.now.store packet.now (λ k. result ≡ length k) }
    {
        u32::from(first_header(&self.objects, packet).segs)
    }

    /// The length of the last segment, in bytes.
    #[inline(always)]
    pub fn last_len(&self, packet: &Packet) -> u16
        requires { IsLive self.now.store packet.now }
        ensures { Of self.now.store packet.now (λ k. result ≡ last_len k) }
    {
        last_header(&self.objects, packet).len
    }

    /// The free bytes after the last segment's data.
    #[inline(always)]
    pub fn tailroom(&self, packet: &Packet) -> u16
        requires { IsLive self.now.store packet.now }
        ensures { Of self.now.store packet.now (λ k. result ≡ tailroom self.now.store.pools k) }
    {
        let tail = last_header(&self.objects, packet);
        self.objects.room(tail.buffer.pool()) - tail.offset - tail.len
    }

    /// Removes `n` bytes from the front of the first segment, which must have that many.
    #[inline(always)]
    pub fn adj(&mut self, packet: &Packet, n: u16)
        requires { HasSome self.old.store packet.now (λ k. n ≤ first_len k) }
        ensures packets { Becomes self.old.store self.new.store packet.now (at_front (less_before n)) unwritten }
        ensures zones { self.new.zones ≡ self.old.zones }
    {
        let head = first_header(&self.objects, packet);
        self.objects
            .set_bounds(first_number(packet), head.offset + n, head.len - n);
    }

    /// Removes `n` bytes from the end of the last segment, which must have that many.
    #[inline(always)]
    pub fn trim(&mut self, packet: &Packet, n: u16)
        requires { HasSome self.old.store packet.now (λ k. n ≤ last_len k) }
        ensures packets { Becomes self.old.store self.new.store packet.now (at_end (less_after n)) unwritten }
        ensures zones { self.new.zones ≡ self.old.zones }
    {
        let last = first_header(&self.objects, packet).last;
        let tail = self.objects.header(last);
        self.objects.set_bounds(last, tail.offset, tail.len - n);
    }

    // Frees a packet, which may share buffers or have more segments.
    #[inline(always)]
    fn free_shared(&mut self, packet: Packet)
        requires { IsLive self.old.store packet }
        ensures packets { self.new.store ≡ with_slot packet None self.old.store }
        ensures zones { self.new.zones ≡ self.old.zones }
    {
        let first = first_number(&packet);
        let head = clear_first(&mut self.objects, first);
        let segs = head.segs;
        if segs == 1 {
            release_only(&mut self.objects, first, head.buffer, head.refs);
        } else {
            release_all(&mut self.objects, first, segs);
        }
    }

    /// Frees a packet: drops one reference of each segment's buffer. An object returns to its pool when no live segment has it as its mbuf or as
    /// its buffer.
    #[inline(always)]
    pub fn free(&mut self, packet: Packet)
        requires { IsLive self.old.store packet }
        ensures packets { self.new.store ≡ with_slot packet None self.old.store }
        ensures zones { self.new.zones ≡ self.old.zones }
    {
        let first = first_number(&packet);
        if is_alone(self.objects.header(first), first) {
            self.objects.end(first);
        } else {
            self.free_shared(packet);
        }
    }

    /// The bytes of a packet of one segment that lies in the buffer of its own mbuf and is its only reference: the usual packet, which `free_sole`
    /// ends. `None` exactly for any other.
    #[inline(always)]
    pub fn sole_bytes(&self, packet: &Packet) -> Option<&[u8]>
        requires { IsLive self.now.store packet.now }
        ensures some { IfSome result (λ bytes. Of self.now.store packet.now (λ k. IsAlone self.now.store k
            × (bytes.now ≡ packet_bytes self.now.store.buffers k))) }
        ensures none { IfNone result (Of self.now.store packet.now (λ k. IsAlone self.now.store k → ⊥)) }
        ensures bound { IfSome result (λ bytes. length bytes.now ≤ MAX_ROOM) }
    {
        let first = first_number(packet);
        if is_alone(self.objects.header(first), first) {
            let segment = self.objects.header(first);
            // Its buffer is its own object, which is at hand.
            Some(bytes_in_segment(&self.objects, first, segment))
        } else {
            None
        }
    }

    /// Frees a packet that `sole_bytes` finds: its object returns to its pool.
    #[inline(always)]
    pub fn free_sole(&mut self, packet: Packet)
        requires { HasSome self.old.store packet (IsAlone self.old.store) }
        ensures packets { self.new.store ≡ with_slot packet None self.old.store }
        ensures zones { self.new.zones ≡ self.old.zones }
    {
        self.objects.end(first_number(&packet));
    }

    /// The number of free buffers of a pool.
    #[inline(always)]
    pub fn available(&self, pool: u32) -> u32
        requires { pool < length self.now.store.pools }
        ensures { result ≡ available self.now.store.pools (segments_of self.now.store) pool }
    {
        self.objects.available(pool as u16)
    }

    // Whether the pool exists.
    fn has_pool(&self, pool: u32) -> bool
        ensures { IsTrue result ↔ pool < length self.now.store.pools }
    {
        pool < MAX_POOLS as u32 && self.objects.has_pool(pool as u16)
    }

    /// The number of free buffers of a pool; `None` if there is no such pool.
    pub fn available_in(&self, pool: u32) -> Option<u32>
        ensures some { IfSome result (λ n. (pool < length self.now.store.pools) × (n ≡ available self.now.store.pools (segments_of self.now.store) pool)) }
        ensures none { IfNone result (length self.now.store.pools ≤ pool) }
    {
        if self.has_pool(pool) {
            Some(self.available(pool))
        } else {
            None
        }
    }

    /// Allocates a packet of one empty segment, after a headroom of `HEADROOM` or of the whole data room if that is smaller. `None` exactly if no
    /// buffer of the pool is free; then nothing changes.
    #[inline(always)]
    pub fn alloc(&mut self, pool: u32) -> Option<Packet>
        requires { pool < length self.old.store.pools }
        ensures packets { Allocates self.old.store pool self.new.store result }
        ensures zones { self.new.zones ≡ self.old.zones }
    {
        let mbuf = self.objects.take(pool as u16)?;
        let offset = self.objects.room(mbuf.pool()).min(HEADROOM);
        let header = fresh_header(mbuf, offset, 0);
        self.objects.set_header(mbuf, Header { segs: 1, ..header });
        Some(packet_of(mbuf))
    }

    /// Reads `width` bytes at `offset` of the first segment as a big-endian number. They must lie in it.
    #[inline(always)]
    pub fn load(&self, packet: &Packet, offset: u64, width: Width) -> u64
        requires { HasSome self.now.store packet.now (λ k. offset + bytes_in width ≤ first_len k) }
        ensures { Of self.now.store packet.now (λ k. result ≡ loaded offset (bytes_in width) k self.now.store.buffers) }
    {
        let head = first_header(&self.objects, packet);
        let first = first_number(packet);
        number_near(
            &self.objects,
            first,
            head.buffer,
            head.offset,
            offset,
            width,
        )
    }

    /// Writes the low `width` bytes of `n` at `offset` of the first segment, big-endian. They must lie in it, and its buffer must have one reference.
    #[inline(always)]
    pub fn store(&mut self, packet: &Packet, offset: u64, width: Width, n: u64)
        requires { HasSome self.old.store packet.now (λ k. (offset + bytes_in width ≤ first_len k) × IsHeadSole (segments_of self.old.store) k) }
        ensures packets { Becomes self.old.store self.new.store packet.now (λ k. k) (stored offset (bytes_in width) n) }
        ensures zones { self.new.zones ≡ self.old.zones }
    {
        let head = first_header(&self.objects, packet);
        let first = first_number(packet);
        self.objects
            .write_number_near(first, head.buffer, head.offset, offset as u32, width, n);
    }

    /// Extends the first segment by `n` zero bytes at its front. The headroom must have that many, and the segment's buffer one reference.
    #[inline(always)]
    pub fn prepend(&mut self, packet: &Packet, n: u16)
        requires { HasSome self.old.store packet.now (λ k. (n ≤ headroom k) × IsHeadSole (segments_of self.old.store) k) }
        ensures packets { Becomes self.old.store self.new.store packet.now (at_front (more_before n)) (zeroed_before n) }
        ensures zones { self.new.zones ≡ self.old.zones }
    {
        let head = first_header(&self.objects, packet);
        let offset = head.offset - n;
        self.objects
            .set_bounds(first_number(packet), offset, head.len + n);
        self.objects
            .zero(head.buffer, u32::from(offset), u32::from(n));
    }

    /// Extends the last segment by `n` zero bytes at its end. The tailroom must have that many, and the segment's buffer one reference.
    #[inline(always)]
    pub fn append(&mut self, packet: &Packet, n: u16)
        requires { HasSome self.old.store packet.now (λ k. (n ≤ tailroom self.old.store.pools k) × IsTailSole (segments_of self.old.store) k) }
        ensures packets { Becomes self.old.store self.new.store packet.now (at_end (more_after n)) (zeroed_after n) }
        ensures zones { self.new.zones ≡ self.old.zones }
    {
        let last = first_header(&self.objects, packet).last;
        let tail = self.objects.header(last);
        self.objects.set_bounds(last, tail.offset, tail.len + n);
        let end = u32::from(tail.offset) + u32::from(tail.len);
        self.objects.zero(tail.buffer, end, u32::from(n));
    }

    /// Appends the segments of `tail` to those of `head`, a different packet. Together they may have at most `MAX_SEGMENTS`.
    pub fn chain(&mut self, head: &Packet, tail: Packet)
        requires two { head.now ≢ tail }
        requires few { HasSome self.old.store head.now (λ k. HasSome self.old.store tail (λ t. length k + length t ≤ MAX_SEGMENTS)) }
        ensures packets { Chains self.old.store head.now tail self.new.store }
        ensures zones { self.new.zones ≡ self.old.zones }
    {
        let second = first_number(&tail);
        let beyond = clear_first(&mut self.objects, second);
        let first = first_number(head);
        let front = clear_first(&mut self.objects, first);
        relink(&mut self.objects, front.last, second);
        set_first(
            &mut self.objects,
            first,
            front.segs + beyond.segs,
            beyond.last,
        );
    }

    /// Makes a clone: for each segment one indirect mbuf of the pool, with the same buffer, offset and length. `None` exactly if fewer are free;
    /// then nothing changes.
    pub fn clone_of(&mut self, packet: &Packet, pool: u32) -> Option<Packet>
        requires live { IsLive self.old.store packet.now }
        requires exists { pool < length self.old.store.pools }
        ensures packets { Clones self.old.store packet.now pool self.new.store result }
        ensures zones { self.new.zones ≡ self.old.zones }
    {
        let source = first_header(&self.objects, packet);
        if self.objects.available(pool as u16) < u32::from(source.segs) {
            return None;
        }
        let first = clone_segment(&mut self.objects, first_number(packet), pool as u16);
        let mut last = first;
        let mut from = source.next;
        for i in 1..source.segs {
            let mbuf = clone_segment(&mut self.objects, from, pool as u16);
            relink(&mut self.objects, last, mbuf);
            last = mbuf;
            from = self.objects.header(from).next;
        }
        set_first(&mut self.objects, first, source.segs, last);
        Some(packet_of(first))
    }

    /// How many live segments refer to the buffer of the `k`-th segment.
    pub fn refs(&self, packet: &Packet, k: u32) -> u32
        requires { HasSome self.now.store packet.now (λ p. k < length p) }
        ensures { Of self.now.store packet.now (λ p. (s : Segment) → slice_get p k ≡ Some s → result ≡ refs (segments_of self.now.store) s.buffer) }
    {
        let segment = self
            .objects
            .header(mbuf_at(&self.objects, first_number(packet), k));
        self.objects.header(segment.buffer).refs
    }

    /// The bytes of the `k`-th segment, at most a data room.
    pub fn segment_bytes(&self, packet: &Packet, k: u32) -> &[u8]
        requires { HasSome self.now.store packet.now (λ p. k < length p) }
        ensures value { Of self.now.store packet.now (λ p. (s : Segment) → slice_get p k ≡ Some s → result.now ≡ segment_bytes self.now.store.buffers s) }
        ensures bound { length result.now ≤ MAX_ROOM }
    {
        let segment = self
            .objects
            .header(mbuf_at(&self.objects, first_number(packet), k));
        let buffer = segment.buffer;
        bytes_in_segment(&self.objects, buffer, segment)
    }

    /// Whether the buffer of each segment has one reference.
    pub fn is_sole(&self, packet: &Packet) -> bool
        requires { IsLive self.now.store packet.now }
        ensures { Of self.now.store packet.now (λ p. IsTrue result ↔ IsSole (segments_of self.now.store) p) }
    {
        let segs = first_header(&self.objects, packet).segs;
        let mut mbuf = first_number(packet);
        for i in 0..segs {
            let segment = self.objects.header(mbuf);
            let buffer = self.objects.header(segment.buffer);
            if buffer.refs != 1 {
                return false;
            }
            mbuf = segment.next;
        }
        true
    }

    /// The length of the packet, in bytes.
    pub fn length(&self, packet: &Packet) -> u32
        requires { IsLive self.now.store packet.now }
        ensures value { Of self.now.store packet.now (λ p. result ≡ length (packet_bytes self.now.store.buffers p)) }
        ensures bound { result ≤ MAX_LENGTH }
    {
        let segs = first_header(&self.objects, packet).segs;
        let mut mbuf = first_number(packet);
        let mut total = 0u32;
        for i in 0..segs {
            let segment = self.objects.header(mbuf);
            total += u32::from(segment.len);
            mbuf = segment.next;
        }
        total
    }

    // Whether one buffer of a pool has room for `len` bytes after the headroom.
    #[inline(always)]
    fn is_one_enough(&self, pool: u32, len: usize) -> bool
        requires { HEADROOM < room_at self.now.store.pools pool }
        ensures { IsTrue result → HEADROOM + len ≤ room_at self.now.store.pools pool }
    {
        len <= usize::from(self.objects.room(pool as u16) - HEADROOM)
    }

    // Receives bytes for which one buffer is enough.
    #[inline(always)]
    fn receive_one(&mut self, pool: u32, bytes: &[u8]) -> Option<Packet>
        requires room { HEADROOM < room_at self.old.store.pools pool }
        requires one { HEADROOM + length bytes.now ≤ room_at self.old.store.pools pool }
        ensures packets { ReceivesInto self.old.store pool bytes.now self.new.store result }
        ensures zones { self.new.zones ≡ self.old.zones }
    {
        let first = self.objects.take(pool as u16)?;
        let header = Header {
            segs: 1,
            ..fresh_header(first, HEADROOM, bytes.len() as u16)
        };
        self.objects
            .fill(pool as u16, first, header, u32::from(HEADROOM), bytes);
        Some(packet_of(first))
    }

    // Receives bytes segment by segment.
    #[inline(never)]
    fn receive_many(&mut self, pool: u32, bytes: &[u8]) -> Option<Packet>
        requires room { HEADROOM < room_at self.old.store.pools pool }
        requires fits { needed self.old.store.pools pool (length bytes.now) ≤ MAX_SEGMENTS }
        ensures packets { ReceivesInto self.old.store pool bytes.now self.new.store result }
        ensures zones { self.new.zones ≡ self.old.zones }
    {
        let full = self.objects.room(pool as u16) - HEADROOM;
        let need = count_needed(bytes.len(), full);
        if (self.objects.available(pool as u16) as usize) < need {
            return None;
        }
        let first = fill_segment(&mut self.objects, pool as u16, full, bytes);
        let mut last = first;
        let mut rest = beyond(bytes, usize::from(full));
        for i in 1..need {
            let mbuf = fill_segment(&mut self.objects, pool as u16, full, rest);
            relink(&mut self.objects, last, mbuf);
            last = mbuf;
            rest = beyond(rest, usize::from(full));
        }
        set_first(&mut self.objects, first, need as u16, last);
        Some(packet_of(first))
    }

    /// Makes a packet with these bytes: each segment at offset `HEADROOM`, all full but the last. `None` exactly if the pool has fewer free
    /// buffers than `needed`; then nothing changes. The pool must have more room than `HEADROOM`, and the bytes need at most `MAX_SEGMENTS`
    /// segments.
    #[inline(always)]
    pub fn receive(&mut self, pool: u32, bytes: &[u8]) -> Option<Packet>
        requires room { HEADROOM < room_at self.old.store.pools pool }
        requires fits { needed self.old.store.pools pool (length bytes.now) ≤ MAX_SEGMENTS }
        ensures packets { ReceivesInto self.old.store pool bytes.now self.new.store result }
        ensures zones { self.new.zones ≡ self.old.zones }
    {
        if self.is_one_enough(pool, bytes.len()) {
            self.receive_one(pool, bytes)
        } else {
            self.receive_many(pool, bytes)
        }
    }

    /// How many buffers of the pool a received packet of `len` bytes needs, at least 1. The pool must have more room than `HEADROOM`.
    #[inline(always)]
    pub fn needed(&self, pool: u32, len: usize) -> usize
        requires { HEADROOM < room_at self.now.store.pools pool }
        ensures { result ≡ needed self.now.store.pools pool len }
    {
        let full = self.objects.room(pool as u16) - HEADROOM;
        count_needed(len, full)
    }

    /// A law of every `Mbufs`: the world of its packets is well formed, segments lie within their buffers, no buffer has more references than there
    /// are mbufs, at most 65,535, and a packet has 1 to 64 segments.
    pub fn is_well_formed(&self)
        ensures world { IsWellFormedStore self.now.store }
        ensures few { (b : Number) → refs (segments_of self.now.store) b ≤ mbufs_in_all self.now.store.pools }
        ensures mbufs { mbufs_in_all self.now.store.pools ≤ MAX_MBUFS }
        ensures counts { (b : Number) → refs (segments_of self.now.store) b ≤ MAX_MBUFS }
        ensures sizes { (h : ℕ) → Of self.now.store h (λ k. (1 ≤ length k) × (length k ≤ MAX_SEGMENTS)) }
    {
        self.objects.are_few();
    }
}
