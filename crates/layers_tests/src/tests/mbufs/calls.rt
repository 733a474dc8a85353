//! The calls on packets. Each asserts what the call requires, so that tests read as the examples that they are.

ghost use Rattle.std.specs.Prelude.{◌≡◌, ◌+◌, ◌*◌, ◌<◌, ◌≤◌, length, slice_get};
ghost use Rattle.dp_model.specs.Packets.{Segment, IsHeadSole, IsTailSole, refs};
ghost use Rattle.dp_model.specs.Stores.{HasSome, IsLive, Of, segments_of};
ghost use Rattle.layers_tests.specs.Rows.{IsOver, StaysOver};

use super::cases::must;
use dp_mbuf::Mbufs;
use dp_model::{Packet, Width};
use std::process::Abort;

/// Asserts that the packet is live.
pub(crate) fn alive(rt: &impl Abort, m: &Mbufs, p: &Packet)
    ensures { IsLive m.now.store p.now }
{
    must(rt, m.is_live(p), "the packet is live");
}

pub(crate) fn receive(rt: &impl Abort, m: &mut Mbufs, pool: u32, bytes: &[u8]) -> Option<Packet>
    requires over { IsOver m.old.store }
    requires pool { pool < 2 }
    ensures { StaysOver m.old m.new }
{
    must(rt, bytes.len() < 262_145, "a record's length");
    must(rt, m.needed(pool, bytes.len()) <= 64, "64 segments");
    m.receive(pool, bytes)
}

pub(crate) fn alloc(m: &mut Mbufs, pool: u32) -> Option<Packet>
    requires over { IsOver m.old.store }
    requires pool { pool < 3 }
    ensures { StaysOver m.old m.new }
{
    m.alloc(pool)
}

pub(crate) fn copy(rt: &impl Abort, m: &mut Mbufs, p: &Packet, pool: u32) -> Option<Packet>
    requires over { IsOver m.old.store }
    requires pool { pool < 3 }
    ensures { StaysOver m.old m.new }
{
    alive(rt, m, p);
    m.clone_of(p, pool)
}

pub(crate) fn free(rt: &impl Abort, m: &mut Mbufs, p: Packet)
    requires { IsOver m.old.store }
    ensures { StaysOver m.old m.new }
{
    alive(rt, m, &p);
    m.free(p);
}

/// Frees a packet that is one object, and returns whether it had these bytes. `None` for any other packet, which is kept.
pub(crate) fn free_sole(rt: &impl Abort, m: &mut Mbufs, p: Packet, want: &[u8]) -> Option<bool>
    requires { IsOver m.old.store }
    ensures { StaysOver m.old m.new }
{
    alive(rt, m, &p);
    let is_same = m.sole_bytes(&p)? == want;
    m.free_sole(p);
    Some(is_same)
}

pub(crate) fn free_count(m: &Mbufs, pool: u32) -> u32
    requires over { IsOver m.now.store }
    requires pool { pool < 3 }
{
    m.available(pool)
}

// Asserts that nothing shares the buffer of the first segment.
fn sole_head(rt: &impl Abort, m: &Mbufs, p: &Packet)
    ensures { HasSome m.now.store p.now (λ k. IsHeadSole (segments_of m.now.store) k) }
{
    let sharers = refs(rt, m, p, 0);
    must(rt, sharers == 1, "one reference");
}

// Asserts that nothing shares the buffer of the last segment.
fn sole_tail(rt: &impl Abort, m: &Mbufs, p: &Packet)
    ensures { HasSome m.now.store p.now (λ k. IsTailSole (segments_of m.now.store) k) }
{
    let count = segments(rt, m, p);
    assert!(rt; 1 <= count);
    let sharers = refs(rt, m, p, count - 1);
    must(rt, sharers == 1, "one reference");
}

/// An end of a packet.
#[derive(Clone, Copy)]
pub(crate) enum End {
    Front,
    Back,
}

// Asserts that there are as many bytes.
fn fits(rt: &impl Abort, n: u16, most: u16)
    ensures { n ≤ most }
{
    must(rt, n <= most, "there are as many bytes");
}

/// Cuts bytes off the packet.
pub(crate) fn cut(rt: &impl Abort, m: &mut Mbufs, p: &Packet, end: End, n: u16)
    requires { IsOver m.old.store }
    ensures { StaysOver m.old m.new }
{
    alive(rt, m, p);
    match end {
        End::Front => {
            fits(rt, n, m.first_len(p));
            m.adj(p, n);
        }
        End::Back => {
            fits(rt, n, m.last_len(p));
            m.trim(p, n);
        }
    }
}

/// Prepends zeros to the packet, or appends them.
pub(crate) fn extend(rt: &impl Abort, m: &mut Mbufs, p: &Packet, end: End, n: u16)
    requires { IsOver m.old.store }
    ensures { StaysOver m.old m.new }
{
    match end {
        End::Front => {
            sole_head(rt, m, p);
            fits(rt, n, m.headroom(p));
            m.prepend(p, n);
        }
        End::Back => {
            sole_tail(rt, m, p);
            fits(rt, n, m.tailroom(p));
            m.append(p, n);
        }
    }
}

/// Writes one byte of the first segment.
pub(crate) fn store(rt: &impl Abort, m: &mut Mbufs, p: &Packet, offset: u64, byte: u8)
    requires { IsOver m.old.store }
    ensures { StaysOver m.old m.new }
{
    sole_head(rt, m, p);
    must(rt, offset < u64::from(m.first_len(p)), "a byte");
    m.store(p, offset, Width::One, u64::from(byte));
}

pub(crate) fn load_one(rt: &impl Abort, m: &Mbufs, p: &Packet, offset: u64) -> u64 {
    alive(rt, m, p);
    must(rt, offset < u64::from(m.first_len(p)), "a byte");
    m.load(p, offset, Width::One)
}

pub(crate) fn load_four(rt: &impl Abort, m: &Mbufs, p: &Packet) -> u64 {
    alive(rt, m, p);
    must(rt, 4 <= m.first_len(p), "four bytes");
    m.load(p, 0, Width::Four)
}

pub(crate) fn refs(rt: &impl Abort, m: &Mbufs, p: &Packet, k: u32) -> u32
    ensures live { IsLive m.now.store p.now }
    ensures refs { Of m.now.store p.now (λ packet. (s : Segment) → slice_get packet k ≡ Some s → result ≡ refs (segments_of m.now.store) s.buffer) }
{
    alive(rt, m, p);
    must(rt, k < m.segments(p), "a segment");
    m.refs(p, k)
}

pub(crate) fn chain(rt: &impl Abort, m: &mut Mbufs, head: &Packet, tail: Packet)
    requires { IsOver m.old.store }
    ensures { StaysOver m.old m.new }
{
    alive(rt, m, head);
    alive(rt, m, &tail);
    must(rt, head.number() != tail.number(), "two packets");
    let front = m.segments(head);
    must(rt, front <= 64, "64 segments");
    must(rt, m.segments(&tail) <= 64 - front, "64 segments in all");
    m.chain(head, tail);
}

pub(crate) fn segments(rt: &impl Abort, m: &Mbufs, p: &Packet) -> u32
    ensures { Of m.now.store p.now (λ packet. result ≡ length packet) }
{
    alive(rt, m, p);
    m.segments(p)
}

pub(crate) fn is_sole(rt: &impl Abort, m: &Mbufs, p: &Packet) -> bool {
    alive(rt, m, p);
    m.is_sole(p)
}

/// Headroom, tailroom, and the lengths of the first and of the last segment.
pub(crate) fn rooms(rt: &impl Abort, m: &Mbufs, p: &Packet) -> (u16, u16, u16, u16) {
    alive(rt, m, p);
    (m.headroom(p), m.tailroom(p), m.first_len(p), m.last_len(p))
}

/// Whether the packet has these bytes.
pub(crate) fn spells(rt: &impl Abort, m: &Mbufs, p: &Packet, want: &[u8]) -> bool {
    let mut rest = want;
    for k in 0..segments(rt, m, p) {
        alive(rt, m, p);
        must(rt, k < m.segments(p), "a segment");
        let part = m.segment_bytes(p, k);
        if part.len() > rest.len() || part != &rest[..part.len()] {
            return false;
        }
        rest = &rest[part.len()..];
    }
    rest.is_empty()
}
