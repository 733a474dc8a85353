//! Per-segment operations: take, clone, fill, link, release.

ghost use Rattle.std.specs.Prelude.{◌≡◌, ◌+◌, ◌<◌, ◌≤◌, true, length, take, drop};
ghost use Rattle.dp_model.specs.Environments.{room_at};
ghost use Rattle.dp_mbuf.specs.Objects.{header_at, is_out, specs_of, HasObject, count_in, ArePools, HeaderSet, Taken};
ghost use Rattle.dp_mbuf.specs.Steps.{MbufBack, BufferLess, CanRelease, Released, CanClone, Cloned, FilledBy};

use crate::header::Header;
use crate::limits::HEADROOM;
use crate::mbuf_number::MbufNumber;
use crate::objects::Objects;
use dp_pool::proved;

/// Clears the first mbuf's number of segments, so that no packet begins there, and returns the header that it had.
#[inline(always)]
pub(crate) fn clear_first(objects: &mut Objects, n: MbufNumber) -> Header
    requires { HasObject objects.old n }
    ensures was { result ≡ header_at objects.old n }
    ensures now { HeaderSet objects.old n (record (header_at objects.old n) { segs = 0 }) objects.new }
{
    let header = objects.header(n);
    objects.set_segs(n, 0);
    header
}

/// Makes an mbuf a packet's first: sets the number of segments and the last mbuf.
#[inline(always)]
pub(crate) fn set_first(objects: &mut Objects, n: MbufNumber, segs: u16, last: MbufNumber)
    requires { HasObject objects.old n }
    ensures { HeaderSet objects.old n (record (header_at objects.old n) { segs = segs; last = last }) objects.new }
{
    objects.set_segs_and_last(n, segs, last);
}

/// Sets the next mbuf.
#[inline(always)]
pub(crate) fn relink(objects: &mut Objects, n: MbufNumber, next: MbufNumber)
    requires { HasObject objects.old n }
    ensures { HeaderSet objects.old n (record (header_at objects.old n) { next = next }) objects.new }
{
    objects.set_next(n, next);
}

// Puts an mbuf back into its pool, unless it is its own buffer.
#[inline(always)]
fn put_mbuf(objects: &mut Objects, n: MbufNumber, b: MbufNumber)
    requires are { ArePools objects.old }
    requires out { is_out objects.old n ≡ true }
    ensures { MbufBack objects.old n b objects.new }
{
    if !n.is(b) {
        objects.give(n);
    }
}

// Drops one reference of a buffer that has `refs`.
#[inline(always)]
fn drop_one_of(objects: &mut Objects, b: MbufNumber, refs: u32)
    requires are { ArePools objects.old }
    requires object { HasObject objects.old b }
    requires out { is_out objects.old b ≡ true }
    requires some { 1 ≤ (header_at objects.old b).refs }
    requires refs { refs ≡ (header_at objects.old b).refs }
    ensures { BufferLess objects.old b objects.new }
{
    if refs == 1 {
        objects.give(b);
    } else {
        objects.set_refs(b, refs - 1);
    }
}

// Drops one reference of a buffer.
#[inline(always)]
fn drop_reference(objects: &mut Objects, b: MbufNumber)
    requires are { ArePools objects.old }
    requires object { HasObject objects.old b }
    requires out { is_out objects.old b ≡ true }
    requires some { 1 ≤ (header_at objects.old b).refs }
    ensures { BufferLess objects.old b objects.new }
{
    let refs = objects.header(b).refs;
    drop_one_of(objects, b, refs);
}

/// Releases mbuf `n`, whose buffer is `buffer`. `refs` is the refcnt in the header of `n`, used if `n` is direct.
#[inline(always)]
pub(crate) fn release_only(objects: &mut Objects, n: MbufNumber, buffer: MbufNumber, refs: u32)
    requires can { CanRelease objects.old n buffer }
    requires refs { refs ≡ (header_at objects.old n).refs }
    ensures { Released objects.old n buffer objects.new }
{
    put_mbuf(objects, n, buffer);
    if n.is(buffer) {
        drop_one_of(objects, buffer, refs);
    } else {
        drop_reference(objects, buffer);
    }
}

/// Releases a segment, and returns the next mbuf.
#[inline(always)]
pub(crate) fn release(objects: &mut Objects, n: MbufNumber) -> MbufNumber
    requires { CanRelease objects.old n (header_at objects.old n).buffer }
    ensures gone { Released objects.old n (header_at objects.old n).buffer objects.new }
    ensures next { result ≡ (header_at objects.old n).next }
{
    let header = objects.header(n);
    put_mbuf(objects, n, header.buffer);
    drop_reference(objects, header.buffer);
    header.next
}

/// The header of a new mbuf that is its own buffer and in no packet yet.
#[inline(always)]
pub(crate) fn fresh_header(n: MbufNumber, offset: u16, len: u16) -> Header
    ensures { result ≡ record { segs = 0; refs = 1; offset = offset; len = len; next = n; last = n; buffer = n } }
{
    Header {
        segs: 0,
        refs: 1,
        offset,
        len,
        next: n,
        last: n,
        buffer: n,
    }
}

/// Takes a free object; the pool must have one.
#[inline(always)]
pub(crate) fn take_one(objects: &mut Objects, pool: u16) -> MbufNumber
    requires there { pool < length objects.old }
    requires some { 1 ≤ count_in objects.old pool }
    ensures pool { result.pool ≡ pool }
    ensures taken { Taken objects.old result objects.new }
{
    match objects.take(pool) {
        Some(mbuf) => mbuf,
        None => {
            proved(false);
            unreachable!()
        }
    }
}

/// Takes an mbuf of a pool, and makes its segment the same part of the same buffer as the segment of `from`, which may itself be indirect.
#[inline(always)]
pub(crate) fn clone_segment(objects: &mut Objects, from: MbufNumber, pool: u16) -> MbufNumber
    requires { CanClone objects.old from pool }
    ensures pool { result.pool ≡ pool }
    ensures cloned { Cloned objects.old from result objects.new }
{
    let source = objects.header(from);
    let n = take_one(objects, pool);
    objects.set_header(
        n,
        Header {
            segs: 0,
            refs: 0,
            next: n,
            last: n,
            ..source
        },
    );
    let refs = objects.header(source.buffer).refs;
    objects.set_refs(source.buffer, refs + 1);
    n
}

/// The bytes after the first `n`.
#[inline(always)]
pub(crate) fn beyond(bytes: &[u8], n: usize) -> &[u8]
    ensures { result.now ≡ drop n bytes.now }
{
    if n < bytes.len() {
        &bytes[n..]
    } else {
        &bytes[bytes.len()..]
    }
}

/// Takes an mbuf of a pool and fills its buffer with the first bytes, at most `full` of them.
#[inline(always)]
pub(crate) fn fill_segment(objects: &mut Objects, pool: u16, full: u16, bytes: &[u8]) -> MbufNumber
    requires are { ArePools objects.old }
    requires there { pool < length objects.old }
    requires some { 1 ≤ count_in objects.old pool }
    requires room { HEADROOM + full ≤ room_at (specs_of objects.old) pool }
    ensures pool { result.pool ≡ pool }
    ensures filled { FilledBy objects.old result (take full bytes.now) objects.new }
{
    let count = bytes.len().min(usize::from(full));
    let chunk = &bytes[..count];
    let n = take_one(objects, pool);
    let header = fresh_header(n, HEADROOM, chunk.len() as u16);
    objects.fill(pool, n, header, u32::from(HEADROOM), chunk);
    n
}
