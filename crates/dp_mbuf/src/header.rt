//! The header in the first bytes of each object.

ghost use Rattle.std.specs.Prelude.{◌≡◌, ◌<◌, ◌≤◌, ◌+◌, ◌/◌, ◌%◌, [], length, replicate};
ghost use Rattle.dp_model.specs.Buffers.{overwritten};
ghost use Rattle.dp_mbuf.specs.Headers.{header_of, word, then_word, with_both, with_segs_and_last, header_bytes};

use crate::limits::{BUFFER, FIELDS_SIZE, HEADER_SIZE, LAST, NEXT, OFFSET, REFS, SEGS, WORDS};
use crate::mbuf_number::MbufNumber;
use byteorder::{ByteOrder, LittleEndian};

/// The contents of an object's header. As an mbuf: its part of a buffer, and the next mbuf; as the first of a packet also the number of segments (0
/// in any other) and the last mbuf. As a buffer: how many segments refer to it.
#[derive(Clone, Copy)]
pub(crate) struct Header {
    pub segs: u16,
    pub refs: u32,
    pub offset: u16,
    pub len: u16,
    pub next: MbufNumber,
    pub last: MbufNumber,
    pub buffer: MbufNumber,
}

// Reads the little-endian 2-byte number at `at`.
#[inline(always)]
fn read_word(bytes: &[u8], at: usize) -> u16
    requires { at + 2 ≤ length bytes.now }
    ensures { result ≡ word bytes.now at }
{
    LittleEndian::read_u16(&bytes[at..at + 2])
}

// Reads two little-endian 2-byte numbers, one after the other, as one number of four bytes: the compiler adds one of two bytes to an address
// byte by byte.
#[inline(always)]
fn read_words(bytes: &[u8], at: usize) -> (u16, u16)
    requires { at + 4 ≤ length bytes.now }
    ensures { (result.0 ≡ word bytes.now at) × (result.1 ≡ word bytes.now (at + 2)) }
{
    let both = LittleEndian::read_u32(&bytes[at..at + 4]);
    ((both % WORDS) as u16, (both / WORDS) as u16)
}

/// Reads the header of an object.
#[inline(always)]
pub(crate) fn read_header(object: &[u8]) -> Header
    requires { HEADER_SIZE ≤ length object.now }
    ensures { result ≡ header_of object.now }
{
    let (offset, len) = read_words(object, OFFSET);
    Header {
        segs: read_word(object, SEGS),
        refs: u32::from(read_word(object, REFS)) + u32::from(read_word(object, REFS + 2)) * WORDS,
        offset,
        len,
        next: MbufNumber::new(read_word(object, NEXT + 2), read_word(object, NEXT)),
        last: MbufNumber::new(read_word(object, LAST + 2), read_word(object, LAST)),
        buffer: MbufNumber::new(read_word(object, BUFFER + 2), read_word(object, BUFFER)),
    }
}

#[inline(always)]
fn low(x: u16) -> u8
    ensures { result ≡ x % 256 }
{
    x.to_le_bytes()[0]
}

#[inline(always)]
fn high(x: u16) -> u8
    ensures { result ≡ x / 256 }
{
    x.to_le_bytes()[1]
}

/// The two bytes of a number, little-endian.
#[inline(always)]
pub(crate) fn bytes_of_word(x: u16) -> [u8; 2]
    ensures bytes { result ≡ then_word x [] }
    ensures many { length result ≡ 2 }
{
    [low(x), high(x)]
}

// Writes a 2-byte number, little-endian.
#[inline(always)]
fn write_word(bytes: &mut [u8], at: usize, x: u16)
    requires { at + 2 ≤ length bytes.old }
    ensures { bytes.new ≡ overwritten bytes.old at (then_word x []) }
{
    bytes[at..at + 2].copy_from_slice(&bytes_of_word(x));
}

/// Writes two numbers, one after the other.
#[inline(always)]
pub(crate) fn write_words(bytes: &mut [u8], at: usize, x: u16, y: u16)
    requires { at + 4 ≤ length bytes.old }
    ensures { bytes.new ≡ overwritten bytes.old at (then_word x (then_word y [])) }
{
    write_word(bytes, at, x);
    write_word(bytes, at + 2, y);
}

/// Writes the number of segments and the last mbuf of a packet into its first mbuf's object.
#[inline(always)]
pub(crate) fn write_segs_and_last(object: &mut [u8], segs: u16, last: MbufNumber)
    requires { HEADER_SIZE ≤ length object.old }
    ensures object { object.new ≡ with_segs_and_last object.old segs last }
    ensures small { (last.pool < WORDS) × (last.index < WORDS) }
{
    write_word(object, SEGS, segs);
    write_words(object, LAST, last.index(), last.pool());
}

// Overwrites bytes at offset `at`.
#[inline(always)]
fn write_bytes(object: &mut [u8], at: usize, bytes: &[u8])
    requires { at + length bytes.now ≤ length object.old }
    ensures { object.new ≡ overwritten object.old at bytes.now }
{
    object[at..at + bytes.len()].copy_from_slice(bytes);
}

/// Writes `len` zeros at offset `at`.
#[inline(always)]
pub(crate) fn write_zeros(object: &mut [u8], at: usize, len: usize)
    requires { at + len ≤ length object.old }
    ensures { object.new ≡ overwritten object.old at (replicate len 0) }
{
    object[at..at + len].fill(0);
}

/// Writes the bytes of a header into an object, and then bytes at offset `at`.
#[inline(always)]
pub(crate) fn write_both(object: &mut [u8], header: &[u8], at: usize, bytes: &[u8])
    requires header { length header.now ≤ length object.old }
    requires fits { at + length bytes.now ≤ length object.old }
    ensures { object.new ≡ with_both object.old header.now at bytes.now }
{
    write_bytes(object, 0, header);
    write_bytes(object, at, bytes);
}

/// The four bytes of a count of references, little-endian.
#[inline(always)]
pub(crate) fn bytes_of_refs(refs: u32) -> [u8; 4]
    ensures bytes { result ≡ then_word (refs % WORDS) (then_word (refs / WORDS) []) }
    ensures many { length result ≡ 4 }
{
    refs.to_le_bytes()
}

/// The bytes of a header.
#[inline(always)]
pub(crate) fn bytes_of_header(h: Header) -> [u8; FIELDS_SIZE]
    ensures bytes { result ≡ header_bytes h }
    ensures many { length result ≡ FIELDS_SIZE }
{
    let refs_low = (h.refs % WORDS) as u16;
    let refs_high = (h.refs / WORDS) as u16;
    [
        low(h.segs),
        high(h.segs),
        low(refs_low),
        high(refs_low),
        low(refs_high),
        high(refs_high),
        low(h.offset),
        high(h.offset),
        low(h.len),
        high(h.len),
        low(h.next.index()),
        high(h.next.index()),
        low(h.next.pool()),
        high(h.next.pool()),
        low(h.last.index()),
        high(h.last.index()),
        low(h.last.pool()),
        high(h.last.pool()),
        low(h.buffer.index()),
        high(h.buffer.index()),
        low(h.buffer.pool()),
        high(h.buffer.pool()),
    ]
}
