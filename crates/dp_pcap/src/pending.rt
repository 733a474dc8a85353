//! Bytes that are still to be written.
ghost use Rattle.std.specs.Prelude.{◌≡◌, ◌+◌, ◌≤◌, [], ◌++◌, length, take, IfOk};

use crate::format::HEAD_SIZE;
use std::alloc::{AllocError, Global};

/// A buffer of bytes that are still to be written: a fixed number of places, of which the first `len` hold them, and `room` are left.
#[derive(Drop)]
pub(crate) struct Pending {
    bytes: Vec<u8>,
    len: usize,
    room: usize,
    ghost fits: { len + room ≡ length bytes.items },
}

impl Pending {
    ghost use Rattle.dp_pcap.specs.Buffers.{pending, places};

    // An empty buffer with this many places.
    pub(crate) fn with_capacity(alloc: Global, capacity: usize) -> Result<Pending, AllocError>
        ensures empty { IfOk result (λ p. pending p ≡ []) }
        ensures capacity { IfOk result (λ p. places p ≡ capacity) }
    {
        let mut bytes = Vec::new(alloc);
        bytes.resize(capacity, 0u8)?;
        Ok(Pending {
            bytes,
            len: 0,
            room: capacity,
        })
    }

    // How many places it has.
    #[inline(always)]
    pub(crate) fn capacity(&self) -> usize
        ensures { result ≡ places self.now }
    {
        self.bytes.len()
    }

    // How many bytes it has room for.
    #[inline(always)]
    pub(crate) fn room(&self) -> usize
        ensures value { result + length (pending self.now) ≡ places self.now }
    {
        self.room
    }

    // The bytes that it holds.
    #[inline(always)]
    pub(crate) fn bytes(&self) -> &[u8]
        ensures { result.now ≡ pending self.now }
    {
        &self.bytes[..self.len]
    }

    // Appends bytes for which it has room.
    #[inline(always)]
    pub(crate) fn append(&mut self, bytes: &[u8])
        requires { length (pending self.old) + length bytes.now ≤ places self.old }
        ensures bytes { pending self.new ≡ pending self.old ++ bytes.now }
        ensures places { places self.new ≡ places self.old }
    {
        self.bytes[self.len..self.len + bytes.len()].copy_from_slice(bytes);
        self.len += bytes.len();
        self.room -= bytes.len();
    }

    // Appends two pieces for which it has room. Their places are one slice, so that the buffer is looked up once.
    #[inline(always)]
    pub(crate) fn append_both(&mut self, first: &[u8], second: &[u8])
        requires { length (pending self.old) + (length first.now + length second.now) ≤ places self.old }
        ensures bytes { pending self.new ≡ pending self.old ++ (first.now ++ second.now) }
        ensures places { places self.new ≡ places self.old }
    {
        let size = first.len() + second.len();
        let at = self.len;
        self.len += size;
        self.room -= size;
        write_both(&mut self.bytes[at..at + size], first, second);
    }

    // Removes bytes from its front.
    pub(crate) fn remove_front(&mut self, count: usize)
        requires within { count ≤ length (pending self.old) }
        ensures bytes { pending self.old ≡ take count (pending self.old) ++ pending self.new }
        ensures places { places self.new ≡ places self.old }
    {
        self.bytes.as_mut_slice().copy_within(count..self.len, 0);
        self.len -= count;
        self.room += count;
    }
}

// Writes two pieces that are as long as `to` together.
#[inline(always)]
fn write_both(to: &mut [u8], first: &[u8], second: &[u8])
    requires { length to.old ≡ length first.now + length second.now }
    ensures { to.new ≡ first.now ++ second.now }
{
    copy_piece(&mut to[..first.len()], first);
    to[first.len()..].copy_from_slice(second);
}

// Copies a piece. A record's head is copied as an array, so that the compiler makes no test whether it overlaps its place.
#[inline(always)]
fn copy_piece(to: &mut [u8], piece: &[u8])
    requires { length to.old ≡ length piece.now }
    ensures { to.new ≡ piece.now }
{
    if let Ok(head) = <&[u8; HEAD_SIZE]>::try_from(piece) {
        if let Some(place) = to.as_mut_array::<HEAD_SIZE>() {
            *place = *head;
            return;
        }
    }
    to.copy_from_slice(piece);
}
