//! `Block`: bytes of a region that their holder reads and writes.
ghost use Rattle.std.specs.Prelude.{◌≡◌, ℕ, ◌+◌, ◌^◌, ◌<◌, ◌≤◌, length};
ghost use Rattle.std.specs.Borrow.{Lends, Array, sem, u8 as byte};
ghost use Rattle.dp_region.specs.Spans.{bytes_in, with_bytes};
ghost use Rattle.dp_region.specs.Ownership.{ptr_at};
ghost use Rattle.dp_region.specs.Region.{number_at, with_number, with_content, with_part};
ghost use Rattle.dp_region.specs.contracts.block.Block.{the_row};

use crate::raw::{Run, Ticket, house, vacate};
use byteorder::{ByteOrder, LittleEndian};
use std::marker::Model;
use std_alloc::vec::Lodged;

/// Bytes that a region has lent, at least one. `Region::reclaim` takes them back. Offsets in a block count from its start.
pub struct Block {
    offset: u32,
    len: u32,
    bytes: Vec<u8, Lodged>,
    ticket: Ticket,
}

impl Model for Block {
    ghost use Rattle.std.specs.Prelude.{◌≡◌, ◌<◌, length};
    ghost use Rattle.dp_region.specs.Ownership.{ptr_at};
    ghost use Rattle.dp_region.specs.Region.{BlockView, block_code};

    ghost Value = { BlockView };

    ghost coded = { block_code };

    ghost view = { λ b. record { home = b.ticket.home; offset = b.offset; bytes = b.bytes.items } };

    ghost invariant = { λ b. (0 < b.len) × (length b.bytes.items ≡ b.len) × (b.bytes.ptr ≡ ptr_at b.ticket.home b.offset) × (b.ticket.offset ≡ b.offset)
        × (b.ticket.len ≡ b.len) };
}

impl Block {
    // Makes a block of a run that lies at `offset` of the ticket's region.
    pub(crate) fn over(ptr: *mut u8, offset: u32, len: u32, run: Run, ticket: Ticket) -> Block
        requires run { (run.start ≡ ptr) × (length run.bytes ≡ len) × (0 < len) }
        requires ticket { (ticket.offset ≡ offset) × (ticket.len ≡ len) × (ptr ≡ ptr_at ticket.home offset) }
        ensures { result ≡ record { home = ticket.home; offset = offset; bytes = run.bytes } }
    {
        Block {
            offset,
            len,
            bytes: house(run, ptr, len as usize),
            ticket,
        }
    }

    // Splits the block into its run and the right to give it back.
    pub(crate) fn into_parts(self) -> (Run, Ticket)
        ensures run { (result.0.start ≡ ptr_at self.home self.offset) × (result.0.bytes ≡ self.bytes) }
        ensures ticket { (result.1.home ≡ self.home) × (result.1.offset ≡ self.offset) × (result.1.len ≡ length self.bytes) }
    {
        let Block {
            offset: _,
            len: _,
            bytes,
            ticket,
        } = self;
        (vacate(bytes), ticket)
    }

    /// The offset of the block's first byte in its region.
    pub fn offset(&self) -> u32
        ensures { result ≡ self.now.offset }
    {
        self.offset
    }

    /// The number of bytes.
    pub fn len(&self) -> u32
        ensures value { result ≡ length self.now.bytes }
        ensures some { 0 < result }
    {
        self.len
    }

    /// The bytes, for reading.
    pub fn bytes(&self) -> &[u8]
        ensures { result.now ≡ self.now.bytes }
    {
        self.bytes.as_slice()
    }

    /// The bytes, for writing.
    pub fn bytes_mut(&mut self) -> &mut [u8]
        ensures* writes_back { sem 𝓛 (Lends the_row (Array byte 0) self.entry result (with_content self.old)) }
        ensures value { result.now ≡ self.old.bytes }
    {
        self.bytes.as_mut_slice()
    }

    /// The `len` bytes at offset `at`, for writing. They must lie in the block.
    pub fn part_mut(&mut self, at: u32, len: u32) -> &mut [u8]
        requires { at + len ≤ length self.old.bytes }
        ensures* writes_back { sem 𝓛 (Lends the_row (Array byte 0) self.entry result (with_part at self.old)) }
        ensures value { result.now ≡ bytes_in self.old.bytes at len }
        ensures size { length result.now ≡ len }
    {
        let (at, len) = (at as usize, len as usize);
        self.bytes.slice_mut(at..at + len)
    }

    /// Reads the 2-byte number at `at`. Its bytes must lie in the block.
    pub fn load_u16(&self, at: u32) -> u16
        requires { at + 2 ≤ length self.now.bytes }
        ensures { result ≡ number_at self.now.bytes at 2 }
    {
        let at = at as usize;
        LittleEndian::read_u16(&self.bytes.as_slice()[at..at + 2])
    }

    /// Reads the 4-byte number at `at`. Its bytes must lie in the block.
    pub fn load_u32(&self, at: u32) -> u32
        requires { at + 4 ≤ length self.now.bytes }
        ensures { result ≡ number_at self.now.bytes at 4 }
    {
        let at = at as usize;
        LittleEndian::read_u32(&self.bytes.as_slice()[at..at + 4])
    }

    /// Writes `value` into the 2 bytes at `at`, which must lie in the block.
    pub fn store_u16(&mut self, at: u32, value: u16)
        requires { at + 2 ≤ length self.old.bytes }
        ensures stored { self.new ≡ record self.old { bytes = with_number self.old.bytes at 2 value } }
        ensures long { length self.new.bytes ≡ length self.old.bytes }
    {
        let at = at as usize;
        LittleEndian::write_u16(&mut self.bytes.as_mut_slice()[at..at + 2], value);
    }

    /// Writes `value` into the 4 bytes at `at`, which must lie in the block.
    pub fn store_u32(&mut self, at: u32, value: u32)
        requires { at + 4 ≤ length self.old.bytes }
        ensures stored { self.new ≡ record self.old { bytes = with_number self.old.bytes at 4 value } }
        ensures long { length self.new.bytes ≡ length self.old.bytes }
    {
        let at = at as usize;
        LittleEndian::write_u32(&mut self.bytes.as_mut_slice()[at..at + 4], value);
    }

    // Writes `value` into the 8 bytes at `at`, which must lie in the block.
    pub(crate) fn store_u64(&mut self, at: u32, value: u64)
        requires { at + 8 ≤ length self.old.bytes }
        ensures stored { self.new ≡ record self.old { bytes = with_number self.old.bytes at 8 value } }
        ensures long { length self.new.bytes ≡ length self.old.bytes }
    {
        let at = at as usize;
        LittleEndian::write_u64(&mut self.bytes.as_mut_slice()[at..at + 8], value);
    }

    /// Copies the `len` bytes at `from` to `to`. Both ranges must lie in the block, and may overlap.
    pub fn copy_within(&mut self, from: u32, len: u32, to: u32)
        requires { (from + len ≤ length self.old.bytes) × (to + len ≤ length self.old.bytes) }
        ensures copied { self.new ≡ record self.old { bytes = with_bytes self.old.bytes to (bytes_in self.old.bytes from len) } }
        ensures long { length self.new.bytes ≡ length self.old.bytes }
    {
        let (from, len, to) = (from as usize, len as usize, to as usize);
        let bytes = self.bytes.as_mut_slice();
        bytes.copy_within(from..from + len, to);
    }
}
