//! `Region`: allocates memory, lends blocks of it and takes them back, and frees it.
ghost use Rattle.std.specs.Prelude.{◌≡◌, ℕ, ◌+◌, ◌<◌, ◌≤◌, true, [], length, replicate, IfOk};
ghost use Rattle.dp_region.specs.Spans.{Span, listed, IsUnlent, with_span, without_span, Spaced, bytes_in, with_bytes};
ghost use Rattle.dp_region.specs.Ownership.{Home, ptr_at};
ghost use Rattle.dp_region.specs.Region.{IsRegionSize, IsFree, number_at, with_number, span_of};

use crate::block::Block;
use crate::raw::{Cells, Run, Shell, Ticket, attach, detach};
use byteorder::{ByteOrder, LittleEndian};
use core::mem::replace_with;
use std::alloc::Global;
use std::marker::Model;
use thiserror::Error;

/// The bytes of a cache line, as DPDK's `RTE_CACHE_LINE_SIZE`. The size of a region is a multiple of it.
pub const CACHE_LINE: u32 = 64;

/// The size of the smallest region, in bytes.
pub const MIN_REGION: u32 = 4096;

/// The size of the largest region, in bytes.
pub const MAX_REGION: u32 = 1_073_741_824;

/// The allocator refused the memory for a region.
#[derive(Clone, Copy, Debug, PartialEq, Eq, Error)]
#[error("out of memory")]
pub struct Memory;

/// One region of raw memory. `close` ends it.
pub struct Region {
    ptr: *mut u8,
    size: u32,
    cells: Cells,
    shell: Shell,
}

impl Model for Region {
    ghost use Rattle.std.specs.Prelude.{◌≡◌, ◌≤◌, length};
    ghost use Rattle.dp_region.specs.Ownership.{ptr_at};
    ghost use Rattle.dp_region.specs.Region.{RegionView, region_code, IsRegionSize};

    ghost Value = { RegionView };

    ghost coded = { region_code };

    ghost view = { λ r. record { home = r.cells.home; bytes = r.cells.bytes; lent = r.cells.lent } };

    ghost invariant = { λ r. (r.ptr ≡ ptr_at r.cells.home 0) × (r.shell.ptr ≡ r.ptr) × (r.shell.len ≡ r.size) × (length r.cells.bytes ≡ r.size)
        × IsRegionSize r.size };
}

impl Region {
    /// Allocates a region of `size` bytes, all 0. The size must be a multiple of `CACHE_LINE`, from `MIN_REGION` to `MAX_REGION`. Returns
    /// `Memory` if the allocator refuses.
    pub fn new(alloc: Global, size: u32) -> Result<Region, Memory>
        requires { IsRegionSize size }
        ensures { IfOk result (λ r. (r.bytes ≡ replicate size 0) × (r.lent ≡ [])) }
    {
        let Ok(mut vec) = Vec::from_elem(alloc, 0u8, size as usize) else {
            return Err(Memory);
        };
        let ptr = vec.as_mut_ptr();
        let (run, shell) = detach(vec);
        Ok(Region {
            ptr,
            size,
            cells: Cells::new(run),
            shell,
        })
    }

    /// The number of bytes, lent ones included.
    pub fn size(&self) -> u32
        ensures value { result ≡ length self.now.bytes }
        ensures range { IsRegionSize result }
    {
        self.size
    }

    /// Lends the `len` bytes at `offset`, at least one, none of them lent yet. The block has the bytes that were there.
    pub fn lend(&mut self, offset: u32, len: u32) -> Block
        requires some { 0 < len }
        requires unlent { IsFree self.old offset len }
        ensures block { result ≡ record { home = self.old.home; offset = offset; bytes = bytes_in self.old.bytes offset len } }
        ensures long { length result.bytes ≡ len }
        ensures lent { self.new ≡ record self.old { lent = with_span (offset, len) self.old.lent } }
        ensures apart { Spaced 0 (length self.new.bytes) self.new.lent }
    {
        let (run, ticket) = replace_with(&mut self.cells, (offset as usize, len as usize), take);
        let ptr = unsafe { self.ptr.byte_add(offset as usize) };
        Block::over(ptr, offset, len, run, ticket)
    }

    /// Takes a block of this region back. Its bytes stay as the holder left them.
    pub fn reclaim(&mut self, block: Block)
        requires { block.home ≡ self.old.home }
        ensures was_lent { listed (span_of block) self.old.lent ≡ true }
        ensures back { self.new ≡ record {
          home = self.old.home;
          bytes = with_bytes self.old.bytes block.offset block.bytes;
          lent = without_span (span_of block) self.old.lent;
        } }
        ensures size { length self.new.bytes ≡ length self.old.bytes }
    {
        replace_with(&mut self.cells, block.into_parts(), give);
    }

    /// Frees the memory. Nothing may be lent.
    pub fn close(self)
        requires { self.lent ≡ [] }
    {
        let Region {
            ptr: _,
            size: _,
            cells,
            shell,
        } = self;
        drop(attach(shell, cells.into_run()));
    }

    fn bytes(&self, offset: u32, len: u32) -> &[u8]
        requires { IsFree self.now offset len }
        ensures { result.now ≡ bytes_in self.now.bytes offset len }
    {
        let ptr = unsafe { self.ptr.byte_add(offset as usize) };
        self.cells.view(ptr, offset as usize, len as usize)
    }

    /// Reads the 4-byte number at `offset`. None of its bytes may be lent.
    pub fn load_u32(&self, offset: u32) -> u32
        requires { IsFree self.now offset 4 }
        ensures { result ≡ number_at self.now.bytes offset 4 }
    {
        LittleEndian::read_u32(self.bytes(offset, 4))
    }

    /// Reads the 8-byte number at `offset`. None of its bytes may be lent.
    pub fn load_u64(&self, offset: u32) -> u64
        requires { IsFree self.now offset 8 }
        ensures { result ≡ number_at self.now.bytes offset 8 }
    {
        LittleEndian::read_u64(self.bytes(offset, 8))
    }

    /// Writes `value` into the 4 bytes at `offset`, none of them lent.
    pub fn store_u32(&mut self, offset: u32, value: u32)
        requires { IsFree self.old offset 4 }
        ensures stored { self.new ≡ record self.old { bytes = with_number self.old.bytes offset 4 value } }
        ensures size { length self.new.bytes ≡ length self.old.bytes }
    {
        let mut block = self.lend(offset, 4);
        block.store_u32(0, value);
        self.reclaim(block);
    }

    /// Writes `value` into the 8 bytes at `offset`, none of them lent.
    pub fn store_u64(&mut self, offset: u32, value: u64)
        requires { IsFree self.old offset 8 }
        ensures stored { self.new ≡ record self.old { bytes = with_number self.old.bytes offset 8 value } }
        ensures size { length self.new.bytes ≡ length self.old.bytes }
    {
        let mut block = self.lend(offset, 8);
        block.store_u64(0, value);
        self.reclaim(block);
    }
}

// Takes the span (offset, length) out of the cells: its run, and the right to give it back.
fn take(cells: Cells, span: (usize, usize)) -> (Cells, (Run, Ticket))
    requires { (0 < span.1) × (span.0 + span.1 ≤ length cells.bytes) × IsUnlent cells.lent span.0 span.1 }
    ensures cells { (result.0.home ≡ cells.home) × (result.0.bytes ≡ cells.bytes) × (result.0.lent ≡ with_span span cells.lent) }
    ensures run { (result.1.0.start ≡ ptr_at cells.home span.0) × (result.1.0.bytes ≡ bytes_in cells.bytes span.0 span.1) }
    ensures ticket { (result.1.1.home ≡ cells.home) × (result.1.1.offset ≡ span.0) × (result.1.1.len ≡ span.1) }
{
    let (offset, len) = span;
    let (cells, run, ticket) = cells.take(offset, len);
    (cells, (run, ticket))
}

// Puts a run back into the cells. The ticket names its span.
fn give(cells: Cells, back: (Run, Ticket)) -> (Cells, ())
    requires { (back.1.home ≡ cells.home) × (back.0.start ≡ ptr_at cells.home back.1.offset) × (length back.0.bytes ≡ back.1.len) }
    ensures { (listed (back.1.offset, back.1.len) cells.lent ≡ true) × (result.0.home ≡ cells.home)
        × (result.0.bytes ≡ with_bytes cells.bytes back.1.offset back.0.bytes) × (result.0.lent ≡ without_span (back.1.offset, back.1.len) cells.lent) }
{
    let (run, ticket) = back;
    (cells.give(run, ticket), ())
}
