//! `Zone`: a named block of a heap that its holder reads and writes.

ghost use Rattle.std.specs.Prelude.{◌≡◌, ℕ, ◌+◌, ◌<◌, ◌≤◌, length, replicate};
ghost use Rattle.std.specs.Borrow.{Lends, Array, sem, u8 as byte};
ghost use Rattle.dp_region.specs.Spans.{bytes_in, with_bytes};
ghost use Rattle.dp_region.specs.Region.{number_at, with_number};
ghost use Rattle.dp_zone.specs.Zones.{with_content, with_part};
ghost use Rattle.dp_zone.specs.contracts.zone.Zone.{the_row};

use crate::name::ZoneName;
use dp_region::Block;
use std::marker::Model;

/// A named block of a heap. `Zones::give_back` frees it.
pub struct Zone {
    name: ZoneName,
    block: Block,
}

impl Model for Zone {
    ghost use Rattle.dp_zone.specs.Zones.{ZoneView, zone_code};

    ghost Value = { ZoneView };

    ghost coded = { zone_code };

    ghost view = { λ z. record { name = z.name; home = z.block.home; offset = z.block.offset; bytes = z.block.bytes } };
}

impl Zone {
    // Makes a zone of a name and a block.
    pub(crate) fn over(name: ZoneName, block: Block) -> Zone
        ensures { result ≡ record { name = name; home = block.home; offset = block.offset; bytes = block.bytes } }
    {
        Zone { name, block }
    }

    // Splits the zone into its name and its block.
    pub(crate) fn into_parts(self) -> (ZoneName, Block)
        ensures { (result.0 ≡ self.name) × (result.1 ≡ record { home = self.home; offset = self.offset; bytes = self.bytes }) }
    {
        let Zone { name, block } = self;
        (name, block)
    }

    /// Its name.
    pub fn name(&self) -> &ZoneName
        ensures { result.now ≡ self.now.name }
    {
        &self.name
    }

    /// The offset of its first byte, in bytes from the region's start.
    pub fn offset(&self) -> u32
        ensures { result ≡ self.now.offset }
    {
        self.block.offset()
    }

    /// The number of bytes.
    pub fn len(&self) -> u32
        ensures value { result ≡ length self.now.bytes }
        ensures some { 0 < result }
    {
        self.block.len()
    }

    /// Its bytes, for reading.
    pub fn bytes(&self) -> &[u8]
        ensures { result.now ≡ self.now.bytes }
    {
        self.block.bytes()
    }

    /// Its bytes, for writing.
    pub fn bytes_mut(&mut self) -> &mut [u8]
        ensures* writes_back { sem 𝓛 (Lends the_row (Array byte 0) self.entry result (with_content self.old)) }
        ensures value { result.now ≡ self.old.bytes }
    {
        self.block.bytes_mut()
    }

    /// The `len` bytes at offset `at`, for writing. They must lie in the zone.
    pub fn part_mut(&mut self, at: u32, len: u32) -> &mut [u8]
        requires { at + len ≤ length self.old.bytes }
        ensures* writes_back { sem 𝓛 (Lends the_row (Array byte 0) self.entry result (with_part at self.old)) }
        ensures value { result.now ≡ bytes_in self.old.bytes at len }
        ensures size { length result.now ≡ len }
    {
        self.block.part_mut(at, len)
    }

    /// Reads the little-endian 2-byte number at `at`. Its bytes must lie in the zone.
    pub fn load_u16(&self, at: u32) -> u16
        requires { at + 2 ≤ length self.now.bytes }
        ensures { result ≡ number_at self.now.bytes at 2 }
    {
        self.block.load_u16(at)
    }

    /// Reads the little-endian 4-byte number at `at`. Its bytes must lie in the zone.
    pub fn load_u32(&self, at: u32) -> u32
        requires { at + 4 ≤ length self.now.bytes }
        ensures { result ≡ number_at self.now.bytes at 4 }
    {
        self.block.load_u32(at)
    }

    /// Writes `v` into the 2 bytes at `at`, little-endian. They must lie in the zone.
    pub fn store_u16(&mut self, at: u32, v: u16)
        requires { at + 2 ≤ length self.old.bytes }
        ensures { self.new ≡ record self.old { bytes = with_number self.old.bytes at 2 v } }
    {
        self.block.store_u16(at, v);
    }

    /// Writes `v` into the 4 bytes at `at`, little-endian. They must lie in the zone.
    pub fn store_u32(&mut self, at: u32, v: u32)
        requires { at + 4 ≤ length self.old.bytes }
        ensures { self.new ≡ record self.old { bytes = with_number self.old.bytes at 4 v } }
    {
        self.block.store_u32(at, v);
    }

    /// Copies `len` bytes from `from` to `to`. Both ranges must lie in the zone, and may overlap.
    pub fn copy_within(&mut self, from: u32, len: u32, to: u32)
        requires { (from + len ≤ length self.old.bytes) × (to + len ≤ length self.old.bytes) }
        ensures { self.new ≡ record self.old { bytes = with_bytes self.old.bytes to (bytes_in self.old.bytes from len) } }
    {
        self.block.copy_within(from, len, to);
    }

    /// Writes `bytes` at offset `at`. They must fit into the zone.
    pub fn write(&mut self, at: u32, bytes: &[u8])
        requires { at + length bytes.now ≤ length self.old.bytes }
        ensures { self.new ≡ record self.old { bytes = with_bytes self.old.bytes at bytes.now } }
    {
        let at = at as usize;
        self.block.bytes_mut()[at..at + bytes.len()].copy_from_slice(bytes);
    }

    /// Writes `len` zeros at offset `at`. They must fit into the zone.
    pub fn clear(&mut self, at: u32, len: u32)
        requires { at + len ≤ length self.old.bytes }
        ensures { self.new ≡ record self.old { bytes = with_bytes self.old.bytes at (replicate len 0) } }
    {
        let (at, len) = (at as usize, len as usize);
        self.block.bytes_mut()[at..at + len].fill(0);
    }
}
