//! Reads and writes the numbers in the slots of a zone: one, or a run of consecutive slots.
ghost use Rattle.std.specs.Prelude.{◌≡◌, ℕ, ◌+◌, ◌*◌, ◌<◌, ◌≤◌, length, slice_index};
ghost use Rattle.dp_region.specs.Region.{number_at, with_number};
ghost use Rattle.dp_ring.specs.Rings.{IsRun, Stores};

use byteorder::{ByteOrder, LittleEndian};
use dp_zone::Zone;

// Writes a number into the 4 bytes at an offset.
#[inline(always)]
fn write_number(bytes: &mut [u8], at: usize, number: u32)
    requires { at + 4 ≤ length bytes.old }
    ensures { bytes.new ≡ with_number bytes.old at 4 number }
{
    LittleEndian::write_u32(&mut bytes[at..at + 4], number);
}

// Writes numbers over bytes, four for each.
fn write_numbers(bytes: &mut [u8], numbers: &[u32])
    requires { length bytes.old ≡ 4 * length numbers.now }
    ensures run { IsRun bytes.new 0 numbers.now }
    ensures long { length bytes.new ≡ 4 * length numbers.now }
{
    for (k, number) in numbers.iter().enumerate() {
        write_number(bytes, 4 * k, *number);
    }
}

/// Writes `number` into a slot.
#[inline(always)]
pub(crate) fn store_one(zone: &mut Zone, slot: u32, number: u32)
    requires { 4 * slot + 4 ≤ length zone.old.bytes }
    ensures { zone.new ≡ record zone.old { bytes = with_number zone.old.bytes (4 * slot) 4 number } }
{
    write_number(zone.bytes_mut(), 4 * slot as usize, number);
}

/// Reads the number in a slot.
#[inline(always)]
pub(crate) fn load_one(zone: &Zone, slot: u32) -> u32
    requires { 4 * slot + 4 ≤ length zone.now.bytes }
    ensures { result ≡ number_at zone.now.bytes (4 * slot) 4 }
{
    let at = 4 * slot as usize;
    LittleEndian::read_u32(&zone.bytes()[at..at + 4])
}

/// Writes numbers into consecutive slots, starting at `slot`.
pub(crate) fn store_run(zone: &mut Zone, slot: u32, numbers: &[u32])
    requires { 4 * (slot + length numbers.now) ≤ length zone.old.bytes }
    ensures bytes { Stores slot numbers.now zone.old.bytes zone.new.bytes }
    ensures others { (zone.new.name ≡ zone.old.name) × (zone.new.home ≡ zone.old.home) × (zone.new.offset ≡ zone.old.offset) }
{
    let at = 4 * slot as usize;
    write_numbers(&mut zone.bytes_mut()[at..at + 4 * numbers.len()], numbers);
}

/// Reads numbers from consecutive slots, starting at `slot`.
pub(crate) fn load_run(zone: &Zone, slot: u32, numbers: &mut [u32])
    requires { 4 * (slot + length numbers.old) ≤ length zone.now.bytes }
    ensures { IsRun zone.now.bytes slot numbers.new }
{
    let at = 4 * slot as usize;
    LittleEndian::read_u32_into(&zone.bytes()[at..at + 4 * numbers.len()], numbers);
}
