//! What loads and stores return, on bytes and numbers worked out by hand.
ghost use Rattle.std.specs.Prelude.{◌≡◌, ◌≤◌, [], length};
ghost use Rattle.dp_region.specs.Region.{IsRegionSize, min_region};

use super::cases::must;
use dp_region::{Block, MAX_REGION, Memory, Region};
use std::alloc::Global;
use std::process::Abort;

fn write_low(low: &mut Block)
    requires { length low.old.bytes ≡ 3 }
    ensures { (low.new.home ≡ low.old.home) × (low.new.offset ≡ low.old.offset) × (length low.new.bytes ≡ 3) }
{
    low.bytes_mut()[0] = 9;
    low.part_mut(1, 2)[1] = 5;
}

fn write_high(high: &mut Block)
    requires { length high.old.bytes ≡ 64 }
    ensures { (high.new.home ≡ high.old.home) × (high.new.offset ≡ high.old.offset) × (length high.new.bytes ≡ 64) }
{
    high.store_u16(62, 0x0807);
    high.copy_within(62, 2, 0);
    high.store_u32(4, 0x0605_0403);
}

// Lends two blocks at once, writes them, and takes them back; returns what they began with.
fn visit(region: &mut Region) -> (u8, u8, u32, u32, u32)
    requires { (region.old.lent ≡ []) × (min_region ≤ length region.old.bytes) }
    ensures { (region.new.lent ≡ []) × (min_region ≤ length region.new.bytes) }
{
    let mut low = region.lend(61, 3);
    let mut high = region.lend(64, 64);
    let first = (
        low.bytes()[0],
        low.bytes()[2],
        high.load_u32(0),
        high.offset(),
        high.len(),
    );
    write_low(&mut low);
    write_high(&mut high);
    region.reclaim(high);
    region.reclaim(low);
    first
}

fn numbers(region: &Region) -> (u32, u64, u32)
    requires { (region.now.lent ≡ []) × (min_region ≤ length region.now.bytes) }
{
    (
        region.load_u32(60),
        region.load_u64(64),
        region.load_u32(126),
    )
}

// The upper half of a number of 8 bytes.
fn overlaid(region: &mut Region) -> u32
    requires { (region.old.lent ≡ []) × (min_region ≤ length region.old.bytes) }
    ensures { region.new.lent ≡ [] }
{
    region.store_u64(1, 0x0102_0304_0506_0708);
    region.load_u32(5)
}

// What is stored and lent, in turn.
fn is_kept(region: &mut Region) -> bool
    requires { (region.old.lent ≡ []) × (min_region ≤ length region.old.bytes) }
    ensures { region.new.lent ≡ [] }
{
    region.store_u32(60, 0x0403_0201);
    if visit(region) != (2, 4, 0, 64, 64) {
        return false;
    }
    if numbers(region) != (0x0503_0901, 0x0605_0403_0000_0807, 0x0807) {
        return false;
    }
    overlaid(region) == 0x0102_0304
}

#[test]
fn bytes_stay_as_the_holder_left_them(rt: HostRuntime) {
    let mut region = Region::new(rt.alloc(), 4096).expect(&rt, "memory");
    let kept = is_kept(&mut region);
    let size = region.size();
    region.close();
    must(&rt, kept && size == 4096, "the bytes");
}

// With the first allocation refused, `new` returns `Memory`.
#[test]
fn want_of_memory_is_reported(rt: HostRuntime) {
    match Region::new(rt.alloc(), 4096) {
        Ok(region) => region.close(),
        Err(error) => must(&rt, error == Memory, "want of memory"),
    }
}

// Writes a number at the end of a new region, and one in a part of it that is lent and taken back; returns both as they are read. The region is
// closed.
fn used(rt: &impl Abort, alloc: Global, size: u32, number: u32) -> (u32, u32)
    requires { IsRegionSize size }
{
    let mut region = Region::new(alloc, size).expect(rt, "memory");
    region.store_u32(size - 4, number);
    let mut block = region.lend(64, 128);
    block.store_u32(60, number);
    let inside = block.load_u32(60);
    region.reclaim(block);
    let outside = region.load_u32(size - 4);
    region.close();
    (inside, outside)
}

// A region of the maximum size can be allocated if there is memory.
#[test]
fn the_largest_region(rt: HostRuntime) {
    let number = 0x0102_0304;
    let is_kept = used(&rt, rt.alloc(), MAX_REGION, number) == (number, number);
    must(&rt, is_kept, "both numbers");
}

// All memory is freed, so any number of regions can follow one another.
#[test]
fn ten_thousand_regions_follow_one_another(rt: HostRuntime) {
    for k in 0..2500u32 {
        for size in [4096u32, 8192, 12_288, 16_384] {
            let number = k * 1000 + size % 1000;
            let is_kept = used(&rt, rt.alloc(), size, number) == (number, number);
            must(&rt, is_kept, "both numbers");
        }
    }
}
