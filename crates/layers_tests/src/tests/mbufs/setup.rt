//! Makes mbufs over three pools, and takes them apart.

ghost use Rattle.std.specs.Prelude.{◌≡◌, ◌+◌, ◌*◌, ◌<◌, ◌≤◌, length};
ghost use Rattle.std.specs.List.{AllByRecursion};
ghost use Rattle.layers_tests.specs.Rows.{IsOver, AreIn, SlotIn, IsReadyPool};

use super::cases::must;
use super::memory::{end, new_heap};
use dp_heap::Heap;
use dp_mbuf::{HEADER_SIZE, HEADROOM, MAX_MBUFS, MAX_ROOM, Mbufs};
use dp_pool::Pool;
use dp_zone::Zones;
use std::alloc::Global;
use std::process::Abort;

/// Mbufs over three pools, with the heap and the table of zones under them.
pub(crate) struct Setup {
    pub heap: Heap,
    pub zones: Zones,
    pub mbufs: Mbufs,
}

/// The number of a pool's objects, the size of their data rooms, and that of the cache.
#[derive(Clone, Copy)]
pub(crate) struct Sizes {
    pub count: u32,
    pub room: u32,
    pub cache: u32,
}

/// The sizes of a pool with these numbers.
pub(crate) fn sized(count: u32, room: u32, cache: u32) -> Sizes
    ensures { result ≡ record { count = count; room = room; cache = cache } }
{
    Sizes { count, room, cache }
}

// Makes a pool of mbufs.
fn make(rt: &impl Abort, heap: &mut Heap, zones: &mut Zones, name: &str, sizes: Sizes) -> Pool
    requires { sizes.room ≤ MAX_ROOM }
    ensures pool { IsReadyPool sizes.count sizes.room heap.old.home result }
    ensures home { heap.new.home ≡ heap.old.home }
{
    let made = Pool::make(
        heap,
        zones,
        name,
        sizes.count,
        sizes.room + HEADER_SIZE,
        sizes.cache,
    );
    made.expect(rt, "a pool")
}

/// Mbufs over three pools of these sizes. The third may have any room.
pub(crate) fn open(
    rt: &impl Abort,
    alloc: Global,
    first: Sizes,
    second: Sizes,
    third: Sizes,
) -> Setup
    requires first { (1 ≤ first.count) × (HEADROOM < first.room) × (first.room ≤ MAX_ROOM) }
    requires second { (HEADROOM < second.room) × (second.room ≤ MAX_ROOM) }
    requires third { third.room ≤ MAX_ROOM }
    requires few { first.count + second.count + third.count ≤ MAX_MBUFS }
    ensures over { IsOver result.mbufs.store }
    ensures home { AreIn result.heap.home result.mbufs.zones }
{
    let mut heap = new_heap(rt, alloc, 1_048_576);
    let mut zones = Zones::new();
    let one = make(rt, &mut heap, &mut zones, "first", first);
    let two = make(rt, &mut heap, &mut zones, "second", second);
    let three = make(rt, &mut heap, &mut zones, "third", third);
    let pools = [
        Some(one),
        Some(two),
        Some(three),
        None,
        None,
        None,
        None,
        None,
    ];
    let mbufs = Mbufs::over(pools);
    Setup { heap, zones, mbufs }
}

// Gives the zones of a slot's pool back.
fn unmake(slot: Option<Pool>, heap: &mut Heap, zones: &mut Zones)
    requires { SlotIn heap.old.home slot }
    ensures { heap.new.home ≡ heap.old.home }
{
    if let Some(pool) = slot {
        pool.unmake(heap, zones);
    }
}

fn unmake_four(slots: [Option<Pool>; 4], heap: &mut Heap, zones: &mut Zones)
    requires { AllByRecursion (SlotIn heap.old.home) slots }
    ensures { heap.new.home ≡ heap.old.home }
{
    let [a, b, c, d] = slots;
    unmake(a, heap, zones);
    unmake(b, heap, zones);
    unmake(c, heap, zones);
    unmake(d, heap, zones);
}

fn unmake_all(slots: [Option<Pool>; 8], heap: &mut Heap, zones: &mut Zones)
    requires { AllByRecursion (SlotIn heap.old.home) slots }
{
    let [a, b, c, d, e, f, g, h] = slots;
    unmake_four([a, b, c, d], heap, zones);
    unmake_four([e, f, g, h], heap, zones);
}

/// Takes everything apart. There is no packet left, each pool is whole, and nothing of the heap is out.
pub(crate) fn close(rt: &impl Abort, setup: Setup)
    requires { AreIn setup.heap.home setup.mbufs.zones }
{
    let Setup { heap, zones, mbufs } = setup;
    let (mut heap, mut zones) = (heap, zones);
    must(rt, mbufs.is_empty(), "no packet is left");
    unmake_all(mbufs.into_pools(), &mut heap, &mut zones);
    end(rt, heap);
}
