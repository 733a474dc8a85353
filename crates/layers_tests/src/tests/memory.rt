//! The heap of a test: made, looked at and ended.

ghost use Rattle.std.specs.Prelude.{◌≡◌};
ghost use Rattle.dp_heap.specs.Elements.{count_of, is_busy};
ghost use Rattle.dp_region.specs.Region.{IsRegionSize};

use super::cases::must;
use dp_heap::{Element, Heap, State};
use dp_region::Region;
use std::alloc::Global;
use std::process::Abort;

/// A new heap of this many bytes.
pub(crate) fn new_heap(rt: &impl Abort, alloc: Global, size: u32) -> Heap
    requires { IsRegionSize size }
    ensures { count_of is_busy result.elements ≡ 0 }
{
    Heap::new(Region::new(alloc, size).expect(rt, "memory"))
}

/// Whether the heap is one free element of 4,096 bytes.
pub(crate) fn is_whole(heap: &Heap) -> bool {
    let whole = Element {
        offset: 0,
        size: 4096,
        state: State::Free,
        pad: 0,
    };
    heap.element(0) == Some(whole) && heap.element(1) == None
}

/// Ends a heap of which nothing is out.
pub(crate) fn end(rt: &impl Abort, heap: Heap) {
    let busy = heap.stats().busy_count;
    must(rt, busy == 0, "no element is busy");
    heap.close().close();
}

/// The same, with the list of what was out, which is empty.
pub(crate) fn end_with<T>(rt: &impl Abort, heap: Heap, out: Vec<T>) {
    must(rt, out.is_empty(), "all is given back");
    out.destroy_empty();
    end(rt, heap);
}
