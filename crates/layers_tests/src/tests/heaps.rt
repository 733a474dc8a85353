//! The bytes of blocks, which no script of `dpv mem` shows. Where blocks lie is in tests/program/scripts.py.
ghost use Rattle.std.specs.Prelude.{◌≡◌};

use super::cases::{are_all, must};
use super::memory::{end, is_whole, new_heap};
use dp_heap::Heap;
use std::process::Abort;

// Whether two blocks keep their bytes while those between them are freed.
fn keep_their_bytes(rt: &impl Abort, heap: &mut Heap) -> bool
    ensures { heap.new.home ≡ heap.old.home }
{
    let mut high = heap.malloc(64, 0).expect(rt, "a block");
    let second = heap.malloc(128, 512).expect(rt, "a block");
    let third = heap.malloc(256, 0).expect(rt, "a block");
    let mut low = heap.malloc(256, 0).expect(rt, "a block");
    high.bytes_mut().fill(7);
    low.bytes_mut().fill(9);
    heap.free(third);
    heap.free(second);
    let are_kept = are_all(high.bytes(), 7) && are_all(low.bytes(), 9);
    heap.free(low);
    heap.free(high);
    are_kept
}

// Whether all bytes of a new block are 0.
fn is_zeroed(rt: &impl Abort, heap: &mut Heap) -> bool
    ensures { heap.new.home ≡ heap.old.home }
{
    let block = heap.zmalloc(4032, 0).expect(rt, "a block");
    let is_zeroed = block.len() == 4032 && are_all(block.bytes(), 0);
    heap.free(block);
    is_zeroed
}

#[test]
fn bytes_of_blocks(rt: HostRuntime) {
    let mut heap = new_heap(&rt, rt.alloc(), 4096);
    let are_so = keep_their_bytes(&rt, &mut heap) && is_whole(&heap) && is_zeroed(&rt, &mut heap);
    end(&rt, heap);
    must(&rt, are_so, "the bytes");
}
